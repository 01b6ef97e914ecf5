// The empty line that ends a head.
ghost use Rattle.std.specs.Prelude.{◌≡◌, ◌↔◌, ◌≤◌, ℕ, IsTrue, IsFalse};
ghost use Rattle.http_heads.specs.declared.head.Head.{Head};
ghost use Rattle.range_http.specs.EmptyLine.{ends_in_empty_line, HasEmptyLine};
ghost use Rattle.http_heads.specs.Heads.{IsHead};

fn ends_in_empty_line(bytes: &[u8]) -> bool
    ensures { result ≡ ends_in_empty_line bytes.now }
{
    bytes.ends_with(b"\n\n") || bytes.ends_with(b"\n\r\n")
}

/// Whether an empty line ends in the bytes from this place on. Each head ends in one, so bytes that begin with no head
/// up to the place, and have no empty line behind it, begin with no head. Who reads a stream in small pieces asks this
/// first, and [`read_head`](http_heads::read_head) only where it says so, at 65,536 bytes and at the end of the stream: that
/// reads each byte again at each call.
pub fn has_empty_line(bytes: &[u8], from: usize) -> bool
    ensures line { IsTrue result ↔ HasEmptyLine bytes.now from }
    ensures head { IsFalse result
        → (head : Head) (used : ℕ) → IsHead bytes.now head used → used ≤ from }
{
    for last in from..bytes.len() {
        if ends_in_empty_line(&bytes[..last + 1]) {
            return true;
        }
    }
    false
}
