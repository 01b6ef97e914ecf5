// Whether a request target is still being read.
ghost use Rattle.std.specs.Prelude.{◌≡◌, ◌↔◌, ℕ, List, ◌++◌, IfSome, IfNone, IsTrue};
ghost use Rattle.std.specs.List.{list_all};
ghost use Rattle.httparse.specs.Grammar.{LineEnd, is_token_byte, is_uri_byte, print_blank, EndsInTarget};
ghost use Rattle.httparse.specs.Pieces.{Begins, IsRunAt, Newline, Method};

use httparse::{is_method_token, is_uri_token};

fn behind_line_end(bytes: &[u8]) -> Option<&[u8]>
    ensures some { IfSome result (λ rest. (end : LineEnd) × Newline end bytes.now rest.now) }
    ensures none { IfNone result (Begins Newline bytes.now → ⊥) }
{
    match bytes {
        [b'\n', rest @ ..] => Some(rest),
        [b'\r', b'\n', rest @ ..] => Some(rest),
        _ => None,
    }
}

// What stands behind the empty lines.
fn behind_blank(bytes: &[u8]) -> &[u8]
    ensures blank { (ends : List LineEnd) × (bytes.now ≡ print_blank ends ++ result.now) }
    ensures rest { Begins Newline result.now → ⊥ }
{
    let mut rest = bytes;
    while let Some(line) = behind_line_end(rest) {
        rest = line;
    }
    rest
}

// How many bytes of a token stand at the front.
fn token_len(bytes: &[u8]) -> usize
    ensures { IsRunAt is_token_byte bytes.now 0 result }
{
    for (len, byte) in bytes.iter().enumerate() {
        if !is_method_token(*byte) {
            return len;
        }
    }
    bytes.len()
}

// What stands behind the method and its space.
fn behind_method(bytes: &[u8]) -> Option<&[u8]>
    ensures some { IfSome result (λ rest. (method : List ℕ) × Method method bytes.now rest.now) }
    ensures none { IfNone result (Begins Method bytes.now → ⊥) }
{
    let len = token_len(bytes);
    if len > 0 && len < bytes.len() && bytes[len] == b' ' {
        Some(&bytes[len + 1..])
    } else {
        None
    }
}

fn is_target(bytes: &[u8]) -> bool
    ensures { result ≡ list_all is_uri_byte bytes.now }
{
    bytes.iter().all(|byte| is_uri_token(*byte))
}

/// Whether the bytes end in a request target.
pub(crate) fn ends_in_target(bytes: &[u8]) -> bool
    ensures { IsTrue result ↔ EndsInTarget bytes.now }
{
    match behind_method(behind_blank(bytes)) {
        Some(target) => is_target(target),
        None => false,
    }
}
