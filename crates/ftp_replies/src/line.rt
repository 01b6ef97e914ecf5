// A line: text up to the first CR LF.
ghost use Rattle.std.specs.Prelude.{◌≡◌, ◌⊎◌, ◌+◌, length, IfSome, IfNone, ℕ};
ghost use Rattle.ftp_replies.specs.Fronts.{AnswersFront};
ghost use Rattle.ftp_replies.specs.Lines.{IsReplyLine};
ghost use Rattle.ftp_replies.specs.LineEnds.{LineEndsAt, IsFirstEnd, missing};

use crate::MAX_LINE_BYTES;
use crate::front::Front;

/// How many bytes the first line has, of any length.
pub(crate) fn line_len(bytes: &[u8]) -> Option<usize>
    ensures some { IfSome result (IsFirstEnd bytes.now) }
    ensures none { IfNone result ((at : ℕ) → LineEndsAt bytes.now at → ⊥) }
{
    for at in 1..bytes.len() {
        if bytes[at - 1] == b'\r' && bytes[at] == b'\n' {
            return Some(at + 1);
        }
    }
    None
}

// How many bytes a line lacks at least whose CR LF hasn't come.
fn missing(bytes: &[u8]) -> usize
    ensures { result ≡ missing bytes.now }
{
    if bytes.last() == Some(&b'\r') { 1 } else { 2 }
}

/// Reads the line at the front.
pub(crate) fn read_line(bytes: &[u8]) -> Front
    ensures { AnswersFront IsReplyLine bytes.now result }
{
    match line_len(bytes) {
        Some(len) => {
            if len <= MAX_LINE_BYTES {
                Front::Whole(len)
            } else {
                Front::Bad
            }
        }
        None => {
            if bytes.len() + missing(bytes) <= MAX_LINE_BYTES {
                Front::More
            } else {
                Front::Bad
            }
        }
    }
}
