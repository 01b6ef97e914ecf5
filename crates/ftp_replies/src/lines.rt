// The lines of a reply.
ghost use Rattle.std.specs.Prelude.{◌≡◌, ◌-◌, ℕ};
ghost use Rattle.ftp_replies.specs.Fronts.{AnswersFront};
ghost use Rattle.ftp_replies.specs.Lines.{IsReplyLine};
ghost use Rattle.ftp_replies.specs.Replies.{IsReply};
ghost use Rattle.ftp_replies.specs.Closings.{ClosesBehind, MayClose};

use crate::MAX_REPLY_LINES;
use crate::front::{Front, begins};
use crate::line::{line_len, read_line};

// Reads the only line that may still come, which has to begin with the closing.
fn read_last(bytes: &[u8], closing: &[u8]) -> Front
    requires { MayClose closing.now }
    ensures { AnswersFront (ClosesBehind closing.now (MAX_REPLY_LINES - 1)) bytes.now result }
{
    match read_line(bytes) {
        Front::Whole(len) => {
            if begins(&bytes[..len], closing) {
                Front::Whole(len)
            } else {
                Front::Bad
            }
        }
        Front::More => {
            if begins(bytes, closing) || begins(closing, bytes) {
                Front::More
            } else {
                Front::Bad
            }
        }
        Front::Bad => Front::Bad,
    }
}

/// Reads lines up to the first one that begins with the closing.
pub(crate) fn read_lines(bytes: &[u8], closing: &[u8]) -> Front
    requires { MayClose closing.now }
    ensures { AnswersFront (ClosesBehind closing.now 0) bytes.now result }
{
    let mut used = 0;
    for lines in 0..MAX_REPLY_LINES - 1 {
        let rest = &bytes[used..];
        match read_line(rest) {
            Front::Whole(len) => {
                used += len;
                if begins(&rest[..len], closing) {
                    return Front::Whole(used);
                }
            }
            Front::More => return Front::More,
            Front::Bad => return Front::Bad,
        }
    }
    match read_last(&bytes[used..], closing) {
        Front::Whole(len) => Front::Whole(used + len),
        Front::More => Front::More,
        Front::Bad => Front::Bad,
    }
}

/// The last line of a reply.
pub fn last_line(reply: &[u8]) -> &[u8]
    ensures { (code : ℕ) (is : IsReply code reply.now) → result.now ≡ is.last }
{
    let mut rest = reply;
    while let Some(len) = line_len(rest) {
        if len == rest.len() {
            return rest;
        }
        rest = &rest[len..];
    }
    rest
}
