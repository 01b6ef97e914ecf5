// A reply: one line behind its code, or lines up to one that begins with the code and a space.
ghost use Rattle.std.specs.Prelude.{◌≡◌, ◌≢◌, ◌<◌, ℕ, [], ◌∷◌, IfSome, IfNone};
ghost use Rattle.std.specs.Char.{is_ascii_digit};
ghost use Rattle.std.specs.List.{list_all};
ghost use Rattle.ftp_replies.specs.Replies.{code_text, AnswersReply};

use crate::front::Front;
use crate::lines::read_lines;

/// What bytes begin with.
#[derive(Clone, Copy, Debug, PartialEq, Eq)]
pub enum ReplyRead {
    /// A reply, and how many bytes it takes.
    Whole { code: u16, used: u32 },
    /// The front of a reply.
    More,
    /// Neither, or a line of more than 512 bytes, or more than 64 lines.
    Bad,
}

// The number that three digits write.
fn code_of(hundreds: u8, tens: u8, ones: u8) -> Option<u16>
    ensures some { IfSome result (λ code. (code < 1000)
        × (code_text code ≡ hundreds ∷ tens ∷ ones ∷ [])) }
    ensures none { IfNone result ((code : ℕ) → code < 1000
        → code_text code ≢ hundreds ∷ tens ∷ ones ∷ []) }
{
    if !(hundreds.is_ascii_digit() && tens.is_ascii_digit() && ones.is_ascii_digit()) {
        return None;
    }
    let high = u16::from(hundreds - b'0') * 10 + u16::from(tens - b'0');
    Some(high * 10 + u16::from(ones - b'0'))
}

fn are_digits(bytes: &[u8]) -> bool
    ensures { result ≡ list_all is_ascii_digit bytes.now }
{
    bytes.iter().all(|byte| byte.is_ascii_digit())
}

/// Reads the reply at the front of the bytes.
pub fn read_reply(bytes: &[u8]) -> ReplyRead
    ensures { AnswersReply bytes.now result }
{
    let [hundreds, tens, ones, mark, ..] = bytes else {
        return if are_digits(bytes) {
            ReplyRead::More
        } else {
            ReplyRead::Bad
        };
    };
    if *mark != b' ' && *mark != b'-' {
        return ReplyRead::Bad;
    }
    let Some(code) = code_of(*hundreds, *tens, *ones) else {
        return ReplyRead::Bad;
    };
    match read_lines(bytes, &[*hundreds, *tens, *ones, b' ']) {
        Front::Whole(used) => ReplyRead::Whole {
            code,
            used: used as u32,
        },
        Front::More => ReplyRead::More,
        Front::Bad => ReplyRead::Bad,
    }
}
