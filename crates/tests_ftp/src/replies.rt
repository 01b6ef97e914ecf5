// Replies, and what their last lines tell (RFC 959 sections 4.1.2 and 4.2, RFC 3659 section 4.2).
use ftp_replies::{ReplyRead, passive_port, read_reply, told_size};
use test_lines::Output;

// The fewest of the bytes that begin with a reply, or behind which none can come.
fn settled_at(bytes: &[u8]) -> usize {
    for at in 0..bytes.len() {
        if read_reply(&bytes[..at]) != ReplyRead::More {
            return at;
        }
    }
    bytes.len()
}

/// Adds the code of the reply at the front, and how many bytes it takes; or whether one is due; and where that is settled, as the
/// bytes come one by one.
pub fn add_reply(bytes: &[u8], output: &mut Output) {
    match read_reply(bytes) {
        ReplyRead::Whole { code, used } => {
            output.number(code as u64);
            output.counted(" ", used as u64);
        }
        ReplyRead::More => return output.text("due"),
        ReplyRead::Bad => output.text("bad"),
    }
    output.counted(" by ", settled_at(bytes) as u64);
}

// Adds a number, if there is one.
fn add_told(told: Option<u64>, output: &mut Output) {
    match told {
        Some(number) => output.number(number),
        None => output.text("none"),
    }
}

pub fn add_port(line: &[u8], output: &mut Output) {
    add_told(passive_port(line).map(|port| port as u64), output);
}

pub fn add_size(line: &[u8], output: &mut Output) {
    add_told(told_size(line), output);
}
