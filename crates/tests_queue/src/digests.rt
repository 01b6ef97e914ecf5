// Digests of messages that come in pieces (FIPS 180-4).
use dl_kinds::Blob;
use std::alloc::Global;
use test_lines::{Output, after, before, spelled};
use verify_piece::{Sealed, WholeCheck};

// Whether a message has the digest, of which so many bytes come at once.
fn is_right(check: &WholeCheck, message: &[u8], cut: u32) -> bool {
    let mut hash = check.begin();
    for piece in message.chunks(cut.max(1) as usize) {
        hash.update(piece);
    }
    hash.right()
}

// Adds whether a message has the digest, and in which ways it comes otherwise than in the first of these.
fn add_whole(check: &WholeCheck, message: &[u8], cuts: &[u32], output: &mut Output) {
    let first = is_right(check, message, 65_536);
    output.text(if first { "right" } else { "wrong" });
    for cut in cuts {
        if is_right(check, message, *cut) != first {
            output.counted(", OTHERWISE AT ", *cut as u64);
        }
    }
}

// Whether a message has the digest that comes in two pieces.
fn is_right_cut(check: &WholeCheck, message: &[u8], cut: usize) -> bool {
    let (front, back) = message.split_at(cut.min(message.len()));
    let mut hash = check.begin();
    hash.update(front);
    hash.update(back);
    hash.right()
}

// Adds in how many ways a message has the digest that comes in two pieces.
fn add_split(check: &WholeCheck, message: &[u8], output: &mut Output) {
    let ways = message.len().saturating_add(1);
    let mut right: u64 = 0;
    for cut in 0..ways {
        right = right.saturating_add(is_right_cut(check, message, cut) as u64);
    }
    output.counted("right at ", right);
    output.counted(" of ", ways as u64);
    output.text(" cuts");
}

/// Adds whether a message has a digest, where so many bytes of it come at once; of no cuts, in two pieces at each place.
pub fn add_compared(alloc: Global, rest: &str, cuts: &[u32], output: &mut Output) {
    let message = spelled(alloc, after(rest, ' '));
    match WholeCheck::read(before(rest, ' ')) {
        Some(check) if cuts.is_empty() => add_split(&check, &message, output),
        Some(check) => add_whole(&check, &message, cuts, output),
        None => output.text("no digest"),
    }
}

/// Adds the digest of a piece.
pub fn add_sealed(alloc: Global, parts: &str, output: &mut Output) {
    let sealed = Sealed::of(7, Blob::wrap(spelled(alloc, parts)));
    output.hex_bytes(alloc, sealed.digest().as_slice());
}
