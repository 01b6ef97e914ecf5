// Bodies of replies in pieces (RFC 9112 sections 6 and 7).
ghost use Rattle.std.specs.Prelude.{◌<◌, ◌≤◌};

use crate::spelling::{Answers, add_shown, spelled};
use body_frames::{Body, BodyEnd, BodyErr};
use std::alloc::Global;
use test_lines::{Output, after, before, keyword, number};

/// Shorter bodies are cut in two at each byte.
const CUT_ANYWHERE: usize = 100;

fn body_of(framing: &str) -> Body {
    match keyword(&[("chunked", 0), ("to-end", 1)], framing, 2) {
        0 => Body::chunked(),
        1 => Body::to_end(),
        _ => Body::length(number(framing)),
    }
}

// Feeds pieces of so many bytes: how many of them are the body's, or the first fault.
fn feed_all(body: &mut Body, stream: &[u8], cut: usize, out: &mut Vec<u8>) -> Result<u64, BodyErr>
    requires some { 0 < cut }
    requires few { cut ≤ 65536 }
{
    let mut used = 0u64;
    for piece in stream.chunks(cut) {
        used = used.saturating_add(body.feed(piece, out)?.used as u64);
    }
    Ok(used)
}

fn add_end(body: &Body, output: &mut Output) {
    output.text(match body.end() {
        BodyEnd::Whole => ", whole",
        BodyEnd::Short => ", short",
    });
}

fn add_fault(fault: BodyErr, output: &mut Output) {
    output.text(match fault {
        BodyErr::BadChunk => "bad chunk",
        BodyErr::LineTooLong => "line too long",
        BodyErr::AfterError => "after an error",
        _ => "another answer",
    });
}

// Adds how a body stands that took all of a stream, of which so many bytes are its own. A body that was wrong stays so.
fn add_standing(
    body: &mut Body,
    used: Result<u64, BodyErr>,
    out: &mut Vec<u8>,
    output: &mut Output,
) {
    let next = body.feed(b"", out);
    match used {
        Ok(used) => {
            output.number(used);
            output.text(match next {
                Ok(fed) if fed.done => " used, done",
                Ok(_) => " used, open",
                Err(_) => " used, wrong",
            });
        }
        Err(fault) => {
            add_fault(fault, output);
            if next != Err(BodyErr::AfterError) {
                output.text(" once");
            }
        }
    }
    add_end(body, output);
}

// Adds what comes of a stream, of which so many bytes come at once.
fn add_cut(alloc: Global, framing: &str, stream: &[u8], cut: usize, output: &mut Output) {
    let mut body = body_of(framing);
    let mut out = Vec::new(alloc);
    let used = feed_all(&mut body, stream, cut.max(1).min(65_536), &mut out);
    add_shown(alloc, &out, output);
    output.text("; ");
    add_standing(&mut body, used, &mut out, output);
}

fn feed_both(
    body: &mut Body,
    front: &[u8],
    back: &[u8],
    out: &mut Vec<u8>,
) -> Result<u64, BodyErr> {
    let first = feed_all(body, front, 65_536, out)?;
    Ok(feed_all(body, back, 65_536, out)?.saturating_add(first))
}

// Adds what comes of a stream that comes in two pieces.
fn add_two(alloc: Global, framing: &str, front: &[u8], back: &[u8], output: &mut Output) {
    let mut body = body_of(framing);
    let mut out = Vec::new(alloc);
    let used = feed_both(&mut body, front, back, &mut out);
    add_shown(alloc, &out, output);
    output.text("; ");
    add_standing(&mut body, used, &mut out, output);
}

fn ask_cut(alloc: Global, answers: &mut Answers, framing: &str, stream: &[u8], cut: u32) {
    let mut answer = Output::new(alloc);
    add_cut(alloc, framing, stream, cut as usize, &mut answer);
    answers.add(&answer, cut as u64);
}

fn ask_two(alloc: Global, answers: &mut Answers, framing: &str, stream: &[u8], cut: usize) {
    let mut answer = Output::new(alloc);
    let (front, back) = stream.split_at(cut.min(stream.len()));
    add_two(alloc, framing, front, back, &mut answer);
    answers.add(&answer, cut as u64);
}

fn ask_all(alloc: Global, answers: &mut Answers, framing: &str, stream: &[u8], cuts: &[u32]) {
    for cut in cuts {
        ask_cut(alloc, answers, framing, stream, *cut);
    }
    if stream.len() < CUT_ANYWHERE {
        for cut in 0..stream.len() + 1 {
            ask_two(alloc, answers, framing, stream, cut);
        }
    }
}

/// Adds what comes of a body, in each way in which its stream comes.
pub fn add_body_line(alloc: Global, rest: &str, cuts: &[u32], output: &mut Output) {
    let stream = spelled(alloc, after(rest, ' '));
    let mut answers = Answers::new(alloc);
    ask_all(alloc, &mut answers, before(rest, ' '), &stream, cuts);
    answers.add_to(output);
}
