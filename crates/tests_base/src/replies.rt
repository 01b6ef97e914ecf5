// One reply, read as its stream comes (RFC 9110 section 15.2, RFC 9112 sections 6 and 7).
ghost use Rattle.std.specs.Prelude.{◌<◌, ◌≤◌, length};

use crate::spelling::{Answers, add_shown, spelled};
use dl_kinds::Code;
use range_http::Framing;
use reply_reader::{HeadReader, HeadsRead, Loss, SliceReader, SliceState};
use std::alloc::Global;
use test_lines::{Output, after, keyword, name_of, number, u16_at, u64_at, word};

/// What a line asks of a reply.
#[derive(Clone, Copy)]
pub enum ReplyLine {
    Heads,
    Slice,
    Mark,
}

/// So many bytes of a slice are taken at once at most.
const ROOM: usize = 2;

// What came of the heads so far.
#[derive(Clone, Copy)]
enum Came {
    More,
    Whole { status: u16, used: u64 },
    Bad,
    NoMemory,
}

// Takes the next piece of heads, behind so many bytes.
fn take(alloc: Global, reader: &mut HeadReader, piece: &[u8], before: u64) -> Came
    requires { length piece.now ≤ 65536 }
{
    match reader.take(alloc, piece) {
        HeadsRead::Whole { head, used } => Came::Whole {
            status: head.status,
            used: before.saturating_add(used as u64),
        },
        HeadsRead::More => Came::More,
        HeadsRead::Bad => Came::Bad,
        HeadsRead::NoMemory => Came::NoMemory,
    }
}

// Takes the heads of a stream that comes so many bytes at once.
fn take_all(alloc: Global, reader: &mut HeadReader, stream: &[u8], cut: usize) -> Came
    requires some { 0 < cut }
    requires few { cut ≤ 65536 }
{
    let mut before = 0u64;
    for piece in stream.chunks(cut) {
        match take(alloc, reader, piece, before) {
            Came::More => before = before.saturating_add(piece.len() as u64),
            came => return came,
        }
    }
    Came::More
}

// Adds the status of the final head, and how many bytes all heads take; or whether it may still come.
fn add_came(alloc: Global, reader: &HeadReader, came: Came, output: &mut Output) {
    match came {
        Came::Whole { status, used } => {
            output.number(status as u64);
            output.counted(" ", used);
        }
        Came::More => output.text(match reader.is_due(alloc) {
            Ok(true) => "due",
            Ok(false) => "bad",
            Err(_) => "out of memory",
        }),
        Came::Bad => output.text("bad"),
        Came::NoMemory => output.text("out of memory"),
    }
}

fn add_heads(alloc: Global, stream: &[u8], cut: u32, output: &mut Output) {
    let mut reader = HeadReader::new(alloc);
    let came = take_all(alloc, &mut reader, stream, cut.max(1).min(65_536) as usize);
    add_came(alloc, &reader, came, output);
}

fn framing_of(word: &str) -> Framing {
    match keyword(&[("chunked", 0), ("to-end", 1)], word, 2) {
        0 => Framing::Chunked,
        1 => Framing::ToEnd,
        _ => Framing::Length(number(word)),
    }
}

const STATES: [(&str, SliceState); 4] = [
    ("more", SliceState::More),
    ("all came", SliceState::Come),
    ("wrong", SliceState::Wrong),
    ("over", SliceState::Over),
];

// Takes what a reader takes of a stream that comes so many bytes at once.
fn take_slice(
    reader: &mut SliceReader,
    stream: &[u8],
    cut: usize,
    out: &mut Vec<u8>,
    dropped: &mut Vec<u8>,
) -> SliceState
    requires some { 0 < cut }
    requires few { cut ≤ 65536 }
{
    let mut rest = stream;
    let mut state = SliceState::More;
    for _ in 0..stream.len() {
        let piece = &rest[..rest.len().min(cut)];
        if piece.is_empty() || state != SliceState::More {
            break;
        }
        let (Ok(()), Ok(())) = (out.reserve(ROOM), dropped.reserve(65_536)) else {
            break;
        };
        let read = reader.take(piece, ROOM, out, dropped);
        state = read.state;
        rest = &rest[read.used as usize..];
    }
    state
}

// Adds some bytes of a content behind some others, and how it stands with them.
fn add_slice(alloc: Global, rest: &str, stream: &[u8], cut: u32, output: &mut Output) {
    let framing = framing_of(word(rest, 0));
    let mut reader = SliceReader::new(framing, u64_at(rest, 1), u64_at(rest, 2));
    let mut out = Vec::new(alloc);
    let mut dropped = Vec::new(alloc);
    let cut = cut.max(1).min(65_536) as usize;
    let state = take_slice(&mut reader, stream, cut, &mut out, &mut dropped);
    add_shown(alloc, &out, output);
    output.text("; ");
    output.text(name_of(&STATES, &state));
}

fn ask_cut(
    alloc: Global,
    answers: &mut Answers,
    kind: ReplyLine,
    rest: &str,
    stream: &[u8],
    cut: u32,
) {
    let mut answer = Output::new(alloc);
    match kind {
        ReplyLine::Slice => add_slice(alloc, rest, stream, cut, &mut answer),
        _ => add_heads(alloc, stream, cut, &mut answer),
    }
    answers.add(&answer, cut as u64);
}

// Adds what comes of a stream, in each way in which it comes.
fn add_stream(
    alloc: Global,
    kind: ReplyLine,
    rest: &str,
    stream: &[u8],
    cuts: &[u32],
    output: &mut Output,
) {
    let mut answers = Answers::new(alloc);
    for cut in cuts {
        ask_cut(alloc, &mut answers, kind, rest, stream, *cut);
    }
    answers.add_to(output);
}

const LOSSES: [(&str, Loss); 8] = [
    ("link", Loss::Link { count: 0 }),
    ("not-found", Loss::NotFound),
    (
        "refused",
        Loss::Refused {
            status: 0,
            code: Code(0),
        },
    ),
    ("bad-reply", Loss::BadReply),
    ("length", Loss::Length { told: 0, want: 0 }),
    ("short", Loss::Short { got: 0 }),
    ("redirects", Loss::Redirects),
    ("memory", Loss::NoMemory),
];

fn loss_of(words: &str) -> Loss {
    match keyword(&LOSSES, word(words, 0), Loss::NoMemory) {
        Loss::Link { .. } => Loss::Link {
            count: u64_at(words, 1),
        },
        Loss::Refused { .. } => Loss::Refused {
            status: u16_at(words, 1),
            code: Code(u16_at(words, 2).min(255) as u8),
        },
        Loss::Length { .. } => Loss::Length {
            told: u64_at(words, 1),
            want: u64_at(words, 2),
        },
        Loss::Short { .. } => Loss::Short {
            got: u64_at(words, 1),
        },
        loss => loss,
    }
}

fn add_mark(loss: Loss, output: &mut Output) {
    match loss.mark() {
        Some(mark) => {
            output.number(mark.code.0 as u64);
            output.counted(" ", mark.count as u64);
        }
        None => output.text("none"),
    }
}

/// Adds what comes of a line on a reply, which comes in each of these ways.
pub fn add_reply_line(
    alloc: Global,
    kind: ReplyLine,
    rest: &str,
    cuts: &[u32],
    output: &mut Output,
) {
    match kind {
        ReplyLine::Mark => add_mark(loss_of(rest), output),
        ReplyLine::Heads => {
            add_stream(alloc, kind, rest, &spelled(alloc, rest), cuts, output);
        }
        ReplyLine::Slice => {
            let parts = after(after(after(rest, ' '), ' '), ' ');
            add_stream(alloc, kind, rest, &spelled(alloc, parts), cuts, output);
        }
    }
}
