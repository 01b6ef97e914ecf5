// Requests, and what the heads of replies mean (RFC 9110 sections 14 and 15).
use crate::spelling::{add_shown, spelled};
use dl_kinds::Code;
use http_heads::{Head, HeadRead, read_head};
use range_http::{Asked, Framing, Verdict, classify, location, persists, read_range, request};
use std::alloc::Global;
use test_lines::{Output, after, before, number};

/// What a line asks of heads.
#[derive(Clone, Copy)]
pub enum HeadLine {
    Request,
    Reply,
    Range,
}

// What is asked for: `0-4/5`, or `0-0` where the length isn't known.
fn asked_of(text: &str) -> Asked {
    let span = before(text, '/');
    Asked {
        first: number(before(span, '-')),
        last: number(after(span, '-')),
        total: if span == text {
            None
        } else {
            Some(number(after(text, '/')))
        },
    }
}

fn add_total(total: Option<u64>, output: &mut Output) {
    match total {
        Some(total) => output.number(total),
        None => output.text("*"),
    }
}

fn add_framing(framing: Framing, output: &mut Output) {
    match framing {
        Framing::Length(length) => {
            output.counted(", ", length);
            output.text(" bytes");
        }
        Framing::Chunked => output.text(", chunked"),
        Framing::ToEnd => output.text(", to the end"),
    }
}

fn add_verdict(verdict: Verdict, output: &mut Output) {
    match verdict {
        Verdict::Part {
            last,
            total,
            framing,
        } => {
            output.counted("up to ", last);
            output.text(" of ");
            add_total(total, output);
            add_framing(framing, output);
        }
        Verdict::Whole { total, framing } => {
            output.text("all of ");
            add_total(total, output);
            add_framing(framing, output);
        }
        Verdict::Empty => output.text("empty"),
        Verdict::WrongLength { told } => output.counted("wrong length ", told),
        Verdict::Moved => output.text("moved"),
        Verdict::NotFound => output.text("not found"),
        Verdict::Refused { code: Code(code) } => output.counted("refused, ", code as u64),
    }
}

fn add_head(head: &Head, used: u32, asked: &Asked, output: &mut Output) {
    add_verdict(classify(head, asked), output);
    output.counted("; ", used as u64);
    output.text(if persists(head) {
        " bytes, goes on"
    } else {
        " bytes, closes"
    });
    if let Some(place) = location(head) {
        output.text(", moved to '");
        output.text(place);
        output.text("'");
    }
}

// Adds what the head of a reply means for what was asked.
fn add_reply(alloc: Global, asked: &Asked, bytes: &[u8], output: &mut Output) {
    match read_head(alloc, bytes) {
        HeadRead::Whole { head, used } => add_head(&head, used, asked, output),
        HeadRead::More => output.text("unfinished"),
        HeadRead::Bad => output.text("no head"),
        HeadRead::NoMemory => output.text("out of memory"),
    }
}

// Adds a request to the byte.
fn add_request(alloc: Global, asked: &Asked, words: &str, output: &mut Output) {
    if let Ok(text) = request(alloc, after(words, ' '), before(words, ' '), asked) {
        output.number(text.len() as u64);
        output.text(" bytes: ");
        add_shown(alloc, &text, output);
    }
}

fn add_span(span: Option<(u64, u64)>, output: &mut Output) {
    match span {
        Some((first, last)) => {
            output.number(first);
            output.counted("-", last);
        }
        None => output.text("*"),
    }
    output.text("/");
}

fn add_range(text: &[u8], output: &mut Output) {
    match read_range(text) {
        Some(range) => {
            add_span(range.span, output);
            add_total(range.total, output);
        }
        None => output.text("none"),
    }
}

/// Adds what comes of a line on requests and heads.
pub fn add_head_line(alloc: Global, kind: HeadLine, rest: &str, output: &mut Output) {
    let asked = asked_of(before(rest, ' '));
    let behind = after(rest, ' ');
    match kind {
        HeadLine::Range => add_range(&spelled(alloc, rest), output),
        HeadLine::Request => add_request(alloc, &asked, behind, output),
        HeadLine::Reply => add_reply(alloc, &asked, &spelled(alloc, behind), output),
    }
}
