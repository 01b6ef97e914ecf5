// Lines of cases, each carried out behind the lines before it.
use crate::bencoding::{add_looking, add_reading};
use crate::bodies::add_body_line;
use crate::buckets::{BucketLine, add_bucket_line, bucket_of};
use crate::heads::{HeadLine, add_head_line};
use crate::jobs::{add_added, add_job};
use crate::layouts::{add_layout, add_parts};
use crate::metainfos::{add_metainfo, add_url};
use crate::numbers::{NumberLine, add_number_line};
use crate::replies::{ReplyLine, add_reply_line};
use crate::rows::{RowLine, add_row_line};
use rate_tokens::Bucket;
use std::alloc::Global;
use test_lines::{Output, Trial, after, before, keyword, set, u32s};

/// What lines go on with.
#[derive(Drop)]
pub struct Cases {
    alloc: Global,
    bucket: Bucket,
    // How many bytes of a stream come at once, in each way.
    cuts: Vec<u32>,
}

// What a line's first word asks for.
#[derive(Clone, Copy)]
enum Line {
    Cuts,
    Ben,
    Look,
    Body,
    Head(HeadLine),
    Reply(ReplyLine),
    Layout,
    Parts,
    Meta,
    Url,
    Added,
    Job,
    Number(NumberLine),
    Row(RowLine),
    Bucket(BucketLine),
    Other,
}

const LINES: [(&str, Line); 29] = [
    ("cuts", Line::Cuts),
    ("ben", Line::Ben),
    ("look", Line::Look),
    ("body", Line::Body),
    ("request", Line::Head(HeadLine::Request)),
    ("reply", Line::Head(HeadLine::Reply)),
    ("range", Line::Head(HeadLine::Range)),
    ("heads", Line::Reply(ReplyLine::Heads)),
    ("slice", Line::Reply(ReplyLine::Slice)),
    ("mark", Line::Reply(ReplyLine::Mark)),
    ("layout", Line::Layout),
    ("parts", Line::Parts),
    ("meta", Line::Meta),
    ("url", Line::Url),
    ("added", Line::Added),
    ("job", Line::Job),
    ("plan", Line::Number(NumberLine::Plan)),
    ("block", Line::Number(NumberLine::Block)),
    ("piece", Line::Number(NumberLine::Piece)),
    ("half", Line::Number(NumberLine::Half)),
    ("id", Line::Number(NumberLine::Id)),
    ("row", Line::Row(RowLine::Row)),
    ("turn", Line::Row(RowLine::Turn)),
    ("zeros", Line::Row(RowLine::Zeros)),
    ("next", Line::Row(RowLine::Next)),
    ("bucket", Line::Bucket(BucketLine::Begin)),
    ("rate", Line::Bucket(BucketLine::Rate)),
    ("take", Line::Bucket(BucketLine::Take)),
    ("credit", Line::Bucket(BucketLine::Credit)),
];

impl Cases {
    /// Before the first line.
    pub fn new(alloc: Global) -> Cases {
        Cases {
            alloc,
            bucket: bucket_of("0 0"),
            cuts: u32s(alloc, "65536", ' '),
        }
    }

    // Writes what comes of a line that asks something.
    fn ask(&mut self, line: Line, rest: &str, output: &mut Output) {
        let alloc = self.alloc;
        match line {
            Line::Ben => add_reading(alloc, rest, output),
            Line::Look => add_looking(alloc, rest, output),
            Line::Body => add_body_line(alloc, rest, &self.cuts, output),
            Line::Head(kind) => add_head_line(alloc, kind, rest, output),
            Line::Reply(kind) => add_reply_line(alloc, kind, rest, &self.cuts, output),
            Line::Layout => add_layout(alloc, rest, output),
            Line::Parts => add_parts(alloc, rest, output),
            Line::Meta => add_metainfo(alloc, rest, output),
            Line::Url => add_url(alloc, rest, output),
            Line::Added => add_added(alloc, rest, output),
            Line::Job => add_job(alloc, rest, output),
            Line::Number(kind) => add_number_line(kind, rest, output),
            Line::Row(kind) => add_row_line(alloc, kind, rest, output),
            Line::Bucket(kind) => add_bucket_line(&mut self.bucket, kind, rest, output),
            _ => output.text("no line of a case"),
        }
    }
}

impl Trial for Cases {
    fn begin(&mut self) {
        self.bucket = bucket_of("0 0");
        set(&mut self.cuts, u32s(self.alloc, "65536", ' '));
    }

    fn step(&mut self, line: &str, output: &mut Output) {
        let rest = after(line, ' ');
        match keyword(&LINES, before(line, ' '), Line::Other) {
            Line::Cuts => set(&mut self.cuts, u32s(self.alloc, rest, ' ')),
            kind => {
                output.text("  ");
                self.ask(kind, rest, output);
                output.text("\n");
            }
        }
    }
}
