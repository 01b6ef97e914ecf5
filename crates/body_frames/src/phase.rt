// Where in a body its stream stands.
ghost use Rattle.std.specs.Prelude.{◌≡◌, ◌≢◌, ◌==◌, if◌then◌else◌, ◌≤◌, ◌<◌, ◌↔◌, ℕ, List, length};
ghost use Rattle.body_frames.specs.Bodies.{Length, body_of};
ghost use Rattle.body_frames.specs.Reading.{Means, Moves, TakesByte, chunk_data};

use crate::line::{LINE_LIMIT, LineStep, OpenLine, SizeLine, SizeStep};
use crate::{BodyEnd, BodyErr};
use std::num::{NonZeroU32, NonZeroU64};

/// How many trailer lines a body may have.
pub const TRAILER_LIMIT: u32 = 64;

#[derive(Clone, Copy, Debug, PartialEq, Eq)]
pub(crate) enum Phase {
    Content(Run),
    Line(Line),
    Over,
    Stopped,
}

/// Content that is still to come.
#[derive(Clone, Copy, Debug, PartialEq, Eq)]
pub(crate) enum Run {
    Length(NonZeroU64),
    Chunk(NonZeroU32),
    ToEnd,
}

/// A line round the chunks.
#[derive(Clone, Copy, Debug, PartialEq, Eq)]
pub(crate) enum Line {
    Size(SizeLine),
    ChunkEnd(OpenLine),
    // A trailer line, or the empty one behind them, and how many trailer lines may still come.
    Trailer(OpenLine, u32),
}

impl Phase {
    pub(crate) fn length(len: u64) -> Self
        ensures means { Means result (body_of (Length len)) }
        ensures goes_on { result ≢ Phase.Stopped }
    {
        match NonZeroU64::new(len) {
            Some(left) => Phase::Content(Run::Length(left)),
            None => Phase::Over,
        }
    }

    fn chunk(size: u32) -> Self
        ensures means { Means result (chunk_data size) }
        ensures goes_on { result ≢ Phase.Stopped }
    {
        match NonZeroU32::new(size) {
            Some(left) => Phase::Content(Run::Chunk(left)),
            None => Phase::Line(Line::ChunkEnd(OpenLine::new())),
        }
    }
}

impl Run {
    /// How the body stands if its stream ends in this run.
    pub(crate) fn end(self) -> BodyEnd
        ensures { (result ≡ BodyEnd.Whole) ↔ (self ≡ Run.ToEnd) }
    {
        match self {
            Run::ToEnd => BodyEnd::Whole,
            Run::Length(_) | Run::Chunk(_) => BodyEnd::Short,
        }
    }

    /// How many of the next bytes are of the run, and what stands behind them.
    pub(crate) fn take(self, available: usize) -> (usize, Phase)
        ensures most { result.0 ≤ available }
        ensures some { 0 < available → 0 < result.0 }
        ensures moves { (bytes : List ℕ) → length bytes ≡ result.0 →
            Moves (Phase.Content self) bytes bytes result.1 }
    {
        match self {
            Run::Length(left) => {
                let left = left.get();
                let taken = available.min(left as usize);
                (taken, Phase::length(left - taken as u64))
            }
            Run::Chunk(left) => {
                let left = left.get();
                let taken = available.min(left as usize);
                (taken, Phase::chunk(left - taken as u32))
            }
            Run::ToEnd => (available, Phase::Content(Run::ToEnd)),
        }
    }
}

impl Line {
    /// Takes the next byte.
    pub(crate) fn next(self, byte: u8) -> Result<Phase, BodyErr>
        ensures { TakesByte (Phase.Line self) byte result }
    {
        match self {
            Line::Size(size) => Line::next_of_size(size, byte),
            Line::ChunkEnd(line) => Line::next_of_chunk_end(line, byte),
            Line::Trailer(line, left) => Line::next_of_trailer(line, left, byte),
        }
    }

    fn next_of_size(size: SizeLine, byte: u8) -> Result<Phase, BodyErr>
        ensures { TakesByte (Phase.Line (Line.Size size)) byte result }
    {
        match size.next(byte)? {
            SizeStep::Open(size) => Ok(Phase::Line(Line::Size(size))),
            SizeStep::Ended(0) => Ok(Phase::Line(Line::Trailer(OpenLine::new(), TRAILER_LIMIT))),
            SizeStep::Ended(size) => Ok(Phase::chunk(size)),
        }
    }

    fn next_of_chunk_end(line: OpenLine, byte: u8) -> Result<Phase, BodyErr>
        ensures { TakesByte (Phase.Line (Line.ChunkEnd line)) byte result }
    {
        match line.next(byte, 0) {
            LineStep::Open(line) => Ok(Phase::Line(Line::ChunkEnd(line))),
            LineStep::Ended => Ok(Phase::Line(Line::Size(SizeLine::new()))),
            LineStep::TooLong => Err(BodyErr::BadChunk),
        }
    }

    fn next_of_trailer(line: OpenLine, left: u32, byte: u8) -> Result<Phase, BodyErr>
        ensures { TakesByte (Phase.Line (Line.Trailer line left)) byte result }
    {
        match line.next(byte, Line::trailer_limit(left)) {
            LineStep::Open(line) => Ok(Phase::Line(Line::Trailer(line, left))),
            LineStep::Ended if line.is_empty() => Ok(Phase::Over),
            LineStep::Ended => Ok(Phase::Line(Line::Trailer(
                OpenLine::new(),
                left.saturating_sub(1),
            ))),
            LineStep::TooLong => Err(BodyErr::LineTooLong),
        }
    }

    // How long the next trailer line may be: only the empty line may stand where no other may.
    fn trailer_limit(left: u32) -> u32
        ensures { result ≡ (if left == 0 then 0 else 256) }
    {
        if left == 0 { 0 } else { LINE_LIMIT }
    }
}
