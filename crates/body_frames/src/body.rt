// A body that is read as its stream comes.
ghost use Rattle.std.specs.Prelude.{◌≡◌, ◌≢◌, ◌≤◌, ◌<◌, ◌+◌, ◌-◌, ◌^◌, ◌↔◌, ◌⊎◌, ℕ, List, [], ◌++◌, length, take, IfOk, IfErr, OnOk, OnErr, IsErrOf, IsTrue, vec_len, vec_capacity};
ghost use Rattle.std.specs.Vec.{VecUnchanged};
ghost use Rattle.body_frames.specs.Lines.{Whole, Wrong, IsFault};
ghost use Rattle.body_frames.specs.Bodies.{Length, Chunked, ToEnd, content_of, standing_of, used_of, IsOver, IsWrong, GainAlike};
ghost use Rattle.body_frames.specs.Reading.{IsFed, ForEachStream, Reads, ReadsWrong, Stops};

use crate::line::SizeLine;
use crate::phase::{Line, Phase, Run};
use crate::{BodyEnd, BodyErr, Fed};

/// A body that is read as its stream comes.
#[derive(Debug, Drop)]
pub struct Body {
    phase: Phase,
}

impl Body {
    /// A body of so many bytes.
    pub fn length(n: u64) -> Self
        ensures fed { IsFed (Length n) [] result }
        ensures nothing_yet { content_of (Length n) [] ≡ [] }
    {
        Body {
            phase: Phase::length(n),
        }
    }

    /// A body in chunks.
    pub fn chunked() -> Self
        ensures fed { IsFed Chunked [] result }
        ensures nothing_yet { content_of Chunked [] ≡ [] }
    {
        Body {
            phase: Phase::Line(Line::Size(SizeLine::new())),
        }
    }

    /// A body that ends where its stream ends.
    pub fn to_end() -> Self
        ensures fed { IsFed ToEnd [] result }
        ensures nothing_yet { content_of ToEnd [] ≡ [] }
    {
        Body {
            phase: Phase::Content(Run::ToEnd),
        }
    }

    /// Takes the next piece of the stream, and puts its content at the end of `out`. Bytes behind the body aren't
    /// used.
    ///
    /// `BadChunk` and `LineTooLong` come for the stream's first fault, once the content before it is in `out`, and
    /// then each piece gets `AfterError`. No memory is taken where `out` has room for the piece.
    pub fn feed(&mut self, piece: &[u8], out: &mut Vec<u8>) -> Result<Fed, BodyErr>
        requires { length piece.now < 2 ^ 32 }

        // The body was fed the piece too, and out gained the content that the piece brings.
        ensures fed { ForEachStream self.old (λ framing stream.
            result ≢ Err BodyErr.NoMemory → IsFed framing (stream ++ piece.now) self.new) }
        ensures content { ForEachStream self.old (λ framing stream.
            result ≢ Err BodyErr.NoMemory → GainAlike (content_of framing stream)
            (content_of framing (stream ++ piece.now)) out.old.items out.new.items) }

        // It lost nothing, gained no more than the piece's length, and kept its room.
        ensures grows { vec_len out.old ≤ vec_len out.new }
        ensures len { vec_len out.new ≤ vec_len out.old + length piece.now }
        ensures capacity { vec_capacity out.old ≤ vec_capacity out.new }

        // What of the piece is the body's, and whether the body is over.
        ensures used { ForEachStream self.old (λ framing stream. IfOk result (λ fed.
            fed.used ≡ used_of framing (stream ++ piece.now) - used_of framing stream)) }
        ensures within { IfOk result (λ fed. fed.used ≤ length piece.now) }
        ensures done { ForEachStream self.old (λ framing stream. IfOk result (λ fed.
            IsTrue fed.done ↔ IsOver framing (stream ++ piece.now))) }

        // An error comes where the stream is wrong, for what is wrong there, and nowhere else.
        ensures right { ForEachStream self.old (λ framing stream.
            OnOk result (¬ IsWrong framing (stream ++ piece.now))) }
        ensures wrong { ForEachStream self.old
            (λ framing stream. IfErr result (λ error. IsFault error →
            (¬ IsWrong framing stream)
            × (standing_of framing (stream ++ piece.now) ≡ Wrong error))) }
        ensures after_error { ForEachStream self.old (λ framing stream.
            IsErrOf result BodyErr.AfterError ↔ IsWrong framing stream) }

        // Memory is wanted only where out has no room, and then nothing changes.
        ensures room { IsErrOf result BodyErr.NoMemory →
            vec_capacity out.old < vec_len out.old + length piece.now }
        ensures same { IsErrOf result BodyErr.NoMemory
            → (self.new ≡ self.old) × VecUnchanged out.old out.new }
    {
        match self.phase {
            Phase::Stopped => return Err(BodyErr::AfterError),
            Phase::Over => return Ok(Fed {
                used: 0,
                done: true,
            }),
            _ => {}
        }
        out.reserve(piece.len())?;
        let used = self.read(piece, out)?;
        Ok(Fed {
            used: used as u32,
            done: self.is_over(),
        })
    }

    /// How the body stands if its stream ends here. A body that was wrong is short.
    pub fn end(&self) -> BodyEnd
        ensures { ForEachStream self.now (λ framing stream.
            (result ≡ BodyEnd.Whole) ↔ (standing_of framing stream ≡ Whole)) }
    {
        match self.phase {
            Phase::Over => BodyEnd::Whole,
            Phase::Content(run) => run.end(),
            Phase::Line(_) | Phase::Stopped => BodyEnd::Short,
        }
    }

    fn is_over(&self) -> bool
        ensures { IsTrue result ↔ (self.now.phase ≡ Phase.Over) }
    {
        matches!(self.phase, Phase::Over)
    }

    // Takes the bytes of the piece that are the body's.
    fn read(&mut self, piece: &[u8], out: &mut Vec<u8>) -> Result<usize, BodyErr>
        requires open { self.old.phase ≢ Phase.Stopped }
        requires room { vec_len out.old + length piece.now ≤ vec_capacity out.old }
        ensures grows { vec_len out.old ≤ vec_len out.new }
        ensures len { vec_len out.new ≤ vec_len out.old + length piece.now }
        ensures capacity { vec_capacity out.old ≤ vec_capacity out.new }
        ensures used { IfOk result (λ used. used ≤ length piece.now) }
        ensures all { IfOk result
            (λ used. (used ≡ length piece.now) ⊎ (self.new.phase ≡ Phase.Over)) }
        ensures ok { IfOk result (λ used.
            Reads self.old.phase (take used piece.now) out.old.items out.new.items self.new.phase) }
        ensures err { IfErr result (λ error.
            ReadsWrong self.old.phase piece.now out.old.items out.new.items error) }
        ensures stopped { OnErr result (self.new.phase ≡ Phase.Stopped) }
    {
        let mut used = 0;
        while used < piece.len() && !self.is_over() {
            used += self.step(&piece[used..], out)?;
        }
        Ok(used)
    }

    // Takes a run of content, or one byte of a line.
    fn step(&mut self, piece: &[u8], out: &mut Vec<u8>) -> Result<usize, BodyErr>
        requires some { 0 < length piece.now }
        requires open { self.old.phase ≢ Phase.Stopped }
        requires not_over { self.old.phase ≢ Phase.Over }
        requires room { vec_len out.old + length piece.now ≤ vec_capacity out.old }
        ensures most { IfOk result (λ taken. taken ≤ length piece.now) }
        ensures least { IfOk result (λ taken. 0 < taken) }
        ensures grows { vec_len out.old ≤ vec_len out.new }
        ensures len { IfOk result (λ taken. vec_len out.new ≤ vec_len out.old + taken) }
        ensures capacity { vec_capacity out.old ≤ vec_capacity out.new }
        ensures ok { IfOk result (λ taken.
            Reads self.old.phase (take taken piece.now) out.old.items out.new.items
            self.new.phase) }
        ensures err { IfErr result (λ error. Stops self.old.phase (take 1 piece.now) [] error) }
        ensures same { OnErr result (out.new.items ≡ out.old.items) }
        ensures stopped { OnErr result (self.new.phase ≡ Phase.Stopped) }
    {
        match self.phase {
            Phase::Content(run) => {
                let (taken, next) = run.take(piece.len());
                let Ok(()) = out.extend_from_slice(&piece[..taken]) else {
                    unreachable!()
                };
                self.phase = next;
                Ok(taken)
            }
            Phase::Line(line) => match line.next(piece[0]) {
                Ok(next) => {
                    self.phase = next;
                    Ok(1)
                }
                Err(error) => {
                    self.phase = Phase::Stopped;
                    Err(error)
                }
            },
            Phase::Over | Phase::Stopped => unreachable!(),
        }
    }
}
