//! Bodies of HTTP replies, as RFC 9112, sections 6 and 7, frames them.
//!
//! A body's stream is what follows the reply's head. It may come in any pieces: they give the body of the whole
//! stream.
#![tactic(auto)]

ghost use Rattle.std.specs.Prelude.{◌≡◌, List, ℕ, [], ◌++◌, drop};
ghost use Rattle.body_frames.specs.declared.BodyErr.TheVariants.{NoMemory};
ghost use Rattle.body_frames.specs.Lines.{Whole};
ghost use Rattle.body_frames.specs.Bodies.{Framing, body_of, content_of, used_of, IsOver, IsWrong};
ghost use Rattle.body_frames.specs.Written.{ChunkIsRead, LastChunkIsRead};

mod body;
mod laws;
mod line;
mod phase;

pub use body::Body;
pub use laws::limits_are_told;
pub use line::LINE_LIMIT;
pub use phase::TRAILER_LIMIT;
use std::alloc::AllocError;
use thiserror::Error;

/// Why a body isn't read on.
#[derive(Clone, Copy, Debug, PartialEq, Eq, Error)]
pub enum BodyErr {
    #[error("the chunks are malformed")]
    BadChunk,
    #[error("a line of the chunked body is too long, or a trailer line too many")]
    LineTooLong,
    #[error("the body was wrong before")]
    AfterError,
    #[error("out of memory")]
    NoMemory,
}

impl From<AllocError> for BodyErr {
    ghost from_gives = { λ _ e. e ≡ NoMemory };

    fn from(_: AllocError) -> Self {
        BodyErr::NoMemory
    }
}

/// What a piece of the stream brought.
#[derive(Clone, Copy, Debug, PartialEq, Eq)]
pub struct Fed {
    /// How many bytes of the piece are the body's.
    pub used: u32,
    /// Whether the body is whole, and later bytes aren't its own.
    pub done: bool,
}

/// How a body stands where its stream ends.
#[derive(Clone, Copy, Debug, PartialEq, Eq)]
pub enum BodyEnd {
    Whole,
    Short,
}

/// Pieces `a` and `b` give what the one piece `a ++ b` gives. As the stream goes on, the content only grows; a body
/// that is over stays as it is, and so does a fault; and what is behind a body is the stream's end, once the body is
/// over.
pub fn pieces_join()
    ensures content { (framing : Framing) (a b : List ℕ) → (added : List ℕ)
        × (content_of framing (a ++ b) ≡ content_of framing a ++ added) }
    ensures over { (framing : Framing) (a b : List ℕ) → IsOver framing a → body_of framing (a ++ b)
        ≡ record {
          content = content_of framing a;
          rest = (body_of framing a).rest ++ b;
          standing
              = Whole;
        } }
    ensures wrong { (framing : Framing) (a b : List ℕ) → IsWrong framing a →
        body_of framing (a ++ b) ≡ body_of framing a }
    ensures not_over { (framing : Framing) (a : List ℕ) → (¬ IsOver framing a)
        → (body_of framing a).rest ≡ [] }
    ensures end { (framing : Framing) (a : List ℕ)
        → (body_of framing a).rest ≡ drop (used_of framing a) a }
{}

/// Chunks that are written out are read as their bytes.
pub fn chunks_are_read()
    ensures chunk { ChunkIsRead }
    ensures last { LastChunkIsRead }
{}
