// How many bytes a step of a fetch takes.
ghost use Rattle.std.specs.Prelude.{◌≡◌, ◌≤◌};
ghost use Rattle.conn_worker.specs.Parts.{next_part, part_behind};
ghost use Rattle.conn_worker.specs.declared.parts.TheConstants.{LEAST_PART};

use dl_kinds::BLOCK_LEN;
use engine_turns::{MAX_ALLOWANCE, Said};

/// The bytes of the first step of a fetch, and of the least one: those of a block, with 4 KiB for the head before it.
pub const LEAST_PART: u32 = BLOCK_LEN + 4_096;

/// A step that took less time was quick, in milliseconds.
pub const QUICK_STEP: u64 = 250;

/// A step that took more time was slow, in milliseconds.
pub const SLOW_STEP: u64 = 1_000;

/// How many bytes the next step takes where so many may be taken. They bring a block.
#[derive(Clone, Copy, Debug)]
pub(crate) struct Part {
    pub bytes: u32,
    ghost enough: { LEAST_PART ≤ bytes },
}

impl Part {
    /// That of a step before which none was made.
    pub fn first() -> Part
        ensures { result.bytes ≡ LEAST_PART }
    {
        Part { bytes: LEAST_PART }
    }

    /// That behind a step which took so many milliseconds.
    fn next(self, took: u64) -> Part
        ensures { result.bytes ≡ next_part took self.bytes }
    {
        let bytes = if took < QUICK_STEP {
            self.bytes.saturating_add(self.bytes).min(MAX_ALLOWANCE)
        } else if took > SLOW_STEP {
            (self.bytes / 2).max(LEAST_PART)
        } else {
            self.bytes
        };
        Part { bytes }
    }

    /// That behind an answer, so many milliseconds behind the turn before.
    pub fn behind(self, said: &Said, took: u64) -> Part
        ensures { result.bytes ≡ part_behind said.now took self.bytes }
    {
        match said {
            Said::Grant(_) => Part::first(),
            Said::Kept { .. } => self.next(took),
            _ => self,
        }
    }
}
