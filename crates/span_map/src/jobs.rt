// What is to be fetched of a payload.
ghost use Rattle.std.specs.Prelude.{◌≡◌, ◌==◌, ◌++◌, ◌∷◌, [], length, OnOk, OnErr, slice_get, option_copied};

use dl_kinds::{Plan, Run, Text};
use std::alloc::{AllocError, Global};
use std::marker::Model;

/// Bytes of the resource at a URL: the place of the first one, how many, and the length of the whole resource.
#[derive(Debug, Drop)]
pub struct JobPart {
    pub url: Text,
    pub at: u64,
    pub len: u64,
    pub total: u64,
}

/// A list of parts, whose bytes follow each other in the payload.
#[derive(Debug, Drop)]
pub struct JobParts {
    parts: Vec<JobPart>,
}

impl Model for JobParts {
    ghost use Rattle.std.specs.Prelude.{List};
    ghost use Rattle.span_map.specs.declared.jobs.JobPart.{JobPart};

    ghost Value = { List JobPart };

    ghost view = { λ p. p.parts.items };
}

impl JobParts {
    /// A list of none.
    pub fn new(alloc: Global) -> Self
        ensures { result ≡ [] }
    {
        JobParts {
            parts: Vec::new(alloc),
        }
    }

    /// Adds a part at the end, in memory of the allocator that the list was made with.
    pub fn push(&mut self, part: JobPart) -> Result<(), AllocError>
        ensures ok { OnOk result (self.new ≡ self.old ++ part ∷ []) }
        ensures err { OnErr result (self.new ≡ self.old) }
    {
        self.parts.push(part)?;
        Ok(())
    }

    pub fn len(&self) -> usize
        ensures { result ≡ length self.now }
    {
        self.parts.len()
    }

    pub fn is_empty(&self) -> bool
        ensures { result ≡ (length self.now == 0) }
    {
        self.parts.is_empty()
    }

    /// The part at this place, from 0.
    pub fn get(&self, place: usize) -> Option<&JobPart>
        ensures { option_copied result ≡ slice_get self.now place }
    {
        self.parts.get(place)
    }
}

/// A run of blocks, and the parts of resources whose bytes they are, in order.
#[derive(Debug, Drop)]
pub struct Job {
    pub plan: Plan,
    pub run: Run,
    pub parts: JobParts,
}
