// Runs of new blocks, in fixed room.
ghost use Rattle.std.specs.Prelude.{◌≡◌, ◌==◌, ◌<◌, ◌≤◌, ◌+◌, ◌^◌, ◌++◌, ◌∷◌, [], if◌then◌else◌, length, slice_get};
ghost use Rattle.piece_table.specs.NewRuns.{AreNewRuns};

use bit_rows::BitRow;
use dl_kinds::Run;
use std::marker::Model;

/// The most runs that a list has room for.
const ROOM: usize = 32;

/// A list of at most 32 runs.
#[derive(Debug, Drop)]
pub struct NewRuns {
    runs: [Run; ROOM],
    len: usize,
}

impl Model for NewRuns {
    ghost use Rattle.std.specs.Prelude.{List, ◌≡◌, ◌≤◌, length, take};
    ghost use Rattle.dl_kinds.specs.declared.runs.Run.{Run};

    ghost Value = { List Run };

    ghost view = { λ r. take r.len r.runs };

    ghost invariant = { λ r. (r.len ≤ 32) × (length r.runs ≡ 32) };
}

impl NewRuns {
    /// A list of none.
    pub fn new() -> Self
        ensures { result ≡ [] }
    {
        NewRuns {
            runs: [Run { first: 0, count: 0 }; ROOM],
            len: 0,
        }
    }

    /// Adds a run at the end.
    pub fn push(&mut self, run: Run)
        requires { length self.old < 32 }
        ensures { self.new ≡ self.old ++ run ∷ [] }
    {
        self.runs[self.len] = run;
        self.len += 1;
    }

    /// Adds a run at the end, if it has a block.
    pub fn close(&mut self, run: Run)
        requires { 0 < run.count → length self.old < 32 }
        ensures { self.new ≡ (if run.count == 0 then self.old else self.old ++ run ∷ []) }
    {
        if run.count > 0 {
            self.push(run);
        }
    }

    pub fn len(&self) -> usize
        ensures len { result ≡ length self.now }
        ensures few { result ≤ 32 }
    {
        self.len
    }

    pub fn is_empty(&self) -> bool
        ensures { result ≡ (length self.now == 0) }
    {
        self.len() == 0
    }

    /// The run at this place, from 0.
    pub fn get(&self, place: usize) -> Option<Run>
        ensures { result ≡ slice_get self.now place }
    {
        if place < self.len {
            Some(self.runs[place])
        } else {
            None
        }
    }
}

/// The blocks of the run that aren't landed, of at most 64.
pub fn new_runs(landed: &BitRow, run: Run) -> NewRuns
    requires few { run.count ≤ 64 }
    requires within { run.first + run.count ≤ length landed.now }
    requires bounded { length landed.now < 2 ^ 32 }
    ensures { AreNewRuns landed.now run result }
{
    let mut runs = NewRuns::new();
    let mut last = Run {
        first: run.first,
        count: 0,
    };
    for block in run.first..run.first + run.count {
        if landed.get(block) {
            runs.close(last);
            last = Run {
                first: block + 1,
                count: 0,
            };
        } else {
            last.count += 1;
        }
    }
    runs.close(last);
    runs
}
