// Calls that are numbered, so that some can be made to fail.
ghost use Rattle.std.specs.Prelude.{◌≡◌, ◌≤◌, ◌↔◌, ◌+◌, ◌-◌, ◌^◌, min, Contains, IsTrue};
ghost use Rattle.dl_kinds.specs.Counts.{Rose};
ghost use Rattle.dl_kinds.specs.declared.outside.IoErr.TheVariants.{Fault};

use crate::IoErr;

/// The calls made so far, and the faults among them.
#[derive(Debug, Drop)]
pub struct Calls {
    failing: Vec<u64>,
    made: u64,
    faults: u64,
}

impl Calls {
    pub fn new(failing: Vec<u64>) -> Self
        ensures failing { result.failing ≡ failing }
        ensures made { result.made ≡ 0 }
        ensures faults { result.faults ≡ 0 }
    {
        Calls {
            failing,
            made: 0,
            faults: 0,
        }
    }

    pub fn faults(&self) -> u64
        ensures { result ≡ self.now.faults }
    {
        self.faults
    }

    /// Whether the next call is one of those that fail.
    pub fn is_failing(&self) -> bool
        ensures { IsTrue result ↔ Contains self.now.failing.items self.now.made }
    {
        self.failing.contains(&self.made)
    }

    /// Ends a call that fails.
    pub fn fail(&mut self) -> IoErr
        ensures error { result ≡ IoErr.Fault }
        ensures later { self.old.faults ≤ self.new.faults }
        ensures rose { Rose self.old.faults self.new.faults }
        ensures made { self.new.made ≡ min (self.old.made + 1) (2 ^ 64 - 1) }
        ensures failing { self.new.failing ≡ self.old.failing }
    {
        self.made = self.made.saturating_add(1);
        self.faults = self.faults.saturating_add(1);
        IoErr::Fault
    }

    /// Ends a call that is answered.
    pub fn pass(&mut self)
        ensures { self.new ≡ record self.old { made = min (self.old.made + 1) (2 ^ 64 - 1) } }
    {
        self.made = self.made.saturating_add(1);
    }
}
