// How often a real thing failed, and at what.
ghost use Rattle.std.specs.Prelude.{◌≡◌, Ok, IfOk};
ghost use Rattle.dl_kinds.specs.Causes.{HasCause};

use dl_kinds::IoErr;
use fault_notes::{Notes, Why};
use std::alloc::Global;
use std::io;

/// A count of failures, which stands still at the end of its type.
#[derive(Debug, Drop)]
pub struct Faults {
    pub count: u64,
}

impl Faults {
    pub fn new() -> Self {
        Faults { count: 0 }
    }

    /// Hands an outcome on, and counts it where it is a failure.
    pub fn note<T, E: Drop>(&mut self, outcome: Result<T, E>) -> Result<T, IoErr>
        ensures cause { HasCause self.old.count self.new.count result }
        ensures value { IfOk result (λ value. outcome ≡ Ok value) }
    {
        match outcome {
            Ok(value) => Ok(value),
            Err(_) => {
                self.count = self.count.saturating_add(1);
                Err(IoErr::Fault)
            }
        }
    }
}

/// A count of failures, the newest of which are kept with what they were of.
#[derive(Debug, Drop)]
pub struct NotedFaults {
    pub faults: Faults,
    pub notes: Notes,
    alloc: Global,
}

impl NotedFaults {
    pub fn new(alloc: Global) -> Self {
        NotedFaults {
            faults: Faults::new(),
            notes: Notes::new(alloc),
            alloc,
        }
    }

    /// Hands an outcome at a file or a host on, and notes it where it is a failure.
    pub fn note<T>(&mut self, name: &str, outcome: Result<T, Why>) -> Result<T, IoErr>
        ensures cause { HasCause self.old.faults.count self.new.faults.count result }
        ensures value { IfOk result (λ value. outcome ≡ Ok value) }
    {
        if let Err(why) = &outcome {
            let count = self.faults.count.saturating_add(1);
            self.notes.add(self.alloc, count, name, *why);
        }
        self.faults.note(outcome)
    }
}

/// Tells why the system failed.
pub fn told<T>(outcome: io::Result<T>) -> Result<T, Why>
    ensures { IfOk result (λ value. outcome ≡ Ok value) }
{
    outcome.map_err(|error| Why::of(&error))
}
