// Notices of a run.
ghost use Rattle.engine_turns.specs.declared.operations.Operation.TheVariants as operation;
ghost use Rattle.engine_core.specs.Engines.{KeepsRates};
ghost use Rattle.engine_core.specs.Performing.{PerformsTurn};

use crate::state::EngineState;
use dl_disk::Disk;
use engine_turns::Said;
use machine_core::{Cursor, Notices};
use std::alloc::Global;

impl<D: Disk> EngineState<D> {
    // The next notices from a place of the history on; without one, where the history ends.
    pub(crate) fn notices(&mut self, alloc: Global, from: Option<Cursor>) -> Said
        requires { KeepsRates self.old }
        ensures { PerformsTurn D.tells D.state D.faults (operation.Notices from)
            self.old self.new result }
    {
        let Some(from) = from else {
            return Said::Notices {
                list: Notices::of(Vec::new(alloc)),
                upto: self.run.machine().notices_end(),
            };
        };
        match self.run.notices(from) {
            Ok((list, upto)) => Said::Notices { list, upto },
            Err(_) => Said::NoMemory,
        }
    }
}
