// Notices of a run.
ghost use Rattle.std.specs.Prelude.{◌≡◌, IfOk};
ghost use Rattle.machine_core.specs.Notices.{TellsNotices};

use crate::run::StoredRun;
use dl_disk::Disk;
use machine_core::{Cursor, Notices};
use std::alloc::AllocError;

impl<D: Disk> StoredRun<D> {
    /// The next notices from a place of the history on, and the place behind them.
    pub fn notices(&mut self, from: Cursor) -> Result<(Notices, Cursor), AllocError>
        ensures told { IfOk result (TellsNotices self.old.machine.start self.old.machine.past from) }
        ensures same { self.new ≡ self.old }
    {
        self.machine.notices(self.alloc, from)
    }
}
