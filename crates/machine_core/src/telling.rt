// What a machine tells of notices.
ghost use Rattle.std.specs.Prelude.{◌≡◌, IfOk};
ghost use Rattle.machine_core.specs.Notices.{TellsNotices, end_of};

use crate::notice_log::{catch_up, tell_next};
use crate::{Cursor, Machine, Notices};
use std::alloc::{AllocError, Global};

impl Machine {
    /// The place behind all notices so far.
    pub fn notices_end(&self) -> Cursor
        ensures { result ≡ end_of self.now.past }
    {
        Cursor {
            event: self.journal.len(),
            nth: 0,
        }
    }

    /// The next notices from a place on, 64 at most, and the place behind them. What was found out is kept, so that the
    /// next call begins there; what the machine shows stays, whatever this answers.
    pub fn notices(&mut self, alloc: Global, from: Cursor) -> Result<(Notices, Cursor), AllocError>
        ensures told { IfOk result (TellsNotices self.old.start self.old.past from) }
        ensures same { self.new ≡ self.old }
    {
        let behind = self.notices_end();
        catch_up(&mut self.log, alloc, self.gids, &self.journal)?;
        tell_next(alloc, &self.log.told, behind, from)
    }
}
