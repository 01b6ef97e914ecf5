// What a run begins with, and what is left of it.
ghost use Rattle.std.specs.Prelude.{◌≡◌, ◌≤◌, IfErr, IfOk, OnOk, reverse};
ghost use Rattle.machine_core.specs.TurnRooms.{HasTurnMarkRoom};
ghost use Rattle.machine_core.specs.declared.journal.TheConstants.{TURN_EVENTS};
ghost use Rattle.stored_run.specs.Beginnings.{IsNewRun, IsRoomier};

use crate::StoredRun;
use dl_disk::Disk;
use dl_kinds::Moment;
use machine_core::{Journal, Machine};
use option_set::Options;
use std::alloc::{AllocError, Global};

impl<D: Disk> StoredRun<D> {
    /// A run in which nothing happened, on this disk. `gids` is what the gids of downloads are made from, `doors` how many
    /// doors the console has. Without memory the disk is given back.
    pub fn new(alloc: Global, disk: D, gids: u64, global: Options, doors: u16) -> Result<Self, D>
        ensures run { IfOk result (IsNewRun disk gids global doors) }
        ensures disk { IfErr result (λ given_back. given_back ≡ disk) }
    {
        match Machine::new(alloc, gids, global, doors) {
            Ok(machine) => Ok(StoredRun {
                alloc,
                disk,
                machine,
                wants: Vec::new(alloc),
                now: Moment(0),
            }),
            Err(_) => Err(disk),
        }
    }

    /// The disk, and what happened.
    pub fn into_parts(self) -> (D, Journal)
        ensures disk { result.0 ≡ self.disk }
        ensures events { result.1.events.items ≡ reverse self.machine.past }
    {
        let StoredRun {
            alloc: _,
            disk,
            machine,
            wants: _,
            now: _,
        } = self;
        (disk, machine.into_journal())
    }

    /// The latest moment that came.
    pub fn moment(&self) -> Moment
        ensures { result ≡ self.entry.now.now }
    {
        self.now
    }

    /// Makes room for the events of a turn, and for as many marks of each active download. Want of memory also comes where
    /// the run has had too many events for one more turn.
    pub fn reserve_turn(&mut self) -> Result<(), AllocError>
        ensures room { OnOk result (TURN_EVENTS ≤ self.new.machine.spare) }
        ensures mark_room { OnOk result (HasTurnMarkRoom self.new.machine) }
        ensures same { IsRoomier self.old self.new }
    {
        self.machine.reserve_turn()
    }
}
