// What is answered before an operation is begun.
ghost use Rattle.std.specs.Prelude.{◌≡◌, ◌≤◌, IfErr, None, OnOk, true};
ghost use Rattle.engine_core.specs.Beginning.{Begins, IsBrokenOff, front_of};
ghost use Rattle.machine_core.specs.TurnRooms.{HasTurnMarkRoom};
ghost use Rattle.machine_core.specs.declared.journal.TheConstants.{TURN_EVENTS};

use crate::state::EngineState;
use dl_disk::Disk;
use dl_kinds::Moment;
use engine_turns::{MAX_ENTRIES, Said};
use machine_core::TURN_EVENTS;

impl<D: Disk> EngineState<D> {
    // What is answered before anything is done, to an operation that asks for work or needs entries of the journal.
    pub(crate) fn front(&self, asks_for_work: bool, needs_entries: bool) -> Option<Said>
        ensures { result ≡ front_of asks_for_work needs_entries self.now }
    {
        let machine = self.run.machine();
        if asks_for_work && machine.finished() {
            return Some(Said::Finished);
        }
        let count = machine.journal().len();
        if needs_entries && count > MAX_ENTRIES - TURN_EVENTS {
            return Some(Said::JournalFull { count });
        }
        None
    }

    // An operation that needs entries begins: its moment comes, and room is made for the events of a turn.
    pub(crate) fn begin(&mut self, asks_for_work: bool, now: Moment) -> Result<(), Said>
        ensures same { Begins now self.old self.new }
        ensures none { OnOk result (front_of asks_for_work true self.old ≡ None) }
        ensures room { OnOk result (TURN_EVENTS ≤ self.new.run.machine.spare) }
        ensures mark_room { OnOk result (HasTurnMarkRoom self.new.run.machine) }
        ensures broken_off { IfErr result (IsBrokenOff (front_of asks_for_work true self.old)) }
    {
        self.run.come_to(now);
        match self.front(asks_for_work, true) {
            Some(said) => Err(said),
            None => match self.run.reserve_turn() {
                Ok(()) => Ok(()),
                Err(_) => Err(Said::NoMemory),
            },
        }
    }
}
