// Room for the marks and the claims of downloads.
ghost use Rattle.std.specs.Prelude.{◌≡◌, OnOk, length};
ghost use Rattle.machine_core.specs.TurnRooms.{AreRoomier, EachActiveHas, HasClaimRoom, HasMarksForTurn};

use crate::TURN_EVENTS;
use crate::entries::Entry;
use dl_queue::Queue;
use std::alloc::AllocError;

/// Makes room for the marks of a turn of each active download. The entries stand in the order of adding.
pub(crate) fn reserve_marks(queue: &Queue, entries: &mut Vec<Entry>) -> Result<(), AllocError>
    requires { length entries.old.items ≡ length queue.now.added }
    ensures same { AreRoomier entries.old.items entries.new.items }
    ensures room { OnOk result (EachActiveHas HasMarksForTurn queue.now entries.new.items) }
{
    for gid in queue.active() {
        let place = queue.adding_place(gid).unwrap();
        entries[place].state.reserve_marks(TURN_EVENTS)?;
    }
    Ok(())
}

/// Makes room for a claim of each active download. The entries stand in the order of adding.
pub(crate) fn reserve_claims(queue: &Queue, entries: &mut Vec<Entry>) -> Result<(), AllocError>
    requires { length entries.old.items ≡ length queue.now.added }
    ensures same { AreRoomier entries.old.items entries.new.items }
    ensures room { OnOk result (EachActiveHas HasClaimRoom queue.now entries.new.items) }
{
    for gid in queue.active() {
        let place = queue.adding_place(gid).unwrap();
        entries[place].state.reserve_claim()?;
    }
    Ok(())
}
