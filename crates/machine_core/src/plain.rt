// Calls that neither add downloads nor set options.
ghost use Rattle.std.specs.Prelude.{◌≡◌, true};
ghost use Rattle.machine_core.specs.CallParts.{IsPlainCall, StandInOrder, is_plain};

use crate::entries::Entry;
use crate::halts::halt_all;
use crate::keyed::{change_position, forget, unpause};
use crate::pausing::{pause, pause_all, remove};
use crate::{Applied, Call};
use dl_queue::Queue;

/// Applies a call that neither adds a download nor sets options.
pub(crate) fn apply_plain(
    queue: &mut Queue,
    entries: &mut Vec<Entry>,
    shut: &mut bool,
    call: &Call,
) -> Applied
    requires plain { is_plain call.now ≡ true }
    requires order { StandInOrder queue.old.added entries.old.items }
    ensures { IsPlainCall call.now queue.old queue.new shut.old shut.new
        entries.old.items entries.new.items result }
{
    match call {
        Call::Remove { key } => remove(queue, entries, *key),
        Call::Pause { key } => pause(queue, entries, *key),
        Call::Unpause { key } => unpause(queue, *key),
        Call::PauseAll => {
            pause_all(queue, entries);
            Applied::Fine
        }
        Call::UnpauseAll => {
            queue.unpause_all();
            Applied::Fine
        }
        Call::ChangePosition { key, pos, how } => change_position(queue, *key, *pos, *how),
        Call::Purge => {
            queue.purge();
            Applied::Fine
        }
        Call::RemoveResult { key } => forget(queue, *key),
        Call::Shutdown => {
            halt_all(entries);
            *shut = true;
            Applied::Fine
        }
        _ => Applied::Asked,
    }
}
