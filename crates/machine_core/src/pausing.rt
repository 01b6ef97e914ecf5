// Calls by which downloads leave the active list, so that their claims end.
ghost use Rattle.std.specs.Prelude.{◌≡◌, ◌&&◌, not};
ghost use Rattle.dl_queue.specs.Calls.{QueueCall, after};
ghost use Rattle.machine_core.specs.Answers.{call_answer, keyed_answer};
ghost use Rattle.machine_core.specs.CallParts.{AreHaltedWhere, StandInOrder, leaves_active, queue_keyed};
ghost use Rattle.machine_core.specs.Replays.{has_active, is_same_gid, keyed_gid};
ghost use Rattle.machine_core.specs.declared.applied.Applied.TheVariants as applied;

use crate::Applied;
use crate::entries::Entry;
use crate::keyed::{answered, find_keyed};
use dl_kinds::{Gid, GidKey, Status};
use dl_queue::Queue;

/// Whether a download is active.
pub(crate) fn is_active(queue: &Queue, gid: Gid) -> bool
    ensures { result ≡ has_active queue.now gid }
{
    match queue.status(gid) {
        Ok(status) => status == Status::Active,
        Err(_) => false,
    }
}

// The claims of a download end that was active and isn't any more.
fn halt_if_left(queue: &Queue, entries: &mut Vec<Entry>, gid: Gid, was_active: bool)
    requires { StandInOrder queue.now.added entries.old.items }
    ensures { AreHaltedWhere
        (λ other. is_same_gid gid other && (was_active && not (has_active queue.now gid)))
        entries.old.items entries.new.items }
{
    if !was_active || is_active(queue, gid) {
        return;
    }
    match queue.adding_place(gid) {
        Some(place) => entries[place].state.halted(false),
        // Never comes: an active download was added.
        None => {}
    }
}

/// Pauses a download.
pub(crate) fn pause(queue: &mut Queue, entries: &mut Vec<Entry>, key: GidKey) -> Applied
    requires { StandInOrder queue.old.added entries.old.items }
    ensures queue { queue.new ≡ queue_keyed queue.old QueueCall.Pause (keyed_gid queue.old key) }
    ensures answer { result ≡ keyed_answer queue.old key
        (λ gid. call_answer queue.old (QueueCall.Pause gid) (applied.Named gid)) }
    ensures halts { AreHaltedWhere (leaves_active queue.old queue.new)
        entries.old.items entries.new.items }
{
    match find_keyed(queue, key) {
        Ok(gid) => {
            let was_active = is_active(queue, gid);
            let done = queue.pause(gid);
            halt_if_left(queue, entries, gid, was_active);
            answered(done, Applied::Named { gid })
        }
        Err(refusal) => Applied::Refused { refusal },
    }
}

/// Removes a download.
pub(crate) fn remove(queue: &mut Queue, entries: &mut Vec<Entry>, key: GidKey) -> Applied
    requires { StandInOrder queue.old.added entries.old.items }
    ensures queue { queue.new ≡ queue_keyed queue.old QueueCall.Remove (keyed_gid queue.old key) }
    ensures answer { result ≡ keyed_answer queue.old key
        (λ gid. call_answer queue.old (QueueCall.Remove gid) (applied.Named gid)) }
    ensures halts { AreHaltedWhere (leaves_active queue.old queue.new)
        entries.old.items entries.new.items }
{
    match find_keyed(queue, key) {
        Ok(gid) => {
            let was_active = is_active(queue, gid);
            let done = queue.remove(gid);
            halt_if_left(queue, entries, gid, was_active);
            answered(done, Applied::Named { gid })
        }
        Err(refusal) => Applied::Refused { refusal },
    }
}

// The claims of the active downloads end.
fn halt_active(queue: &Queue, entries: &mut Vec<Entry>)
    ensures { AreHaltedWhere (has_active queue.now) entries.old.items entries.new.items }
{
    for at in 0..entries.len() {
        if is_active(queue, entries[at].gid) {
            entries[at].state.halted(false);
        }
    }
}

/// Pauses all downloads.
pub(crate) fn pause_all(queue: &mut Queue, entries: &mut Vec<Entry>)
    ensures queue { queue.new ≡ after queue.old QueueCall.PauseAll }
    ensures halts { AreHaltedWhere (leaves_active queue.old queue.new)
        entries.old.items entries.new.items }
{
    halt_active(queue, entries);
    queue.pause_all();
}
