// Calls of the download that a key names.
ghost use Rattle.std.specs.Prelude.{◌≡◌, Option};
ghost use Rattle.dl_queue.specs.Calls.{QueueCall, after, queue_answer, target_of};
ghost use Rattle.dl_queue.specs.declared.kinds.QueueErr.{QueueErr as Refusal};
ghost use Rattle.machine_core.specs.Answers.{answer_unless, call_answer, keyed_answer};
ghost use Rattle.machine_core.specs.Answers as answers;
ghost use Rattle.machine_core.specs.CallParts.{queue_keyed};
ghost use Rattle.machine_core.specs.Replays.{keyed_gid};
ghost use Rattle.machine_core.specs.declared.applied.Applied.TheVariants as applied;

use crate::Applied;
use dl_kinds::{Gid, GidKey};
use dl_queue::{How, Queue, QueueErr};

/// The download that a key names, among those in the lists.
pub(crate) fn find_keyed(queue: &Queue, key: GidKey) -> Result<Gid, QueueErr>
    ensures { result ≡ answers.find_keyed queue.now key }
{
    queue.find(key)
}

/// The answer, where the queue didn't refuse.
pub(crate) fn answered(done: Result<(), QueueErr>, answer: Applied) -> Applied
    ensures { (refused : Option Refusal) → done ≡ queue_answer refused tt
        → result ≡ answer_unless refused answer }
{
    match done {
        Ok(()) => answer,
        Err(refusal) => Applied::Refused { refusal },
    }
}

/// Lets a download wait again.
pub(crate) fn unpause(queue: &mut Queue, key: GidKey) -> Applied
    ensures queue { queue.new ≡ queue_keyed queue.old QueueCall.Unpause (keyed_gid queue.old key) }
    ensures answer { result ≡ keyed_answer queue.old key
        (λ gid. call_answer queue.old (QueueCall.Unpause gid) (applied.Named gid)) }
{
    match find_keyed(queue, key) {
        Ok(gid) => answered(queue.unpause(gid), Applied::Named { gid }),
        Err(refusal) => Applied::Refused { refusal },
    }
}

/// Takes a stopped download out of the lists.
pub(crate) fn forget(queue: &mut Queue, key: GidKey) -> Applied
    ensures queue { queue.new ≡ queue_keyed queue.old QueueCall.Forget (keyed_gid queue.old key) }
    ensures answer { result ≡ keyed_answer queue.old key
        (λ gid. call_answer queue.old (QueueCall.Forget gid) applied.Fine) }
{
    match find_keyed(queue, key) {
        Ok(gid) => answered(queue.forget(gid), Applied::Fine),
        Err(refusal) => Applied::Refused { refusal },
    }
}

// Moves a waiting or paused download.
fn move_gid(queue: &mut Queue, gid: Gid, position: i64, how: How) -> Applied
    ensures queue { queue.new ≡ after queue.old (QueueCall.ChangePosition gid position how) }
    ensures answer { result ≡ call_answer queue.old (QueueCall.ChangePosition gid position how)
        (applied.Moved (target_of queue.old.waiting gid position how)) }
{
    match queue.change_position(gid, position, how) {
        Ok(position) => Applied::Moved { position },
        Err(refusal) => Applied::Refused { refusal },
    }
}

/// Moves a waiting or paused download.
pub(crate) fn change_position(queue: &mut Queue, key: GidKey, position: i64, how: How) -> Applied
    ensures queue { queue.new ≡ queue_keyed queue.old
        (λ gid. QueueCall.ChangePosition gid position how) (keyed_gid queue.old key) }
    ensures answer { result ≡ keyed_answer queue.old key (λ gid.
        call_answer queue.old (QueueCall.ChangePosition gid position how)
        (applied.Moved (target_of queue.old.waiting gid position how))) }
{
    match find_keyed(queue, key) {
        Ok(gid) => move_gid(queue, gid, position, how),
        Err(refusal) => Applied::Refused { refusal },
    }
}
