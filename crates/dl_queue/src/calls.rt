// The calls of a queue.
ghost use Rattle.std.specs.Prelude.{◌++◌, ◌^◌, ◌<◌, [], false, length, map, ◌≡◌, true, IsTrue, IsOkUnless, MatchOption, Some, is_ok, if◌then◌else◌};
ghost use Rattle.dl_kinds.specs.declared.status.Status.TheVariants.{Active, Waiting, Paused};
ghost use Rattle.dl_queue.specs.declared.kinds.QueueErr.TheVariants.{NoMemory};
ghost use Rattle.dl_queue.specs.Places.{status_of};
ghost use Rattle.dl_queue.specs.Rising.{moved_up};
ghost use Rattle.dl_queue.specs.Held.{stands_queued, stands_stopped};
ghost use Rattle.dl_queue.specs.Calls.{QueueCall, refusal, effect, after, was_added, queue_answer, has_stopped, stopped_from, paused_from, with_pause, target_of, Finds, aside};

use crate::kinds::ending_by_status;
use crate::places::target;
use crate::{Ending, How, MAX_DOWNLOADS, Queue, QueueErr};
use dl_kinds::{Gid, GidKey, Status};
use option_set::Options;

impl Queue {
    /// While fewer than the limit are active, the first waiting download that isn't paused goes to their end.
    fn move_up(&mut self)
        ensures { self.new ≡ moved_up self.old }
    {
        while self.active_len() < self.limit() as usize {
            match self.next_up() {
                Some(gid) => {
                    self.leave_waiting(gid);
                    self.enter_active(gid);
                }
                None => return,
            }
        }
    }

    /// Changes how many downloads may be active. Those that are active stay so.
    pub fn set_limit(&mut self, limit: u16)
        ensures { self.new ≡ after self.old (QueueCall.SetLimit limit) }
    {
        self.put_limit(limit);
        self.move_up();
    }

    fn pause_active(&mut self, gid: Gid)
        requires known { was_added self.old.added gid ≡ true }
        requires stands { status_of self.old gid ≡ Some Active }
        ensures { self.new ≡ moved_up (paused_from (Some Active) gid self.old) }
    {
        self.leave_active(gid);
        self.enter_waiting(gid, 0, true);
        self.move_up();
    }

    fn pause_waiting(&mut self, gid: Gid)
        requires known { was_added self.old.added gid ≡ true }
        requires stands { status_of self.old gid ≡ Some Waiting }
        ensures { self.new ≡ moved_up (paused_from (Some Waiting) gid self.old) }
    {
        self.mark_paused(gid);
        self.move_up();
    }

    /// Pauses a download: an active one goes to the front of the waiting ones, a waiting one stays in its place. WrongStatus
    /// comes in any other status.
    pub fn pause(&mut self, gid: Gid) -> Result<(), QueueErr>
        ensures answer { result ≡ queue_answer (refusal self.old (QueueCall.Pause gid)) tt }
        ensures state { self.new ≡ after self.old (QueueCall.Pause gid) }
    {
        match self.status(gid)? {
            Status::Active => self.pause_active(gid),
            Status::Waiting => self.pause_waiting(gid),
            status => return Err(QueueErr::WrongStatus(status)),
        }
        Ok(())
    }

    fn let_wait(&mut self, gid: Gid)
        requires known { was_added self.old.added gid ≡ true }
        requires stands { status_of self.old gid ≡ Some Paused }
        ensures { self.new
            ≡ moved_up (record self.old { waiting = with_pause false gid self.old.waiting }) }
    {
        let place = self.place(gid);
        self.leave_waiting(gid);
        self.enter_waiting(gid, place, false);
        self.move_up();
    }

    /// Lets a paused download wait again, in its place. WrongStatus comes in any other status.
    pub fn unpause(&mut self, gid: Gid) -> Result<(), QueueErr>
        ensures answer { result ≡ queue_answer (refusal self.old (QueueCall.Unpause gid)) tt }
        ensures state { self.new ≡ after self.old (QueueCall.Unpause gid) }
    {
        match self.status(gid)? {
            Status::Paused => self.let_wait(gid),
            status => return Err(QueueErr::WrongStatus(status)),
        }
        Ok(())
    }

    /// Active downloads go to the front of the waiting ones, the last of them first, and are paused.
    fn set_aside(&mut self)
        ensures { self.new ≡ record self.old {
          active = [];
          waiting = map aside self.old.active ++ self.old.waiting;
        } }
    {
        while let Some(gid) = self.last_active() {
            self.leave_active(gid);
            self.enter_waiting(gid, 0, true);
        }
    }

    /// Pauses all downloads that aren't paused: the active ones go to the front of the waiting ones, in their order.
    pub fn pause_all(&mut self)
        ensures { self.new ≡ after self.old QueueCall.PauseAll }
    {
        self.pause_queued();
        self.set_aside();
        self.move_up();
    }

    /// Lets all paused downloads wait again.
    pub fn unpause_all(&mut self)
        ensures { self.new ≡ after self.old QueueCall.UnpauseAll }
    {
        self.unpause_queued();
        self.move_up();
    }

    fn stop_active(&mut self, gid: Gid, ending: Ending)
        requires known { was_added self.old.added gid ≡ true }
        requires stands { status_of self.old gid ≡ Some Active }
        ensures { self.new ≡ moved_up (stopped_from (Some Active) gid ending self.old) }
    {
        self.leave_active(gid);
        self.enter_stopped(gid, ending);
        self.move_up();
    }

    fn stop_queued(&mut self, gid: Gid, ending: Ending)
        requires known { was_added self.old.added gid ≡ true }
        requires stands { stands_queued (status_of self.old gid) ≡ true }
        ensures { self.new ≡ moved_up (stopped_from None gid ending self.old) }
    {
        self.leave_waiting(gid);
        self.enter_stopped(gid, ending);
        self.move_up();
    }

    /// Stops a download with one of the statuses of stopped ones. WrongStatus comes where it has stopped.
    pub fn stop(&mut self, gid: Gid, status: Status) -> Result<(), QueueErr>
        requires { IsTrue (has_stopped status) }
        ensures answer { result ≡ queue_answer (refusal self.old (QueueCall.Stop gid status)) tt }
        ensures state { self.new ≡ after self.old (QueueCall.Stop gid status) }
    {
        match self.status(gid)? {
            Status::Active => self.stop_active(gid, ending_by_status(status)),
            Status::Waiting | Status::Paused => self.stop_queued(gid, ending_by_status(status)),
            stopped => return Err(QueueErr::WrongStatus(stopped)),
        }
        Ok(())
    }

    /// Removes a download: it stops as removed. WrongStatus comes where it has stopped.
    pub fn remove(&mut self, gid: Gid) -> Result<(), QueueErr>
        ensures answer { result ≡ queue_answer (refusal self.old (QueueCall.Remove gid)) tt }
        ensures state { self.new ≡ after self.old (QueueCall.Remove gid) }
    {
        self.stop(gid, Status::Removed)
    }

    fn forget_stopped(&mut self, gid: Gid)
        requires known { was_added self.old.added gid ≡ true }
        requires stands { stands_stopped (status_of self.old gid) ≡ true }
        ensures { self.new ≡ moved_up (effect self.old (QueueCall.Forget gid)) }
    {
        self.leave_stopped(gid);
        self.move_up();
    }

    /// Takes a stopped download out of the lists. WrongStatus comes where it hasn't stopped.
    pub fn forget(&mut self, gid: Gid) -> Result<(), QueueErr>
        ensures answer { result ≡ queue_answer (refusal self.old (QueueCall.Forget gid)) tt }
        ensures state { self.new ≡ after self.old (QueueCall.Forget gid) }
    {
        match self.status(gid)? {
            Status::Failed | Status::Complete | Status::Removed => self.forget_stopped(gid),
            status => return Err(QueueErr::WrongStatus(status)),
        }
        Ok(())
    }

    /// Takes all stopped downloads out of the lists.
    pub fn purge(&mut self)
        ensures { self.new ≡ after self.old QueueCall.Purge }
    {
        self.drop_stopped();
        self.move_up();
    }

    /// The place to which a download is moved.
    fn target_place(&self, gid: Gid, position: i64, how: How) -> usize
        requires known { was_added self.now.added gid ≡ true }
        requires stands { stands_queued (status_of self.now gid) ≡ true }
        ensures value { result ≡ target_of self.now.waiting gid position how }
        ensures within { result < length self.now.waiting }
        ensures few { result < 2 ^ 32 }
    {
        let place = self.place(gid);
        target(place, self.waiting_len() - 1, position, how)
    }

    fn move_queued(&mut self, gid: Gid, position: i64, how: How) -> u32
        requires known { was_added self.old.added gid ≡ true }
        requires stands { stands_queued (status_of self.old gid) ≡ true }
        ensures place { result ≡ target_of self.old.waiting gid position how }
        ensures state { self.new
            ≡ moved_up (effect self.old (QueueCall.ChangePosition gid position how)) }
    {
        let target = self.target_place(gid, position, how);
        let paused = self.is_paused(gid);
        self.leave_waiting(gid);
        self.enter_waiting(gid, target, paused);
        self.move_up();
        target as u32
    }

    /// Moves a waiting or paused download so far from the front, its own place or the last place, and answers its new place,
    /// from 0. A place before the first is the first one, and one behind the last is the last one. WrongStatus comes in any
    /// other status.
    pub fn change_position(&mut self, gid: Gid, pos: i64, how: How) -> Result<u32, QueueErr>
        ensures answer { result ≡ queue_answer
            (refusal self.old (QueueCall.ChangePosition gid pos how))
            (target_of self.old.waiting gid pos how) }
        ensures state { self.new ≡ after self.old (QueueCall.ChangePosition gid pos how) }
    {
        match self.status(gid)? {
            Status::Waiting | Status::Paused => Ok(self.move_queued(gid, pos, how)),
            status => Err(QueueErr::WrongStatus(status)),
        }
    }

    /// Adds a download to the waiting ones at the position, and at their end without one or beyond it. SameGid comes where the
    /// gid was used before in this run, Full where as many downloads were added as may be.
    pub fn add(
        &mut self,
        gid: Gid,
        options: Options,
        paused: bool,
        position: Option<u32>,
    ) -> Result<(), QueueErr>
        ensures answer { MatchOption (refusal self.old (QueueCall.Add gid options paused position))
            (IsOkUnless result NoMemory) (λ refused. result ≡ Err refused) }
        ensures state { self.new ≡ (if is_ok result
            then after self.old (QueueCall.Add gid options paused position) else self.old) }
    {
        if self.was_added(gid) {
            return Err(QueueErr::SameGid);
        }
        let count = self.added_len();
        if count >= MAX_DOWNLOADS {
            return Err(QueueErr::Full {
                count: count as u32,
            });
        }
        self.register(gid, options)?;
        let last = self.waiting_len();
        let place = position.map_or(last, |place| (place as usize).min(last));
        self.enter_waiting(gid, place, paused);
        self.move_up();
        Ok(())
    }

    /// The one download whose gid begins with the key's digits. NotFound comes where none does, Ambiguous where several do.
    pub fn find(&self, key: GidKey) -> Result<Gid, QueueErr>
        ensures { Finds self.now key result }
    {
        let named = self.named(key);
        match named.number {
            None => Err(QueueErr::NotFound),
            Some(number) if named.count == 1 => Ok(self.gid(number)),
            Some(_) => Err(QueueErr::Ambiguous {
                count: named.count as u32,
            }),
        }
    }
}
