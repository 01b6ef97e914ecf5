// Which downloads are to be saved.
ghost use Rattle.std.specs.Prelude.{◌≡◌, ◌<◌, [], IfOk, length, MatchBool, OnErr, slice_get, Some};
ghost use Rattle.engine_turns.specs.CallRows.{AreThose};
ghost use Rattle.stored_run.specs.Saves.{HasOpenedUnsaved, IsDueLast, IsDueOff, gids_of, is_active_status, is_going_status, is_off_by, noted_status, statuses_in};

use crate::StoredRun;
use crate::following::runs_follow;
use dl_disk::Disk;
use dl_kinds::{Gid, NoMemory, Status};

// Whether a download with this status is active.
fn is_active(status: Option<Status>) -> bool
    ensures { result ≡ is_active_status status }
{
    match status {
        Some(Status::Active) => true,
        _ => false,
    }
}

// Whether a download with this status goes on.
fn is_going(status: Option<Status>) -> bool
    ensures { result ≡ is_going_status status }
{
    match status {
        Some(Status::Active | Status::Waiting | Status::Paused) => true,
        _ => false,
    }
}

// Whether a download whose status changed so is taken off.
fn is_off(was: Option<Status>, now: Option<Status>) -> bool
    ensures { result ≡ is_off_by was now }
{
    is_active(was) && !is_active(now) || is_going(was) && !is_going(now)
}

// The status at a place, if one stands there.
fn status_then(statuses: &[Option<Status>], place: usize) -> Option<Status>
    ensures { result ≡ noted_status statuses.now place }
{
    if place < statuses.len() {
        statuses[place]
    } else {
        None
    }
}

impl<D: Disk> StoredRun<D> {
    /// How many downloads were added.
    pub fn count(&self) -> u32
        ensures { result ≡ length (gids_of self.entry.now) }
    {
        self.machine.queue().added_len() as u32
    }

    // The download that was added at this place.
    fn gid_at(&self, n: u32) -> Gid
        requires { n < length (gids_of self.now) }
        ensures { slice_get (gids_of self.entry.now) n ≡ Some result }
    {
        let (gid, _) = self.machine.added(n).unwrap();
        gid
    }

    // The statuses of all downloads, in the order of adding.
    pub(crate) fn statuses(&self) -> Result<Vec<Option<Status>>, NoMemory>
        ensures { IfOk result (λ statuses. statuses.items
            ≡ statuses_in self.entry.now.machine.start self.entry.now.machine.past) }
    {
        let mut statuses = Vec::new(self.alloc);
        for n in 0..self.count() {
            statuses.push(self.machine.status(self.gid_at(n)))?;
        }
        Ok(statuses)
    }

    // Whether a download is opened, and has something to save.
    fn is_unsaved(&self, gid: Gid) -> bool
        ensures { MatchBool result (HasOpenedUnsaved self.entry.now gid)
            (¬ HasOpenedUnsaved self.entry.now gid) }
    {
        self.tells_stored();
        self.machine.table(gid).is_some() && self.machine.unsaved(gid)
    }

    // Whether a download is taken off since these were the statuses, with something to save.
    fn is_due_off(&self, was: &[Option<Status>], gid: Gid) -> bool
        ensures { MatchBool result (IsDueOff was.now self.entry.now gid)
            (¬ IsDueOff was.now self.entry.now gid) }
    {
        self.tells_stored();
        match self.machine.place(gid) {
            Some(place) => {
                is_off(status_then(was, place), self.machine.status(gid)) && self.is_unsaved(gid)
            }
            None => false,
        }
    }

    // Whether a download goes on, and has something to save.
    fn is_due_last(&self, gid: Gid) -> bool
        ensures { MatchBool result (IsDueLast self.entry.now gid)
            (¬ IsDueLast self.entry.now gid) }
    {
        is_going(self.machine.status(gid)) && self.is_unsaved(gid)
    }

    // Those that are taken off since these were the statuses. Memory is asked only where there is one.
    pub(crate) fn due_off(&self, was: &[Option<Status>]) -> Result<Vec<Gid>, NoMemory>
        ensures those { IfOk result (λ gids.
            AreThose (IsDueOff was.now self.entry.now) (gids_of self.entry.now) gids.items) }
        ensures some { OnErr result
            (¬ AreThose (IsDueOff was.now self.entry.now) (gids_of self.entry.now) []) }
    {
        let mut due = Vec::new(self.alloc);
        for n in 0..self.count() {
            let gid = self.gid_at(n);
            if self.is_due_off(was, gid) {
                due.push(gid)?;
            }
        }
        Ok(due)
    }

    // Those that go on with something to save. Memory is asked only where there is one.
    pub(crate) fn due_last(&self) -> Result<Vec<Gid>, NoMemory>
        ensures those { IfOk result (λ gids.
            AreThose (IsDueLast self.entry.now) (gids_of self.entry.now) gids.items) }
        ensures some { OnErr result
            (¬ AreThose (IsDueLast self.entry.now) (gids_of self.entry.now) []) }
    {
        let mut due = Vec::new(self.alloc);
        for n in 0..self.count() {
            let gid = self.gid_at(n);
            if self.is_due_last(gid) {
                due.push(gid)?;
            }
        }
        Ok(due)
    }
}
