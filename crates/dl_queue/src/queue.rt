// The queue.
ghost use Rattle.std.specs.Prelude.{All, ◌≡◌, ◌≤◌, ◌<◌, ◌-◌, ◌++◌, ◌∷◌, [], ℕ, true, false, IsTrue, Option, Some, None, IfSome, IfOk, OnOk, insert, is_ok, is_some, length, map, option_copied, remove, slice_get, if◌then◌else◌};
ghost use Rattle.std.specs.Option.{ok_or};
ghost use Rattle.dl_kinds.specs.declared.status.Status.TheVariants.{Active, Waiting};
ghost use Rattle.dl_queue.specs.declared.kinds.Added.{Added as AddedDownload};
ghost use Rattle.dl_queue.specs.declared.kinds.QueueErr.TheVariants.{NotFound};
ghost use Rattle.dl_queue.specs.Places.{status_of, active_place, queued_place, stopped_place, queued_at};
ghost use Rattle.dl_queue.specs.Calls.{adding_place, was_added, with_pause, as_paused, options_in};
ghost use Rattle.dl_queue.specs.Named.{AreNamedIn};
ghost use Rattle.dl_queue.specs.NextUp.{IsNextUp, IsLastActive};
ghost use Rattle.dl_queue.specs.Held.{number_in, gid_numbered, stands_queued, stands_stopped};

use crate::kinds::status_by_ending;
use crate::lines::{fill, first_ready, gid_of, is_ready, mark_all, remove_if, standing_of};
use crate::named::{Named, all_named};
use crate::room::{give_number, reserve_lists};
use crate::{
    ActiveGids, Added, Ending, MAX_DOWNLOADS, QueueErr, QueuedDownloads, StoppedDownloads,
};
use dl_kinds::{Gid, GidKey, Status};
use number_list::NumberList;
use option_set::Options;
use std::alloc::{AllocError, Global};
use std::collections::BTreeMap;
use std::marker::Model;

/// The downloads of a run: which are active, which wait or are paused, and which have stopped.
#[derive(Drop)]
pub struct Queue {
    limit: u16,
    // The downloads in the order of their adding, by which they have numbers from 1, and where each stands.
    added: Vec<Added>,
    standings: Vec<Option<Status>>,
    numbers: BTreeMap<u64, usize>,
    active: NumberList,
    waiting: NumberList,
    // Those of the waiting ones that aren't paused.
    ready: NumberList,
    stopped: NumberList,
}

impl Model for Queue {
    ghost use Rattle.dl_queue.specs.Lists.{QueueLists};

    ghost Value = { QueueLists };

    ghost use Rattle.dl_queue.specs.Held.{lists_of, HoldsLists};

    ghost view = { λ q. lists_of q.limit record {
      added = q.added.items;
      standings = q.standings.items;
      active = q.active.order;
      waiting = q.waiting.order;
      ready = q.ready.order;
      stopped = q.stopped.order;
    } };

    ghost invariant = { λ q. HoldsLists record {
      added = q.added.items;
      standings = q.standings.items;
      active = q.active.order;
      waiting = q.waiting.order;
      ready = q.ready.order;
      stopped = q.stopped.order;
    }
        q.numbers q.active.bound q.waiting.bound q.ready.bound q.stopped.bound };
}

impl Queue {
    /// An empty queue, in which so many downloads may be active.
    pub fn new(alloc: Global, limit: u16) -> Self
        ensures { result
            ≡ record { limit = limit; active = []; waiting = []; stopped = []; added = [] } }
    {
        Queue {
            limit,
            added: Vec::new(alloc),
            standings: Vec::new(alloc),
            numbers: BTreeMap::new(alloc),
            active: NumberList::new(alloc),
            waiting: NumberList::new(alloc),
            ready: NumberList::new(alloc),
            stopped: NumberList::new(alloc),
        }
    }

    /// How many downloads may be active.
    pub fn limit(&self) -> u16
        ensures { result ≡ self.now.limit }
    {
        self.limit
    }

    /// How many downloads are active.
    pub fn active_len(&self) -> usize
        ensures { result ≡ length self.now.active }
    {
        self.active.len()
    }

    /// How many downloads wait or are paused.
    pub fn waiting_len(&self) -> usize
        ensures { result ≡ length self.now.waiting }
    {
        self.waiting.len()
    }

    /// How many downloads have stopped and weren't taken out of the lists.
    pub fn stopped_len(&self) -> usize
        ensures { result ≡ length self.now.stopped }
    {
        self.stopped.len()
    }

    /// The active downloads, in the order in which they became active. Each of them was added.
    pub fn active(&self) -> ActiveGids<'_>
        ensures value { result ≡ self.now.active }
        ensures added { All (λ gid. was_added self.now.added gid ≡ true) self.now.active }
    {
        ActiveGids::of(&self.added, self.active.iter())
    }

    /// The waiting and paused downloads, in the order in which they wait.
    pub fn waiting(&self) -> QueuedDownloads<'_>
        ensures { result ≡ self.now.waiting }
    {
        QueuedDownloads::of(&self.added, &self.standings, self.waiting.iter())
    }

    /// The stopped downloads, the oldest first.
    pub fn stopped(&self) -> StoppedDownloads<'_>
        ensures { result ≡ self.now.stopped }
    {
        StoppedDownloads::of(&self.added, &self.standings, self.stopped.iter())
    }

    /// The number of a download in the order of adding, from 1.
    fn number(&self, gid: Gid) -> Option<usize>
        ensures { result ≡ number_in self.now.added gid }
    {
        self.numbers.get(&gid.0).copied()
    }

    fn number_of(&self, gid: Gid) -> usize
        requires { was_added self.now.added gid ≡ true }
        ensures { number_in self.now.added gid ≡ Some result }
    {
        match self.number(gid) {
            Some(number) => number,
            None => unreachable!(),
        }
    }

    /// The status of a download. NotFound comes where it stands in none of the lists.
    pub fn status(&self, gid: Gid) -> Result<Status, QueueErr>
        ensures value { result ≡ ok_or (status_of self.now gid) NotFound }
        ensures stands { IfOk result (λ status. status_of self.now gid ≡ Some status) }
        ensures known { IfOk result (λ _. was_added self.now.added gid ≡ true) }
    {
        match self.number(gid) {
            Some(number) => standing_of(&self.standings, number).ok_or(QueueErr::NotFound),
            None => Err(QueueErr::NotFound),
        }
    }

    /// The place of a download in the order of adding, from 0.
    pub fn adding_place(&self, gid: Gid) -> Option<usize>
        ensures { result ≡ adding_place self.now.added gid }
    {
        let number = self.number(gid)?;
        Some(number - 1)
    }

    /// The download at a place in the order of adding, from 0.
    pub fn added_at(&self, place: usize) -> &Added
        requires { place < length self.now.added }
        ensures { slice_get self.now.added place ≡ Some result.now }
    {
        &self.added[place]
    }

    /// The status of the download at a place in the order of adding, from 0, if it stands in one of the lists.
    pub fn status_at(&self, place: usize) -> Option<Status>
        requires { place < length self.now.added }
        ensures { (download : AddedDownload) → slice_get self.now.added place ≡ Some download
            → result ≡ status_of self.now download.gid }
    {
        self.standings[place]
    }

    /// The options of a download that was added in this run.
    pub fn options(&self, gid: Gid) -> Option<&Options>
        ensures { option_copied result ≡ options_in self.now.added gid }
    {
        let number = self.number(gid)?;
        match self.added.get(number - 1) {
            Some(download) => Some(&download.options),
            None => None,
        }
    }

    /// The downloads of the lists that a key names.
    pub(crate) fn named(&self, key: GidKey) -> Named
        ensures { AreNamedIn self.now key result }
    {
        let active = all_named(&self.added, self.active.iter(), key);
        let queued = all_named(&self.added, self.waiting.iter(), key);
        let stopped = all_named(&self.added, self.stopped.iter(), key);
        active.and(queued).and(stopped)
    }

    /// The first waiting download that isn't paused.
    pub(crate) fn next_up(&self) -> Option<Gid>
        ensures { IsNextUp self.now result }
    {
        let number = self.ready.first()?;
        Some(gid_of(&self.added, number))
    }

    /// The active download that became so last.
    pub(crate) fn last_active(&self) -> Option<Gid>
        ensures { IsLastActive self.now result }
    {
        let number = self.active.last()?;
        Some(gid_of(&self.added, number))
    }

    /// The place of a waiting or paused download.
    pub(crate) fn place(&self, gid: Gid) -> usize
        requires known { was_added self.now.added gid ≡ true }
        requires stands { stands_queued (status_of self.now gid) ≡ true }
        ensures value { result ≡ queued_place gid self.now.waiting }
        ensures within { result < length self.now.waiting }
        ensures few { length self.now.waiting ≤ MAX_DOWNLOADS }
    {
        let number = self.number_of(gid);
        self.waiting.place(number)
    }

    /// Whether a waiting or paused download is paused.
    pub(crate) fn is_paused(&self, gid: Gid) -> bool
        requires known { was_added self.now.added gid ≡ true }
        requires stands { stands_queued (status_of self.now gid) ≡ true }
        ensures value { result
            ≡ (queued_at gid self.now.waiting (queued_place gid self.now.waiting)).paused }
        ensures within { queued_place gid self.now.waiting < length self.now.waiting }
    {
        let number = self.number_of(gid);
        !is_ready(standing_of(&self.standings, number))
    }

    /// Whether the gid was used in this run.
    pub(crate) fn was_added(&self, gid: Gid) -> bool
        ensures { result ≡ was_added self.now.added gid }
    {
        self.number(gid).is_some()
    }

    /// How many downloads were added.
    pub fn added_len(&self) -> usize
        ensures value { result ≡ length self.now.added }
        ensures few { length self.now.added ≤ MAX_DOWNLOADS }
    {
        self.added.len()
    }

    /// The gid of a number.
    pub(crate) fn gid(&self, number: usize) -> Gid
        requires counts { 0 < number }
        requires within { number ≤ length self.now.added }
        ensures { result ≡ gid_numbered self.now.added number }
    {
        gid_of(&self.added, number)
    }

    /// Changes how many downloads may be active.
    pub(crate) fn put_limit(&mut self, limit: u16)
        ensures { self.new ≡ record self.old { limit = limit } }
    {
        self.limit = limit;
    }

    /// Takes an active download out of its list.
    pub(crate) fn leave_active(&mut self, gid: Gid)
        requires known { was_added self.old.added gid ≡ true }
        requires stands { status_of self.old gid ≡ Some Active }
        ensures lists { self.new ≡ record self.old {
          active = remove self.old.active (active_place gid self.old.active);
        } }
        ensures gone { status_of self.new gid ≡ None }
    {
        let number = self.number_of(gid);
        self.active.remove(number);
        self.active.numbers_differ();
        self.standings[number - 1] = None;
    }

    /// Takes a waiting or paused download out of its list.
    pub(crate) fn leave_waiting(&mut self, gid: Gid)
        requires known { was_added self.old.added gid ≡ true }
        requires stands { stands_queued (status_of self.old gid) ≡ true }
        ensures lists { self.new ≡ record self.old {
          waiting = remove self.old.waiting (queued_place gid self.old.waiting);
        } }
        ensures gone { status_of self.new gid ≡ None }
    {
        let number = self.number_of(gid);
        let waits = is_ready(standing_of(&self.standings, number));
        remove_if(&mut self.ready, number, waits);
        self.waiting.remove(number);
        self.waiting.numbers_differ();
        self.standings[number - 1] = None;
    }

    /// Takes a stopped download out of its list.
    pub(crate) fn leave_stopped(&mut self, gid: Gid)
        requires known { was_added self.old.added gid ≡ true }
        requires stands { stands_stopped (status_of self.old gid) ≡ true }
        ensures lists { self.new ≡ record self.old {
          stopped = remove self.old.stopped (stopped_place gid self.old.stopped);
        } }
        ensures gone { status_of self.new gid ≡ None }
    {
        let number = self.number_of(gid);
        self.stopped.remove(number);
        self.stopped.numbers_differ();
        self.standings[number - 1] = None;
    }

    /// Puts a download that stands in no list to the end of the active ones.
    pub(crate) fn enter_active(&mut self, gid: Gid)
        requires known { was_added self.old.added gid ≡ true }
        requires stands { status_of self.old gid ≡ None }
        ensures { self.new ≡ record self.old { active = self.old.active ++ gid ∷ [] } }
    {
        let number = self.number_of(gid);
        self.active.push_back(number);
        self.active.numbers_differ();
        self.standings[number - 1] = Some(Status::Active);
    }

    /// Puts a download that stands in no list to the end of the stopped ones.
    pub(crate) fn enter_stopped(&mut self, gid: Gid, ending: Ending)
        requires known { was_added self.old.added gid ≡ true }
        requires stands { status_of self.old gid ≡ None }
        ensures { self.new ≡ record self.old {
          stopped = self.old.stopped ++ record { gid = gid; ending = ending } ∷ [];
        } }
    {
        let number = self.number_of(gid);
        self.stopped.push_back(number);
        self.stopped.numbers_differ();
        self.standings[number - 1] = Some(status_by_ending(ending));
    }

    /// Puts a download that stands in no list to a place among the waiting ones.
    pub(crate) fn enter_waiting(&mut self, gid: Gid, place: usize, paused: bool)
        requires known { was_added self.old.added gid ≡ true }
        requires stands { status_of self.old gid ≡ None }
        requires place { place ≤ length self.old.waiting }
        ensures { self.new ≡ record self.old {
          waiting = insert self.old.waiting place record { gid = gid; paused = paused };
        } }
    {
        let number = self.number_of(gid);
        self.waiting.insert(place, number);
        self.waiting.numbers_differ();
        if paused {
            self.standings[number - 1] = Some(Status::Paused);
            return;
        }
        let other = if place == 0 {
            self.ready.first().unwrap_or(0)
        } else {
            first_ready(&self.standings, self.waiting.iter_behind(number))
        };
        self.ready.insert_before(other, number);
        self.standings[number - 1] = Some(Status::Waiting);
    }

    /// Pauses a waiting download in its place.
    pub(crate) fn mark_paused(&mut self, gid: Gid)
        requires known { was_added self.old.added gid ≡ true }
        requires stands { status_of self.old gid ≡ Some Waiting }
        ensures { self.new ≡ record self.old { waiting = with_pause true gid self.old.waiting } }
    {
        let number = self.number_of(gid);
        self.ready.remove(number);
        self.standings[number - 1] = Some(Status::Paused);
    }

    /// Pauses all waiting downloads in their places.
    pub(crate) fn pause_queued(&mut self)
        ensures { self.new ≡ record self.old { waiting = map (as_paused true) self.old.waiting } }
    {
        mark_all(
            &mut self.standings,
            self.waiting.iter(),
            Some(Status::Paused),
        );
        self.ready.clear();
    }

    /// Lets all paused downloads wait again in their places.
    pub(crate) fn unpause_queued(&mut self)
        ensures { self.new ≡ record self.old { waiting = map (as_paused false) self.old.waiting } }
    {
        mark_all(
            &mut self.standings,
            self.waiting.iter(),
            Some(Status::Waiting),
        );
        self.ready.clear();
        fill(&mut self.ready, self.waiting.iter());
    }

    /// Takes all stopped downloads out of their list.
    pub(crate) fn drop_stopped(&mut self)
        ensures { self.new ≡ record self.old { stopped = [] } }
    {
        mark_all(&mut self.standings, self.stopped.iter(), None);
        self.stopped.clear();
        self.stopped.numbers_differ();
    }

    /// Adds a download that stands in no list yet.
    pub(crate) fn register(&mut self, gid: Gid, options: Options) -> Result<(), AllocError>
        requires fresh { was_added self.old.added gid ≡ false }
        requires room { length self.old.added < MAX_DOWNLOADS }
        ensures state { self.new ≡ (if is_ok result
            then record self.old { added = self.old.added ++ record { gid = gid; options = options } ∷ [] } else self.old) }
        ensures known { OnOk result (was_added self.new.added gid ≡ true) }
        ensures stands { OnOk result (status_of self.new gid ≡ None) }
    {
        let count = self.added.len();
        reserve_lists(
            &mut self.active,
            &mut self.waiting,
            &mut self.ready,
            &mut self.stopped,
            count + 2,
        )?;
        self.added.reserve(1)?;
        self.standings.reserve(1)?;
        give_number(&mut self.numbers, gid, count + 1)?;
        self.added.push_reserved(Added { gid, options });
        self.standings.push_reserved(None);
        Ok(())
    }
}
