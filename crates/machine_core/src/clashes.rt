// Downloads that would write over another.
ghost use Rattle.std.specs.Prelude.{◌≡◌, ◌<◌, IfNone, IfOk, IfSome, MatchBool, Some, length, slice_get};
ghost use Rattle.std.specs.Option.{option_map};
ghost use Rattle.dl_kinds.specs.declared.gid.Gid.{Gid};
ghost use Rattle.machine_core.specs.Clashes.{HasClash, HasFileAt, HasHashAt, IsBeforeOpening, IsBesideAt, IsClear, IsFileTwin, IsHashTwin, SharesNoName};
ghost use Rattle.machine_core.specs.DownloadWants.{HasWant};
ghost use Rattle.machine_core.specs.Openings.{HasPlan, meta_of_event};
ghost use Rattle.machine_core.specs.Reads.{downloads_in};
ghost use Rattle.machine_core.specs.RunLegal.{MayFollow, goes_on, info_hash_by};
ghost use Rattle.machine_core.specs.Starts.{Download};
ghost use Rattle.machine_core.specs.declared.events.Event.TheVariants as event;

use crate::opening::meta_of;
use crate::{End, Event, Machine};
use control_file::Want;
use dl_history::{accounts_match_events, histories_are_sound};
use dl_kinds::{Gid, Status, plan_laws};
use dl_queue::Queue;
use one_download::steps_match_events;
use resume_core::shares_name;
use std::alloc::{AllocError, Global};

fn is_going(queue: &Queue, gid: Gid) -> bool
    ensures { result ≡ goes_on queue.now gid }
{
    match queue.status(gid) {
        Ok(Status::Active | Status::Waiting | Status::Paused) => true,
        _ => false,
    }
}

fn hash_of_event(event: &Event) -> Option<[u8; 20]>
    ensures { result ≡ option_map (λ meta. meta.info_hash) (meta_of_event event.now) }
{
    match meta_of(event) {
        Some(meta) => Some(meta.info_hash),
        None => None,
    }
}

fn is_same_hash(one: &[u8], other: &[u8]) -> bool
    ensures { MatchBool result (one.now ≡ other.now) (one.now ≡ other.now → ⊥) }
{
    one == other
}

impl Machine {
    // The info hash of the download at a place.
    fn hash_at(&self, place: usize) -> Option<[u8; 20]>
        requires { place < length (downloads_in self.now) }
        ensures { (download : Download) → slice_get (downloads_in self.now) place ≡ Some download
            → result ≡ info_hash_by download.subject }
    {
        hash_of_event(self.adding_event(place))
    }

    // Whether the download at a place is another that is opened and goes on.
    fn is_beside_at(&self, gid: Gid, place: usize) -> bool
        requires { place < length (downloads_in self.now) }
        ensures { MatchBool result (IsBesideAt self.now gid place)
            (IsBesideAt self.now gid place → ⊥) }
    {
        plan_laws();
        histories_are_sound();
        accounts_match_events();
        steps_match_events();
        let entry = &self.entries[place];
        if entry.gid.0 == gid.0 {
            return false;
        }
        if !entry.state.is_opened() {
            return false;
        }
        is_going(&self.queue, entry.gid)
    }

    // Whether it also has the info hash.
    fn has_hash_at(&self, gid: Gid, hash: &[u8; 20], place: usize) -> bool
        requires { place < length (downloads_in self.now) }
        ensures { MatchBool result (HasHashAt self.now gid hash.now place)
            (HasHashAt self.now gid hash.now place → ⊥) }
    {
        let Some(other) = self.hash_at(place) else {
            return false;
        };
        if !is_same_hash(other.as_slice(), hash.as_slice()) {
            return false;
        }
        self.is_beside_at(gid, place)
    }

    // Whether it writes a file of the download, which has this want.
    fn has_file_at(
        &self,
        alloc: Global,
        gid: Gid,
        want: &Want,
        place: usize,
    ) -> Result<bool, AllocError>
        requires want { HasWant self.now.start self.now.past gid want.now }
        requires place { place < length (downloads_in self.now) }
        ensures { IfOk result (λ has.
            MatchBool has (HasFileAt self.now gid place) (HasFileAt self.now gid place → ⊥)) }
    {
        plan_laws();
        histories_are_sound();
        accounts_match_events();
        let entry = &self.entries[place];
        if !self.is_beside_at(gid, place) {
            return Ok(false);
        }
        match self.make_want(alloc, entry.gid)? {
            Some(other) => shares_name(alloc, want, &other),
            // Never comes: a download that is opened has a plan.
            None => Ok(false),
        }
    }

    /// Another download with the same info hash that is opened and goes on, the first in the order of adding. It looks at each
    /// download once.
    pub fn same_hash(&self, gid: Gid) -> Option<Gid>
        ensures found { IfSome result (IsHashTwin self.now gid) }
        ensures none { IfNone result ((other : Gid) → IsHashTwin self.now gid other → ⊥) }
    {
        let entries = &self.entries;
        let place = self.place(gid)?;
        let hash = self.hash_at(place)?;
        for at in 0..entries.len() {
            if self.has_hash_at(gid, &hash, at) {
                return Some(entries[at].gid);
            }
        }
        None
    }

    // Another download that is opened and goes on, and writes a file of this one, the first in the order of adding.
    fn same_file(&self, alloc: Global, gid: Gid) -> Result<Option<Gid>, AllocError>
        ensures found { IfOk result (λ other. IfSome other (IsFileTwin self.now gid)) }
        ensures none { IfOk result (λ other. IfNone other (HasPlan self.now gid
            → (twin : Gid) → IsFileTwin self.now gid twin → ⊥)) }
    {
        let entries = &self.entries;
        let Some(want) = self.make_want(alloc, gid)? else {
            return Ok(None);
        };
        for at in 0..entries.len() {
            if self.has_file_at(alloc, gid, &want, at)? {
                return Ok(Some(entries[at].gid));
            }
        }
        Ok(None)
    }

    /// What a download that is to be opened ends with because of others that are opened and go on: SameHash of one
    /// with its info hash or, where none has, SameFile of the first, in the order of adding, that writes a file of it. The
    /// temporary file of its control file is one, too. A download without a plan has no files. It makes the names of each that
    /// goes on anew, and compares each with each of the download's.
    pub fn clash(&self, alloc: Global, gid: Gid) -> Result<Option<End>, AllocError>
        ensures found { IfOk result (λ end. IfSome end (HasClash self.now gid)) }
        ensures may { IsBeforeOpening self.now gid → IfOk result (λ end. IfSome end (λ how.
            MayFollow self.now.start self.now.past (event.Ended gid how))) }
        ensures none { IfOk result (λ end.
            IfNone end (HasPlan self.now gid → IsClear self.now gid)) }
        ensures apart { IfOk result (λ end. IfNone end (SharesNoName self.now gid)) }
    {
        if let Some(twin) = self.same_hash(gid) {
            return Ok(Some(End::SameHash { gid: twin }));
        }
        match self.same_file(alloc, gid)? {
            Some(twin) => Ok(Some(End::SameFile { gid: twin })),
            None => Ok(None),
        }
    }
}
