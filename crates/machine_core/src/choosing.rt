// What the active downloads offer a worker.
ghost use Rattle.std.specs.Prelude.{◌≡◌, ◌≤◌, true, IfNone, IfOk, IfSome, find, length};
ghost use Rattle.one_download.specs.DownloadViews.{is_opened_by};
ghost use Rattle.segment_claim.specs.declared.limits.TheConstants.{MAX_SPLIT};
ghost use Rattle.machine_core.specs.Claiming.{IsOfferedNow, MayBeTaken, next_to_open};
ghost use Rattle.machine_core.specs.KeptOffers.{HasHosts, HasNoneToHand, HaveHosts, IsFirstToHand, IsGidOffer, IsKeptOffer, IsKeptProbeOffer, IsOpenedKeptOffer, is_sized_entry, is_torrent_at, is_waiting_to_open, opens_next, split_by};
ghost use Rattle.machine_core.specs.Offers.{IsOffered, active_credits, affords, least_wait};
ghost use Rattle.machine_core.specs.Reads.{downloads_in};
ghost use Rattle.machine_core.specs.RunLegal.{IsLaterThan};
ghost use Rattle.machine_core.specs.Replays.{is_active_in};
ghost use Rattle.machine_core.specs.TurnRooms.{EachActiveHas, HasClaimRoom, IsRoomierRun};
ghost use Rattle.machine_core.specs.declared.offers.Offer.{Offer as DownloadOffer};

use crate::entries::Entry;
use crate::pausing::is_active;
use crate::spares::reserve_claims;
use crate::{HandedPieces, Journal, Machine, Offer, Offered};
use dl_history::{accounts_match_events, histories_are_sound};
use dl_kinds::{BLOCK_LEN, Gid, Moment, plan_laws};
use dl_queue::Queue;
use one_download::{Choice, Split, steps_match_events};
use option_set::{Num, Options};
use rate_limits::RateLimits;
use std::alloc::AllocError;

fn split_of(options: &Options) -> Split
    ensures value { result ≡ split_by options.now }
    ensures some { 1 ≤ result.claims }
    ensures most { result.claims ≤ MAX_SPLIT }
{
    Split {
        claims: options.number(Num::Split) as u16,
        per_host: options.number(Num::MaxConnectionPerServer) as u16,
        min_blocks: options.number(Num::MinSplitSize).div_ceil(BLOCK_LEN as u64) as u32,
    }
}

// Whether the length of the payload is known.
fn is_sized(entry: &Entry, journal: &Journal) -> bool
    ensures { result ≡ is_sized_entry journal.now.events.items entry.now }
{
    journal.is_torrent_at(entry.called) || entry.state.told().is_some()
}

// .. while the download isn't opened.
fn is_waiting_to_open(entry: &Entry, journal: &Journal) -> bool
    ensures { result ≡ is_waiting_to_open journal.now.events.items entry.now }
{
    is_sized(entry, journal) && !entry.state.is_opened()
}

// The first active download that is to be opened.
fn first_to_open(queue: &Queue, entries: &Vec<Entry>, journal: &Journal) -> Option<Gid>
    requires { length entries.now.items ≡ length queue.now.added }
    ensures { result
        ≡ find (opens_next queue.now.added entries.now.items journal.now.events.items)
        queue.now.active }
{
    for gid in queue.active() {
        let place = queue.adding_place(gid).unwrap();
        if is_waiting_to_open(&entries[place], journal) {
            return Some(gid);
        }
    }
    None
}

// The first full piece that may be given to a worker. Of a download with a metainfo file, one that is handed out isn't.
fn first_to_hand(entry: &Entry, listed: bool, handed: &HandedPieces) -> Option<u32>
    ensures found { IfSome result (IsFirstToHand handed.now.pieces listed entry.now) }
    ensures none { IfNone result (HasNoneToHand handed.now.pieces listed entry.now) }
{
    let mut from = 0;
    while let Some(piece) = entry.state.next_full(from) {
        if !listed || !handed.is_out(entry.gid, piece) {
            return Some(piece);
        }
        from = piece + 1;
    }
    None
}

// What a download offers that is opened.
fn opened_offer(entry: &Entry, listed: bool, handed: &HandedPieces, now: Moment) -> Option<Offer>
    requires opened { is_opened_by entry.now.state.account ≡ true }
    requires hosts { HasHosts entry.now }
    requires room { HasClaimRoom entry.now }
    ensures offer { IfSome result
        (IsOpenedKeptOffer handed.now.pieces listed entry.now now.0) }
    ensures none { IfNone result ((offer : DownloadOffer)
        → ¬ IsOpenedKeptOffer handed.now.pieces listed entry.now now.0 offer) }
{
    match first_to_hand(entry, listed, handed) {
        Some(piece) => Some(Offer::Whole { piece }),
        None => match entry
            .state
            .choice(split_of(&entry.options), &entry.hosts, now)
        {
            Some(
                Choice {
                    run,
                    mirror,
                    victim,
                },
            ) => Some(Offer::Blocks {
                mirror,
                run,
                victim,
            }),
            None => None,
        },
    }
}

// What a download offers whose length isn't known.
fn probe_offer(entry: &Entry) -> Option<Offer>
    requires { HasHosts entry.now }
    ensures offer { IfSome result (IsKeptProbeOffer entry.now) }
    ensures none { IfNone result ((offer : DownloadOffer) → ¬ IsKeptProbeOffer entry.now offer) }
{
    if entry.state.standing() > 0 {
        return None;
    }
    match entry
        .state
        .probe_mirror(split_of(&entry.options), &entry.hosts)
    {
        Some(mirror) => Some(Offer::Probe { mirror }),
        None => None,
    }
}

// What a download offers.
fn entry_offer(
    entry: &Entry,
    journal: &Journal,
    handed: &HandedPieces,
    now: Moment,
) -> Option<Offer>
    requires hosts { HasHosts entry.now }
    requires room { HasClaimRoom entry.now }
    ensures offer { IfSome result
        (IsKeptOffer journal.now.events.items handed.now.pieces entry.now now.0) }
    ensures none { IfNone result ((offer : DownloadOffer)
        → ¬ IsKeptOffer journal.now.events.items handed.now.pieces entry.now now.0 offer) }
{
    if !is_sized(entry, journal) {
        return probe_offer(entry);
    }
    if !entry.state.is_opened() {
        return None;
    }
    let listed = journal.is_torrent_at(entry.called);
    opened_offer(entry, listed, handed, now)
}

// Whether an offer is afforded.
fn affords(credit: u64, offer: &Offer) -> bool
    ensures { result ≡ affords credit offer.now }
{
    match offer {
        Offer::Blocks { .. } => credit >= 1,
        _ => true,
    }
}

fn least(wait: Option<u64>, other: u64) -> u64
    ensures { result ≡ least_wait wait other }
{
    match wait {
        Some(ms) => ms.min(other),
        None => other,
    }
}

// The first active download that has an offer which its credit affords, or the least wait of those that have one.
fn first_offer(
    queue: &Queue,
    entries: &Vec<Entry>,
    journal: &Journal,
    handed: &HandedPieces,
    limits: &RateLimits,
    now: Moment,
) -> Offered
    requires many { length entries.now.items ≡ length queue.now.added }
    requires hosts { HaveHosts entries.now.items }
    requires room { EachActiveHas HasClaimRoom queue.now entries.now.items }
    requires buckets { length queue.now.added ≤ length limits.now.own }
    ensures { let events = journal.now.events.items in IsOffered
        (IsGidOffer queue.now.added entries.now.items events handed.now.pieces now.0)
        (active_credits queue.now limits.now now.0) result }
{
    let mut wait = None;
    for gid in queue.active() {
        let place = queue.adding_place(gid).unwrap();
        match entry_offer(&entries[place], journal, handed, now) {
            Some(offer) => {
                if affords(limits.credit(place, now), &offer) {
                    return Offered::Next { gid, offer };
                }
                wait = Some(least(wait, limits.wait(place, now)));
            }
            None => {}
        }
    }
    match wait {
        Some(ms) => Offered::Held { ms },
        None => Offered::Idle,
    }
}

impl Machine {
    /// Whether a download is active.
    pub fn is_active(&self, gid: Gid) -> bool
        ensures { result ≡ is_active_in self.now.start self.now.past gid }
    {
        is_active(&self.queue, gid)
    }

    /// The first active download whose length is known and that isn't opened.
    pub fn next_to_open(&self) -> Option<Gid>
        ensures { result ≡ next_to_open self.now.start self.now.past }
    {
        plan_laws();
        histories_are_sound();
        accounts_match_events();
        steps_match_events();
        first_to_open(&self.queue, &self.entries, &self.journal)
    }

    /// What a worker is given next, while the pieces of `handed` are compared: the first offer of an active
    /// download that its credit affords. A full piece goes before blocks, and blocks alone need a credit, of one byte.
    /// Memory is taken only to make room for a claim of each active download. An Err changes nothing but room.
    pub fn offer(
        &mut self,
        handed: &HandedPieces,
        limits: &RateLimits,
        now: Moment,
    ) -> Result<Offered, AllocError>
        requires later { IsLaterThan self.old.past now }
        requires buckets { length (downloads_in self.old) ≤ length limits.now.own }
        ensures offered { IfOk result
            (IsOfferedNow self.old handed.now.pieces limits.now now.0) }
        ensures taken { IfOk result (MayBeTaken self.new now) }
        ensures same { IsRoomierRun self.old self.new }
    {
        plan_laws();
        histories_are_sound();
        accounts_match_events();
        steps_match_events();
        reserve_claims(&self.queue, &mut self.entries)?;
        Ok(first_offer(
            &self.queue,
            &self.entries,
            &self.journal,
            handed,
            limits,
            now,
        ))
    }
}
