// What a console reads off a run.
ghost use Rattle.std.specs.Prelude.{◌≡◌, ◌≤◌, IfSome, IsSome, length, option_copied, slice_get};
ghost use Rattle.std.specs.Option.{option_and_then, option_map};
ghost use Rattle.machine_core.specs.MachineParts.{subject_of_call};
ghost use Rattle.machine_core.specs.MachineViews.{standing_in};
ghost use Rattle.machine_core.specs.Answers.{find_keyed};
ghost use Rattle.machine_core.specs.Asked.{known_by};
ghost use Rattle.machine_core.specs.LawfulCalls.{IsLawful};
ghost use Rattle.machine_core.specs.Openings as spec;
ghost use Rattle.machine_core.specs.OwnParts.{payload_lengths_of};
ghost use Rattle.machine_core.specs.Replays.{queue_in};
ghost use Rattle.machine_core.specs.RunLegal.{download_in, known_lengths};
ghost use Rattle.machine_core.specs.Starts.{Download};

use crate::opening::meta_of;
use crate::{Call, Event, Machine, keyed};
use dl_history::{accounts_match_events, histories_are_sound};
use dl_kinds::{Claim, Gid, GidKey, plan_laws};
use dl_queue::{Queue, QueueErr};
use metainfo::Meta;
use one_download::steps_match_events;
use option_set::Num;

/// The bytes of a payload, and of a full piece of it.
#[derive(Clone, Copy, Debug, PartialEq, Eq)]
pub struct Lengths {
    pub total: u64,
    pub piece_len: u32,
}

// The lengths of a metainfo file, or without one what a probe told.
fn lengths_with(meta: Option<&Meta>, piece_len: u32, told: Option<u64>) -> Option<Lengths>
    requires { 1 ≤ piece_len }
    ensures known { option_map known_by result
        ≡ spec.lengths_with (option_copied meta.entry) piece_len told }
    ensures some { IfSome result (λ lengths. 1 ≤ lengths.piece_len) }
{
    match meta {
        Some(meta) => Some(Lengths {
            total: meta.plan.total,
            piece_len: meta.plan.piece_len,
        }),
        None => Some(Lengths {
            total: told?,
            piece_len,
        }),
    }
}

impl Machine {
    /// The queue of the downloads.
    pub fn queue(&self) -> &Queue
        ensures { result.now ≡ queue_in self.now.start self.now.past }
    {
        &self.queue
    }

    /// The download of the lists that a key names. NotFound and Ambiguous are for a key that names none, or several.
    pub fn find(&self, key: GidKey) -> Result<Gid, QueueErr>
        ensures { result ≡ find_keyed (queue_in self.now.start self.now.past) key }
    {
        keyed::find_keyed(&self.queue, key)
    }

    /// How long the payload of a download is, and its pieces, once that is known: None before, and of one that wasn't
    /// added. What a probe told may be a length that no plan has.
    pub fn lengths(&self, gid: Gid) -> Option<Lengths>
        ensures known { option_map known_by result
            ≡ payload_lengths_of self.now.start self.now.past gid }
        ensures some { IfSome result (λ lengths. 1 ≤ lengths.piece_len) }
    {
        plan_laws();
        histories_are_sound();
        accounts_match_events();
        steps_match_events();
        let Some(place) = self.place(gid) else {
            return None;
        };
        let entry = &self.entries[place];
        let begun = self.queue.options(gid).unwrap();
        let event = self.adding_event(place);
        let piece_len = begun.number(Num::PieceLength) as u32;
        lengths_with(meta_of(event), piece_len, entry.state.told())
    }

    /// The length of the payload of a download, in bytes: 0 while it isn't known.
    pub fn total_len(&self, gid: Gid) -> u64
        ensures { result ≡ (known_lengths self.now.start self.now.past gid).total }
    {
        match self.lengths(gid) {
            Some(lengths) => lengths.total,
            None => 0,
        }
    }

    /// How many claims of a download stand: none of one that wasn't added.
    pub fn standing(&self, gid: Gid) -> u16
        ensures { result ≡ length (standing_in self.now gid) }
    {
        plan_laws();
        histories_are_sound();
        accounts_match_events();
        steps_match_events();
        let entries = &self.entries;
        let Some(place) = self.place(gid) else {
            return 0;
        };
        entries[place].state.standing()
    }

    /// The claim at a place among those of a download that stand, from 0, the newest first.
    pub fn standing_at(&self, gid: Gid, n: u16) -> Option<Claim>
        ensures { result ≡ slice_get (standing_in self.now gid) n }
    {
        plan_laws();
        histories_are_sound();
        accounts_match_events();
        steps_match_events();
        let entries = &self.entries;
        let Some(place) = self.place(gid) else {
            return None;
        };
        entries[place].state.claim_at(n)
    }

    /// The call that added a download.
    pub fn adding(&self, gid: Gid) -> Option<&Call>
        ensures subject { option_and_then subject_of_call (option_copied result)
            ≡ option_map (λ (download : Download). download.subject)
            (download_in self.now.start self.now.past gid) }
        ensures adds { IfSome result (λ call. IsSome (subject_of_call call.now)) }
        ensures lawful { IfSome result (λ call. IsLawful call.now) }
    {
        let place = self.place(gid)?;
        match self.adding_event(place) {
            Event::Called { call, .. } => Some(call),
            // No other event adds a download.
            _ => None,
        }
    }
}
