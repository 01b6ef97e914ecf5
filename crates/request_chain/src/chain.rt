// A chain of requests over one link.
ghost use Rattle.std.specs.Prelude.{◌≡◌, ◌≢◌, false};
ghost use Rattle.request_chain.specs.declared.stage.Stage.TheVariants.{Asking};

use crate::course::Course;
use crate::room::ChainRoom;
use crate::stage::Stage;
use link_source::Links;
use reply_reader::{Loss, final_heads_are_one_and_stay, streams_have_one_answer};
use span_map::JobParts;
use std::alloc::Global;

/// The requests that bring parts of resources, one after the other over one link. A request to the host and port of
/// the one before goes over its connection, where that persists behind a reply that was read whole.
#[derive(Debug, Drop)]
pub struct Chain {
    pub(crate) course: Course,
    pub(crate) stage: Stage,
    pub(crate) room: ChainRoom,
    /// How many bytes came from the link in the last read.
    pub(crate) taken: u32,
    // While a reply is read, the connection takes no other request.
    ghost busy: { stage ≢ Asking → room.rests ≡ false },
}

/// How many bytes came from the link, and whether all parts came.
#[derive(Clone, Copy, Debug, PartialEq, Eq)]
pub struct ChainRead {
    pub taken: u32,
    pub done: bool,
}

impl Chain {
    ghost use Rattle.std.specs.Prelude.{◌≡◌, ◌⊎◌, ◌≤◌, ◌<◌, ◌+◌, ◌-◌, ◌*◌, ◌++◌, ◌∷◌, [], List, ℕ, true, false, IsTrue, IsFalse, All, OnOk, IfOk, IfErr, length, vec_len, vec_capacity};
    ghost use Rattle.link_source.specs.Exchanges.{Exchange};
    ghost use Rattle.link_source.specs.Link.{LinkState};
    ghost use Rattle.reply_reader.specs.Losses.{IsKnown};
    ghost use Rattle.request_chain.specs.Calls.{ForEachUse, ReadsOrLoses, StaysAnswered, StepsOrLoses};
    ghost use Rattle.request_chain.specs.Chains.{HasBrought, IsChain};
    ghost use Rattle.request_chain.specs.Courses.{plan_now, IsAsking};
    ghost use Rattle.request_chain.specs.Links.{CountsLinkLoss};
    ghost use Rattle.request_chain.specs.Plans.{Done, Over};
    ghost use Rattle.request_chain.specs.Rests.{RestsOn, RestsWhole};
    ghost use Rattle.request_chain.specs.Turns.{AsksFor, IfUnusable, MayGoOn, weight_of};
    ghost use Rattle.span_map.specs.Jobs.{IsJobPart};
    ghost use Rattle.span_map.specs.declared.jobs.JobPart.{JobPart};

    pub fn new(parts: JobParts, room: ChainRoom) -> Self
        requires parts { All IsJobPart parts }
        ensures chain { IsChain parts [] [] result }
        ensures brought { HasBrought parts [] [] [] }
        ensures may { (link : LinkState) → RestsOn room link → MayGoOn result link }
        ensures whole { (exchanges : List Exchange) → RestsWhole room exchanges
            → RestsWhole result.room exchanges }
        ensures first { (part : JobPart) (others : List JobPart) → parts ≡ part ∷ others
            → AsksFor result part.url }
    {
        let mut room = room;
        room.inbox.clear();
        Chain {
            course: Course::new(parts),
            stage: Stage::Asking,
            room,
            taken: 0,
        }
    }

    /// How many bytes came from the link in the last read.
    pub fn taken(&self) -> u32
        ensures { result ≡ self.now.taken }
    {
        self.taken
    }

    // One step: a request is sent, or some bytes are read.
    fn turn<L: Links>(
        &mut self,
        alloc: Global,
        link: &mut L,
        out: &mut Vec<u8>,
        room: usize,
        allow: u32,
    ) -> Result<(), Loss>
        requires asking { IsAsking (plan_now self.old.course) }
        requires some_room { 0 < room }
        requires room { vec_len out.old + room ≤ vec_capacity out.old }
        requires few { self.old.taken ≤ allow }
        requires more { (self.old.taken < allow) ⊎ (0 < length self.old.room.inbox) }
        requires may { IsTrue L.tells → MayGoOn self.old (L.state link.old) }
        ensures steps { IsTrue L.tells → ForEachUse self.old (L.state link.old)
            (λ parts before used bytes. (added : List ℕ) × (out.new.items ≡ out.old.items ++ added)
            × StepsOrLoses parts before used bytes added self.old result
            self.new (L.state link.new) (L.faults link.new)) }
        ensures len { vec_len out.new ≤ vec_len out.old + room }
        ensures capacity { vec_capacity out.old ≤ vec_capacity out.new }
        ensures few { self.new.taken ≤ allow }
        ensures smaller { OnOk result (weight_of self.new + 6 * (allow - self.new.taken)
            < weight_of self.old + 6 * (allow - self.old.taken)) }
        ensures may { OnOk result (IsTrue L.tells → MayGoOn self.new (L.state link.new)) }
        ensures usable { OnOk result (IfUnusable self.old ⊥) }
        ensures untouched { IfUnusable self.old ((link.new ≡ link.old) × (out.new ≡ out.old)) }
        ensures link { IfErr result (CountsLinkLoss (L.faults link.old) (L.faults link.new)) }
        ensures known { IfErr result IsKnown }
        ensures answered { IsTrue L.tells
            → StaysAnswered self.old (L.state link.old) (L.state link.new) }
        // Behind a turn the connection may take another request only where a reply was just read whole.
        ensures whole { IsTrue L.tells → ForEachUse self.old (L.state link.old)
            (λ parts before used bytes. RestsWhole self.new.room (L.state link.new).exchanges) }
        ensures later { L.faults link.old ≤ L.faults link.new }
    {
        if self.stage.is_asking() {
            return self.ask(alloc, link);
        }
        if !self.room.inbox.is_empty() {
            return self.read_on(alloc, out, room);
        }
        if self.stage.is_unheard() {
            if !self.receive_first(alloc, link, allow)? {
                return Ok(());
            }
            return self.read_on(alloc, out, room);
        }
        self.receive(alloc, link, allow)?;
        self.read_on(alloc, out, room)
    }

    // Whether a read goes on that gained so many bytes.
    fn goes_on(&self, gained: usize, room: usize, allow: u32) -> bool
        ensures on { IsTrue result → IsAsking (plan_now self.now.course) × (gained < room)
            × ((self.now.taken < allow) ⊎ (0 < length self.now.room.inbox)) }
        ensures off { IsFalse result → (plan_now self.now.course ≡ Over Done) ⊎ (room ≤ gained)
            ⊎ ((allow ≤ self.now.taken) × (self.now.room.inbox ≡ [])) }
    {
        !self.course.is_over()
            && gained < room
            && (self.taken < allow || !self.room.inbox.is_empty())
    }

    /// Reads on, and puts the bytes of the parts at the end of `out`, until there are `room` of them, or `allow` bytes
    /// came from the link, heads and all, or all came. After a loss and once all came the chain isn't used again. It
    /// never asks the link for more than 65,536 bytes at once, and takes memory for heads, requests and URLs alone.
    pub fn read<L: Links>(
        &mut self,
        alloc: Global,
        link: &mut L,
        out: &mut Vec<u8>,
        room: usize,
        allow: u32,
    ) -> Result<ChainRead, Loss>
        requires some_room { 0 < room }
        requires room { vec_len out.old + room ≤ vec_capacity out.old }
        requires some { 0 < allow }
        requires may { IsTrue L.tells → MayGoOn self.old (L.state link.old) }
        ensures reads { IsTrue L.tells → ForEachUse self.old (L.state link.old)
            (λ parts before used bytes. (added : List ℕ) × (out.new.items ≡ out.old.items ++ added)
            × ReadsOrLoses parts before used bytes added room allow result
            self.new (L.state link.new) (L.faults link.new)) }

        // Also of a link that tells nothing.
        ensures full { IfOk result (λ read. (read.done ≡ true)
            ⊎ (vec_len out.old + room ≤ vec_len out.new) ⊎ (read.taken ≡ allow)) }
        ensures taken { IfOk result (λ read. read.taken ≡ self.new.taken) }
        ensures may { OnOk result (IsTrue L.tells → MayGoOn self.new (L.state link.new)) }
        ensures few { self.new.taken ≤ allow }
        ensures len { vec_len out.new ≤ vec_len out.old + room }
        ensures capacity { vec_capacity out.old ≤ vec_capacity out.new }
        // A request for a URL that is no `http` URL is refused without a call of the link.
        ensures usable { OnOk result (IfUnusable self.old ⊥) }
        ensures untouched { IfUnusable self.old ((link.new ≡ link.old) × (out.new ≡ out.old)) }
        ensures link { IfErr result (CountsLinkLoss (L.faults link.old) (L.faults link.new)) }
        ensures known { IfErr result IsKnown }
        ensures answered { IsTrue L.tells
            → StaysAnswered self.old (L.state link.old) (L.state link.new) }
        // The connection is kept only behind a reply that was read whole.
        ensures whole { IsTrue L.tells → ForEachUse self.old (L.state link.old)
            (λ parts before used bytes. RestsWhole self.old.room (L.state link.old).exchanges
            → RestsWhole self.new.room (L.state link.new).exchanges) }
        ensures later { L.faults link.old ≤ L.faults link.new }
    {
        streams_have_one_answer();
        final_heads_are_one_and_stay();
        let before = out.len();
        self.taken = 0;
        let mut gained = 0;
        'turns: while self.goes_on(gained, room, allow) {
            self.turn(alloc, link, out, room - gained, allow)?;
            gained = out.len().saturating_sub(before);
        }
        self.stage.check(alloc)?;
        Ok(ChainRead {
            taken: self.taken,
            done: self.course.is_over(),
        })
    }

    /// Whether the connection may take another request.
    pub fn rests(&self) -> bool
        ensures { result ≡ self.now.room.rests }
    {
        self.room.rests
    }

    /// The buffers, for another chain.
    pub fn into_room(self) -> ChainRoom
        ensures { result ≡ self.room }
    {
        self.room
    }
}
