// A fetch of a run of blocks.
ghost use Rattle.std.specs.Prelude.{◌≡◌, ◌↔◌, ◌<◌, ◌≤◌, ℕ, ◌+◌, ◌++◌, ◌∷◌, [], List, length, vec_len, vec_capacity, Some, None, Err, true, false, min, IsTrue, IsFalse, IsSome, IfSome, IfOk, IfErr, OnOk, OnErr, MatchResult};
ghost use Rattle.std.specs.Option.{ForSome, ForNone};
ghost use Rattle.dl_kinds.specs.Plan.{blocks_of};
ghost use Rattle.reply_reader.specs.Losses.{IsKnown};
ghost use Rattle.fetch_session.specs.Blocks.{AreReady};
ghost use Rattle.fetch_session.specs.declared.blocks.TheConstants.{MOST_READY};
ghost use Rattle.fetch_session.specs.declared.room.TheConstants.{BUFFER};
ghost use Rattle.link_source.specs.Link.{LinkState};
ghost use Rattle.link_source.specs.Exchanges.{Exchange};
ghost use Rattle.request_chain.specs.Rests.{RestsOn, RestsWhole};
ghost use Rattle.fetch_session.specs.Sources.{rests_at, RestsAt, RestsWholeAt};

use crate::blocks::{cut, missing, take_front, whole_from};
use crate::room::{BUFFER, FetchRoom, make_buffer};
use crate::source::Source;
use dl_kinds::{Blob, NoMemory, Plan, Run, plan_laws};
use link_source::Links;
use part_fetches::fetched_bytes_fit_their_parts;
use part_readers::PartRooms;
use reply_reader::Loss;
use span_map::Job;
use std::alloc::Global;

/// What a step gained: the blocks that are ready, how many bytes came from the link, and whether the ready blocks are
/// the last.
#[derive(Clone, Copy, Debug, PartialEq, Eq)]
pub struct Got {
    pub ready: Run,
    pub taken: u32,
    pub done: bool,
}

/// A fetch of a run of blocks. Steps read on, and between them the blocks that are ready are taken.
#[derive(Debug, Drop)]
pub struct Fetch {
    plan: Plan,
    // The block behind the run.
    end: u32,
    // From the first block on that wasn't handed out.
    ready: Run,
    source: Source,
    // The bytes from that block on.
    held: Vec<u8>,
    spare: Option<Vec<u8>>,
    lost: Option<Loss>,
    ghost within: { end ≤ blocks_of plan.total plan.piece_len },
    ghost holds: { AreReady plan end ready (vec_len held) },
    ghost held_fits: { BUFFER ≤ vec_capacity held },
    ghost spare_fits: { ForSome spare (λ buffer. BUFFER ≤ vec_capacity buffer) },
    // Where blocks are ready, so is the buffer for what is behind them.
    ghost spare_is_in: { ForNone spare (ready.count ≡ 0) },
    ghost known: { ForSome lost IsKnown },
}

impl Fetch {
    ghost use Rattle.link_source.specs.Endpoint.{IsUsable};
    ghost use Rattle.link_source.specs.Link.{LinkState, closed};
    ghost use Rattle.link_source.specs.Exchanges.{Exchange};
    ghost use Rattle.request_chain.specs.Chains.{Gains};
    ghost use Rattle.request_chain.specs.Answered.{KeepsAnswers};
    ghost use Rattle.request_chain.specs.Links.{CountsLinkLoss};
    ghost use Rattle.span_map.specs.declared.jobs.Job.{Job};
    ghost use Rattle.span_map.specs.declared.jobs.JobPart.{JobPart};
    ghost use Rattle.fetch_session.specs.Blocks.{cut};
    ghost use Rattle.span_map.specs.Jobs.{IsJob, run_end, run_start};
    ghost use Rattle.fetch_session.specs.Fetches.{fetch_plan, rest_of, ready_of, lost_of, IsFetch, AsksNext, IsHeldBack, IsKeptBehindWhole, IsLetGo, KeepsBehindWhole, MayBegin, MayStep, SameButSpare, FetchSteps, Fails};

    /// Begins the fetch of a run, with the parts of resources that are its bytes.
    pub fn begin(job: Job, room: FetchRoom) -> Fetch
        requires { IsJob job }
        ensures fetch { IsFetch job [] [] result }
        ensures plan { fetch_plan result ≡ job.plan }
        ensures rest { rest_of result ≡ job.run }
        ensures none_ready { (ready_of result).count ≡ 0 }
        ensures none_lost { lost_of result ≡ None }
        ensures may { (link : LinkState) → MayBegin room link → MayStep result link }
        ensures whole { (exchanges : List Exchange) → IsKeptBehindWhole room exchanges
            → KeepsBehindWhole result exchanges }
        ensures own { (part : JobPart) (others : List JobPart) → job.parts ≡ part ∷ others
            → AsksNext result part.url }
        ensures first { cut job.plan job.run.first ≡ run_start job.plan job.run }
        ensures end { cut job.plan (job.run.first + job.run.count) ≡ run_end job.plan job.run }
    {
        plan_laws();
        let Job { plan, run, parts } = job;
        let FetchRoom {
            rooms,
            mut held,
            spare,
        } = room;
        held.clear();
        Fetch {
            plan,
            end: run.first + run.count,
            ready: Run {
                first: run.first,
                count: 0,
            },
            source: Source::new(parts, rooms),
            held,
            spare,
            lost: None,
        }
    }

    /// What stands after a step that took so many bytes.
    fn got(&self, taken: u32) -> Got
        ensures ready { result.ready ≡ ready_of self.now }
        ensures taken { result.taken ≡ taken }
        ensures done { IsTrue result.done ↔ ((ready_of self.now).count ≡ (rest_of self.now).count) }
    {
        Got {
            ready: self.ready,
            taken,
            done: self.ready.first + self.ready.count == self.end,
        }
    }

    /// What stands after a step that took so many bytes. The link is hung up where all came, unless its connection may
    /// take another request.
    fn end_step<L: Links>(&self, link: &mut L, taken: u32) -> Got
        ensures ready { result.ready ≡ ready_of self.now }
        ensures taken { result.taken ≡ taken }
        ensures done { IsTrue result.done ↔ ((ready_of self.now).count ≡ (rest_of self.now).count) }
        ensures closed { IsTrue result.done → IsTrue L.tells → IsLetGo self.now (L.state link.new) }
        ensures kept { rests_at self.now.source.reader ≡ true → link.new ≡ link.old }
        ensures same { IsFalse result.done → link.new ≡ link.old }
        ensures streams { IsTrue L.tells
            → (L.state link.new).exchanges ≡ (L.state link.old).exchanges }
        ensures answered { IsTrue L.tells → (before : List Exchange)
            → KeepsAnswers before (L.state link.old) (L.state link.new) }
        ensures faults { L.faults link.new ≡ L.faults link.old }
    {
        let got = self.got(taken);
        if got.done && !self.source.rests() {
            link.hang_up();
        }
        got
    }

    /// Reads on until `allow` bytes came from the link, heads and all, or 64 blocks are ready, or the last ones are.
    /// Where blocks are ready before a loss, the next step tells the loss, and each step behind it tells it again. Where
    /// memory runs out, what came in this step is given up. It takes memory as a chain of requests does, for
    /// the URL of each part, and for a buffer that wasn't given back.
    pub fn step<L: Links>(&mut self, alloc: Global, link: &mut L, allow: u32) -> Result<Got, Loss>
        requires none_ready { (ready_of self.old).count ≡ 0 }
        requires some { 0 < allow }
        requires may { IsTrue L.tells → MayStep self.old (L.state link.old) }
        ensures reads { IsTrue L.tells → (job : Job) (before used : List Exchange) (handed : List ℕ)
            → IsFetch job used handed self.old → Gains before (L.state link.old).exchanges used
            → MatchResult result
            (λ got. FetchSteps job before used handed (L.state link.new).exchanges allow got
            self.new)
            (λ loss. Fails job before used handed (L.state link.new).exchanges allow loss
            self.new) }
        ensures plan { fetch_plan self.new ≡ fetch_plan self.old }
        ensures rest { rest_of self.new ≡ rest_of self.old }

        // The ready blocks are the first ones that weren't handed out.
        ensures ready { IfOk result (λ got. got.ready ≡ ready_of self.new) }
        ensures within { (ready_of self.new).count ≤ (rest_of self.new).count }
        ensures few { (ready_of self.new).count ≤ MOST_READY }
        ensures allowed { IfOk result (λ got. got.taken ≤ allow) }
        ensures done { IfOk result (λ got. IsTrue got.done
            ↔ (got.ready.count ≡ (rest_of self.new).count)) }

        // A loss that it held back is told, and nothing else is done.
        ensures held { IfSome (lost_of self.old) (λ loss. result ≡ Err loss) }
        ensures untouched { IsSome (lost_of self.old) → link.new ≡ link.old }
        ensures lost { IfErr result (λ loss. lost_of self.new ≡ Some loss) }
        // A loss is held back only behind ready blocks, and want of memory never is.
        ensures held_back { OnOk result
            (IfSome (lost_of self.new) (IsHeldBack (ready_of self.new))) }
        ensures known { IfErr result IsKnown }
        // A request for a URL that is no `http` URL is refused without a call of the link.
        ensures refused { (url : List ℕ) → AsksNext self.old url → (IsUsable url → ⊥)
            → link.new ≡ link.old }

        // Over mirrors in memory each request had one answer: the true reply, or a bad answer that is used then.
        ensures answered { IsTrue L.tells
            → (job : Job) (before used : List Exchange) (handed : List ℕ)
            → IsFetch job used handed self.old → Gains before (L.state link.old).exchanges used
            → KeepsAnswers before (L.state link.old) (L.state link.new) }
        // A connection is kept only behind a reply that was read whole.
        ensures whole { IsTrue L.tells
            → (job : Job) (before used : List Exchange) (handed : List ℕ)
            → IsFetch job used handed self.old → Gains before (L.state link.old).exchanges used
            → KeepsBehindWhole self.old (L.state link.old).exchanges
            → KeepsBehindWhole self.new (L.state link.new).exchanges }
        ensures may { IsTrue L.tells → MayStep self.new (L.state link.new) }
        ensures closed { IfOk result (λ got. IsTrue got.done → 0 < got.ready.count
            → IsTrue L.tells → IsLetGo self.new (L.state link.new)) }
        ensures none_ready { OnErr result ((ready_of self.new).count ≡ 0) }
        ensures cause { lost_of self.old ≡ None
            → IfSome (lost_of self.new) (CountsLinkLoss (L.faults link.old) (L.faults link.new)) }
        ensures later { L.faults link.old ≤ L.faults link.new }
    {
        fetched_bytes_fit_their_parts();
        plan_laws();
        if let Some(loss) = self.lost {
            return Err(loss);
        }
        let room = missing(&self.plan, self.ready.first, self.end, self.held.len()) as usize;
        if room == 0 {
            return Ok(self.got(0));
        }
        if self.refill(alloc).is_err() {
            self.lost = Some(Loss::NoMemory);
            return Err(Loss::NoMemory);
        }
        self.read_on(alloc, link, room, allow)
    }

    /// Makes the buffer that wasn't given back.
    fn refill(&mut self, alloc: Global) -> Result<(), NoMemory>
        ensures fetch { (job : Job) (used : List Exchange) (handed : List ℕ)
            → IsFetch job used handed self.old → IsFetch job used handed self.new }
        ensures shown { SameButSpare self.old self.new }
        ensures may { (link : LinkState) → MayStep self.old link → MayStep self.new link }
        ensures whole { (exchanges : List Exchange) → KeepsBehindWhole self.old exchanges
            → KeepsBehindWhole self.new exchanges }
        ensures spare { IfOk result (λ _. IsSome self.new.spare) }
    {
        if self.spare.is_none() {
            self.spare = Some(make_buffer(alloc)?);
        }
        Ok(())
    }

    /// Reads on, where there is room.
    fn read_on<L: Links>(
        &mut self,
        alloc: Global,
        link: &mut L,
        room: usize,
        allow: u32,
    ) -> Result<Got, Loss>
        requires none_ready { (ready_of self.old).count ≡ 0 }
        requires none_lost { lost_of self.old ≡ None }
        requires spare { IsSome self.old.spare }
        requires some { 0 < allow }
        requires some_room { 0 < room }
        requires may { IsTrue L.tells → MayStep self.old (L.state link.old) }
        requires room { cut self.old.plan self.old.ready.first + vec_len self.old.held + room
            ≡ cut self.old.plan (min (self.old.ready.first + MOST_READY) self.old.end) }
        ensures reads { IsTrue L.tells → (job : Job) (before used : List Exchange) (handed : List ℕ)
            → IsFetch job used handed self.old → Gains before (L.state link.old).exchanges used
            → MatchResult result
            (λ got. FetchSteps job before used handed (L.state link.new).exchanges allow got
            self.new)
            (λ loss. Fails job before used handed (L.state link.new).exchanges allow loss
            self.new) }
        ensures plan { fetch_plan self.new ≡ fetch_plan self.old }
        ensures rest { rest_of self.new ≡ rest_of self.old }
        ensures ready { IfOk result (λ got. got.ready ≡ ready_of self.new) }
        ensures within { (ready_of self.new).count ≤ (rest_of self.new).count }
        ensures few { (ready_of self.new).count ≤ MOST_READY }
        ensures allowed { IfOk result (λ got. got.taken ≤ allow) }
        ensures done { IfOk result (λ got. IsTrue got.done
            ↔ (got.ready.count ≡ (rest_of self.new).count)) }
        ensures lost { IfErr result (λ loss. lost_of self.new ≡ Some loss) }
        ensures held_back { OnOk result
            (IfSome (lost_of self.new) (IsHeldBack (ready_of self.new))) }
        ensures known { IfErr result IsKnown }
        ensures refused { (url : List ℕ) → AsksNext self.old url → (IsUsable url → ⊥)
            → link.new ≡ link.old }

        ensures answered { IsTrue L.tells
            → (job : Job) (before used : List Exchange) (handed : List ℕ)
            → IsFetch job used handed self.old → Gains before (L.state link.old).exchanges used
            → KeepsAnswers before (L.state link.old) (L.state link.new) }
        ensures whole { IsTrue L.tells
            → (job : Job) (before used : List Exchange) (handed : List ℕ)
            → IsFetch job used handed self.old → Gains before (L.state link.old).exchanges used
            → KeepsBehindWhole self.old (L.state link.old).exchanges
            → KeepsBehindWhole self.new (L.state link.new).exchanges }
        ensures may { IsTrue L.tells → MayStep self.new (L.state link.new) }
        ensures closed { IfOk result (λ got. IsTrue got.done → 0 < got.ready.count
            → IsTrue L.tells → IsLetGo self.new (L.state link.new)) }
        ensures none_ready { OnErr result ((ready_of self.new).count ≡ 0) }
        ensures cause { IfSome (lost_of self.new)
            (CountsLinkLoss (L.faults link.old) (L.faults link.new)) }
        ensures later { L.faults link.old ≤ L.faults link.new }
    {
        fetched_bytes_fit_their_parts();
        plan_laws();
        let before = self.held.len();
        match self.source.read(alloc, link, &mut self.held, room, allow) {
            Ok(read) => {
                self.ready = whole_from(&self.plan, self.ready.first, self.end, self.held.len());
                Ok(self.end_step(link, read.taken))
            }
            Err(loss) => match loss {
                Loss::NoMemory => {
                    self.held.truncate(before);
                    self.lost = Some(loss);
                    Err(loss)
                }
                _ => {
                    self.ready = whole_from(
                        &self.plan,
                        self.ready.first,
                        self.end,
                        self.held.len(),
                    );
                    self.lost = Some(loss);
                    if self.ready.count == 0 {
                        return Err(loss);
                    }
                    Ok(self.end_step(link, self.source.taken()))
                }
            },
        }
    }

    /// The bytes of the ready blocks, in one of the buffers. It takes no memory.
    pub fn take_blocks(&mut self) -> Blob
        requires { 0 < (ready_of self.old).count }
        ensures takes { (job : Job) (used : List Exchange) (handed : List ℕ)
            → IsFetch job used handed self.old → IsFetch job used (handed ++ result) self.new }
        ensures may { (link : LinkState) → MayStep self.old link → MayStep self.new link }
        ensures whole { (exchanges : List Exchange) → KeepsBehindWhole self.old exchanges
            → KeepsBehindWhole self.new exchanges }
        ensures len { run_start (fetch_plan self.old) (ready_of self.old) + length result
            ≡ run_end (fetch_plan self.old) (ready_of self.old) }
        ensures place { cut (fetch_plan self.old) (rest_of self.old).first + length result
            ≡ cut (fetch_plan self.new) (rest_of self.new).first }
        ensures plan { fetch_plan self.new ≡ fetch_plan self.old }
        ensures rest_first { (rest_of self.new).first
            ≡ (rest_of self.old).first + (ready_of self.old).count }
        ensures rest_count { (rest_of self.new).count + (ready_of self.old).count
            ≡ (rest_of self.old).count }
        ensures none_ready { (ready_of self.new).count ≡ 0 }
        ensures lost { lost_of self.new ≡ lost_of self.old }
    {
        plan_laws();
        let next = self.ready.first + self.ready.count;
        let len = (cut(&self.plan, next) - cut(&self.plan, self.ready.first)) as usize;
        let Some(spare) = self.spare.take() else {
            unreachable!()
        };
        let blocks = take_front(&mut self.held, spare, len);
        self.ready = Run {
            first: next,
            count: 0,
        };
        Blob::wrap(blocks)
    }

    /// Gives a buffer back. A blob that isn't one of the buffers is dropped. It takes no memory.
    pub fn give_back(&mut self, room: Blob)
        ensures fetch { (job : Job) (used : List Exchange) (handed : List ℕ)
            → IsFetch job used handed self.old → IsFetch job used handed self.new }
        ensures may { (link : LinkState) → MayStep self.old link → MayStep self.new link }
        ensures whole { (exchanges : List Exchange) → KeepsBehindWhole self.old exchanges
            → KeepsBehindWhole self.new exchanges }
        ensures plan { fetch_plan self.new ≡ fetch_plan self.old }
        ensures rest { rest_of self.new ≡ rest_of self.old }
        ensures ready { ready_of self.new ≡ ready_of self.old }
        ensures lost { lost_of self.new ≡ lost_of self.old }
    {
        let buffer = room.into_vec();
        if buffer.capacity() >= BUFFER {
            self.spare = Some(buffer);
        }
    }

    /// The room, for another fetch. After a loss that one begins on a connection of its own.
    pub fn into_room(self) -> FetchRoom
        ensures may { (link : LinkState) → MayStep self link → MayBegin result link }
        ensures whole { (exchanges : List Exchange) → KeepsBehindWhole self exchanges
            → IsKeptBehindWhole result exchanges }
    {
        let Fetch {
            plan: _,
            end: _,
            ready: _,
            source,
            held,
            spare,
            lost,
        } = self;
        FetchRoom {
            rooms: rooms_behind(source, lost),
            held,
            spare,
        }
    }
}

// The rooms of a source, which doesn't go on over its connection after a loss.
fn rooms_behind(source: Source, lost: Option<Loss>) -> PartRooms
    ensures rests { (link : LinkState) → (lost ≡ None → RestsAt source.reader link)
        → RestsOn result.chain link }
    ensures whole { (exchanges : List Exchange) → RestsWholeAt source.reader exchanges
        → RestsWhole result.chain exchanges }
{
    let rooms = source.into_rooms();
    match lost {
        Some(_) => rooms.without_connection(),
        None => rooms,
    }
}
