// The parts of a fetch, which are read one after the other.
ghost use Rattle.std.specs.Prelude.{◌≡◌, ℕ, IsSome, Some, slice_get};
ghost use Rattle.span_map.specs.Jobs.{IsJobPart};
ghost use Rattle.span_map.specs.declared.jobs.JobPart.{JobPart};

use dl_kinds::NoMemory;
use link_source::Links;
use part_readers::{ChainRead, PartReader, PartRooms, ask_for};
use reply_reader::Loss;
use span_map::{JobPart, JobParts};
use std::alloc::Global;

/// What reads the part that is next: the rooms for it, where nothing is asked yet, or its reader.
#[derive(Debug, Drop)]
pub(crate) enum Reader {
    Next(PartRooms),
    Part(PartReader),
}

/// Parts of resources that are read one after the other over one link, each by a reader of its own, which hands its room
/// to the next one: so a connection over which requests go is kept from part to part.
#[derive(Debug, Drop)]
pub(crate) struct Source {
    parts: JobParts,
    /// The place of the part that is next.
    place: usize,
    /// It is away within calls alone.
    reader: Option<Reader>,
    /// How many bytes came from the link in the last read.
    taken: u32,
    ghost valid: { (place : ℕ) (part : JobPart) → slice_get parts place ≡ Some part → IsJobPart part },
    ghost there: { IsSome reader },
}

impl Source {
    ghost use Rattle.std.specs.Prelude.{◌≡◌, ◌⊎◌, ◌≤◌, ◌<◌, ◌+◌, ◌-◌, ◌++◌, ◌∷◌, [], List, ℕ, Some, true, false, IsTrue, IsFalse, All, OnOk, IfOk, IfErr, length, slice_get, vec_len, vec_capacity};
    ghost use Rattle.link_source.specs.Endpoint.{IsUsable};
    ghost use Rattle.link_source.specs.Exchanges.{Exchange};
    ghost use Rattle.link_source.specs.Link.{LinkState};
    ghost use Rattle.reply_reader.specs.Losses.{IsKnown};
    ghost use Rattle.request_chain.specs.Answered.{KeepsAnswers};
    ghost use Rattle.request_chain.specs.Links.{CountsLinkLoss};
    ghost use Rattle.request_chain.specs.Rests.{RestsOn, RestsWhole};
    ghost use Rattle.span_map.specs.Jobs.{IsJobPart};
    ghost use Rattle.span_map.specs.declared.jobs.JobPart.{JobPart};
    ghost use Rattle.part_fetches.specs.Fetched.{AreBrought};
    ghost use Rattle.fetch_session.specs.Sources.{rests_at, ForEachRead, IfUnusableNext, IsBegun, IsSource, MayReadAt, MovesOn, ReadsOrLosesParts, RestsAt, RestsWholeAt, SourceAsks, StepsOrLosesOn};

    pub fn new(parts: JobParts, rooms: PartRooms) -> Self
        requires parts { All IsJobPart parts }
        ensures source { IsSource parts [] [] result }
        ensures brought { AreBrought parts [] [] [] }
        ensures may { (link : LinkState) → RestsOn rooms.chain link
            → MayReadAt result.reader link }
        ensures whole { (exchanges : List Exchange) → RestsWhole rooms.chain exchanges
            → RestsWholeAt result.reader exchanges }
        ensures first { (part : JobPart) (others : List JobPart) → parts ≡ part ∷ others
            → SourceAsks result part.url }
    {
        Source {
            parts,
            place: 0,
            reader: Some(Reader::Next(rooms)),
            taken: 0,
        }
    }

    /// How many bytes came from the link in the last read.
    pub fn taken(&self) -> u32
        ensures { result ≡ self.now.taken }
    {
        self.taken
    }

    fn part(&self) -> &JobPart
        requires { self.now.place < length self.now.parts }
        ensures { slice_get self.now.parts self.now.place ≡ Some result.now }
    {
        self.parts.get(self.place).unwrap()
    }

    // The place behind the part that is next.
    fn next_place(&self) -> usize
        requires { self.now.place < length self.now.parts }
        ensures { result ≡ self.now.place + 1 }
    {
        if self.place < self.parts.len() {
            self.place + 1
        } else {
            self.place
        }
    }

    // Begins to read the part that is next, where nothing is asked for it yet. Where its URL can't be asked, its reader asks
    // for it still, and finds that out.
    fn begin_part(&mut self, alloc: Global) -> Result<(), NoMemory>
        requires within { self.old.place < length self.old.parts }
        ensures source { (parts : List JobPart) (used : List Exchange) (bytes : List ℕ)
            → IsSource parts used bytes self.old → IsSource parts used bytes self.new }
        ensures begun { OnOk result (IsBegun self.new.reader) }
        ensures parts { self.new.parts ≡ self.old.parts }
        ensures place { self.new.place ≡ self.old.place }
        ensures taken { self.new.taken ≡ self.old.taken }
        ensures may { (link : LinkState) → MayReadAt self.old.reader link
            → MayReadAt self.new.reader link }
        ensures whole { (exchanges : List Exchange) → RestsWholeAt self.old.reader exchanges
            → RestsWholeAt self.new.reader exchanges }
        ensures asks { (url : List ℕ) → SourceAsks self.old url
            → SourceAsks self.new url ⊎ IsUsable url }
    {
        let Some(Reader::Next(_)) = &self.reader else {
            return Ok(());
        };
        let ask = ask_for(alloc, self.part())?;
        let Some(Reader::Next(rooms)) = self.reader.take() else {
            unreachable!()
        };
        self.reader = Some(Reader::Part(PartReader::new(ask, rooms)));
        Ok(())
    }

    // Reads on in the part that is asked for. Where all of it came the next one is next. The answer is whether it came.
    fn read_part<L: Links>(
        &mut self,
        alloc: Global,
        link: &mut L,
        out: &mut Vec<u8>,
        room: usize,
        allow: u32,
    ) -> Result<bool, Loss>
        requires within { self.old.place < length self.old.parts }
        requires begun { IsBegun self.old.reader }
        requires some_room { 0 < room }
        requires room { vec_len out.old + room ≤ vec_capacity out.old }
        requires more { self.old.taken < allow }
        requires may { IsTrue L.tells → MayReadAt self.old.reader (L.state link.old) }
        ensures steps { IsTrue L.tells → ForEachRead self.old (L.state link.old)
            (λ parts before used bytes. (added : List ℕ) × (out.new.items ≡ out.old.items ++ added)
            × StepsOrLosesOn parts before used bytes added room allow self.old.taken
            result self.new (L.state link.new) (L.faults link.new)) }
        ensures len { vec_len out.new ≤ vec_len out.old + room }
        ensures capacity { vec_capacity out.old ≤ vec_capacity out.new }
        ensures few { self.new.taken ≤ allow }
        ensures parts { self.new.parts ≡ self.old.parts }
        ensures moves { IfOk result (MovesOn self.old self.new) }
        ensures may { OnOk result (IsTrue L.tells → MayReadAt self.new.reader (L.state link.new)) }
        ensures usable { OnOk result (IfUnusableNext self.old ⊥) }
        ensures untouched { IfUnusableNext self.old
            ((link.new ≡ link.old) × (out.new ≡ out.old)) }
        ensures link { IfErr result (CountsLinkLoss (L.faults link.old) (L.faults link.new)) }
        ensures known { IfErr result IsKnown }
        ensures answered { IsTrue L.tells → ForEachRead self.old (L.state link.old)
            (λ parts before used bytes. KeepsAnswers before (L.state link.old) (L.state link.new)) }
        ensures whole { IsTrue L.tells → ForEachRead self.old (L.state link.old)
            (λ parts before used bytes. RestsWholeAt self.old.reader (L.state link.old).exchanges
            → RestsWholeAt self.new.reader (L.state link.new).exchanges) }
        ensures later { L.faults link.old ≤ L.faults link.new }
    {
        let next = self.next_place();
        let Some(Reader::Part(reader)) = self.reader.take() else {
            unreachable!()
        };
        let mut reader = reader;
        let read = reader.read(alloc, link, out, room, allow - self.taken);
        self.taken += reader.taken();
        match read {
            Ok(read) => {
                if read.done {
                    self.place = next;
                    self.reader = Some(Reader::Next(reader.into_rooms()));
                    return Ok(true);
                }
                self.reader = Some(Reader::Part(reader));
                Ok(false)
            }
            Err(loss) => {
                self.reader = Some(Reader::Part(reader));
                Err(loss)
            }
        }
    }

    // One step: the part that is next is asked for, and read on. The answer is whether it came.
    fn turn<L: Links>(
        &mut self,
        alloc: Global,
        link: &mut L,
        out: &mut Vec<u8>,
        room: usize,
        allow: u32,
    ) -> Result<bool, Loss>
        requires within { self.old.place < length self.old.parts }
        requires some_room { 0 < room }
        requires room { vec_len out.old + room ≤ vec_capacity out.old }
        requires more { self.old.taken < allow }
        requires may { IsTrue L.tells → MayReadAt self.old.reader (L.state link.old) }
        ensures steps { IsTrue L.tells → ForEachRead self.old (L.state link.old)
            (λ parts before used bytes. (added : List ℕ) × (out.new.items ≡ out.old.items ++ added)
            × StepsOrLosesOn parts before used bytes added room allow self.old.taken
            result self.new (L.state link.new) (L.faults link.new)) }
        ensures len { vec_len out.new ≤ vec_len out.old + room }
        ensures capacity { vec_capacity out.old ≤ vec_capacity out.new }
        ensures few { self.new.taken ≤ allow }
        ensures parts { self.new.parts ≡ self.old.parts }
        ensures moves { IfOk result (MovesOn self.old self.new) }
        ensures may { OnOk result (IsTrue L.tells → MayReadAt self.new.reader (L.state link.new)) }
        ensures usable { OnOk result (IfUnusableNext self.old ⊥) }
        ensures untouched { IfUnusableNext self.old
            ((link.new ≡ link.old) × (out.new ≡ out.old)) }
        ensures link { IfErr result (CountsLinkLoss (L.faults link.old) (L.faults link.new)) }
        ensures known { IfErr result IsKnown }
        ensures answered { IsTrue L.tells → ForEachRead self.old (L.state link.old)
            (λ parts before used bytes. KeepsAnswers before (L.state link.old) (L.state link.new)) }
        ensures whole { IsTrue L.tells → ForEachRead self.old (L.state link.old)
            (λ parts before used bytes. RestsWholeAt self.old.reader (L.state link.old).exchanges
            → RestsWholeAt self.new.reader (L.state link.new).exchanges) }
        ensures later { L.faults link.old ≤ L.faults link.new }
    {
        if self.begin_part(alloc).is_err() {
            return Err(Loss::NoMemory);
        }
        self.read_part(alloc, link, out, room, allow)
    }

    // Whether all parts came.
    fn is_over(&self) -> bool
        ensures over { IsTrue result → length self.now.parts ≤ self.now.place }
        ensures left { IsFalse result → self.now.place < length self.now.parts }
    {
        self.place >= self.parts.len()
    }

    // Whether a read goes on that gained so many bytes, and whose last part came.
    fn goes_on(&self, came: bool, gained: usize, room: usize, allow: u32) -> bool
        ensures on { IsTrue result → (came ≡ true) × (self.now.place < length self.now.parts)
            × (gained < room) × (self.now.taken < allow) }
        ensures off { IsFalse result → (came ≡ false) ⊎ (length self.now.parts ≤ self.now.place)
            ⊎ (room ≤ gained) ⊎ (allow ≤ self.now.taken) }
    {
        came && !self.is_over() && gained < room && self.taken < allow
    }

    /// Reads on, and puts the bytes of the parts at the end of `out`, until there are `room` of them, or `allow` bytes
    /// came from the link, heads and all, or all came. After a loss it isn't used again. It takes memory as a chain of
    /// requests does, and for the URL of each part.
    pub fn read<L: Links>(
        &mut self,
        alloc: Global,
        link: &mut L,
        out: &mut Vec<u8>,
        room: usize,
        allow: u32,
    ) -> Result<ChainRead, Loss>
        requires some_room { 0 < room }
        requires room { vec_len out.old + room ≤ vec_capacity out.old }
        requires some { 0 < allow }
        requires may { IsTrue L.tells → MayReadAt self.old.reader (L.state link.old) }
        ensures reads { IsTrue L.tells → ForEachRead self.old (L.state link.old)
            (λ parts before used bytes. (added : List ℕ) × (out.new.items ≡ out.old.items ++ added)
            × ReadsOrLosesParts parts before used bytes added room allow result
            self.new (L.state link.new) (L.faults link.new)) }
        ensures taken { IfOk result (λ read. read.taken ≡ self.new.taken) }
        ensures few { self.new.taken ≤ allow }
        ensures len { vec_len out.new ≤ vec_len out.old + room }
        ensures capacity { vec_capacity out.old ≤ vec_capacity out.new }
        ensures may { OnOk result (IsTrue L.tells → MayReadAt self.new.reader (L.state link.new)) }
        ensures usable { OnOk result (IfUnusableNext self.old ⊥) }
        ensures untouched { IfUnusableNext self.old
            ((link.new ≡ link.old) × (out.new ≡ out.old)) }
        ensures link { IfErr result (CountsLinkLoss (L.faults link.old) (L.faults link.new)) }
        ensures known { IfErr result IsKnown }
        ensures answered { IsTrue L.tells → ForEachRead self.old (L.state link.old)
            (λ parts before used bytes. KeepsAnswers before (L.state link.old) (L.state link.new)) }
        ensures whole { IsTrue L.tells → ForEachRead self.old (L.state link.old)
            (λ parts before used bytes. RestsWholeAt self.old.reader (L.state link.old).exchanges
            → RestsWholeAt self.new.reader (L.state link.new).exchanges) }
        ensures later { L.faults link.old ≤ L.faults link.new }
    {
        let before = out.len();
        self.taken = 0;
        let mut gained = 0;
        let mut came = true;
        'turns: while self.goes_on(came, gained, room, allow) {
            came = self.turn(alloc, link, out, room - gained, allow)?;
            gained = out.len().saturating_sub(before);
        }
        Ok(ChainRead {
            taken: self.taken,
            done: self.is_over(),
        })
    }

    /// Whether the connection may take another request.
    pub fn rests(&self) -> bool
        ensures { result ≡ rests_at self.now.reader }
    {
        match &self.reader {
            Some(Reader::Next(rooms)) => rooms.rests(),
            Some(Reader::Part(reader)) => reader.rests(),
            None => false,
        }
    }

    /// The buffers, for another source.
    pub fn into_rooms(self) -> PartRooms
        ensures rests { (link : LinkState) → RestsAt self.reader link
            → RestsOn result.chain link }
        ensures whole { (exchanges : List Exchange) → RestsWholeAt self.reader exchanges
            → RestsWhole result.chain exchanges }
    {
        let Source {
            parts: _,
            place: _,
            reader,
            taken: _,
        } = self;
        match reader {
            Some(Reader::Next(rooms)) => rooms,
            Some(Reader::Part(reader)) => reader.into_rooms(),
            None => unreachable!(),
        }
    }
}
