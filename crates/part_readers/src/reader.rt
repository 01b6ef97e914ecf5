// What reads one part.
ghost use Rattle.std.specs.Prelude.{◌≡◌, ◌⊎◌, ◌≤◌, ◌<◌, ◌+◌, ◌++◌, [], List, ℕ, true, false, length, IsTrue, OnOk, IfOk, IfErr, vec_len, vec_capacity};
ghost use Rattle.link_source.specs.Endpoint.{IsUsable};
ghost use Rattle.link_source.specs.Exchanges.{Exchange};
ghost use Rattle.link_source.specs.Link.{LinkState};
ghost use Rattle.reply_reader.specs.Losses.{IsKnown};
ghost use Rattle.request_chain.specs.Answered.{KeepsAnswers};
ghost use Rattle.request_chain.specs.Links.{CountsLinkLoss};
ghost use Rattle.request_chain.specs.Rests.{RestsOn, RestsWhole};
ghost use Rattle.span_map.specs.Jobs.{IsJobPart};
ghost use Rattle.span_map.specs.declared.jobs.JobPart.{JobPart};
ghost use Rattle.part_readers.specs.Asks.{IsAskFor};
ghost use Rattle.part_readers.specs.Readers.{rests_by, taken_by, ForEachPart, IfUnusableBy, IsReading, MayReadBy, ReaderAsks, ReadsOrLosesPart, RestsOnBy, RestsWholeBy};

use crate::ask::PartAsk;
use crate::rooms::PartRooms;
use ftp_link::{FtpRoom, FtpTalk};
use link_source::Links;
use reply_reader::Loss;
use request_chain::{Chain, ChainRead, ChainRoom};
use std::alloc::Global;

/// What reads one part over a link, with the room that it has no use for.
#[derive(Debug, Drop)]
pub enum PartReader {
    /// A chain of requests.
    Http(Chain, FtpRoom),
    /// A talk with an FTP server.
    Ftp(FtpTalk, ChainRoom),
}

impl PartReader {
    /// A reader that hasn't asked for its part yet.
    pub fn new(ask: PartAsk, rooms: PartRooms) -> Self
        requires { (part : JobPart) × IsAskFor part ask × IsJobPart part }
        ensures reading { (part : JobPart) → IsAskFor part ask → IsReading part [] [] [] result }
        ensures may { (link : LinkState) → RestsOn rooms.chain link → MayReadBy result link }
        ensures whole { (exchanges : List Exchange) → RestsWhole rooms.chain exchanges
            → RestsWholeBy result exchanges }
        ensures asks { (part : JobPart) → IsAskFor part ask
            → ReaderAsks result part.url ⊎ IsUsable part.url }
    {
        let PartRooms { chain, ftp } = rooms;
        match ask {
            PartAsk::Requests(parts) => PartReader::Http(Chain::new(parts, chain), ftp),
            PartAsk::Dialogue(part, place) => {
                PartReader::Ftp(FtpTalk::new(part, place, ftp), chain.without_connection())
            }
        }
    }

    /// How many bytes came from the link in the last read.
    pub fn taken(&self) -> u32
        ensures { result ≡ taken_by self.now }
    {
        match self {
            PartReader::Http(chain, _) => chain.taken(),
            PartReader::Ftp(talk, _) => talk.taken(),
        }
    }

    /// Reads on, and puts the bytes of the part at the end of `out`, until there are `room` of them, or `allow` bytes came
    /// from the link, heads or replies and all, or all came. After a loss and once all came it isn't used again.
    pub fn read<L: Links>(
        &mut self,
        alloc: Global,
        link: &mut L,
        out: &mut Vec<u8>,
        room: usize,
        allow: u32,
    ) -> Result<ChainRead, Loss>
        requires some_room { 0 < room }
        requires room { vec_len out.old + room ≤ vec_capacity out.old }
        requires some { 0 < allow }
        requires may { IsTrue L.tells → MayReadBy self.old (L.state link.old) }
        ensures reads { IsTrue L.tells → ForEachPart self.old (L.state link.old)
            (λ part before used bytes. (added : List ℕ) × (out.new.items ≡ out.old.items ++ added)
            × ReadsOrLosesPart part before used bytes added room allow result
            self.new (taken_by self.new) (L.state link.new) (L.faults link.new)) }
        ensures taken { IfOk result (λ read. read.taken ≡ taken_by self.new) }
        ensures may { OnOk result (IsTrue L.tells → MayReadBy self.new (L.state link.new)) }
        ensures few { taken_by self.new ≤ allow }
        ensures len { vec_len out.new ≤ vec_len out.old + room }
        ensures capacity { vec_capacity out.old ≤ vec_capacity out.new }
        // A request for a URL that can't be asked is refused without a call of the link.
        ensures usable { OnOk result (IfUnusableBy self.old ⊥) }
        ensures untouched { IfUnusableBy self.old
            ((link.new ≡ link.old) × (out.new ≡ out.old)) }
        ensures link { IfErr result (CountsLinkLoss (L.faults link.old) (L.faults link.new)) }
        ensures known { IfErr result IsKnown }
        ensures answered { IsTrue L.tells → ForEachPart self.old (L.state link.old)
            (λ part before used bytes. (first : List Exchange) → length first ≤ length before
            → KeepsAnswers first (L.state link.old) (L.state link.new)) }
        // The connection is kept only behind a reply that was read whole.
        ensures whole { IsTrue L.tells → ForEachPart self.old (L.state link.old)
            (λ part before used bytes. RestsWholeBy self.old (L.state link.old).exchanges
            → RestsWholeBy self.new (L.state link.new).exchanges) }
        ensures later { L.faults link.old ≤ L.faults link.new }
    {
        match self {
            PartReader::Http(chain, _) => chain.read(alloc, link, out, room, allow),
            PartReader::Ftp(talk, _) => talk.read(alloc, link, out, room, allow),
        }
    }

    /// Whether the connection may take another request.
    pub fn rests(&self) -> bool
        ensures { result ≡ rests_by self.now }
    {
        match self {
            PartReader::Http(chain, _) => chain.rests(),
            PartReader::Ftp(_, _) => false,
        }
    }

    /// The rooms, for another reader.
    pub fn into_rooms(self) -> PartRooms
        ensures rests { (link : LinkState) → RestsOnBy self link → RestsOn result.chain link }
        ensures whole { (exchanges : List Exchange) → RestsWholeBy self exchanges
            → RestsWhole result.chain exchanges }
    {
        match self {
            PartReader::Http(chain, ftp) => PartRooms {
                chain: chain.into_room(),
                ftp,
            },
            PartReader::Ftp(talk, chain) => PartRooms {
                chain: chain.without_connection(),
                ftp: talk.into_room(),
            },
        }
    }
}
