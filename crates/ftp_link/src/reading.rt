// The calls of a talk.
ghost use Rattle.std.specs.Prelude.{◌≡◌, ◌≢◌, ◌⊎◌, ◌≤◌, ◌<◌, ◌+◌, ◌-◌, ◌*◌, ◌++◌, List, ℕ, true, None, Ok, IsTrue, IsFalse, OnOk, IfOk, IfErr, MatchResult, vec_len, vec_capacity};
ghost use Rattle.link_source.specs.Exchanges.{Exchange};
ghost use Rattle.reply_reader.specs.Losses.{IsKnown};
ghost use Rattle.request_chain.specs.Answered.{KeepsAnswers};
ghost use Rattle.request_chain.specs.Links.{CountsLinkLoss};
ghost use Rattle.ftp_link.specs.Reads.{ForEachTalkOf, ReadsOrLosesTalk};
ghost use Rattle.ftp_link.specs.Talks.{MayTalk, ForEachTalk, TalksOrLoses, TalkStaysAnswered};
ghost use Rattle.ftp_link.specs.declared.stage.TalkStage.TheVariants.{Over};

use crate::room::FtpRoom;
use crate::talk::FtpTalk;
use link_source::Links;
use reply_reader::Loss;
use request_chain::{ChainRead, links_keep_answers};
use std::alloc::Global;

impl FtpTalk {
    // Whether a read goes on that gained so many bytes.
    fn goes_on(&self, gained: usize, room: usize, allow: u32) -> bool
        ensures on { IsTrue result → (self.now.stage ≢ Over) × (gained < room)
            × (self.now.taken < allow) }
        ensures off { IsFalse result → (self.now.stage ≡ Over) ⊎ (room ≤ gained)
            ⊎ (allow ≤ self.now.taken) }
    {
        !self.stage.is_over() && gained < room && self.taken < allow
    }

    // Takes steps until there are so many bytes, or so many came from the link, or all came.
    fn take_turns<L: Links>(
        &mut self,
        alloc: Global,
        link: &mut L,
        out: &mut Vec<u8>,
        room: usize,
        allow: u32,
    ) -> Result<(), Loss>
        requires none { self.old.taken ≡ 0 }
        requires some_room { 0 < room }
        requires room { vec_len out.old + room ≤ vec_capacity out.old }
        requires may { IsTrue L.tells → MayTalk self.old (L.state link.old) }
        ensures steps { IsTrue L.tells → ForEachTalk self.old (L.state link.old)
            (λ before used bytes. (added : List ℕ) × (out.new.items ≡ out.old.items ++ added)
            × TalksOrLoses before used bytes added 0 result
            self.new (L.state link.new) (L.faults link.new)) }
        ensures full { OnOk result ((self.new.stage ≡ Over)
            ⊎ (vec_len out.old + room ≤ vec_len out.new) ⊎ (self.new.taken ≡ allow)) }
        ensures few { self.new.taken ≤ allow }
        ensures len { vec_len out.new ≤ vec_len out.old + room }
        ensures capacity { vec_capacity out.old ≤ vec_capacity out.new }
        ensures place { self.new.place ≡ self.old.place }
        ensures part { self.new.part ≡ self.old.part }
        ensures may { OnOk result (IsTrue L.tells → MayTalk self.new (L.state link.new)) }
        ensures link { IfErr result (CountsLinkLoss (L.faults link.old) (L.faults link.new)) }
        ensures known { IfErr result IsKnown }
        ensures answered { IsTrue L.tells
            → TalkStaysAnswered self.old (L.state link.old) (L.state link.new) }
        ensures later { L.faults link.old ≤ L.faults link.new }
    {
        let before = out.len();
        let mut gained = 0;
        'turns: while self.goes_on(gained, room, allow) {
            self.turn(alloc, link, out, room - gained, allow)?;
            gained = out.len().saturating_sub(before);
        }
        Ok(())
    }

    /// Reads on, and puts the bytes of the part at the end of `out`, until there are `room` of them, or `allow` bytes
    /// came from the link, replies and all, or all came. The link is hung up once all came, and where the rest is lost:
    /// then the talk isn't used again. It never asks the link for more than 65,536 bytes at once, and takes memory for
    /// commands alone.
    pub fn read<L: Links>(
        &mut self,
        alloc: Global,
        link: &mut L,
        out: &mut Vec<u8>,
        room: usize,
        allow: u32,
    ) -> Result<ChainRead, Loss>
        requires some_room { 0 < room }
        requires room { vec_len out.old + room ≤ vec_capacity out.old }
        requires some { 0 < allow }
        requires may { IsTrue L.tells → MayTalk self.old (L.state link.old) }
        ensures reads { IsTrue L.tells → ForEachTalkOf self.old (L.state link.old)
            (λ place part before used bytes. (added : List ℕ)
            × (out.new.items ≡ out.old.items ++ added)
            × ReadsOrLosesTalk place part before used bytes added room allow result
            self.new (L.state link.new) (L.faults link.new)) }

        // The link is closed once all came, and where the rest is lost.
        ensures closed { IsTrue L.tells → MatchResult result
            (λ read. read.done ≡ true → (L.state link.new).peer ≡ None)
            (λ _. (L.state link.new).peer ≡ None) }

        // Also of a link that tells nothing.
        ensures full { IfOk result (λ read. (read.done ≡ true)
            ⊎ (vec_len out.old + room ≤ vec_len out.new) ⊎ (read.taken ≡ allow)) }
        ensures taken { IfOk result (λ read. read.taken ≡ self.new.taken) }
        ensures may { OnOk result (IsTrue L.tells → MayTalk self.new (L.state link.new)) }
        ensures few { self.new.taken ≤ allow }
        ensures len { vec_len out.new ≤ vec_len out.old + room }
        ensures capacity { vec_capacity out.old ≤ vec_capacity out.new }
        ensures link { IfErr result (CountsLinkLoss (L.faults link.old) (L.faults link.new)) }
        ensures known { IfErr result IsKnown }
        ensures answered { IsTrue L.tells
            → TalkStaysAnswered self.old (L.state link.old) (L.state link.new) }
        ensures later { L.faults link.old ≤ L.faults link.new }
    {
        links_keep_answers();
        self.taken = 0;
        if let Err(loss) = self.take_turns(alloc, link, out, room, allow) {
            link.hang_up();
            return Err(loss);
        }
        if !self.stage.is_over() {
            return Ok(ChainRead {
                taken: self.taken,
                done: false,
            });
        }
        link.hang_up();
        Ok(ChainRead {
            taken: self.taken,
            done: true,
        })
    }

    /// How many bytes came from the link in the last read.
    pub fn taken(&self) -> u32
        ensures { result ≡ self.now.taken }
    {
        self.taken
    }

    /// The buffers, for another talk.
    pub fn into_room(self) -> FtpRoom
        ensures { result ≡ self.room }
    {
        self.room
    }
}
