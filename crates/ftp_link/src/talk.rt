// A talk with an FTP server by which a part of a file comes.
ghost use Rattle.std.specs.Prelude.{◌≡◌, ◌<◌, vec_len};
ghost use Rattle.ftp_link.specs.declared.room.TheConstants.{MAX_REPLY_BYTES};
ghost use Rattle.ftp_link.specs.declared.stage.TalkStage.TheVariants.{Taking};

use crate::dialogue::{hear, open, open_data, say};
use crate::room::{FtpRoom, MAX_REPLY_BYTES};
use crate::stage::TalkStage;
use ftp_fetches::nothing_heard_is_due;
use ftp_places::FtpPlace;
use ftp_steps::{FtpStep, FtpTurn, answers_follow_their_step};
use link_source::{Links, MOST_RECEIVED};
use reply_reader::Loss;
use request_chain::{link_loss, links_keep_answers};
use span_map::JobPart;
use std::alloc::Global;

/// A talk with an FTP server by which a part of a file comes. It begins on a connection of its own.
#[derive(Debug, Drop)]
pub struct FtpTalk {
    pub(crate) part: JobPart,
    pub(crate) place: FtpPlace,
    pub(crate) room: FtpRoom,
    pub(crate) stage: TalkStage,
    /// Where the server awaits the connection for data, once it told that.
    pub(crate) port: u16,
    /// How many bytes of the part came.
    pub(crate) got: u64,
    /// How many bytes came from the link in the last read.
    pub(crate) taken: u32,
    ghost some: { 0 < part.len },
    ghost due: { stage ≡ Taking → got < part.len },
    // A reply that is due is shorter than the longest one.
    ghost spare: { vec_len room.heard < MAX_REPLY_BYTES },
}

impl FtpTalk {
    ghost use Rattle.std.specs.Prelude.{◌≢◌, ◌≤◌, ◌+◌, ◌-◌, ◌*◌, ◌++◌, [], List, ℕ, true, false, Ok, IsTrue, OnOk, IfOk, IfErr, MatchResult, vec_capacity};
    ghost use Rattle.link_source.specs.Exchanges.{Exchange};
    ghost use Rattle.link_source.specs.Link.{LinkState, Dialled};
    ghost use Rattle.reply_reader.specs.Losses.{IsKnown};
    ghost use Rattle.request_chain.specs.Chains.{Gains};
    ghost use Rattle.request_chain.specs.Links.{CountsLinkLoss};
    ghost use Rattle.request_chain.specs.Answered.{KeepsAnswers};
    ghost use Rattle.span_map.specs.Jobs.{IsJobPart};
    ghost use Rattle.ftp_steps.specs.declared.turn.FtpTurn.TheVariants.{Due};
    ghost use Rattle.ftp_steps.specs.declared.step.FtpStep.{FtpStep};
    ghost use Rattle.ftp_fetches.specs.Dialogues.{At, is_greeting, dialogue_behind};
    ghost use Rattle.ftp_link.specs.Heard.{TalksTo};
    ghost use Rattle.ftp_steps.specs.StepFacts.{FollowsStep, has_data};
    ghost use Rattle.ftp_link.specs.Stages.{Leads, steps_before};
    ghost use Rattle.ftp_link.specs.Talks.{IsTalk, MayTalk, HearsTurn, TalksOrLoses, TalkLoses, ForEachTalk, TalkStaysAnswered};
    ghost use Rattle.ftp_link.specs.declared.stage.TalkStage.TheVariants.{Silent, Hearing, Over};

    pub fn new(part: JobPart, place: FtpPlace, room: FtpRoom) -> Self
        requires part { IsJobPart part }
        ensures talk { IsTalk place part [] [] result }
        ensures may { (link : LinkState) → MayTalk result link }
    {
        let mut room = room;
        room.heard.clear();
        FtpTalk {
            part,
            place,
            room,
            stage: TalkStage::Silent,
            port: 0,
            got: 0,
            taken: 0,
        }
    }

    // Dials the server.
    fn greet<L: Links>(&mut self, link: &mut L) -> Result<(), Loss>
        requires silent { self.old.stage ≡ Silent }
        ensures steps { IsTrue L.tells → ForEachTalk self.old (L.state link.old)
            (λ before used bytes. TalksOrLoses before used bytes [] self.old.taken result
            self.new (L.state link.new) (L.faults link.new)) }
        ensures taken { self.new.taken ≡ self.old.taken }
        ensures place { self.new.place ≡ self.old.place }
        ensures part { self.new.part ≡ self.old.part }
        ensures hears { OnOk result (self.new.stage ≡ Hearing FtpStep.Greeting) }
        ensures may { OnOk result (IsTrue L.tells → MayTalk self.new (L.state link.new)) }
        ensures link { IfErr result (CountsLinkLoss (L.faults link.old) (L.faults link.new)) }
        ensures known { IfErr result IsKnown }
        ensures answered { IsTrue L.tells → (before : List Exchange)
            → KeepsAnswers before (L.state link.old) (L.state link.new) }
        ensures later { L.faults link.old ≤ L.faults link.new }
    {
        nothing_heard_is_due();
        open(link, &self.place)?;
        self.room.heard.clear();
        self.stage = TalkStage::Hearing(FtpStep::Greeting);
        Ok(())
    }

    // Sends the command of the step that is next.
    fn say<L: Links>(&mut self, alloc: Global, link: &mut L, step: FtpStep) -> Result<(), Loss>
        requires later { is_greeting step ≡ false }
        requires clear { self.old.room.heard.items ≡ [] }
        requires talks { IsTrue L.tells → TalksTo self.old.place (L.state link.old) }
        requires data_link { IsTrue L.tells → has_data step ≡ true
            → (L.state link.old).data_link ≡ Dialled self.old.port }
        ensures steps { IsTrue L.tells → (before used : List Exchange)
            → Gains before (L.state link.old).exchanges used
            → Leads self.old.place self.old.part used (At step self.old.port)
            → TalksOrLoses before used [] [] self.old.taken result
            self.new (L.state link.new) (L.faults link.new) }
        ensures taken { self.new.taken ≡ self.old.taken }
        ensures place { self.new.place ≡ self.old.place }
        ensures part { self.new.part ≡ self.old.part }
        ensures hears { OnOk result (self.new.stage ≡ Hearing step) }
        ensures may { OnOk result (IsTrue L.tells → MayTalk self.new (L.state link.new)) }
        ensures link { IfErr result (CountsLinkLoss (L.faults link.old) (L.faults link.new)) }
        ensures known { IfErr result IsKnown }
        ensures answered { IsTrue L.tells → (before : List Exchange)
            → KeepsAnswers before (L.state link.old) (L.state link.new) }
        ensures later { L.faults link.old ≤ L.faults link.new }
    {
        nothing_heard_is_due();
        say(alloc, link, step, &self.place, self.part.at)?;
        self.stage = TalkStage::Hearing(step);
        Ok(())
    }

    // Opens the connection for data, and asks for the part.
    fn ask<L: Links>(&mut self, alloc: Global, link: &mut L, port: u16) -> Result<(), Loss>
        requires clear { self.old.room.heard.items ≡ [] }
        requires talks { IsTrue L.tells → TalksTo self.old.place (L.state link.old) }
        ensures steps { IsTrue L.tells → (before used : List Exchange)
            → Gains before (L.state link.old).exchanges used
            → Leads self.old.place self.old.part used
            (dialogue_behind self.old.part self.old.port (FtpTurn.Dials port))
            → TalksOrLoses before used [] [] self.old.taken result
            self.new (L.state link.new) (L.faults link.new) }
        ensures taken { self.new.taken ≡ self.old.taken }
        ensures place { self.new.place ≡ self.old.place }
        ensures part { self.new.part ≡ self.old.part }
        ensures hears { OnOk result (steps_before self.new.stage ≡ 0) }
        ensures may { OnOk result (IsTrue L.tells → MayTalk self.new (L.state link.new)) }
        ensures link { IfErr result (CountsLinkLoss (L.faults link.old) (L.faults link.new)) }
        ensures known { IfErr result IsKnown }
        ensures answered { IsTrue L.tells → (before : List Exchange)
            → KeepsAnswers before (L.state link.old) (L.state link.new) }
        ensures later { L.faults link.old ≤ L.faults link.new }
    {
        open_data(link, port)?;
        self.port = port;
        if self.part.at == 0 {
            self.say(alloc, link, FtpStep::Retrieve)
        } else {
            self.say(alloc, link, FtpStep::Restart)
        }
    }

    // Goes on by what a reply leads to.
    fn go_on<L: Links>(&mut self, alloc: Global, link: &mut L, turn: FtpTurn) -> Result<(), Loss>
        requires told { turn ≢ Due }
        requires clear { self.old.room.heard.items ≡ [] }
        requires follows { (step : FtpStep) × (self.old.stage ≡ Hearing step)
            × FollowsStep step turn }
        requires may { IsTrue L.tells → MayTalk self.old (L.state link.old) }
        ensures steps { IsTrue L.tells → (before used : List Exchange)
            → Gains before (L.state link.old).exchanges used
            → Leads self.old.place self.old.part used
            (dialogue_behind self.old.part self.old.port turn)
            → TalksOrLoses before used [] [] self.old.taken result
            self.new (L.state link.new) (L.faults link.new) }
        ensures taken { self.new.taken ≡ self.old.taken }
        ensures place { self.new.place ≡ self.old.place }
        ensures part { self.new.part ≡ self.old.part }
        ensures hears { OnOk result (steps_before self.new.stage ≡ 0) }
        ensures may { OnOk result (IsTrue L.tells → MayTalk self.new (L.state link.new)) }
        ensures link { IfErr result (CountsLinkLoss (L.faults link.old) (L.faults link.new)) }
        ensures known { IfErr result IsKnown }
        ensures answered { IsTrue L.tells → (before : List Exchange)
            → KeepsAnswers before (L.state link.old) (L.state link.new) }
        ensures later { L.faults link.old ≤ L.faults link.new }
    {
        match turn {
            FtpTurn::Due => unreachable!(),
            FtpTurn::Next(step) => self.say(alloc, link, step),
            FtpTurn::Sized(size) => {
                if size != self.part.total {
                    return Err(Loss::Length {
                        told: size,
                        want: self.part.total,
                    });
                }
                self.say(alloc, link, FtpStep::Passive)
            }
            FtpTurn::Dials(port) => self.ask(alloc, link, port),
            FtpTurn::Opens => {
                self.got = 0;
                self.stage = TalkStage::Taking;
                Ok(())
            }
            FtpTurn::Lost(loss) => Err(loss),
        }
    }

    // Hears more of a reply. What was heard is dropped once it leads on.
    fn hear_turn<L: Links>(
        &mut self,
        link: &mut L,
        step: FtpStep,
        allow: u32,
    ) -> Result<FtpTurn, Loss>
        requires hearing { self.old.stage ≡ Hearing step }
        requires more { self.old.taken < allow }
        requires may { IsTrue L.tells → MayTalk self.old (L.state link.old) }
        ensures hears { IsTrue L.tells → ForEachTalk self.old (L.state link.old)
            (λ before used bytes. MatchResult result
            (λ turn. HearsTurn before used bytes (L.state link.new).exchanges self.old.taken
            self.new turn)
            (TalkLoses before used bytes (L.state link.new).exchanges [] self.old.taken
            (L.faults link.new) self.new)) }
        ensures follows { IfOk result (FollowsStep step) }
        ensures clear { IfOk result (λ turn. turn ≢ Due → self.new.room.heard.items ≡ []) }
        ensures taken { OnOk result (self.old.taken < self.new.taken) }
        ensures few { self.new.taken ≤ allow }
        ensures place { self.new.place ≡ self.old.place }
        ensures part { self.new.part ≡ self.old.part }
        ensures stage { self.new.stage ≡ self.old.stage }
        ensures may { OnOk result (IsTrue L.tells → MayTalk self.new (L.state link.new)) }
        ensures link { IfErr result (CountsLinkLoss (L.faults link.old) (L.faults link.new)) }
        ensures known { IfErr result IsKnown }
        ensures answered { IsTrue L.tells
            → TalkStaysAnswered self.old (L.state link.old) (L.state link.new) }
        ensures later { L.faults link.old ≤ L.faults link.new }
    {
        answers_follow_their_step();
        let left = (allow - self.taken) as usize;
        let most = left.min(MAX_REPLY_BYTES - self.room.heard.len());
        let heard = hear(link, &mut self.room, step, most)?;
        self.taken += heard.count as u32;
        match heard.turn {
            FtpTurn::Due => Ok(FtpTurn::Due),
            turn => {
                self.room.heard.clear();
                Ok(turn)
            }
        }
    }

    // Hears more of a reply, and goes on by it once it is whole.
    fn hear<L: Links>(
        &mut self,
        alloc: Global,
        link: &mut L,
        step: FtpStep,
        allow: u32,
    ) -> Result<(), Loss>
        requires hearing { self.old.stage ≡ Hearing step }
        requires more { self.old.taken < allow }
        requires may { IsTrue L.tells → MayTalk self.old (L.state link.old) }
        ensures steps { IsTrue L.tells → ForEachTalk self.old (L.state link.old)
            (λ before used bytes. TalksOrLoses before used bytes [] self.old.taken result
            self.new (L.state link.new) (L.faults link.new)) }
        ensures hears { OnOk result (steps_before self.new.stage ≡ 0) }
        ensures taken { OnOk result (self.old.taken < self.new.taken) }
        ensures few { self.new.taken ≤ allow }
        ensures place { self.new.place ≡ self.old.place }
        ensures part { self.new.part ≡ self.old.part }
        ensures may { OnOk result (IsTrue L.tells → MayTalk self.new (L.state link.new)) }
        ensures link { IfErr result (CountsLinkLoss (L.faults link.old) (L.faults link.new)) }
        ensures known { IfErr result IsKnown }
        ensures answered { IsTrue L.tells
            → TalkStaysAnswered self.old (L.state link.old) (L.state link.new) }
        ensures later { L.faults link.old ≤ L.faults link.new }
    {
        let turn = self.hear_turn(link, step, allow)?;
        match turn {
            FtpTurn::Due => Ok(()),
            _ => self.go_on(alloc, link, turn),
        }
    }

    // Takes more of the data.
    fn take<L: Links>(
        &mut self,
        link: &mut L,
        out: &mut Vec<u8>,
        room: usize,
        allow: u32,
    ) -> Result<(), Loss>
        requires taking { self.old.stage ≡ Taking }
        requires more { self.old.taken < allow }
        requires some_room { 0 < room }
        requires room { vec_len out.old + room ≤ vec_capacity out.old }
        requires may { IsTrue L.tells → MayTalk self.old (L.state link.old) }
        ensures steps { IsTrue L.tells → ForEachTalk self.old (L.state link.old)
            (λ before used bytes. (added : List ℕ) × (out.new.items ≡ out.old.items ++ added)
            × TalksOrLoses before used bytes added self.old.taken result
            self.new (L.state link.new) (L.faults link.new)) }
        ensures hears { OnOk result (steps_before self.new.stage ≡ 0) }
        ensures taken { OnOk result (self.old.taken < self.new.taken) }
        ensures few { self.new.taken ≤ allow }
        ensures len { vec_len out.new ≤ vec_len out.old + room }
        ensures capacity { vec_capacity out.old ≤ vec_capacity out.new }
        ensures place { self.new.place ≡ self.old.place }
        ensures part { self.new.part ≡ self.old.part }
        ensures may { OnOk result (IsTrue L.tells → MayTalk self.new (L.state link.new)) }
        ensures link { IfErr result (CountsLinkLoss (L.faults link.old) (L.faults link.new)) }
        ensures known { IfErr result IsKnown }
        ensures answered { IsTrue L.tells
            → TalkStaysAnswered self.old (L.state link.old) (L.state link.new) }
        ensures later { L.faults link.old ≤ L.faults link.new }
    {
        links_keep_answers();
        let left = (allow - self.taken) as usize;
        let most = left.min(room).min(MOST_RECEIVED);
        let most = most.min((self.part.len - self.got) as usize);
        match self.room.take(link, out, most) {
            Ok(0) => Err(Loss::Short { got: self.got }),
            Ok(count) => {
                self.taken += count as u32;
                self.got += count as u64;
                if self.got == self.part.len {
                    self.stage = TalkStage::Over;
                }
                Ok(())
            }
            Err(error) => Err(link_loss(link, error)),
        }
    }

    // One step: the server is dialled, or some bytes come.
    pub(crate) fn turn<L: Links>(
        &mut self,
        alloc: Global,
        link: &mut L,
        out: &mut Vec<u8>,
        room: usize,
        allow: u32,
    ) -> Result<(), Loss>
        requires open { self.old.stage ≢ Over }
        requires more { self.old.taken < allow }
        requires some_room { 0 < room }
        requires room { vec_len out.old + room ≤ vec_capacity out.old }
        requires may { IsTrue L.tells → MayTalk self.old (L.state link.old) }
        ensures steps { IsTrue L.tells → ForEachTalk self.old (L.state link.old)
            (λ before used bytes. (added : List ℕ) × (out.new.items ≡ out.old.items ++ added)
            × TalksOrLoses before used bytes added self.old.taken result
            self.new (L.state link.new) (L.faults link.new)) }
        ensures smaller { OnOk result (steps_before self.new.stage + 2 * (allow - self.new.taken)
            < steps_before self.old.stage + 2 * (allow - self.old.taken)) }
        ensures few { self.new.taken ≤ allow }
        ensures len { vec_len out.new ≤ vec_len out.old + room }
        ensures capacity { vec_capacity out.old ≤ vec_capacity out.new }
        ensures place { self.new.place ≡ self.old.place }
        ensures part { self.new.part ≡ self.old.part }
        ensures may { OnOk result (IsTrue L.tells → MayTalk self.new (L.state link.new)) }
        ensures link { IfErr result (CountsLinkLoss (L.faults link.old) (L.faults link.new)) }
        ensures known { IfErr result IsKnown }
        ensures answered { IsTrue L.tells
            → TalkStaysAnswered self.old (L.state link.old) (L.state link.new) }
        ensures later { L.faults link.old ≤ L.faults link.new }
    {
        match self.stage {
            TalkStage::Silent => self.greet(link),
            TalkStage::Hearing(step) => self.hear(alloc, link, step, allow),
            TalkStage::Taking => self.take(link, out, room, allow),
            TalkStage::Over => unreachable!(),
        }
    }
}
