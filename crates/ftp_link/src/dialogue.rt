// The steps of a dialogue over a link.
ghost use Rattle.std.specs.Prelude.{◌≡◌, ◌≤◌, ◌<◌, ◌+◌, ◌∷◌, [], List, ℕ, true, false, IsSome, IsTrue, IfOk, IfErr, OnOk, OnErr, length, vec_len};
ghost use Rattle.dl_kinds.specs.Causes.{HasCause};
ghost use Rattle.link_source.specs.Exchanges.{Exchange};
ghost use Rattle.link_source.specs.Link.{Dialled};
ghost use Rattle.reply_reader.specs.Losses.{IsKnown};
ghost use Rattle.request_chain.specs.Answered.{KeepsAnswers};
ghost use Rattle.request_chain.specs.Links.{CountsLinkLoss};
ghost use Rattle.ftp_places.specs.declared.place.FtpPlace.{FtpPlace};
ghost use Rattle.ftp_steps.specs.Answers.{StepAnswers};
ghost use Rattle.ftp_steps.specs.declared.step.FtpStep.TheVariants.{Greeting};
ghost use Rattle.ftp_fetches.specs.Dialogues.{is_greeting};
ghost use Rattle.ftp_link.specs.Heard.{TalksTo, hearing, FailsBy, HearsOrLoses};
ghost use Rattle.ftp_steps.specs.StepFacts.{FollowsStep, has_data};
ghost use Rattle.ftp_link.specs.declared.room.TheConstants.{MAX_REPLY_BYTES};

use crate::room::FtpRoom;
use ftp_places::FtpPlace;
use ftp_steps::{FtpStep, FtpTurn, answer, answers_follow_their_step, command};
use link_source::Links;
use reply_reader::Loss;
use request_chain::{link_loss, links_keep_answers};
use std::alloc::Global;

/// How many bytes were heard, and what the step leads to by all that was heard of its reply.
#[derive(Clone, Copy, Debug, PartialEq, Eq)]
pub(crate) struct Heard {
    pub count: usize,
    pub turn: FtpTurn,
}

/// Opens a connection to the server of a file, which greets whoever comes.
pub(crate) fn open<L: Links>(link: &mut L, place: &FtpPlace) -> Result<(), Loss>
    ensures begun { OnOk result (IsTrue L.tells → (L.state link.new).exchanges
        ≡ hearing place.now 0 Greeting [] ∷ (L.state link.old).exchanges) }
    ensures talks { OnOk result (IsTrue L.tells → TalksTo place.now (L.state link.new)) }
    ensures none { OnErr result (IsTrue L.tells
        → (L.state link.new).exchanges ≡ (L.state link.old).exchanges) }
    ensures fails { IfErr result (FailsBy (L.faults link.new)) }
    ensures link { IfErr result (CountsLinkLoss (L.faults link.old) (L.faults link.new)) }
    ensures known { IfErr result IsKnown }
    ensures answered { IsTrue L.tells → (before : List Exchange)
        → KeepsAnswers before (L.state link.old) (L.state link.new) }
    ensures later { L.faults link.old ≤ L.faults link.new }
{
    links_keep_answers();
    if let Err(error) = link.dial(place.host.as_str(), place.port) {
        return Err(link_loss(link, error));
    }
    match link.send(b"") {
        Ok(()) => Ok(()),
        Err(error) => Err(link_loss(link, error)),
    }
}

/// Sends the command of a step, of a file that is to come from this place on.
pub(crate) fn say<L: Links>(
    alloc: Global,
    link: &mut L,
    step: FtpStep,
    place: &FtpPlace,
    at: u64,
) -> Result<(), Loss>
    requires later { is_greeting step ≡ false }
    requires talks { IsTrue L.tells → TalksTo place.now (L.state link.old) }
    ensures begun { OnOk result (IsTrue L.tells → (L.state link.new).exchanges
        ≡ hearing place.now at step [] ∷ (L.state link.old).exchanges) }
    ensures talks { OnOk result (IsTrue L.tells → TalksTo place.now (L.state link.new)) }
    ensures data_link { OnOk result (IsTrue L.tells → (port : ℕ)
        → (L.state link.old).data_link ≡ Dialled port
        → (L.state link.new).data_link ≡ Dialled port) }
    ensures none { OnErr result (IsTrue L.tells
        → (L.state link.new).exchanges ≡ (L.state link.old).exchanges) }
    ensures fails { IfErr result (FailsBy (L.faults link.new)) }
    ensures link { IfErr result (CountsLinkLoss (L.faults link.old) (L.faults link.new)) }
    ensures known { IfErr result IsKnown }
    ensures answered { IsTrue L.tells → (before : List Exchange)
        → KeepsAnswers before (L.state link.old) (L.state link.new) }
    ensures later { L.faults link.old ≤ L.faults link.new }
{
    links_keep_answers();
    let Ok(text) = command(alloc, step, place, at) else {
        return Err(Loss::NoMemory);
    };
    match link.send(text.as_bytes()) {
        Ok(()) => Ok(()),
        Err(error) => Err(link_loss(link, error)),
    }
}

/// Opens the connection for data to the port that the server told.
pub(crate) fn open_data<L: Links>(link: &mut L, port: u16) -> Result<(), Loss>
    requires opened { IsTrue L.tells → IsSome (L.state link.old).peer }
    requires listens { IsTrue L.tells → (L.state link.old).listens ≡ true }
    ensures at { IsTrue L.tells → (L.state link.new).peer ≡ (L.state link.old).peer }
    ensures listens { IsTrue L.tells → (L.state link.new).listens ≡ true }
    ensures data_link { OnOk result (IsTrue L.tells
        → (L.state link.new).data_link ≡ Dialled port) }
    ensures none { IsTrue L.tells
        → (L.state link.new).exchanges ≡ (L.state link.old).exchanges }
    ensures fails { IfErr result (FailsBy (L.faults link.new)) }
    ensures link { IfErr result (CountsLinkLoss (L.faults link.old) (L.faults link.new)) }
    ensures known { IfErr result IsKnown }
    ensures answered { IsTrue L.tells → (before : List Exchange)
        → KeepsAnswers before (L.state link.old) (L.state link.new) }
    ensures later { L.faults link.old ≤ L.faults link.new }
{
    links_keep_answers();
    match link.dial_data(port) {
        Ok(()) => Ok(()),
        Err(error) => Err(link_loss(link, error)),
    }
}

/// Hears more of the reply at a step, at most so many bytes.
pub(crate) fn hear<L: Links>(
    link: &mut L,
    room: &mut FtpRoom,
    step: FtpStep,
    most: usize,
) -> Result<Heard, Loss>
    requires some { 0 < most }
    requires few { vec_len room.old.heard + most ≤ MAX_REPLY_BYTES }
    requires listens { IsTrue L.tells → (L.state link.old).listens ≡ true }
    ensures some { IfOk result (λ h. 0 < h.count) }
    ensures most { IfOk result (λ h. h.count ≤ most) }
    ensures len { IfOk result (λ h. vec_len room.new.heard ≡ vec_len room.old.heard + h.count) }
    ensures turn { IfOk result (λ h. StepAnswers step room.new.heard.items false h.turn) }
    ensures follows { IfOk result (λ h. FollowsStep step h.turn) }
    ensures same { OnErr result (room.new.heard.items ≡ room.old.heard.items) }
    ensures hears { IsTrue L.tells → (place : FtpPlace) (at : ℕ) (others : List Exchange)
        → HearsOrLoses place at step others (L.state link.old).exchanges room.old.heard.items
        result (L.state link.new).exchanges room.new.heard.items (L.faults link.new) }
    ensures at { IsTrue L.tells → (L.state link.new).peer ≡ (L.state link.old).peer }
    ensures listens { IsTrue L.tells → (L.state link.new).listens ≡ true }
    ensures data_link { IsTrue L.tells
        → (L.state link.new).data_link ≡ (L.state link.old).data_link }
    ensures answered { IsTrue L.tells
        → (place : FtpPlace) (at : ℕ) (before others : List Exchange)
        → (L.state link.old).exchanges ≡ hearing place at step room.old.heard.items ∷ others
        → length before ≤ length others
        → KeepsAnswers before (L.state link.old) (L.state link.new) }
    ensures link { IfErr result (CountsLinkLoss (L.faults link.old) (L.faults link.new)) }
    ensures known { IfErr result IsKnown }
    ensures later { L.faults link.old ≤ L.faults link.new }
{
    answers_follow_their_step();
    links_keep_answers();
    match room.hear(link, most) {
        Ok(0) => Err(Loss::Short { got: 0 }),
        Ok(count) => Ok(Heard {
            count,
            turn: answer(step, &room.heard, false),
        }),
        Err(error) => Err(link_loss(link, error)),
    }
}
