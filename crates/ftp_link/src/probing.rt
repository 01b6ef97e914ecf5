// How long a file is.
ghost use Rattle.std.specs.Prelude.{◌≡◌, ◌≢◌, ◌≤◌, ◌∷◌, [], List, ℕ, true, false, None, Ok, IsTrue, OnOk, IfOk, IfErr, MatchResult, length, vec_len};
ghost use Rattle.link_source.specs.Exchanges.{Exchange};
ghost use Rattle.reply_reader.specs.Losses.{IsKnown};
ghost use Rattle.request_chain.specs.Answered.{KeepsAnswers};
ghost use Rattle.request_chain.specs.Links.{CountsLinkLoss};
ghost use Rattle.ftp_places.specs.declared.place.FtpPlace.{FtpPlace};
ghost use Rattle.ftp_steps.specs.Answers.{StepAnswers};
ghost use Rattle.ftp_steps.specs.declared.turn.FtpTurn.TheVariants.{Due};
ghost use Rattle.ftp_fetches.specs.Dialogues.{is_greeting};
ghost use Rattle.ftp_link.specs.Heard.{TalksTo, hearing, HearingLost};
ghost use Rattle.ftp_link.specs.Probing.{HearsReply, ProbesSize};
ghost use Rattle.ftp_steps.specs.StepFacts.{FollowsStep};
ghost use Rattle.ftp_link.specs.declared.room.TheConstants.{MAX_REPLY_BYTES};

use crate::dialogue::{hear, open, say};
use crate::room::{FtpRoom, MAX_REPLY_BYTES};
use ftp_fetches::nothing_heard_is_due;
use ftp_places::FtpPlace;
use ftp_steps::{FtpStep, FtpTurn, answers_follow_their_step};
use link_source::Links;
use reply_reader::Loss;
use request_chain::links_keep_answers;
use std::alloc::Global;

// Hears the whole reply at a step, and gives what it leads to.
fn hear_reply<L: Links>(link: &mut L, room: &mut FtpRoom, step: FtpStep) -> Result<FtpTurn, Loss>
    requires clear { room.old.heard.items ≡ [] }
    requires listens { IsTrue L.tells → (L.state link.old).listens ≡ true }
    ensures told { IfOk result (λ turn. turn ≢ Due) }
    ensures follows { IfOk result (FollowsStep step) }
    ensures hears { IsTrue L.tells → (place : FtpPlace) (others : List Exchange)
        → (L.state link.old).exchanges ≡ hearing place 0 step [] ∷ others
        → HearsReply place step others (L.state link.new).exchanges (L.faults link.new) result }
    ensures at { IsTrue L.tells → (L.state link.new).peer ≡ (L.state link.old).peer }
    ensures listens { IsTrue L.tells → (L.state link.new).listens ≡ true }
    ensures answered { IsTrue L.tells
        → (place : FtpPlace) (before others : List Exchange)
        → (L.state link.old).exchanges ≡ hearing place 0 step [] ∷ others
        → length before ≤ length others
        → KeepsAnswers before (L.state link.old) (L.state link.new) }
    ensures link { IfErr result (CountsLinkLoss (L.faults link.old) (L.faults link.new)) }
    ensures known { IfErr result IsKnown }
    ensures later { L.faults link.old ≤ L.faults link.new }
{
    nothing_heard_is_due();
    answers_follow_their_step();
    'pieces: loop {
        let most = MAX_REPLY_BYTES - room.heard.len();
        let heard = hear(link, room, step, most)?;
        match heard.turn {
            FtpTurn::Due => {}
            turn => return Ok(turn),
        }
    }
}

// Asks for the length, over a connection that stays open.
fn ask_size<L: Links>(
    alloc: Global,
    link: &mut L,
    place: &FtpPlace,
    room: &mut FtpRoom,
) -> Result<u64, Loss>
    ensures probes { IsTrue L.tells → ProbesSize place.now (L.state link.old).exchanges
        (L.state link.new).exchanges (L.faults link.new) result }
    ensures answered { IsTrue L.tells → (before : List Exchange)
        → KeepsAnswers before (L.state link.old) (L.state link.new) }
    ensures link { IfErr result (CountsLinkLoss (L.faults link.old) (L.faults link.new)) }
    ensures known { IfErr result IsKnown }
    ensures later { L.faults link.old ≤ L.faults link.new }
{
    links_keep_answers();
    room.heard.clear();
    open(link, place)?;
    let mut step = FtpStep::Greeting;
    'steps: loop {
        let turn = hear_reply(link, room, step)?;
        match turn {
            FtpTurn::Next(next) => {
                room.heard.clear();
                say(alloc, link, next, place, 0)?;
                step = next;
            }
            FtpTurn::Sized(size) => return Ok(size),
            FtpTurn::Lost(loss) => return Err(loss),
            FtpTurn::Due => unreachable!(),
            FtpTurn::Dials(_) => return Err(Loss::BadReply),
            FtpTurn::Opens => return Err(Loss::BadReply),
        }
    }
}

/// The length of a file, by a dialogue that goes up to the question for it. The link is hung up behind it.
pub fn probe<L: Links>(
    alloc: Global,
    link: &mut L,
    place: &FtpPlace,
    room: &mut FtpRoom,
) -> Result<u64, Loss>
    ensures probes { IsTrue L.tells → ProbesSize place.now (L.state link.old).exchanges
        (L.state link.new).exchanges (L.faults link.new) result }
    ensures answered { IsTrue L.tells → (before : List Exchange)
        → KeepsAnswers before (L.state link.old) (L.state link.new) }
    ensures link { IfErr result (CountsLinkLoss (L.faults link.old) (L.faults link.new)) }
    ensures known { IfErr result IsKnown }
    ensures closed { IsTrue L.tells → (L.state link.new).peer ≡ None }
    ensures later { L.faults link.old ≤ L.faults link.new }
{
    links_keep_answers();
    let told = ask_size(alloc, link, place, room);
    link.hang_up();
    told
}
