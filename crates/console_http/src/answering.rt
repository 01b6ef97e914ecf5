// The request at the front of what came.
ghost use Rattle.std.specs.Prelude.{◌≡◌, ◌≤◌, ℕ, length, slice_range, true, IsTrue};
ghost use Rattle.request_stream.specs.Next.{IsServedBetween};
ghost use Rattle.request_stream.specs.Requests.{IsOneRequest, turned_away};
ghost use Rattle.request_stream.specs.Responses.{served_response, refusal_response};
ghost use Rattle.rpc_envelope.specs.Answers.{answer_text, read_bytes};
ghost use Rattle.rpc_envelope.specs.Asks.{found_calls};
ghost use Rattle.console_http.specs.Answering.{HasResponded, HasTurnedAway};
ghost use Rattle.console_http.specs.Readings.{console_at, door_at};
ghost use Rattle.console_http.specs.Talks.{HasAdvanced};
ghost use Rattle.console_http.specs.Upgrading.{HasNoUpgrade, is_for_method};

use crate::ends::{ConnectionEnd, end_by_error};
use crate::intake::Intake;
use crate::writing::send_response;
use console_socket::{Session, upgrade_at};
use dl_kinds::IoErr;
use door_source::Doors;
use request_stream::{NextRequest, Refusal, refusal_response, requests_are_one_and_stay};
use rpc_envelope::answer_body;
use std::alloc::Global;

/// What a look at the front came to.
#[derive(Clone, Copy, Debug, PartialEq, Eq)]
pub(crate) enum Advance {
    /// A request was answered, and the connection goes on.
    Answered,
    /// No whole request stands there.
    Waiting,
    /// A request for a WebSocket stands there.
    Upgraded,
    Ended(ConnectionEnd),
}

// Carries out the calls of a body, and sends the response.
fn respond<T, S: Session<T>, A: Doors>(
    alloc: Global,
    desk: &mut T,
    session: &mut S,
    door: &mut A,
    body: &[u8],
) -> Result<(), IoErr>
    requires opened { IsTrue A.tells → (A.state door.old).is_open ≡ true }
    ensures stays_open { IsTrue A.tells → (A.state door.new).is_open ≡ true }
    ensures responded { HasResponded S.at A.Doors (found_calls (read_bytes body.now))
        (λ came. served_response (answer_text (read_bytes body.now) came))
        (door_at session.old desk.old door.old) (door_at session.new desk.new door.new) result }
{
    let answer = answer_body(alloc, desk, session, body)?;
    send_response(alloc, door, &answer)
}

// Serves the request whose content stands between the two places.
fn serve_between<T, S: Session<T>, A: Doors>(
    alloc: Global,
    desk: &mut T,
    session: &mut S,
    door: &mut A,
    intake: &mut Intake,
    from: usize,
    used: usize,
    last: bool,
) -> Advance
    requires between { IsServedBetween intake.old.most intake.old.unread from used last }
    requires plain { HasNoUpgrade intake.old.unread }
    requires opened { IsTrue A.tells → (A.state door.old).is_open ≡ true }
    ensures stays_open { IsTrue A.tells → (A.state door.new).is_open ≡ true }
    ensures most { intake.new.most ≡ intake.old.most }
    ensures advances { HasAdvanced S.at S.asks S.steps A.Doors
        (console_at session.old desk.old door.old intake.old)
        (console_at session.new desk.new door.new intake.new) result }
{
    match respond(alloc, desk, session, door, intake.between(from, used)) {
        Ok(()) => {
            intake.take_off(used);
            if last {
                Advance::Ended(ConnectionEnd::HungUp)
            } else {
                Advance::Answered
            }
        }
        Err(error) => Advance::Ended(end_by_error(error)),
    }
}

// Sends the response to a request that is turned away.
fn turn_away<A: Doors>(door: &mut A, refusal: Refusal) -> ConnectionEnd
    requires opened { IsTrue A.tells → (A.state door.old).is_open ≡ true }
    ensures stays_open { IsTrue A.tells → (A.state door.new).is_open ≡ true }
    ensures turned_away { HasTurnedAway A.Doors (refusal_response refusal)
        door.old door.new result }
{
    match door.send(refusal_response(refusal)) {
        Ok(()) => ConnectionEnd::HungUp,
        Err(error) => end_by_error(error),
    }
}

fn is_for_method(refusal: Refusal) -> bool
    ensures { result ≡ is_for_method refusal }
{
    matches!(refusal, Refusal::MethodNotAllowed)
}

// Turns the request at the front away, unless it asks for a WebSocket.
fn refuse<T, S: Session<T>, A: Doors>(
    alloc: Global,
    desk: &T,
    session: &S,
    door: &mut A,
    intake: &Intake,
    refusal: Refusal,
) -> Advance
    requires away { (used : ℕ)
        × IsOneRequest intake.now.most intake.now.unread (turned_away refusal) used }
    requires opened { IsTrue A.tells → (A.state door.old).is_open ≡ true }
    ensures stays_open { IsTrue A.tells → (A.state door.new).is_open ≡ true }
    ensures advances { HasAdvanced S.at S.asks S.steps A.Doors
        (console_at session.now desk.now door.old intake.now)
        (console_at session.now desk.now door.new intake.now) result }
{
    requests_are_one_and_stay();
    if is_for_method(refusal) {
        return match upgrade_at(alloc, intake.unread()) {
            Ok(Some(_)) => Advance::Upgraded,
            Ok(None) => Advance::Ended(turn_away(door, refusal)),
            Err(_) => Advance::Ended(ConnectionEnd::Starved),
        };
    }
    Advance::Ended(turn_away(door, refusal))
}

/// Answers the request at the front, if a whole one stands there.
pub(crate) fn answer_next<T, S: Session<T>, A: Doors>(
    alloc: Global,
    desk: &mut T,
    session: &mut S,
    door: &mut A,
    intake: &mut Intake,
) -> Advance
    requires opened { IsTrue A.tells → (A.state door.old).is_open ≡ true }
    ensures stays_open { IsTrue A.tells → (A.state door.new).is_open ≡ true }
    ensures most { intake.new.most ≡ intake.old.most }
    ensures advances { HasAdvanced S.at S.asks S.steps A.Doors
        (console_at session.old desk.old door.old intake.old)
        (console_at session.new desk.new door.new intake.new) result }
{
    requests_are_one_and_stay();
    match intake.next(alloc) {
        NextRequest::Served { from, used, last } => {
            serve_between(alloc, desk, session, door, intake, from, used, last)
        }
        NextRequest::TurnedAway(refusal) => { refuse(alloc, desk, session, door, intake, refusal) }
        NextRequest::More => Advance::Waiting,
        NextRequest::NoMemory => Advance::Ended(ConnectionEnd::Starved),
    }
}
