// One connection.
ghost use Rattle.std.specs.Prelude.{◌≡◌, ℕ, true, IsTrue, List};
ghost use Rattle.console_socket.specs.Upgrades.{IsUpgradeAt};
ghost use Rattle.request_stream.specs.Next.{IsUnfinishedRequest};
ghost use Rattle.console_http.specs.Conversations.{HasMet, Serves};
ghost use Rattle.console_http.specs.Readings.{console_at, door_at};
ghost use Rattle.console_http.specs.Talks.{AsksIfDue, TalksToEnd, HasTalkedOn, TalkStep};

use crate::answering::{Advance, answer_next};
use crate::ends::ConnectionEnd;
use crate::intake::Intake;
use console_socket::{Session, keep_socket};
use door_source::{Doors, newest_connection_is_one};
use http_heads::ask_heads_are_one_and_stay;
use request_stream::requests_are_one_and_stay;
use std::alloc::Global;
use std::sync::Wait;

// Asks whether the run is finished, where a request was answered since it was last asked.
fn ask_if_due<T, S: Session<T>>(desk: &mut T, session: &mut S, intake: &mut Intake) -> bool
    ensures most { intake.new.most ≡ intake.old.most }
    ensures unread { intake.new.unread ≡ intake.old.unread }
    ensures asks { AsksIfDue S.at S.asks session.old desk.old intake.old
        session.new desk.new intake.new result }
{
    if !intake.is_due() {
        return false;
    }
    intake.settle();
    session.is_finished(desk)
}

// No whole request stands at the front.
fn wait<T, S: Session<T>, A: Doors>(
    desk: &mut T,
    session: &mut S,
    door: &mut A,
    intake: &mut Intake,
) -> Option<ConnectionEnd>
    requires unfinished { IsUnfinishedRequest intake.old.most intake.old.unread }
    requires opened { IsTrue A.tells → (A.state door.old).is_open ≡ true }
    ensures stays_open { IsTrue A.tells → (A.state door.new).is_open ≡ true }
    ensures most { intake.new.most ≡ intake.old.most }
    ensures goes_on { HasTalkedOn S.at S.asks S.steps A.Doors
        (console_at session.old desk.old door.old intake.old)
        (console_at session.new desk.new door.new intake.new) result }
{
    if ask_if_due(desk, session, intake) {
        return Some(ConnectionEnd::RunEnded);
    }
    intake.receive(door)
}

// Keeps the connection as a WebSocket, for which the request at the front asks.
fn upgrade<R: Wait, T, S: Session<T>, A: Doors>(
    rt: &R,
    alloc: Global,
    desk: &mut T,
    session: &mut S,
    door: &mut A,
    intake: &Intake,
) -> ConnectionEnd
    requires asks { (used : ℕ) × IsUpgradeAt intake.now.unread used }
    requires opened { IsTrue A.tells → (A.state door.old).is_open ≡ true }
    ensures stays_open { IsTrue A.tells → (A.state door.new).is_open ≡ true }
    ensures ends { TalksToEnd S.at S.asks S.steps A.Doors result
        (console_at session.old desk.old door.old intake.now)
        (door_at session.new desk.new door.new) }
{
    let end = keep_socket(
        rt,
        alloc,
        desk,
        session,
        door,
        intake.unread(),
        intake.most(),
    );
    ConnectionEnd::Socket(end)
}

// Answers one request, or waits for the next bytes. Tells how the connection ends, if it does.
fn go_on<R: Wait, T, S: Session<T>, A: Doors>(
    rt: &R,
    alloc: Global,
    desk: &mut T,
    session: &mut S,
    door: &mut A,
    intake: &mut Intake,
) -> Option<ConnectionEnd>
    requires opened { IsTrue A.tells → (A.state door.old).is_open ≡ true }
    ensures stays_open { IsTrue A.tells → (A.state door.new).is_open ≡ true }
    ensures most { intake.new.most ≡ intake.old.most }
    ensures goes_on { HasTalkedOn S.at S.asks S.steps A.Doors
        (console_at session.old desk.old door.old intake.old)
        (console_at session.new desk.new door.new intake.new) result }
{
    match answer_next(alloc, desk, session, door, intake) {
        Advance::Answered => None,
        Advance::Waiting => wait(desk, session, door, intake),
        Advance::Upgraded => Some(upgrade(rt, alloc, desk, session, door, intake)),
        Advance::Ended(end) => Some(end),
    }
}

// Goes on until the connection ends.
fn talk<R: Wait, T, S: Session<T>, A: Doors>(
    rt: &R,
    alloc: Global,
    desk: &mut T,
    session: &mut S,
    door: &mut A,
    intake: &mut Intake,
) -> ConnectionEnd
    requires opened { IsTrue A.tells → (A.state door.old).is_open ≡ true }
    ensures most { intake.new.most ≡ intake.old.most }
    ensures ends { TalksToEnd S.at S.asks S.steps A.Doors result
        (console_at session.old desk.old door.old intake.old)
        (door_at session.new desk.new door.new) }
{
    for _ in rt.forever() {
        if let Some(end) = go_on(rt, alloc, desk, session, door, intake) {
            return end;
        }
    }
    unreachable!()
}

/// Serves the newest connection, and closes it. Requests are answered one behind another, also where several came at once.
/// Where some were answered and no whole one is left of what came, it is asked whether the run is finished. One that asks for a
/// WebSocket is not answered here: the connection is kept as one, and its end is that of the connection.
pub fn serve_connection<R: Wait, T, S: Session<T>, A: Doors>(
    rt: &R,
    alloc: Global,
    desk: &mut T,
    session: &mut S,
    door: &mut A,
    intake: &mut Intake,
) -> ConnectionEnd
    requires met { IsTrue A.tells → HasMet (A.state door.old) }
    ensures most { intake.new.most ≡ intake.old.most }
    ensures serves { (steps : List TalkStep)
        × Serves S.at S.asks S.steps A.Doors intake.old.most steps result
        (door_at session.old desk.old door.old) (door_at session.new desk.new door.new) }
{
    requests_are_one_and_stay();
    ask_heads_are_one_and_stay();
    newest_connection_is_one();
    intake.clear();
    let end = talk(rt, alloc, desk, session, door, intake);
    door.hang_up();
    end
}
