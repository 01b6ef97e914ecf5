// A door, and the connections of its clients.
ghost use Rattle.std.specs.Prelude.{◌≡◌, List};
ghost use Rattle.console_http.specs.Readings.{door_at};
ghost use Rattle.console_http.specs.Visits.{AsksBehind, AsksForEnd, HasKeptOn, HasVisited, Keeps, KeepsDoor, Visit, capped, ends_run, starved_at, starved_by, starved_by_socket, starved_in};

use crate::ends::{ConnectionEnd, DoorEnd};
use crate::intake::Intake;
use crate::talking::serve_connection;
use console_socket::{Session, SocketEnd};
use dl_kinds::IoErr;
use door_source::{Came, Doors, newest_connection_is_one};
use std::alloc::Global;
use std::sync::Wait;

/// How the keeping of a door came out.
#[derive(Clone, Copy, Debug, PartialEq, Eq)]
pub struct DoorKept {
    pub end: DoorEnd,
    /// How many connections want of memory ended, and 1 where the buffers couldn't be made; up to 2^32 - 1.
    pub starved: u32,
}

/// What came of letting a client in.
#[derive(Clone, Copy, Debug, PartialEq, Eq)]
pub(crate) enum Visited {
    NobodyCame,
    Talked(ConnectionEnd),
    Ended(DoorEnd),
}

// Lets the next client in, if one came, and serves its connection.
fn let_in<R: Wait, T, S: Session<T>, A: Doors>(
    rt: &R,
    alloc: Global,
    desk: &mut T,
    session: &mut S,
    door: &mut A,
    intake: &mut Intake,
) -> Visited
    ensures most { intake.new.most ≡ intake.old.most }
    ensures visited { HasVisited S.at S.asks S.steps A.Doors intake.old.most
        (door_at session.old desk.old door.old)
        (door_at session.new desk.new door.new) result }
{
    match door.accept() {
        Ok(Came::Somebody) => {
            Visited::Talked(serve_connection(rt, alloc, desk, session, door, intake))
        }
        Ok(Came::Nobody) => Visited::NobodyCame,
        Ok(Came::Closed) => Visited::Ended(DoorEnd::Closed),
        Err(IoErr::Fault) => Visited::Ended(DoorEnd::Fault {
            count: door.faults(),
        }),
        Err(IoErr::NoMemory) => Visited::NobodyCame,
    }
}

fn starved_by_socket(end: SocketEnd) -> u32
    ensures { result ≡ starved_by_socket end }
{
    match end {
        SocketEnd::Starved => 1,
        SocketEnd::Finished
        | SocketEnd::Closed
        | SocketEnd::Refused
        | SocketEnd::Broken
        | SocketEnd::Failed => 0,
    }
}

fn starved_by(end: ConnectionEnd) -> u32
    ensures { result ≡ starved_by end }
{
    match end {
        ConnectionEnd::Starved => 1,
        ConnectionEnd::Socket(how) => starved_by_socket(how),
        ConnectionEnd::AtItsEnd
        | ConnectionEnd::HungUp
        | ConnectionEnd::RunEnded
        | ConnectionEnd::Failed => 0,
    }
}

// How many connections want of memory ended: none or one.
fn starved_at(visited: Visited) -> u32
    ensures { result ≡ starved_at visited }
{
    match visited {
        Visited::Talked(end) => starved_by(end),
        Visited::NobodyCame => 0,
        Visited::Ended(_) => 0,
    }
}

// How the door ends, if the run is finished.
fn ask<T, S: Session<T>>(desk: &mut T, session: &mut S) -> Option<DoorEnd>
    ensures { AsksForEnd S.at S.asks session.old desk.old session.new desk.new result }
{
    if session.is_finished(desk) {
        Some(DoorEnd::Finished)
    } else {
        None
    }
}

fn ends_run(end: ConnectionEnd) -> bool
    ensures { result ≡ ends_run end }
{
    matches!(end, ConnectionEnd::RunEnded)
}

// Asks whether the run is finished, unless that was found or no client could be let in.
fn ask_behind<T, S: Session<T>>(desk: &mut T, session: &mut S, visited: Visited) -> Option<DoorEnd>
    ensures { AsksBehind S.at S.asks visited session.old desk.old session.new desk.new result }
{
    match visited {
        Visited::NobodyCame => ask(desk, session),
        Visited::Talked(end) => {
            if ends_run(end) {
                Some(DoorEnd::Finished)
            } else {
                ask(desk, session)
            }
        }
        Visited::Ended(end) => Some(end),
    }
}

// Waits for the next client, and asks whether the run is finished. Tells how the door ends, if it does.
fn keep_on<R: Wait, T, S: Session<T>, A: Doors>(
    rt: &R,
    alloc: Global,
    desk: &mut T,
    session: &mut S,
    door: &mut A,
    intake: &mut Intake,
    starved: &mut u32,
) -> Option<DoorEnd>
    ensures most { intake.new.most ≡ intake.old.most }
    ensures kept { HasKeptOn S.at S.asks S.steps A.Doors intake.old.most
        (door_at session.old desk.old door.old) starved.old
        (door_at session.new desk.new door.new) starved.new result }
{
    let visited = let_in(rt, alloc, desk, session, door, intake);
    *starved = starved.saturating_add(starved_at(visited));
    ask_behind(desk, session, visited)
}

// Until the door ends.
fn keep_with<R: Wait, T, S: Session<T>, A: Doors>(
    rt: &R,
    alloc: Global,
    desk: &mut T,
    session: &mut S,
    door: &mut A,
    intake: &mut Intake,
) -> DoorKept
    ensures { (visits : List Visit)
        × Keeps S.at S.asks S.steps A.Doors intake.old.most visits result.end
        (door_at session.old desk.old door.old) (door_at session.new desk.new door.new)
        × (result.starved ≡ capped (starved_in visits)) }
{
    let mut starved = 0;
    for _ in rt.forever() {
        if let Some(end) = keep_on(rt, alloc, desk, session, door, intake, &mut starved) {
            return DoorKept { end, starved };
        }
    }
    unreachable!()
}

/// Serves the connections of a door, one behind another, until no client comes any more, none can be let in, or the run is
/// finished. Whether it is, is asked behind each connection and where nobody came. A connection that a fault or want of
/// memory ends is closed, and the next one is served. The content of a request may take at most `most` bytes.
pub fn keep_door<R: Wait, T, S: Session<T>, A: Doors>(
    rt: &R,
    alloc: Global,
    desk: &mut T,
    session: &mut S,
    door: &mut A,
    most: u32,
) -> DoorKept
    ensures { (visits : List Visit)
        × KeepsDoor S.at S.asks S.steps A.Doors most visits result
        (door_at session.old desk.old door.old) (door_at session.new desk.new door.new) }
{
    newest_connection_is_one();
    let Ok(mut intake) = Intake::new(alloc, most) else {
        return DoorKept {
            end: DoorEnd::NoBuffers,
            starved: 1,
        };
    };
    keep_with(rt, alloc, desk, session, door, &mut intake)
}
