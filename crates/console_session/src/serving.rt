// A door of the console, served at the desk of a run.
ghost use Rattle.std.specs.Prelude.{◌≡◌, option_map};
ghost use Rattle.console_http.specs.Readings.{door_at};
ghost use Rattle.console_session.specs.DoorSessions.{ReadsMoments, ServesDoor};
ghost use Rattle.console_session.specs.Sessions.{Attends, session_at};

use crate::attendant::Attendant;
use crate::session::ConsoleSession;
use console_http::{DoorEnd, DoorKept, keep_door};
use dl_clock::Clock;
use dl_disk::Disk;
use door_source::Doors;
use engine_core::Engine;
use engine_turns::Operation;
use std::alloc::Global;
use std::marker::PhantomData;
use std::sync::Wait;
use turn_desk::{Desk, turns_add_up};

/// What the session of a door leaves.
#[derive(Debug, Drop)]
pub struct Transcript {
    /// The number under which it made its calls.
    pub session: u32,
    /// Where the events of its calls stand in the history, in order.
    pub places: Vec<u32>,
    /// How often memory was wanting, up to 2^32 - 1: the connections that this ended, the calls that left out saves, and
    /// 1 where the buffers couldn't be made.
    pub starved: u32,
    /// Why the door is served no more.
    pub end: DoorEnd,
}

// A session behind the last visit of its door.
struct Attended<'a, K> {
    session: ConsoleSession<'a, K>,
    kept: DoorKept,
}

// Carries out the calls of the door's clients, until the door ends.
fn attend<'a, R: Wait, D: Disk, T: Desk<Engine<D>>, A: Doors, K: Clock>(
    rt: &R,
    alloc: Global,
    desk: &mut T,
    session: ConsoleSession<'a, K>,
    most: u32,
    door: &mut A,
) -> Attended<'a, K>
    ensures { Attends T.sight T.desk_id K.reads A.Doors most result.kept
        (door_at session.entry desk.old door.old)
        (door_at result.session desk.new door.new) }
{
    turns_add_up::<Engine<D>>();
    let mut attendant = Attendant::<D, T, K> {
        desks: PhantomData,
        session,
    };
    let kept = keep_door(rt, alloc, desk, &mut attendant, door, most);
    let Attendant { desks: _, session } = attendant;
    Attended { session, kept }
}

/// Serves the clients of a door at the desk of a run, under this number of a session, until no client comes any more, none
/// can be let in, or the run is finished; not at all where the buffers can't be made. Then the door leaves, in a last turn.
/// Each call is to tell the secret, where there is one, and takes one turn, at the moment that the clock then tells. One for
/// which memory is wanting ends its connection. The content of a request may take at most `most` bytes.
pub fn serve_door<R: Wait, D: Disk, T: Desk<Engine<D>>, A: Doors, K: Clock>(
    rt: &R,
    alloc: Global,
    desk: &mut T,
    session: u32,
    secret: Option<&str>,
    most: u32,
    door: &mut A,
    clock: &mut K,
) -> Transcript
    ensures served { ServesDoor A.Doors session (option_map (λ s. s.now) secret.entry) most
        (T.sight desk.old) door.old (T.sight desk.new) door.new result }
    ensures moments { ReadsMoments K.reads clock.old (T.sight desk.old) (T.sight desk.new) }
    ensures desk_id { T.desk_id desk.new ≡ T.desk_id desk.old }
{
    turns_add_up::<Engine<D>>();
    let console = ConsoleSession {
        number: session,
        secret,
        clock,
        places: Vec::new(alloc),
        starved: 0,
        cursor: None,
    };
    let Attended {
        session: console,
        kept,
    } = attend::<R, D, T, A, K>(rt, alloc, desk, console, most, door);
    desk.turn(Operation::Leave);
    let ConsoleSession {
        number,
        secret: _,
        clock: _,
        places,
        starved,
        cursor: _,
    } = console;
    Transcript {
        session: number,
        places,
        starved: kept.starved.saturating_add(starved),
        end: kept.end,
    }
}
