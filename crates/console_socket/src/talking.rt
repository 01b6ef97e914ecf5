// The steps of a session over a WebSocket.
ghost use Rattle.std.specs.Prelude.{◌≡◌, false};
ghost use Rattle.console_socket.specs.Hearing.{is_failing};
ghost use Rattle.console_socket.specs.Sending.{RestsAsServer};
ghost use Rattle.console_socket.specs.Talking.{Converses, HasRounded, HasTold, socket_at};

use crate::ends::SocketEnd;
use crate::hearing::{Heard, hear, say};
use crate::session::{Inward, Session};
use crate::stream::Stream;
use dl_kinds::NoMemory;
use std::alloc::Global;
use std::sync::Wait;
use tungstenite::{NoMask, WebSocket};

/// So many messages follow one another before it is looked whether the run is finished and notices are due: a client that
/// sends without end is to hold nobody.
const MOST_MESSAGES: u32 = 64;

/// So often it is looked again at once, where notices were sent.
const MOST_LOOKS: u32 = 16;

/// What a step came to.
#[derive(Clone, Copy)]
pub(crate) enum Told {
    /// All of its texts were sent: some, or none.
    Sent { some: bool },
    Ended(SocketEnd),
}

/// How many messages came since it was looked, and how often it was looked at once.
#[derive(Clone, Copy)]
struct Pace {
    messages: u32,
    looks: u32,
}

impl Pace {
    fn is_due(&self) -> bool {
        self.messages >= MOST_MESSAGES
    }

    fn heard(&mut self) {
        self.messages = self.messages.saturating_add(1);
    }

    // It was looked, and some notices were sent, or none.
    fn looked(&mut self, some: bool) {
        if some && self.looks < MOST_LOOKS {
            self.looks += 1;
            self.messages = MOST_MESSAGES;
        } else {
            self.looks = 0;
            self.messages = 0;
        }
    }
}

// Takes a step, and sends its texts.
fn tell<T, S: Session<T>, X: Stream + Drop>(
    alloc: Global,
    desk: &mut T,
    session: &mut S,
    socket: &mut WebSocket<X, NoMask>,
    inward: &Inward<'_>,
) -> Told
    requires sound { is_failing (X.trouble socket.old.stream) ≡ false }
    requires rests { RestsAsServer socket.old }
    ensures { HasTold S.at S.steps X.tells X.good inward.now result (X.trouble socket.new.stream)
        (socket_at session.old desk.old socket.old) (socket_at session.new desk.new socket.new) }
{
    match session.step(alloc, desk, inward) {
        Ok(texts) => match say(alloc, socket, &texts) {
            Some(end) => Told::Ended(end),
            None => Told::Sent {
                some: !texts.is_empty(),
            },
        },
        Err(NoMemory) => Told::Ended(SocketEnd::Starved),
    }
}

// Asks whether the run is finished, and tells the notices that are due.
fn look_up<T, S: Session<T>, X: Stream + Drop>(
    alloc: Global,
    desk: &mut T,
    session: &mut S,
    socket: &mut WebSocket<X, NoMask>,
    pace: &mut Pace,
) -> Option<SocketEnd>
    requires sound { is_failing (X.trouble socket.old.stream) ≡ false }
    requires rests { RestsAsServer socket.old }
    ensures { HasRounded S.at S.asks S.steps X.tells X.good result (X.trouble socket.new.stream)
        (socket_at session.old desk.old socket.old) (socket_at session.new desk.new socket.new) }
{
    let finished = session.is_finished(desk);
    match tell(alloc, desk, session, socket, &Inward::Tick) {
        Told::Sent { some } => {
            pace.looked(some);
            if finished && !some {
                Some(SocketEnd::Finished)
            } else {
                None
            }
        }
        Told::Ended(end) => Some(end),
    }
}

fn answer<T, S: Session<T>, X: Stream + Drop>(
    alloc: Global,
    desk: &mut T,
    session: &mut S,
    socket: &mut WebSocket<X, NoMask>,
    text: &str,
) -> Option<SocketEnd>
    requires sound { is_failing (X.trouble socket.old.stream) ≡ false }
    requires rests { RestsAsServer socket.old }
    ensures { HasRounded S.at S.asks S.steps X.tells X.good result (X.trouble socket.new.stream)
        (socket_at session.old desk.old socket.old) (socket_at session.new desk.new socket.new) }
{
    match tell(alloc, desk, session, socket, &Inward::Text(text)) {
        Told::Sent { some: _ } => None,
        Told::Ended(end) => Some(end),
    }
}

// Answers the next message, or looks up where none comes, or many came.
fn go_on<T, S: Session<T>, X: Stream + Drop>(
    alloc: Global,
    desk: &mut T,
    session: &mut S,
    socket: &mut WebSocket<X, NoMask>,
    pace: &mut Pace,
) -> Option<SocketEnd>
    requires sound { is_failing (X.trouble socket.old.stream) ≡ false }
    requires rests { RestsAsServer socket.old }
    ensures { HasRounded S.at S.asks S.steps X.tells X.good result (X.trouble socket.new.stream)
        (socket_at session.old desk.old socket.old) (socket_at session.new desk.new socket.new) }
{
    if pace.is_due() {
        return look_up(alloc, desk, session, socket, pace);
    }
    match hear(socket) {
        Heard::Text(text) => {
            pace.heard();
            answer(alloc, desk, session, socket, text.as_str())
        }
        Heard::Other => {
            pace.heard();
            None
        }
        Heard::Quiet => look_up(alloc, desk, session, socket, pace),
        Heard::Ended(end) => Some(end),
    }
}

/// Goes on until the socket ends.
pub(crate) fn converse<R: Wait, T, S: Session<T>, X: Stream + Drop>(
    rt: &R,
    alloc: Global,
    desk: &mut T,
    session: &mut S,
    socket: &mut WebSocket<X, NoMask>,
) -> SocketEnd
    requires sound { is_failing (X.trouble socket.old.stream) ≡ false }
    requires rests { RestsAsServer socket.old }
    ensures { Converses S.at S.asks S.steps X.tells X.good result (X.trouble socket.new.stream)
        (socket_at session.old desk.old socket.old) (socket_at session.new desk.new socket.new) }
{
    if let Told::Ended(end) = tell(alloc, desk, session, socket, &Inward::Join) {
        return end;
    }
    let mut pace = Pace {
        messages: 0,
        looks: 0,
    };
    for _ in rt.forever() {
        if let Some(end) = go_on(alloc, desk, session, socket, &mut pace) {
            return end;
        }
    }
    unreachable!()
}
