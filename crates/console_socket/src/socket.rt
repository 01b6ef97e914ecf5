// A WebSocket, from the request for it to its end.
ghost use Rattle.std.specs.Prelude.{◌≡◌, ℕ, IsTrue, true, false};
ghost use Rattle.console_socket.specs.Keeping.{end_by_error, front_of, HasRefused, HasSwitched, KeepsStream};
ghost use Rattle.console_socket.specs.Places.{door_at};
ghost use Rattle.console_socket.specs.Sockets.{KeepsSocket, SocketTalk};
ghost use Rattle.console_socket.specs.Streams.{IsFurther, last_of};
ghost use Rattle.console_socket.specs.Upgrades.{IsUpgradeAt};

use crate::ends::SocketEnd;
use crate::session::Session;
use crate::stream::{Beginning, DoorStream, Slot};
use crate::talking::converse;
use crate::upgrade::{ReadUpgrade, read_upgrade, switching_text};
use dl_kinds::IoErr;
use door_source::{Doors, newest_connection_is_one};
use request_stream::{Refusal, refusal_response};
use std::alloc::Global;
use std::marker::Brand;
use std::sync::Wait;
use tungstenite::{NoMask, Role, WebSocket, WebSocketConfig};

/// The most bytes that are read at once.
const READ_BYTES: usize = 65_536;

fn end_by_error(error: IoErr) -> SocketEnd
    ensures { result ≡ end_by_error error }
{
    match error {
        IoErr::Fault => SocketEnd::Failed,
        IoErr::NoMemory => SocketEnd::Starved,
    }
}

fn limits(most: u32) -> WebSocketConfig {
    WebSocketConfig::default()
        .read_buffer_size(READ_BYTES)
        .max_message_size(Some(most as usize))
        .max_frame_size(Some(most as usize))
}

// What a socket leaves.
struct Kept<'a, A> {
    slot: Slot<'a, A>,
    end: SocketEnd,
}

// Keeps the socket behind its answer.
fn keep<'a, B: Beginning, R: Wait, T, S: Session<T>, A: Doors>(
    rt: &R,
    alloc: Global,
    desk: &mut T,
    session: &mut S,
    slot: Slot<'a, A>,
    first: &'a [u8],
    most: u32,
) -> Kept<'a, A>
    requires named { slot.door.ghost_name ≡ B.name }
    requires first { first.now ≡ B.first }
    requires told { IsTrue A.tells → IsFurther B.earlier B.newest B.is_closed 0 false
        (A.state slot.door.now) }
    requires faults { A.faults slot.door.now ≡ B.faults }
    ensures same { result.slot.door.ghost_name ≡ slot.entry.door.ghost_name }
    ensures keeps { KeepsStream S.at S.asks S.steps A.tells B.earlier B.newest B.is_closed B.faults
        result.end session.old desk.old session.new desk.new
        (A.state result.slot.door.now) (A.faults result.slot.door.now) }
{
    let stream: DoorStream<'a, B, A> = DoorStream::new(slot, first);
    let limits = Some(limits(most));
    let mut socket = WebSocket::from_raw_socket(alloc, stream, NoMask, Role::Server, limits);
    let end = converse(rt, alloc, desk, session, &mut socket);
    let DoorStream {
        beginning: _,
        door,
        first: _,
        at: _,
        put: _,
        reads: _,
        trouble: _,
    } = socket.into_inner();
    Kept {
        slot: Slot { door },
        end,
    }
}

// Keeps the socket at a door whose newest connection was sent the answer.
fn keep_on<R: Wait, T, S: Session<T>, A: Doors>(
    rt: &R,
    alloc: Global,
    desk: &mut T,
    session: &mut S,
    door: &mut A,
    first: &[u8],
    most: u32,
) -> SocketEnd
    requires { IsTrue A.tells → IsFurther (front_of (A.state door.old).connections)
        (last_of (A.state door.old).connections) (A.state door.old).is_closed 0 false
        (A.state door.old) }
    ensures { KeepsStream S.at S.asks S.steps A.tells (front_of (A.state door.old).connections)
        (last_of (A.state door.old).connections) (A.state door.old).is_closed (A.faults door.old)
        result session.old desk.old session.new desk.new (A.state door.new) (A.faults door.new) }
{
    let Kept { slot: _, end } = keep::<Brand, R, T, S, A>(
        rt,
        alloc,
        desk,
        session,
        Slot { door },
        first,
        most,
    );
    end
}

// Answers a request that is right, and keeps the socket.
fn switch<R: Wait, T, S: Session<T>, A: Doors>(
    rt: &R,
    alloc: Global,
    desk: &mut T,
    session: &mut S,
    door: &mut A,
    accept: &[u8; 28],
    first: &[u8],
    most: u32,
) -> SocketEnd
    requires opened { IsTrue A.tells → (A.state door.old).is_open ≡ true }
    ensures stays_open { IsTrue A.tells → (A.state door.new).is_open ≡ true }
    ensures switched { HasSwitched S.at S.asks S.steps A.Doors accept.now result
        (door_at session.old desk.old door.old) (door_at session.new desk.new door.new) }
{
    newest_connection_is_one();
    let Ok(text) = switching_text(alloc, accept) else {
        return SocketEnd::Starved;
    };
    if let Err(error) = door.send(&text) {
        return end_by_error(error);
    }
    keep_on(rt, alloc, desk, session, door, first, most)
}

fn refuse<A: Doors>(door: &mut A) -> SocketEnd
    requires opened { IsTrue A.tells → (A.state door.old).is_open ≡ true }
    ensures stays_open { IsTrue A.tells → (A.state door.new).is_open ≡ true }
    ensures refused { HasRefused A.Doors result door.old door.new }
{
    match door.send(refusal_response(Refusal::BadRequest)) {
        Ok(()) => SocketEnd::Refused,
        Err(error) => end_by_error(error),
    }
}

/// Keeps the newest connection as a WebSocket, whose request stands at the front of the bytes that came. The session takes a
/// step for each text message, one where nothing came for a while, and one at first. All of their texts are sent. A text
/// message of more than `most` bytes ends the socket.
pub fn keep_socket<R: Wait, T, S: Session<T>, A: Doors>(
    rt: &R,
    alloc: Global,
    desk: &mut T,
    session: &mut S,
    door: &mut A,
    bytes: &[u8],
    most: u32,
) -> SocketEnd
    requires opened { IsTrue A.tells → (A.state door.old).is_open ≡ true }
    requires upgrade { (used : ℕ) × IsUpgradeAt bytes.now used }
    ensures stays_open { IsTrue A.tells → (A.state door.new).is_open ≡ true }
    ensures kept { (talk : SocketTalk)
        × KeepsSocket S.at S.asks S.steps A.Doors most bytes.now talk result
        (door_at session.old desk.old door.old) (door_at session.new desk.new door.new) }
{
    match read_upgrade(alloc, bytes) {
        ReadUpgrade::Right { used, accept } => {
            let first = &bytes[used as usize..];
            switch(rt, alloc, desk, session, door, &accept, first, most)
        }
        ReadUpgrade::Wrong => refuse(door),
        ReadUpgrade::NoMemory => SocketEnd::Starved,
    }
}
