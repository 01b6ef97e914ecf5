// What is heard and said over a WebSocket.
ghost use Rattle.std.specs.Prelude.{◌≡◌, ◌∷◌, [], IsTrue, None, true, false};
ghost use Rattle.console_socket.specs.Hearing.{HasHeard, HasRead, HasSaid, Hears, HearsOn, SaysBy, came_by_error, came_by_message, heard_at_end, heard_by, heard_going, is_failing};
ghost use Rattle.console_socket.specs.Sending.{RestsAsServer, SaysTexts};

use crate::ends::SocketEnd;
use crate::stream::{Stream, Trouble};
use dl_kinds::{Text, Texts};
use std::alloc::Global;
use tungstenite::{Error, Message, NoMask, Utf8Bytes, WebSocket};

/// What a read gave, whatever became of the stream.
#[derive(Drop)]
enum Came {
    Text(Utf8Bytes),
    Other,
    Quiet,
    Closed,
    Broken,
    Starved,
}

/// What was heard.
#[derive(Drop)]
pub(crate) enum Heard {
    Text(Utf8Bytes),
    /// A message that isn't a text.
    Other,
    /// Nothing for a while.
    Quiet,
    Ended(SocketEnd),
}

fn came_by_message(message: Message) -> Came
    ensures { result ≡ came_by_message message }
{
    match message {
        Message::Text(text) => Came::Text(text),
        Message::Binary(_) | Message::Ping(_) | Message::Pong(_) => Came::Other,
        Message::Close(_) => Came::Closed,
    }
}

fn came_by_error(error: Error) -> Came
    ensures { result ≡ came_by_error error }
{
    match error {
        Error::Io(_) => Came::Quiet,
        Error::OutOfMemory => Came::Starved,
        Error::ConnectionClosed
        | Error::AlreadyClosed
        | Error::Capacity(_)
        | Error::Protocol(_)
        | Error::WriteBufferFull
        | Error::Utf8
        | Error::AttackAttempt
        | Error::Handshake(_)
        | Error::HandshakeIncomplete
        | Error::JunkAfterRequest
        | Error::CustomResponseSuccessful
        | Error::Url
        | Error::Http(_)
        | Error::Refused(_) => Came::Broken,
    }
}

// Reads the next message, behind what waits to be sent. A reply to a ping or a close is sent at once.
fn read<X: Stream + Drop>(socket: &mut WebSocket<X, NoMask>) -> Came
    ensures { HasRead X.remaining X.contents result socket.old socket.new }
{
    if socket.flush().is_err() {
        return Came::Starved;
    }
    match socket.read() {
        Ok(message) => match socket.flush() {
            Ok(()) => came_by_message(message),
            Err(_) => Came::Starved,
        },
        Err(error) => came_by_error(error),
    }
}

// The peer sends no more. A message that was lost at that ends the socket all the same.
fn heard_at_end(came: Came) -> Heard
    ensures { result ≡ heard_at_end came }
{
    match came {
        Came::Text(_) | Came::Other | Came::Quiet | Came::Closed => {
            Heard::Ended(SocketEnd::Closed)
        }
        Came::Broken => Heard::Ended(SocketEnd::Broken),
        Came::Starved => Heard::Ended(SocketEnd::Starved),
    }
}

fn heard_going(came: Came) -> Heard
    ensures { result ≡ heard_going came }
{
    match came {
        Came::Text(text) => Heard::Text(text),
        Came::Other => Heard::Other,
        Came::Quiet => Heard::Quiet,
        Came::Closed => Heard::Ended(SocketEnd::Closed),
        Came::Broken => Heard::Ended(SocketEnd::Broken),
        Came::Starved => Heard::Ended(SocketEnd::Starved),
    }
}

fn judge(came: Came, trouble: Trouble) -> Heard
    ensures { result ≡ heard_by trouble came }
{
    match trouble {
        Trouble::Nothing | Trouble::Quiet => heard_going(came),
        Trouble::Ended => heard_at_end(came),
        Trouble::Failed => Heard::Ended(SocketEnd::Failed),
        Trouble::Starved => Heard::Ended(SocketEnd::Starved),
    }
}

/// The next message.
pub(crate) fn hear<X: Stream + Drop>(socket: &mut WebSocket<X, NoMask>) -> Heard
    requires rests { RestsAsServer socket.old }
    ensures heard { HasHeard result (X.trouble socket.new.stream) }
    ensures by { Hears X.remaining X.contents result (X.trouble socket.new.stream) socket.old
        socket.new }
    ensures goes_on { HearsOn X.tells X.good result (X.trouble socket.new.stream) socket.old
        socket.new }
{
    let came = read(socket);
    judge(came, socket.get_ref().trouble())
}

// Tells whether the text was sent.
fn put<X: Stream + Drop>(alloc: Global, socket: &mut WebSocket<X, NoMask>, text: &Text) -> bool
    requires { RestsAsServer socket.old }
    ensures { IsTrue result → SaysTexts X.tells X.good (text.now ∷ []) socket.old socket.new }
{
    match Message::text(alloc, text.as_str()) {
        Ok(message) => socket.send(message).is_ok(),
        Err(_) => false,
    }
}

// How the socket ends by the trouble of its stream, where that ends it.
fn end_by(sent: bool, trouble: Trouble) -> Option<SocketEnd>
    ensures said { SaysBy result trouble }
    ensures sent { result ≡ None → sent ≡ true }
{
    match trouble {
        Trouble::Failed => Some(SocketEnd::Failed),
        Trouble::Starved => Some(SocketEnd::Starved),
        Trouble::Nothing | Trouble::Quiet | Trouble::Ended => {
            if sent { None } else { Some(SocketEnd::Starved) }
        }
    }
}

fn say_one<X: Stream + Drop>(
    alloc: Global,
    socket: &mut WebSocket<X, NoMask>,
    text: &Text,
) -> Option<SocketEnd>
    requires { RestsAsServer socket.old }
    ensures { HasSaid X.tells X.good (text.now ∷ []) result (X.trouble socket.new.stream) socket.old
        socket.new }
{
    let sent = put(alloc, socket, text);
    end_by(sent, socket.get_ref().trouble())
}

/// Sends the texts, in order, each as one message. Tells how the socket ends, if it does.
pub(crate) fn say<X: Stream + Drop>(
    alloc: Global,
    socket: &mut WebSocket<X, NoMask>,
    texts: &Texts,
) -> Option<SocketEnd>
    requires sound { is_failing (X.trouble socket.old.stream) ≡ false }
    requires rests { RestsAsServer socket.old }
    ensures said { HasSaid X.tells X.good texts.now result (X.trouble socket.new.stream) socket.old
        socket.new }
    ensures none { texts.now ≡ [] → result ≡ None }
{
    for place in 0..texts.len() {
        if let Some(end) = say_one(alloc, socket, texts.at(place)) {
            return Some(end);
        }
    }
    None
}
