// The real door: one TCP connection at a time from a listener that the doors of a run share.
ghost use Rattle.door_source.specs.Doors.{no_door};
ghost use Rattle.std.specs.Prelude.{false};

use crate::faults::Faults;
use crate::links::{is_silent, not_connected, read_some, write_whole};
use crate::patience::LOOK_MS;
use dl_kinds::IoErr;
use door_source::{Came, Doors};
use std::io::{ErrorKind, Read, Write};
use std::net::{Net, Shutdown, SocketAddr, TcpListener, TcpStream};
use std::os::fd::OwnedFd;
use std::sync::atomic::{AtomicBool, Ordering};
use std::time::Duration;
use std::{io, thread, time};

// For so long a door waits for a connection before it answers that nobody came.
const ACCEPT_MS: u64 = 100;

// Where the system can't take a connection just now, it is asked again behind such a pause, so often.
const PAUSE_MS: u64 = 5;

const MOST_PAUSES: u32 = 20;

// A connection is looked at for so long before it is told that nothing came.
const READY_MS: u64 = 100;

// A peer whose connection ends is heard for so long, each time, and for so many bytes at once, so often.
const LAST_MS: u64 = 100;

const LAST_BYTES: usize = 4096;

const LAST_READS: u32 = 1024;

/// Listens on an address of this machine, for the doors of a run. Each of them sleeps in the system until somebody comes, but no
/// longer than for 100 milliseconds: for `accept(2)` a socket's limit of receiving counts, too (socket(7)), though std has no name
/// for it at a listener.
pub fn listen_on<R: Net<Stream = TcpStream, Listener = TcpListener>>(
    rt: &R,
    address: SocketAddr,
) -> io::Result<TcpListener> {
    let socket = TcpStream::from(OwnedFd::from(rt.bind(address)?));
    socket.set_read_timeout(Some(Duration::from_millis(ACCEPT_MS)))?;
    Ok(TcpListener::from(OwnedFd::from(socket)))
}

/// Connections of clients over TCP, from a listener that `listen_on` made. Nothing is told of what they bring. Where there is no
/// listener each `accept` fails.
///
/// Nobody comes where no client has connected for 100 milliseconds. A connection that neither gives nor takes a byte for 60 seconds
/// fails. Once the run is over nothing is waited for: what doesn't come at once fails.
#[derive(Drop)]
pub struct TcpDoors<'a, R: Net<Stream = TcpStream, Listener = TcpListener> + time::Clock> {
    rt: &'a R,
    listener: Option<&'a TcpListener>,
    over: &'a AtomicBool,
    stream: Option<TcpStream>,
    faults: Faults,
}

impl<'a, R: Net<Stream = TcpStream, Listener = TcpListener> + time::Clock> TcpDoors<'a, R> {
    /// `over` is set once the run is over.
    pub fn new(rt: &'a R, listener: Option<&'a TcpListener>, over: &'a AtomicBool) -> Self {
        TcpDoors {
            rt,
            listener,
            over,
            stream: None,
            faults: Faults::new(),
        }
    }

    // The next connection, if one comes in time.
    fn wait_for_one(&self) -> io::Result<Option<TcpStream>> {
        let Some(listener) = self.listener else {
            return Err(not_connected());
        };
        for _ in 0..MOST_PAUSES {
            match listener.accept().and_then(|(stream, _)| patient(stream)) {
                Ok(stream) => return Ok(Some(stream)),
                Err(e) if e.kind() == ErrorKind::WouldBlock => return Ok(None),
                Err(e) if is_passing(&e) => {
                    thread::sleep(self.rt, Duration::from_millis(PAUSE_MS));
                }
                Err(e) => return Err(e),
            }
        }
        Ok(None)
    }
}

// The numbers of Linux's errors for want of descriptors (ENFILE, EMFILE), of memory (ENOMEM, ENOBUFS), and of a peer that
// broke the protocol (EPROTO).
const PASSING_ERRORS: [i32; 5] = [23, 24, 12, 105, 71];

// A client that went away before it was taken, want of what the system has to give, or a signal, is no fault of the listener:
// `accept(2)` wants such errors taken as if nobody had come.
fn is_passing(error: &io::Error) -> bool {
    let number = error.raw_os_error();
    PASSING_ERRORS.iter().any(|it| Some(*it) == number)
        || matches!(
            error.kind(),
            ErrorKind::WouldBlock
                | ErrorKind::Interrupted
                | ErrorKind::ConnectionAborted
                | ErrorKind::ConnectionReset
                | ErrorKind::NotConnected
                | ErrorKind::BrokenPipe
                | ErrorKind::InvalidInput
        )
}

// Ends what is sent, and passes over what still comes, for a moment: a connection that is closed while bytes wait in it takes
// from its peer what that was sent (RFC 9112 section 9.6).
fn hear_out(stream: &mut TcpStream, over: &AtomicBool) {
    let moment = Duration::from_millis(LAST_MS);
    if stream.shutdown(Shutdown::Write).is_err() || stream.set_read_timeout(Some(moment)).is_err() {
        return;
    }
    let mut rest = [0; LAST_BYTES];
    for _ in 0..LAST_READS {
        match stream.read(&mut rest) {
            Ok(0) | Err(_) => return,
            Ok(_) if over.load(Ordering::SeqCst) => return,
            Ok(_) => {}
        }
    }
}

// Answers are small, and are to go out at once.
fn patient(stream: TcpStream) -> io::Result<TcpStream> {
    stream.set_nodelay(true)?;
    let look = Some(Duration::from_millis(LOOK_MS));
    stream.set_read_timeout(look)?;
    stream.set_write_timeout(look)?;
    Ok(stream)
}

// Whether something came within a short time. Nothing is received.
fn has_come(stream: &TcpStream) -> io::Result<bool> {
    stream.set_read_timeout(Some(Duration::from_millis(READY_MS)))?;
    let outcome = stream.peek(&mut [0]);
    stream.set_read_timeout(Some(Duration::from_millis(LOOK_MS)))?;
    match outcome {
        Ok(_) => Ok(true),
        Err(e) if is_silent(e.kind()) => Ok(false),
        Err(e) => Err(e),
    }
}

impl<'a, R: Net<Stream = TcpStream, Listener = TcpListener> + time::Clock> Doors
    for TcpDoors<'a, R> {
    ghost tells = { false };

    ghost state = { λ _. no_door };

    ghost faults = { λ door. door.faults.count };

    fn faults(&self) -> u64 {
        self.faults.count
    }

    fn accept(&mut self) -> Result<Came, IoErr> {
        self.stream = None;
        let outcome = self.wait_for_one();
        self.stream = self.faults.note(outcome)?;
        match self.stream {
            Some(_) => Ok(Came::Somebody),
            None => Ok(Came::Nobody),
        }
    }

    fn recv(&mut self, into: &mut [u8]) -> Result<usize, IoErr> {
        let outcome = match &mut self.stream {
            Some(stream) => read_some(self.rt, stream, into, self.over),
            None => Err(not_connected()),
        };
        self.faults.note(outcome)
    }

    // A client that never falls silent would keep a run that is over.
    fn ready(&mut self) -> Result<bool, IoErr> {
        if self.over.load(Ordering::SeqCst) {
            thread::sleep(self.rt, Duration::from_millis(PAUSE_MS));
            return Ok(false);
        }
        let outcome = match &self.stream {
            Some(stream) => has_come(stream),
            None => Err(not_connected()),
        };
        self.faults.note(outcome)
    }

    fn send(&mut self, bytes: &[u8]) -> Result<(), IoErr> {
        let outcome = match &mut self.stream {
            Some(stream) => write_whole(self.rt, stream, bytes, self.over),
            None => Err(not_connected()),
        };
        self.faults.note(outcome)
    }

    fn hang_up(&mut self) {
        if let Some(stream) = &mut self.stream {
            hear_out(stream, self.over);
        }
        self.stream = None;
    }
}
