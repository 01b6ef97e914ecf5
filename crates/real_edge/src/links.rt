// The real link: one TCP connection at a time, and one for data beside it.
ghost use Rattle.std.specs.Prelude.{◌≡◌, ◌≤◌, false, length, IfOk};
ghost use Rattle.link_source.specs.Link.{no_link};

use crate::faults::{NotedFaults, told};
use crate::patience::{LOOK_MS, MOST_LOOKS, Patience};
use crate::rests::Rests;
use dl_kinds::IoErr;
use fault_notes::{Noted, Notes, Why};
use link_source::Links;
use std::io;
use std::io::{ErrorKind, Read, Write};
use std::net::{Net, SocketAddr, TcpStream, ToSocketAddrs};
use std::sync::atomic::{AtomicBool, Ordering};
use std::time::{Clock, Duration};

// A connection is opened in spans of this length, behind each of which it is seen whether the run is over.
const CONNECT_SPAN_MS: u64 = 1_500;

// So often the addresses are tried at most.
const MOST_CONNECTS: usize = 1_000;

/// Connections over TCP. Nothing is told of what they give.
///
/// The addresses of a host are tried for 60 seconds, all together, and a connection that neither gives nor takes a byte for 60
/// seconds fails. A mirror that gives one byte in each such span is waited for until the reply is whole. Once the run is over
/// nothing more is received, and what can't be sent or opened within two seconds fails. How long the system looks for a host's
/// addresses is its own business. A host whose first reply over a connection was 503 isn't dialled again at once, but behind a rest
/// of 20 milliseconds, which gets twice as long each time, up to 640. A connection for data leads to the address to which the
/// other one does: a host that is looked up again may name another machine.
#[derive(Drop)]
pub struct TcpLinks<'a, R: Net<Stream = TcpStream> + Clock + AllocGlobal> {
    rt: &'a R,
    over: &'a AtomicBool,
    stream: Option<TcpStream>,
    data: Option<TcpStream>,
    // Whether something was received over the connection for data.
    has_given: bool,
    rests: Rests,
    faults: NotedFaults,
}

impl<'a, R: Net<Stream = TcpStream> + Clock + AllocGlobal> TcpLinks<'a, R> {
    /// `over` is set once the run is over.
    pub fn new(rt: &'a R, over: &'a AtomicBool) -> Self {
        TcpLinks {
            rt,
            over,
            stream: None,
            data: None,
            has_given: false,
            rests: Rests::new(rt.alloc()),
            faults: NotedFaults::new(rt.alloc()),
        }
    }

    fn patience(&self) -> Patience<'a, R> {
        Patience::begin(self.rt, self.over)
    }

    // The first of the addresses that answers. They are tried in turn, in short spans, and have one patience together; where
    // all refuse at once there is nothing to wait for.
    fn first_answer(&self, addresses: &[SocketAddr]) -> Result<TcpStream, Why> {
        let span = Duration::from_millis(CONNECT_SPAN_MS);
        let patience = self.patience();
        let mut last = Why::UnknownHost;
        let mut any_silent = false;
        for turn in 0..MOST_CONNECTS {
            let Some(left) = patience.left(turn as u64) else {
                break;
            };
            if addresses.is_empty() || turn >= addresses.len() && !any_silent {
                break;
            }
            match TcpStream::connect_timeout(
                self.rt,
                &addresses[turn % addresses.len()],
                span.min(left),
            ) {
                Ok(stream) => return Ok(stream),
                Err(e) => {
                    any_silent = any_silent || e.kind() == ErrorKind::TimedOut;
                    last = Why::of(&e);
                }
            }
        }
        Err(last)
    }

    fn addresses(&self, host: &str, port: u16) -> Result<Vec<SocketAddr>, Why> {
        let Ok(found) = (without_brackets(host), port).to_socket_addrs(self.rt) else {
            return Err(Why::UnknownHost);
        };
        let mut addresses = Vec::new(self.rt.alloc());
        for address in found {
            told(addresses.push(address).map_err(io::Error::from))?;
        }
        Ok(addresses)
    }

    fn connect(&self, host: &str, port: u16) -> Result<TcpStream, Why> {
        let addresses = self.addresses(host, port)?;
        told(patient(self.first_answer(&addresses)?))
    }

    fn connect_data(&self, port: u16) -> Result<TcpStream, Why> {
        let mut address = match &self.stream {
            Some(stream) => told(stream.peer_addr())?,
            None => return told(Err(not_connected())),
        };
        address.set_port(port);
        told(patient(self.first_answer(&[address])?))
    }

    fn close_data(&mut self)
        ensures { self.new.faults ≡ self.old.faults }
    {
        self.data = None;
        self.has_given = false;
    }
}

// It is waited for in short spans.
fn patient(stream: TcpStream) -> io::Result<TcpStream> {
    let look = Some(Duration::from_millis(LOOK_MS));
    stream.set_read_timeout(look)?;
    stream.set_write_timeout(look)?;
    Ok(stream)
}

impl<'a, R: Net<Stream = TcpStream> + Clock + AllocGlobal> Noted for TcpLinks<'a, R> {
    fn notes(&self) -> &Notes {
        &self.faults.notes
    }
}

impl<'a, R: Net<Stream = TcpStream> + Clock + AllocGlobal> Links for TcpLinks<'a, R> {
    ghost tells = { false };

    ghost state = { λ _. no_link };

    ghost faults = { λ link. link.faults.faults.count };

    fn faults(&self) -> u64 {
        self.faults.faults.count
    }

    fn dial(&mut self, host: &str, port: u16) -> Result<(), IoErr> {
        self.hang_up();
        self.rests.rest(self.rt, self.over, host, port);
        let outcome = self.connect(host, port);
        self.stream = Some(self.faults.note(host, outcome)?);
        self.rests.dialled(host, port);
        Ok(())
    }

    fn send(&mut self, bytes: &[u8]) -> Result<(), IoErr> {
        if self.has_given {
            self.close_data();
        }
        let outcome = match &mut self.stream {
            Some(stream) => write_whole(self.rt, stream, bytes, self.over),
            None => Err(not_connected()),
        };
        self.faults.note("", told(outcome))
    }

    // A mirror that never falls silent would keep a run that is over.
    fn recv(&mut self, into: &mut [u8]) -> Result<usize, IoErr> {
        let outcome = match &mut self.stream {
            _ if self.over.load(Ordering::SeqCst) => Err(io::Error::from(ErrorKind::TimedOut)),
            Some(stream) => read_some(self.rt, stream, into, self.over),
            None => Err(not_connected()),
        };
        if let Ok(count) = &outcome {
            self.rests.received(&into[..*count]);
        }
        self.faults.note("", told(outcome))
    }

    fn dial_data(&mut self, port: u16) -> Result<(), IoErr> {
        self.close_data();
        let outcome = self.connect_data(port);
        self.data = Some(self.faults.note("", outcome)?);
        Ok(())
    }

    fn recv_data(&mut self, into: &mut [u8]) -> Result<usize, IoErr> {
        let outcome = match &mut self.data {
            _ if self.over.load(Ordering::SeqCst) => Err(io::Error::from(ErrorKind::TimedOut)),
            Some(data) => read_some(self.rt, data, into, self.over),
            None => Err(not_connected()),
        };
        self.has_given = self.has_given || outcome.is_ok();
        self.faults.note("", told(outcome))
    }

    fn hang_up(&mut self) {
        self.stream = None;
        self.close_data();
    }
}

/// Reads what comes next. It is waited for in short spans, as long as patience lasts and the run isn't over.
pub(crate) fn read_some<R: Clock>(
    rt: &R,
    stream: &mut TcpStream,
    into: &mut [u8],
    over: &AtomicBool,
) -> io::Result<usize>
    ensures { IfOk result (λ count. count ≤ length into.new) }
{
    let patience = Patience::begin(rt, over);
    for looks in 1..MOST_LOOKS {
        match stream.read(into) {
            Err(e) if is_silent(e.kind()) => {}
            outcome => return outcome,
        }
        if patience.left(looks).is_none() {
            break;
        }
    }
    Err(io::Error::from(ErrorKind::TimedOut))
}

// Sends what can be sent next. It is waited for in short spans, as long as patience lasts and the run isn't over.
fn write_some<R: Clock>(
    rt: &R,
    stream: &mut TcpStream,
    bytes: &[u8],
    over: &AtomicBool,
) -> io::Result<usize>
    ensures { IfOk result (λ count. count ≤ length bytes.now) }
{
    let patience = Patience::begin(rt, over);
    for looks in 1..MOST_LOOKS {
        match stream.write(bytes) {
            Err(e) if is_silent(e.kind()) => {}
            outcome => return outcome,
        }
        if patience.left(looks).is_none() {
            break;
        }
    }
    Err(io::Error::from(ErrorKind::TimedOut))
}

/// Sends all of the bytes.
pub(crate) fn write_whole<R: Clock>(
    rt: &R,
    stream: &mut TcpStream,
    bytes: &[u8],
    over: &AtomicBool,
) -> io::Result<()> {
    let mut rest = bytes;
    while !rest.is_empty() {
        let count = write_some(rt, stream, rest, over)?;
        if count == 0 {
            return Err(io::Error::from(ErrorKind::WriteZero));
        }
        rest = &rest[count..];
    }
    Ok(())
}

// Nothing came in the span, or a signal broke it off.
pub(crate) fn is_silent(kind: ErrorKind) -> bool {
    matches!(
        kind,
        ErrorKind::WouldBlock | ErrorKind::TimedOut | ErrorKind::Interrupted
    )
}

// A URL has an IPv6 address in brackets, and a socket's address has none.
fn without_brackets(host: &str) -> &str {
    host.strip_prefix('[')
        .and_then(|inner| inner.strip_suffix(']'))
        .unwrap_or(host)
}

pub(crate) fn not_connected() -> io::Error {
    io::Error::from(ErrorKind::NotConnected)
}
