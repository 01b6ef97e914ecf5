// The newest connection of a door as a stream.
ghost use Rattle.std.specs.Prelude.{◌≡◌, ◌≤◌, ◌++◌, ◌==◌, Bool, List, ℕ, length, drop, min, take, true, false, IsTrue};
ghost use Rattle.std.specs.Io.KnownBytes.{Appends, Consumes};
ghost use Rattle.console_socket.specs.Streams.{IsFurther, counts_as, good_of, is_failing, is_over, left_of_stream, known_if, marked_behind, marked_before, reads_on, trouble_by, writes_on};

use dl_kinds::IoErr;
use door_source::{Doors, newest_connection_is_one};
use std::io;
use std::io::{ErrorKind, Read, Write};
use std::marker::{Brand, PhantomData};

/// What a stream begins with, known to proofs alone: its door by the name of the reference to it, what that shows, its newest
/// connection, and the bytes that were received of that before.
pub(crate) trait Beginning {
    ghost use Rattle.std.specs.Borrow.{GName};
    ghost use Rattle.std.specs.Prelude.{ℕ, Bool, List};
    ghost use Rattle.door_source.specs.Doors.{Connection};

    ghost name: { GName };

    ghost earlier: { List Connection };

    ghost newest: { Connection };

    ghost is_closed: { Bool };

    ghost faults: { ℕ };

    ghost first: { List ℕ };
}

impl Beginning for Brand {
    ghost use Rattle.std.specs.Prelude.{false, []};
    ghost use Rattle.door_source.specs.Doors.{met};

    ghost name = { 0 };

    ghost earlier = { [] };

    ghost newest = { met [] };

    ghost is_closed = { false };

    ghost faults = { 0 };

    ghost first = { [] };
}

/// Why a call of the stream failed.
#[derive(Clone, Copy, Debug, PartialEq, Eq)]
pub(crate) enum Trouble {
    /// None did.
    Nothing,
    /// Nothing came for a while.
    Quiet,
    /// The peer sends no more.
    Ended,
    /// A call of the door failed.
    Failed,
    /// Memory ran out.
    Starved,
}

/// A stream that tells why a call of it failed, what is left to be read of it, and what was written.
pub(crate) trait Stream: Read + Write {
    ghost use Rattle.std.specs.Prelude.{ℕ, Bool, List};
    ghost use Rattle.console_socket.specs.Streams.{ReadsOn, WritesOn};
    ghost use Rattle.console_socket.specs.declared.stream.Trouble.{Trouble};

    ghost tells: { Bool };

    ghost left: { Self → List ℕ };

    ghost good: { Self → List ℕ };

    ghost trouble: { Self → Trouble };

    fn trouble(&self) -> Trouble
        ensures { result ≡ trouble self.now };

    ghost reads: { ReadsOn tells Self.remaining left good };

    ghost writes: { WritesOn tells Self.contents left good };
}

/// So many reads follow one another before one answers that nothing came: a peer that sends without end is to hold nobody.
const MOST_READS: u32 = 64;

/// The newest connection of a door, behind bytes that were received of it before. Behind a failure nothing is done any more.
#[derive(Drop)]
pub(crate) struct DoorStream<'a, B: Beginning, A: Doors> {
    pub(crate) beginning: PhantomData<B>,
    pub(crate) door: &'a mut A,
    pub(crate) first: &'a [u8],
    pub(crate) at: usize,
    // How many bytes were sent whole.
    pub(crate) put: usize,
    pub(crate) reads: u32,
    pub(crate) trouble: Trouble,
    ghost same_door: { door.ghost_name ≡ B.name },
    ghost same_first: { first.now ≡ B.first },
    ghost within: { at ≤ length first.now },
    ghost told: { ∥ (IsTrue A.tells → IsFurther B.earlier B.newest B.is_closed put (is_failing trouble) (A.state door.now)) ∥₁ },
    ghost faults: { counts_as trouble B.faults (A.faults door.now) ≡ true },
}

/// A door that a stream has for its time.
#[derive(Drop)]
pub(crate) struct Slot<'a, A> {
    pub(crate) door: &'a mut A,
}

impl<'a, B: Beginning, A: Doors> DoorStream<'a, B, A> {
    pub(crate) fn new(slot: Slot<'a, A>, first: &'a [u8]) -> Self
        requires named { slot.door.ghost_name ≡ B.name }
        requires first { first.now ≡ B.first }
        requires told { IsTrue A.tells → IsFurther B.earlier B.newest B.is_closed 0 false
            (A.state slot.door.now) }
        requires faults { A.faults slot.door.now ≡ B.faults }
        ensures same { result.door.ghost_name ≡ slot.entry.door.ghost_name }
        ensures value { result.door.now ≡ slot.entry.door.now }
        ensures sound { is_failing result.trouble ≡ false }
        ensures put { result.put ≡ 0 }
    {
        let Slot { door } = slot;
        DoorStream {
            beginning: PhantomData,
            door,
            first,
            at: 0,
            put: 0,
            reads: 0,
            trouble: Trouble::Nothing,
        }
    }
}

fn trouble_by(error: IoErr) -> Trouble
    ensures { result ≡ trouble_by error }
{
    match error {
        IoErr::Fault => Trouble::Failed,
        IoErr::NoMemory => Trouble::Starved,
    }
}

fn is_over(trouble: Trouble) -> bool
    ensures { result ≡ is_over trouble }
{
    match trouble {
        Trouble::Nothing | Trouble::Quiet => false,
        Trouble::Ended | Trouble::Failed | Trouble::Starved => true,
    }
}

fn failed() -> io::Error {
    io::Error::from(ErrorKind::Other)
}

fn blocked() -> io::Error {
    io::Error::from(ErrorKind::WouldBlock)
}

// Copies what fits of the one into the other, and tells how many bytes.
fn give(from: &[u8], into: &mut [u8]) -> usize
    ensures count { result ≡ min (length from.now) (length into.old) }
    ensures bytes { take result into.new ≡ take result from.now }
{
    let count = from.len().min(into.len());
    into[..count].copy_from_slice(&from[..count]);
    count
}

impl<'a, B: Beginning, A: Doors> Read for DoorStream<'a, B, A> {
    ghost remaining = { λ s. known_if A.tells (marked_behind
        (left_of_stream s.first.now s.at B.newest (A.state s.door.now))
        (good_of s.put B.newest (A.state s.door.now))) };

    fn read(&mut self, buf: &mut [u8]) -> io::Result<usize> {
        newest_connection_is_one();
        if buf.is_empty() {
            return Ok(0);
        }
        if is_over(self.trouble) {
            return Err(failed());
        }
        if self.at < self.first.len() {
            let count = give(&self.first[self.at..], buf);
            self.at += count;
            return Ok(count);
        }
        if self.reads >= MOST_READS {
            self.reads = 0;
            self.trouble = Trouble::Quiet;
            return Err(blocked());
        }
        self.reads += 1;
        match self.door.ready() {
            Ok(true) => {}
            Ok(false) => {
                self.reads = 0;
                self.trouble = Trouble::Quiet;
                return Err(blocked());
            }
            Err(error) => {
                self.trouble = trouble_by(error);
                return Err(failed());
            }
        }
        match self.door.recv(buf) {
            Ok(0) => {
                self.trouble = Trouble::Ended;
                Err(failed())
            }
            Ok(count) => {
                self.trouble = Trouble::Nothing;
                Ok(count)
            }
            Err(error) => {
                self.trouble = trouble_by(error);
                Err(failed())
            }
        }
    }
}

impl<'a, B: Beginning, A: Doors> Write for DoorStream<'a, B, A> {
    ghost contents = { λ s. known_if A.tells (marked_before
        (left_of_stream s.first.now s.at B.newest (A.state s.door.now))
        (good_of s.put B.newest (A.state s.door.now))) };

    fn write(&mut self, buf: &[u8]) -> io::Result<usize> {
        newest_connection_is_one();
        if is_over(self.trouble) {
            return Err(failed());
        }
        let Some(put) = self.put.checked_add(buf.len()) else {
            self.trouble = Trouble::Starved;
            return Err(failed());
        };
        match self.door.send(buf) {
            Ok(()) => {
                self.put = put;
                self.trouble = Trouble::Nothing;
                Ok(buf.len())
            }
            Err(error) => {
                self.trouble = trouble_by(error);
                Err(failed())
            }
        }
    }

    fn flush(&mut self) -> io::Result<()> {
        Ok(())
    }
}

impl<'a, B: Beginning, A: Doors> Stream for DoorStream<'a, B, A> {
    ghost tells = { A.tells };

    ghost left = { λ s. left_of_stream s.first.now s.at B.newest (A.state s.door.now) };

    ghost good = { λ s. good_of s.put B.newest (A.state s.door.now) };

    ghost trouble = { λ s. s.trouble };

    ghost reads = { reads_on A.tells
        (λ s. left_of_stream s.first.now s.at B.newest (A.state s.door.now))
        (λ s. good_of s.put B.newest (A.state s.door.now)) };

    ghost writes = { writes_on A.tells
        (λ s. left_of_stream s.first.now s.at B.newest (A.state s.door.now))
        (λ s. good_of s.put B.newest (A.state s.door.now)) };

    fn trouble(&self) -> Trouble {
        self.trouble
    }
}
