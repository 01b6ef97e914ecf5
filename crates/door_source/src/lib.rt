//! Doors, at which clients come: what a connection gives and takes, and clients in memory.
#![tactic(auto)]

ghost use Rattle.std.specs.Prelude.{◌≡◌, ◌<◌, ◌≤◌, Bool, ℕ, true, length, IsTrue, IfOk, OnErr};
ghost use Rattle.dl_kinds.specs.Causes.{HasCause};
ghost use Rattle.door_source.specs.Doors.{DoorState, Accepts, ReceivesFromPeer, SendsToPeer, hung_up};

use dl_kinds::IoErr;

mod laws;
mod memory;
mod sessions;

pub use laws::newest_connection_is_one;
pub use memory::MemDoors;

/// What came at a door.
#[derive(Clone, Copy, Debug, PartialEq, Eq)]
pub enum Came {
    /// A connection.
    Somebody,
    /// None as yet.
    Nobody,
    /// None any more.
    Closed,
}

/// One connection at a time from a client. A call that answers `NoMemory` was not made: it leaves everything as it was.
pub trait Doors {
    /// Whether this kind of door tells its state. A real one can't: over it only the counts of faults are known.
    ghost tells: { Bool };

    /// The connections so far, and whether more may come.
    ghost state: { Self → DoorState };

    /// How often a call failed, up to 2^64 - 1.
    ghost faults: { Self → ℕ };

    /// The count of faults.
    fn faults(&self) -> u64
        ensures { result ≡ faults self.now };

    /// Takes the next connection, in place of the one before, where one came.
    fn accept(&mut self) -> Result<Came, IoErr>
        ensures came { IfOk result (λ came. IsTrue tells
            → Accepts came (state self.old) (state self.new)) }
        ensures failed { OnErr result (IsTrue tells → state self.new ≡ state self.old) }
        ensures cause { HasCause (faults self.old) (faults self.new) result };

    /// Receives some bytes of the connection, and none only at its end.
    fn recv(&mut self, into: &mut [u8]) -> Result<usize, IoErr>
        requires some { 0 < length into.old }
        requires opened { IsTrue tells → (state self.old).is_open ≡ true }
        ensures bound { IfOk result (λ count. count ≤ length into.new) }
        ensures received { IfOk result (λ count. IsTrue tells
            → ReceivesFromPeer count into.new (state self.old) (state self.new)) }
        ensures failed { OnErr result (IsTrue tells → state self.new ≡ state self.old) }
        ensures cause { HasCause (faults self.old) (faults self.new) result };

    /// Whether a byte of the connection, or its end, is there to be received: false where neither came for a while.
    fn ready(&mut self) -> Result<bool, IoErr>
        requires opened { IsTrue tells → (state self.old).is_open ≡ true }
        ensures same { IsTrue tells → state self.new ≡ state self.old }
        ensures cause { HasCause (faults self.old) (faults self.new) result };

    /// Sends all of the bytes. Where it fails a part of them may have been sent.
    fn send(&mut self, bytes: &[u8]) -> Result<(), IoErr>
        requires opened { IsTrue tells → (state self.old).is_open ≡ true }
        ensures sent { IsTrue tells
            → SendsToPeer bytes.now result (state self.old) (state self.new) }
        ensures cause { HasCause (faults self.old) (faults self.new) result };

    /// Closes the connection.
    fn hang_up(&mut self)
        ensures closed { IsTrue tells → state self.new ≡ hung_up (state self.old) }
        ensures faults { faults self.new ≡ faults self.old };
}
