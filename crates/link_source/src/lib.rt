//! Links to mirrors: where a URL leads, what a link gives, and mirrors in memory.
#![tactic(auto)]

ghost use Rattle.std.specs.Prelude.{◌≡◌, ◌<◌, ◌≤◌, Bool, ℕ, true, length, IsTrue, IsSome, IfOk, OnOk, OnErr};
ghost use Rattle.dl_kinds.specs.Causes.{HasCause};
ghost use Rattle.link_source.specs.Link.{LinkState, Dials, DialsData, HasData, Sends, Receives, ReceivesData, closed};
ghost use Rattle.link_source.specs.declared.exchanges.TheConstants.{MOST_RECEIVED};

use dl_kinds::IoErr;

mod bad_answers;
mod chunks;
mod due;
mod endpoint;
mod exchanges;
mod laws;
mod load;
mod memory;
mod mirrors;
mod replies;
mod requests;
mod resources;

pub use bad_answers::{Bad, BadKind};
pub use endpoint::{EndErr, Endpoint, is_usable};
pub use exchanges::MOST_RECEIVED;
pub use laws::{limits_are_told, requests_are_read_once};
pub use load::load_part;
pub use memory::MemLinks;
pub use mirrors::{Manner, MemFile, MemMirror};

/// One connection at a time to a mirror, over which requests go one after the other, and one for data beside it. A call that answers `NoMemory` was not made: it leaves everything as it was.
pub trait Links {
    /// Whether this kind of link tells its state. A real one can't: over it only the counts of faults are known.
    ghost tells: { Bool };

    /// What the mirrors have, and what the link gave and took.
    ghost state: { Self → LinkState };

    /// How often a call failed, up to 2^64 - 1.
    ghost faults: { Self → ℕ };

    /// The count of faults.
    fn faults(&self) -> u64
        ensures { result ≡ faults self.now };

    /// Opens a connection to a mirror, in place of the one before. The host is written as in an `Endpoint`.
    fn dial(&mut self, host: &str, port: u16) -> Result<(), IoErr>
        ensures dialled { OnOk result (IsTrue tells
            → Dials host.now port (state self.old) (state self.new)) }
        ensures failed { OnErr result (IsTrue tells → state self.new ≡ state self.old) }
        ensures cause { HasCause (faults self.old) (faults self.new) result };

    /// Sends a request, all of its bytes or none, and so begins an exchange.
    fn send(&mut self, bytes: &[u8]) -> Result<(), IoErr>
        requires opened { IsTrue tells → IsSome (state self.old).peer }
        ensures sent { OnOk result (IsTrue tells
            → Sends bytes.now (state self.old) (state self.new)) }
        ensures failed { OnErr result (IsTrue tells → state self.new ≡ state self.old) }
        ensures cause { HasCause (faults self.old) (faults self.new) result };

    /// Receives some bytes of the newest exchange, and none only at its end.
    fn recv(&mut self, into: &mut [u8]) -> Result<usize, IoErr>
        requires some { 0 < length into.old }
        requires few { length into.old ≤ MOST_RECEIVED }
        requires listens { IsTrue tells → (state self.old).listens ≡ true }
        ensures bound { IfOk result (λ count. count ≤ length into.new) }
        ensures received { IfOk result (λ count. IsTrue tells
            → Receives count into.new (state self.old) (state self.new)) }
        ensures failed { OnErr result (IsTrue tells → state self.new ≡ state self.old) }
        ensures cause { HasCause (faults self.old) (faults self.new) result };

    /// Opens a connection for data beside the open one, to this port of the same host, in place of the one before.
    fn dial_data(&mut self, port: u16) -> Result<(), IoErr>
        requires opened { IsTrue tells → IsSome (state self.old).peer }
        ensures dialled { OnOk result (IsTrue tells
            → DialsData port (state self.old) (state self.new)) }
        ensures failed { OnErr result (IsTrue tells → state self.new ≡ state self.old) }
        ensures cause { HasCause (faults self.old) (faults self.new) result };

    /// Receives some bytes over the connection for data, and none only at its end. What comes is an exchange without a
    /// request, the newest one from the first call on, so no reply is received behind it. The next request closes the
    /// connection for data.
    fn recv_data(&mut self, into: &mut [u8]) -> Result<usize, IoErr>
        requires some { 0 < length into.old }
        requires few { length into.old ≤ MOST_RECEIVED }
        requires dialled { IsTrue tells → HasData (state self.old) }
        ensures bound { IfOk result (λ count. count ≤ length into.new) }
        ensures received { IfOk result (λ count. IsTrue tells
            → ReceivesData count into.new (state self.old) (state self.new)) }
        ensures failed { OnErr result (IsTrue tells → state self.new ≡ state self.old) }
        ensures cause { HasCause (faults self.old) (faults self.new) result };

    /// Closes the connection, and the one for data. What the newest exchange had still to give stays due.
    fn hang_up(&mut self)
        ensures closed { IsTrue tells → state self.new ≡ closed (state self.old) }
        ensures faults { faults self.new ≡ faults self.old };
}
