// Doors with clients in memory.
ghost use Rattle.std.specs.Prelude.{◌≡◌, ◌<◌, ◌≤◌, ◌||◌, All, drop, length, map, IsTrue, IfOk};
ghost use Rattle.door_source.specs.Doors.{met, IsUntouched};

use crate::sessions::MemSession;
use crate::{Came, Doors};
use dl_kinds::{Blob, Calls, IoErr, NoMemory};
use std::alloc::Global;

/// A door to clients in memory, which come one after the other. Once the last has come the door is closed.
#[derive(Debug, Drop)]
pub struct MemDoors {
    sessions: Vec<MemSession>,
    // How many of them have come.
    came: usize,
    is_open: bool,
    is_closed: bool,
    // Whether it was told that nothing of the newest one is left.
    told_idle: bool,
    cut: u32,
    calls: Calls,
    ghost cuts: { 0 < cut },
    ghost within: { came ≤ length sessions.items },
    ghost some: { IsTrue is_open → 0 < came },
    ghost fresh: { All IsUntouched (drop came sessions.items) },
}

fn sessions_of(alloc: Global, wholes: Vec<Blob>) -> Result<Vec<MemSession>, NoMemory>
    ensures { IfOk result (λ sessions. sessions.items ≡ map met wholes.items) }
{
    let mut sessions = Vec::new(alloc);
    for whole in wholes {
        sessions.push(MemSession::new(alloc, whole))?;
    }
    Ok(sessions)
}

fn either(one: bool, other: bool) -> bool
    ensures { result ≡ (one || other) }
{
    one || other
}

impl MemDoors {
    ghost use Rattle.door_source.specs.MemDoors.{IsNewDoor, sent_in};

    /// A door to which a client comes for each session, and sends its bytes. It gives at most `cut` bytes at once. The calls
    /// of the given numbers fail: `accept`, `recv`, `ready` and `send` are numbered from 0, but for those that are answered
    /// with want of memory.
    pub fn new(
        alloc: Global,
        sessions: Vec<Blob>,
        cut: u32,
        failing: Vec<u64>,
    ) -> Result<Self, NoMemory>
        requires { 0 < cut }
        ensures { IfOk result (IsNewDoor sessions.items cut failing.items) }
    {
        Ok(MemDoors {
            sessions: sessions_of(alloc, sessions)?,
            came: 0,
            is_open: false,
            is_closed: false,
            told_idle: false,
            cut,
            calls: Calls::new(failing),
        })
    }

    /// What was sent in a connection, the first being 0. Nothing, where it hasn't come.
    pub fn sent(&self, session: u32) -> &[u8]
        ensures { result.now ≡ sent_in self.now session }
    {
        match self.sessions[..self.came].get(session as usize) {
            Some(session) => session.sent(),
            None => &[],
        }
    }
}

impl Doors for MemDoors {
    ghost use Rattle.std.specs.Prelude.{◌↔◌, true, min, take, OnErr, IsErrOf};
    ghost use Rattle.dl_kinds.specs.Causes.{HasCause};
    ghost use Rattle.dl_kinds.specs.declared.outside.IoErr.TheVariants.{Fault};
    ghost use Rattle.door_source.specs.Doors.{Accepts, ReceivesFromPeer, SendsToPeer, hung_up};
    ghost use Rattle.door_source.specs.MemDoors.{door_faults, door_state, door_cut, coming, AcceptsNext, GivesNext, TellsReady, FailsNext, IsDoorCall};

    ghost tells = { true };

    ghost state = { door_state };

    ghost faults = { door_faults };

    fn faults(&self) -> u64 {
        self.calls.faults()
    }

    fn accept(&mut self) -> Result<Came, IoErr>
        ensures came { IfOk result (λ came.
            Accepts came (door_state self.old) (door_state self.new)) }
        ensures next { IfOk result (λ came. AcceptsNext (coming self.old) came self.old self.new) }
        ensures failed { OnErr result (door_state self.new ≡ door_state self.old) }
        ensures cause { HasCause (door_faults self.old) (door_faults self.new) result }
        ensures fault { IsErrOf result Fault ↔ FailsNext self.old }
        ensures numbered { IsDoorCall self.old self.new result }
    {
        if self.calls.is_failing() {
            return Err(self.calls.fail());
        }
        self.calls.pass();
        if self.came < self.sessions.len() {
            self.came += 1;
            self.is_open = true;
            self.told_idle = false;
            Ok(Came::Somebody)
        } else {
            self.is_closed = true;
            Ok(Came::Closed)
        }
    }

    fn recv(&mut self, into: &mut [u8]) -> Result<usize, IoErr>
        requires some { 0 < length into.old }
        requires opened { (door_state self.old).is_open ≡ true }
        ensures bound { IfOk result (λ count. count ≤ length into.new) }
        ensures received { IfOk result (λ count.
            ReceivesFromPeer count into.new (door_state self.old) (door_state self.new)) }
        ensures most { IfOk result (λ count. GivesNext count (length into.old) self.old) }
        ensures coming { coming self.new ≡ coming self.old }
        ensures failed { OnErr result (door_state self.new ≡ door_state self.old) }
        ensures cause { HasCause (door_faults self.old) (door_faults self.new) result }
        ensures fault { IsErrOf result Fault ↔ FailsNext self.old }
        ensures numbered { IsDoorCall self.old self.new result }
    {
        if self.calls.is_failing() {
            return Err(self.calls.fail());
        }
        self.calls.pass();
        Ok(self.sessions[self.came - 1].give(into, self.cut as usize))
    }

    fn ready(&mut self) -> Result<bool, IoErr>
        requires opened { (door_state self.old).is_open ≡ true }
        ensures ready { IfOk result (λ is_ready. TellsReady is_ready self.old self.new) }
        ensures same { door_state self.new ≡ door_state self.old }
        ensures coming { coming self.new ≡ coming self.old }
        ensures cause { HasCause (door_faults self.old) (door_faults self.new) result }
        ensures fault { IsErrOf result Fault ↔ FailsNext self.old }
        ensures numbered { IsDoorCall self.old self.new result }
    {
        if self.calls.is_failing() {
            return Err(self.calls.fail());
        }
        self.calls.pass();
        let has_more = self.sessions[self.came - 1].has_more();
        let is_ready = either(self.told_idle, has_more);
        self.told_idle = either(!is_ready, self.told_idle);
        Ok(is_ready)
    }

    fn send(&mut self, bytes: &[u8]) -> Result<(), IoErr>
        requires opened { (door_state self.old).is_open ≡ true }
        ensures sent { SendsToPeer bytes.now result (door_state self.old) (door_state self.new) }
        ensures coming { coming self.new ≡ coming self.old }
        ensures failed { OnErr result (door_state self.new ≡ door_state self.old) }
        ensures cause { HasCause (door_faults self.old) (door_faults self.new) result }
        ensures fault { IsErrOf result Fault ↔ FailsNext self.old }
        ensures numbered { IsDoorCall self.old self.new result }
    {
        if self.calls.is_failing() {
            return Err(self.calls.fail());
        }
        self.sessions[self.came - 1].take(bytes)?;
        self.calls.pass();
        Ok(())
    }

    fn hang_up(&mut self)
        ensures closed { door_state self.new ≡ hung_up (door_state self.old) }
        ensures coming { coming self.new ≡ coming self.old }
        ensures faults { door_faults self.new ≡ door_faults self.old }
    {
        self.is_open = false;
    }
}
