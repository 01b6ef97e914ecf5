// Links to mirrors in memory.
ghost use Rattle.std.specs.Prelude.{◌≡◌, ◌<◌, IfOk};
ghost use Rattle.link_source.specs.Memory.{GivesTextBehind};

use crate::Links;
use crate::bad_answers::{Bad, BadAnswers};
use crate::due::Due;
use crate::exchanges::{MemExchanges, MemPeer};
use crate::mirrors::{Answered, MemMirror, answer, is_unknown, unanswered};
use dl_kinds::{Calls, IoErr, NoMemory};
use std::alloc::{AllocError, Global};

/// A link to mirrors in memory. A dial to a host and a port that no mirror has is a fault. Each `send` is one whole
/// request, and other bytes get no reply. A mirror hangs up over a request that comes before its last reply was taken. A bad answer stands in the place of one reply of its mirror: of those left the
/// first is next.
#[derive(Debug, Drop)]
pub struct MemLinks {
    alloc: Global,
    mirrors: Vec<MemMirror>,
    bad: BadAnswers,
    cut: u32,
    calls: Calls,
    exchanges: MemExchanges,
    due: Due,
    peer: Option<MemPeer>,
    listening: bool,
    ghost cuts: { 0 < cut },
}

// What a peer answers to bytes: nothing, where its last reply wasn't taken whole.
fn answer_behind(
    alloc: Global,
    due: &Due,
    mirrors: &[MemMirror],
    bad: &BadAnswers,
    peer: &MemPeer,
    bytes: &[u8],
) -> Result<Answered, AllocError>
    ensures { IfOk result (λ answered. GivesTextBehind due.now mirrors.now
        bad.now.left.items bad.now.used.items peer.now.host peer.now.port bytes.now
        answered.text.items answered.mirror) }
{
    if due.is_empty() {
        answer(alloc, mirrors, bad, peer.host.as_str(), peer.port, bytes)
    } else {
        Ok(unanswered(alloc))
    }
}

impl MemLinks {
    ghost use Rattle.std.specs.Prelude.{◌↔◌, ◌⊎◌, IsTrue, IsSome};
    ghost use Rattle.link_source.specs.MemLinks.{IsNewLink, IsNextToFail, IsUnknownHost, link_state};

    /// A link that gives at most `cut` bytes at once. The calls of the given numbers fail: `dial`, `send` and `recv`
    /// are numbered from 0, but for those that are answered with want of memory.
    pub fn new(
        alloc: Global,
        mirrors: Vec<MemMirror>,
        bad: Vec<Bad>,
        cut: u32,
        failing: Vec<u64>,
    ) -> Result<Self, NoMemory>
        requires { 0 < cut }
        ensures { IfOk result (IsNewLink mirrors.items bad.items cut failing.items) }
    {
        Ok(MemLinks {
            alloc,
            mirrors,
            bad: BadAnswers::new(alloc, bad)?,
            cut,
            calls: Calls::new(failing),
            exchanges: MemExchanges::new(alloc),
            due: Due::new(alloc),
            peer: None,
            listening: false,
        })
    }

    // Whether a dial fails now.
    fn fails_to_dial(&self, host: &str, port: u16) -> bool
        ensures { IsTrue result ↔ (IsNextToFail self.now ⊎ IsUnknownHost self.now host.now port) }
    {
        self.calls.is_failing() || is_unknown(&self.mirrors, host, port)
    }

    /// Whether a request may be sent.
    pub fn is_open(&self) -> bool
        ensures { IsTrue result ↔ IsSome (link_state self.now).peer }
    {
        self.peer.is_some()
    }

    /// Whether a reply may be received.
    pub fn listens(&self) -> bool
        ensures { result ≡ (link_state self.now).listens }
    {
        self.listening
    }
}

impl Links for MemLinks {
    ghost use Rattle.std.specs.Prelude.{◌↔◌, ◌⊎◌, ◌≤◌, true, length, IsSome, OnOk, OnErr, IsErrOf};
    ghost use Rattle.dl_kinds.specs.Causes.{HasCause};
    ghost use Rattle.dl_kinds.specs.declared.outside.IoErr.TheVariants.{Fault};
    ghost use Rattle.link_source.specs.Link.{Dials, Sends, Receives, closed};
    ghost use Rattle.link_source.specs.declared.exchanges.TheConstants.{MOST_RECEIVED};
    ghost use Rattle.link_source.specs.MemLinks.{link_faults, link_state, cut_of, IsNextToFail, IsUnknownHost, IsNumberedCall};

    ghost tells = { true };

    ghost state = { link_state };

    ghost faults = { link_faults };

    fn faults(&self) -> u64 {
        self.calls.faults()
    }

    fn dial(&mut self, host: &str, port: u16) -> Result<(), IoErr>
        ensures dialled { OnOk result (Dials host.now port (link_state self.old) (link_state self.new)) }
        ensures failed { OnErr result (link_state self.new ≡ link_state self.old) }
        ensures cause { HasCause (link_faults self.old) (link_faults self.new) result }
        ensures fault { IsErrOf result Fault ↔ (IsNextToFail self.old
            ⊎ IsUnknownHost self.old host.now port) }
        ensures numbered { IsNumberedCall self.old self.new result }
    {
        if self.fails_to_dial(host, port) {
            return Err(self.calls.fail());
        }
        self.peer = Some(MemPeer::new(self.alloc, host, port)?);
        self.due = Due::new(self.alloc);
        self.listening = false;
        self.calls.pass();
        Ok(())
    }

    fn send(&mut self, bytes: &[u8]) -> Result<(), IoErr>
        requires opened { IsSome (link_state self.old).peer }
        ensures sent { OnOk result (Sends bytes.now (link_state self.old) (link_state self.new)) }
        ensures failed { OnErr result (link_state self.new ≡ link_state self.old) }
        ensures cause { HasCause (link_faults self.old) (link_faults self.new) result }
        ensures fault { IsErrOf result Fault ↔ IsNextToFail self.old }
        ensures numbered { IsNumberedCall self.old self.new result }
    {
        if self.calls.is_failing() {
            return Err(self.calls.fail());
        }
        let Some(peer) = &self.peer else {
            unreachable!()
        };
        let answered = answer_behind(self.alloc, &self.due, &self.mirrors, &self.bad, peer, bytes)?;
        self.exchanges
            .begin(self.alloc, peer, bytes, !self.listening)?;
        self.bad.use_next(answered.mirror);
        self.due = Due::of(answered.text);
        self.listening = true;
        self.calls.pass();
        Ok(())
    }

    fn recv(&mut self, into: &mut [u8]) -> Result<usize, IoErr>
        requires some { 0 < length into.old }
        requires few { length into.old ≤ MOST_RECEIVED }
        requires listens { (link_state self.old).listens ≡ true }
        ensures bound { IfOk result (λ count. count ≤ length into.new) }
        ensures cut { IfOk result (λ count. count ≤ cut_of self.old) }
        ensures received { IfOk result (λ count.
            Receives count into.new (link_state self.old) (link_state self.new)) }
        ensures failed { OnErr result (link_state self.new ≡ link_state self.old) }
        ensures cause { HasCause (link_faults self.old) (link_faults self.new) result }
        ensures fault { IsErrOf result Fault ↔ IsNextToFail self.old }
        ensures numbered { IsNumberedCall self.old self.new result }
    {
        if self.calls.is_failing() {
            return Err(self.calls.fail());
        }
        let due = self.due.bytes();
        let count = due.len().min(into.len()).min(self.cut as usize);
        self.exchanges.receive(&due[..count])?;
        into[..count].copy_from_slice(&due[..count]);
        self.due.give(count);
        self.calls.pass();
        Ok(count)
    }

    // Mirrors in memory have no connections for data: each call for one fails.
    fn dial_data(&mut self, _port: u16) -> Result<(), IoErr>
        ensures failed { link_state self.new ≡ link_state self.old }
        ensures refused { IsErrOf result Fault }
        ensures cause { HasCause (link_faults self.old) (link_faults self.new) result }
        ensures numbered { IsNumberedCall self.old self.new result }
    {
        Err(self.calls.fail())
    }

    fn recv_data(&mut self, _into: &mut [u8]) -> Result<usize, IoErr>
        ensures failed { link_state self.new ≡ link_state self.old }
        ensures refused { IsErrOf result Fault }
        ensures cause { HasCause (link_faults self.old) (link_faults self.new) result }
        ensures numbered { IsNumberedCall self.old self.new result }
    {
        Err(self.calls.fail())
    }

    fn hang_up(&mut self)
        ensures closed { link_state self.new ≡ closed (link_state self.old) }
        ensures faults { link_faults self.new ≡ link_faults self.old }
    {
        self.peer = None;
        self.listening = false;
    }
}
