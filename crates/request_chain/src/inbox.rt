// What came and waits to be read.
ghost use Rattle.std.specs.Prelude.{◌≡◌, ◌<◌, ◌≤◌, ◌+◌, ◌++◌, ◌==◌, [], List, ℕ, Ok, true, length, take, drop, IsTrue, IfOk, OnErr, vec_len};
ghost use Rattle.std.specs.List.{slice_range};
ghost use Rattle.dl_kinds.specs.Causes.{HasCause};
ghost use Rattle.link_source.specs.Exchanges.{TakesDue, with_received};
ghost use Rattle.link_source.specs.declared.exchanges.TheConstants.{MOST_RECEIVED};
ghost use Rattle.reply_reader.specs.Heads.{HasFinalHead, HasNoFinalHead, IsAtHead, IfFinal};
ghost use Rattle.reply_reader.specs.declared.heads.HeadsRead.TheVariants.{More, Bad};

use dl_kinds::{IoErr, NoMemory};
use link_source::{Links, MOST_RECEIVED};
use reply_reader::{HeadReader, HeadsRead};
use std::alloc::Global;
use std::marker::Model;

/// The bytes that came and weren't read yet, in their order. They wait where the link put them, since more is received
/// only once all of them are read. While heads are read a byte goes through a buffer of the heads.
#[derive(Debug, Drop)]
pub(crate) struct Inbox {
    block: Vec<u8>,
    /// Where those that wait begin in the block, and where they end.
    start: usize,
    end: usize,
}

impl Model for Inbox {
    ghost Value = { List ℕ };

    ghost view = { λ i. slice_range i.block.items i.start i.end };

    ghost invariant = { λ i. (i.start ≤ i.end) × (i.end ≤ MOST_RECEIVED) × (vec_len i.block ≡ MOST_RECEIVED) };
}

// Receives some bytes into the front of a block.
fn receive<L: Links>(link: &mut L, block: &mut [u8], most: usize) -> Result<usize, IoErr>
    requires some { 0 < most }
    requires few { most ≤ MOST_RECEIVED }
    requires room { most ≤ length block.old }
    requires listens { IsTrue L.tells → (L.state link.old).listens ≡ true }
    ensures most { IfOk result (λ count. count ≤ most) }
    ensures received { IfOk result (λ count. IsTrue L.tells
        → (L.state link.new).exchanges
        ≡ with_received (take count block.new) (L.state link.old).exchanges) }
    ensures given { IfOk result (λ count. IsTrue L.tells
        → TakesDue (L.state link.old).due count block.new (L.state link.new).due) }
    ensures failed { OnErr result (IsTrue L.tells
        → (L.state link.new).exchanges ≡ (L.state link.old).exchanges) }
    ensures held { OnErr result (IsTrue L.tells → (L.state link.new).due ≡ (L.state link.old).due) }
    ensures kept { IsTrue L.tells → (L.state link.new).content ≡ (L.state link.old).content }
    ensures at { IsTrue L.tells → (L.state link.new).peer ≡ (L.state link.old).peer }
    ensures listens { IsTrue L.tells → (L.state link.new).listens ≡ true }
    ensures cause { HasCause (L.faults link.old) (L.faults link.new) result }
{
    link.recv(&mut block[..most])
}

impl Inbox {
    pub fn new(alloc: Global) -> Result<Self, NoMemory>
        ensures { IfOk result (λ inbox. inbox ≡ []) }
    {
        Ok(Inbox {
            block: vec![in alloc; 0; MOST_RECEIVED]?,
            start: 0,
            end: 0,
        })
    }

    pub fn is_empty(&self) -> bool
        ensures { result ≡ (length self.now == 0) }
    {
        self.start == self.end
    }

    /// Receives some bytes of the newest exchange, at most so many, in place of those that wait. None come at its end
    /// alone.
    pub fn refill<L: Links>(&mut self, link: &mut L, most: u32) -> Result<u32, IoErr>
        requires some { 0 < most }
        requires listens { IsTrue L.tells → (L.state link.old).listens ≡ true }
        ensures most { IfOk result (λ count. count ≤ most) }
        ensures count { IfOk result (λ count. count ≡ length self.new) }
        ensures received { IfOk result (λ _. IsTrue L.tells
            → (L.state link.new).exchanges ≡ with_received self.new (L.state link.old).exchanges) }
        ensures given { IfOk result (λ count. IsTrue L.tells
            → TakesDue (L.state link.old).due count self.new (L.state link.new).due) }
        ensures failed { OnErr result (IsTrue L.tells
            → (L.state link.new).exchanges ≡ (L.state link.old).exchanges) }
        ensures held { OnErr result (IsTrue L.tells
            → (L.state link.new).due ≡ (L.state link.old).due) }
        ensures kept { IsTrue L.tells → (L.state link.new).content ≡ (L.state link.old).content }
        ensures at { IsTrue L.tells → (L.state link.new).peer ≡ (L.state link.old).peer }
        ensures listens { IsTrue L.tells → (L.state link.new).listens ≡ true }
        ensures cause { HasCause (L.faults link.old) (L.faults link.new) result }
    {
        self.start = 0;
        self.end = 0;
        let count = receive(link, &mut self.block, MOST_RECEIVED.min(most as usize))?;
        self.end = count;
        Ok(count as u32)
    }

    /// All that waits.
    pub fn waiting(&self) -> &[u8]
        ensures all { result.now ≡ self.now }
        ensures few { length result.now ≤ MOST_RECEIVED }
    {
        &self.block[self.start..self.end]
    }

    /// Drops so many bytes at the front.
    pub fn pass(&mut self, count: u32)
        requires { count ≤ length self.old }
        ensures { self.new ≡ drop count self.old }
    {
        self.start += count as usize;
    }

    pub fn clear(&mut self)
        ensures { self.new ≡ [] }
    {
        self.start = 0;
        self.end = 0;
    }

    /// Reads on a head with all that waits. What stands behind the head waits on.
    pub fn read_head(&mut self, alloc: Global, reader: &mut HeadReader) -> HeadsRead
        ensures whole { IfFinal result (λ head used. (used ≤ length self.old)
            × (self.new ≡ drop used self.old)
            × ((received : List ℕ) → IsAtHead received reader.old
            → HasFinalHead (received ++ self.old) head (length received + used))) }
        ensures more { result ≡ More → (self.new ≡ [])
            × ((received : List ℕ) → IsAtHead received reader.old
            → IsAtHead (received ++ self.old) reader.new) }
        ensures bad { result ≡ Bad → (received : List ℕ) → IsAtHead received reader.old
            → HasNoFinalHead (received ++ self.old) }
        ensures none_more { length self.new ≤ length self.old }
    {
        match reader.take(alloc, self.waiting()) {
            HeadsRead::Whole { head, used } => {
                self.pass(used);
                HeadsRead::Whole { head, used }
            }
            HeadsRead::More => {
                self.clear();
                HeadsRead::More
            }
            HeadsRead::Bad => HeadsRead::Bad,
            HeadsRead::NoMemory => HeadsRead::NoMemory,
        }
    }
}
