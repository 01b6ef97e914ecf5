// The heads of a reply, as they come.
ghost use Rattle.std.specs.Prelude.{◌≡◌, ◌⊎◌, ◌↔◌, ◌<◌, ◌≤◌, ◌+◌, ◌++◌, [], List, ℕ, true, false, Ok, length, take, drop, Contains, IsTrue, IsFalse, OnOk};
ghost use Rattle.http_heads.specs.declared.limits.TheConstants.{MAX_HEAD_BYTES};
ghost use Rattle.http_heads.specs.Heads.{IfWhole, IsHead, IsUnfinished};
ghost use Rattle.http_heads.specs.declared.head.HeadRead.TheVariants.{More as Unfinished, Bad as NoHead};
ghost use Rattle.reply_reader.specs.Heads.{is_interim, line_feed, IsHeadDue, HasFinalHead, HasNoFinalHead, IsHeadless, IsBehindInterims, IsAtHead, IfFinal};
ghost use Rattle.reply_reader.specs.declared.heads.HeadsRead.TheVariants.{More, Bad};

use dl_kinds::NoMemory;
use http_heads::{Head, HeadRead, MAX_HEAD_BYTES, heads_are_one_and_stay, read_head};
use range_http::has_empty_line;
use std::alloc::Global;

/// Reads the heads of a reply as they come: interim ones, and the final one.
#[derive(Debug, Drop)]
pub struct HeadReader {
    /// How many interim heads came.
    interims: u8,
    /// Whether the first line of the stream came.
    line: bool,
    /// What came behind the interim heads.
    bytes: Vec<u8>,
}

/// What a piece of the stream brought.
#[derive(Debug, Drop)]
pub enum HeadsRead {
    /// The final head, whose end took so many bytes of the piece.
    Whole { head: Head, used: u32 },
    /// The final head didn't come yet. Whether it still can is only seen where it may have ended, where the first line
    /// ends, and by [`is_due`](HeadReader::is_due).
    More,
    /// No head, or one of more than 65,536 bytes or 64 fields, or a ninth interim head.
    Bad,
    NoMemory,
}

/// The most interim heads of a reply.
pub const INTERIM_LIMIT: u8 = 8;

// Whether a head tells that another one follows.
fn is_interim(head: &Head) -> bool
    ensures { result ≡ is_interim head.now }
{
    100 <= head.status && head.status < 200
}

// Whether a head may end behind a place up to which there is none.
fn may_end_head(bytes: &[u8], from: usize) -> bool
    requires { from ≤ length bytes.now }
    ensures headless { IsFalse result → IsHeadless (take from bytes.now) → IsHeadless bytes.now }
    ensures short { IsFalse result → length bytes.now < MAX_HEAD_BYTES }
{
    heads_are_one_and_stay();
    bytes.len() >= MAX_HEAD_BYTES || has_empty_line(bytes, from)
}

fn drop_front(bytes: &mut Vec<u8>, count: usize)
    requires { count ≤ length bytes.old.items }
    ensures { bytes.new.items ≡ drop count bytes.old.items }
{
    bytes.drain(..count);
}

impl HeadReader {
    pub fn new(alloc: Global) -> Self
        ensures at { IsAtHead [] result }
        ensures due { IsHeadDue [] }
    {
        HeadReader {
            interims: 0,
            line: false,
            bytes: Vec::new(alloc),
        }
    }

    // Whether the first line of the stream ends in the next piece.
    fn ends_line(&mut self, piece: &[u8]) -> bool
        ensures ends { IsTrue result ↔ (IsFalse self.old.line × Contains piece.now line_feed) }
        ensures line { IsTrue self.new.line ↔ (IsTrue self.old.line ⊎ Contains piece.now line_feed) }
        ensures interims { self.new.interims ≡ self.old.interims }
        ensures bytes { self.new.bytes ≡ self.old.bytes }
    {
        if self.line {
            return false;
        }
        self.line = piece.contains(&b'\n');
        self.line
    }

    // Keeps the next piece behind what came.
    fn keep(&mut self, piece: &[u8]) -> Result<(), NoMemory>
        ensures items { OnOk result (self.new.bytes.items ≡ self.old.bytes.items ++ piece.now) }
        ensures behind { OnOk result ((received : List ℕ) → IsBehindInterims received self.old
            → IsBehindInterims (received ++ piece.now) self.new) }
        ensures line { self.new.line ≡ self.old.line }
    {
        heads_are_one_and_stay();
        self.bytes.extend_from_slice(piece)
    }

    // Passes over the interim heads at the front, and reads the one behind them.
    fn read_on(&mut self, alloc: Global) -> HeadRead
        ensures behind { (received : List ℕ) → IsBehindInterims received self.old
            → IsBehindInterims received self.new }
        ensures whole { IfWhole result
            (λ head used. IsHead self.new.bytes.items head used
            × (used ≤ length self.new.bytes.items)) }
        ensures last { IfWhole result (λ head _. is_interim head ≡ false) }
        ensures more { result ≡ Unfinished → IsUnfinished self.new.bytes.items }
        ensures bad { result ≡ NoHead → (received : List ℕ) → IsBehindInterims received self.old
            → HasNoFinalHead received }
        ensures line { self.new.line ≡ self.old.line }
    {
        'turns: loop {
            match read_head(alloc, &self.bytes) {
                HeadRead::Whole { head, used } => {
                    if !is_interim(&head) {
                        return HeadRead::Whole { head, used };
                    }
                    if self.interims >= INTERIM_LIMIT {
                        return HeadRead::Bad;
                    }
                    self.interims += 1;
                    drop_front(&mut self.bytes, used as usize);
                }
                read => return read,
            }
        }
    }

    /// Takes the next piece of the stream. After any answer but `More` the reader isn't used again.
    pub fn take(&mut self, alloc: Global, piece: &[u8]) -> HeadsRead
        requires { length piece.now ≤ MAX_HEAD_BYTES }
        ensures whole { (received : List ℕ) → IsAtHead received self.old
            → IfFinal result (λ head used.
            HasFinalHead (received ++ piece.now) head (length received + used)) }
        ensures within { IfFinal result (λ _ used. used ≤ length piece.now) }
        ensures more { result ≡ More → (received : List ℕ) → IsAtHead received self.old
            → IsAtHead (received ++ piece.now) self.new }
        ensures bad { result ≡ Bad → (received : List ℕ) → IsAtHead received self.old
            → HasNoFinalHead (received ++ piece.now) }
        // A stream of another protocol is told by the piece that ends its first line.
        ensures first_line { result ≡ More → (received : List ℕ) → IsAtHead received self.old
            → (Contains received line_feed → ⊥) → Contains piece.now line_feed
            → IsHeadDue (received ++ piece.now) }
    {
        heads_are_one_and_stay();
        let from = self.bytes.len();
        let ends_line = self.ends_line(piece);
        let Ok(()) = self.keep(piece) else {
            return HeadsRead::NoMemory;
        };
        if !ends_line && !may_end_head(&self.bytes, from) {
            return HeadsRead::More;
        }
        match self.read_on(alloc) {
            HeadRead::Whole { head, used } => {
                // The head ends in the piece, since no head stood before it.
                let behind = self.bytes.len() - used as usize;
                let used = piece.len().saturating_sub(behind) as u32;
                HeadsRead::Whole { head, used }
            }
            HeadRead::More => HeadsRead::More,
            HeadRead::Bad => HeadsRead::Bad,
            HeadRead::NoMemory => HeadsRead::NoMemory,
        }
    }

    /// How many more bytes are asked for while the head is due, so that no more come than the longest head has.
    pub fn most_asked(&self) -> u32
        ensures some { 0 < result }
        ensures few { result ≤ MAX_HEAD_BYTES }
        ensures room { (received : List ℕ) → IsAtHead received self.now
            → result + length self.now.bytes.items ≡ MAX_HEAD_BYTES }
    {
        let room = MAX_HEAD_BYTES.saturating_sub(self.bytes.len());
        room.max(1) as u32
    }

    /// Whether the final head can still come. It reads all bytes again: ask it once, where no more of the stream is read.
    pub fn is_due(&self, alloc: Global) -> Result<bool, NoMemory>
        ensures due { result ≡ Ok true → (received : List ℕ) → IsAtHead received self.now
            → IsHeadDue received }
        ensures none { result ≡ Ok false → (received : List ℕ) → IsAtHead received self.now
            → HasNoFinalHead received }
    {
        match read_head(alloc, &self.bytes) {
            HeadRead::More => Ok(true),
            // No whole head stands there.
            HeadRead::Bad | HeadRead::Whole { .. } => Ok(false),
            HeadRead::NoMemory => Err(NoMemory),
        }
    }
}
