// What a client in memory sends, and what it was sent.
ghost use Rattle.std.specs.Prelude.{◌≡◌, ◌++◌, length, nat_lt, take, min, OnOk, OnErr};
ghost use Rattle.door_source.specs.Doors.{met, left_of};

use dl_kinds::Blob;
use std::alloc::{AllocError, Global};
use std::marker::Model;

/// One client.
#[derive(Debug, Drop)]
pub struct MemSession {
    whole: Blob,
    given: usize,
    sent: Vec<u8>,
}

impl Model for MemSession {
    ghost use Rattle.std.specs.Prelude.{◌≤◌, length, take};
    ghost use Rattle.door_source.specs.Doors.{Connection};

    ghost Value = { Connection };

    ghost view = { λ session. record {
      received = take session.given session.whole;
      sent = session.sent.items;
      whole = session.whole;
    } };

    ghost invariant = { λ session. session.given ≤ length session.whole };
}

impl MemSession {
    pub fn new(alloc: Global, whole: Blob) -> Self
        ensures { result ≡ met whole }
    {
        MemSession {
            whole,
            given: 0,
            sent: Vec::new(alloc),
        }
    }

    /// Gives the next bytes, at most `cut` of them, and tells how many.
    pub fn give(&mut self, into: &mut [u8], cut: usize) -> usize
        ensures count { result ≡ min (min (length (left_of self.old)) (length into.old)) cut }
        ensures bytes { take result into.new ≡ take result (left_of self.old) }
        ensures front { self.old.whole ≡ self.old.received ++ left_of self.old }
        ensures given { self.new ≡ record self.old
            { received = self.old.received ++ take result into.new } }
    {
        let left = &self.whole.bytes()[self.given..];
        let count = left.len().min(into.len()).min(cut);
        into[..count].copy_from_slice(&left[..count]);
        self.given += count;
        count
    }

    /// Whether some bytes are left.
    pub fn has_more(&self) -> bool
        ensures { result ≡ nat_lt 0 (length (left_of self.now)) }
    {
        self.given < self.whole.bytes().len()
    }

    /// Keeps what is sent to the client.
    pub fn take(&mut self, bytes: &[u8]) -> Result<(), AllocError>
        ensures ok { OnOk result (self.new ≡ record self.old
            { sent = self.old.sent ++ bytes.now }) }
        ensures err { OnErr result (self.new ≡ self.old) }
    {
        self.sent.extend_from_slice(bytes)?;
        Ok(())
    }

    pub fn sent(&self) -> &[u8]
        ensures { result.now ≡ self.now.sent }
    {
        &self.sent
    }
}
