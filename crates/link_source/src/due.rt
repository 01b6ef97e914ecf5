// What a stream has still to give.
ghost use Rattle.std.specs.Prelude.{◌≡◌, ◌≤◌, ◌↔◌, [], length, drop, IsTrue};

use std::alloc::Global;
use std::marker::Model;

/// Bytes that are given out from the front.
#[derive(Debug, Drop)]
pub struct Due {
    bytes: Vec<u8>,
    given: usize,
}

impl Model for Due {
    ghost use Rattle.std.specs.Prelude.{List, ℕ, ◌≤◌, length, drop};

    ghost Value = { List ℕ };

    ghost view = { λ due. drop due.given due.bytes.items };

    ghost invariant = { λ due. due.given ≤ length due.bytes.items };
}

impl Due {
    pub fn new(alloc: Global) -> Self
        ensures { result ≡ [] }
    {
        Due {
            bytes: Vec::new(alloc),
            given: 0,
        }
    }

    pub fn bytes(&self) -> &[u8]
        ensures { result.now ≡ self.now }
    {
        &self.bytes[self.given..]
    }

    /// All of the bytes.
    pub fn of(bytes: Vec<u8>) -> Self
        ensures { result ≡ bytes.items }
    {
        Due { bytes, given: 0 }
    }

    pub fn is_empty(&self) -> bool
        ensures { IsTrue result ↔ (self.now ≡ []) }
    {
        self.bytes().is_empty()
    }

    /// Gives so many bytes out.
    pub fn give(&mut self, count: usize)
        requires { count ≤ length self.old }
        ensures { self.new ≡ drop count self.old }
    {
        self.given += count;
    }
}
