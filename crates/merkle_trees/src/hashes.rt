// Rows of SHA-256 hashes.
ghost use Rattle.std.specs.Prelude.{◌≡◌, ◌==◌, ◌++◌, ◌∷◌, [], length, IfOk, OnOk, OnErr, slice_get, option_copied};

use std::alloc::{AllocError, Global};
use std::marker::Model;

/// The bytes of a SHA-256 hash.
pub const SHA256_LEN: usize = 32;

/// A row of SHA-256 hashes: the leaves of a piece, or the roots of pieces, which BEP 52 calls a piece layer.
#[derive(Debug, Drop)]
pub struct Hashes {
    hashes: Vec<[u8; SHA256_LEN]>,
}

impl Model for Hashes {
    ghost use Rattle.std.specs.Prelude.{List, ℕ};

    ghost Value = { List (List ℕ) };

    ghost view = { λ h. h.hashes.items };
}

impl Hashes {
    /// A row of none.
    pub fn new(alloc: Global) -> Self
        ensures { result ≡ [] }
    {
        Hashes {
            hashes: Vec::new(alloc),
        }
    }

    /// A row of these hashes.
    pub fn wrap(hashes: Vec<[u8; SHA256_LEN]>) -> Self
        ensures { result ≡ hashes.items }
    {
        Hashes { hashes }
    }

    /// Adds a hash at the end, in memory of the allocator that the row was made with.
    pub fn push(&mut self, hash: [u8; SHA256_LEN]) -> Result<(), AllocError>
        ensures ok { OnOk result (self.new ≡ self.old ++ hash ∷ []) }
        ensures err { OnErr result (self.new ≡ self.old) }
    {
        self.hashes.push(hash)?;
        Ok(())
    }

    pub fn len(&self) -> usize
        ensures { result ≡ length self.now }
    {
        self.hashes.len()
    }

    pub fn is_empty(&self) -> bool
        ensures { result ≡ (length self.now == 0) }
    {
        self.hashes.is_empty()
    }

    /// The hash at this place, from 0.
    pub fn get(&self, place: usize) -> Option<&[u8; SHA256_LEN]>
        ensures { option_copied result ≡ slice_get self.now place }
    {
        self.hashes.get(place)
    }

    pub fn as_slice(&self) -> &[[u8; SHA256_LEN]]
        ensures { result.now ≡ self.now }
    {
        &self.hashes
    }
}
