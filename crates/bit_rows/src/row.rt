// A row of truth values.
ghost use Rattle.std.specs.Prelude.{◌≡◌, ◌≢◌, ◌↔◌, ◌==◌, ◌<◌, ◌≤◌, ◌+◌, ◌^◌, ℕ, true, false, length, Some, replicate, slice_get, slice_set, count_by, Contains, IfOk, IfSome, IfNone, IsErrOf, OnOk};
ghost use Rattle.bit_rows.specs.Row.{bytes_for, row_bytes, row_of, spare_bits};
ghost use Rattle.bit_rows.specs.Runs.{IsTrueFrom, IsFirstRun};
ghost use Rattle.bit_rows.specs.declared.row.BitErr.TheVariants.{Length, Spare, NoMemory};

use crate::bits::{bit, clear_bit, count_set, is_any_set, set_bit};
use std::alloc::{AllocError, AllocFailed, Global};
use std::marker::Model;
use thiserror::Error;

/// Why bytes are no row.
#[derive(Clone, Copy, Debug, PartialEq, Eq, Error)]
pub enum BitErr {
    #[error("a row of this length has another number of bytes")]
    Length,
    #[error("a spare bit is 1")]
    Spare,
    #[error("out of memory")]
    NoMemory,
}

impl From<AllocError> for BitErr {
    ghost from_gives = { λ _ e. e ≡ NoMemory };

    fn from(_: AllocError) -> Self {
        BitErr::NoMemory
    }
}

/// A row of truth values. Place 0 is the highest bit of byte 0, and the spare bits of the last byte are 0.
#[derive(Debug, Drop)]
pub struct BitRow {
    bytes: Vec<u8>,
    len: u32,
    // How many of them are true.
    ones: u32,
}

impl Model for BitRow {
    ghost use Rattle.std.specs.Prelude.{List, Bool};
    ghost use Rattle.bit_rows.specs.Row.{row_of};
    ghost use Rattle.bit_rows.specs.Kept.{KeepsRow};

    ghost Value = { List Bool };

    ghost view = { λ r. row_of r.len r.bytes.items };

    ghost invariant = { λ r. KeepsRow r.bytes.items r.len r.ones };
}

impl BitRow {
    /// A row of this length, all of it false.
    pub fn new(alloc: Global, n: u32) -> Result<BitRow, AllocError>
        ensures { IfOk result (λ row. row ≡ replicate n false) }
    {
        Ok(BitRow {
            bytes: vec![in alloc; 0; n.div_ceil(8) as usize]?,
            len: n,
            ones: 0,
        })
    }

    /// The row of the first `n` bits of the bytes. There have to be as many bytes as hold `n` bits (Length), and the
    /// bits behind the row have to be 0 (Spare).
    pub fn from_bytes(alloc: Global, bytes: &[u8], n: u32) -> Result<BitRow, BitErr>
        ensures row { IfOk result (λ row. row ≡ row_of n bytes.now) }
        ensures packed { IfOk result (λ row. row_bytes row ≡ bytes.now) }
        ensures len { IfOk result (λ row. length row ≡ n) }
        ensures fits { OnOk result (length bytes.now ≡ bytes_for n) }

        // Each refusal comes exactly there.
        ensures length { IsErrOf result Length ↔ (length bytes.now ≢ bytes_for n) }
        ensures spare { IsErrOf result Spare
            ↔ (length bytes.now ≡ bytes_for n) × Contains (spare_bits n bytes.now) true }
    {
        if bytes.len() != n.div_ceil(8) as usize {
            return Err(BitErr::Length);
        }
        if is_any_set(bytes, n as usize) {
            return Err(BitErr::Spare);
        }
        Ok(BitRow {
            bytes: bytes.to_vec(alloc)?,
            len: n,
            ones: count_set(bytes),
        })
    }

    pub fn len(&self) -> u32
        ensures { result ≡ length self.now }
    {
        self.len
    }

    pub fn is_empty(&self) -> bool
        ensures { result ≡ (length self.now == 0) }
    {
        self.len() == 0
    }

    /// The value at this place.
    pub fn get(&self, i: u32) -> bool
        requires { i < length self.now }
        ensures { slice_get self.now i ≡ Some result }
    {
        bit(&self.bytes, i as usize)
    }

    /// Makes the value at this place true.
    pub fn set(&mut self, i: u32)
        requires { i < length self.old }
        ensures { self.new ≡ slice_set self.old i true }
    {
        if !self.get(i) {
            set_bit(&mut self.bytes, i as usize);
            self.ones += 1;
        }
    }

    /// Makes the value at this place false.
    pub fn clear(&mut self, i: u32)
        requires { i < length self.old }
        ensures { self.new ≡ slice_set self.old i false }
    {
        if self.get(i) {
            clear_bit(&mut self.bytes, i as usize);
            self.ones -= 1;
        }
    }

    /// How many values are true, in one step.
    pub fn count_ones(&self) -> u32
        ensures { result ≡ count_by (λ bit. bit) self.now }
    {
        self.ones
    }

    // How many places from `at` on surely aren't `wanted`: none where the value at `at` is, 8 where the whole byte
    // isn't.
    fn others(&self, at: u32, wanted: bool) -> u32
        requires { at < length self.now }
        ensures few { result ≤ 8 }
        ensures found { result ≡ 0 → slice_get self.now at ≡ Some wanted }
        ensures passed { (place : ℕ) → at ≤ place → place < at + result
            → slice_get self.now place ≢ Some wanted }
    {
        let other = if wanted { 0 } else { 255 };
        if at % 8 == 0 && self.bytes[at as usize / 8] == other {
            8
        } else if self.get(at) == wanted {
            0
        } else {
            1
        }
    }

    /// The first place from `from` to before `to` with this value, or `to` where there is none.
    pub fn next_within(&self, from: u32, to: u32, wanted: bool) -> u32
        requires { to ≤ length self.now }
        ensures within { result ≤ to }
        ensures found { result < to → slice_get self.now result ≡ Some wanted }
        ensures later { result < to → from ≤ result }
        ensures passed { (place : ℕ) → from ≤ place → place < result
            → slice_get self.now place ≢ Some wanted }
    {
        let mut at = from as u64;
        while at < to as u64 {
            let others = self.others(at as u32, wanted);
            if others == 0 {
                return at as u32;
            }
            at += others as u64;
        }
        to
    }

    // The first place from `from` on with this value, or the row's length where there is none.
    fn next(&self, from: u32, wanted: bool) -> u32
        ensures within { result ≤ length self.now }
        ensures found { result < length self.now → slice_get self.now result ≡ Some wanted }
        ensures later { result < length self.now → from ≤ result }
        ensures passed { (place : ℕ) → from ≤ place → place < result
            → slice_get self.now place ≢ Some wanted }
    {
        self.next_within(from, self.len(), wanted)
    }

    /// The first place, from `from` on, and the length of the first maximal run of false that holds `from` or follows
    /// it. A run that begins earlier counts from `from` on.
    pub fn first_zero_run(&self, from: u32) -> Option<(u32, u32)>
        ensures found { IfSome result (λ run. IsFirstRun self.now from run.0 run.1) }
        ensures none { IfNone result (IsTrueFrom self.now from) }
    {
        let first = self.next(from, false);
        if first == self.len() {
            return None;
        }
        Some((first, self.next(first, true) - first))
    }

    /// Its bytes: place 0 is the highest bit of the first one, and the spare bits of the last one are 0.
    pub fn bytes(&self) -> &[u8]
        ensures packed { result.now ≡ row_bytes self.now }
        ensures row { row_of (length self.now) result.now ≡ self.now }
    {
        // Named, since a proof knows the items of a named slice to be bytes.
        let bytes: &[u8] = &self.bytes;
        bytes
    }

    pub fn copy(&self, alloc: Global) -> Result<BitRow, AllocError>
        ensures { IfOk result (λ copy. copy ≡ self.now) }
    {
        Ok(BitRow {
            bytes: self.bytes.to_vec(alloc)?,
            len: self.len,
            ones: self.ones,
        })
    }
}
