// The bytes of a load, made as they are asked for.
ghost use Rattle.std.specs.Prelude.{◌≡◌, ◌+◌, ◌-◌, ◌≤◌, ◌<◌, ◌^◌, ◌++◌, min, IfOk, OnOk};
ghost use Rattle.link_source.specs.Load.{load_part, load_word};

use rand_core::{Rng, SeedableRng};
use rand_xoshiro::SplitMix64;
use std::alloc::{AllocError, Global};

/// By how much the state of SplitMix64 grows with each word.
const GAMMA: u64 = 0x9E37_79B9_7F4A_7C15;

/// The bytes of a word.
const WORD: u64 = 8;

// The word of this number of a load.
fn load_word(n: u64, number: u64) -> u64
    ensures { result ≡ load_word n number }
{
    SplitMix64::seed_from_u64(n.wrapping_add(number.wrapping_mul(GAMMA))).next_u64()
}

// Adds the bytes from a place on, up to the end of their word or to this one, and tells how many.
fn add_word(bytes: &mut Vec<u8>, n: u64, place: u64, end: u64) -> Result<u64, AllocError>
    requires { place < end }
    ensures some { IfOk result (λ count. (0 < count) × (place + count ≤ end)) }
    ensures added { IfOk result (λ count.
        bytes.new.items ≡ bytes.old.items ++ load_part n place count) }
{
    let word = load_word(n, place / WORD).to_le_bytes();
    let skipped = place % WORD;
    let count = (WORD - skipped).min(end - place);
    bytes.extend_from_slice(&word[skipped as usize..(skipped + count) as usize])?;
    Ok(count)
}

/// So many bytes of the load of a number, from a place on.
pub fn load_part(alloc: Global, n: u64, first: u64, count: u64) -> Result<Vec<u8>, AllocError>
    requires { first + count < 2 ^ 64 }
    ensures { IfOk result (λ bytes. bytes.items ≡ load_part n first count) }
{
    let end = first + count;
    let mut bytes = Vec::with_capacity(alloc, count as usize)?;
    let mut place = first;
    while place < end {
        place += add_word(&mut bytes, n, place, end)?;
    }
    Ok(bytes)
}
