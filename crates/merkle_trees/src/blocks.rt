// The leaves of bytes.
ghost use Rattle.std.specs.Prelude.{◌≡◌, ◌*◌, ◌<◌, ◌≤◌, length, IfOk};
ghost use Rattle.std.specs.Int.{div_ceil};
ghost use Rattle.sha2.specs.Sha256.{sha256};
ghost use Rattle.dl_kinds.specs.declared.plan.TheConstants.{BLOCK_LEN};
ghost use Rattle.merkle_trees.specs.Leaves.{block_at, leaves_of};

use crate::{Hashes, SHA256_LEN};
use dl_kinds::BLOCK_LEN;
use sha2::{Digest, Sha256};
use std::alloc::{AllocError, Global};
use std::thread::{Threads, for_each_mut};

// The leaf of the block at a place.
fn leaf(bytes: &[u8], place: usize) -> [u8; SHA256_LEN]
    requires { place * BLOCK_LEN < length bytes.now }
    ensures { result ≡ sha256 (block_at bytes.now place) }
{
    let rest = &bytes[place * BLOCK_LEN as usize..];
    Sha256::digest(&rest[..rest.len().min(BLOCK_LEN as usize)])
}

/// The leaf of each block of 16,384 bytes, and of a last one that may be shorter.
pub fn leaves(alloc: Global, bytes: &[u8]) -> Result<Hashes, AllocError>
    ensures { IfOk result (λ leaves. leaves ≡ leaves_of bytes.now) }
{
    let count = bytes.len().div_ceil(BLOCK_LEN as usize);
    let mut leaves = Vec::with_capacity(alloc, count)?;
    for place in 0..count {
        leaves.push(leaf(bytes, place))?;
    }
    Ok(Hashes::wrap(leaves))
}

// Hashes each block into its place, by at most so many threads at once.
fn hash_blocks<R: Threads + Sync>(
    rt: &R,
    bytes: &[u8],
    threads: usize,
    into: &mut [[u8; SHA256_LEN]],
)
    requires threads { 1 ≤ threads }
    requires room { length into.old ≡ div_ceil (length bytes.now) BLOCK_LEN }
    ensures { into.new ≡ leaves_of bytes.now }
{
    for_each_mut(
        rt,
        into,
        threads,
        &|place, hash| {
            *hash = leaf(bytes, place);
        },
    );
}

/// The same leaves, by at most so many threads at once.
pub fn leaves_at_once<R: Threads + Sync>(
    rt: &R,
    alloc: Global,
    bytes: &[u8],
    threads: usize,
) -> Result<Hashes, AllocError>
    requires { 1 ≤ threads }
    ensures { IfOk result (λ leaves. leaves ≡ leaves_of bytes.now) }
{
    let count = bytes.len().div_ceil(BLOCK_LEN as usize);
    let mut leaves = vec![in alloc; [0; SHA256_LEN]; count]?;
    hash_blocks(rt, bytes, threads, &mut leaves);
    Ok(Hashes::wrap(leaves))
}
