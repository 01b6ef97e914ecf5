// How many pieces of a payload are right.
ghost use Rattle.std.specs.Prelude.{◌≡◌, ◌+◌, ◌≤◌, ◌<◌, length, count_by, IfOk};
ghost use Rattle.dl_kinds.specs.Lists.{part_at};
ghost use Rattle.load_setup.specs.Payload.{piece_in, pieces_in, right_from, right_pieces};
ghost use Rattle.load_setup.specs.declared.payload.TheConstants.{PIECE, PIECES};
ghost use Rattle.load_setup.specs.declared.counting.TheConstants.{GROUP};

use crate::payload::{PIECE, PIECES};
use dl_kinds::{Blob, Digests};
use std::alloc::{AllocError, Global};
use std::marker::Sync;
use std::thread::Threads;
use verify_piece::check_all;

/// How many pieces are compared at once.
const GROUP: u64 = 16;

// What stands of a payload where a piece is to stand.
fn piece_in(payload: &[u8], piece: u64) -> &[u8]
    requires { piece < PIECES }
    ensures { result.now ≡ piece_in payload.now piece }
{
    let start = payload.len().min((piece * PIECE) as usize);
    let end = payload.len().min(start + PIECE as usize);
    &payload[start..end]
}

// .. of a group of pieces from this one on.
fn group_in(alloc: Global, payload: &[u8], first: u64) -> Result<Vec<Blob>, AllocError>
    requires { first + GROUP ≤ PIECES }
    ensures { IfOk result (λ pieces. pieces.items ≡ pieces_in payload.now first GROUP) }
{
    let mut pieces = Vec::with_capacity(alloc, GROUP as usize)?;
    for place in 0..GROUP {
        pieces.push(Blob::of(alloc, piece_in(payload, first + place))?)?;
    }
    Ok(pieces)
}

// The digests of the same pieces.
fn group_of(alloc: Global, digests: &Digests, first: u64) -> Result<Digests, AllocError>
    requires within { first + GROUP ≤ PIECES }
    requires all { length digests.now ≡ PIECES }
    ensures { IfOk result (λ group. group ≡ part_at digests.now first GROUP) }
{
    let mut group = Digests::new(alloc);
    for place in 0..GROUP {
        if let Some(digest) = digests.get((first + place) as usize) {
            group.push(*digest)?;
        }
    }
    Ok(group)
}

fn count_true(answers: &[bool]) -> u64
    ensures { result ≡ count_by (λ answer. answer) answers.now }
{
    answers.iter().filter(|answer| **answer).count() as u64
}

// How many pieces of a group are right.
fn count_group<R: Threads + Sync>(
    rt: &R,
    alloc: Global,
    digests: &Digests,
    payload: &[u8],
    first: u64,
) -> Result<u64, AllocError>
    requires within { first + GROUP ≤ PIECES }
    requires all { length digests.now ≡ PIECES }
    ensures { IfOk result (λ count. count ≡ right_from digests.now payload.now first GROUP) }
{
    let pieces = group_in(alloc, payload, first)?;
    let answers = check_all(rt, alloc, &pieces, &group_of(alloc, digests, first)?)?;
    Ok(count_true(&answers))
}

/// How many pieces of a payload have these digests. Threads share the work, a group of pieces at a time.
pub fn count_right<R: Threads + Sync>(
    rt: &R,
    alloc: Global,
    digests: &Digests,
    payload: &[u8],
) -> Result<u64, AllocError>
    requires { length digests.now ≡ PIECES }
    ensures { IfOk result (λ count. count ≡ right_pieces digests.now payload.now) }
{
    let mut count = 0;
    for group in 0..PIECES / GROUP {
        count += count_group(rt, alloc, digests, payload, group * GROUP)?;
    }
    Ok(count)
}
