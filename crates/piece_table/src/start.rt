// What a table counts at its start.
ghost use Rattle.std.specs.Prelude.{◌≡◌, ◌<◌, ◌≤◌, ◌+◌, ◌^◌, length, map, count_by, IfOk};
ghost use Rattle.dl_kinds.specs.Plan.{blocks_of, pieces_of};
ghost use Rattle.dl_kinds.specs.declared.plan.TheConstants.{MAX_PIECE_BLOCKS};
ghost use Rattle.dl_kinds.specs.Lists.{part_at};
ghost use Rattle.piece_table.specs.Kept.{AreCounts};
ghost use Rattle.piece_table.specs.Steps.{giver_at_start};
ghost use Rattle.piece_table.specs.Sums.{block_bytes, piece_bytes, sum_where};

use crate::Giver;
use bit_rows::BitRow;
use dl_kinds::{Plan, Run};
use std::alloc::{AllocError, Global};

// How many blocks of the run are landed.
fn count_landed(landed: &BitRow, run: Run) -> u16
    requires few { run.count ≤ MAX_PIECE_BLOCKS }
    requires within { run.first + run.count ≤ length landed.now }
    requires bounded { run.first + run.count < 2 ^ 32 }
    ensures { result ≡ count_by (λ is. is) (part_at landed.now run.first run.count) }
{
    let mut count = 0;
    for block in run.first..run.first + run.count {
        if landed.get(block) {
            count += 1;
        }
    }
    count
}

/// The number of each piece's landed blocks.
pub fn counts_of(alloc: Global, plan: &Plan, landed: &BitRow) -> Result<Vec<u16>, AllocError>
    requires { length landed.now ≡ blocks_of plan.now.total plan.now.piece_len }
    ensures { IfOk result
        (λ held. AreCounts plan.now.total plan.now.piece_len landed.now held.items) }
{
    let mut held = Vec::with_capacity(alloc, plan.pieces as usize)?;
    for piece in 0..plan.pieces {
        held.push(count_landed(landed, plan.piece_run(piece)))?;
    }
    Ok(held)
}

/// Who gave the landed blocks of each piece.
pub fn givers_of(alloc: Global, held: &[u16]) -> Result<Vec<Giver>, AllocError>
    ensures { IfOk result (λ givers. givers.items ≡ map giver_at_start held.now) }
{
    held.iter()
        .map(|count| {
            if *count == 0 {
                Giver::Nobody
            } else {
                Giver::Mixed
            }
        })
        .collect(alloc)
}

/// The bytes of the landed blocks.
pub fn landed_bytes(plan: &Plan, landed: &BitRow) -> u64
    requires { length landed.now ≡ blocks_of plan.now.total plan.now.piece_len }
    ensures { result ≡ sum_where (block_bytes plan.now.total plan.now.piece_len) landed.now }
{
    let mut bytes = 0;
    for block in 0..plan.blocks() {
        if landed.get(block) {
            bytes += plan.block_span(block).1 as u64;
        }
    }
    bytes
}

/// The bytes of the verified pieces.
pub fn verified_bytes(plan: &Plan, verified: &BitRow) -> u64
    requires { length verified.now ≡ pieces_of plan.now.total plan.now.piece_len }
    ensures { result ≡ sum_where (piece_bytes plan.now.total plan.now.piece_len) verified.now }
{
    let mut bytes = 0;
    for piece in 0..plan.pieces {
        if verified.get(piece) {
            bytes += plan.piece_span(piece).1 as u64;
        }
    }
    bytes
}
