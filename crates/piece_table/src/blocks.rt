// The blocks of a run, taken out of a row.
ghost use Rattle.std.specs.Prelude.{◌≡◌, ◌<◌, ◌≤◌, ◌+◌, ◌*◌, ◌^◌, false, length};
ghost use Rattle.dl_kinds.specs.Plan.{blocks_of};
ghost use Rattle.piece_table.specs.Steps.{filled};
ghost use Rattle.piece_table.specs.Sums.{block_bytes, sum_where};

use bit_rows::BitRow;
use dl_kinds::{Plan, Run};

/// Takes the blocks of the run out of the row, and gives their bytes.
pub fn take_out(plan: &Plan, landed: &mut BitRow, run: Run) -> u64
    requires row { length landed.old ≡ blocks_of plan.now.total plan.now.piece_len }
    requires within { run.first + run.count ≤ blocks_of plan.now.total plan.now.piece_len }
    ensures row { landed.new ≡ filled false run.first run.count landed.old }
    ensures bytes { result + sum_where (block_bytes plan.now.total plan.now.piece_len) landed.new
        ≡ sum_where (block_bytes plan.now.total plan.now.piece_len) landed.old }
{
    let mut bytes = 0;
    for block in run.first..run.first + run.count {
        if landed.get(block) {
            landed.clear(block);
            bytes += plan.block_span(block).1 as u64;
        }
    }
    bytes
}
