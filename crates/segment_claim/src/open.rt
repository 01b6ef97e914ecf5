// Which blocks are open in claims.
ghost use Rattle.std.specs.Prelude.{◌≡◌, ◌+◌, ◌<◌, ◌≤◌, ◌^◌, All, filter, length, true, vec_capacity};
ghost use Rattle.dl_kinds.specs.Plan.{blocks_of, pieces_of};
ghost use Rattle.piece_table.specs.NewRuns.{AreRunsOf};
ghost use Rattle.segment_claim.specs.Open.{first_open_in, is_open_in, is_underway};
ghost use Rattle.segment_claim.specs.Sound.{IsWithinBlocks};

use bit_rows::BitRow;
use dl_kinds::{Claim, Plan, Run};
use piece_table::NewRuns;

/// Whether a block is open in a claim.
pub fn is_open(plan: &Plan, landed: &BitRow, closed: &[u128], claim: &Claim, block: u32) -> bool
    requires row { length landed.now ≡ blocks_of plan.now.total plan.now.piece_len }
    requires pieces { length closed.now ≡ pieces_of plan.now.total plan.now.piece_len }
    requires within { claim.now.run.first + claim.now.run.count
        ≤ blocks_of plan.now.total plan.now.piece_len }
    ensures { result ≡ is_open_in plan.now.piece_len landed.now closed.now claim.now block }
{
    claim.run.first <= block
        && block < claim.run.first + claim.run.count
        && !landed.get(block)
        && closed[plan.piece_of(block) as usize] <= claim.id as u128
}

/// The first block that is open in a claim.
pub fn first_open(plan: &Plan, landed: &BitRow, closed: &[u128], claim: &Claim) -> Option<u32>
    requires row { length landed.now ≡ blocks_of plan.now.total plan.now.piece_len }
    requires pieces { length closed.now ≡ pieces_of plan.now.total plan.now.piece_len }
    requires within { claim.now.run.first + claim.now.run.count
        ≤ blocks_of plan.now.total plan.now.piece_len }
    ensures { result ≡ first_open_in plan.now.piece_len landed.now closed.now claim.now }
{
    let end = claim.run.first + claim.run.count;
    let mut from = claim.run.first;
    while from < end {
        // Claims land in order, so most of what comes first is landed: the row passes over many blocks at once.
        let block = landed.next_within(from, end, false);
        if block == end {
            return None;
        }
        if is_open(plan, landed, closed, claim, block) {
            return Some(block);
        }
        from = block + 1;
    }
    None
}

/// The blocks of a run, of at most 64, that are open in a claim.
pub fn open_runs(plan: &Plan, landed: &BitRow, closed: &[u128], claim: &Claim, run: Run) -> NewRuns
    requires row { length landed.now ≡ blocks_of plan.now.total plan.now.piece_len }
    requires pieces { length closed.now ≡ pieces_of plan.now.total plan.now.piece_len }
    requires within { claim.now.run.first + claim.now.run.count
        ≤ blocks_of plan.now.total plan.now.piece_len }
    requires few { run.count ≤ 64 }
    requires bounded { run.first + run.count < 2 ^ 32 }
    ensures { AreRunsOf
        (λ block. is_open_in plan.now.piece_len landed.now closed.now claim.now block ≡ true)
        run result }
{
    let mut runs = NewRuns::new();
    let mut last = Run {
        first: run.first,
        count: 0,
    };
    for block in run.first..run.first + run.count {
        if is_open(plan, landed, closed, claim, block) {
            last.count += 1;
        } else {
            runs.close(last);
            last = Run {
                first: block + 1,
                count: 0,
            };
        }
    }
    runs.close(last);
    runs
}

// Whether a block is open in a claim.
fn is_underway(plan: &Plan, landed: &BitRow, closed: &[u128], claim: &Claim) -> bool
    requires row { length landed.now ≡ blocks_of plan.now.total plan.now.piece_len }
    requires pieces { length closed.now ≡ pieces_of plan.now.total plan.now.piece_len }
    requires claim { IsWithinBlocks (blocks_of plan.now.total plan.now.piece_len) claim.now }
    ensures { result ≡ is_underway plan.now.piece_len landed.now closed.now claim.now }
{
    // Claims land in order, so the last block mostly is. Else one is looked for among those before it.
    let last = claim.run.first + claim.run.count - 1;
    if is_open(plan, landed, closed, claim, last) {
        return true;
    }
    first_open(plan, landed, closed, claim).is_some()
}

/// Takes out the claims in which no block is open.
pub fn sweep(plan: &Plan, landed: &BitRow, closed: &[u128], standing: &mut Vec<Claim>)
    requires row { length landed.now ≡ blocks_of plan.now.total plan.now.piece_len }
    requires pieces { length closed.now ≡ pieces_of plan.now.total plan.now.piece_len }
    requires within { All (IsWithinBlocks (blocks_of plan.now.total plan.now.piece_len))
        standing.old.items }
    ensures rest { standing.new.items
        ≡ filter (is_underway plan.now.piece_len landed.now closed.now) standing.old.items }
    ensures capacity { vec_capacity standing.new ≡ vec_capacity standing.old }
{
    let mut kept = 0;
    for at in 0..standing.len() {
        let claim = standing[at];
        if is_underway(plan, landed, closed, &claim) {
            standing[kept] = claim;
            kept += 1;
        }
    }
    standing.truncate(kept);
}
