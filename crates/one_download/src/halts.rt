// The claims of a download end.
ghost use Rattle.std.specs.Prelude.{◌≡◌, ◌<◌, ◌≤◌, ℕ, List, Bool, None, [], length, slice_get, slice_index_or};
ghost use Rattle.dl_history.specs.Accounts.{Account, without_sole, without_soles};
ghost use Rattle.one_download.specs.DownloadViews.{IsUnverified};
ghost use Rattle.one_download.specs.PayloadViews.{with_parts};
ghost use Rattle.segment_claim.specs.Book.{first_open_at};
ghost use Rattle.segment_claim.specs.Situation.{IsTableOfClaims};

use dl_kinds::{Plan, plan_laws};
use piece_table::Table;
use segment_claim::{Claims, MAX_SPLIT};

// The first block that is open in each claim that stands, the newest first.
fn first_blocks(claims: &Claims, table: &Table) -> [Option<u32>; MAX_SPLIT as usize]
    requires { IsTableOfClaims claims.now table.now }
    ensures { (place : ℕ) → place < length claims.now.standing
        → slice_index_or result place None ≡ first_open_at claims.now table.now.landed place }
{
    let mut firsts = [None; MAX_SPLIT as usize];
    for place in 0..claims.standing() {
        firsts[place as usize] = claims.first_open_at(place, table);
    }
    firsts
}

// A claim ends whose first open block is of this piece. What it gave of a sole piece goes.
fn end_sole(table: &mut Table, claims: &mut Claims, piece: u32)
    requires piece { IsUnverified table.old piece }
    requires together { IsTableOfClaims claims.old table.old }
    ensures account { (k : Account) (row : List Bool) → with_parts k table.new claims.new row
        ≡ without_sole (with_parts k table.old claims.old row) piece }
    ensures verified { table.new.verified ≡ table.old.verified }
    ensures together { IsTableOfClaims claims.new table.new }
    ensures total { table.new.total ≡ table.old.total }
    ensures piece_len { table.new.piece_len ≡ table.old.piece_len }
    ensures room { claims.new.spare ≡ claims.old.spare }
{
    if table.is_sole(piece) {
        table.clear(piece);
        claims.cleared(piece);
    }
}

/// What the claims that stand gave of sole pieces goes.
pub fn end_soles(plan: &Plan, table: &mut Table, claims: &mut Claims)
    requires total { plan.now.total ≡ table.old.total }
    requires piece_len { plan.now.piece_len ≡ table.old.piece_len }
    requires together { IsTableOfClaims claims.old table.old }
    ensures account { (k : Account) (row : List Bool) → with_parts k table.new claims.new row
        ≡ without_soles (with_parts k table.old claims.old row) claims.old.standing }
    ensures total { table.new.total ≡ table.old.total }
    ensures piece_len { table.new.piece_len ≡ table.old.piece_len }
    ensures together { IsTableOfClaims claims.new table.new }
    ensures room { claims.new.spare ≡ claims.old.spare }
{
    plan_laws();
    let _ = table.blocks();
    let firsts = first_blocks(claims, table);
    let count = claims.standing();
    for done in 0..count {
        match firsts[(count - 1 - done) as usize] {
            Some(block) => end_sole(table, claims, plan.piece_of(block)),
            None => {}
        }
    }
}
