// Rows that are written anew.
ghost use Rattle.std.specs.Prelude.{◌≡◌, ◌↔◌, ◌<◌, true, false, length, slice_set};
ghost use Rattle.dl_history.specs.Accounts.{listing_of};
ghost use Rattle.dl_kinds.specs.Plan.{IsPlan, blocks_of, pieces_of};
ghost use Rattle.one_download.specs.PayloadViews.{HasNoBlock};

use bit_rows::BitRow;
use dl_kinds::{Plan, plan_laws};
use piece_table::Table;

// Writes a value at a place.
fn put(row: &mut BitRow, place: u32, value: bool)
    requires { place < length row.old }
    ensures { row.new ≡ slice_set row.old place value }
{
    if value {
        row.set(place);
    } else {
        row.clear(place);
    }
}

/// Writes one row over another.
pub fn copy_over(from: &BitRow, into: &mut BitRow)
    requires { length into.old ≡ length from.now }
    ensures { into.new ≡ from.now }
{
    let count = from.len();
    for place in 0..count {
        put(into, place, from.get(place));
    }
}

/// Writes the blocks that a save of the table lists.
pub fn list_blocks(table: &Table, into: &mut BitRow)
    requires plan { IsPlan table.now.total table.now.piece_len }
    requires row { length into.old ≡ blocks_of table.now.total table.now.piece_len }
    ensures { into.new ≡ (listing_of table.now).blocks }
{
    plan_laws();
    let count = table.blocks().len();
    for block in 0..count {
        put(into, block, table.is_listed(block));
    }
}

/// Whether two rows of one length are the same.
pub fn is_copy(from: &BitRow, row: &BitRow) -> bool
    requires { length row.now ≡ length from.now }
    ensures { (result ≡ true) ↔ (row.now ≡ from.now) }
{
    let count = from.len();
    for place in 0..count {
        if row.get(place) != from.get(place) {
            return false;
        }
    }
    true
}

/// Whether the row has the blocks that a save of the table lists.
pub fn is_listing(table: &Table, row: &BitRow) -> bool
    requires plan { IsPlan table.now.total table.now.piece_len }
    requires row { length row.now ≡ blocks_of table.now.total table.now.piece_len }
    ensures { (result ≡ true) ↔ (row.now ≡ (listing_of table.now).blocks) }
{
    plan_laws();
    let count = table.blocks().len();
    for block in 0..count {
        if row.get(block) != table.is_listed(block) {
            return false;
        }
    }
    true
}

/// Whether the row has a block of the piece.
pub fn lists_any(plan: &Plan, row: &BitRow, piece: u32) -> bool
    requires row { length row.now ≡ blocks_of plan.now.total plan.now.piece_len }
    requires piece { piece < pieces_of plan.now.total plan.now.piece_len }
    ensures { (result ≡ false) ↔ HasNoBlock plan.now.total plan.now.piece_len row.now piece }
{
    plan_laws();
    let run = plan.piece_run(piece);
    for block in run.first..run.first + run.count {
        if row.get(block) {
            return true;
        }
    }
    false
}
