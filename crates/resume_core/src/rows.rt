// The rows of pieces and of blocks with which a download is opened.
ghost use Rattle.std.specs.Prelude.{◌≡◌, ◌↔◌, ◌⊎◌, ◌<◌, ℕ, List, Bool, true, length, slice_get, Some, IsTrue, IfOk};
ghost use Rattle.dl_kinds.specs.Plan.{blocks_of, blocks_of_piece};
ghost use Rattle.control_file.specs.Spelling.{IsReadableControl};
ghost use Rattle.resume_core.specs.Found.{IsBlockInFlight};
ghost use Rattle.resume_core.specs.Rows.{BlockGiven, IsBlockIn, IsRowWhere, ListedStands};
ghost use Rattle.control_file.specs.Wants.{IsWant};

use crate::lens::{block_stands, piece_stands};
use bit_rows::BitRow;
use control_file::{Control, InFlight, Want};
use dl_kinds::{BLOCK_LEN, Plan};
use std::alloc::{AllocError, Global};

// Whether a piece is listed and stands.
fn is_standing(
    alloc: Global,
    want: &Want,
    lens: &[Option<u64>],
    listed: &BitRow,
    piece: u32,
) -> Result<bool, AllocError>
    requires want { IsWant want.now }
    requires lens { length lens.now ≡ length want.now.layout }
    requires listed { length listed.now ≡ want.now.plan.pieces }
    requires piece { piece < want.now.plan.pieces }
    ensures { IfOk result (λ stands. IsTrue stands
        ↔ ListedStands want.now lens.now listed.now piece) }
{
    if !listed.get(piece) {
        return Ok(false);
    }
    piece_stands(alloc, want, lens, piece)
}

/// The pieces that are listed and stand.
pub(crate) fn standing_pieces(
    alloc: Global,
    want: &Want,
    lens: &[Option<u64>],
    listed: &BitRow,
) -> Result<BitRow, AllocError>
    requires want { IsWant want.now }
    requires lens { length lens.now ≡ length want.now.layout }
    requires listed { length listed.now ≡ want.now.plan.pieces }
    ensures { IfOk result (IsRowWhere want.now.plan.pieces
        (ListedStands want.now lens.now listed.now)) }
{
    let mut row = BitRow::new(alloc, want.plan.pieces)?;
    for piece in 0..want.plan.pieces {
        if is_standing(alloc, want, lens, listed, piece)? {
            row.set(piece);
        }
    }
    Ok(row)
}

// Sets the blocks that have come of a piece in flight.
fn set_blocks(plan: &Plan, piece: &InFlight, row: &mut BitRow)
    requires index { piece.now.index < plan.now.pieces }
    requires blocks { length piece.now.blocks
        ≡ blocks_of_piece plan.now.total plan.now.piece_len piece.now.index }
    requires row { length row.old ≡ blocks_of plan.now.total plan.now.piece_len }
    ensures len { length row.new ≡ length row.old }
    ensures exact { (block : ℕ) → (slice_get row.new block ≡ Some true)
        ↔ (slice_get row.old block ≡ Some true) ⊎ IsBlockIn piece.now plan.now.piece_len block }
{
    let first = piece.index * plan.piece_len.div_ceil(BLOCK_LEN);
    for place in 0..plan.blocks_in(piece.index) as u32 {
        if piece.blocks.get(place) {
            row.set(first + place);
        }
    }
}

/// The blocks that are in flight.
pub(crate) fn flying_blocks(
    alloc: Global,
    plan: &Plan,
    control: &Control,
) -> Result<BitRow, AllocError>
    requires control { IsReadableControl control.now }
    requires total { control.now.total ≡ plan.now.total }
    requires piece_len { control.now.piece_len ≡ plan.now.piece_len }
    ensures { IfOk result (IsRowWhere (blocks_of plan.now.total plan.now.piece_len)
        (IsBlockInFlight control.now plan.now.piece_len)) }
{
    let mut row = BitRow::new(alloc, plan.blocks())?;
    for piece in control.flight.items() {
        set_blocks(plan, piece, &mut row);
    }
    Ok(row)
}

// Whether a block is given.
fn is_given(
    alloc: Global,
    want: &Want,
    lens: &[Option<u64>],
    verified: &BitRow,
    flying: &BitRow,
    block: u32,
) -> Result<bool, AllocError>
    requires want { IsWant want.now }
    requires lens { length lens.now ≡ length want.now.layout }
    requires verified { length verified.now ≡ want.now.plan.pieces }
    requires flying { length flying.now ≡ blocks_of want.now.plan.total want.now.plan.piece_len }
    requires block { block < blocks_of want.now.plan.total want.now.plan.piece_len }
    ensures { IfOk result (λ given. IsTrue given
        ↔ BlockGiven want.now lens.now verified.now flying.now block) }
{
    if verified.get(want.plan.piece_of(block)) {
        return Ok(true);
    }
    if !flying.get(block) {
        return Ok(false);
    }
    block_stands(alloc, want, lens, block)
}

/// The blocks of given pieces, and those that have come and stand.
pub(crate) fn given_blocks(
    alloc: Global,
    want: &Want,
    lens: &[Option<u64>],
    verified: &BitRow,
    flying: &BitRow,
) -> Result<BitRow, AllocError>
    requires want { IsWant want.now }
    requires lens { length lens.now ≡ length want.now.layout }
    requires verified { length verified.now ≡ want.now.plan.pieces }
    requires flying { length flying.now ≡ blocks_of want.now.plan.total want.now.plan.piece_len }
    ensures { IfOk result (IsRowWhere (blocks_of want.now.plan.total want.now.plan.piece_len)
        (BlockGiven want.now lens.now verified.now flying.now)) }
{
    let count = want.plan.blocks();
    let mut row = BitRow::new(alloc, count)?;
    for block in 0..count {
        if is_given(alloc, want, lens, verified, flying, block)? {
            row.set(block);
        }
    }
    Ok(row)
}
