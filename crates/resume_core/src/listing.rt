// What a table lists, as a control file.
ghost use Rattle.std.specs.Prelude.{◌≡◌, ◌<◌, ◌≤◌, ◌+◌, ◌*◌, length, IfOk, IfSome, OnOk};
ghost use Rattle.dl_kinds.specs.Plan.{blocks_of};
ghost use Rattle.piece_table.specs.Progress.{IsStart, piece_part};
ghost use Rattle.resume_core.specs.Found.{hash_bytes};
ghost use Rattle.resume_core.specs.Tables.{ArePartial, IsListedRow, IsTableOf, ListsJust, ListsTable};
ghost use Rattle.control_file.specs.Wants.{IsWant};

use bit_rows::BitRow;
use control_file::{Control, InFlight, InFlights, Want};
use dl_kinds::{BLOCK_LEN, Blob, Plan};
use piece_table::Table;
use std::alloc::{AllocError, Global};

// The blocks that the table lists.
fn listed_row(alloc: Global, table: &Table) -> Result<BitRow, AllocError>
    ensures { IfOk result (IsListedRow table.now) }
{
    let count = table.blocks().len();
    let mut row = BitRow::new(alloc, count)?;
    for block in 0..count {
        if table.is_listed(block) {
            row.set(block);
        }
    }
    Ok(row)
}

// The part of a row of blocks that a piece has.
fn piece_row(alloc: Global, plan: &Plan, listed: &BitRow, piece: u32) -> Result<BitRow, AllocError>
    requires piece { piece < plan.now.pieces }
    requires blocks { length listed.now ≡ blocks_of plan.now.total plan.now.piece_len }
    ensures { IfOk result (λ row. row
        ≡ piece_part plan.now.total plan.now.piece_len listed.now piece) }
{
    let count = plan.blocks_in(piece) as u32;
    let first = piece * plan.piece_len.div_ceil(BLOCK_LEN);
    let mut row = BitRow::new(alloc, count)?;
    for place in 0..count {
        if listed.get(first + place) {
            row.set(place);
        }
    }
    Ok(row)
}

// Adds the piece of this number where it isn't verified and has a listed block.
fn add_piece(
    alloc: Global,
    plan: &Plan,
    verified: &BitRow,
    listed: &BitRow,
    piece: u32,
    flight: &mut InFlights,
) -> Result<(), AllocError>
    requires piece { piece < plan.now.pieces }
    requires pieces { length verified.now ≡ plan.now.pieces }
    requires blocks { length listed.now ≡ blocks_of plan.now.total plan.now.piece_len }
    requires flight { ArePartial plan.now.total plan.now.piece_len verified.now listed.now
        piece flight.old }
    ensures { OnOk result
        (ArePartial plan.now.total plan.now.piece_len verified.now listed.now (piece + 1)
        flight.new) }
{
    if verified.get(piece) {
        return Ok(());
    }
    let blocks = piece_row(alloc, plan, listed, piece)?;
    if blocks.count_ones() == 0 {
        return Ok(());
    }
    flight.push(InFlight {
        index: piece,
        length: plan.piece_span(piece).1,
        blocks,
    })
}

// The pieces in flight.
fn flight_of(
    alloc: Global,
    plan: &Plan,
    verified: &BitRow,
    listed: &BitRow,
) -> Result<InFlights, AllocError>
    requires pieces { length verified.now ≡ plan.now.pieces }
    requires blocks { length listed.now ≡ blocks_of plan.now.total plan.now.piece_len }
    ensures { IfOk result
        (ArePartial plan.now.total plan.now.piece_len verified.now listed.now plan.now.pieces) }
{
    let mut flight = InFlights::new(alloc);
    for piece in 0..plan.pieces {
        add_piece(alloc, plan, verified, listed, piece, &mut flight)?;
    }
    Ok(flight)
}

// The info hash, and none of an unlisted want.
fn hash_blob(alloc: Global, hash: &Option<[u8; 20]>) -> Result<Blob, AllocError>
    ensures { IfOk result (λ blob. blob ≡ hash_bytes hash.now) }
{
    match hash {
        Some(hash) => Blob::of(alloc, hash),
        None => Blob::of(alloc, &[]),
    }
}

// EXT: 1 where there is an info hash.
fn ext_of(hash: &Option<[u8; 20]>) -> u32
    requires { IfSome hash.now (λ hash. length hash ≡ 20) }
    ensures bit { result ≤ 1 }
    ensures len { length (hash_bytes hash.now) ≡ 20 * result }
{
    match hash {
        Some(_) => 1,
        None => 0,
    }
}

/// The control file that lists these pieces and these blocks. All blocks of a verified piece have to be listed.
pub(crate) fn control_of(
    alloc: Global,
    want: &Want,
    verified: &BitRow,
    listed: &BitRow,
) -> Result<Control, AllocError>
    requires want { IsWant want.now }
    requires rows { IsStart want.now.plan.total want.now.plan.piece_len verified.now listed.now }
    ensures { IfOk result (ListsJust want.now verified.now listed.now) }
{
    Ok(Control {
        ext: ext_of(&want.info_hash),
        info_hash: hash_blob(alloc, &want.info_hash)?,
        piece_len: want.plan.piece_len,
        total: want.plan.total,
        uploaded: 0,
        pieces: verified.copy(alloc)?,
        flight: flight_of(alloc, &want.plan, verified, listed)?,
    })
}

/// The control file that lists what the table lists.
pub(crate) fn control_of_table(
    alloc: Global,
    want: &Want,
    table: &Table,
) -> Result<Control, AllocError>
    requires want { IsWant want.now }
    requires table { IsTableOf want.now table.now }
    ensures { IfOk result (ListsTable want.now table.now) }
{
    let listed = listed_row(alloc, table)?;
    control_of(alloc, want, table.verified(), &listed)
}
