// A download that is opened, gets a run of its blocks, and is saved: the calls of the store in their order, each with what it
// asks of those before it.
ghost use Rattle.std.specs.Prelude.{◌≡◌, ◌≢◌, ◌≤◌, ◌<◌, ◌+◌, ℕ, Some, true, false, length, slice_get};
ghost use Rattle.std.specs.Prelude.{IsTrue, IfOk, IfSome, OnOk};
ghost use Rattle.control_file.specs.Wants.{IsListedWant, IsWant};
ghost use Rattle.dl_disk.specs.Files.{IsSame};
ghost use Rattle.payload_files.specs.Payload.{HasFiles};
ghost use Rattle.piece_table.specs.Progress.{IsFull};
ghost use Rattle.resume_core.specs.Resume.{HasDigest};
ghost use Rattle.resume_core.specs.Runs.{IsBlockOf, run_len};
ghost use Rattle.resume_core.specs.Tables.{GiveTable, IsTableOf};
ghost use Rattle.resume_core.specs.Wants.{files_in};
ghost use Rattle.sha1.specs.Sha1.{sha1};
ghost use Rattle.span_map.specs.Jobs.{IsRun};

use bit_rows::BitRow;
use control_file::Want;
use dl_disk::Disk;
use dl_kinds::{Digests, Run};
use piece_table::Table;
use resume_core::{
    OpenErr, StoreErr, read_piece, resume, save, saved_files_give_what_is_listed, write_run,
};
use sha1::Sha1;
use std::alloc::Global;

// Whether no block of the run has come.
fn lacks(blocks: &BitRow, run: Run) -> bool
    requires { run.first + run.count ≤ length blocks.now }
    ensures { IsTrue result
        → (block : ℕ) → IsBlockOf run block → slice_get blocks.now block ≢ Some true }
{
    // Named, since a proof knows by it that the end of the run is a number of 32 bits.
    let _len = blocks.len();
    let end = run.first + run.count;
    blocks.next_within(run.first, end, true) == end
}

/// Opens a download and writes a run of its blocks. Told is its table, with the run landed, and None where a block of the run
/// has come before.
pub fn bring_run<D: Disk>(
    alloc: Global,
    disk: &mut D,
    want: &Want,
    run: Run,
    bytes: &[u8],
) -> Result<Option<Table>, OpenErr>
    requires want { IsWant want.now }
    requires run { IsRun want.now.plan run }
    requires few { run.count ≤ 64 }
    requires len { length bytes.now ≡ run_len want.now.plan run }
    ensures table { IfOk result (λ brought. IfSome brought (IsTableOf want.now)) }
    ensures files { OnOk result (IsTrue D.tells
        → HasFiles want.now.dir want.now.layout (D.state disk.new).seen) }
{
    // From it follows that each image has a control file of use, once the download is opened.
    saved_files_give_what_is_listed();
    let opened = resume(alloc, disk, want, false)?;
    if !lacks(&opened.blocks, run) {
        return Ok(None);
    }
    write_run(alloc, disk, want, run, bytes)?;
    let mut table = Table::new(alloc, want.plan, opened.verified, opened.blocks)?;
    table.land(run, 0);
    Ok(Some(table))
}

// Whether these bytes have the digest of a piece.
fn is_right(digests: &Digests, piece: u32, bytes: &[u8]) -> bool
    ensures { IsTrue result → slice_get digests.now piece ≡ Some (sha1 bytes.now) }
{
    match digests.get(piece as usize) {
        Some(digest) => Sha1::digest(bytes) == *digest,
        None => false,
    }
}

// Whether what the disk reads of a piece has its digest. Any piece of an unlisted download is right.
fn is_piece_right<D: Disk>(
    alloc: Global,
    disk: &mut D,
    want: &Want,
    piece: u32,
) -> Result<bool, StoreErr>
    requires want { IsWant want.now }
    requires piece { piece < want.now.plan.pieces }
    ensures right { IfOk result (λ right. IsTrue D.tells → IsTrue right → IsListedWant want.now
        → HasDigest want.now (files_in want.now (D.state disk.old).seen) piece) }
    ensures seen { IsTrue D.tells → IsSame (D.state disk.old).seen (D.state disk.new).seen }
{
    let mut bytes = Vec::new(alloc);
    read_piece(alloc, disk, want, piece, &mut bytes)?;
    Ok(want.info_hash.is_none() || is_right(&want.digests, piece, &bytes))
}

// Settles a piece where it is full and isn't verified.
fn settle_piece<D: Disk>(
    alloc: Global,
    disk: &mut D,
    want: &Want,
    table: &mut Table,
    piece: u32,
) -> Result<(), StoreErr>
    requires want { IsWant want.now }
    requires piece { piece < want.now.plan.pieces }
    requires table { IsTableOf want.now table.old }
    ensures table { IsTableOf want.now table.new }
    ensures seen { IsTrue D.tells → IsSame (D.state disk.old).seen (D.state disk.new).seen }
{
    if !table.is_verified(piece) && table.is_full(piece) {
        let right = is_piece_right(alloc, disk, want, piece)?;
        table.settle(piece, right);
    }
    Ok(())
}

/// Settles each piece that is full and isn't verified.
pub fn settle_pieces<D: Disk>(
    alloc: Global,
    disk: &mut D,
    want: &Want,
    table: &mut Table,
) -> Result<(), StoreErr>
    requires want { IsWant want.now }
    requires table { IsTableOf want.now table.old }
    ensures table { IsTableOf want.now table.new }
    ensures seen { IsTrue D.tells → IsSame (D.state disk.old).seen (D.state disk.new).seen }
{
    for piece in 0..want.plan.pieces {
        settle_piece(alloc, disk, want, table, piece)?;
    }
    Ok(())
}

// Settles what is full, and saves what the table lists then.
fn settle_and_save<D: Disk>(
    alloc: Global,
    disk: &mut D,
    want: &Want,
    table: &mut Table,
) -> Result<(), StoreErr>
    requires want { IsWant want.now }
    requires table { IsTableOf want.now table.old }
    requires files { IsTrue D.tells → HasFiles want.now.dir want.now.layout (D.state disk.old).seen }
    ensures gives { OnOk result (IsTrue D.tells
        → GiveTable want.now table.new (D.state disk.new).may_leave) }
{
    settle_pieces(alloc, disk, want, table)?;
    save(alloc, disk, want, table)
}

/// Opens a download and brings it a run of blocks: they are written, the pieces that are full then are settled, and what the
/// table lists is saved. It is false where a block of the run has come before.
pub fn bring<D: Disk>(
    alloc: Global,
    disk: &mut D,
    want: &Want,
    run: Run,
    bytes: &[u8],
) -> Result<bool, OpenErr>
    requires want { IsWant want.now }
    requires run { IsRun want.now.plan run }
    requires few { run.count ≤ 64 }
    requires len { length bytes.now ≡ run_len want.now.plan run }
{
    match bring_run(alloc, disk, want, run, bytes)? {
        Some(mut table) => {
            settle_and_save(alloc, disk, want, &mut table)?;
            Ok(true)
        }
        None => Ok(false),
    }
}
