// Runs of blocks are written where no image gives them, and pieces are read.
ghost use Rattle.std.specs.Prelude.{◌≡◌, ◌<◌, length, vec_len, IsTrue, OnOk};
ghost use Rattle.dl_kinds.specs.Causes.{HasCause};
ghost use Rattle.dl_kinds.specs.Plan.{piece_start};
ghost use Rattle.dl_disk.specs.Passes.{Performs};
ghost use Rattle.dl_disk.specs.State.{LeftSince};
ghost use Rattle.span_map.specs.Jobs.{IsRun};
ghost use Rattle.payload_files.specs.Reading.{ReadsOnly, ReadsSlice};
ghost use Rattle.resume_core.specs.Causes.{HasStoreCause};
ghost use Rattle.resume_core.specs.Resume.{AreSound};
ghost use Rattle.resume_core.specs.Runs.{run_len, LackRun, TornRun, WritesRun, HoldsRun, ListWithin, AllAgree, GiveAsBefore, GiveAtLeast, ReadsPiece, len_of_piece};
ghost use Rattle.control_file.specs.Wants.{IsWant};

use crate::fault::StoreErr;
use crate::laws::torn_files_keep_what_is_given;
use control_file::Want;
use dl_disk::Disk;
use dl_kinds::{IoErr, Run};
use payload_files::{read_slice, write_slice};
use std::alloc::Global;

// Writes a run into the files that hold it.
fn put_run<D: Disk>(
    alloc: Global,
    disk: &mut D,
    want: &Want,
    run: Run,
    bytes: &[u8],
) -> Result<(), IoErr>
    requires want { IsWant want.now }
    requires run { IsRun want.now.plan run }
    requires len { length bytes.now ≡ run_len want.now.plan run }
    ensures written { OnOk result (IsTrue D.tells
        → WritesRun want.now run bytes.now (D.state disk.old).seen (D.state disk.new).seen) }
    ensures stands { OnOk result (IsTrue D.tells
        → HoldsRun want.now run bytes.now (D.state disk.old).seen (D.state disk.new).seen) }
    ensures performs { IsTrue D.tells
        → Performs (TornRun want.now run) (D.state disk.old) (D.state disk.new) }
    ensures folders { IsTrue D.tells → (D.state disk.new).folders ≡ (D.state disk.old).folders }
    ensures cause { HasCause (D.faults disk.old) (D.faults disk.new) result }
{
    let (start, _) = want.plan.block_span(run.first);
    write_slice(alloc, disk, want.dir.as_str(), &want.layout, start, bytes)
}

/// Writes the bytes of a run of blocks into the files that hold them. The first failure ends it, and what was written
/// before stays. No crash meanwhile loses anything that was durable, since no image gives a block of the run.
pub fn write_run<D: Disk>(
    alloc: Global,
    disk: &mut D,
    want: &Want,
    run: Run,
    bytes: &[u8],
) -> Result<(), StoreErr>
    requires want { IsWant want.now }
    requires run { IsRun want.now.plan run }
    requires len { length bytes.now ≡ run_len want.now.plan run }
    requires lacks { IsTrue D.tells → LackRun want.now run (D.state disk.old).may_leave }
    ensures written { OnOk result (IsTrue D.tells
        → WritesRun want.now run bytes.now (D.state disk.old).seen (D.state disk.new).seen) }
    ensures stands { OnOk result (IsTrue D.tells
        → HoldsRun want.now run bytes.now (D.state disk.old).seen (D.state disk.new).seen) }
    ensures performs { IsTrue D.tells
        → Performs (TornRun want.now run) (D.state disk.old) (D.state disk.new) }
    ensures folders { IsTrue D.tells → (D.state disk.new).folders ≡ (D.state disk.old).folders }

    // At each moment an image gives what one gave before, agrees with what is read, and stays sound.
    ensures keeps { IsTrue D.tells → GiveAtLeast want.now (D.state disk.old).may_leave
        (LeftSince (D.state disk.new) (D.state disk.old).moment) }
    ensures gives { IsTrue D.tells → ListWithin want.now (D.state disk.old).may_leave
        → GiveAsBefore want.now (D.state disk.old).may_leave
        (LeftSince (D.state disk.new) (D.state disk.old).moment) }
    ensures agrees { IsTrue D.tells → ListWithin want.now (D.state disk.old).may_leave
        → AllAgree want.now (D.state disk.old).seen (D.state disk.old).may_leave
        → AllAgree want.now (D.state disk.new).seen
        (LeftSince (D.state disk.new) (D.state disk.old).moment) }
    ensures sound { IsTrue D.tells
        → AreSound want.now (D.state disk.old).seen (D.state disk.old).may_leave
        → AreSound want.now (D.state disk.new).seen
        (LeftSince (D.state disk.new) (D.state disk.old).moment) }
    ensures cause { HasStoreCause (D.faults disk.old) (D.faults disk.new) result }
{
    torn_files_keep_what_is_given();
    put_run(alloc, disk, want, run, bytes)?;
    Ok(())
}

// Fills the buffer with the bytes of a piece.
fn fill_piece<D: Disk>(
    alloc: Global,
    disk: &mut D,
    want: &Want,
    piece: u32,
    into: &mut [u8],
) -> Result<(), IoErr>
    requires want { IsWant want.now }
    requires piece { piece < want.now.plan.pieces }
    requires len { length into.old ≡ len_of_piece want.now.plan piece }
    ensures read { OnOk result (IsTrue D.tells
        → ReadsPiece want.now piece (D.state disk.old).seen into.new) }
    ensures slice { OnOk result (IsTrue D.tells
        → ReadsSlice want.now.dir want.now.layout (piece_start want.now.plan.piece_len piece)
        into.new (D.state disk.old).seen) }
    ensures looks { IsTrue D.tells
        → ReadsOnly want.now.dir want.now.layout (D.state disk.old) (D.state disk.new) }
    ensures cause { HasCause (D.faults disk.old) (D.faults disk.new) result }
{
    let (start, _) = want.plan.piece_span(piece);
    read_slice(alloc, disk, want.dir.as_str(), &want.layout, start, into)
}

/// Reads a piece. After Ok its bytes stand in the buffer, in place of what was there. A file that is missing or ends
/// before the piece does is a fault of the disk.
pub fn read_piece<D: Disk>(
    alloc: Global,
    disk: &mut D,
    want: &Want,
    piece: u32,
    into: &mut Vec<u8>,
) -> Result<(), StoreErr>
    requires want { IsWant want.now }
    requires piece { piece < want.now.plan.pieces }
    ensures read { OnOk result (IsTrue D.tells
        → ReadsPiece want.now piece (D.state disk.old).seen into.new.items) }
    ensures slice { OnOk result (IsTrue D.tells
        → ReadsSlice want.now.dir want.now.layout (piece_start want.now.plan.piece_len piece)
        into.new.items (D.state disk.old).seen) }
    ensures len { OnOk result (vec_len into.new ≡ len_of_piece want.now.plan piece) }
    ensures looks { IsTrue D.tells
        → ReadsOnly want.now.dir want.now.layout (D.state disk.old) (D.state disk.new) }
    ensures cause { HasStoreCause (D.faults disk.old) (D.faults disk.new) result }
{
    let (_, len) = want.plan.piece_span(piece);
    into.resize(len as usize, 0)?;
    fill_piece(alloc, disk, want, piece, into)?;
    Ok(())
}
