// The pieces of a file are checked, and the wrong ones repaired.
ghost use Rattle.std.specs.Prelude.{◌≡◌, ◌+◌, ◌-◌, ◌<◌, ◌≤◌, ℕ, false, length, IsTrue, IfOk, OnOk};
ghost use Rattle.dl_kinds.specs.Causes.{HasCause};
ghost use Rattle.payload_repair.specs.Ahead.{AreRight};
ghost use Rattle.payload_repair.specs.Counting.{AreOf};
ghost use Rattle.payload_repair.specs.Jobs.{hashed, own_bytes, copy_bytes, HasOtherCopy, IsRepairJob};
ghost use Rattle.payload_repair.specs.Mending.{ChangesPiece, ChangesPieces, PutsPiece, PutsPieces};
ghost use Rattle.payload_repair.specs.Pieces.{piece_size};
ghost use Rattle.payload_repair.specs.Placed.{own_content, IsFitted};
ghost use Rattle.payload_repair.specs.Repairs.{counts_upto, piece_counts};

use crate::ahead::{Ahead, look_ahead};
use crate::checking::{read_copy, read_piece};
use crate::counts::Counts;
use crate::job::RepairJob;
use crate::placing::write_piece;
use crate::watching::RepairWatch;
use dl_disk::Disk;
use dl_kinds::IoErr;
use std::alloc::Global;
use std::thread::Threads;

// Checks a piece, and repairs it where it is wrong and the copy has it right.
fn mend_piece<R: Threads + Sync, D: Disk, W: RepairWatch>(
    rt: &R,
    alloc: Global,
    disk: &mut D,
    job: &RepairJob,
    piece: u32,
    is_first: bool,
    threads: usize,
    into: &mut [u8],
    watch: &mut W,
) -> Result<Counts, IoErr>
    requires job { IsRepairJob job.now }
    requires piece { piece < job.now.plan.pieces }
    requires room { length into.old
        ≡ piece_size (hashed job.now) piece }
    requires reached { IsTrue D.tells
        → job.now.len ≤ length (own_content job.now (D.state disk.old).seen) }
    requires fitted { IsTrue D.tells → is_first ≡ false → IsFitted job.now (D.state disk.old) }
    ensures counts { IfOk result (λ counts. IsTrue D.tells → counts
        ≡ piece_counts (hashed job.now) (own_bytes job.now (D.state disk.old).seen)
        (copy_bytes job.now (D.state disk.old).seen) piece) }
    ensures bounded { IfOk result
        (AreOf 1 (piece_size (hashed job.now) piece)) }
    ensures puts { OnOk result (IsTrue D.tells
        → PutsPiece job.now piece (D.state disk.old) (D.state disk.new)) }
    ensures keeps { IsTrue D.tells
        → ChangesPiece job.now piece (D.state disk.old) (D.state disk.new) }
    ensures cause { HasCause (D.faults disk.old) (D.faults disk.new) result }
{
    let own = read_piece(
        rt, alloc, disk, job, job.name, job.len, piece, threads, into,
    )?;
    if own.right {
        return Ok(Counts {
            pieces: 1,
            right: 1,
            repaired: 0,
            blocks: 0,
        });
    }
    watch.found_wrong(job.name, piece);
    let copy = read_copy(rt, alloc, disk, job, piece, threads, into)?;
    if !copy.right {
        return Ok(Counts {
            pieces: 1,
            right: 0,
            repaired: 0,
            blocks: 0,
        });
    }
    let blocks = write_piece(
        alloc,
        disk,
        job,
        piece,
        is_first,
        &own.leaves,
        &copy.leaves,
        into,
        watch,
    )?;
    Ok(Counts {
        pieces: 1,
        right: 0,
        repaired: 1,
        blocks: blocks as u32,
    })
}

// Goes past a piece that is known to be right, or checks it, and repairs it where it is wrong and the copy has it right.
fn take_piece<R: Threads + Sync, D: Disk, W: RepairWatch>(
    rt: &R,
    alloc: Global,
    disk: &mut D,
    job: &RepairJob,
    piece: u32,
    is_first: bool,
    threads: usize,
    ahead: &mut Ahead,
    buffer: &mut [u8],
    watch: &mut W,
) -> Result<Counts, IoErr>
    requires job { IsRepairJob job.now }
    requires piece { piece < job.now.plan.pieces }
    requires room { piece_size (hashed job.now) piece ≤ length buffer.old }
    requires reached { IsTrue D.tells
        → job.now.len ≤ length (own_content job.now (D.state disk.old).seen) }
    requires fitted { IsTrue D.tells → is_first ≡ false → IsFitted job.now (D.state disk.old) }
    requires right { IsTrue D.tells
        → AreRight job.now ahead.old.known piece (D.state disk.old).seen }
    ensures right { OnOk result (IsTrue D.tells
        → AreRight job.now ahead.new.known (piece + 1) (D.state disk.new).seen) }
    ensures counts { IfOk result (λ counts. IsTrue D.tells → counts
        ≡ piece_counts (hashed job.now) (own_bytes job.now (D.state disk.old).seen)
        (copy_bytes job.now (D.state disk.old).seen) piece) }
    ensures bounded { IfOk result
        (AreOf 1 (piece_size (hashed job.now) piece)) }
    ensures puts { OnOk result (IsTrue D.tells
        → PutsPiece job.now piece (D.state disk.old) (D.state disk.new)) }
    ensures keeps { IsTrue D.tells
        → ChangesPiece job.now piece (D.state disk.old) (D.state disk.new) }
    ensures cause { HasCause (D.faults disk.old) (D.faults disk.new) result }
{
    look_ahead(rt, alloc, disk, job, piece, threads, ahead, buffer)?;
    if ahead.known > 0 {
        ahead.known -= 1;
        return Ok(Counts {
            pieces: 1,
            right: 1,
            repaired: 0,
            blocks: 0,
        });
    }
    let (_, size) = job.plan.piece_span(piece);
    let into = &mut buffer[..size as usize];
    let found = mend_piece(rt, alloc, disk, job, piece, is_first, threads, into, watch)?;
    ahead.looks = found.right > 0;
    Ok(found)
}

// Checks each piece of a file, and repairs the wrong ones that the copy has right. The buffer has room for a piece.
pub(crate) fn mend_pieces<R: Threads + Sync, D: Disk, W: RepairWatch>(
    rt: &R,
    alloc: Global,
    disk: &mut D,
    job: &RepairJob,
    threads: usize,
    buffer: &mut [u8],
    watch: &mut W,
) -> Result<Counts, IoErr>
    requires job { IsRepairJob job.now }
    requires room { (piece : ℕ) → piece < job.now.plan.pieces
        → piece_size (hashed job.now) piece ≤ length buffer.old }
    requires stands { IsTrue D.tells
        → job.now.len ≡ length (own_content job.now (D.state disk.old).seen) }
    ensures counts { IfOk result (λ counts. IsTrue D.tells → HasOtherCopy job.now → counts
        ≡ counts_upto (hashed job.now) (own_bytes job.now (D.state disk.old).seen)
        (copy_bytes job.now (D.state disk.old).seen) job.now.plan.pieces) }
    ensures bounded { IfOk result (AreOf job.now.plan.pieces job.now.plan.total) }
    ensures puts { OnOk result (IsTrue D.tells → HasOtherCopy job.now
        → PutsPieces job.now job.now.plan.pieces (D.state disk.old) (D.state disk.new)) }
    ensures keeps { IsTrue D.tells → HasOtherCopy job.now
        → ChangesPieces job.now job.now.plan.pieces (D.state disk.old) (D.state disk.new) }
    ensures cause { HasCause (D.faults disk.old) (D.faults disk.new) result }
{
    let mut counts = Counts::none();
    let mut ahead = Ahead {
        known: 0,
        looks: true,
    };
    for piece in 0..job.plan.pieces {
        let (_, size) = job.plan.piece_span(piece);
        let is_first = counts.repaired == 0;
        let found = take_piece(
            rt, alloc, disk, job, piece, is_first, threads, &mut ahead, buffer, watch,
        )?;
        counts = counts.plus(found);
        watch.checked(size);
    }
    watch.finished(job.name);
    Ok(counts)
}
