// A piece of the copy is put in the place of a wrong one.
ghost use Rattle.std.specs.Prelude.{◌≡◌, ◌+◌, ◌-◌, ◌*◌, ◌<◌, ◌≤◌, true, false, length, nat_lt, IsTrue, IfOk, OnOk};
ghost use Rattle.std.specs.Int.{div_ceil};
ghost use Rattle.std.specs.List.{range_with_len};
ghost use Rattle.dl_kinds.specs.Causes.{HasCause};
ghost use Rattle.dl_kinds.specs.declared.plan.TheConstants.{BLOCK_LEN, MAX_PAYLOAD_LEN, MAX_PIECE_LEN};
ghost use Rattle.merkle_trees.specs.Leaves.{leaves_of};
ghost use Rattle.merkle_trees.specs.Places.{differing_places};
ghost use Rattle.payload_repair.specs.Jobs.{hashed, IsRepairJob};
ghost use Rattle.payload_repair.specs.Mends.{LengthensFile, MendsPlaces};
ghost use Rattle.payload_repair.specs.Pieces.{leaves_in_piece, piece_ends_at, piece_size, piece_starts_at};
ghost use Rattle.payload_repair.specs.Placed.{leaves_from, own_content, HasLeavesOf, IsFitted, IsInPlace};
ghost use Rattle.payload_repair.specs.Repairs.{places_by_leaves};
ghost use Rattle.payload_repair.specs.StepsBy.{StepsBy};

use crate::job::RepairJob;
use crate::watching::RepairWatch;
use crate::writing::{fit_file, places_below, write_blocks};
use dl_disk::Disk;
use dl_kinds::{BLOCK_LEN, IoErr};
use merkle_trees::{Hashes, differing, other_leaves_are_of_other_blocks};
use std::alloc::Global;

// Gives a short or missing file its length before its first piece is written.
fn fit_first<D: Disk>(disk: &mut D, job: &RepairJob, is_first: bool) -> Result<(), IoErr>
    requires { IsTrue D.tells → is_first ≡ false → IsFitted job.now (D.state disk.old) }
    ensures fitted { OnOk result (IsTrue D.tells → IsFitted job.now (D.state disk.new)) }
    ensures steps { IsTrue D.tells → StepsBy (LengthensFile job.now.name.now job.now.plan.total)
        (D.state disk.old) (D.state disk.new) }
    ensures cause { HasCause (D.faults disk.old) (D.faults disk.new) result }
{
    if !is_first {
        return Ok(());
    }
    fit_file(disk, job.folder, job.name, job.plan.total)
}

// Writes all the blocks of a piece into a file that was short or missing, and gives their number.
fn write_all<D: Disk, W: RepairWatch>(
    alloc: Global,
    disk: &mut D,
    job: &RepairJob,
    start: u64,
    is_first: bool,
    bytes: &[u8],
    watch: &mut W,
) -> Result<usize, IoErr>
    requires few { length bytes.now ≤ MAX_PIECE_LEN }
    requires room { start + length bytes.now ≤ job.now.plan.total }
    requires fitted { IsTrue D.tells → is_first ≡ false → IsFitted job.now (D.state disk.old) }
    ensures count { IfOk result (λ count. count ≡ div_ceil (length bytes.now) BLOCK_LEN) }
    ensures leaves { OnOk result (IsTrue D.tells → HasLeavesOf bytes.now
        (own_content job.now (D.state disk.new).seen) start) }
    ensures fitted { OnOk result (IsTrue D.tells → IsFitted job.now (D.state disk.new)) }
    ensures steps { IsTrue D.tells
        → StepsBy (MendsPlaces job.now true start (start + length bytes.now)
        (range_with_len 0 (div_ceil (length bytes.now) BLOCK_LEN)))
        (D.state disk.old) (D.state disk.new) }
    ensures cause { HasCause (D.faults disk.old) (D.faults disk.new) result }
{
    fit_first(disk, job, is_first)?;
    let count = bytes.len().div_ceil(BLOCK_LEN as usize);
    let places = places_below(alloc, count)?;
    write_blocks(disk, job.name, start, bytes, &places, watch)?;
    Ok(count)
}

// Writes those blocks of a piece whose leaves differ, and gives their number.
fn write_differing<D: Disk, W: RepairWatch>(
    alloc: Global,
    disk: &mut D,
    job: &RepairJob,
    start: u64,
    own: &Hashes,
    copy: &Hashes,
    bytes: &[u8],
    watch: &mut W,
) -> Result<usize, IoErr>
    requires few { length bytes.now ≤ MAX_PIECE_LEN }
    requires room { start + length bytes.now ≤ job.now.plan.total }
    requires same { length own.now ≡ length copy.now }
    requires copy { copy.now ≡ leaves_of bytes.now }
    requires own { IsTrue D.tells → own.now ≡ leaves_from start
        (length bytes.now) (own_content job.now (D.state disk.old).seen) }
    requires reached { IsTrue D.tells
        → job.now.plan.total ≤ length (own_content job.now (D.state disk.old).seen) }
    ensures count { IfOk result (λ count. count ≡ length (differing_places own.now copy.now)) }
    ensures leaves { OnOk result (IsTrue D.tells → HasLeavesOf bytes.now
        (own_content job.now (D.state disk.new).seen) start) }
    ensures steps { IsTrue D.tells
        → StepsBy (MendsPlaces job.now false start (start + length bytes.now)
        (differing_places own.now copy.now)) (D.state disk.old) (D.state disk.new) }
    ensures cause { HasCause (D.faults disk.old) (D.faults disk.new) result }
{
    other_leaves_are_of_other_blocks();
    let places = differing(alloc, own, copy)?;
    write_blocks(disk, job.name, start, bytes, places.as_slice(), watch)?;
    Ok(places.len())
}

// Writes the blocks of a piece that a repair writes, and gives their number. The leaves are those of the piece in the file,
// where that isn't short, and in the copy, whose bytes these are.
pub(crate) fn write_piece<D: Disk, W: RepairWatch>(
    alloc: Global,
    disk: &mut D,
    job: &RepairJob,
    piece: u32,
    is_first: bool,
    own: &Hashes,
    copy: &Hashes,
    bytes: &[u8],
    watch: &mut W,
) -> Result<usize, IoErr>
    requires job { IsRepairJob job.now }
    requires piece { piece < job.now.plan.pieces }
    requires room { length bytes.now
        ≡ piece_size (hashed job.now) piece }
    requires copy { copy.now ≡ leaves_of bytes.now }
    requires same { job.now.plan.total ≤ job.now.len → length own.now ≡ length copy.now }
    requires own { IsTrue D.tells → job.now.plan.total ≤ job.now.len → own.now
        ≡ leaves_in_piece (hashed job.now) (own_content job.now (D.state disk.old).seen) piece }
    requires reached { IsTrue D.tells
        → job.now.len ≤ length (own_content job.now (D.state disk.old).seen) }
    requires fitted { IsTrue D.tells → is_first ≡ false → IsFitted job.now (D.state disk.old) }
    ensures count { IfOk result (λ count. count
        ≡ length (places_by_leaves (nat_lt job.now.len job.now.plan.total) own.now copy.now)) }
    ensures few { IfOk result (λ count. count * BLOCK_LEN ≤ length bytes.now + BLOCK_LEN) }
    ensures placed { OnOk result (IsTrue D.tells
        → IsInPlace job.now piece copy.now (D.state disk.new)) }
    ensures steps { IsTrue D.tells
        → StepsBy (MendsPlaces job.now (nat_lt job.now.len job.now.plan.total)
        (piece_starts_at (hashed job.now) piece) (piece_ends_at (hashed job.now) piece)
        (places_by_leaves (nat_lt job.now.len job.now.plan.total) own.now copy.now))
        (D.state disk.old) (D.state disk.new) }
    ensures cause { HasCause (D.faults disk.old) (D.faults disk.new) result }
{
    let (start, _) = job.plan.piece_span(piece);
    if job.len < job.plan.total {
        return write_all(alloc, disk, job, start, is_first, bytes, watch);
    }
    write_differing(alloc, disk, job, start, own, copy, bytes, watch)
}
