// A piece on the disk is read and checked.
ghost use Rattle.std.specs.Prelude.{◌≡◌, ◌+◌, ◌-◌, ◌/◌, ◌<◌, ◌≤◌, length, IsTrue, IfOk, OnOk, take};
ghost use Rattle.dl_disk.specs.Files.{IsSame, file_bytes};
ghost use Rattle.dl_kinds.specs.Causes.{HasCause};
ghost use Rattle.dl_kinds.specs.declared.plan.TheConstants.{BLOCK_LEN};
ghost use Rattle.merkle_trees.specs.Leaves.{leaves_of};
ghost use Rattle.payload_repair.specs.Jobs.{first_bytes, hashed, copy_bytes, IsRepairJob};
ghost use Rattle.payload_repair.specs.Pieces.{has_hash, is_right, piece_ends_at, piece_size};
ghost use Rattle.payload_repair.specs.StepsBy.{StepsBy};
ghost use Rattle.payload_repair.specs.Readings.{FindsPiece};

use crate::job::RepairJob;
use dl_disk::Disk;
use dl_kinds::IoErr;
use merkle_trees::{Hashes, file_root, leaves_at_once, piece_root};
use std::alloc::{AllocError, Global};
use std::thread::Threads;

/// The least bytes for which a thread is worth its start.
const THREAD_BYTES: usize = 65_536;

// A piece as it was read: its leaves, none where the file ends before it does, and whether it is right.
#[derive(Debug, Drop)]
pub(crate) struct ReadPiece {
    pub leaves: Hashes,
    pub right: bool,
}

// Whether these leaves have the hash of a piece.
#[tactic(auto, unfolding(crate::specs::Pieces::has_hash, crate::specs::Pieces::root_in_file))]
pub(crate) fn has_hash(job: &RepairJob, leaves: &Hashes, piece: u32) -> bool
    requires job { IsRepairJob job.now }
    requires piece { piece < job.now.plan.pieces }
    requires some { 1 ≤ length leaves.now }
    requires fit { length leaves.now ≤ job.now.plan.piece_len / BLOCK_LEN }
    ensures { result ≡ has_hash (hashed job.now) leaves.now piece }
{
    let root = if (job.plan.piece_len as u64) < job.plan.total {
        piece_root(leaves, job.plan.piece_len)
    } else {
        file_root(leaves)
    };
    job.hashes[piece as usize] == root
}

// The leaves of a piece, hashed by so many threads at most, and each by one that has some blocks to hash.
fn hash_piece<R: Threads + Sync>(
    rt: &R,
    alloc: Global,
    bytes: &[u8],
    threads: usize,
) -> Result<Hashes, AllocError>
    ensures { IfOk result (λ leaves. leaves ≡ leaves_of bytes.now) }
{
    let worth = bytes.len() / THREAD_BYTES;
    leaves_at_once(rt, alloc, bytes, worth.min(threads).max(1))
}

// Reads a piece of a file that has so many bytes, and checks it. One that goes past them is wrong, and isn't read.
pub(crate) fn read_piece<R: Threads + Sync, D: Disk>(
    rt: &R,
    alloc: Global,
    disk: &mut D,
    job: &RepairJob,
    name: &str,
    len: u64,
    piece: u32,
    threads: usize,
    into: &mut [u8],
) -> Result<ReadPiece, IoErr>
    requires job { IsRepairJob job.now }
    requires piece { piece < job.now.plan.pieces }
    requires room { length into.old
        ≡ piece_size (hashed job.now) piece }
    ensures right { IfOk result (λ read. IsTrue D.tells → read.right
        ≡ is_right (hashed job.now) (first_bytes name.now len (D.state disk.old).seen) piece) }
    ensures found { IfOk result (λ read. piece_ends_at (hashed job.now) piece ≤ len → IsTrue D.tells
        → FindsPiece (hashed job.now) (first_bytes name.now len (D.state disk.old).seen) piece
        into.new read.leaves) }
    ensures leaves { IfOk result (λ read. piece_ends_at (hashed job.now) piece ≤ len
        → read.leaves ≡ leaves_of into.new) }
    ensures past { IfOk result (λ read. IsTrue read.right
        → piece_ends_at (hashed job.now) piece ≤ len) }
    ensures steps { IsTrue D.tells → StepsBy IsSame (D.state disk.old) (D.state disk.new) }
    ensures cause { HasCause (D.faults disk.old) (D.faults disk.new) result }
{
    let (start, size) = job.plan.piece_span(piece);
    if start + size as u64 > len {
        return Ok(ReadPiece {
            leaves: Hashes::new(alloc),
            right: false,
        });
    }
    disk.read_at(name, start, into)?;
    let leaves = hash_piece(rt, alloc, into, threads)?;
    let right = has_hash(job, &leaves, piece);
    Ok(ReadPiece { leaves, right })
}

// Reads a piece of the copy, and checks it.
pub(crate) fn read_copy<R: Threads + Sync, D: Disk>(
    rt: &R,
    alloc: Global,
    disk: &mut D,
    job: &RepairJob,
    piece: u32,
    threads: usize,
    into: &mut [u8],
) -> Result<ReadPiece, IoErr>
    requires job { IsRepairJob job.now }
    requires piece { piece < job.now.plan.pieces }
    requires room { length into.old
        ≡ piece_size (hashed job.now) piece }
    ensures right { IfOk result (λ read. IsTrue D.tells → read.right
        ≡ is_right (hashed job.now) (copy_bytes job.now (D.state disk.old).seen) piece) }
    ensures found { IfOk result (λ read. IsTrue read.right → IsTrue D.tells
        → FindsPiece (hashed job.now) (copy_bytes job.now (D.state disk.old).seen) piece into.new
        read.leaves) }
    ensures leaves { IfOk result (λ read. IsTrue read.right → read.leaves ≡ leaves_of into.new) }
    ensures steps { IsTrue D.tells → StepsBy IsSame (D.state disk.old) (D.state disk.new) }
    ensures cause { HasCause (D.faults disk.old) (D.faults disk.new) result }
{
    match job.copy {
        Some(name) => read_piece(
            rt,
            alloc,
            disk,
            job,
            name,
            job.copy_len,
            piece,
            threads,
            into,
        ),
        None => Ok(ReadPiece {
            leaves: Hashes::new(alloc),
            right: false,
        }),
    }
}
