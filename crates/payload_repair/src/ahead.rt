// Whole pieces are read and hashed ahead, several at once, and the next ones are read meanwhile.
ghost use Rattle.std.specs.Prelude.{◌≡◌, ◌+◌, ◌*◌, ◌<◌, ◌≤◌, length, take, IfOk, IsTrue, OnOk};
ghost use Rattle.dl_disk.specs.Files.{IsSame, ReadsAt};
ghost use Rattle.dl_kinds.specs.Causes.{HasCause};
ghost use Rattle.payload_repair.specs.Ahead.{AreMarked, AreRight, AreRightParts, AreRightUpTo, IsRightAt, IsRightPart};
ghost use Rattle.payload_repair.specs.Jobs.{IsRepairJob};
ghost use Rattle.payload_repair.specs.StepsBy.{StepsBy};
ghost use Rattle.payload_repair.specs.declared.ahead.TheConstants.{MOST_AHEAD};
ghost use denote.Param.Send.{IsSync};

use crate::checking::has_hash;
use crate::job::RepairJob;
use dl_disk::Disk;
use dl_kinds::IoErr;
use merkle_trees::leaves;
use std::alloc::Global;
use std::thread::{Threads, for_each_mut, join_mut};

/// The most pieces that are hashed at once.
const MOST_AHEAD: usize = 2_048;

/// Of pieces that are shorter each thread has so many bytes: to begin threads for fewer takes long beside the hashing.
const THREAD_ROOM: usize = 16_777_216;

/// So many bytes are held at most, but for a piece that is longer.
const MOST_ROOM: usize = 67_108_864;

/// So often the next pieces are read before what was found is told.
const MOST_READS: u32 = 8;

/// How many pieces from the next one on are known to be right, and whether it is worth it to look ahead for more.
#[derive(Clone, Copy)]
pub(crate) struct Ahead {
    pub known: u32,
    pub looks: bool,
}

/// The bytes that are held in memory of a payload of so many: a piece for each thread, or as many small ones as fit, and a piece
/// at least.
pub(crate) fn room_ahead(piece_len: u32, threads: usize, total: u64) -> usize
    ensures { piece_len ≤ result }
{
    let len = piece_len as usize;
    let wanted = threads.min(MOST_AHEAD) * len.max(THREAD_ROOM);
    wanted.min(MOST_ROOM).min(total as usize).max(len)
}

// Whether these bytes, which stand at a place of the file, are a whole piece and right. Where memory is wanting it isn't told.
fn is_right_at(alloc: Global, job: &RepairJob, piece: u32, at: u64, bytes: &[u8]) -> bool
    requires job { IsRepairJob job.now }
    ensures { IsTrue result → IsRightAt job.now piece at bytes.now }
{
    if piece >= job.plan.pieces {
        return false;
    }
    let (start, size) = job.plan.piece_span(piece);
    if at != start || bytes.len() != size as usize || start + size as u64 > job.len {
        return false;
    }
    match leaves(alloc, bytes) {
        Ok(leaves) => has_hash(job, &leaves, piece),
        Err(_) => false,
    }
}

// .. of these bytes, which stand there, the piece at this place.
fn is_right_part(
    alloc: Global,
    job: &RepairJob,
    first: u32,
    at: u64,
    bytes: &[u8],
    place: usize,
) -> bool
    requires job { IsRepairJob job.now }
    requires first { first < job.now.plan.pieces }
    requires at { at ≤ job.now.plan.total }
    ensures { IsTrue result → IsRightPart job.now first at bytes.now place }
{
    if place >= MOST_AHEAD {
        return false;
    }
    let len = job.plan.piece_len as usize;
    let from = place * len;
    if bytes.len() < from + len {
        return false;
    }
    let part = &bytes[from..][..len];
    is_right_at(alloc, job, first + place as u32, at + from as u64, part)
}

// The pieces in these bytes are hashed, each by one of so many threads at most, and those that are right are marked.
fn mark_parts<R: Threads + Sync>(
    rt: &R,
    alloc: Global,
    job: &RepairJob,
    first: u32,
    at: u64,
    bytes: &[u8],
    threads: usize,
    marks: &mut [bool],
)
    requires job { IsRepairJob job.now }
    requires first { first < job.now.plan.pieces }
    requires at { at ≤ job.now.plan.total }
    requires threads { 1 ≤ threads }
    ensures parts { AreRightParts job.now first at bytes.now marks.new }
    ensures len { length marks.new ≡ length marks.old }
{
    for_each_mut(
        rt,
        marks,
        threads,
        &|place, mark| {
            *mark = is_right_part(alloc, job, first, at, bytes, place);
        },
    );
}

// How many of the first marks are set, up to one that isn't.
fn count_marked(marks: &[bool]) -> usize
    ensures marked { AreMarked marks.now result }
    ensures within { result ≤ length marks.now }
{
    for place in 0..marks.len() {
        if !marks[place] {
            return place;
        }
    }
    marks.len()
}

// How many of the pieces in these bytes are right, from the first one on. There are so many.
fn count_parts<R: Threads + Sync>(
    rt: &R,
    alloc: Global,
    job: &RepairJob,
    first: u32,
    at: u64,
    bytes: &[u8],
    count: usize,
    threads: usize,
) -> usize
    requires job { IsRepairJob job.now }
    requires first { first < job.now.plan.pieces }
    requires at { at ≤ job.now.plan.total }
    requires count { count ≤ MOST_AHEAD }
    ensures right { AreRightUpTo job.now first at bytes.now result }
    ensures within { result ≤ count }
{
    let mut marks = [false; MOST_AHEAD];
    let marked = &mut marks[..count];
    mark_parts(rt, alloc, job, first, at, bytes, threads.max(1), marked);
    count_marked(marked)
}

// The place of a piece, and how many whole pieces from it on are read at once. Behind the last piece there is none.
fn whole_ahead(job: &RepairJob, piece: u32, room: usize) -> (u64, usize)
    requires job { IsRepairJob job.now }
    ensures start { result.0 ≤ job.now.plan.total }
    ensures room { result.1 * job.now.plan.piece_len ≤ room }
    ensures few { result.1 ≤ MOST_AHEAD }
    ensures exists { 1 ≤ result.1 → piece < job.now.plan.pieces }
{
    if piece >= job.plan.pieces {
        return (0, 0);
    }
    let (start, _) = job.plan.piece_span(piece);
    let left = job.len.saturating_sub(start) / job.plan.piece_len as u64;
    let fitting = room / job.plan.piece_len as usize;
    (start, fitting.min(MOST_AHEAD).min(left as usize))
}

// Reads from this place of a file on.
fn read_behind<D: Disk>(disk: &mut D, name: &str, at: u64, into: &mut [u8]) -> Result<(), IoErr>
    ensures read { OnOk result (IsTrue D.tells
        → ReadsAt ((D.state disk.old).seen name.now) at into.new) }
    ensures steps { IsTrue D.tells → StepsBy IsSame (D.state disk.old) (D.state disk.new) }
    ensures cause { HasCause (D.faults disk.old) (D.faults disk.new) result }
{
    disk.read_at(name, at, into)
}

// Counts the right ones of the pieces in these bytes, while those behind are read from their place.
fn count_and_read<R: Threads + Sync, D: Disk>(
    rt: &R,
    alloc: Global,
    disk: &mut D,
    job: &RepairJob,
    first: u32,
    at: u64,
    bytes: &[u8],
    count: usize,
    threads: usize,
    behind: u64,
    into: &mut [u8],
) -> Result<usize, IoErr>
    requires job { IsRepairJob job.now }
    requires first { first < job.now.plan.pieces }
    requires at { at ≤ job.now.plan.total }
    requires count { count ≤ MOST_AHEAD }
    ensures right { IfOk result (AreRightUpTo job.now first at bytes.now) }
    ensures within { IfOk result (λ right. right ≤ count) }
    ensures read { OnOk result (IsTrue D.tells
        → ReadsAt ((D.state disk.old).seen job.now.name.now) behind into.new) }
    ensures steps { IsTrue D.tells → StepsBy IsSame (D.state disk.old) (D.state disk.new) }
    ensures cause { HasCause (D.faults disk.old) (D.faults disk.new) result }
{
    let name = job.name;
    let mut hash = || -> usize
        requires { IsSync R.row × IsRepairJob job.now × (first < job.now.plan.pieces)
            × (at ≤ job.now.plan.total) × (count ≤ MOST_AHEAD) }
        ensures { (AreRightUpTo job.entry.now first at bytes.entry.now result) × (result ≤ count) }
    { count_parts(rt, alloc, job, first, at, bytes, count, threads) };
    let mut read = || read_behind(disk, name, behind, into);
    let (right, outcome) = join_mut(rt, &mut hash, &mut read);
    outcome?;
    Ok(right)
}

// Counts the pieces from this one on that are right. So many of them were read from their place, and are hashed while the next
// ones are read, which are counted behind them where they all are right.
fn count_ahead<R: Threads + Sync, D: Disk>(
    rt: &R,
    alloc: Global,
    disk: &mut D,
    job: &RepairJob,
    first: u32,
    start: u64,
    count: usize,
    threads: usize,
    reads: u32,
    near: &mut [u8],
    far: &mut [u8],
) -> Result<u32, IoErr>
    requires job { IsRepairJob job.now }
    requires first { first < job.now.plan.pieces }
    requires start { start ≤ job.now.plan.total }
    requires count { count ≤ MOST_AHEAD }
    requires room { count * job.now.plan.piece_len ≤ length near.old }
    requires read { IsTrue D.tells → ReadsAt ((D.state disk.old).seen job.now.name.now) start
        (take (count * job.now.plan.piece_len) near.old) }
    ensures right { IfOk result (λ known. IsTrue D.tells
        → AreRight job.now known first (D.state disk.old).seen) }
    ensures within { IfOk result (λ known. first + known ≤ job.now.plan.pieces) }
    ensures steps { IsTrue D.tells → StepsBy IsSame (D.state disk.old) (D.state disk.new) }
    ensures cause { HasCause (D.faults disk.old) (D.faults disk.new) result }
{
    let len = job.plan.piece_len as usize;
    let room = if reads == 0 { 0 } else { far.len() };
    let next = first + count as u32;
    let (behind, more) = whole_ahead(job, next, room);
    let right = count_and_read(
        rt,
        alloc,
        disk,
        job,
        first,
        start,
        &near[..count * len],
        count,
        threads,
        behind,
        &mut far[..more * len],
    )?;
    if right < count || more == 0 || reads == 0 {
        return Ok(right as u32);
    }
    let known = count_ahead(
        rt,
        alloc,
        disk,
        job,
        next,
        behind,
        more,
        threads,
        reads - 1,
        far,
        near,
    )?;
    Ok(right as u32 + known)
}

// Counts the pieces from this one on that are right, as far as it is looked ahead. Where fewer of them are read at once than there
// are threads, the blocks of one piece are better hashed by all.
fn count_right<R: Threads + Sync, D: Disk>(
    rt: &R,
    alloc: Global,
    disk: &mut D,
    job: &RepairJob,
    first: u32,
    threads: usize,
    buffer: &mut [u8],
) -> Result<u32, IoErr>
    requires job { IsRepairJob job.now }
    requires first { first < job.now.plan.pieces }
    ensures right { IfOk result (λ count. IsTrue D.tells
        → AreRight job.now count first (D.state disk.old).seen) }
    ensures steps { IsTrue D.tells → StepsBy IsSame (D.state disk.old) (D.state disk.new) }
    ensures cause { HasCause (D.faults disk.old) (D.faults disk.new) result }
{
    let (near, far) = buffer.split_at_mut(buffer.len() / 2);
    let (start, count) = whole_ahead(job, first, near.len());
    if count < threads.max(2) {
        return Ok(0);
    }
    let into = &mut near[..count * job.plan.piece_len as usize];
    read_behind(disk, job.name, start, into)?;
    count_ahead(
        rt, alloc, disk, job, first, start, count, threads, MOST_READS, near, far,
    )
}

/// Where no piece is known ahead, it is looked for some, unless the piece before was wrong: then others may be, and would be
/// hashed twice.
pub(crate) fn look_ahead<R: Threads + Sync, D: Disk>(
    rt: &R,
    alloc: Global,
    disk: &mut D,
    job: &RepairJob,
    piece: u32,
    threads: usize,
    ahead: &mut Ahead,
    buffer: &mut [u8],
) -> Result<(), IoErr>
    requires job { IsRepairJob job.now }
    requires piece { piece < job.now.plan.pieces }
    requires right { IsTrue D.tells
        → AreRight job.now ahead.old.known piece (D.state disk.old).seen }
    ensures right { OnOk result (IsTrue D.tells
        → AreRight job.now ahead.new.known piece (D.state disk.old).seen) }
    ensures steps { IsTrue D.tells → StepsBy IsSame (D.state disk.old) (D.state disk.new) }
    ensures cause { HasCause (D.faults disk.old) (D.faults disk.new) result }
{
    if ahead.known > 0 || !ahead.looks {
        return Ok(());
    }
    ahead.known = count_right(rt, alloc, disk, job, piece, threads, buffer)?;
    Ok(())
}
