// A payload is checked, repaired from a copy and made to last.
ghost use Rattle.std.specs.Prelude.{◌≡◌, ◌-◌, ◌^◌, ◌≤◌, length, min, IsTrue, IsErrOf, IfOk, OnOk};
ghost use Rattle.dl_disk.specs.Files.{IsSame};
ghost use Rattle.dl_kinds.specs.Causes.{HasCause};
ghost use Rattle.dl_kinds.specs.Counts.{Rose};
ghost use Rattle.meta_v2.specs.Sound.{all_bytes, IsSoundV2};
ghost use Rattle.payload_repair.specs.Payload.{HaveOtherNames};
ghost use Rattle.payload_repair.specs.Promises.{KeepsWhatIsRight, LastsAll, RepairsAll, SharesNoFile, WritesNoMore, counts_by, task_of};
ghost use Rattle.payload_repair.specs.StepsBy.{StepsBy};
ghost use Rattle.payload_repair.specs.Whole.{AreSynced};
ghost use Rattle.payload_repair.specs.declared.repair_err.RepairErr.TheVariants.{Disk as DiskFault, NoMemory};

use crate::ahead::room_ahead;
use crate::counts::Counts;
use crate::files::mend_file;
use crate::repair_err::RepairErr;
use crate::syncing::sync_standing;
use crate::watching::RepairWatch;
use dl_disk::Disk;
use dl_kinds::IoErr;
use meta_v2::{FileV2, MetaV2};
use payload_files::{file_name, names_differ};
use std::alloc::Global;
use std::thread::Threads;

// The bytes of all files, up to the last number of 64 bits.
fn total_len(files: &[FileV2]) -> u64
    ensures { result ≡ min (all_bytes files.now) (2 ^ 64 - 1) }
{
    let mut total: u64 = 0;
    for file in files {
        total = total.saturating_add(file.len);
    }
    total
}

// Checks each file and repairs it from its copy.
fn mend_files<R: Threads + Sync, D: Disk, W: RepairWatch>(
    rt: &R,
    alloc: Global,
    disk: &mut D,
    meta: &MetaV2,
    dir: &str,
    copy: Option<&str>,
    threads: usize,
    buffer: &mut [u8],
    watch: &mut W,
) -> Result<Counts, IoErr>
    requires sound { IsSoundV2 meta.now }
    requires names { HaveOtherNames dir.now meta.now.files }
    requires room { meta.now.piece_len ≤ length buffer.old }
    ensures counts { IfOk result (λ counts. IsTrue D.tells
        → SharesNoFile (task_of meta.now dir.now copy.entry)
        → counts ≡ counts_by (task_of meta.now dir.now copy.entry) (D.state disk.old).seen) }
    ensures repaired { OnOk result (IsTrue D.tells
        → SharesNoFile (task_of meta.now dir.now copy.entry)
        → RepairsAll (task_of meta.now dir.now copy.entry) (D.state disk.old) (D.state disk.new)) }
    ensures changes { IsTrue D.tells → SharesNoFile (task_of meta.now dir.now copy.entry)
        → WritesNoMore (task_of meta.now dir.now copy.entry) (D.state disk.old) (D.state disk.new) }
    ensures cause { HasCause (D.faults disk.old) (D.faults disk.new) result }
{
    let mut counts = Counts::none();
    for file in meta.files.as_slice() {
        let found = mend_file(
            rt,
            alloc,
            disk,
            meta.piece_len,
            file,
            dir,
            copy,
            threads,
            buffer,
            watch,
        )?;
        counts = counts.plus(found);
    }
    Ok(counts)
}

// Makes each file last that is there.
fn sync_files<D: Disk>(alloc: Global, disk: &mut D, meta: &MetaV2, dir: &str) -> Result<(), IoErr>
    ensures synced { OnOk result (IsTrue D.tells
        → AreSynced dir.now meta.now.files (D.state disk.new)) }
    ensures steps { IsTrue D.tells → StepsBy IsSame (D.state disk.old) (D.state disk.new) }
    ensures cause { HasCause (D.faults disk.old) (D.faults disk.new) result }
{
    for file in meta.files.as_slice() {
        let name = file_name(alloc, dir, &file.path)?;
        sync_standing(disk, name.as_str())?;
    }
    Ok(())
}

// Checks and repairs the files, and makes those last that are there.
fn repair_files<R: Threads + Sync, D: Disk, W: RepairWatch>(
    rt: &R,
    alloc: Global,
    disk: &mut D,
    meta: &MetaV2,
    dir: &str,
    copy: Option<&str>,
    threads: usize,
    watch: &mut W,
) -> Result<Counts, IoErr>
    requires { IsSoundV2 meta.now }
    ensures counts { IfOk result (λ counts. IsTrue D.tells
        → SharesNoFile (task_of meta.now dir.now copy.entry)
        → counts ≡ counts_by (task_of meta.now dir.now copy.entry) (D.state disk.old).seen) }
    ensures repaired { OnOk result (IsTrue D.tells
        → SharesNoFile (task_of meta.now dir.now copy.entry)
        → RepairsAll (task_of meta.now dir.now copy.entry) (D.state disk.old) (D.state disk.new)) }
    ensures blocks { IsTrue D.tells → SharesNoFile (task_of meta.now dir.now copy.entry)
        → WritesNoMore (task_of meta.now dir.now copy.entry) (D.state disk.old) (D.state disk.new) }
    ensures kept { IsTrue D.tells → SharesNoFile (task_of meta.now dir.now copy.entry)
        → KeepsWhatIsRight (task_of meta.now dir.now copy.entry) (D.state disk.old)
        (D.state disk.new) }
    ensures lasts { OnOk result (IsTrue D.tells
        → LastsAll (task_of meta.now dir.now copy.entry) (D.state disk.new)) }
    ensures synced { OnOk result (IsTrue D.tells
        → AreSynced dir.now meta.now.files (D.state disk.new)) }
    ensures cause { HasCause (D.faults disk.old) (D.faults disk.new) result }
{
    names_differ();
    let mut buffer = Vec::new(alloc);
    let total = total_len(meta.files.as_slice());
    buffer.resize(room_ahead(meta.piece_len, threads, total), 0)?;
    let counts = mend_files(
        rt,
        alloc,
        disk,
        meta,
        dir,
        copy,
        threads,
        &mut buffer,
        watch,
    )?;
    sync_files(alloc, disk, meta, dir)?;
    Ok(counts)
}

/// Checks the payload of a version 2 torrent in a folder against its piece hashes, repairs it from the copy in another
/// folder, block by block of 16 KiB, and makes the files last that are there. A piece that is wrong or missing and is right
/// in the copy is repaired: just those of its blocks are written whose leaves differ, and all where its file is short or
/// missing, which gets its folder and its length first. A file that is longer stays so. Without a copy nothing is written.
/// The first failure ends it.
///
/// Pieces are hashed by at most `threads` threads at once, and by one at least, while the next ones are read. It holds a piece in
/// memory for each thread, or 16 MiB of shorter ones: no more than 64 MiB in all, and than the payload has, or else one piece.
pub fn repair<R: Threads + Sync, D: Disk, W: RepairWatch>(
    rt: &R,
    alloc: Global,
    disk: &mut D,
    meta: &MetaV2,
    dir: &str,
    copy: Option<&str>,
    threads: usize,
    watch: &mut W,
) -> Result<Counts, RepairErr>
    requires { IsSoundV2 meta.now }
    ensures counts { IfOk result (λ counts. IsTrue D.tells
        → SharesNoFile (task_of meta.now dir.now copy.entry)
        → counts ≡ counts_by (task_of meta.now dir.now copy.entry) (D.state disk.old).seen) }
    ensures repaired { OnOk result (IsTrue D.tells
        → SharesNoFile (task_of meta.now dir.now copy.entry)
        → RepairsAll (task_of meta.now dir.now copy.entry) (D.state disk.old) (D.state disk.new)) }
    ensures blocks { IsTrue D.tells → SharesNoFile (task_of meta.now dir.now copy.entry)
        → WritesNoMore (task_of meta.now dir.now copy.entry) (D.state disk.old) (D.state disk.new) }
    ensures kept { IsTrue D.tells → SharesNoFile (task_of meta.now dir.now copy.entry)
        → KeepsWhatIsRight (task_of meta.now dir.now copy.entry) (D.state disk.old)
        (D.state disk.new) }
    ensures lasts { OnOk result (IsTrue D.tells
        → LastsAll (task_of meta.now dir.now copy.entry) (D.state disk.new)) }
    ensures synced { OnOk result (IsTrue D.tells
        → AreSynced dir.now meta.now.files (D.state disk.new)) }
    ensures later { D.faults disk.old ≤ D.faults disk.new }
    ensures done { OnOk result (D.faults disk.new ≡ D.faults disk.old) }
    ensures fault { IsErrOf result DiskFault → Rose (D.faults disk.old) (D.faults disk.new) }
    ensures none { IsErrOf result NoMemory → D.faults disk.new ≡ D.faults disk.old }
{
    watch.begun(total_len(meta.files.as_slice()));
    match repair_files(rt, alloc, disk, meta, dir, copy, threads, watch) {
        Ok(counts) => Ok(counts),
        Err(IoErr::Fault) => Err(RepairErr::Disk),
        Err(IoErr::NoMemory) => Err(RepairErr::NoMemory),
    }
}
