// A check of a payload, from the names of its files to the line that is printed.
ghost use Rattle.std.specs.Prelude.{ℕ, List};
ghost use Rattle.check_run.specs.Checks.{ChecksPayload, IsChecked};
ghost use Rattle.check_run.specs.OneCheck.{one_check};
ghost use Rattle.meta_v2.specs.Sound.{IsSoundV2};

use crate::file::read_file;
use crate::file_err::refusal_by;
use crate::limits::MAX_CHECK_THREADS;
use crate::line::report_counts;
use dl_disk::Disk;
use dl_kinds::Sink;
use machine_core::End;
use meta_v2::MetaV2;
use payload_repair::{RepairErr, RepairWatch, repair};
use run_lifecycle::refuse;
use run_report::RunEnding;
use std::alloc::Global;
use std::thread::{Threads, available_parallelism};

// As many threads as the machine has for this program, within the limit.
fn threads_of<R: Threads>(rt: &R) -> usize {
    match available_parallelism(rt) {
        Ok(count) => count.get().min(MAX_CHECK_THREADS),
        Err(_) => 1,
    }
}

// Checks the files of a payload, repairs them, and tells what was counted.
fn check_files<R: Threads + Sync, D: Disk, O: Sink, W: RepairWatch>(
    rt: &R,
    alloc: Global,
    disk: &mut D,
    meta: &MetaV2,
    dir: &str,
    copy: Option<&str>,
    out: &mut O,
    watch: &mut W,
) -> RunEnding
    requires { IsSoundV2 meta.now }
    ensures { (file : List ℕ) → IsChecked D.Disk O.Sink
        (one_check file dir.now copy.entry disk.old out.old result disk.new out.new) meta.now }
{
    match repair(rt, alloc, disk, meta, dir, copy, threads_of(rt), watch) {
        Ok(counts) => report_counts(alloc, counts, out),
        Err(RepairErr::Disk) => RunEnding::Failed(End::Disk {
            count: disk.faults(),
        }),
        Err(RepairErr::NoMemory) => RunEnding::NoMemory,
    }
}

/// Checks the payload in the folder `dir` by the metainfo file of this name, read as version 2, and repairs it from the folder
/// `copy`, as `payload_repair::repair` does. It prints the line of what was counted, or `error` and the exit status where the
/// file gives no payload. The exit status is 0 where each piece was right or is repaired, and otherwise 32; it is 17 where
/// the disk failed.
///
/// Pieces are hashed by as many threads as the machine has for this program, 16 at most.
pub fn check_payload<R: Threads + Sync, D: Disk, O: Sink, W: RepairWatch>(
    rt: &R,
    alloc: Global,
    disk: &mut D,
    file: &str,
    dir: &str,
    copy: Option<&str>,
    out: &mut O,
    watch: &mut W,
) -> RunEnding
    ensures { ChecksPayload D.Disk O.Sink
        (one_check file.now dir.now copy.entry disk.old out.old result disk.new out.new) }
{
    match read_file(alloc, disk, file) {
        Ok(meta) => check_files(rt, alloc, disk, &meta, dir, copy, out, watch),
        Err(error) => refuse(alloc, refusal_by(error), out),
    }
}
