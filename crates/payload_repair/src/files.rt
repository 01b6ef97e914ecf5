// The files of a payload are checked and repaired, one after the other.
ghost use Rattle.std.specs.Prelude.{◌≡◌, ◌≤◌, ◌<◌, ℕ, length, option_map, IsTrue, IfOk, IfSome, OnOk};
ghost use Rattle.dl_disk.specs.Files.{IsSame, file_bytes};
ghost use Rattle.dl_kinds.specs.Causes.{HasCause};
ghost use Rattle.dl_kinds.specs.Plan.{pieces_of};
ghost use Rattle.dl_kinds.specs.declared.plan.TheConstants.{MAX_PAYLOAD_LEN, MAX_PIECES};
ghost use Rattle.merkle_trees.specs.Trees.{IsPieceLen};
ghost use Rattle.meta_v2.specs.Sound.{IsFileV2};
ghost use Rattle.payload_repair.specs.Counting.{AreOf};
ghost use Rattle.payload_repair.specs.Payload.{ChangesFile, CopyIsApart, FileIsRepaired, file_counts};
ghost use Rattle.payload_repair.specs.StepsBy.{StepsBy};

use crate::counts::Counts;
use crate::job::RepairJob;
use crate::mending::mend_pieces;
use crate::names::{as_text, names_of};
use crate::watching::RepairWatch;
use dl_disk::Disk;
use dl_kinds::{IoErr, Plan};
use merkle_trees::SHA256_LEN;
use meta_v2::FileV2;
use std::alloc::Global;
use std::thread::Threads;

// The length of a file, 0 where it is missing.
fn len_of<D: Disk>(disk: &mut D, name: &str) -> Result<u64, IoErr>
    ensures len { IfOk result (λ len. IsTrue D.tells
        → len ≡ length (file_bytes ((D.state disk.old).seen name.now))) }
    ensures steps { IsTrue D.tells → StepsBy IsSame (D.state disk.old) (D.state disk.new) }
    ensures cause { HasCause (D.faults disk.old) (D.faults disk.new) result }
{
    match disk.len(name)? {
        Some(len) => Ok(len),
        None => Ok(0),
    }
}

// The length of the copy, 0 where there is none.
fn len_of_copy<D: Disk>(disk: &mut D, copy: Option<&str>) -> Result<u64, IoErr>
    ensures len { IfOk result (λ len. IsTrue D.tells → IfSome copy.entry
        (λ name. len ≡ length (file_bytes ((D.state disk.old).seen name.now)))) }
    ensures steps { IsTrue D.tells → StepsBy IsSame (D.state disk.old) (D.state disk.new) }
    ensures cause { HasCause (D.faults disk.old) (D.faults disk.new) result }
{
    match copy {
        Some(name) => len_of(disk, name),
        None => Ok(0),
    }
}

// The pieces of a file.
fn plan_of(len: u64, piece_len: u32) -> Plan
    requires piece_len { IsPieceLen piece_len }
    requires few { pieces_of len piece_len ≤ MAX_PIECES }
    requires bounded { len ≤ MAX_PAYLOAD_LEN }
    ensures total { result.total ≡ len }
    ensures piece_len { result.piece_len ≡ piece_len }
{
    match Plan::new(len, piece_len) {
        Some(plan) => plan,
        None => unreachable!(),
    }
}

// What is checked and repaired.
fn job_of<'a>(
    plan: Plan,
    hashes: &'a [[u8; SHA256_LEN]],
    folder: Option<&'a str>,
    name: &'a str,
    len: u64,
    copy: Option<&'a str>,
    copy_len: u64,
) -> RepairJob<'a>
    ensures plan { result.plan ≡ plan }
    ensures hashes { result.hashes.now ≡ hashes.now }
    ensures folder { result.folder ≡ folder.entry }
    ensures name { result.name.now ≡ name.now }
    ensures len { result.len ≡ len }
    ensures copy { result.copy ≡ copy.entry }
    ensures copy_len { result.copy_len ≡ copy_len }
{
    RepairJob {
        plan,
        hashes,
        folder,
        name,
        len,
        copy,
        copy_len,
    }
}

// Checks a file and repairs it from its copy.
pub(crate) fn mend_file<R: Threads + Sync, D: Disk, W: RepairWatch>(
    rt: &R,
    alloc: Global,
    disk: &mut D,
    piece_len: u32,
    file: &FileV2,
    dir: &str,
    copy: Option<&str>,
    threads: usize,
    buffer: &mut [u8],
    watch: &mut W,
) -> Result<Counts, IoErr>
    requires piece_len { IsPieceLen piece_len }
    requires file { IsFileV2 piece_len file.now }
    requires few { pieces_of file.now.len piece_len ≤ MAX_PIECES }
    requires bounded { file.now.len ≤ MAX_PAYLOAD_LEN }
    requires room { piece_len ≤ length buffer.old }
    ensures counts { IfOk result (λ counts. IsTrue D.tells
        → CopyIsApart dir.now (option_map (λ folder. folder.now) copy.entry) file.now
        → counts ≡ file_counts piece_len dir.now (option_map (λ folder. folder.now) copy.entry)
        (D.state disk.old).seen file.now) }
    ensures bounded { IfOk result
        (AreOf (pieces_of file.now.len piece_len) file.now.len) }
    ensures repaired { OnOk result (IsTrue D.tells
        → CopyIsApart dir.now (option_map (λ folder. folder.now) copy.entry) file.now
        → FileIsRepaired piece_len dir.now (option_map (λ folder. folder.now) copy.entry)
        (D.state disk.old).seen (D.state disk.new) file.now) }
    ensures changes { IsTrue D.tells
        → CopyIsApart dir.now (option_map (λ folder. folder.now) copy.entry) file.now
        → ChangesFile piece_len dir.now (option_map (λ folder. folder.now) copy.entry) file.now
        (D.state disk.old) (D.state disk.new) }
    ensures cause { HasCause (D.faults disk.old) (D.faults disk.new) result }
{
    let names = names_of(alloc, dir, copy, &file.path)?;
    let len = len_of(disk, names.own.as_str())?;
    let copied = as_text(&names.copy);
    let copy_len = len_of_copy(disk, copied)?;
    let plan = plan_of(file.len, piece_len);
    let folder = as_text(&names.folder);
    let hashes = file.layer.as_slice();
    let job = job_of(
        plan,
        hashes,
        folder,
        names.own.as_str(),
        len,
        copied,
        copy_len,
    );
    mend_pieces(rt, alloc, disk, &job, threads, buffer, watch)
}
