// The calls of the store, and what came of them as text.
ghost use Rattle.std.specs.Prelude.{◌≤◌};
ghost use Rattle.control_file.specs.Wants.{IsWant};
ghost use Rattle.span_map.specs.Jobs.{IsRun};

use crate::bringing;
use crate::wants::run_of;
use anyhow::{Result, bail};
use control_file::Want;
use dl_disk::Disk;
use dl_kinds::Run;
use resume_core::{finish, resume};
use std::alloc::{AllocError, Global};

// Opens the download, and tells its pieces and its blocks as hexadecimal digits, or why it isn't opened.
fn open<D: Disk>(
    alloc: Global,
    disk: &mut D,
    want: &Want,
    check: bool,
) -> Result<String, AllocError>
    requires { IsWant want.now }
{
    match resume(alloc, disk, want, check) {
        Ok(opened) => {
            let pieces = hex::encode(alloc, opened.verified.bytes())?;
            let blocks = hex::encode(alloc, opened.blocks.bytes())?;
            format!(in alloc; "pieces {pieces} blocks {blocks}")
        }
        Err(err) => format!(in alloc; "{err}"),
    }
}

// Brings the download a run of blocks of this payload.
fn bring<D: Disk>(
    alloc: Global,
    disk: &mut D,
    want: &Want,
    run: Run,
    payload: &[u8],
) -> Result<String, AllocError>
    requires want { IsWant want.now }
    requires run { IsRun want.now.plan run }
    requires few { run.count ≤ 64 }
{
    let (start, _) = want.plan.block_span(run.first);
    let (last, len) = want.plan.block_span(run.first + run.count - 1);
    let Some(bytes) = payload.get(start as usize..(last + len as u64) as usize) else {
        return String::from_str(alloc, "the payload is too short");
    };
    match bringing::bring(alloc, disk, want, run, bytes) {
        Ok(true) => String::from_str(alloc, "brought"),
        Ok(false) => String::from_str(alloc, "a block of it stands"),
        Err(err) => format!(in alloc; "{err}"),
    }
}

// Ends the download.
fn end<D: Disk>(alloc: Global, disk: &mut D, want: &Want) -> Result<String, AllocError>
    requires { IsWant want.now }
{
    match finish(alloc, disk, want) {
        Ok(()) => String::from_str(alloc, "finished"),
        Err(err) => format!(in alloc; "{err}"),
    }
}

/// Does what a word wants, and tells what came of it. What is brought is of this payload.
pub fn perform<D: Disk>(
    alloc: Global,
    disk: &mut D,
    want: &Want,
    word: &str,
    payload: &[u8],
) -> Result<String>
    requires { IsWant want.now }
{
    let mut parts = word.split(':');
    match parts.next() {
        Some("open") => Ok(open(alloc, disk, want, false)?),
        Some("check") => Ok(open(alloc, disk, want, true)?),
        Some("finish") => Ok(end(alloc, disk, want)?),
        Some("bring") => {
            let run = run_of(&want.plan, parts.next(), parts.next())?;
            Ok(bring(alloc, disk, want, run, payload)?)
        }
        _ => bail!("unknown: {word}"),
    }
}
