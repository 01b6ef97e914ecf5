// The lengths that the files of a payload have on the disk, and the bytes that stand with them.
ghost use Rattle.std.specs.Prelude.{◌≡◌, ◌↔◌, ◌<◌, ◌≤◌, ◌+◌, length, option_map, Some, IsTrue, IfOk};
ghost use Rattle.dl_kinds.specs.Causes.{HasCause};
ghost use Rattle.dl_kinds.specs.Plan.{blocks_of};
ghost use Rattle.span_map.specs.Layout.{total_of};
ghost use Rattle.payload_files.specs.Names.{name_of};
ghost use Rattle.resume_core.specs.Lens.{lens_of_files, first_len, AreWhole, PartStands, SpanStands, PieceStands, BlockStands};
ghost use Rattle.resume_core.specs.Openings.{LooksPast, AnyFile};
ghost use Rattle.control_file.specs.Wants.{IsWant};

use control_file::Want;
use dl_disk::Disk;
use dl_kinds::IoErr;
use payload_files::file_name;
use span_map::{FileLen, Layout, Part};
use std::alloc::{AllocError, Global};

fn file_len<D: Disk>(
    alloc: Global,
    disk: &mut D,
    dir: &str,
    file: &FileLen,
) -> Result<Option<u64>, IoErr>
    ensures len { IfOk result (λ len. IsTrue D.tells
        → len ≡ option_map length ((D.state disk.old).seen (name_of dir.now file.now.path))) }
    ensures looks { IsTrue D.tells → LooksPast AnyFile (D.state disk.old) (D.state disk.new) }
    ensures cause { HasCause (D.faults disk.old) (D.faults disk.new) result }
{
    let name = file_name(alloc, dir, &file.path)?;
    disk.len(name.as_str())
}

/// The length of each file, and none of one that is missing.
pub(crate) fn file_lens<D: Disk>(
    alloc: Global,
    disk: &mut D,
    dir: &str,
    layout: &Layout,
) -> Result<Vec<Option<u64>>, IoErr>
    ensures lens { IfOk result (λ lens. IsTrue D.tells
        → lens.items ≡ lens_of_files dir.now layout.now (D.state disk.old).seen) }
    ensures count { IfOk result (λ lens. length lens.items ≡ length layout.now) }
    ensures looks { IsTrue D.tells → LooksPast AnyFile (D.state disk.old) (D.state disk.new) }
    ensures cause { HasCause (D.faults disk.old) (D.faults disk.new) result }
{
    let mut lens = Vec::new(alloc);
    for file in layout.files() {
        lens.push(file_len(alloc, disk, dir, file)?)?;
    }
    Ok(lens)
}

/// The length of the first file that stands.
pub(crate) fn first_len(lens: &[Option<u64>]) -> Option<u64>
    ensures { result ≡ first_len lens.now }
{
    for len in lens {
        if len.is_some() {
            return *len;
        }
    }
    None
}

/// Whether each file has its length.
pub(crate) fn are_whole(want: &Want, lens: &[Option<u64>]) -> bool
    requires { length lens.now ≡ length want.now.layout }
    ensures { IsTrue result ↔ AreWhole want.now lens.now }
{
    let files = want.layout.files();
    for index in 0..files.len() {
        if lens[index] != Some(files[index].len) {
            return false;
        }
    }
    true
}

// Whether a file has all of a part.
fn part_stands(lens: &[Option<u64>], part: &Part) -> bool
    requires { part.now.file < length lens.now }
    ensures { IsTrue result ↔ PartStands lens.now part.now }
{
    let have = lens[part.file as usize].unwrap_or(0);
    part.at <= have && part.len <= have - part.at
}

// Whether the files have so many bytes of the payload from this place on.
fn span_stands(
    alloc: Global,
    want: &Want,
    lens: &[Option<u64>],
    at: u64,
    len: u32,
) -> Result<bool, AllocError>
    requires lens { length lens.now ≡ length want.now.layout }
    requires within { at + len ≤ total_of want.now.layout }
    ensures { IfOk result (λ stands. IsTrue stands ↔ SpanStands want.now lens.now at (at + len)) }
{
    let parts = want.layout.parts(alloc, at, len as u64)?;
    for part in &parts {
        if !part_stands(lens, part) {
            return Ok(false);
        }
    }
    Ok(true)
}

/// Whether the files have all of a piece.
pub(crate) fn piece_stands(
    alloc: Global,
    want: &Want,
    lens: &[Option<u64>],
    piece: u32,
) -> Result<bool, AllocError>
    requires want { IsWant want.now }
    requires lens { length lens.now ≡ length want.now.layout }
    requires piece { piece < want.now.plan.pieces }
    ensures { IfOk result (λ stands. IsTrue stands ↔ PieceStands want.now lens.now piece) }
{
    let (start, len) = want.plan.piece_span(piece);
    span_stands(alloc, want, lens, start, len)
}

/// Whether the files have all of a block.
pub(crate) fn block_stands(
    alloc: Global,
    want: &Want,
    lens: &[Option<u64>],
    block: u32,
) -> Result<bool, AllocError>
    requires want { IsWant want.now }
    requires lens { length lens.now ≡ length want.now.layout }
    requires block { block < blocks_of want.now.plan.total want.now.plan.piece_len }
    ensures { IfOk result (λ stands. IsTrue stands ↔ BlockStands want.now lens.now block) }
{
    let (start, len) = want.plan.block_span(block);
    span_stands(alloc, want, lens, start, len)
}
