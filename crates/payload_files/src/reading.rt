// Slices of a payload are read from its files.
ghost use Rattle.std.specs.Prelude.{◌≡◌, ◌≤◌, ◌+◌, length, IsTrue, OnOk};
ghost use Rattle.dl_kinds.specs.Causes.{HasCause};
ghost use Rattle.span_map.specs.Layout.{total_of};
ghost use Rattle.span_map.specs.Slices.{IsPart};
ghost use Rattle.payload_files.specs.Payload.{contents_in};
ghost use Rattle.payload_files.specs.Reading.{ReadsOnly, ReadsPart, ReadsParts, ReadsSlice};

use crate::names::file_name;
use dl_disk::Disk;
use dl_kinds::IoErr;
use span_map::{Layout, Part, parts_hold_slices};
use std::alloc::Global;

// Reads the bytes of one part.
fn read_part<D: Disk>(
    alloc: Global,
    disk: &mut D,
    dir: &str,
    layout: &Layout,
    part: &Part,
    into: &mut [u8],
) -> Result<(), IoErr>
    requires part { IsPart layout.now part.now }
    requires len { length into.old ≡ part.now.len }
    ensures read { OnOk result (IsTrue D.tells
        → ReadsPart (contents_in dir.now layout.now (D.state disk.old).seen) part.now into.new) }
    ensures looks { IsTrue D.tells
        → ReadsOnly dir.now layout.now (D.state disk.old) (D.state disk.new) }
    ensures cause { HasCause (D.faults disk.old) (D.faults disk.new) result }
{
    let file = &layout.files()[part.file as usize];
    let name = file_name(alloc, dir, &file.path)?;
    disk.read_at(name.as_str(), part.at, into)
}

/// Fills the buffer with the bytes of the payload from `at` on, out of the files that hold them, by one read for each
/// file. It is a fault where one of them is missing or ends before. The first failure ends it, and the buffer may then
/// have some of the bytes.
pub fn read_slice<D: Disk>(
    alloc: Global,
    disk: &mut D,
    dir: &str,
    layout: &Layout,
    at: u64,
    into: &mut [u8],
) -> Result<(), IoErr>
    requires { at + length into.old ≤ total_of layout.now }
    ensures parts { OnOk result (IsTrue D.tells → ReadsParts layout.now
        (contents_in dir.now layout.now (D.state disk.old).seen) at into.new) }
    ensures slice { OnOk result (IsTrue D.tells
        → ReadsSlice dir.now layout.now at into.new (D.state disk.old).seen) }
    ensures looks { IsTrue D.tells
        → ReadsOnly dir.now layout.now (D.state disk.old) (D.state disk.new) }
    ensures cause { HasCause (D.faults disk.old) (D.faults disk.new) result }
{
    let parts = layout.parts(alloc, at, into.len() as u64)?;
    let mut read = 0;
    for part in &parts {
        let end = read + part.len as usize;
        read_part(alloc, disk, dir, layout, part, &mut into[read..end])?;
        read = end;
    }
    parts_hold_slices();
    Ok(())
}
