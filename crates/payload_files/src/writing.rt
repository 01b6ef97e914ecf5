// Slices of a payload are written into its files.
ghost use Rattle.std.specs.Prelude.{◌≡◌, ◌≤◌, ◌+◌, length, IsTrue, OnOk};
ghost use Rattle.dl_kinds.specs.Causes.{HasCause};
ghost use Rattle.dl_disk.specs.Passes.{Performs};
ghost use Rattle.span_map.specs.Layout.{total_of};
ghost use Rattle.span_map.specs.Slices.{IsPart};
ghost use Rattle.payload_files.specs.Payload.{part_start};
ghost use Rattle.payload_files.specs.Changes.{HoldsSlice, TornSlice, WritesSlice};

use crate::names::file_name;
use dl_disk::Disk;
use dl_kinds::IoErr;
use span_map::{Layout, Part};
use std::alloc::Global;

// Writes the bytes of one part.
fn write_part<D: Disk>(
    alloc: Global,
    disk: &mut D,
    dir: &str,
    layout: &Layout,
    part: &Part,
    bytes: &[u8],
) -> Result<(), IoErr>
    requires part { IsPart layout.now part.now }
    requires len { length bytes.now ≡ part.now.len }
    ensures written { OnOk result (IsTrue D.tells → WritesSlice dir.now layout.now
        (part_start layout.now part.now) bytes.now (D.state disk.old).seen
        (D.state disk.new).seen) }
    ensures performs { IsTrue D.tells → Performs (TornSlice dir.now layout.now
        (part_start layout.now part.now) (length bytes.now)) (D.state disk.old) (D.state disk.new) }
    ensures folders { IsTrue D.tells → (D.state disk.new).folders ≡ (D.state disk.old).folders }
    ensures cause { HasCause (D.faults disk.old) (D.faults disk.new) result }
{
    let file = &layout.files()[part.file as usize];
    let name = file_name(alloc, dir, &file.path)?;
    disk.write_at(name.as_str(), part.at, bytes)
}

/// Writes these bytes of the payload, which begin at `at` in it, into the files that hold them, by one write for each
/// file; a missing one is made. The first failure ends it, and what was written before stays.
pub fn write_slice<D: Disk>(
    alloc: Global,
    disk: &mut D,
    dir: &str,
    layout: &Layout,
    at: u64,
    bytes: &[u8],
) -> Result<(), IoErr>
    requires { at + length bytes.now ≤ total_of layout.now }
    ensures written { OnOk result (IsTrue D.tells → WritesSlice dir.now layout.now at bytes.now
        (D.state disk.old).seen (D.state disk.new).seen) }
    ensures stands { OnOk result (IsTrue D.tells → HoldsSlice dir.now layout.now at bytes.now
        (D.state disk.old).seen (D.state disk.new).seen) }
    ensures performs { IsTrue D.tells → Performs
        (TornSlice dir.now layout.now at (length bytes.now))
        (D.state disk.old) (D.state disk.new) }
    ensures folders { IsTrue D.tells → (D.state disk.new).folders ≡ (D.state disk.old).folders }
    ensures cause { HasCause (D.faults disk.old) (D.faults disk.new) result }
{
    let parts = layout.parts(alloc, at, bytes.len() as u64)?;
    let mut written = 0;
    for part in &parts {
        let end = written + part.len as usize;
        write_part(alloc, disk, dir, layout, part, &bytes[written..end])?;
        written = end;
    }
    Ok(())
}
