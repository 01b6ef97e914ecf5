// Blocks of a piece are written into a file, and a short file gets its length.
ghost use Rattle.std.specs.Prelude.{◌≡◌, ◌+◌, ◌*◌, ◌^◌, ◌<◌, ◌≤◌, ◌∷◌, [], length, IsTrue, IfOk, OnOk, IfSome, Contains};
ghost use Rattle.std.specs.List.{range_with_len};
ghost use Rattle.dl_disk.specs.Files.{IsSame, file_bytes};
ghost use Rattle.dl_kinds.specs.Causes.{HasCause};
ghost use Rattle.dl_kinds.specs.declared.plan.TheConstants.{BLOCK_LEN};
ghost use Rattle.payload_repair.specs.Blocks.{HavePlaces, PutsBlocks};
ghost use Rattle.payload_repair.specs.Mends.{LengthensFile, MendsBlocks};
ghost use Rattle.payload_repair.specs.StepsBy.{StepsBy};

use crate::watching::RepairWatch;
use dl_disk::Disk;
use dl_kinds::{BLOCK_LEN, IoErr};
use std::alloc::{AllocError, Global};

// The places of so many blocks.
pub(crate) fn places_below(alloc: Global, count: usize) -> Result<Vec<u16>, AllocError>
    requires { count ≤ 65536 }
    ensures { IfOk result (λ places. places.items ≡ range_with_len 0 count) }
{
    let mut places = Vec::new(alloc);
    for place in 0..count {
        places.push(place as u16)?;
    }
    Ok(places)
}

// Writes one of the blocks of these bytes, which begin at `start` in the file.
fn write_block<D: Disk>(
    disk: &mut D,
    name: &str,
    start: u64,
    bytes: &[u8],
    place: u16,
) -> Result<(), IoErr>
    requires place { place * BLOCK_LEN < length bytes.now }
    requires room { start + length bytes.now < 2 ^ 63 }
    ensures written { OnOk result (IsTrue D.tells → PutsBlocks start bytes.now (place ∷ [])
        (file_bytes ((D.state disk.old).seen name.now))
        (file_bytes ((D.state disk.new).seen name.now))) }
    ensures steps { IsTrue D.tells
        → StepsBy (MendsBlocks name.now start (length bytes.now) (place ∷ []))
        (D.state disk.old) (D.state disk.new) }
    ensures cause { HasCause (D.faults disk.old) (D.faults disk.new) result }
{
    let rest = &bytes[place as usize * BLOCK_LEN as usize..];
    let block = &rest[..rest.len().min(BLOCK_LEN as usize)];
    disk.write_at(name, start + place as u64 * BLOCK_LEN as u64, block)
}

// Writes those blocks of these bytes, which begin at `start` in the file, that are at these places.
pub(crate) fn write_blocks<D: Disk, W: RepairWatch>(
    disk: &mut D,
    name: &str,
    start: u64,
    bytes: &[u8],
    places: &[u16],
    watch: &mut W,
) -> Result<(), IoErr>
    requires places { HavePlaces bytes.now places.now }
    requires room { start + length bytes.now < 2 ^ 63 }
    ensures written { OnOk result (IsTrue D.tells → PutsBlocks start bytes.now places.now
        (file_bytes ((D.state disk.old).seen name.now))
        (file_bytes ((D.state disk.new).seen name.now))) }
    ensures steps { IsTrue D.tells
        → StepsBy (MendsBlocks name.now start (length bytes.now) places.now)
        (D.state disk.old) (D.state disk.new) }
    ensures cause { HasCause (D.faults disk.old) (D.faults disk.new) result }
{
    for place in places {
        write_block(disk, name, start, bytes, *place)?;
        watch.wrote_block(name, start, *place);
    }
    Ok(())
}

// Makes a folder, if one is asked for.
fn make_folder<D: Disk>(disk: &mut D, folder: Option<&str>) -> Result<(), IoErr>
    ensures made { OnOk result (IsTrue D.tells
        → IfSome folder.entry (λ folder. Contains (D.state disk.new).folders folder.now)) }
    ensures steps { IsTrue D.tells → StepsBy IsSame (D.state disk.old) (D.state disk.new) }
    ensures cause { HasCause (D.faults disk.old) (D.faults disk.new) result }
{
    match folder {
        Some(folder) => disk.make_dir(folder),
        None => Ok(()),
    }
}

// Makes the folder of a file, if it is in one, and gives the file its length.
pub(crate) fn fit_file<D: Disk>(
    disk: &mut D,
    folder: Option<&str>,
    name: &str,
    len: u64,
) -> Result<(), IoErr>
    ensures len { OnOk result (IsTrue D.tells
        → length (file_bytes ((D.state disk.new).seen name.now)) ≡ len) }
    ensures made { OnOk result (IsTrue D.tells
        → IfSome folder.entry (λ folder. Contains (D.state disk.new).folders folder.now)) }
    ensures steps { IsTrue D.tells
        → StepsBy (LengthensFile name.now len) (D.state disk.old) (D.state disk.new) }
    ensures cause { HasCause (D.faults disk.old) (D.faults disk.new) result }
{
    make_folder(disk, folder)?;
    disk.set_len(name, len)
}
