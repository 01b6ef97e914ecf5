// The metainfo file of a payload.
ghost use Rattle.std.specs.Prelude.{◌≡◌, ◌≤◌, ℕ, List, Option, IsTrue, IfOk, IsErrOf, MatchResult, length};
ghost use Rattle.command_call.specs.Files.{HasBytes};
ghost use Rattle.command_call.specs.declared.file.TheConstants.{MAX_METAINFO_FILE};
ghost use Rattle.dl_kinds.specs.Counts.{Rose};
ghost use Rattle.meta_v2.specs.Sound.{IsSoundV2};
ghost use Rattle.run_lifecycle.specs.Begins.{IsRead};
ghost use Rattle.check_run.specs.Files.{RefusesV2, SaysV2};
ghost use Rattle.check_run.specs.declared.file_err.FileErr.TheVariants.{Fault};

use crate::file_err::FileErr;
use command_call::MAX_METAINFO_FILE;
use dl_disk::Disk;
use meta_v2::{MetaV2, V2Err};
use std::alloc::Global;

// The bytes of the file of this name.
fn bytes_of<D: Disk>(alloc: Global, disk: &mut D, name: &str) -> Result<Vec<u8>, FileErr>
    ensures told { IsTrue D.tells → MatchResult result
        (λ bytes. HasBytes ((D.state disk.old).seen name.now) bytes.items)
        (RefusesV2 ((D.state disk.old).seen name.now)) }
    ensures small { IfOk result (λ bytes. length bytes.items ≤ MAX_METAINFO_FILE) }
    ensures fault { IsErrOf result Fault → Rose (D.faults disk.old) (D.faults disk.new) }
    ensures read { IsRead D.Disk disk.old disk.new }
{
    let len = match disk.len(name)? {
        None => return Err(FileErr::Missing),
        Some(len) => len,
    };
    if len > MAX_METAINFO_FILE {
        return Err(FileErr::TooLong);
    }
    let mut bytes = vec![in alloc; 0; len as usize]?;
    disk.read_at(name, 0, &mut bytes)?;
    Ok(bytes)
}

// What the bytes of a file say.
fn meta_of(alloc: Global, bytes: &[u8]) -> Result<MetaV2, FileErr>
    requires { length bytes.now ≤ MAX_METAINFO_FILE }
    ensures told { (file : Option (List ℕ)) → HasBytes file bytes.now
        → MatchResult result (SaysV2 file) (RefusesV2 file) }
    ensures sound { IfOk result IsSoundV2 }
    ensures fault { IsErrOf result Fault → ⊥ }
{
    match MetaV2::read(alloc, bytes) {
        Ok(meta) => Ok(meta),
        Err(V2Err::NoMemory) => Err(FileErr::NoMemory),
        Err(error) => Err(FileErr::Broken(error)),
    }
}

// Reads the metainfo file of this name as version 2.
pub(crate) fn read_file<D: Disk>(alloc: Global, disk: &mut D, name: &str) -> Result<MetaV2, FileErr>
    ensures told { IsTrue D.tells → MatchResult result
        (SaysV2 ((D.state disk.old).seen name.now))
        (RefusesV2 ((D.state disk.old).seen name.now)) }
    ensures sound { IfOk result IsSoundV2 }
    ensures fault { IsErrOf result Fault → Rose (D.faults disk.old) (D.faults disk.new) }
    ensures read { IsRead D.Disk disk.old disk.new }
{
    let bytes = bytes_of(alloc, disk, name)?;
    meta_of(alloc, &bytes)
}
