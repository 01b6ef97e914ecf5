// Metainfo files on a disk.
ghost use Rattle.std.specs.Prelude.{◌≡◌, ◌≤◌, ℕ, List, Option, IsTrue, IfOk, IsErrOf, MatchResult, length};
ghost use Rattle.dl_kinds.specs.Counts.{Rose};
ghost use Rattle.dl_disk.specs.Calls.{Stays};
ghost use Rattle.dl_disk.specs.Files.{IsSame};
ghost use Rattle.dl_disk.specs.Passes.{Passes};
ghost use Rattle.metainfo.specs.Info.{info_of};
ghost use Rattle.metainfo.specs.Rules.{IsMetaOfSome};
ghost use Rattle.command_call.specs.Files.{HasBytes, RefusesFile, Says};
ghost use Rattle.command_call.specs.declared.file.TheConstants.{MAX_METAINFO_FILE};
ghost use Rattle.command_call.specs.declared.refusals.SourceErr.TheVariants.{Fault};

use crate::refusals::SourceErr;
use dl_disk::Disk;
use dl_kinds::IoErr;
use metainfo::{Meta, MetaErr};
use std::alloc::Global;

/// The most bytes of a metainfo file.
pub const MAX_METAINFO_FILE: u64 = 33_554_432;

impl From<IoErr> for SourceErr {
    ghost use Rattle.command_call.specs.Files.{refusal_of_disk};

    ghost from_gives = { λ x e. e ≡ refusal_of_disk x };

    fn from(error: IoErr) -> Self {
        match error {
            IoErr::Fault => SourceErr::Fault,
            IoErr::NoMemory => SourceErr::NoMemory,
        }
    }
}

// The bytes of the file of this name.
fn bytes_of<D: Disk>(alloc: Global, disk: &mut D, name: &str) -> Result<Vec<u8>, SourceErr>
    ensures told { IsTrue D.tells → MatchResult result
        (λ bytes. HasBytes ((D.state disk.old).seen name.now) bytes.items)
        (RefusesFile ((D.state disk.old).seen name.now)) }
    ensures small { IfOk result (λ bytes. length bytes.items ≤ MAX_METAINFO_FILE) }
    ensures fault { IsErrOf result Fault → Rose (D.faults disk.old) (D.faults disk.new) }
    ensures later { D.faults disk.old ≤ D.faults disk.new }
    ensures stays { IsTrue D.tells → Stays (D.state disk.old) (D.state disk.new) }
    ensures passes { IsTrue D.tells → Passes IsSame (D.state disk.old) (D.state disk.new) }
    ensures folders { IsTrue D.tells → (D.state disk.new).folders ≡ (D.state disk.old).folders }
{
    let len = match disk.len(name)? {
        None => return Err(SourceErr::Missing),
        Some(len) => len,
    };
    if len > MAX_METAINFO_FILE {
        return Err(SourceErr::TooLarge);
    }
    let mut bytes = vec![in alloc; 0; len as usize]?;
    disk.read_at(name, 0, &mut bytes)?;
    Ok(bytes)
}

// What the bytes of a file say.
fn meta_of(alloc: Global, bytes: &[u8]) -> Result<Meta, SourceErr>
    requires { length bytes.now ≤ MAX_METAINFO_FILE }
    ensures told { (file : Option (List ℕ)) → HasBytes file bytes.now
        → MatchResult result (λ meta. Says file (info_of meta)) (RefusesFile file) }
    ensures said { IfOk result (λ meta. IsMetaOfSome (info_of meta)) }
    ensures fault { IsErrOf result Fault → ⊥ }
{
    match Meta::read(alloc, bytes) {
        Ok(meta) => Ok(meta),
        Err(MetaErr::NoMemory) => Err(SourceErr::NoMemory),
        Err(error) => Err(SourceErr::Meta(error)),
    }
}

/// Reads the metainfo file of this name.
pub fn read_metainfo_file<D: Disk>(
    alloc: Global,
    disk: &mut D,
    name: &str,
) -> Result<Meta, SourceErr>
    ensures told { IsTrue D.tells → MatchResult result
        (λ meta. Says ((D.state disk.old).seen name.now) (info_of meta))
        (RefusesFile ((D.state disk.old).seen name.now)) }
    ensures said { IfOk result (λ meta. IsMetaOfSome (info_of meta)) }
    ensures fault { IsErrOf result Fault → Rose (D.faults disk.old) (D.faults disk.new) }
    ensures later { D.faults disk.old ≤ D.faults disk.new }
    ensures stays { IsTrue D.tells → Stays (D.state disk.old) (D.state disk.new) }
    ensures passes { IsTrue D.tells → Passes IsSame (D.state disk.old) (D.state disk.new) }
    ensures folders { IsTrue D.tells → (D.state disk.new).folders ≡ (D.state disk.old).folders }
{
    let bytes = bytes_of(alloc, disk, name)?;
    meta_of(alloc, &bytes)
}
