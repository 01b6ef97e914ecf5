// The call of a command line.
ghost use Rattle.std.specs.Prelude.{◌≡◌, ◌≤◌, IsTrue, IfOk, IfSome, IsErrOf, MatchResult};
ghost use Rattle.dl_kinds.specs.Counts.{Rose};
ghost use Rattle.command_line.specs.Sources.{AreUris};
ghost use Rattle.dl_disk.specs.Calls.{Stays};
ghost use Rattle.dl_disk.specs.Files.{IsSame};
ghost use Rattle.dl_disk.specs.Passes.{Passes};
ghost use Rattle.machine_core.specs.LawfulCalls.{AreOfDownloads, IsLawful};
ghost use Rattle.command_call.specs.Sources.{AddsNamed, AddsSaid, AreNamed, IsCallOf, IsNamedCall, RefusesMetainfo, RefusesSource};
ghost use Rattle.command_call.specs.declared.refusals.SourceErr.TheVariants.{Fault};

use crate::file::read_metainfo_file;
use crate::refusals::SourceErr;
use command_line::Source;
use dl_disk::Disk;
use dl_kinds::{MAX_MIRRORS, Text, Texts};
use machine_core::Call;
use option_set::Settings;
use std::alloc::Global;

// The call that adds the download of a metainfo file, from the mirrors that it names and these.
fn torrent_call<D: Disk>(
    alloc: Global,
    file: &Text,
    uris: Texts,
    options: Settings,
    disk: &mut D,
) -> Result<Call, SourceErr>
    requires uris { AreUris uris }
    requires options { AreOfDownloads options }
    ensures told { IsTrue D.tells → MatchResult result
        (λ call. AddsSaid ((D.state disk.old).seen file.now) uris options call)
        (RefusesMetainfo ((D.state disk.old).seen file.now) uris) }
    ensures named { IfOk result (AddsNamed uris options) }
    ensures lawful { IfOk result IsLawful }
    ensures fault { IsErrOf result Fault → Rose (D.faults disk.old) (D.faults disk.new) }
    ensures later { D.faults disk.old ≤ D.faults disk.new }
    ensures stays { IsTrue D.tells → Stays (D.state disk.old) (D.state disk.new) }
    ensures passes { IsTrue D.tells → Passes IsSame (D.state disk.old) (D.state disk.new) }
    ensures folders { IsTrue D.tells → (D.state disk.new).folders ≡ (D.state disk.old).folders }
{
    let meta = read_metainfo_file(alloc, disk, file.as_str())?;
    let mirrors = meta.seeds.len() as u64 + uris.len() as u64;
    if mirrors == 0 || mirrors > MAX_MIRRORS as u64 {
        return Err(SourceErr::Mirrors(mirrors));
    }
    Ok(Call::AddTorrent {
        meta: Box::new(alloc, meta)?,
        uris,
        options,
        position: None,
    })
}

/// The call by which a command line adds what it names, with these options: a metainfo file is read for it, from the disk. There
/// is none for the console.
pub fn first_call<D: Disk>(
    alloc: Global,
    source: Source,
    options: Settings,
    disk: &mut D,
) -> Result<Option<Call>, SourceErr>
    requires named { AreNamed source }
    requires options { AreOfDownloads options }
    ensures told { IsTrue D.tells → MatchResult result
        (IsCallOf (D.state disk.old).seen source options)
        (RefusesSource (D.state disk.old).seen source) }
    ensures named { IfOk result (IsNamedCall source options) }
    ensures lawful { IfOk result (λ call. IfSome call IsLawful) }
    ensures fault { IsErrOf result Fault → Rose (D.faults disk.old) (D.faults disk.new) }
    ensures later { D.faults disk.old ≤ D.faults disk.new }
    ensures stays { IsTrue D.tells → Stays (D.state disk.old) (D.state disk.new) }
    ensures passes { IsTrue D.tells → Passes IsSame (D.state disk.old) (D.state disk.new) }
    ensures folders { IsTrue D.tells → (D.state disk.new).folders ≡ (D.state disk.old).folders }
{
    match source {
        Source::Metainfo { file, uris } => {
            Ok(Some(torrent_call(alloc, &file, uris, options, disk)?))
        }
        Source::Mirrors { uris } => Ok(Some(Call::AddUri {
            uris,
            options,
            position: None,
        })),
        Source::Console => Ok(None),
    }
}
