// A download is opened: what is durable of it is found again.
ghost use Rattle.std.specs.Prelude.{◌≡◌, false, IsSome, IsTrue, IfErr, IfOk, OnOk};
ghost use Rattle.dl_disk.specs.Calls.{Stays};
ghost use Rattle.payload_files.specs.Names.{HasFolders, KeepsFolders, MakesFoldersOf};
ghost use Rattle.payload_files.specs.Payload.{HasFiles};
ghost use Rattle.resume_core.specs.Openings.{AreOpenedIn, AreOpenedRows, FitsPayload, HasControl, HasOpenCause, IsNoControl, KeepsBesides, KeepsGiven, KeepsPieces, LacksControl, OpensJust, OpensWhole, ReadsNoPayload, ReadsOnlyOwn, StretchesPayload, is_compared};
ghost use Rattle.resume_core.specs.Refusals.{IsRefusal, RefusesJust, TellsWant, open_refusal};
ghost use Rattle.resume_core.specs.Resume.{AreSound};
ghost use Rattle.resume_core.specs.States.{KeepsFor, StaysSound};
ghost use Rattle.control_file.specs.Wants.{IsWant};

use crate::opened::opened_of;
use crate::opening::write_opened;
use crate::refusing::OpenErr;
use crate::surveying::look_up;
use control_file::{Opened, Want};
use dl_disk::Disk;
use std::alloc::Global;

/// Opens a download: finds what the disk has of it, gives each file of its payload its length, and puts a control file that
/// lists just what it was opened with. A control file that stands is believed, unless `check` is set and the want is
/// listed: then the pieces are those that have their digests. Without a control file so are those of a listed want.
pub fn resume<D: Disk>(
    alloc: Global,
    disk: &mut D,
    want: &Want,
    check: bool,
) -> Result<Opened, OpenErr>
    requires { IsWant want.now }
    // It is refused for the first reason that there is, and changes nothing then.
    ensures refuses { IsTrue D.tells → RefusesJust want.now (D.state disk.old).seen result }
    ensures refused { IfErr result (λ err. IsTrue D.tells → IsRefusal err
        → Stays (D.state disk.old) (D.state disk.new)) }
    ensures told { IfErr result (TellsWant want.now) }
    // Where there is a reason, the files of each want stay, also where the disk fails or memory runs out.
    ensures refusable { IsTrue D.tells → IsSome (open_refusal want.now (D.state disk.old).seen)
        → (each : Want) → KeepsFor each (D.state disk.old) (D.state disk.new) }

    // It is opened with what the disk's own files give, or with the pieces that match.
    ensures rows { IfOk result (AreOpenedRows want.now) }
    ensures opened { IfOk result (λ opened. IsTrue D.tells
        → OpensJust (is_compared want.now check) want.now (D.state disk.old).seen opened) }

    // Then every image has a control file that lists just that, beside the payload as the disk reads it.
    ensures listed { IfOk result (λ opened. IsTrue D.tells → AreOpenedIn want.now opened
        (D.state disk.new).seen (D.state disk.new).may_leave) }
    ensures fits { OnOk result (IsTrue D.tells
        → FitsPayload want.now (D.state disk.old).seen (D.state disk.new).seen) }
    ensures compared { OnOk result (IsTrue D.tells → IsTrue (is_compared want.now check)
        → AreSound want.now (D.state disk.new).seen (D.state disk.new).may_leave) }

    // At each moment what was sound is so still, and an image gives at least what one gave before.
    ensures sound { IsTrue D.tells → StaysSound want.now (D.state disk.old) (D.state disk.new) }
    ensures gives { IsTrue D.tells → HasControl want.now (D.state disk.old).seen
        → is_compared want.now check ≡ false
        → KeepsGiven want.now (D.state disk.old) (D.state disk.new) }
    ensures pieces { IsTrue D.tells → HasControl want.now (D.state disk.old).seen
        → AreSound want.now (D.state disk.old).seen (D.state disk.old).may_leave
        → KeepsPieces want.now (D.state disk.old) (D.state disk.new) }
    ensures whole { IsTrue D.tells → LacksControl want.now (D.state disk.old).seen
        → HasFiles want.now.dir want.now.layout (D.state disk.old).seen
        → KeepsGiven want.now (D.state disk.old) (D.state disk.new) }

    // What stood in a file stands still, up to the lengths that it had and has, also on failure.
    ensures stretches { IsTrue D.tells
        → StretchesPayload want.now (D.state disk.old).seen (D.state disk.new).seen }

    // Over whole files an image has the want's files as one had them before, or a control file that gives what was found.
    ensures over_whole { IsTrue D.tells
        → HasFiles want.now.dir want.now.layout (D.state disk.old).seen → OpensWhole
        (is_compared want.now check) want.now (D.state disk.old) (D.state disk.new) }

    // Where a control file stands and no piece is compared, no file of the payload is read.
    ensures unread { IsTrue D.tells → HasControl want.now (D.state disk.old).seen
        → is_compared want.now check ≡ false
        → ReadsNoPayload want.now (D.state disk.old) (D.state disk.new) }
    ensures reads { IsTrue D.tells
        → ReadsOnlyOwn want.now (D.state disk.old) (D.state disk.new) }

    // Nothing but the want's own files changes.
    ensures besides { IsTrue D.tells
        → KeepsBesides want.now (D.state disk.old) (D.state disk.new) }
    ensures folders { OnOk result (IsTrue D.tells
        → HasFolders want.now.dir want.now.layout (D.state disk.new).folders) }
    ensures stay { IsTrue D.tells
        → KeepsFolders (D.state disk.old).folders (D.state disk.new).folders }
    ensures only { IsTrue D.tells → MakesFoldersOf want.now.dir want.now.layout
        (D.state disk.old).folders (D.state disk.new).folders }
    ensures cause { HasOpenCause (D.faults disk.old) (D.faults disk.new) result }
{
    let survey = look_up(alloc, disk, want)?;
    let opened = opened_of(alloc, disk, want, &survey, check)?;
    write_opened(alloc, disk, want, &survey, &opened)?;
    Ok(opened)
}
