// The calls of the store, by what they leave of what every image has.
ghost use Rattle.std.specs.Prelude.{◌≡◌, length, IsTrue, IsErrOf, OnOk};
ghost use Rattle.control_file.specs.Wants.{IsWant};
ghost use Rattle.dl_history.specs.Accounts.{listing_of};
ghost use Rattle.dl_history.specs.Listings.{Listing};
ghost use Rattle.durable_progress.specs.HeldLaws.{ListsNoneOf};
ghost use Rattle.durable_progress.specs.HeldSteps.{HeldAreHeldStill, IsHeldNow, OthersStaySound, StaysHeld, StaysHeldOrFinished, StaysHeldOrSaved};
ghost use Rattle.payload_files.specs.Payload.{HasFiles};
ghost use Rattle.resume_core.specs.Causes.{HasStoreCause};
ghost use Rattle.resume_core.specs.Openings.{KeepsBesides};
ghost use Rattle.resume_core.specs.Runs.{HoldsRun, TornRun, run_len};
ghost use Rattle.resume_core.specs.States.{SamePayload, StaysSound};
ghost use Rattle.resume_core.specs.Steps.{AreFinished};
ghost use Rattle.resume_core.specs.Tables.{IsTableOf, MatchesTable};
ghost use Rattle.resume_core.specs.declared.fault.StoreErr.TheVariants.{NoMemory};
ghost use Rattle.span_map.specs.Jobs.{IsRun};

use control_file::{Want, control_files_are_read};
use dl_disk::Disk;
use dl_kinds::{Run, plan_laws};
use piece_table::Table;
use resume_core::{StoreErr, finish, save, write_run};
use std::alloc::Global;

/// Saves what a table lists. Until it is done an image is held by the listing before, or by the new one.
pub fn save_held<D: Disk>(
    alloc: Global,
    disk: &mut D,
    want: &Want,
    table: &Table,
) -> Result<(), StoreErr>
    requires want { IsWant want.now }
    requires table { IsTableOf want.now table.now }
    requires lengths { IsTrue D.tells
        → HasFiles want.now.dir want.now.layout (D.state disk.old).seen }
    ensures held { IsTrue D.tells → (listing : Listing) → StaysHeldOrSaved want.now listing
        (listing_of table.now) (D.state disk.old) (D.state disk.new) }
    ensures saved { OnOk result (IsTrue D.tells
        → IsHeldNow want.now (listing_of table.now) (D.state disk.new)) }
    ensures still { IsTrue D.tells → (listing : Listing)
        → HeldAreHeldStill want.now listing (D.state disk.old) (D.state disk.new) }
    ensures unmade { IsErrOf result NoMemory → IsTrue D.tells → (listing : Listing)
        → IsHeldNow want.now listing (D.state disk.old)
        → IsHeldNow want.now listing (D.state disk.new) }
    ensures besides { IsTrue D.tells → KeepsBesides want.now (D.state disk.old) (D.state disk.new) }
    ensures others { IsTrue D.tells
        → OthersStaySound want.now (D.state disk.old) (D.state disk.new) }
    ensures payload { IsTrue D.tells
        → SamePayload want.now (D.state disk.old) (D.state disk.new) }
    ensures sound { IsTrue D.tells → MatchesTable want.now table.now (D.state disk.old).seen
        → StaysSound want.now (D.state disk.old) (D.state disk.new) }
    ensures cause { HasStoreCause (D.faults disk.old) (D.faults disk.new) result }
{
    plan_laws();
    // A table is sound, as each look at it tells.
    table.verified();
    save(alloc, disk, want, table)
}

/// Writes the bytes of a run that isn't listed.
pub fn write_held<D: Disk>(
    alloc: Global,
    disk: &mut D,
    want: &Want,
    run: Run,
    bytes: &[u8],
) -> Result<(), StoreErr>
    requires want { IsWant want.now }
    requires run { IsRun want.now.plan run }
    requires len { length bytes.now ≡ run_len want.now.plan run }
    requires unlisted { IsTrue D.tells → (listing : Listing)
        × IsHeldNow want.now listing (D.state disk.old) × ListsNoneOf listing run }
    ensures stands { OnOk result (IsTrue D.tells
        → HoldsRun want.now run bytes.now (D.state disk.old).seen (D.state disk.new).seen) }
    ensures held { IsTrue D.tells → (listing : Listing) → ListsNoneOf listing run
        → StaysHeld want.now listing (D.state disk.old) (D.state disk.new) }
    ensures still { IsTrue D.tells → (listing : Listing) → ListsNoneOf listing run
        → HeldAreHeldStill want.now listing (D.state disk.old) (D.state disk.new) }
    ensures besides { IsTrue D.tells → KeepsBesides want.now (D.state disk.old) (D.state disk.new) }
    ensures others { IsTrue D.tells
        → OthersStaySound want.now (D.state disk.old) (D.state disk.new) }
    ensures torn { IsTrue D.tells
        → TornRun want.now run (D.state disk.old).seen (D.state disk.new).seen }
    ensures sound { IsTrue D.tells
        → StaysSound want.now (D.state disk.old) (D.state disk.new) }
    ensures cause { HasStoreCause (D.faults disk.old) (D.faults disk.new) result }
{
    plan_laws();
    control_files_are_read();
    write_run(alloc, disk, want, run, bytes)
}

/// Makes the payload last, and takes its control file away.
pub fn finish_held<D: Disk>(alloc: Global, disk: &mut D, want: &Want) -> Result<(), StoreErr>
    requires { IsWant want.now }
    ensures held { IsTrue D.tells → (listing : Listing)
        → StaysHeldOrFinished want.now listing (D.state disk.old) (D.state disk.new) }
    ensures finished { OnOk result (IsTrue D.tells
        → AreFinished want.now (D.state disk.new).seen (D.state disk.new).may_leave) }
    ensures still { IsTrue D.tells → (listing : Listing)
        → HeldAreHeldStill want.now listing (D.state disk.old) (D.state disk.new) }
    ensures unmade { IsErrOf result NoMemory → IsTrue D.tells → (listing : Listing)
        → IsHeldNow want.now listing (D.state disk.old)
        → IsHeldNow want.now listing (D.state disk.new) }
    ensures besides { IsTrue D.tells → KeepsBesides want.now (D.state disk.old) (D.state disk.new) }
    ensures others { IsTrue D.tells
        → OthersStaySound want.now (D.state disk.old) (D.state disk.new) }
    ensures payload { IsTrue D.tells
        → SamePayload want.now (D.state disk.old) (D.state disk.new) }
    ensures sound { IsTrue D.tells
        → StaysSound want.now (D.state disk.old) (D.state disk.new) }
    ensures cause { HasStoreCause (D.faults disk.old) (D.faults disk.new) result }
{
    finish(alloc, disk, want)
}
