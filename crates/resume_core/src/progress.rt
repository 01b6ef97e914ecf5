// What a table lists is saved.
ghost use Rattle.std.specs.Prelude.{◌≡◌, IsTrue, IsErrOf, OnOk};
ghost use Rattle.dl_kinds.specs.Causes.{HasCause};
ghost use Rattle.dl_kinds.specs.declared.outside.IoErr.TheVariants.{NoMemory as OutOfMemory};
ghost use Rattle.payload_files.specs.Payload.{HasFiles};
ghost use Rattle.resume_core.specs.Causes.{HasStoreCause};
ghost use Rattle.resume_core.specs.States.{PerformsSave, SamePayload, GivesOldOrTable, StaysSound, LeavesTemporary};
ghost use Rattle.resume_core.specs.Tables.{IsTableOf, AreTableSaved, GiveTable, MatchesTable};
ghost use Rattle.control_file.specs.Wants.{IsWant};
ghost use Rattle.resume_core.specs.declared.fault.StoreErr.TheVariants.{NoMemory};

use crate::control_files::put_listing;
use crate::fault::StoreErr;
use crate::listing::control_of_table;
use control_file::{Want, control_files_are_read};
use dl_disk::Disk;
use dl_kinds::IoErr;
use piece_table::Table;
use std::alloc::Global;

// Makes the payload last, and then puts a control file that lists what the table lists.
fn put_table<D: Disk>(alloc: Global, disk: &mut D, want: &Want, table: &Table) -> Result<(), IoErr>
    requires want { IsWant want.now }
    requires table { IsTableOf want.now table.now }
    ensures saved { OnOk result (IsTrue D.tells → AreTableSaved want.now table.now
        (D.state disk.old).seen (D.state disk.new).may_leave) }
    ensures performs { IsTrue D.tells
        → PerformsSave want.now table.now (D.state disk.old) (D.state disk.new) }
    ensures unmade { IsErrOf result OutOfMemory → IsTrue D.tells
        → LeavesTemporary want.now (D.state disk.old) (D.state disk.new) }
    ensures folders { IsTrue D.tells → (D.state disk.new).folders ≡ (D.state disk.old).folders }
    ensures cause { HasCause (D.faults disk.old) (D.faults disk.new) result }
{
    let control = control_of_table(alloc, want, table)?;
    put_listing(alloc, disk, want, &control)
}

/// Saves what the table lists: its verified pieces, and the landed blocks of pieces that are neither sole nor last found
/// wrong. The payload is made to last first. Each of its files has to have its length.
pub fn save<D: Disk>(
    alloc: Global,
    disk: &mut D,
    want: &Want,
    table: &Table,
) -> Result<(), StoreErr>
    requires want { IsWant want.now }
    requires table { IsTableOf want.now table.now }
    requires lengths { IsTrue D.tells
        → HasFiles want.now.dir want.now.layout (D.state disk.old).seen }

    // At each moment an image is one of those at the start, or has the new control file beside the payload.
    ensures performs { IsTrue D.tells
        → PerformsSave want.now table.now (D.state disk.old) (D.state disk.new) }
    ensures payload { IsTrue D.tells
        → SamePayload want.now (D.state disk.old) (D.state disk.new) }

    // So it gives what an image gave at the start, or what the table lists; and after Ok the latter.
    ensures gives { IsTrue D.tells
        → GivesOldOrTable want.now table.now (D.state disk.old) (D.state disk.new) }
    ensures acknowledged { OnOk result (IsTrue D.tells
        → GiveTable want.now table.now (D.state disk.new).may_leave) }
    ensures saved { OnOk result (IsTrue D.tells → AreTableSaved want.now table.now
        (D.state disk.new).seen (D.state disk.new).may_leave) }

    // What was sound stays so at each moment.
    ensures sound { IsTrue D.tells → MatchesTable want.now table.now (D.state disk.old).seen
        → StaysSound want.now (D.state disk.old) (D.state disk.new) }

    // Without memory every image has the control file that one had before.
    ensures unmade { IsErrOf result NoMemory → IsTrue D.tells
        → LeavesTemporary want.now (D.state disk.old) (D.state disk.new) }
    ensures folders { IsTrue D.tells → (D.state disk.new).folders ≡ (D.state disk.old).folders }
    ensures cause { HasStoreCause (D.faults disk.old) (D.faults disk.new) result }
{
    control_files_are_read();
    put_table(alloc, disk, want, table)?;
    Ok(())
}
