// What a download is opened with is written to the disk.
ghost use Rattle.std.specs.Prelude.{◌≡◌, length, IsTrue, OnOk};
ghost use Rattle.dl_kinds.specs.Causes.{HasCause};
ghost use Rattle.dl_disk.specs.Calls.{ReadsNothing};
ghost use Rattle.payload_files.specs.Changes.{LeavesFitting, Stretches};
ghost use Rattle.payload_files.specs.Names.{HasFolders, KeepsFolders, MakesFoldersOf};
ghost use Rattle.payload_files.specs.Payload.{AreResized, HasFiles};
ghost use Rattle.resume_core.specs.Openings.{AreOpenedIn, AreOpenedRows, FitsPayload, GivesMoreOrOpened, HasControl, HaveControl, KeepsBesides, KeepsGiven, KeepsSound, MatchesOpened, OpensWholeJust, StretchesPayload};
ghost use Rattle.resume_core.specs.Resume.{AreSound};
ghost use Rattle.resume_core.specs.States.{KeepsFor, SamePayload};
ghost use Rattle.resume_core.specs.Rows.{IsSurvey, StoodOrWhole};
ghost use Rattle.control_file.specs.Wants.{IsWant};

use crate::control_files::put_listing;
use crate::holding::hold_control;
use crate::lens::are_whole;
use crate::listing::control_of;
use crate::surveying::Survey;
use control_file::{Opened, Want, control_files_are_read};
use dl_disk::Disk;
use dl_kinds::IoErr;
use payload_files::{fit_files, make_folders};
use std::alloc::Global;

// Gives the files their lengths, while every image has a control file.
fn fit_held<D: Disk>(alloc: Global, disk: &mut D, want: &Want) -> Result<(), IoErr>
    requires want { IsWant want.now }
    requires held { IsTrue D.tells → HaveControl want.now (D.state disk.old).may_leave }
    ensures files { OnOk result (IsTrue D.tells
        → HasFiles want.now.dir want.now.layout (D.state disk.new).seen) }
    ensures resized { OnOk result (IsTrue D.tells → AreResized want.now.dir want.now.layout
        (D.state disk.old).seen (D.state disk.new).seen) }
    ensures alone { IsTrue D.tells → LeavesFitting want.now.dir want.now.layout
        (D.state disk.old) (D.state disk.new) }
    ensures seen { IsTrue D.tells → Stretches want.now.dir want.now.layout
        (D.state disk.old).seen (D.state disk.new).seen }
    ensures besides { IsTrue D.tells
        → KeepsBesides want.now (D.state disk.old) (D.state disk.new) }
    ensures sound { IsTrue D.tells → KeepsSound want.now (D.state disk.old) (D.state disk.new) }
    ensures gives { IsTrue D.tells → KeepsGiven want.now (D.state disk.old) (D.state disk.new) }
    ensures reads { IsTrue D.tells → ReadsNothing (D.state disk.old) (D.state disk.new) }
    ensures folders { IsTrue D.tells → (D.state disk.new).folders ≡ (D.state disk.old).folders }
    ensures cause { HasCause (D.faults disk.old) (D.faults disk.new) result }
{
    fit_files(alloc, disk, want.dir.as_str(), &want.layout)
}

// Gives the files their lengths behind a control file that stands.
fn hold_and_fit<D: Disk>(
    alloc: Global,
    disk: &mut D,
    want: &Want,
    lens: &[Option<u64>],
    stood: bool,
) -> Result<(), IoErr>
    requires want { IsWant want.now }
    requires count { length lens.now ≡ length want.now.layout }
    requires stood { IsTrue D.tells → IsTrue stood → HasControl want.now (D.state disk.old).seen }
    ensures files { OnOk result (IsTrue D.tells
        → HasFiles want.now.dir want.now.layout (D.state disk.new).seen) }
    ensures kept { OnOk result (IsTrue D.tells
        → FitsPayload want.now (D.state disk.old).seen (D.state disk.new).seen) }
    ensures stretches { IsTrue D.tells
        → StretchesPayload want.now (D.state disk.old).seen (D.state disk.new).seen }
    ensures besides { IsTrue D.tells
        → KeepsBesides want.now (D.state disk.old) (D.state disk.new) }
    ensures sound { IsTrue D.tells → KeepsSound want.now (D.state disk.old) (D.state disk.new) }
    ensures gives { IsTrue D.tells → IsTrue stood
        → KeepsGiven want.now (D.state disk.old) (D.state disk.new) }
    ensures reads { IsTrue D.tells → ReadsNothing (D.state disk.old) (D.state disk.new) }
    ensures folders { IsTrue D.tells → (D.state disk.new).folders ≡ (D.state disk.old).folders }
    ensures cause { HasCause (D.faults disk.old) (D.faults disk.new) result }
{
    hold_control(alloc, disk, want, lens, stood)?;
    fit_held(alloc, disk, want)
}

// Gives the files their lengths, where one hasn't.
fn fit_payload<D: Disk>(
    alloc: Global,
    disk: &mut D,
    want: &Want,
    survey: &Survey,
) -> Result<(), IoErr>
    requires want { IsWant want.now }
    requires count { length survey.now.lens.items ≡ length want.now.layout }
    requires survey { IsTrue D.tells → IsSurvey want.now survey.now (D.state disk.old).seen }
    ensures files { OnOk result (IsTrue D.tells
        → HasFiles want.now.dir want.now.layout (D.state disk.new).seen) }
    ensures kept { OnOk result (IsTrue D.tells
        → FitsPayload want.now (D.state disk.old).seen (D.state disk.new).seen) }
    ensures stretches { IsTrue D.tells
        → StretchesPayload want.now (D.state disk.old).seen (D.state disk.new).seen }
    ensures besides { IsTrue D.tells
        → KeepsBesides want.now (D.state disk.old) (D.state disk.new) }
    ensures sound { IsTrue D.tells → KeepsSound want.now (D.state disk.old) (D.state disk.new) }
    ensures gives { IsTrue D.tells → StoodOrWhole want.now survey.now
        → KeepsGiven want.now (D.state disk.old) (D.state disk.new) }
    ensures over_whole { IsTrue D.tells
        → HasFiles want.now.dir want.now.layout (D.state disk.old).seen
        → KeepsFor want.now (D.state disk.old) (D.state disk.new) }
    ensures untouched { IsTrue D.tells
        → HasFiles want.now.dir want.now.layout (D.state disk.old).seen
        → (D.state disk.new).moment ≡ (D.state disk.old).moment }
    ensures reads { IsTrue D.tells → ReadsNothing (D.state disk.old) (D.state disk.new) }
    ensures folders { IsTrue D.tells → (D.state disk.new).folders ≡ (D.state disk.old).folders }
    ensures cause { HasCause (D.faults disk.old) (D.faults disk.new) result }
{
    if are_whole(want, &survey.lens) {
        return Ok(());
    }
    hold_and_fit(alloc, disk, want, &survey.lens, survey.control.is_some())
}

// Puts the control file that lists what is opened.
fn put_opened<D: Disk>(
    alloc: Global,
    disk: &mut D,
    want: &Want,
    opened: &Opened,
) -> Result<(), IoErr>
    requires want { IsWant want.now }
    requires rows { AreOpenedRows want.now opened.now }
    requires files { IsTrue D.tells
        → HasFiles want.now.dir want.now.layout (D.state disk.old).seen }
    ensures opened { OnOk result (IsTrue D.tells → AreOpenedIn want.now opened.now
        (D.state disk.new).seen (D.state disk.new).may_leave) }
    ensures payload { IsTrue D.tells
        → SamePayload want.now (D.state disk.old) (D.state disk.new) }
    ensures besides { IsTrue D.tells
        → KeepsBesides want.now (D.state disk.old) (D.state disk.new) }
    ensures sound { IsTrue D.tells → MatchesOpened want.now opened.now (D.state disk.old).seen
        → KeepsSound want.now (D.state disk.old) (D.state disk.new) }
    ensures verified { OnOk result (IsTrue D.tells
        → MatchesOpened want.now opened.now (D.state disk.old).seen
        → AreSound want.now (D.state disk.new).seen (D.state disk.new).may_leave) }
    ensures gives { IsTrue D.tells
        → GivesMoreOrOpened want.now opened.now (D.state disk.old) (D.state disk.new) }
    ensures over_whole { IsTrue D.tells
        → OpensWholeJust want.now opened.now (D.state disk.old) (D.state disk.new) }
    ensures reads { IsTrue D.tells → ReadsNothing (D.state disk.old) (D.state disk.new) }
    ensures folders { IsTrue D.tells → (D.state disk.new).folders ≡ (D.state disk.old).folders }
    ensures cause { HasCause (D.faults disk.old) (D.faults disk.new) result }
{
    control_files_are_read();
    let control = control_of(alloc, want, &opened.verified, &opened.blocks)?;
    put_listing(alloc, disk, want, &control)
}

// Gives the files their lengths, and puts the control file that lists what is opened.
fn fit_and_put<D: Disk>(
    alloc: Global,
    disk: &mut D,
    want: &Want,
    survey: &Survey,
    opened: &Opened,
) -> Result<(), IoErr>
    requires want { IsWant want.now }
    requires rows { AreOpenedRows want.now opened.now }
    requires count { length survey.now.lens.items ≡ length want.now.layout }
    requires survey { IsTrue D.tells → IsSurvey want.now survey.now (D.state disk.old).seen }
    ensures opened { OnOk result (IsTrue D.tells → AreOpenedIn want.now opened.now
        (D.state disk.new).seen (D.state disk.new).may_leave) }
    ensures kept { OnOk result (IsTrue D.tells
        → FitsPayload want.now (D.state disk.old).seen (D.state disk.new).seen) }
    ensures stretches { IsTrue D.tells
        → StretchesPayload want.now (D.state disk.old).seen (D.state disk.new).seen }
    ensures besides { IsTrue D.tells
        → KeepsBesides want.now (D.state disk.old) (D.state disk.new) }
    ensures sound { IsTrue D.tells → MatchesOpened want.now opened.now (D.state disk.old).seen
        → KeepsSound want.now (D.state disk.old) (D.state disk.new) }
    ensures verified { OnOk result (IsTrue D.tells
        → MatchesOpened want.now opened.now (D.state disk.old).seen
        → AreSound want.now (D.state disk.new).seen (D.state disk.new).may_leave) }
    ensures gives { IsTrue D.tells → StoodOrWhole want.now survey.now
        → GivesMoreOrOpened want.now opened.now (D.state disk.old) (D.state disk.new) }
    ensures over_whole { IsTrue D.tells
        → HasFiles want.now.dir want.now.layout (D.state disk.old).seen
        → OpensWholeJust want.now opened.now (D.state disk.old) (D.state disk.new) }
    ensures reads { IsTrue D.tells → ReadsNothing (D.state disk.old) (D.state disk.new) }
    ensures folders { IsTrue D.tells → (D.state disk.new).folders ≡ (D.state disk.old).folders }
    ensures cause { HasCause (D.faults disk.old) (D.faults disk.new) result }
{
    fit_payload(alloc, disk, want, survey)?;
    put_opened(alloc, disk, want, opened)
}

/// Makes the folders, gives the files their lengths, and puts the control file that lists what is opened.
pub(crate) fn write_opened<D: Disk>(
    alloc: Global,
    disk: &mut D,
    want: &Want,
    survey: &Survey,
    opened: &Opened,
) -> Result<(), IoErr>
    requires want { IsWant want.now }
    requires rows { AreOpenedRows want.now opened.now }
    requires count { length survey.now.lens.items ≡ length want.now.layout }
    requires survey { IsTrue D.tells → IsSurvey want.now survey.now (D.state disk.old).seen }
    ensures opened { OnOk result (IsTrue D.tells → AreOpenedIn want.now opened.now
        (D.state disk.new).seen (D.state disk.new).may_leave) }
    ensures kept { OnOk result (IsTrue D.tells
        → FitsPayload want.now (D.state disk.old).seen (D.state disk.new).seen) }
    ensures stretches { IsTrue D.tells
        → StretchesPayload want.now (D.state disk.old).seen (D.state disk.new).seen }
    ensures besides { IsTrue D.tells
        → KeepsBesides want.now (D.state disk.old) (D.state disk.new) }
    ensures sound { IsTrue D.tells → MatchesOpened want.now opened.now (D.state disk.old).seen
        → KeepsSound want.now (D.state disk.old) (D.state disk.new) }
    ensures verified { OnOk result (IsTrue D.tells
        → MatchesOpened want.now opened.now (D.state disk.old).seen
        → AreSound want.now (D.state disk.new).seen (D.state disk.new).may_leave) }
    ensures gives { IsTrue D.tells → StoodOrWhole want.now survey.now
        → GivesMoreOrOpened want.now opened.now (D.state disk.old) (D.state disk.new) }
    ensures over_whole { IsTrue D.tells
        → HasFiles want.now.dir want.now.layout (D.state disk.old).seen
        → OpensWholeJust want.now opened.now (D.state disk.old) (D.state disk.new) }
    ensures reads { IsTrue D.tells → ReadsNothing (D.state disk.old) (D.state disk.new) }
    ensures folders { OnOk result (IsTrue D.tells
        → HasFolders want.now.dir want.now.layout (D.state disk.new).folders) }
    ensures stay { IsTrue D.tells
        → KeepsFolders (D.state disk.old).folders (D.state disk.new).folders }
    ensures only { IsTrue D.tells → MakesFoldersOf want.now.dir want.now.layout
        (D.state disk.old).folders (D.state disk.new).folders }
    ensures cause { HasCause (D.faults disk.old) (D.faults disk.new) result }
{
    make_folders(alloc, disk, want.dir.as_str(), &want.layout)?;
    fit_and_put(alloc, disk, want, survey, opened)
}
