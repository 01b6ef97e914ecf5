// What stands of a download is looked up: its control file, and the lengths of its files.
ghost use Rattle.std.specs.Prelude.{◌≡◌, ◌≢◌, ℕ, Option, Some, None, length, option_map, IsTrue, IfOk, IfErr, IfSome, OnOk};
ghost use Rattle.dl_kinds.specs.Causes.{HasCause};
ghost use Rattle.control_file.specs.Reading.{control_in};
ghost use Rattle.std.specs.Str.{bytes_eq};
ghost use Rattle.resume_core.specs.Found.{hash_bytes};
ghost use Rattle.resume_core.specs.Lens.{first_len};
ghost use Rattle.resume_core.specs.Openings.{HasOpenCause, IsNoControl, LooksPast};
ghost use Rattle.resume_core.specs.Refusals.{IsRefusal, RefusesJust, TellsWant, control_refusal, foreign, in_the_way, refused_over};
ghost use Rattle.resume_core.specs.Rows.{IsControlOf, IsSurvey, IsOurControl};
ghost use Rattle.control_file.specs.Wants.{IsWant};
ghost use Rattle.resume_core.specs.Wants.{control_name};
ghost use Rattle.resume_core.specs.declared.refusing.OpenErr.TheVariants.{Disk as Unopened, NoMemory as NoRoom};

use crate::lens::{file_lens, first_len};
use crate::names::control_text;
use crate::refusing::OpenErr;
use control_file::{Control, Want};
use dl_disk::Disk;
use dl_kinds::IoErr;
use std::alloc::Global;

/// The control file that stands, if any, and the length of each file of the payload.
#[derive(Debug, Drop)]
pub(crate) struct Survey {
    pub control: Option<Control>,
    pub lens: Vec<Option<u64>>,
}

// The bytes of a file, and None where there is no such file.
fn read_whole<D: Disk>(alloc: Global, disk: &mut D, name: &str) -> Result<Option<Vec<u8>>, IoErr>
    ensures bytes { IfOk result (λ file. IsTrue D.tells
        → option_map (λ bytes. bytes.items) file ≡ (D.state disk.old).seen name.now) }
    ensures looks { IsTrue D.tells
        → LooksPast (λ other. other ≢ name.now) (D.state disk.old) (D.state disk.new) }
    ensures cause { HasCause (D.faults disk.old) (D.faults disk.new) result }
{
    let Some(len) = disk.len(name)? else {
        return Ok(None);
    };
    let mut bytes = Vec::new(alloc);
    bytes.resize(len as usize, 0)?;
    disk.read_at(name, 0, &mut bytes)?;
    Ok(Some(bytes))
}

// Whether the control file has the want's info hash, or none as the want has none.
fn has_hash(want: &Want, control: &Control) -> bool
    ensures { result ≡ bytes_eq control.now.info_hash (hash_bytes want.now.info_hash) }
{
    match &want.info_hash {
        Some(hash) => control.info_hash.bytes() == hash.as_slice(),
        None => control.info_hash.bytes().is_empty(),
    }
}

// Whether the control file is the want's.
fn compare(want: &Want, control: &Control) -> Result<(), OpenErr>
    requires { IsWant want.now }
    ensures same { OnOk result (foreign want.now control.now ≡ None) }
    ensures differs { IfErr result (λ err. foreign want.now control.now ≡ Some err) }
    ensures told { IfErr result (TellsWant want.now) }
{
    if !has_hash(want, control) {
        return Err(OpenErr::InfoHash);
    }
    if control.piece_len != want.plan.piece_len {
        return Err(OpenErr::PieceLength {
            have: control.piece_len,
            want: want.plan.piece_len,
        });
    }
    if control.total != want.plan.total {
        return Err(OpenErr::Length {
            have: control.total,
            want: want.plan.total,
        });
    }
    Ok(())
}

// The control file that the bytes say, where it is the want's.
fn control_of_bytes(alloc: Global, want: &Want, bytes: &[u8]) -> Result<Control, OpenErr>
    requires { IsWant want.now }
    ensures read { IfOk result (λ control. control_in bytes.now ≡ Ok control) }
    ensures rules { IfOk result (IsControlOf want.now) }
    ensures refused { IfErr result (λ err. IsRefusal err
        → control_refusal want.now (control_in bytes.now) ≡ Some err) }
    ensures told { IfErr result (TellsWant want.now) }
    ensures no_fault { IfErr result (λ err. err ≢ Unopened) }
{
    let control = Control::read(alloc, bytes)?;
    compare(want, &control)?;
    Ok(control)
}

// The control file that stands, if any.
fn read_control<D: Disk>(
    alloc: Global,
    disk: &mut D,
    want: &Want,
    name: &str,
) -> Result<Option<Control>, OpenErr>
    requires want { IsWant want.now }
    requires name { name.now ≡ control_name want.now }
    ensures usable { IfOk result (λ control. IsTrue D.tells
        → IsOurControl want.now control ((D.state disk.old).seen (control_name want.now))) }
    ensures refused { IfErr result (λ err. IsTrue D.tells → IsRefusal err
        → (standing : Option ℕ)
        → refused_over want.now ((D.state disk.old).seen (control_name want.now)) standing
        ≡ Some err) }
    ensures told { IfErr result (TellsWant want.now) }
    ensures rules { IfOk result (λ control. IfSome control (IsControlOf want.now)) }
    ensures looks { IsTrue D.tells
        → LooksPast (IsNoControl want.now) (D.state disk.old) (D.state disk.new) }
    ensures cause { HasOpenCause (D.faults disk.old) (D.faults disk.new) result }
{
    match read_whole(alloc, disk, name)? {
        Some(bytes) => Ok(Some(control_of_bytes(alloc, want, &bytes)?)),
        None => Ok(None),
    }
}

// What was looked up, where no unlisted payload stands without a control file.
fn guarded(want: &Want, control: Option<Control>, lens: Vec<Option<u64>>) -> Result<Survey, OpenErr>
    ensures survey { IfOk result (λ survey. survey ≡ record { control = control; lens = lens }) }
    ensures free { OnOk result (control ≡ None
        → in_the_way want.now (first_len lens.items) ≡ None) }
    ensures stands { IfErr result (λ err. control ≡ None) }
    ensures refused { IfErr result (λ err. in_the_way want.now (first_len lens.items) ≡ Some err) }
    ensures told { IfErr result (TellsWant want.now) }
    ensures no_fault { IfErr result (λ err. err ≢ Unopened) }
{
    if control.is_none() && want.info_hash.is_none() {
        if let Some(length) = first_len(&lens) {
            return Err(OpenErr::Exists { length });
        }
    }
    Ok(Survey { control, lens })
}

/// Looks up what stands of the want, and refuses what can't be opened. It changes nothing.
pub(crate) fn look_up<D: Disk>(alloc: Global, disk: &mut D, want: &Want) -> Result<Survey, OpenErr>
    requires { IsWant want.now }
    ensures survey { IfOk result (λ survey. IsTrue D.tells
        → IsSurvey want.now survey (D.state disk.old).seen) }
    ensures control { IfOk result (λ survey. IfSome survey.control (IsControlOf want.now)) }
    ensures count { IfOk result (λ survey. length survey.lens.items ≡ length want.now.layout) }
    ensures refuses { IsTrue D.tells → RefusesJust want.now (D.state disk.old).seen result }
    ensures told { IfErr result (TellsWant want.now) }
    ensures looks { IsTrue D.tells
        → LooksPast (IsNoControl want.now) (D.state disk.old) (D.state disk.new) }
    ensures cause { HasOpenCause (D.faults disk.old) (D.faults disk.new) result }
{
    let name = control_text(alloc, want)?;
    let control = read_control(alloc, disk, want, name.as_str())?;
    let lens = file_lens(alloc, disk, want.dir.as_str(), &want.layout)?;
    guarded(want, control, lens)
}
