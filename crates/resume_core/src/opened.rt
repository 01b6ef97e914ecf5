// What a download is opened with.
ghost use Rattle.std.specs.Prelude.{◌≡◌, ◌≢◌, ◌↔◌, ℕ, Bool, true, false, None, length, slice_get, Some, IsTrue, IfOk, IfSome};
ghost use Rattle.dl_kinds.specs.Plan.{blocks_of};
ghost use Rattle.payload_files.specs.Names.{IsOther};
ghost use Rattle.resume_core.specs.Causes.{HasStoreCause};
ghost use Rattle.resume_core.specs.Openings.{AnyFile, AreOpenedRows, LooksPast, OpensJust, OpensPiece, is_compared};
ghost use Rattle.resume_core.specs.Rows.{IsControlOf, IsFlyingBlock, IsListedPiece, IsRowWhere, IsSurvey, hashes};
ghost use Rattle.control_file.specs.Wants.{IsListedWant, IsWant};

use crate::fault::StoreErr;
use crate::matching::matching_pieces;
use crate::rows::{flying_blocks, given_blocks, standing_pieces};
use crate::surveying::Survey;
use bit_rows::BitRow;
use control_file::{Control, Opened, Want};
use dl_disk::Disk;
use std::alloc::{AllocError, Global};

// Whether the pieces are to be compared with their digests, whatever a control file lists.
fn is_compared(want: &Want, check: bool) -> bool
    ensures { result ≡ is_compared want.now check }
{
    check && want.info_hash.is_some()
}

// Whether the pieces are compared with their digests: at will, and where no control file stands.
fn is_hashed(want: &Want, control: &Option<Control>, compared: bool) -> bool
    ensures { result ≡ hashes want.now control.now compared }
{
    compared || (control.is_none() && want.info_hash.is_some())
}

// The pieces that a control file lists and that stand, and none without one.
fn listed_pieces(alloc: Global, want: &Want, survey: &Survey) -> Result<BitRow, AllocError>
    requires want { IsWant want.now }
    requires lens { length survey.now.lens.items ≡ length want.now.layout }
    requires control { IfSome survey.now.control (IsControlOf want.now) }
    ensures { IfOk result (IsRowWhere want.now.plan.pieces
        (IsListedPiece want.now survey.now.lens.items survey.now.control)) }
{
    match &survey.control {
        Some(control) => standing_pieces(alloc, want, &survey.lens, &control.pieces),
        None => BitRow::new(alloc, want.plan.pieces),
    }
}

// The blocks in flight of a control file, and none without one or where the pieces are compared.
fn flying_of(
    alloc: Global,
    want: &Want,
    control: &Option<Control>,
    compared: bool,
) -> Result<BitRow, AllocError>
    requires want { IsWant want.now }
    requires control { IfSome control.now (IsControlOf want.now) }
    ensures { IfOk result (IsRowWhere (blocks_of want.now.plan.total want.now.plan.piece_len)
        (IsFlyingBlock want.now control.now compared)) }
{
    match control {
        Some(control) if !compared => flying_blocks(alloc, &want.plan, control),
        _ => BitRow::new(alloc, want.plan.blocks()),
    }
}

// The pieces with which the want is opened.
fn verified_pieces<D: Disk>(
    alloc: Global,
    disk: &mut D,
    want: &Want,
    survey: &Survey,
    compared: bool,
) -> Result<BitRow, StoreErr>
    requires want { IsWant want.now }
    requires count { length survey.now.lens.items ≡ length want.now.layout }
    requires control { IfSome survey.now.control (IsControlOf want.now) }
    requires survey { IsTrue D.tells → IsSurvey want.now survey.now (D.state disk.old).seen }
    requires listed { IsTrue compared → IsListedWant want.now }
    ensures len { IfOk result (λ row. length row ≡ want.now.plan.pieces) }
    ensures exact { IfOk result (λ row. IsTrue D.tells
        → (piece : ℕ) → (slice_get row piece ≡ Some true)
        ↔ OpensPiece compared want.now (D.state disk.old).seen piece) }
    ensures looks { IsTrue D.tells → LooksPast (IsOther want.now.dir want.now.layout)
        (D.state disk.old) (D.state disk.new) }
    ensures unread { IsTrue D.tells → hashes want.now survey.now.control compared ≡ false
        → LooksPast AnyFile (D.state disk.old) (D.state disk.new) }
    ensures cause { HasStoreCause (D.faults disk.old) (D.faults disk.new) result }
{
    if is_hashed(want, &survey.control, compared) {
        return matching_pieces(alloc, disk, want, &survey.lens);
    }
    Ok(listed_pieces(alloc, want, survey)?)
}

/// What the want is opened with: what the disk's own files give, or the pieces that have their digests where it is listed
/// and they are to be checked. It changes nothing.
pub(crate) fn opened_of<D: Disk>(
    alloc: Global,
    disk: &mut D,
    want: &Want,
    survey: &Survey,
    check: bool,
) -> Result<Opened, StoreErr>
    requires want { IsWant want.now }
    requires count { length survey.now.lens.items ≡ length want.now.layout }
    requires control { IfSome survey.now.control (IsControlOf want.now) }
    requires survey { IsTrue D.tells → IsSurvey want.now survey.now (D.state disk.old).seen }
    ensures rows { IfOk result (AreOpenedRows want.now) }
    ensures opened { IfOk result (λ opened. IsTrue D.tells
        → OpensJust (is_compared want.now check) want.now (D.state disk.old).seen opened) }
    ensures looks { IsTrue D.tells → LooksPast (IsOther want.now.dir want.now.layout)
        (D.state disk.old) (D.state disk.new) }
    ensures unread { IsTrue D.tells
        → hashes want.now survey.now.control (is_compared want.now check) ≡ false
        → LooksPast AnyFile (D.state disk.old) (D.state disk.new) }
    ensures cause { HasStoreCause (D.faults disk.old) (D.faults disk.new) result }
{
    let compared = is_compared(want, check);
    let verified = verified_pieces(alloc, disk, want, survey, compared)?;
    let flying = flying_of(alloc, want, &survey.control, compared)?;
    let blocks = given_blocks(alloc, want, &survey.lens, &verified, &flying)?;
    Ok(Opened { verified, blocks })
}
