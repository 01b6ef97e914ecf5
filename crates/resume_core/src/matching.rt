// Pieces are compared with their digests.
ghost use Rattle.std.specs.Prelude.{◌≡◌, ◌↔◌, ◌<◌, ℕ, true, length, slice_get, Some, IsTrue, IfOk};
ghost use Rattle.sha1.specs.Sha1.{sha1};
ghost use Rattle.payload_files.specs.Names.{IsOther};
ghost use Rattle.resume_core.specs.Causes.{HasStoreCause};
ghost use Rattle.resume_core.specs.Lens.{lens_in};
ghost use Rattle.resume_core.specs.Openings.{LooksPast, MatchesPiece};
ghost use Rattle.resume_core.specs.Resume.{HasDigest};
ghost use Rattle.control_file.specs.Wants.{IsWant};
ghost use Rattle.resume_core.specs.Wants.{files_in};

use crate::fault::StoreErr;
use crate::lens::piece_stands;
use crate::runs::read_piece;
use bit_rows::BitRow;
use control_file::Want;
use dl_disk::Disk;
use dl_kinds::Digests;
use sha1::Sha1;
use std::alloc::Global;

// Whether these bytes have the digest of a piece (BEP 3, `pieces`).
fn is_right(digests: &Digests, piece: u32, bytes: &[u8]) -> bool
    ensures { IsTrue result ↔ (slice_get digests.now piece ≡ Some (sha1 bytes.now)) }
{
    match digests.get(piece as usize) {
        Some(digest) => Sha1::digest(bytes) == *digest,
        None => false,
    }
}

// Whether a piece that stands has its digest. The buffer holds it meanwhile.
fn has_digest<D: Disk>(
    alloc: Global,
    disk: &mut D,
    want: &Want,
    piece: u32,
    buffer: &mut Vec<u8>,
) -> Result<bool, StoreErr>
    requires want { IsWant want.now }
    requires piece { piece < want.now.plan.pieces }
    ensures digest { IfOk result (λ right. IsTrue D.tells
        → IsTrue right ↔ HasDigest want.now (files_in want.now (D.state disk.old).seen) piece) }
    ensures looks { IsTrue D.tells → LooksPast (IsOther want.now.dir want.now.layout)
        (D.state disk.old) (D.state disk.new) }
    ensures cause { HasStoreCause (D.faults disk.old) (D.faults disk.new) result }
{
    read_piece(alloc, disk, want, piece, buffer)?;
    Ok(is_right(&want.digests, piece, buffer))
}

// Whether a piece stands with its digest. One that doesn't stand isn't read.
fn is_matching<D: Disk>(
    alloc: Global,
    disk: &mut D,
    want: &Want,
    lens: &[Option<u64>],
    piece: u32,
    buffer: &mut Vec<u8>,
) -> Result<bool, StoreErr>
    requires want { IsWant want.now }
    requires count { length lens.now ≡ length want.now.layout }
    requires lens { IsTrue D.tells → lens.now ≡ lens_in want.now (D.state disk.old).seen }
    requires piece { piece < want.now.plan.pieces }
    ensures matches { IfOk result (λ right. IsTrue D.tells → IsTrue right
        ↔ MatchesPiece want.now (files_in want.now (D.state disk.old).seen) piece) }
    ensures looks { IsTrue D.tells → LooksPast (IsOther want.now.dir want.now.layout)
        (D.state disk.old) (D.state disk.new) }
    ensures cause { HasStoreCause (D.faults disk.old) (D.faults disk.new) result }
{
    if !piece_stands(alloc, want, lens, piece)? {
        return Ok(false);
    }
    has_digest(alloc, disk, want, piece, buffer)
}

/// The pieces that stand with their digests.
pub(crate) fn matching_pieces<D: Disk>(
    alloc: Global,
    disk: &mut D,
    want: &Want,
    lens: &[Option<u64>],
) -> Result<BitRow, StoreErr>
    requires want { IsWant want.now }
    requires count { length lens.now ≡ length want.now.layout }
    requires lens { IsTrue D.tells → lens.now ≡ lens_in want.now (D.state disk.old).seen }
    ensures len { IfOk result (λ row. length row ≡ want.now.plan.pieces) }
    ensures exact { IfOk result (λ row. IsTrue D.tells
        → (piece : ℕ) → (slice_get row piece ≡ Some true)
        ↔ MatchesPiece want.now (files_in want.now (D.state disk.old).seen) piece) }
    ensures looks { IsTrue D.tells → LooksPast (IsOther want.now.dir want.now.layout)
        (D.state disk.old) (D.state disk.new) }
    ensures cause { HasStoreCause (D.faults disk.old) (D.faults disk.new) result }
{
    let mut row = BitRow::new(alloc, want.plan.pieces)?;
    let mut buffer = Vec::new(alloc);
    for piece in 0..want.plan.pieces {
        if is_matching(alloc, disk, want, lens, piece, &mut buffer)? {
            row.set(piece);
        }
    }
    Ok(row)
}
