// A whole payload is compared with the digest that it is to have.
ghost use Rattle.std.specs.Prelude.{◌≡◌, ◌↔◌, ◌-◌, ◌<◌, ◌≤◌, IfOk, IsTrue, OnOk};
ghost use Rattle.control_file.specs.Wants.{IsWant};
ghost use Rattle.dl_kinds.specs.Lists.{part_at};
ghost use Rattle.payload_files.specs.Payload.{HasFiles};
ghost use Rattle.payload_files.specs.Reading.{ReadsOnly};
ghost use Rattle.resume_core.specs.Causes.{HasStoreCause};
ghost use Rattle.stored_run.specs.Settlings.{TookMore, payload_of};
ghost use Rattle.verify_piece.specs.Hashes.{digest_by};

use control_file::Want;
use dl_disk::Disk;
use payload_files::{files_fill, read_slice};
use resume_core::StoreErr;
use std::alloc::Global;
use verify_piece::{WholeCheck, WholeHash};

/// The most bytes of a payload that are read at once.
const MAX_READ: u64 = 1_048_576;

// The next bytes of a payload are read and hashed. Told is where they end.
fn hash_next<D: Disk>(
    alloc: Global,
    disk: &mut D,
    want: &Want,
    at: u64,
    bytes: &mut Vec<u8>,
    hash: &mut WholeHash,
) -> Result<u64, StoreErr>
    requires want { IsWant want.now }
    requires at { at < want.now.plan.total }
    requires files { IsTrue D.tells
        → HasFiles want.now.dir want.now.layout (D.state disk.old).seen }
    ensures later { IfOk result (λ end. at < end) }
    ensures within { IfOk result (λ end. end ≤ want.now.plan.total) }
    ensures check { hash.new.checksum ≡ hash.old.checksum }
    ensures took { IfOk result (λ end. IsTrue D.tells → TookMore hash.old hash.new
        (part_at (payload_of want.now (D.state disk.old).seen) at (end - at))) }
    ensures looks { IsTrue D.tells
        → ReadsOnly want.now.dir want.now.layout (D.state disk.old) (D.state disk.new) }
    ensures cause { HasStoreCause (D.faults disk.old) (D.faults disk.new) result }
{
    let len = (want.plan.total - at).min(MAX_READ);
    bytes.resize(len as usize, 0)?;
    read_slice(alloc, disk, want.dir.as_str(), &want.layout, at, bytes)?;
    hash.update(bytes);
    Ok(at + len)
}

/// Whether a payload, as the disk reads it, has the digest that it is to have.
pub(crate) fn check_payload<D: Disk>(
    alloc: Global,
    disk: &mut D,
    want: &Want,
    check: &WholeCheck,
) -> Result<bool, StoreErr>
    requires want { IsWant want.now }
    requires files { IsTrue D.tells
        → HasFiles want.now.dir want.now.layout (D.state disk.old).seen }
    ensures exact { IfOk result (λ right. IsTrue D.tells → IsTrue right
        ↔ (digest_by check.now.hash (payload_of want.now (D.state disk.old).seen)
        ≡ check.now.digest)) }
    ensures looks { IsTrue D.tells
        → ReadsOnly want.now.dir want.now.layout (D.state disk.old) (D.state disk.new) }
    ensures cause { HasStoreCause (D.faults disk.old) (D.faults disk.new) result }
{
    files_fill();
    let mut hash = check.begin();
    let mut bytes = Vec::new(alloc);
    let mut at = 0;
    while at < want.plan.total {
        at = hash_next(alloc, disk, want, at, &mut bytes, &mut hash)?;
    }
    Ok(hash.right())
}
