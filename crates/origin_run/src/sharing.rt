// The desk of the folder.
ghost use Rattle.std.specs.Prelude.{◌≡◌, ◌≤◌, IfErr, IfOk};
ghost use Rattle.origin_run.specs.Sharing.{IsShared};

use console_session::Transcript;
use desk_participants::{Room, room_for};
use dl_disk::Disk;
use range_origin::Shelf;
use std::alloc::Global;
use turn_desk::{Pass, SoloDesk, TurnDesk};

/// A desk with a pass for each door, and room for those who keep them.
pub(crate) struct Shared<D: Disk, A, K> {
    pub(crate) desk: TurnDesk<Shelf<D>>,
    pub(crate) passes: Vec<Pass<Shelf<D>>>,
    pub(crate) keepers: Room<Pass<Shelf<D>>, A, K, Transcript>,
}

/// A desk with a pass for each of so many doors. Where memory is wanting the owner's desk comes back.
pub(crate) fn share<D: Disk, A, K>(
    alloc: Global,
    solo: SoloDesk<Shelf<D>>,
    doors: u32,
) -> Result<Shared<D, A, K>, SoloDesk<Shelf<D>>>
    requires some { 1 ≤ doors }
    ensures ok { IfOk result (IsShared solo doors) }
    ensures err { IfErr result (λ given_back. given_back ≡ solo) }
{
    let Ok(keepers) = room_for(alloc, doors as usize) else {
        return Err(solo);
    };
    match TurnDesk::start(alloc, solo, doors) {
        Ok((desk, passes)) => Ok(Shared {
            desk,
            passes,
            keepers,
        }),
        Err((solo, _)) => {
            keepers.clear_out();
            Err(solo)
        }
    }
}
