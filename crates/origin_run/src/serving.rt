// A folder, served at all doors.
ghost use Rattle.std.specs.Prelude.{◌≡◌, ◌≤◌, ◌<◌, ◌^◌, ℕ, List, [], length};
ghost use Rattle.range_origin.specs.Talking.{ShelfSight};
ghost use Rattle.run_report.specs.declared.endings.RunEnding.TheVariants.{Done, NoMemory};
ghost use Rattle.origin_run.specs.Folders.{FolderServed, ServesFolder, folder_given, folder_left};
ghost use Rattle.origin_run.specs.Sharing.{IsFresh, IsShared};

use crate::keeping::keep_all;
use crate::sharing::{Shared, share};
use console_session::Transcript;
use desk_participants::{Room, seat_all, unseat_all};
use dl_disk::Disk;
use dl_kinds::Text;
use door_source::Doors;
use range_origin::Shelf;
use run_report::RunEnding;
use std::alloc::Global;
use std::sync::Wait;
use std::thread::Threads;
use turn_desk::{Closed, SoloDesk};

/// What is left of a folder that was served: the disk, the doors, and what was done at each door that was used.
pub struct ServedFolder<D, A, K> {
    pub disk: D,
    pub doors: Vec<(A, K)>,
    pub transcripts: Vec<Transcript>,
    pub ending: RunEnding,
}

// Memory is wanting.
fn untouched<D, A, K>(alloc: Global, disk: D, doors: Vec<(A, K)>) -> ServedFolder<D, A, K>
    ensures disk { result.disk ≡ disk }
    ensures doors { result.doors ≡ doors }
    ensures none { result.transcripts.items ≡ [] }
    ensures ending { result.ending ≡ NoMemory }
{
    ServedFolder {
        disk,
        doors,
        transcripts: Vec::new(alloc),
        ending: RunEnding::NoMemory,
    }
}

// All doors are kept, and the desk is closed.
fn serve_shared<R: Threads + Wait + Sync, D: Disk + Send, A: Doors + Send, K: Send>(
    rt: &R,
    alloc: Global,
    shared: Shared<D, A, K>,
    doors: Vec<(A, K)>,
) -> ServedFolder<D, A, K>
    requires few { length doors.items < 2 ^ 32 }
    requires shared { (solo : ShelfSight D) × IsShared solo (length doors.items) shared }
    ensures ending { result.ending ≡ Done }
    ensures served { (solo : ShelfSight D) (dir : List ℕ) (disk : D)
        → IsShared solo (length doors.items) shared → IsFresh D.Disk dir disk solo
        → FolderServed D.Disk A.Doors (folder_given dir disk doors.items) (folder_left result) }
{
    let Shared {
        desk,
        passes,
        keepers,
    } = shared;
    let Room {
        seats: keepers,
        came: transcripts,
    } = keepers;
    let (mut passes, mut doors) = (passes, doors);
    let (mut keepers, mut transcripts) = (keepers, transcripts);
    seat_all(&mut passes, &mut doors, &mut keepers);
    keep_all(rt, alloc, &desk, &mut keepers);
    unseat_all(keepers, &mut passes, &mut doors, &mut transcripts);
    match desk.close(passes) {
        Closed::Whole { served } => ServedFolder {
            disk: served.into_disk(),
            doors,
            transcripts,
            ending: RunEnding::Done,
        },
        Closed::StillOut { .. } => unreachable!(),
    }
}

// Serves the folder of this desk at all doors, of which there is one at least.
fn serve_solo<R: Threads + Wait + Sync, D: Disk + Send, A: Doors + Send, K: Send>(
    rt: &R,
    alloc: Global,
    solo: SoloDesk<Shelf<D>>,
    doors: Vec<(A, K)>,
) -> ServedFolder<D, A, K>
    requires some { 1 ≤ length doors.items }
    requires few { length doors.items < 2 ^ 32 }
    ensures { (dir : List ℕ) (disk : D) → IsFresh D.Disk dir disk solo
        → ServesFolder D.Disk A.Doors (folder_given dir disk doors.items) (folder_left result) }
{
    match share(alloc, solo, doors.len() as u32) {
        Ok(shared) => serve_shared(rt, alloc, shared, doors),
        Err(solo) => untouched(alloc, solo.into_served().into_disk(), doors),
    }
}

/// Serves the files below the folder `dir` of this disk at all doors, each in a thread of its own where one can be started,
/// until no client comes at any of them any more. `Done` is its ending then, and `NoMemory` where memory was wanting for it.
pub fn serve_folder<R: Threads + Wait + Sync, D: Disk + Send, A: Doors + Send, K: Send>(
    rt: &R,
    alloc: Global,
    dir: Text,
    disk: D,
    doors: Vec<(A, K)>,
) -> ServedFolder<D, A, K>
    requires few { length doors.items < 2 ^ 32 }
    ensures { ServesFolder D.Disk A.Doors (folder_given dir disk doors.items) (folder_left result) }
{
    if doors.is_empty() {
        return ServedFolder {
            disk,
            doors,
            transcripts: Vec::new(alloc),
            ending: RunEnding::Done,
        };
    }
    match SoloDesk::new(alloc, Shelf::new(alloc, disk, dir)) {
        Ok(solo) => serve_solo(rt, alloc, solo, doors),
        Err((shelf, _)) => untouched(alloc, shelf.into_disk(), doors),
    }
}
