// The run of a load.
ghost use Rattle.std.specs.Prelude.{◌≡◌, IfOk};
ghost use Rattle.load_setup.specs.Payload.{digests_of};
ghost use Rattle.self_load.specs.Inner.{AreLoadLinks, EndsAsLoad, IsInnerRun};

use blameless_mirrors::lone_downloads_end_well;
use dl_clock::{Clock, MemClock};
use dl_disk::Disk;
use dl_kinds::{Digests, NoMemory, Sink};
use door_source::{Doors, MemDoors};
use link_source::Links;
use load_setup::{
    LOAD_LINKS, SoundDisk, SoundLinks, UnseenSink, load_disk, load_link, load_words,
    metainfo_files_say_payloads, words_name_load,
};
use machine_core::{downloads_are_legal, downloads_stay};
use run_lifecycle::disks_keep_runs;
use shared_run::{FinishedRun, run_shared};
use std::alloc::Global;
use std::sync::Wait;
use std::sync::atomic::AtomicBool;
use std::thread::Threads;

/// What is left of it.
pub(crate) type Inner = FinishedRun<SoundDisk, SoundLinks, MemClock, MemDoors>;

/// What the ids of its downloads are made from.
pub(crate) const GIDS: u64 = 1;

fn links(alloc: Global, n: u64) -> Result<Vec<(SoundLinks, MemClock)>, NoMemory>
    ensures { IfOk result (λ links. AreLoadLinks n links.items) }
{
    let mut links = Vec::with_capacity(alloc, LOAD_LINKS as usize)?;
    for link in 0..LOAD_LINKS {
        links.push((load_link(alloc, n, link)?, MemClock::new(0, 0)))?;
    }
    Ok(links)
}

/// Runs the load of this number, whose pieces have these digests. Its summary isn't shown.
pub(crate) fn run_inner<R: Threads + Wait + Sync>(
    rt: &R,
    alloc: Global,
    n: u64,
    digests: &Digests,
) -> Result<Inner, NoMemory>
    requires { digests.now ≡ digests_of n }
    ensures run { IfOk result (IsInnerRun ⟦<SoundDisk as Disk>⟧ ⟦<SoundLinks as Links>⟧
        ⟦<MemClock as Clock>⟧ ⟦<MemDoors as Doors>⟧ ⟦<UnseenSink as Sink>⟧ n) }
    ensures ends { IfOk result (EndsAsLoad n) }
{
    words_name_load();
    metainfo_files_say_payloads();
    downloads_stay();
    downloads_are_legal();
    lone_downloads_end_well();
    disks_keep_runs::<SoundDisk>();
    let words = load_words(alloc)?;
    let disk = load_disk(alloc, digests)?;
    let links = links(alloc, n)?;
    let over = AtomicBool::new(false);
    let mut summary = UnseenSink {};
    let doors = Vec::new(alloc);
    Ok(run_shared(
        rt,
        alloc,
        &words,
        disk,
        &over,
        links,
        doors,
        GIDS,
        &mut summary,
    ))
}
