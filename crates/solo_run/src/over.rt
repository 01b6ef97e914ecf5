// The run over a link.
ghost use Rattle.std.specs.Prelude.{◌≡◌, ◌||◌, map, string_bytes};
ghost use Rattle.solo_run.specs.Runs.{GoesThrough, RunsOver};

use crate::work::{Worked, work_through};
use dl_clock::Clock;
use dl_disk::Disk;
use dl_kinds::Sink;
use link_source::Links;
use machine_core::Journal;
use run_lifecycle::{Begun, Ended, Unbegun, begin, finish, refuse};
use std::alloc::Global;

fn either(first: bool, second: bool) -> bool
    ensures { result ≡ first || second }
{
    first || second
}

// Works over the link, and ends the run.
fn go_through<D: Disk, L: Links, K: Clock, O: Sink>(
    alloc: Global,
    begun: Begun<D>,
    link: &mut L,
    clock: &mut K,
    out: &mut O,
) -> Ended<D>
    ensures { GoesThrough D.Disk L.Links K.Clock O.Sink begun (link.old, clock.old) out.old
        result (link.new, clock.new) out.new }
{
    let Begun {
        desk,
        is_short,
        console: _console,
    } = begun;
    let worked = work_through(alloc, desk, link, clock);
    let Worked {
        engine,
        is_short: is_work_short,
    } = worked;
    finish(alloc, engine, either(is_short, is_work_short), out)
}

/// The run of these words over a link.
pub(crate) fn run_over<D: Disk, L: Links, K: Clock, O: Sink>(
    alloc: Global,
    words: &[String],
    disk: D,
    link: &mut L,
    clock: &mut K,
    gids: u64,
    out: &mut O,
) -> Ended<D>
    ensures { RunsOver D.Disk L.Links K.Clock O.Sink (map string_bytes words.now) gids disk
        (link.old, clock.old) out.old result (link.new, clock.new) out.new }
{
    match begin(alloc, words, disk, gids, 0) {
        Ok(begun) => go_through(alloc, begun, link, clock, out),
        Err(Unbegun { ending, disk }) => Ended {
            ending: refuse(alloc, ending, out),
            disk,
            journal: Journal::new(alloc),
        },
    }
}
