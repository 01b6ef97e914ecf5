// How the downloads of a run ended, and by that the run.
ghost use Rattle.std.specs.Prelude.{◌≡◌, IfOk, List, OnErr, OnOk, Some, ◌∷◌, ◌==◌, if◌then◌else◌, reverse, ℕ};
ghost use Rattle.std.specs.BTreeMap.{get};
ghost use Rattle.std.specs.Ordering.{nat_cmp};
ghost use Rattle.machine_core.specs.Replays.{queue_in};
ghost use Rattle.machine_core.specs.declared.events.Event.{Event as RunEvent};
ghost use Rattle.run_report.specs.Failures as specs;
ghost use Rattle.run_report.specs.Failures.{HasEnds, ending_by_history};

use crate::RunEnding;
use dl_kinds::Gid;
use machine_core::{End, Event, Journal, Machine};
use std::alloc::{AllocError, Global};
use std::collections::BTreeMap;

// The end by an error that an event tells.
fn failure_in(event: &Event) -> Option<End>
    ensures { result ≡ specs.failure_in event.now }
{
    match event {
        Event::Ended {
            end: End::Complete,
            ..
        } => None,
        Event::Ended { end, .. } => Some(*end),
        _ => None,
    }
}

// The last end by an error.
fn last_failure(journal: &Journal) -> Option<End>
    ensures { result ≡ specs.last_failure (reverse journal.now.events.items) }
{
    let mut last = None;
    for place in 0..journal.len() {
        let event = journal.get(place).unwrap();
        last = failure_in(event).or(last);
    }
    last
}

// Whether some download is active, waits or is paused.
fn has_unfinished(machine: &Machine) -> bool
    ensures { result ≡ specs.has_unfinished (queue_in machine.now.start machine.now.past) }
{
    let queue = machine.queue();
    queue.active_len() != 0 || queue.waiting_len() != 0
}

/// How a run ends, unless memory is wanting or the output fails.
pub fn ending(machine: &Machine) -> RunEnding
    ensures { result ≡ ending_by_history machine.now.start machine.now.past }
{
    match last_failure(machine.journal()) {
        Some(end) => RunEnding::Failed(end),
        None if has_unfinished(machine) => RunEnding::Unfinished,
        None => RunEnding::Done,
    }
}

fn put_end(ends: &mut BTreeMap<u64, End>, gid: Gid, end: End) -> Result<(), AllocError>
    ensures { OnOk result ((other : ℕ) → get nat_cmp ends.new other
        ≡ (if gid.0 == other then Some end else get nat_cmp ends.old other)) }
{
    ends.insert(gid.0, end)?;
    Ok(())
}

// The end that an event tells stands under its download's gid.
fn note_end(ends: &mut BTreeMap<u64, End>, event: &Event) -> Result<(), AllocError>
    ensures { (before : List RunEvent) → HasEnds ends.old before
        → OnOk result (HasEnds ends.new (event.now ∷ before)) }
{
    match event {
        Event::Ended { gid, end } => put_end(ends, *gid, *end),
        _ => Ok(()),
    }
}

/// The end of each download that ended, by its gid. It looks at each event once.
pub fn ends_of(alloc: Global, journal: &Journal) -> Result<BTreeMap<u64, End>, AllocError>
    ensures { IfOk result (λ ends. HasEnds ends (reverse journal.now.events.items)) }
{
    let mut ends = BTreeMap::new(alloc);
    for place in 0..journal.len() {
        note_end(&mut ends, journal.get(place).unwrap())?;
    }
    Ok(ends)
}

/// The end of a download, of those that `ends_of` gave.
pub fn end_in(ends: &BTreeMap<u64, End>, gid: Gid) -> Option<End>
    ensures { result ≡ get nat_cmp ends.now gid.0 }
{
    ends.get(&gid.0).copied()
}
