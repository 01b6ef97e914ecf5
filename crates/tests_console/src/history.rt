// The history of a run, in numbers.
use anyhow::Result;
use machine_core::{Event, Journal};
use std::alloc::Global;

/// The kinds of events, as docs/HISTORIES.md lists them.
const KINDS: [&str; 13] = [
    "Called", "Sized", "Opened", "Claimed", "Landed", "Settled", "Cleared", "Lost", "Saved",
    "Checked", "Ended", "Left", "Stopped",
];

fn kind_of(event: &Event) -> &'static str {
    match event {
        Event::Called { .. } => "Called",
        Event::Sized { .. } => "Sized",
        Event::Opened { .. } => "Opened",
        Event::Claimed { .. } => "Claimed",
        Event::Landed { .. } => "Landed",
        Event::Settled { .. } => "Settled",
        Event::Cleared { .. } => "Cleared",
        Event::Lost { .. } => "Lost",
        Event::Saved { .. } => "Saved",
        Event::Checked { .. } => "Checked",
        Event::Ended { .. } => "Ended",
        Event::Left => "Left",
        Event::Stopped => "Stopped",
    }
}

// How many events are of a kind.
fn count_of(journal: &Journal, kind: &str) -> u32 {
    let mut count: u32 = 0;
    for place in 0..journal.len() {
        if let Some(event) = journal.get(place) {
            if kind_of(event) == kind {
                count = count.saturating_add(1);
            }
        }
    }
    count
}

/// How many events of each kind there are, without those of which there is none.
pub fn tally(alloc: Global, journal: &Journal) -> Result<String> {
    let mut told = String::new(alloc);
    for kind in KINDS {
        let count = count_of(journal, kind);
        if count > 0 {
            let comma = if told.is_empty() { "" } else { ", " };
            write!(told, "{comma}{kind} {count}")?;
        }
    }
    Ok(told)
}

/// Whether the calls in the history are these, each of its session and at its place, and no others.
pub fn are_calls(journal: &Journal, noted: &[(u32, u32)]) -> bool {
    let mut left = noted;
    for place in 0..journal.len() {
        if let Some(Event::Called { session, .. }) = journal.get(place) {
            match left {
                [first, others @ ..] if *first == (*session, place) => left = others,
                _ => return false,
            }
        }
    }
    left.is_empty()
}
