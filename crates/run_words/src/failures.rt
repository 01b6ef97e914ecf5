// The downloads of a run that failed, and what mirrors were lost by.
use dl_kinds::{Gid, Mark, NoMemory, Text};
use machine_core::{Call, End, Event, Journal};
use std::alloc::Global;

// So many failed downloads are told, and so many mirrors of each.
const MOST_FAILURES: usize = 64;

const MOST_LOSSES: usize = 16;

/// A download that an error ended.
#[derive(Clone, Copy, Debug, PartialEq, Eq)]
pub struct Failure {
    pub gid: Gid,
    pub end: End,
}

/// The last loss of a mirror of a download.
#[derive(Clone, Copy, Debug, PartialEq, Eq)]
pub struct LastLoss {
    pub mirror: u16,
    pub mark: Mark,
    /// The link that was lost, by its place.
    pub worker: u32,
}

/// What mirrors of a download were lost by, the newest loss first.
#[derive(Debug, Drop)]
pub struct Losses {
    pub items: Vec<LastLoss>,
}

// The failure that an event tells.
fn failure_in(event: &Event) -> Option<Failure> {
    match event {
        Event::Ended {
            end: End::Complete,
            ..
        } => None,
        Event::Ended { gid, end } => Some(Failure {
            gid: *gid,
            end: *end,
        }),
        _ => None,
    }
}

/// The downloads that failed, in the order in which they did.
pub fn failures_in(alloc: Global, journal: &Journal) -> Result<Vec<Failure>, NoMemory> {
    let mut failures = Vec::new(alloc);
    for place in 0..journal.len() {
        if failures.len() >= MOST_FAILURES {
            break;
        }
        if let Some(failure) = journal.get(place).and_then(failure_in) {
            failures.push(failure)?;
        }
    }
    Ok(failures)
}

// The worker that an event grants a claim of a download.
fn grant_in(event: &Event, gid: Gid, id: u64) -> Option<u32> {
    match event {
        Event::Claimed { gid: of, claim } if of.0 == gid.0 && claim.id == id => Some(claim.worker),
        _ => None,
    }
}

// The worker of a claim, which was granted before a place.
fn worker_of(journal: &Journal, place: u32, gid: Gid, id: u64) -> Option<u32> {
    for back in 0..place {
        let granted = journal.get(place - 1 - back);
        if let Some(worker) = granted.and_then(|event| grant_in(event, gid, id)) {
            return Some(worker);
        }
    }
    None
}

impl Losses {
    fn has(&self, mirror: u16) -> bool {
        self.items.iter().any(|it| it.mirror == mirror)
    }

    // Takes what an event at a place tells, where it is a loss of a mirror that has none yet.
    fn take(&mut self, journal: &Journal, place: u32, gid: Gid) -> Result<(), NoMemory> {
        if let Some(
            Event::Lost {
                gid: of,
                claim,
                mirror,
                mark,
                ..
            },
        ) = journal.get(place)
        {
            if of.0 == gid.0 && !self.has(*mirror) {
                let worker = worker_of(journal, place, gid, *claim).unwrap_or(u32::MAX);
                self.items.push(LastLoss {
                    mirror: *mirror,
                    mark: *mark,
                    worker,
                })?;
            }
        }
        Ok(())
    }
}

/// What the mirrors of a download were lost by.
pub fn losses_of(alloc: Global, journal: &Journal, gid: Gid) -> Result<Losses, NoMemory> {
    let mut losses = Losses {
        items: Vec::new(alloc),
    };
    let count = journal.len();
    for back in 0..count {
        if losses.items.len() >= MOST_LOSSES {
            break;
        }
        losses.take(journal, count - 1 - back, gid)?;
    }
    Ok(losses)
}

fn adds(call: &Call) -> bool {
    matches!(call, Call::AddUri { .. } | Call::AddTorrent { .. })
}

/// The call that added the one download of a run; none where there are more.
pub fn only_call(journal: &Journal) -> Option<&Call> {
    let mut only = None;
    for place in 0..journal.len() {
        if let Some(Event::Called { call, .. }) = journal.get(place) {
            if adds(call) {
                if only.is_some() {
                    return None;
                }
                only = Some(call);
            }
        }
    }
    only
}

/// The URI of a mirror, of those that a call names.
pub fn mirror_uri(call: &Call, mirror: u16) -> Option<&Text> {
    let place = mirror as usize;
    match call {
        Call::AddUri { uris, .. } => uris.get(place),
        Call::AddTorrent { meta, uris, .. } => {
            let seeds = meta.seeds.len();
            if place < seeds {
                meta.seeds.get(place)
            } else {
                uris.get(place - seeds)
            }
        }
        _ => None,
    }
}
