// The notices of a history as far as it was gone through, and the queue at that place.
ghost use Rattle.std.specs.Prelude.{◌≡◌, ◌<◌, ◌≤◌, ◌+◌, ◌-◌, ◌^◌, [], IfOk, OnErr, OnOk, drop, length, map};
ghost use Rattle.option_set.specs.Values.{OptionValues};
ghost use Rattle.machine_core.specs.NoticeLogs.{AreSplitBy, CatchesUp, IsSameLog, KeepsLogged, StaysLogged, TakesIn, TellsNext, from_on};
ghost use Rattle.machine_core.specs.Notices as spec;
ghost use Rattle.machine_core.specs.Starts.{RunStart};
ghost use Rattle.machine_core.specs.declared.notices.TheConstants.{MOST_NOTICES};
ghost use Rattle.machine_core.specs.declared.notices.PlacedNotice.{PlacedNotice as Placed};

use crate::following::{follow, is_quiet};
use crate::notices::PlacedNotice;
use crate::noting::{note, see_new};
use crate::{Cursor, Event, Journal, MOST_NOTICES, Notice, Notices};
use dl_kinds::Status;
use dl_queue::Queue;
use option_set::{Num, Options};
use std::alloc::{AllocError, Global};

/// The notices of the first events of a journal.
#[derive(Drop)]
pub(crate) struct NoticeLog {
    // How many events were gone through, and the queue and the global options behind them.
    pub(crate) covered: u32,
    pub(crate) queue: Queue,
    pub(crate) global: Options,
    // The status of each download there, in the order of adding.
    pub(crate) seen: Vec<Option<Status>>,
    pub(crate) told: Vec<PlacedNotice>,
}

impl NoticeLog {
    /// That of no events, by the global options at the start.
    pub(crate) fn new(alloc: Global, global: &Options) -> Result<Self, AllocError>
        ensures { IfOk result (λ log. (start : RunStart) → start.global ≡ global.now
            → KeepsLogged start [] log) }
    {
        let limit = global.number(Num::MaxConcurrentDownloads) as u16;
        Ok(NoticeLog {
            covered: 0,
            queue: Queue::new(alloc, limit),
            global: global.copy(alloc)?,
            seen: Vec::new(alloc),
            told: Vec::new(alloc),
        })
    }
}

// Goes through one event more; `gids` is what the gids of downloads are made from. After an Err all is as before, but for
// room.
fn take_in(log: &mut NoticeLog, alloc: Global, gids: u64, event: &Event) -> Result<(), AllocError>
    requires few { log.old.covered < 2 ^ 32 - 1 }
    ensures ok { OnOk result (TakesIn gids event.now log.old log.new) }
    ensures covered { OnOk result (log.new.covered ≡ log.old.covered + 1) }
    ensures same { OnErr result (IsSameLog log.old log.new) }
{
    if is_quiet(event) {
        log.covered += 1;
        return Ok(());
    }
    // So that nothing can be wanting once the queue went on.
    let statuses = log.seen.as_slice();
    let most = statuses.len() + 1;
    log.seen.reserve(1)?;
    log.told.reserve(most)?;
    follow(alloc, gids, &mut log.queue, &mut log.global, event)?;
    see_new(&log.queue, &mut log.seen);
    note(&log.queue, &mut log.seen, &mut log.told, log.covered);
    log.covered += 1;
    Ok(())
}

/// Goes through the events of a journal that are left.
pub(crate) fn catch_up(
    log: &mut NoticeLog,
    alloc: Global,
    gids: u64,
    journal: &Journal,
) -> Result<(), AllocError>
    ensures kept { StaysLogged gids journal.now.events.items log.old log.new }
    ensures ok { OnOk result (CatchesUp gids journal.now.events.items log.old log.new) }
{
    for place in log.covered..journal.len() {
        let event = journal.get(place).unwrap();
        take_in(log, alloc, gids, event)?;
    }
    Ok(())
}

fn comes_before(at: Cursor, other: Cursor) -> bool
    ensures { result ≡ spec.comes_before at other }
{
    at.event < other.event || at.event == other.event && at.nth < other.nth
}

// How many stand before a place.
fn count_before(told: &[PlacedNotice], from: Cursor) -> usize
    requires { AreSplitBy told.now from }
    ensures value { from_on told.now from ≡ drop result told.now }
    ensures within { result ≤ length told.now }
{
    let mut low = 0;
    let mut high = told.len();
    while low < high {
        let middle = low + (high - low) / 2;
        if comes_before(told[middle].at, from) {
            low = middle + 1;
        } else {
            high = middle;
        }
    }
    low
}

fn copied(alloc: Global, told: &[PlacedNotice]) -> Result<Vec<Notice>, AllocError>
    ensures { IfOk result (λ notices.
        notices.items ≡ map (λ (p : Placed). p.notice) told.now) }
{
    let mut notices = Vec::with_capacity(alloc, told.len())?;
    for placed in told {
        notices.push(placed.notice)?;
    }
    Ok(notices)
}

// The place of the first one that isn't told, or where there is none the place behind all.
fn place_behind(due: &[PlacedNotice], behind: Cursor) -> Cursor
    ensures { result ≡ spec.first_place behind (drop MOST_NOTICES due.now) }
{
    match due.get(MOST_NOTICES) {
        Some(next) => next.at,
        None => behind,
    }
}

/// The next notices from a place on, and the place behind them. `behind` is the place behind all.
pub(crate) fn tell_next(
    alloc: Global,
    told: &[PlacedNotice],
    behind: Cursor,
    from: Cursor,
) -> Result<(Notices, Cursor), AllocError>
    requires { AreSplitBy told.now from }
    ensures { IfOk result (TellsNext told.now behind from) }
{
    let first = count_before(told, from);
    let due = &told[first..];
    let many = due.len().min(MOST_NOTICES);
    let list = copied(alloc, &due[..many])?;
    Ok((Notices::of(list), place_behind(due, behind)))
}
