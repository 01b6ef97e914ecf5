// How fast the bytes of downloads come.
ghost use Rattle.std.specs.BTreeMap.{get};
ghost use Rattle.std.specs.Ordering.{nat_cmp};
ghost use Rattle.std.specs.Prelude.{IfOk, IfSome, List, OnOk, Some, ◌≡◌, ◌==◌, ◌++◌, ◌∷◌, [], ◌*◌, ◌-◌, ◌^◌, ◌≤◌, ◌<◌, if◌then◌else◌, min, not, false, sum_by, ℕ};
ghost use Rattle.std.specs.Option.{option_map, option_map_or, unwrap_or};
ghost use Rattle.dl_kinds.specs.declared.plan.TheConstants.{BLOCK_LEN as MOST_BYTES};
ghost use Rattle.piece_table.specs.Sums as sums;
ghost use Rattle.machine_core.specs.Asked.{known_by};
ghost use Rattle.machine_core.specs.OwnParts.{no_lengths};
ghost use Rattle.machine_core.specs.RunLegal.{known_lengths, moment_of_event};
ghost use Rattle.machine_core.specs.declared.events.Event.{Event as RunEvent};
ghost use Rattle.run_report.specs.Speeds as spec;
ghost use Rattle.run_report.specs.Sums.{AreSpeeds, HasSums, sum_under};

use dl_kinds::{BLOCK_LEN, Gid, Moment, Run};
use machine_core::{Event, Lengths, Machine};
use std::alloc::{AllocError, Global};
use std::collections::BTreeMap;

/// Landings of so many milliseconds before a call make the speed that it is told.
pub const SPEED_MS: u64 = 10_000;

/// .. which are so many seconds.
pub const SPEED_SECONDS: u64 = 10;

// Whether a moment is later than ten seconds before `now`.
fn is_recent(now: Moment, moment: Moment) -> bool
    ensures { result ≡ spec.is_recent now moment }
{
    now.0.saturating_sub(moment.0) < SPEED_MS
}

fn counts(which: Option<Gid>, gid: Gid) -> bool
    ensures { result ≡ spec.counts_gid which gid }
{
    match which {
        Some(counted) => gid.0 == counted.0,
        None => true,
    }
}

// The bytes of a block: none where the payload has no such block.
fn block_bytes(lengths: Lengths, block: u64) -> u64
    requires some { 1 ≤ lengths.piece_len }
    requires bounded { block < 2 ^ 33 }
    ensures value { result ≡ sums.block_bytes lengths.total lengths.piece_len block }
    ensures few { result ≤ MOST_BYTES }
{
    let len = lengths.piece_len as u128;
    let full = lengths.piece_len.div_ceil(BLOCK_LEN) as u64;
    let piece = (block / full) as u128;
    let start = piece * len + (block % full) as u128 * BLOCK_LEN as u128;
    let past = ((piece + 1) * len).min(lengths.total as u128);
    let end = (start + BLOCK_LEN as u128).min(past);
    end.saturating_sub(start) as u64
}

fn run_bytes(lengths: Lengths, run: Run) -> u64
    requires { 1 ≤ lengths.piece_len }
    ensures { result ≡ spec.run_bytes (known_by lengths) run }
{
    let mut bytes = 0;
    for place in 0..run.count {
        bytes += block_bytes(lengths, run.first as u64 + place as u64);
    }
    bytes
}

// .. of a download whose lengths may not be known.
fn known_run_bytes(lengths: Option<Lengths>, run: Run) -> u64
    requires { IfSome lengths (λ lengths. 1 ≤ lengths.piece_len) }
    ensures { result ≡ spec.run_bytes (unwrap_or (option_map known_by lengths) no_lengths) run }
{
    match lengths {
        Some(lengths) => run_bytes(lengths, run),
        None => 0,
    }
}

// The bytes that an event brought in the last ten seconds.
fn recent_bytes(machine: &Machine, which: Option<Gid>, now: Moment, event: &Event) -> u64
    ensures { result ≡ spec.recent_bytes (known_lengths machine.now.start machine.now.past)
        which now event.now }
{
    match event {
        Event::Landed {
            gid,
            run,
            now: moment,
            ..
        } => {
            if !counts(which, *gid) {
                return 0;
            }
            if !is_recent(now, *moment) {
                return 0;
            }
            known_run_bytes(machine.lengths(*gid), *run)
        }
        _ => 0,
    }
}

fn moment_of(event: &Event) -> Option<Moment>
    ensures { result ≡ moment_of_event event.now }
{
    match event {
        Event::Called { now, .. } => Some(*now),
        Event::Opened { now, .. } => Some(*now),
        Event::Claimed { claim, .. } => Some(claim.since),
        Event::Landed { now, .. } => Some(*now),
        Event::Saved { now, .. } => Some(*now),
        _ => None,
    }
}

// Whether an event is known to have come too early.
fn is_old(now: Moment, event: &Event) -> bool
    ensures { result ≡ option_map_or (λ moment. not (spec.is_recent now moment))
        (moment_of_event event.now) false }
{
    match moment_of(event) {
        Some(moment) => !is_recent(now, moment),
        None => false,
    }
}

// The bytes of the last ten seconds. Moments never fall, so it looks no further back than to the first event that came
// too early.
fn bytes_so_late(machine: &Machine, which: Option<Gid>, now: Moment) -> u64
    ensures { result ≡ min (sum_by
        (spec.recent_bytes (known_lengths machine.now.start machine.now.past) which now)
        machine.now.past) (2 ^ 64 - 1) }
{
    let journal = machine.journal();
    let count = journal.len();
    let mut bytes: u64 = 0;
    for back in 0..count {
        let event = journal.get(count - 1 - back).unwrap();
        if is_old(now, event) {
            return bytes;
        }
        bytes = bytes.saturating_add(recent_bytes(machine, which, now, event));
    }
    bytes
}

/// The bytes a second of a download, or of all.
pub(crate) fn speed(machine: &Machine, which: Option<Gid>, now: Moment) -> u64
    ensures { result ≡ spec.speed_in machine.now.start machine.now.past which now }
{
    bytes_so_late(machine, which, now) / SPEED_SECONDS
}

/// Where the speeds of downloads are looked for.
#[derive(Drop)]
pub(crate) enum Speeds {
    /// In the journal, from its end on.
    Sought,
    /// Among the bytes of the last ten seconds, which were summed up for all downloads, each under its gid.
    Gathered(BTreeMap<u64, u64>),
}

// The download whose blocks landed.
fn landed_gid(event: &Event) -> Option<Gid>
    ensures { result ≡ spec.landed_gid event.now }
{
    match event {
        Event::Landed { gid, .. } => Some(*gid),
        _ => None,
    }
}

// The bytes under a gid.
fn sum_under(sums: &BTreeMap<u64, u64>, gid: Gid) -> u64
    ensures { result ≡ sum_under sums.now gid.0 }
{
    sums.get(&gid.0).copied().unwrap_or(0)
}

// Puts so many bytes under a gid.
fn put_sum(sums: &mut BTreeMap<u64, u64>, gid: Gid, sum: u64) -> Result<(), AllocError>
    ensures { OnOk result ((other : ℕ) → get nat_cmp sums.new other
        ≡ (if gid.0 == other then Some sum else get nat_cmp sums.old other)) }
{
    sums.insert(gid.0, sum)?;
    Ok(())
}

// Adds the bytes that an event brought in the last ten seconds.
fn add_recent(
    machine: &Machine,
    now: Moment,
    event: &Event,
    sums: &mut BTreeMap<u64, u64>,
) -> Result<(), AllocError>
    ensures { (newer : List RunEvent)
        → HasSums sums.old (known_lengths machine.now.start machine.now.past) now newer
        → OnOk result (HasSums sums.new (known_lengths machine.now.start machine.now.past) now
        (newer ++ event.now ∷ [])) }
{
    let Some(gid) = landed_gid(event) else {
        return Ok(());
    };
    let bytes = recent_bytes(machine, Some(gid), now, event);
    let sum = sum_under(sums, gid).saturating_add(bytes);
    put_sum(sums, gid, sum)
}

// The bytes of the last ten seconds of all downloads. It looks no further back than `bytes_so_late` does.
fn sums_so_late(
    machine: &Machine,
    alloc: Global,
    now: Moment,
) -> Result<BTreeMap<u64, u64>, AllocError>
    ensures { IfOk result (λ sums. HasSums sums
        (known_lengths machine.now.start machine.now.past) now machine.now.past) }
{
    let journal = machine.journal();
    let count = journal.len();
    let mut sums = BTreeMap::new(alloc);
    for back in 0..count {
        let event = journal.get(count - 1 - back).unwrap();
        if is_old(now, event) {
            return Ok(sums);
        }
        add_recent(machine, now, event, &mut sums)?;
    }
    Ok(sums)
}

impl Speeds {
    /// Where the speeds of so many downloads are looked for: for several the journal is gone through but once.
    pub(crate) fn of(
        machine: &Machine,
        alloc: Global,
        count: usize,
        now: Moment,
    ) -> Result<Self, AllocError>
        ensures { IfOk result (λ speeds.
            AreSpeeds speeds machine.now.start machine.now.past now) }
    {
        if count > 1 {
            Ok(Speeds::Gathered(sums_so_late(machine, alloc, now)?))
        } else {
            Ok(Speeds::Sought)
        }
    }

    /// The bytes a second of a download.
    pub(crate) fn speed(&self, machine: &Machine, gid: Gid, now: Moment) -> u64
        requires { AreSpeeds self.now machine.now.start machine.now.past now }
        ensures { result ≡ spec.speed_of machine.now.start machine.now.past gid now }
    {
        match self {
            Speeds::Sought => speed(machine, Some(gid), now),
            Speeds::Gathered(sums) => sum_under(sums, gid) / SPEED_SECONDS,
        }
    }
}
