// The turns of a worker until its work ends, no more than so many.
ghost use Rattle.std.specs.Prelude.{◌≡◌};
ghost use Rattle.conn_worker.specs.Hands.{WorkerAt};
ghost use Rattle.conn_worker.specs.Ends.{is_finished};
ghost use Rattle.conn_worker.specs.Works.{EndsRun, StandsIn, StopsAt, WorkedWithin, WorksOnWithin, workplace};

use crate::ends::{Spent, WorkEnd, is_finished};
use crate::state::WorkState;
use crate::turning::work_once;
use dl_clock::Clock;
use dl_disk::Disk;
use dl_kinds::Moment;
use engine_core::Engine;
use engine_turns::Operation;
use link_source::Links;
use std::alloc::Global;
use turn_desk::{Desk, turns_add_up};

/// The most turns of the table that a worker takes whose turns are limited.
pub const MAX_TURNS: u64 = 281_474_976_710_656;

/// The run is stopped.
pub(crate) fn stop<D: Disk, T: Desk<Engine<D>>>(desk: &mut T, now: Moment)
    ensures stops { StopsAt now (T.sight desk.old) (T.sight desk.new) }
    ensures desk_id { T.desk_id desk.new ≡ T.desk_id desk.old }
{
    turns_add_up::<Engine<D>>();
    let _ = desk.turn(Operation::Stop { now });
}

/// Unless the run is finished, it is stopped.
pub(crate) fn stop_unless_finished<D: Disk, T: Desk<Engine<D>>>(
    desk: &mut T,
    came: Result<WorkEnd, Spent>,
    now: Moment,
)
    ensures ends { EndsRun came now.0 (T.sight desk.old) (T.sight desk.new) }
    ensures desk_id { T.desk_id desk.new ≡ T.desk_id desk.old }
{
    turns_add_up::<Engine<D>>();
    if is_finished(came) {
        return;
    }
    stop(desk, now);
}

/// Takes turns until one ends the work, but no more than `MAX_TURNS`.
fn take_turns<L: Links, K: Clock, D: Disk, T: Desk<Engine<D>>>(
    desk: &mut T,
    state: &mut WorkState,
    link: &mut L,
    clock: &mut K,
) -> Result<WorkEnd, Spent>
    requires { (a : WorkerAt) × StandsIn L.Links K.Clock
        (workplace (T.sight desk.old) state.old link.old clock.old) a }
    ensures went { WorksOnWithin L.Links K.Clock
        (workplace (T.sight desk.old) state.old link.old clock.old)
        (workplace (T.sight desk.new) state.new link.new clock.new) result }
    ensures desk_id { T.desk_id desk.new ≡ T.desk_id desk.old }
{
    turns_add_up::<Engine<D>>();
    for _ in 0..MAX_TURNS {
        if let Some(end) = work_once(desk, state, link, clock) {
            return Ok(end);
        }
    }
    Err(Spent)
}

/// Takes turns until one ends the work, but no more than `MAX_TURNS`. Unless the run is finished then, it is stopped.
pub fn work<L: Links, K: Clock, D: Disk, T: Desk<Engine<D>>>(
    alloc: Global,
    desk: &mut T,
    worker: u32,
    link: &mut L,
    clock: &mut K,
) -> Result<WorkEnd, Spent>
    ensures went { WorkedWithin L.Links K.Clock worker (T.sight desk.old) (link.old, clock.old)
        (T.sight desk.new) (link.new, clock.new) result }
    ensures desk_id { T.desk_id desk.new ≡ T.desk_id desk.old }
{
    turns_add_up::<Engine<D>>();
    let Ok(mut state) = WorkState::new(alloc, worker) else {
        stop(desk, Moment(0));
        return Ok(WorkEnd::NoMemory);
    };
    let came = take_turns(desk, &mut state, link, clock);
    stop_unless_finished(desk, came, state.moment);
    came
}
