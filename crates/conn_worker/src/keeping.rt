// The turns of a worker until its work ends, however many.
ghost use Rattle.std.specs.Prelude.{◌≡◌, Ok};
ghost use Rattle.conn_worker.specs.Hands.{WorkerAt};
ghost use Rattle.conn_worker.specs.Works.{StandsIn, WorkedByClock, WorksOn, workplace};

use crate::ends::WorkEnd;
use crate::state::WorkState;
use crate::turning::work_once;
use crate::working::{stop, stop_unless_finished};
use dl_clock::Clock;
use dl_disk::Disk;
use dl_kinds::Moment;
use engine_core::Engine;
use link_source::Links;
use std::alloc::Global;
use std::sync::Wait;
use turn_desk::{Desk, turns_add_up};

/// Takes turns until one ends the work.
fn keep_turns<R: Wait, L: Links, K: Clock, D: Disk, T: Desk<Engine<D>>>(
    rt: &R,
    desk: &mut T,
    state: &mut WorkState,
    link: &mut L,
    clock: &mut K,
) -> WorkEnd
    requires { (a : WorkerAt) × StandsIn L.Links K.Clock
        (workplace (T.sight desk.old) state.old link.old clock.old) a }
    ensures went { WorksOn L.Links K.Clock
        (workplace (T.sight desk.old) state.old link.old clock.old)
        (workplace (T.sight desk.new) state.new link.new clock.new) (Ok result) }
    ensures desk_id { T.desk_id desk.new ≡ T.desk_id desk.old }
{
    turns_add_up::<Engine<D>>();
    for _ in rt.forever() {
        if let Some(end) = work_once(desk, state, link, clock) {
            return end;
        }
    }
    unreachable!()
}

/// Takes turns until one ends the work, however many. Unless the run is finished then, it is stopped.
pub fn keep_work<R: Wait, L: Links, K: Clock, D: Disk, T: Desk<Engine<D>>>(
    rt: &R,
    alloc: Global,
    desk: &mut T,
    worker: u32,
    link: &mut L,
    clock: &mut K,
) -> WorkEnd
    ensures went { WorkedByClock L.Links K.Clock worker (T.sight desk.old) (link.old, clock.old)
        (T.sight desk.new) (link.new, clock.new) (Ok result) }
    ensures desk_id { T.desk_id desk.new ≡ T.desk_id desk.old }
{
    turns_add_up::<Engine<D>>();
    let Ok(mut state) = WorkState::new(alloc, worker) else {
        stop(desk, Moment(0));
        return WorkEnd::NoMemory;
    };
    let end = keep_turns(rt, desk, &mut state, link, clock);
    stop_unless_finished(desk, Ok(end), state.moment);
    end
}
