// One turn of a worker, and what its answer asks.
ghost use Rattle.std.specs.Prelude.{◌≡◌};
ghost use Rattle.conn_worker.specs.Clocks.{PausesBy};
ghost use Rattle.conn_worker.specs.Ends.{moment_behind};
ghost use Rattle.conn_worker.specs.Hands.{WorkerAt};
ghost use Rattle.conn_worker.specs.Works.{StandsIn, WorksOnce, turn_moment, workplace};

use crate::answers_are_sound;
use crate::ends::{WorkEnd, end_of, pause_of};
use crate::following::follow;
use crate::state::WorkState;
use dl_clock::Clock;
use dl_disk::Disk;
use dl_kinds::Moment;
use engine_core::Engine;
use engine_turns::Answer;
use link_source::Links;
use turn_desk::{Desk, turns_add_up};

/// The later of what a clock told and the moment of the worker.
fn turn_moment(told: Moment, moment: Moment) -> Moment
    ensures { result ≡ turn_moment told.0 moment.0 }
{
    Moment(told.0.max(moment.0))
}

/// Waits so long, if at all, and tells the moment behind that.
fn pause<K: Clock>(clock: &mut K, now: Moment, pause: Option<u64>) -> Moment
    ensures moment { result.0 ≡ moment_behind now.0 pause }
    ensures clock { PausesBy K.Clock clock.old pause clock.new }
{
    match pause {
        Some(ms) => {
            clock.pause(ms);
            Moment(now.0.saturating_add(ms))
        }
        None => now,
    }
}

/// Takes the turn that is due, by what came last, and does what its answer asks: a pause, one step of a fetch, one probe, or
/// one digest. Where it has nothing to do it hangs up before it pauses. The answer is how that ends the work, if it does.
pub fn work_once<L: Links, K: Clock, D: Disk, T: Desk<Engine<D>>>(
    desk: &mut T,
    state: &mut WorkState,
    link: &mut L,
    clock: &mut K,
) -> Option<WorkEnd>
    requires { (a : WorkerAt) × StandsIn L.Links K.Clock
        (workplace (T.sight desk.old) state.old link.old clock.old) a }
    ensures went { WorksOnce L.Links K.Clock
        (workplace (T.sight desk.old) state.old link.old clock.old)
        (workplace (T.sight desk.new) state.new link.new clock.new) result }
    ensures desk_id { T.desk_id desk.new ≡ T.desk_id desk.old }
{
    answers_are_sound();
    turns_add_up::<Engine<D>>();
    let told = clock.now();
    let now = turn_moment(told, state.moment);
    let hand = state.hand.take().unwrap();
    let (op, waiting) = hand.due(state.worker, now);
    let Answer { said, back } = desk.turn(op);
    let end = end_of(&said);
    let rest = pause_of(&said);
    state.part = state.part.behind(&said, now.0 - state.moment.0);
    let next = follow(
        state.alloc,
        link,
        waiting.with_buffer(back),
        said,
        state.part,
    );
    state.moment = pause(clock, now, rest);
    let end = end.or(next.end());
    state.hand = Some(next);
    end
}
