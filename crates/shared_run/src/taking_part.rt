// What one does who takes part in the desk of a run.
ghost use Rattle.std.specs.Prelude.{◌≡◌, ◌<◌, ◌+◌, ◌^◌, Ok, option_copied};
ghost use Rattle.console_session.specs.DoorSessions.{ReadsMoments, ServesDoor};
ghost use Rattle.run_lifecycle.specs.Stops as stops;
ghost use Rattle.shared_run.specs.Participants.{ServesAt, WorksAt, session_of};
ghost use Rattle.desk_participants.specs.Uses.{MayTakePart, TookPart};

use conn_worker::{WorkEnd, keep_work};
use console_http::DoorEnd;
use console_session::{Transcript, serve_door};
use desk_participants::Participant;
use dl_clock::Clock;
use dl_disk::Disk;
use door_source::Doors;
use engine_core::Engine;
use link_source::Links;
use run_lifecycle::ConsoleTerms;
use std::alloc::Global;
use std::sync::Wait;
use std::sync::atomic::{AtomicBool, Ordering};
use turn_desk::{Desk, Pass, TurnDesk};

// Memory was wanting for a worker.
fn ends_short(came: WorkEnd) -> bool
    ensures { result ≡ stops.ends_short (Ok came) }
{
    came == WorkEnd::NoMemory
}

/// One worker works over its link, until its work ends. Then the run is over: it is finished, or the worker stopped it.
pub(crate) fn work_at<R: Wait, D: Disk, L: Links, K: Clock>(
    rt: &R,
    alloc: Global,
    desk: &TurnDesk<Engine<D>>,
    over: &AtomicBool,
    worker: &mut Participant<Pass<Engine<D>>, L, K, bool>,
)
    requires { MayTakePart desk.now worker.old }
    ensures { TookPart desk.now (WorksAt L.Links K.Clock) worker.old worker.new }
{
    let Some(pass) = worker.pass.take() else {
        unreachable!()
    };
    let mut chair = desk.chair(rt, pass);
    let came = keep_work(
        rt,
        alloc,
        &mut chair,
        worker.number,
        &mut worker.edge,
        &mut worker.clock,
    );
    over.store(true, Ordering::SeqCst);
    worker.came = Some(ends_short(came));
    worker.pass = Some(chair.leave());
}

fn secret_of(console: &ConsoleTerms) -> Option<&str>
    ensures { option_copied result ≡ console.now.secret }
{
    match &console.secret {
        Some(secret) => Some(secret.as_str()),
        None => None,
    }
}

// A door is served by the session of its number, as the console asks.
fn serve<R: Wait, D: Disk, T: Desk<Engine<D>>, A: Doors, K: Clock>(
    rt: &R,
    alloc: Global,
    desk: &mut T,
    console: &ConsoleTerms,
    number: u32,
    door: &mut A,
    clock: &mut K,
) -> Transcript
    requires { number + 1 < 2 ^ 32 }
    ensures served { ServesDoor A.Doors (session_of number) console.now.secret console.now.most
        (T.sight desk.old) door.old (T.sight desk.new) door.new result }
    ensures moments { ReadsMoments K.reads clock.old (T.sight desk.old) (T.sight desk.new) }
    ensures desk_id { T.desk_id desk.new ≡ T.desk_id desk.old }
{
    let secret = secret_of(console);
    serve_door(
        rt,
        alloc,
        desk,
        number + 1,
        secret,
        console.most,
        door,
        clock,
    )
}

/// One door is served, until no client comes any more or the run is finished.
pub(crate) fn serve_at<R: Wait, D: Disk, A: Doors, K: Clock>(
    rt: &R,
    alloc: Global,
    desk: &TurnDesk<Engine<D>>,
    over: &AtomicBool,
    console: &ConsoleTerms,
    keeper: &mut Participant<Pass<Engine<D>>, A, K, Transcript>,
)
    requires { MayTakePart desk.now keeper.old }
    ensures { TookPart desk.now (ServesAt A.Doors K.Clock console.now) keeper.old keeper.new }
{
    let Some(pass) = keeper.pass.take() else {
        unreachable!()
    };
    let mut chair = desk.pressing_chair(rt, pass);
    let transcript = serve(
        rt,
        alloc,
        &mut chair,
        console,
        keeper.number,
        &mut keeper.edge,
        &mut keeper.clock,
    );
    if transcript.end == DoorEnd::Finished {
        over.store(true, Ordering::SeqCst);
    }
    keeper.came = Some(transcript);
    keeper.pass = Some(chair.leave());
}
