// All doors, each in a thread of its own.
ghost use Rattle.std.specs.Prelude.{◌≡◌, ◌+◌, ◌<◌, ◌^◌};
ghost use Rattle.desk_participants.specs.Uses.{AllMayTakePart, AllTookPart, MayTakePart, TookPart};
ghost use Rattle.origin_run.specs.Doors.{KeepsByTurns, ServesDoorAt, door_end_of};

use console_http::DoorEnd;
use console_session::Transcript;
use desk_participants::Participant;
use dl_disk::Disk;
use door_source::Doors;
use range_origin::{OriginEnd, Shelf, keep_origin};
use std::alloc::Global;
use std::sync::Wait;
use std::thread::{Threads, for_each_mut};
use turn_desk::{Desk, Pass, TurnDesk};

fn door_end_of(end: OriginEnd) -> DoorEnd
    ensures { result ≡ door_end_of end }
{
    match end {
        OriginEnd::Closed => DoorEnd::Closed,
        OriginEnd::Fault { count } => DoorEnd::Fault { count },
        OriginEnd::NoMemory => DoorEnd::NoBuffers,
    }
}

// The door of this number is kept to its end.
fn keep<R: Wait, D: Disk, T: Desk<Shelf<D>>, A: Doors>(
    rt: &R,
    alloc: Global,
    desk: &mut T,
    number: u32,
    door: &mut A,
) -> Transcript
    requires { number + 1 < 2 ^ 32 }
    ensures kept { KeepsByTurns D.Disk A.Doors number (T.sight desk.old) door.old
        (T.sight desk.new) door.new result }
    ensures desk_id { T.desk_id desk.new ≡ T.desk_id desk.old }
{
    let mut starved = 0;
    let end = keep_origin(rt, alloc, desk, door, &mut starved);
    Transcript {
        session: number + 1,
        places: Vec::new(alloc),
        starved,
        end: door_end_of(end),
    }
}

// One door is kept, with its pass.
fn keep_at<R: Wait, D: Disk, A: Doors, K>(
    rt: &R,
    alloc: Global,
    desk: &TurnDesk<Shelf<D>>,
    keeper: &mut Participant<Pass<Shelf<D>>, A, K, Transcript>,
)
    requires { MayTakePart desk.now keeper.old }
    ensures { TookPart desk.now (ServesDoorAt D.Disk A.Doors) keeper.old keeper.new }
{
    let Some(pass) = keeper.pass.take() else {
        unreachable!()
    };
    let mut chair = desk.chair(rt, pass);
    let transcript = keep(rt, alloc, &mut chair, keeper.number, &mut keeper.edge);
    keeper.came = Some(transcript);
    keeper.pass = Some(chair.leave());
}

// All of these doors are kept.
fn keep_each<R: Threads + Wait + Sync, D: Disk + Send, A: Doors + Send, K: Send>(
    rt: &R,
    alloc: Global,
    desk: &TurnDesk<Shelf<D>>,
    keepers: &mut [Participant<Pass<Shelf<D>>, A, K, Transcript>],
)
    requires { AllMayTakePart desk.now keepers.old }
    ensures { AllTookPart desk.now (ServesDoorAt D.Disk A.Doors) keepers.old keepers.new }
{
    let count = keepers.len().max(1);
    for_each_mut(
        rt,
        keepers,
        count,
        &|_: usize, keeper: &mut Participant<Pass<Shelf<D>>, A, K, Transcript>|
            requires { MayTakePart desk.now keeper.now }
            ensures { TookPart desk.entry.now (ServesDoorAt D.Disk A.Doors)
                keeper.entry.now keeper.exit.now }
        { keep_at(rt, alloc, desk, keeper) },
    );
}

/// All doors are kept, each in a thread of its own. Where one can't be started its part is done behind another's.
pub(crate) fn keep_all<R: Threads + Wait + Sync, D: Disk + Send, A: Doors + Send, K: Send>(
    rt: &R,
    alloc: Global,
    desk: &TurnDesk<Shelf<D>>,
    keepers: &mut Vec<Participant<Pass<Shelf<D>>, A, K, Transcript>>,
)
    requires { AllMayTakePart desk.now keepers.old.items }
    ensures { AllTookPart desk.now (ServesDoorAt D.Disk A.Doors)
        keepers.old.items keepers.new.items }
{
    keep_each(rt, alloc, desk, keepers);
}
