// A door, and the connections of its clients.
ghost use Rattle.std.specs.Prelude.{◌≡◌, Some};
ghost use Rattle.range_origin.specs.Keeping.{HasVisited, IsKept, KeepsOn, KeepsOrigin, end_at, starved_at, starved_once};
ghost use Rattle.range_origin.specs.Talking.{origin_at};

use crate::ends::{OriginEnd, VisitEnd};
use crate::intake::Intake;
use crate::shelf::Shelf;
use crate::talking::serve_connection;
use dl_disk::Disk;
use dl_kinds::IoErr;
use door_source::{Came, Doors, newest_connection_is_one};
use std::alloc::Global;
use std::sync::Wait;
use turn_desk::{Desk, turns_add_up};

/// What came of letting a client in.
#[derive(Clone, Copy, Debug, PartialEq, Eq)]
pub(crate) enum Visited {
    NobodyCame,
    Served(VisitEnd),
    Ended(OriginEnd),
}

// Lets the next client in, if one came, and serves its connection.
fn let_in<R: Wait, D: Disk, A: Doors, T: Desk<Shelf<D>>>(
    rt: &R,
    alloc: Global,
    desk: &mut T,
    door: &mut A,
    intake: &mut Intake,
) -> Visited
    ensures desk_id { T.desk_id desk.new ≡ T.desk_id desk.old }
    ensures visited { HasVisited T.sight D.Disk A.Doors (origin_at desk.old door.old)
        (origin_at desk.new door.new) result }
{
    match door.accept() {
        Ok(Came::Somebody) => Visited::Served(serve_connection(rt, alloc, desk, door, intake)),
        Ok(Came::Nobody) => Visited::NobodyCame,
        Ok(Came::Closed) => Visited::Ended(OriginEnd::Closed),
        Err(IoErr::Fault) => Visited::Ended(OriginEnd::Fault {
            count: door.faults(),
        }),
        Err(IoErr::NoMemory) => Visited::NobodyCame,
    }
}

fn starved_once(end: VisitEnd) -> u32
    ensures { result ≡ starved_once end }
{
    match end {
        VisitEnd::Starved => 1,
        VisitEnd::AtItsEnd
        | VisitEnd::HungUp
        | VisitEnd::Failed
        | VisitEnd::DiskFailed
        | VisitEnd::Cut => 0,
    }
}

// How many connections want of memory ended: none or one.
fn starved_at(visited: Visited) -> u32
    ensures { result ≡ starved_at visited }
{
    match visited {
        Visited::Served(end) => starved_once(end),
        Visited::NobodyCame => 0,
        Visited::Ended(_) => 0,
    }
}

fn end_at(visited: Visited) -> Option<OriginEnd>
    ensures { result ≡ end_at visited }
{
    match visited {
        Visited::Ended(end) => Some(end),
        Visited::Served(_) => None,
        Visited::NobodyCame => None,
    }
}

// Waits for the next client, and serves it. Tells how the door ends, if it does.
fn keep_on<R: Wait, D: Disk, A: Doors, T: Desk<Shelf<D>>>(
    rt: &R,
    alloc: Global,
    desk: &mut T,
    door: &mut A,
    intake: &mut Intake,
    starved: &mut u32,
) -> Option<OriginEnd>
    ensures desk_id { T.desk_id desk.new ≡ T.desk_id desk.old }
    ensures kept { KeepsOn T.sight D.Disk A.Doors (origin_at desk.old door.old) starved.old
        (origin_at desk.new door.new) starved.new result }
{
    newest_connection_is_one();
    turns_add_up::<Shelf<D>>();
    let visited = let_in(rt, alloc, desk, door, intake);
    *starved = starved.saturating_add(starved_at(visited));
    end_at(visited)
}

// Until the door ends. Counts the connections that want of memory ended.
fn keep_with<R: Wait, D: Disk, A: Doors, T: Desk<Shelf<D>>>(
    rt: &R,
    alloc: Global,
    desk: &mut T,
    door: &mut A,
    intake: &mut Intake,
    starved: &mut u32,
) -> OriginEnd
    requires none { starved.old ≡ 0 }
    ensures desk_id { T.desk_id desk.new ≡ T.desk_id desk.old }
    ensures kept { IsKept T.sight D.Disk A.Doors (Some result) (origin_at desk.old door.old)
        starved.old (origin_at desk.new door.new) starved.new }
{
    turns_add_up::<Shelf<D>>();
    for _ in rt.forever() {
        if let Some(end) = keep_on(rt, alloc, desk, door, intake, starved) {
            return end;
        }
    }
    unreachable!()
}

/// Serves the connections of a door, one behind another, until no client comes any more, or none can be let in. A connection
/// that a fault or want of memory ends is closed, and the next one is served. `starved` counts the connections that want of
/// memory ended, and 1 where the buffers couldn't be made, up to 2^32 - 1.
pub fn keep_origin<R: Wait, D: Disk, A: Doors, T: Desk<Shelf<D>>>(
    rt: &R,
    alloc: Global,
    desk: &mut T,
    door: &mut A,
    starved: &mut u32,
) -> OriginEnd
    ensures keeps { KeepsOrigin D.Disk A.Doors result (T.sight desk.old) door.old starved.old
        (T.sight desk.new) door.new starved.new }
    ensures desk_id { T.desk_id desk.new ≡ T.desk_id desk.old }
{
    turns_add_up::<Shelf<D>>();
    let Ok(mut intake) = Intake::new(alloc) else {
        *starved = starved.saturating_add(1);
        return OriginEnd::NoMemory;
    };
    let mut count = 0;
    let end = keep_with(rt, alloc, desk, door, &mut intake, &mut count);
    *starved = starved.saturating_add(count);
    end
}
