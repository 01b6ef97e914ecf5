// One connection.
ghost use Rattle.std.specs.Prelude.{◌≡◌, ◌≤◌, true, IsTrue, List, length};
ghost use Rattle.http_heads.specs.AskHeads.{IsAskHead, IsNoAskHead};
ghost use Rattle.origin_replies.specs.Askings.{asked, is_last_asking};
ghost use Rattle.range_origin.specs.Conversations.{GoesOn, HasServed, HasTalkedToEnd, fresh_reading, talk_at};
ghost use Rattle.range_origin.specs.Talking.{origin_at};
ghost use Rattle.range_origin.specs.Visits.{Answered};

use crate::ends::VisitEnd;
use crate::intake::Intake;
use crate::sending::{answer, send_head};
use crate::shelf::Shelf;
use dl_disk::Disk;
use door_source::Doors;
use http_heads::{AskHead, AskRead, hangs_up};
use origin_replies::{Reply, askings_are_one_and_stay, tells_content};
use std::alloc::Global;
use std::sync::Wait;
use turn_desk::{Desk, turns_add_up};

// Whether the connection ends behind the reply.
fn is_last(head: &AskHead) -> bool
    ensures { result ≡ is_last_asking (asked head.now) }
{
    tells_content(head) || hangs_up(head)
}

// Answers the request at the front, of this head, which takes so many bytes.
fn answer_front<D: Disk, A: Doors, T: Desk<Shelf<D>>>(
    alloc: Global,
    desk: &mut T,
    door: &mut A,
    intake: &mut Intake,
    head: &AskHead,
    used: usize,
) -> Option<VisitEnd>
    requires front { IsAskHead intake.old.unread head.now used }
    requires within { used ≤ length intake.old.unread }
    requires opened { IsTrue A.tells → (A.state door.old).is_open ≡ true }
    ensures stays_open { IsTrue A.tells → (A.state door.new).is_open ≡ true }
    ensures desk_id { T.desk_id desk.new ≡ T.desk_id desk.old }
    ensures goes_on { GoesOn T.sight D.Disk A.Doors (talk_at desk.old door.old intake.old)
        (talk_at desk.new door.new intake.new) result }
{
    askings_are_one_and_stay();
    turns_add_up::<Shelf<D>>();
    if let Some(end) = answer(alloc, desk, door, head) {
        return Some(end);
    }
    intake.take_off(used);
    if is_last(head) {
        Some(VisitEnd::HungUp)
    } else {
        None
    }
}

// Answers what is no request.
fn turn_away<D: Disk, A: Doors, T: Desk<Shelf<D>>>(
    alloc: Global,
    desk: &mut T,
    door: &mut A,
    intake: &mut Intake,
) -> Option<VisitEnd>
    requires bad { IsNoAskHead intake.old.unread }
    requires opened { IsTrue A.tells → (A.state door.old).is_open ≡ true }
    ensures stays_open { IsTrue A.tells → (A.state door.new).is_open ≡ true }
    ensures desk_id { T.desk_id desk.new ≡ T.desk_id desk.old }
    ensures goes_on { GoesOn T.sight D.Disk A.Doors (talk_at desk.old door.old intake.old)
        (talk_at desk.new door.new intake.new) result }
{
    askings_are_one_and_stay();
    turns_add_up::<Shelf<D>>();
    match send_head(alloc, door, Reply::BadRequest) {
        Some(end) => Some(end),
        None => Some(VisitEnd::HungUp),
    }
}

// Answers the request at the front, if a whole one stands there.
fn look<D: Disk, A: Doors, T: Desk<Shelf<D>>>(
    alloc: Global,
    desk: &mut T,
    door: &mut A,
    intake: &mut Intake,
) -> Option<VisitEnd>
    requires opened { IsTrue A.tells → (A.state door.old).is_open ≡ true }
    ensures stays_open { IsTrue A.tells → (A.state door.new).is_open ≡ true }
    ensures desk_id { T.desk_id desk.new ≡ T.desk_id desk.old }
    ensures goes_on { GoesOn T.sight D.Disk A.Doors (talk_at desk.old door.old intake.old)
        (talk_at desk.new door.new intake.new) result }
{
    askings_are_one_and_stay();
    match intake.next(alloc) {
        AskRead::Whole { head, used } => {
            answer_front(alloc, desk, door, intake, &head, used as usize)
        }
        AskRead::More => {
            intake.settle();
            if intake.is_over() {
                Some(VisitEnd::AtItsEnd)
            } else {
                None
            }
        }
        AskRead::Bad => turn_away(alloc, desk, door, intake),
        AskRead::NoMemory => Some(VisitEnd::Starved),
    }
}

// Answers a request, or receives the next bytes. Tells how the connection ends, if it does.
fn go_on<D: Disk, A: Doors, T: Desk<Shelf<D>>>(
    alloc: Global,
    desk: &mut T,
    door: &mut A,
    intake: &mut Intake,
) -> Option<VisitEnd>
    requires opened { IsTrue A.tells → (A.state door.old).is_open ≡ true }
    ensures stays_open { IsTrue A.tells → (A.state door.new).is_open ≡ true }
    ensures desk_id { T.desk_id desk.new ≡ T.desk_id desk.old }
    ensures goes_on { GoesOn T.sight D.Disk A.Doors (talk_at desk.old door.old intake.old)
        (talk_at desk.new door.new intake.new) result }
{
    askings_are_one_and_stay();
    if intake.is_due() {
        look(alloc, desk, door, intake)
    } else {
        intake.receive(door)
    }
}

// Goes on until the connection ends.
fn talk<R: Wait, D: Disk, A: Doors, T: Desk<Shelf<D>>>(
    rt: &R,
    alloc: Global,
    desk: &mut T,
    door: &mut A,
    intake: &mut Intake,
) -> VisitEnd
    requires fresh { intake.old ≡ fresh_reading }
    requires opened { IsTrue A.tells → (A.state door.old).is_open ≡ true }
    ensures desk_id { T.desk_id desk.new ≡ T.desk_id desk.old }
    ensures ends { (answers : List Answered)
        × HasTalkedToEnd T.sight D.Disk A.Doors answers result
        (origin_at desk.old door.old) (origin_at desk.new door.new) }
{
    turns_add_up::<Shelf<D>>();
    for _ in rt.forever() {
        if let Some(end) = go_on(alloc, desk, door, intake) {
            return end;
        }
    }
    unreachable!()
}

/// Serves the newest connection, and closes it. Requests are answered one behind another, also where several came at once.
pub(crate) fn serve_connection<R: Wait, D: Disk, A: Doors, T: Desk<Shelf<D>>>(
    rt: &R,
    alloc: Global,
    desk: &mut T,
    door: &mut A,
    intake: &mut Intake,
) -> VisitEnd
    requires opened { IsTrue A.tells → (A.state door.old).is_open ≡ true }
    ensures desk_id { T.desk_id desk.new ≡ T.desk_id desk.old }
    ensures served { HasServed T.sight D.Disk A.Doors result
        (origin_at desk.old door.old) (origin_at desk.new door.new) }
{
    intake.clear();
    let end = talk(rt, alloc, desk, door, intake);
    door.hang_up();
    end
}
