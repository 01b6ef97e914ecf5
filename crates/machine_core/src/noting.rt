// The notices of one event, by the statuses before it and the queue behind it.
ghost use Rattle.std.specs.Prelude.{◌≡◌, ◌<◌, ◌≤◌, ◌+◌, ◌-◌, ◌^◌, ◌==◌, vec_capacity, vec_len, if◌then◌else◌};
ghost use Rattle.option_set.specs.Values.{number_value};
ghost use Rattle.option_set.specs.declared.kinds.Num.TheVariants.{Pause};
ghost use Rattle.dl_kinds.specs.declared.status.Status.TheVariants.{Paused, Waiting};
ghost use Rattle.machine_core.specs.NoticeLogs.{AreCounted, IsNoted, TellsOne, change_of};
ghost use Rattle.machine_core.specs.Notices as spec;

use crate::adding::is_paused;
use crate::notices::PlacedNotice;
use crate::{Cursor, Notice, NoticeKind};
use dl_kinds::{Gid, Status};
use dl_queue::Queue;
use option_set::Options;

// What a status is told as.
fn kind_by(status: Status) -> Option<NoticeKind>
    ensures { result ≡ spec.kind_by status }
{
    match status {
        Status::Active => Some(NoticeKind::Start),
        Status::Paused => Some(NoticeKind::Pause),
        Status::Removed => Some(NoticeKind::Stop),
        Status::Complete => Some(NoticeKind::Complete),
        Status::Failed => Some(NoticeKind::Error),
        Status::Waiting => None,
    }
}

// Whether the status is just this one.
fn has_status(status: Status, before: Option<Status>) -> bool
    ensures { result ≡ spec.has_status status before }
{
    match before {
        Some(other) => status == other,
        None => false,
    }
}

// What a change of the status is told as.
fn kind_of_change(before: Option<Status>, after: Option<Status>) -> Option<NoticeKind>
    ensures { result ≡ spec.kind_of_change before after }
{
    match after {
        Some(status) if !has_status(status, before) => kind_by(status),
        _ => None,
    }
}

// Tells a change of a download, if it is one, and gives the number of the next notice.
fn tell_change(
    told: &mut Vec<PlacedNotice>,
    at: Cursor,
    gid: Gid,
    before: Option<Status>,
    after: Option<Status>,
) -> u32
    requires few { at.nth < 2 ^ 32 - 1 }
    requires room { vec_len told.old < vec_capacity told.old }
    ensures told { TellsOne at.event (change_of before after gid) at.nth result
        told.old.items told.new.items }
    ensures next { result ≤ at.nth + 1 }
    ensures len { vec_len told.new ≤ vec_len told.old + 1 }
    ensures capacity { vec_capacity told.new ≡ vec_capacity told.old }
{
    match kind_of_change(before, after) {
        Some(kind) => {
            let notice = Notice { kind, gid };
            told.push_reserved(PlacedNotice { at, notice });
            at.nth + 1
        }
        None => at.nth,
    }
}

/// Puts the notices of the event at a place behind those that were told, and notes the statuses.
pub(crate) fn note(
    queue: &Queue,
    seen: &mut Vec<Option<Status>>,
    told: &mut Vec<PlacedNotice>,
    event: u32,
)
    requires { vec_len told.old + vec_len seen.old ≤ vec_capacity told.old }
    ensures { IsNoted event queue.now seen.old.items seen.new.items told.old.items told.new.items }
{
    let mut nth: u32 = 0;
    // There are as many.
    for place in 0..seen.len().min(queue.added_len()) {
        let gid = queue.added_at(place).gid;
        let status = queue.status_at(place);
        nth = tell_change(told, Cursor { event, nth }, gid, seen[place], status);
        seen[place] = status;
    }
}

// What a download of these options counts as before it is added.
fn counts_as(options: &Options) -> Status
    ensures { result ≡ (if number_value options.now Pause == 0 then Waiting else Paused) }
{
    if is_paused(options) {
        Status::Paused
    } else {
        Status::Waiting
    }
}

/// Notes what a download that was just added counts as.
pub(crate) fn see_new(queue: &Queue, seen: &mut Vec<Option<Status>>)
    requires { vec_len seen.old < vec_capacity seen.old }
    ensures counted { AreCounted queue.now.added seen.old.items seen.new.items }
    ensures len { vec_len seen.new ≤ vec_len seen.old + 1 }
{
    let place = seen.len();
    if place < queue.added_len() {
        let status = counts_as(&queue.added_at(place).options);
        seen.push_reserved(Some(status));
    }
}
