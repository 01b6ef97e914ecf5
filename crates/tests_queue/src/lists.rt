// What is told of a queue.
use dl_kinds::{Gid, Status};
use dl_queue::{Ending, Queue, QueueErr};
use test_lines::{Output, name_of};

/// So many downloads of a list are told at most.
const MANY: usize = 20;

pub const STATUSES: [(&str, Status); 6] = [
    ("active", Status::Active),
    ("waiting", Status::Waiting),
    ("paused", Status::Paused),
    ("error", Status::Failed),
    ("complete", Status::Complete),
    ("removed", Status::Removed),
];

const ENDINGS: [(&str, Ending); 3] = [
    ("=error", Ending::Failed),
    ("=complete", Ending::Complete),
    ("=removed", Ending::Removed),
];

/// Adds why a call is refused.
pub fn add_refusal(refused: QueueErr, output: &mut Output) {
    match refused {
        QueueErr::NotFound => output.text("not found"),
        QueueErr::Ambiguous { count } => output.counted("names ", count as u64),
        QueueErr::WrongStatus(status) => {
            output.text("is ");
            output.text(name_of(&STATUSES, &status));
        }
        QueueErr::SameGid => output.text("gid in use"),
        QueueErr::Full { count } => {
            output.number(count as u64);
            output.text(" were added");
        }
        QueueErr::NoMemory => output.text("out of memory"),
    }
}

fn add_entry(gid: Gid, mark: &str, output: &mut Output) {
    output.letter(' ');
    output.hex(gid.0);
    output.text(mark);
}

// Begins a list by its name and its length.
fn begin_list(name: &str, len: usize, output: &mut Output) {
    output.counted(name, len as u64);
    output.letter(':');
}

fn add_active(queue: &Queue, output: &mut Output) {
    begin_list("active ", queue.active_len(), output);
    for gid in queue.active().take(MANY) {
        add_entry(gid, "", output);
    }
}

fn add_waiting(queue: &Queue, output: &mut Output) {
    begin_list("; waiting ", queue.waiting_len(), output);
    for download in queue.waiting().take(MANY) {
        add_entry(
            download.gid,
            if download.paused { "=paused" } else { "" },
            output,
        );
    }
}

fn add_stopped(queue: &Queue, output: &mut Output) {
    begin_list("; stopped ", queue.stopped_len(), output);
    for download in queue.stopped().take(MANY) {
        add_entry(download.gid, name_of(&ENDINGS, &download.ending), output);
    }
}

/// Adds the lists of a queue.
pub fn add_lists(queue: &Queue, output: &mut Output) {
    add_active(queue, output);
    add_waiting(queue, output);
    add_stopped(queue, output);
}
