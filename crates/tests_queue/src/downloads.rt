// A queue, step by step.
use crate::lists::{STATUSES, add_lists, add_refusal};
use crate::options::add_other_values;
use dl_kinds::{Gid, GidKey, Status};
use dl_queue::{Ending, How, Queue, QueueErr};
use option_set::{Options, read};
use std::alloc::Global;
use test_lines::{Output, after, before, keyword, name_of, number, set, signed, u16_at, word};

/// What a line asks of the whole queue, or of the one download that it names.
#[derive(Clone, Copy)]
pub enum QueueLine {
    Begin,
    Limit,
    PauseAll,
    UnpauseAll,
    Purge,
    Lists,
    Find,
    Status,
}

// A call on a download.
#[derive(Clone, Copy)]
enum Call {
    Add,
    Move,
    Pause,
    Unpause,
    Remove,
    Forget,
    Stop,
}

const CALLS: [(&str, Call); 7] = [
    ("add", Call::Add),
    ("move", Call::Move),
    ("pause", Call::Pause),
    ("unpause", Call::Unpause),
    ("remove", Call::Remove),
    ("forget", Call::Forget),
    ("stop", Call::Stop),
];

const ENDINGS: [(&str, Ending); 2] = [("complete", Ending::Complete), ("error", Ending::Failed)];

const HOWS: [(&str, How); 2] = [("set", How::Set), ("cur", How::Cur)];

// What a call is answered.
#[derive(Clone, Copy, PartialEq)]
enum Answer {
    Done,
    At(u32),
    Refused(QueueErr),
}

fn add_answer(answer: Answer, output: &mut Output) {
    match answer {
        Answer::Done => output.text("ok"),
        Answer::At(place) => output.counted("at ", place as u64),
        Answer::Refused(refused) => add_refusal(refused, output),
    }
}

fn answered(answer: Result<(), QueueErr>) -> Answer {
    match answer {
        Ok(()) => Answer::Done,
        Err(refused) => Answer::Refused(refused),
    }
}

// The id that hexadecimal digits write; 0 where they write none.
fn gid_of(digits: &str) -> Gid {
    match GidKey::read(digits) {
        Some(key) => Gid(key.value),
        None => Gid(0),
    }
}

// A download that is to be added.
#[derive(Drop)]
struct Adding {
    options: Options,
    paused: bool,
    place: Option<u32>,
}

fn set_option(alloc: Global, options: &mut Options, name: &str, value: &str) {
    if let Ok(setting) = read(alloc, name, value) {
        options.apply(setting);
    }
}

// What a word of a download that is to be added sets: `paused`, `each=8` where each eighth id is paused, `at=3`, or an option
// with its value.
fn add_word(alloc: Global, adding: &mut Adding, gid: Gid, word: &str) {
    let value = after(word, '=');
    match keyword(
        &[("paused", 0), ("each", 1), ("at", 2)],
        before(word, '='),
        3,
    ) {
        0 => adding.paused = true,
        1 => adding.paused = gid.0 % number(value).max(1) == 0,
        2 => adding.place = Some(number(value).min(1_000_000) as u32),
        _ => set_option(alloc, &mut adding.options, before(word, '='), value),
    }
}

fn add_words(alloc: Global, adding: &mut Adding, gid: Gid, words: &str) {
    for word in words.split(' ') {
        add_word(alloc, adding, gid, word);
    }
}

fn added(alloc: Global, queue: &mut Queue, gid: Gid, words: &str) -> Answer {
    let Ok(options) = Options::new(alloc) else {
        return Answer::Refused(QueueErr::NoMemory);
    };
    let mut adding = Adding {
        options,
        paused: false,
        place: None,
    };
    add_words(alloc, &mut adding, gid, words);
    answered(queue.add(gid, adding.options, adding.paused, adding.place))
}

// Moves a download among those that wait.
fn moved(queue: &mut Queue, gid: Gid, words: &str) -> Answer {
    let how = keyword(&HOWS, word(words, 1), How::End);
    match queue.change_position(gid, signed(word(words, 0)), how) {
        Ok(place) => Answer::At(place),
        Err(refused) => Answer::Refused(refused),
    }
}

fn stopped(queue: &mut Queue, gid: Gid, ending: Ending) -> Result<(), QueueErr> {
    match ending {
        Ending::Complete => queue.stop(gid, Status::Complete),
        Ending::Failed => queue.stop(gid, Status::Failed),
        Ending::Removed => queue.stop(gid, Status::Removed),
    }
}

// What a call on one download is answered.
fn called(alloc: Global, queue: &mut Queue, call: Call, gid: Gid, words: &str) -> Answer {
    match call {
        Call::Add => added(alloc, queue, gid, words),
        Call::Move => moved(queue, gid, words),
        Call::Pause => answered(queue.pause(gid)),
        Call::Unpause => answered(queue.unpause(gid)),
        Call::Remove => answered(queue.remove(gid)),
        Call::Forget => answered(queue.forget(gid)),
        Call::Stop => answered(stopped(queue, gid, keyword(&ENDINGS, words, Ending::Removed))),
    }
}

// Counts one answer more; it is lost where memory is wanting.
fn tally(answers: &mut Vec<(Answer, u64)>, answer: Answer) {
    for (other, count) in answers.iter_mut() {
        if *other == answer {
            *count = count.saturating_add(1);
            return;
        }
    }
    let _ = answers.push((answer, 1));
}

// Adds each answer, with how many calls were answered so.
fn add_tally(answers: &[(Answer, u64)], output: &mut Output) {
    let mut gap = "";
    for (answer, count) in answers {
        output.counted(gap, *count);
        output.text(" times ");
        add_answer(*answer, output);
        gap = ", ";
    }
}

// Adds what the same call on each of these ids is answered.
fn add_each(
    alloc: Global,
    queue: &mut Queue,
    call: Call,
    ids: (u64, u64),
    words: &str,
    output: &mut Output,
) {
    let mut answers = Vec::new(alloc);
    for gid in ids.0..ids.1.saturating_add(1) {
        tally(&mut answers, called(alloc, queue, call, Gid(gid), words));
    }
    add_tally(&answers, output);
}

/// Adds what a call on one download or on several is answered, by their ids, and the lists behind it.
pub fn add_call(alloc: Global, queue: &mut Queue, line: &str, output: &mut Output) {
    let call = keyword(&CALLS, word(line, 0), Call::Forget);
    let words = after(after(line, ' '), ' ');
    let ids = word(line, 1);
    match ids.split_once("..") {
        Some((first, last)) => {
            let ids = (gid_of(first).0, gid_of(last).0);
            add_each(alloc, queue, call, ids, words, output);
        }
        None => add_answer(called(alloc, queue, call, gid_of(ids), words), output),
    }
    output.text("; ");
    add_lists(queue, output);
}

// Adds the download that a key names.
fn add_found(queue: &Queue, key: &str, output: &mut Output) {
    let Some(key) = GidKey::read(key) else {
        return;
    };
    match queue.find(key) {
        Ok(gid) => {
            output.text("= ");
            output.hex(gid.0);
        }
        Err(refused) => add_refusal(refused, output),
    }
}

fn add_standing(queue: &Queue, gid: Gid, output: &mut Output) {
    match queue.status(gid) {
        Ok(status) => output.text(name_of(&STATUSES, &status)),
        Err(refused) => add_refusal(refused, output),
    }
}

// Adds where a download stands, its place among all that were added, and its options.
fn add_status(alloc: Global, queue: &Queue, gid: Gid, output: &mut Output) {
    add_standing(queue, gid, output);
    match (queue.adding_place(gid), queue.options(gid)) {
        (Some(place), Some(options)) => {
            output.counted("; added ", place as u64);
            output.counted(" of ", queue.added_len() as u64);
            output.text(":");
            add_other_values(alloc, options, output);
        }
        _ => output.text("; never added"),
    }
}

// A call on the whole queue.
fn change_all(alloc: Global, queue: &mut Queue, kind: QueueLine, rest: &str) {
    match kind {
        QueueLine::Begin => set(queue, Queue::new(alloc, u16_at(rest, 0))),
        QueueLine::Limit => queue.set_limit(u16_at(rest, 0)),
        QueueLine::PauseAll => queue.pause_all(),
        QueueLine::UnpauseAll => queue.unpause_all(),
        QueueLine::Purge => queue.purge(),
        _ => {}
    }
}

/// Adds what comes of a line on the whole queue.
pub fn add_queue_line(
    alloc: Global,
    queue: &mut Queue,
    kind: QueueLine,
    rest: &str,
    output: &mut Output,
) {
    match kind {
        QueueLine::Find => add_found(queue, rest, output),
        QueueLine::Status => add_status(alloc, queue, gid_of(rest), output),
        _ => {
            change_all(alloc, queue, kind, rest);
            add_lists(queue, output);
        }
    }
}
