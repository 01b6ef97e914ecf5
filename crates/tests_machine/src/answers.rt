// What is told of a step, and of the run after it.
use crate::rig::{Rig, Taken, Work};
use dl_kinds::{Gid, Mark, Run, Status};
use machine_core::{Applied, End, Machine, Notice, Notices};
use rate_tokens::Take;
use std::alloc::{AllocError, Global};

// What a gid is divided by to get the first of its 16 hexadecimal digits.
const DIGIT_UNIT: u64 = 1 << 60;

/// What a step is answered.
pub enum Answer {
    /// Whether it came.
    Came(bool),
    /// How many blocks landed.
    Landed(u32),
    /// What a call was answered; none, where it may not come.
    Called(Option<Applied>),
    /// What a worker was given; none, where it brought nothing back.
    Taken(Option<Taken>),
    /// The other download that a download clashes with, if it does.
    Clash(Option<End>),
    /// The last mark of a piece that can't be had.
    Dead(Option<Mark>),
    /// What a bucket lets go; none, where no claim stands.
    Let(Option<Take>),
    /// What came of the downloads.
    Told(Notices),
    /// No download has this key.
    NoDownload,
    /// There is nothing to tell.
    Nothing,
}

fn push_call(text: &mut String, applied: Applied) -> Result<(), AllocError> {
    match applied {
        Applied::Moved { position } => write!(text, "at {position}"),
        Applied::Refused { refusal } => write!(text, "{refusal:?}"),
        _ => text.push_str("done"),
    }
}

fn push_called(text: &mut String, applied: Option<Applied>) -> Result<(), AllocError> {
    match applied {
        Some(applied) => push_call(text, applied),
        None => text.push_str("unlawful"),
    }
}

fn push_victim(text: &mut String, victim: Option<u64>) -> Result<(), AllocError> {
    match victim {
        Some(victim) => write!(text, " of {victim}"),
        None => Ok(()),
    }
}

fn push_claim(
    text: &mut String,
    id: u64,
    mirror: u16,
    run: Run,
    victim: Option<u64>,
) -> Result<(), AllocError> {
    write!(text, "claim {id}: {}+{}", run.first, run.count)?;
    push_victim(text, victim)?;
    write!(text, " at {mirror}")
}

fn push_work(text: &mut String, work: Work) -> Result<(), AllocError> {
    match work {
        Work::Claim {
            id,
            mirror,
            run,
            victim,
        } => push_claim(text, id, mirror, run, victim),
        Work::Probe { id, mirror } => write!(text, "probe {id} at {mirror}"),
        Work::Right { piece } => write!(text, "piece {piece} right"),
        Work::Wrong { piece } => write!(text, "piece {piece} wrong"),
        Work::Handed { piece } => write!(text, "piece {piece}"),
    }
}

// The first digit of a gid. It is another one for each of the first downloads of a run.
fn digit(gid: Gid) -> u64 {
    gid.0 / DIGIT_UNIT
}

fn push_gid_work(text: &mut String, gid: Gid, work: Work) -> Result<(), AllocError> {
    write!(text, "{:x} ", digit(gid))?;
    push_work(text, work)
}

fn push_taken(text: &mut String, taken: Option<Taken>) -> Result<(), AllocError> {
    match taken {
        Some(Taken::Work { gid, work }) => push_gid_work(text, gid, work),
        Some(Taken::Held { ms }) => write!(text, "held {ms}"),
        Some(Taken::Idle) => text.push_str("idle"),
        None => text.push_str("void"),
    }
}

fn push_clash(text: &mut String, end: Option<End>) -> Result<(), AllocError> {
    match end {
        Some(End::SameHash { gid }) => write!(text, "same hash as {:x}", digit(gid)),
        Some(End::SameFile { gid }) => write!(text, "same file as {:x}", digit(gid)),
        Some(_) => text.push_str("another end"),
        None => text.push_str("no clash"),
    }
}

fn push_dead(text: &mut String, mark: Option<Mark>) -> Result<(), AllocError> {
    match mark {
        Some(Mark { code, .. }) => write!(text, "dead of {}", code.0),
        None => text.push_str("alive"),
    }
}

fn push_take(text: &mut String, take: Option<Take>) -> Result<(), AllocError> {
    match take {
        Some(Take::Go(bytes)) => write!(text, "go {bytes}"),
        Some(Take::Hold(ms)) => write!(text, "hold {ms}"),
        None => text.push_str("void"),
    }
}

fn push_notice(text: &mut String, notice: Notice) -> Result<(), AllocError> {
    if !text.is_empty() {
        text.push_str(", ")?;
    }
    write!(text, "{:x} {:?}", digit(notice.gid), notice.kind)
}

fn push_notices(text: &mut String, notices: &Notices) -> Result<(), AllocError> {
    for notice in notices.as_slice() {
        push_notice(text, *notice)?;
    }
    if text.is_empty() {
        text.push_str("none")?;
    }
    Ok(())
}

fn push_answer(text: &mut String, answer: Answer) -> Result<(), AllocError> {
    match answer {
        Answer::Came(came) => write!(text, "{came}"),
        Answer::Landed(count) => write!(text, "{count}"),
        Answer::Called(applied) => push_called(text, applied),
        Answer::Taken(taken) => push_taken(text, taken),
        Answer::Clash(end) => push_clash(text, end),
        Answer::Dead(mark) => push_dead(text, mark),
        Answer::Let(take) => push_take(text, take),
        Answer::Told(notices) => push_notices(text, &notices),
        Answer::NoDownload => text.push_str("no download"),
        Answer::Nothing => Ok(()),
    }
}

// The first letter of the status of a download.
fn letter(machine: &Machine, gid: Gid) -> char {
    match machine.status(gid) {
        Some(Status::Active) => 'a',
        Some(Status::Waiting) => 'w',
        Some(Status::Paused) => 'p',
        Some(Status::Failed) => 'f',
        Some(Status::Complete) => 'c',
        Some(Status::Removed) => 'r',
        None => '-',
    }
}

// How many whole blocks of a download have landed.
fn blocks(machine: &Machine, gid: Gid) -> u64 {
    machine.landed_bytes(gid) / 16_384
}

// Adds a download: its status, how many whole blocks have landed, and a star where a save would list other blocks or pieces.
fn push_download(text: &mut String, rig: &Rig, gid: Gid) -> Result<(), AllocError> {
    let letter = letter(rig.machine(), gid);
    let blocks = blocks(rig.machine(), gid);
    write!(text, " {letter}{blocks}")?;
    if rig.is_unsaved(gid) {
        text.push('*')?;
    }
    Ok(())
}

// Adds the downloads in the order of their adding.
fn push_downloads(text: &mut String, rig: &Rig) -> Result<(), AllocError> {
    for place in 0..64 {
        if let Some(gid) = rig.added(place) {
            push_download(text, rig, gid)?;
        }
    }
    Ok(())
}

// Adds the claims that stand, of all that were granted.
fn push_claims(text: &mut String, rig: &Rig) -> Result<(), AllocError> {
    for id in 0..rig.claims() {
        if rig.machine().stands(id) {
            write!(text, " #{id}")?;
        }
    }
    Ok(())
}

// Adds how it stands with each download, which claims stand, and whether the run is finished.
fn push_rig(text: &mut String, rig: &Rig) -> Result<(), AllocError> {
    push_downloads(text, rig)?;
    push_claims(text, rig)?;
    if rig.machine().finished() {
        text.push_str(" finished")?;
    }
    Ok(())
}

/// What is told after a step: what was answered, how it stands with each download, which claims stand, and whether the run is
/// finished.
pub fn told_after(alloc: Global, rig: &Rig, answer: Answer) -> Result<String, AllocError> {
    let mut text = String::new(alloc);
    push_answer(&mut text, answer)?;
    text.push(';')?;
    push_rig(&mut text, rig)?;
    Ok(text)
}
