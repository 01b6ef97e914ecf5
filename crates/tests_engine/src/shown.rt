// Answers and events as text.
use crate::letters;
use anyhow::{Context, Result};
use dl_kinds::Claim;
use engine_turns::{FetchGrant, Grant, Said};
use machine_core::{Call, Cursor, End, Event, Journal, NoticeKind, Notices};
use piece_table::Giver;
use run_report::Reply;
use std::alloc::Global;

// Blocks that are to be fetched: of which claim, which run, from where, and how many bytes before more are asked for.
fn shown_fetch(alloc: Global, fetch: &FetchGrant) -> Result<String> {
    let run = fetch.job.run;
    let mut text = format!(in alloc; "fetch {}: {}+{}", fetch.claim, run.first, run.count)?;
    for place in 0..fetch.job.parts.len() {
        let part = fetch.job.parts.get(place).context("a part is wanted")?;
        let url = part.url.as_str();
        write!(
            text,
            ", {} from {} of {} at {url}",
            part.len, part.at, part.total
        )?;
    }
    write!(text, ", {} now", fetch.allow)?;
    Ok(text)
}

fn shown_grant(alloc: Global, grant: &Grant) -> Result<String> {
    Ok(match grant {
        Grant::Fetch(fetch) => shown_fetch(alloc, fetch)?,
        Grant::Probe { claim, url, .. } => {
            format!(in alloc; "probe {claim} at {}", url.as_str())?
        }
        Grant::Hash { piece, bytes, .. } => {
            let letters = letters::shown(alloc, bytes.bytes())?;
            format!(in alloc; "hash {piece} of {letters}")?
        }
    })
}

fn shown_reply(alloc: Global, reply: &Reply) -> Result<String> {
    Ok(match reply {
        Reply::Gid(_) => String::from_str(alloc, "gid")?,
        Reply::Refused(refusal) => format!(in alloc; "{refusal:?}")?,
        _ => String::from_str(alloc, "replied")?,
    })
}

fn word_of_kind(kind: NoticeKind) -> &'static str {
    match kind {
        NoticeKind::Start => "start",
        NoticeKind::Pause => "pause",
        NoticeKind::Stop => "stop",
        NoticeKind::Complete => "complete",
        NoticeKind::Error => "error",
    }
}

// What became of downloads, and up to which place that is told.
fn shown_notices(alloc: Global, list: &Notices, upto: Cursor) -> Result<String> {
    let mut text = String::from_str(alloc, if list.len() == 0 { "none " } else { "" })?;
    for notice in list.as_slice() {
        write!(text, "{} ", word_of_kind(notice.kind))?;
    }
    write!(text, "up to {}.{}", upto.event, upto.nth)?;
    Ok(text)
}

// An answer without numbers.
fn word_of(said: &Said) -> &'static str {
    match said {
        Said::Void => "void",
        Said::Idle => "idle",
        Said::Done => "done",
        Said::Finished => "finished",
        Said::JournalFull { .. } => "journal full",
        _ => "no memory",
    }
}

/// What an operation is answered.
pub fn shown_said(alloc: Global, said: &Said) -> Result<String> {
    Ok(match said {
        Said::Replied { reply, .. } => shown_reply(alloc, reply)?,
        Said::Grant(grant) => shown_grant(alloc, grant)?,
        Said::Kept { counted, repeated } => {
            format!(in alloc; "{counted} kept, {repeated} again")?
        }
        Said::Allow { bytes } => format!(in alloc; "{bytes} now")?,
        Said::Hold { ms } => format!(in alloc; "hold {ms}")?,
        Said::Notices { list, upto } => shown_notices(alloc, list, *upto)?,
        other => String::from_str(alloc, word_of(other))?,
    })
}

fn shown_claim(alloc: Global, claim: &Claim) -> Result<String> {
    let run = claim.run;
    Ok(format!(in alloc;
        "claimed {}: {}+{} at {}",
        claim.id, run.first, run.count, claim.mirror
    )?)
}

fn shown_finding(alloc: Global, piece: u32, right: bool, giver: Giver) -> Result<String> {
    let finding = if right { "right" } else { "wrong" };
    Ok(match giver {
        Giver::One(mirror) => format!(in alloc; "piece {piece} {finding} of {mirror}")?,
        Giver::Mixed => format!(in alloc; "piece {piece} {finding} of several")?,
        Giver::Nobody => format!(in alloc; "piece {piece} {finding} of nobody")?,
    })
}

/// How a download ended.
pub fn shown_end(alloc: Global, end: &End) -> Result<String> {
    Ok(match end {
        End::Complete => String::from_str(alloc, "complete")?,
        End::Disk { count } => format!(in alloc; "disk {count}")?,
        End::Exists { length } => format!(in alloc; "exists of {length}")?,
        End::PieceLength { have, want } => format!(in alloc; "pieces of {have} for {want}")?,
        End::Length { have, want } => format!(in alloc; "length {have} for {want}")?,
        End::Unreadable { at } => format!(in alloc; "unreadable at {at}")?,
        End::Dead { piece, mark } => format!(in alloc; "dead {piece} of {}", mark.code.0)?,
        End::TooLarge { total } => format!(in alloc; "too large: {total}")?,
        End::SameFile { gid } => format!(in alloc; "a file of {}", gid.0)?,
        End::SameHash { gid } => format!(in alloc; "the info hash of {}", gid.0)?,
        End::InfoHash => String::from_str(alloc, "another info hash")?,
        End::Checksum => String::from_str(alloc, "checksum")?,
    })
}

// What is taken up of a download: nothing, or its verified pieces and its blocks in hexadecimal digits.
fn shown_opened(alloc: Global, verified: &[u8], blocks: &[u8]) -> Result<String> {
    if blocks.iter().all(|byte| *byte == 0) {
        return Ok(String::from_str(alloc, "opened")?);
    }
    Ok(format!(in alloc;
        "opened {} {}",
        hex::encode(alloc, verified)?,
        hex::encode(alloc, blocks)?
    )?)
}

// An event without numbers.
fn name_of(event: &Event) -> &'static str {
    match event {
        Event::Called {
            call: Call::AddTorrent { .. },
            ..
        } => "torrent",
        Event::Called { .. } => "call",
        Event::Saved { .. } => "saved",
        Event::Stopped => "stopped",
        Event::Checked { right: true, .. } => "checked right",
        Event::Checked { .. } => "checked wrong",
        _ => "another event",
    }
}

fn shown_event(alloc: Global, event: &Event) -> Result<String> {
    Ok(match event {
        Event::Opened {
            verified,
            blocks,
            ..
        } => shown_opened(alloc, verified.bytes(), blocks.bytes())?,
        Event::Sized { claim, total, .. } => format!(in alloc; "sized {claim}: {total}")?,
        Event::Claimed { claim, .. } => shown_claim(alloc, claim)?,
        Event::Landed { claim, run, .. } => {
            format!(in alloc; "landed {claim}: {}+{}", run.first, run.count)?
        }
        Event::Settled {
            piece,
            right,
            giver,
            ..
        } => shown_finding(alloc, *piece, *right, *giver)?,
        Event::Cleared { piece, .. } => format!(in alloc; "cleared {piece}")?,
        Event::Ended { end, .. } => shown_end(alloc, end)?,
        Event::Lost { claim, piece, .. } => format!(in alloc; "lost {claim} at piece {piece}")?,
        other => String::from_str(alloc, name_of(other))?,
    })
}

/// What happened, an event a line.
pub fn shown_journal(alloc: Global, journal: &Journal) -> Result<String> {
    let mut text = String::new(alloc);
    for place in 0..journal.len() {
        let event = journal.get(place).context("an event is wanted")?;
        let event = shown_event(alloc, event)?;
        let line = if place == 0 { "" } else { "\n  " };
        write!(text, "{line}{event}")?;
    }
    Ok(text)
}
