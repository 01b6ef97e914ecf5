// Why a run ended as it did, in lines.
use crate::ends::{add_end, add_gid, mark_words};
use crate::failures::{Failure, LastLoss, Losses, failures_in, losses_of, mirror_uri, only_call};
use crate::faults::fault_in;
use crate::lines::{host_behind_user, shown, without_user};
use crate::modes::mode_of;
use crate::refusals::{add_metainfo_fault, add_word_fault};
use dl_kinds::{NoMemory, Text};
use fault_notes::Notes;
use link_source::is_usable;
use machine_core::{Call, End, Journal, MAX_BEFORE_TURN};
use run_report::{MetainfoFault, RunEnding};
use std::alloc::{AllocError, Global};
use std::fmt::Write;

// Each line begins so.
const FRONT: &str = "aria_cli: ";

/// What the things of the outside noted in a run.
#[derive(Clone, Copy)]
pub struct Edges<'a> {
    pub disk: &'a Notes,
    /// One for each link, in order.
    pub links: &'a [&'a Notes],
}

fn add_line(text: &mut String, line: &str) -> Result<(), AllocError> {
    write!(text, "{FRONT}{line}\n")
}

/// Adds the line on a command line that has no meaning, and how such lines are written.
pub fn add_refusal(text: &mut String, alloc: Global, words: &[String]) -> Result<(), NoMemory> {
    text.push_str(FRONT)?;
    match fault_in(alloc, words)? {
        Some(fault) => add_word_fault(text, alloc, fault)?,
        None => text.push_str("the command line has no meaning")?,
    }
    write!(text, "\n{FRONT}usage: {}\n", mode_of(words).usage())
}

fn add_no_metainfo(
    text: &mut String,
    alloc: Global,
    words: &[String],
    fault: MetainfoFault,
    disk: &Notes,
) -> Result<(), NoMemory> {
    text.push_str(FRONT)?;
    add_metainfo_fault(text, alloc, words, fault, disk)?;
    text.push('\n')
}

// The notes of the link that was lost, by its place.
fn link_of<'a>(edges: &Edges<'a>, worker: u32) -> Option<&'a Notes> {
    edges.links.get(worker as usize).copied()
}

fn add_loss(
    text: &mut String,
    alloc: Global,
    uri: Option<&Text>,
    loss: &LastLoss,
    edges: &Edges<'_>,
) -> Result<(), AllocError> {
    match uri {
        Some(uri) => write!(
            text,
            "{FRONT}mirror {}: ",
            shown(alloc, without_user(uri.as_str()))?
        )?,
        None => write!(text, "{FRONT}mirror {} of its list: ", loss.mirror)?,
    }
    let words = mark_words(loss.mark, link_of(edges, loss.worker));
    write!(text, "{words}\n")
}

/// Adds the line on a download that failed, and one for each mirror that it lost, with the URIs of the call that added it.
pub fn add_failure(
    text: &mut String,
    alloc: Global,
    failure: &Failure,
    losses: &Losses,
    call: Option<&Call>,
    edges: &Edges<'_>,
) -> Result<(), AllocError> {
    write!(text, "{FRONT}download ")?;
    add_gid(text, failure.gid)?;
    text.push_str(" failed: ")?;
    add_end(text, alloc, failure.end, edges.disk)?;
    text.push('\n')?;
    for loss in losses.items.iter() {
        let uri = call.and_then(|call| mirror_uri(call, loss.mirror));
        add_loss(text, alloc, uri, loss, edges)?;
    }
    Ok(())
}

// A check of a payload ended so: it has no history.
fn add_check_end(
    text: &mut String,
    alloc: Global,
    end: End,
    disk: &Notes,
) -> Result<(), AllocError> {
    text.push_str(FRONT)?;
    if end == End::Checksum {
        text.push_str("pieces are wrong that weren't repaired")?;
    } else {
        add_end(text, alloc, end, disk)?;
    }
    text.push('\n')
}

fn add_failures(
    text: &mut String,
    alloc: Global,
    end: End,
    journal: &Journal,
    edges: &Edges<'_>,
) -> Result<(), NoMemory> {
    let failures = failures_in(alloc, journal)?;
    if failures.is_empty() {
        add_check_end(text, alloc, end, edges.disk)?;
    }
    let call = only_call(journal);
    for failure in failures.iter() {
        let losses = losses_of(alloc, journal, failure.gid)?;
        add_failure(text, alloc, failure, &losses, call, edges)?;
    }
    Ok(())
}

fn unfinished_words(journal: &Journal) -> &'static str {
    if journal.len() > MAX_BEFORE_TURN {
        "the history of the run is full, and a download is left: the same command goes on with it"
    } else {
        "a download is left: the same command goes on with it"
    }
}

fn add_users(text: &mut String, alloc: Global, words: &[String]) -> Result<(), NoMemory> {
    for word in words {
        if let Some(host) = host_behind_user(word.as_str()) {
            if is_usable(alloc, word.as_str())? {
                write!(
                    text,
                    "{FRONT}the user and password before {} aren't sent\n",
                    shown(alloc, host)?
                )?;
            }
        }
    }
    Ok(())
}

/// Why a run of these words ended so, in lines for people: nothing where nothing was refused or failed.
pub fn reasons(
    alloc: Global,
    words: &[String],
    ending: RunEnding,
    journal: &Journal,
    edges: &Edges<'_>,
) -> Result<String, NoMemory> {
    let mut text = String::new(alloc);
    match ending {
        RunEnding::NoMeaning => add_refusal(&mut text, alloc, words)?,
        RunEnding::NoMetainfo(fault) => {
            add_no_metainfo(&mut text, alloc, words, fault, edges.disk)?
        }
        RunEnding::NoMemory => add_line(&mut text, "memory was wanting")?,
        RunEnding::SinkFault => add_line(&mut text, "standard output can't be written")?,
        RunEnding::Failed(end) => add_failures(&mut text, alloc, end, journal, edges)?,
        RunEnding::Unfinished => add_line(&mut text, unfinished_words(journal))?,
        RunEnding::Done => {}
    }
    if ending != RunEnding::Done {
        add_users(&mut text, alloc, words)?;
    }
    Ok(text)
}
