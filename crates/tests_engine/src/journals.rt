// What is read off a history.
use bit_rows::BitRow;
use dl_kinds::Gid;
use machine_core::{End, Event, Journal};
use std::alloc::{AllocError, Global};

/// How a download ended, where it has.
pub fn end_of(journal: &Journal, wanted: Gid) -> Option<End> {
    for place in 0..journal.len() {
        match journal.get(place) {
            Some(Event::Ended { gid, end }) if *gid == wanted => return Some(*end),
            _ => {}
        }
    }
    None
}

/// Whether the latest event is the end of a download.
pub fn ends_last(journal: &Journal) -> bool {
    match journal.len().checked_sub(1) {
        Some(place) => matches!(journal.get(place), Some(Event::Ended { .. })),
        None => false,
    }
}

// Adds the blocks of a run.
fn push_run(blocks: &mut Vec<u32>, first: u32, count: u32) -> Result<(), AllocError> {
    for block in first..first.saturating_add(count) {
        blocks.push(block)?;
    }
    Ok(())
}

// The blocks that the last save of a download lists, found slowly: those that came before it, where none was found
// wrong.
fn saved_blocks(alloc: Global, journal: &Journal, wanted: Gid) -> Result<Vec<u32>, AllocError> {
    let mut came = Vec::new(alloc);
    let mut saved = Vec::new(alloc);
    for place in 0..journal.len() {
        match journal.get(place) {
            Some(Event::Landed { gid, run, .. }) if *gid == wanted => {
                push_run(&mut came, run.first, run.count)?;
            }
            Some(Event::Saved { gid, .. }) if *gid == wanted => saved = came.clone()?,
            _ => {}
        }
    }
    Ok(saved)
}

// Whether a place is set.
fn is_set(row: &BitRow, place: u32) -> bool {
    place < row.len() && row.get(place)
}

// The blocks with which a download was opened, where it was.
fn opened_blocks(journal: &Journal, wanted: Gid) -> Option<&BitRow> {
    for place in 0..journal.len() {
        match journal.get(place) {
            Some(Event::Opened { gid, blocks, .. }) if *gid == wanted => return Some(blocks),
            _ => {}
        }
    }
    None
}

/// How many blocks of a download were saved in a run, and weren't there as it was opened in the next one.
pub fn count_lost(
    alloc: Global,
    before: &Journal,
    after: &Journal,
    gid: Gid,
) -> Result<usize, AllocError> {
    let saved = saved_blocks(alloc, before, gid)?;
    let opened = opened_blocks(after, gid);
    let mut lost: usize = 0;
    for block in saved {
        if !opened.is_some_and(|row| is_set(row, block)) {
            lost = lost.saturating_add(1);
        }
    }
    Ok(lost)
}
