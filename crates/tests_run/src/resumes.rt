// Runs that are cut off, and taken up again on what a crash leaves.
use crate::case::Case;
use crate::outcome::Outcome;
use crate::spelling::content;
use control_file::Control;
use dl_disk::{Disk, MemDisk};
use machine_core::{Event, Journal};
use std::alloc::Global;
use std::process::Abort;
use std::test::Fail;

// Four pieces of one block each, of 16 bytes. A reply ends behind a block, three times, so the blocks come one by one. Each time
// the clock is asked a second passes, and what came is saved each second.
const RUN: &str =
    "words --auto-save-interval=1,t.torrent ; clock 1000 ; swap i5e -> i64e ; swap i16384e -> i16e ; swap 20:$ -> 80:%c3%f6%1b%61%be%ef%49%4b%63%59%d2%93%f4%5d%53%38%88%e9%8a%c0%95%eb%38%25%a2%5e%2a%3f%ad%b3%2a%63%23%d7%60%59%04%36%64%d1%93%87%55%95%64%3c%02%53%47%b4%da%b9%34%57%37%b6%fc%dc%00%29%4b%8f%ce%80%14%26%25%49%1c%6d%d9%89%f3%d3%be%94%7c%6e%c3%e7 ; mirror m.test 80 Ranges /a.bin=16*b+16*c+16*d+16*e ; bad cut 16 ; bad cut 16 ; bad cut 16 ; status 0 ; shows 0000000000000001|OK|64|64|0|a ; file a=16*b+16*c+16*d+16*e ; none a.aria2 ; none a.aria2__temp";

const PAYLOAD: &str = "16*b+16*c+16*d+16*e";

/// The bytes of a block.
const BLOCK: u64 = 16;

/// From a call on so many calls of the disk fail, which are all that come.
const CUT: u64 = 60;

// What becomes of each change that a crash may lose, by turns: it is dropped or kept, or its bytes are others.
const FATES: [[u8; 2]; 4] = [[0, 0], [1, 1], [0, 1], [170, 170]];

// Choices of so many changes.
fn fates(alloc: Global, turns: [u8; 2]) -> Result<Vec<u8>, Fail> {
    let mut fates = Vec::new(alloc);
    for _ in 0..100 {
        fates.push(turns[0])?;
        fates.push(turns[1])?;
    }
    Ok(fates)
}

// The blocks that the control file lists: those of its verified pieces, and those in flight. Each piece is one block.
fn listed_blocks(alloc: Global, bytes: &[u8]) -> Result<Vec<u32>, Fail> {
    let mut blocks = Vec::new(alloc);
    let Ok(control) = Control::read(alloc, bytes) else {
        return Err("no control file")?;
    };
    for piece in 0..control.pieces.len() {
        if control.pieces.get(piece) {
            blocks.push(piece)?;
        }
    }
    for piece in control.flight.items() {
        if piece.blocks.count_ones() == 1 {
            blocks.push(piece.index)?;
        }
    }
    Ok(blocks)
}

// The blocks that need not be asked for again. Without a control file these are all of a payload that stands whole.
fn kept_blocks(alloc: Global, disk: &MemDisk) -> Result<Vec<u32>, Fail> {
    if let Some(bytes) = disk.file("a.aria2") {
        return listed_blocks(alloc, bytes);
    }
    let is_whole = disk.file("a") == Some(&content(alloc, PAYLOAD)?);
    Ok((0..if is_whole { 4 } else { 0 }).collect(alloc)?)
}

// How often the run saved.
fn saves(journal: &Journal) -> usize {
    let mut count: usize = 0;
    for place in 0..journal.len() {
        if let Some(Event::Saved { .. }) = journal.get(place) {
            count = count.saturating_add(1);
        }
    }
    count
}

// Asserts that no request of the run asks for a byte of these blocks.
fn expect_unasked(rt: &impl Abort, run: &Outcome, blocks: &[u32], case: &str) -> Result<(), Fail> {
    for behind in run.asked().split("Range: bytes=").skip(1) {
        let (range, _) = behind.split_once("\r\n").ok_or("no end")?;
        let (first, last) = range.split_once('-').ok_or("no range")?;
        let first = first.parse::<u64>()?;
        let last = last.parse::<u64>()?;
        for block in blocks {
            let start = (*block as u64).saturating_mul(BLOCK);
            let end = start.saturating_add(BLOCK);
            assert!(rt; last < start || end <= first, "{range} at {case}");
        }
    }
    Ok(())
}

// From a call on each call of the disk fails, and a crash follows. What the control file lists isn't asked for again, and the
// payload gets whole. Each save lists one block more. Told is how many saves came, if a call failed.
fn try_cut(
    rt: &impl Abort,
    alloc: Global,
    from: u64,
    turns: [u8; 2],
) -> Result<Option<usize>, Fail> {
    let case = format!(in alloc; "a cut at call {from}")?;
    let mut cut = Case::of(alloc, RUN)?;
    for call in from..from.saturating_add(CUT) {
        cut.disk_faults.push(call)?;
    }
    let first = cut.run()?;
    if first.disk.faults() == 0 {
        first.check(rt, alloc, RUN)?;
        return Ok(None);
    }
    assert_eq!(rt; first.status, 17, "{case}");
    let left = first.disk.crash(alloc, &fates(alloc, turns)?)?.healed();
    let listed = kept_blocks(alloc, &left)?;
    let saved = saves(&first.journal);
    assert!(rt; saved <= listed.len(), "{saved} saves, {case}");
    let again = Case::of(alloc, RUN)?.run_on(left)?;
    expect_unasked(rt, &again, &listed, case.as_str())?;
    again.check(rt, alloc, RUN)?;
    Ok(Some(saved))
}

#[test]
fn no_listed_block_is_asked_for_again(rt: HostRuntime) -> Result<(), Fail> {
    let alloc = rt.alloc();
    for turns in FATES {
        let mut calls = 0;
        let mut most = 0;
        for from in 0..CUT {
            match try_cut(&rt, alloc, from, turns)? {
                Some(saves) => most = saves.max(most),
                None => {
                    calls = from;
                    break;
                }
            }
        }
        // Each of four blocks is written, saved and read.
        assert!(rt; calls >= 24, "{calls} calls");
        assert_eq!(rt; most, 4);
    }
    Ok(())
}
