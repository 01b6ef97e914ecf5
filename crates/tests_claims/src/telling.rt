// What is told of claims and of the table.
ghost use Rattle.std.specs.Prelude.{◌≤◌};

use crate::rig::Rig;
use piece_table::{Giver, NewRuns};
use segment_claim::Claim;
use test_lines::Output;

// So many blocks and pieces are shown one by one, and no more.
const MOST: u32 = 64;

// A count that is shown one by one, or none.
fn shown_count(count: u32) -> u32
    ensures { result ≤ count }
{
    if count <= MOST { count } else { 0 }
}

fn add_run(output: &mut Output, first: u32, count: u32) {
    output.number(first as u64);
    output.counted("+", count as u64);
}

/// The blocks of a claim as FIRST+COUNT, and its mirror.
pub fn add_claim(output: &mut Output, claim: Option<Claim>) {
    match claim {
        Some(claim) => {
            add_run(output, claim.run.first, claim.run.count);
            output.counted(" at ", claim.mirror as u64);
        }
        None => output.text("none"),
    }
}

/// Runs of blocks.
pub fn add_runs(output: &mut Output, runs: &NewRuns) {
    output.text("new:");
    for place in 0..64 {
        if let Some(run) = runs.get(place) {
            output.letter(' ');
            add_run(output, run.first, run.count);
        }
    }
}

// Adds each block: listed, landed and not listed, or lacking.
fn add_blocks(output: &mut Output, rig: &Rig) {
    for block in 0..shown_count(rig.plan.blocks()) {
        output.letter(if !rig.table.has_block(block) {
            '.'
        } else if rig.table.is_listed(block) {
            'x'
        } else {
            'o'
        });
    }
}

fn add_giver(output: &mut Output, giver: Giver) {
    match giver {
        Giver::Nobody => output.text(" -"),
        Giver::One(mirror) => output.counted(" ", mirror as u64),
        Giver::Mixed => output.text(" *"),
    }
}

// Adds who gave each piece, and whether it is verified or full.
fn add_pieces(output: &mut Output, rig: &Rig) {
    for piece in 0..shown_count(rig.plan.pieces) {
        add_giver(output, rig.table.giver(piece));
        if rig.table.is_verified(piece) {
            output.letter('v');
        } else if rig.table.is_full(piece) {
            output.letter('!');
        }
    }
}

// How many blocks are open in a claim.
fn open_count(rig: &Rig, claim: Claim) -> u32 {
    let mut count: u32 = 0;
    for place in 0..claim.run.count {
        let block = claim.run.first.saturating_add(place);
        if rig.claims.is_open(claim.id, block, &rig.table) {
            count = count.saturating_add(1);
        }
    }
    count
}

// Adds a claim: the first block that is open in it, and how many are.
fn add_standing(output: &mut Output, rig: &Rig, claim: Claim) {
    output.counted(" #", claim.id);
    output.letter(':');
    match rig.claims.first_open(claim.id, &rig.table) {
        Some(first) => add_run(output, first, open_count(rig, claim)),
        None => output.text("none"),
    }
}

fn add_claims(output: &mut Output, rig: &Rig) {
    for id in 0..rig.next {
        if let Some(claim) = rig.claims.get(id) {
            add_standing(output, rig, claim);
        }
    }
}

/// Adds how many bytes have landed, each block and each piece where there are at most 64, and each claim that stands.
pub fn add_state(output: &mut Output, rig: &Rig) {
    output.counted("; ", rig.table.completed());
    output.letter(' ');
    add_blocks(output, rig);
    add_pieces(output, rig);
    output.counted("; ", rig.claims.standing() as u64);
    add_claims(output, rig);
}
