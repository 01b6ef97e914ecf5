// Steps of a download, one a line, by their words.
use crate::rig::{Change, Limit, Rig};
use crate::telling::{add_claim, add_runs, add_state};
use dl_kinds::Plan;
use std::alloc::Global;
use test_lines::{Output, Trial, keyword, set_some, u16_at, u16s, u32_at, u64_at, word};

// What a line's first word asks for.
#[derive(Clone, Copy)]
enum Step {
    Payload,
    Free,
    Steal,
    Land,
    Fill,
    Lose,
    Mark,
    Piece(Change),
    Tries,
    Total,
    Eligible,
    Dead,
    Choose,
}

const STEPS: [(&str, Step); 17] = [
    ("payload", Step::Payload),
    ("free", Step::Free),
    ("steal", Step::Steal),
    ("land", Step::Land),
    ("fill", Step::Fill),
    ("lose", Step::Lose),
    ("mark", Step::Mark),
    ("clear", Step::Piece(Change::Clear)),
    ("right", Step::Piece(Change::Right)),
    ("wrong", Step::Piece(Change::Wrong)),
    ("sole", Step::Piece(Change::Sole)),
    ("leave", Step::Piece(Change::Leave)),
    ("tries", Step::Tries),
    ("total", Step::Total),
    ("eligible", Step::Eligible),
    ("dead", Step::Dead),
    ("choose", Step::Choose),
];

/// A download of which nothing is landed, by its length, that of its pieces, the hosts of its mirrors, the tries of each, and
/// the limits of claims.
pub fn begun(alloc: Global, line: &str) -> Option<Rig> {
    let plan = Plan::new(u64_at(line, 1), u32_at(line, 2))?;
    let limit = Limit {
        tries: u16_at(line, 4).min(255) as u8,
        split: u16_at(line, 5).max(1).min(64),
        per_host: u16_at(line, 6),
        min_blocks: u32_at(line, 7),
    };
    let mut hosts = u16s(alloc, word(line, 3));
    hosts.truncate(256);
    Rig::new(alloc, plan, hosts, limit).ok()
}

// Another download begins, of so many pieces and blocks.
fn begin(rig: &mut Rig, line: &str, output: &mut Output) {
    set_some(rig, begun(rig.alloc, line));
    output.number(rig.plan.pieces as u64);
    output.counted(" pieces, ", rig.plan.blocks() as u64);
    output.text(" blocks");
}

// Blocks of the first mirror land where an `x` stands.
fn fill_blocks(rig: &mut Rig, blocks: &str) {
    let mut place = 0;
    for letter in blocks.bytes() {
        if letter == b'x' {
            rig.land(place, 1, 0);
        }
        place = place.saturating_add(1);
    }
}

// A piece is sole, left out, or marked of the first mirror.
fn fill_piece(rig: &mut Rig, piece: u32, letter: u8) {
    match letter {
        b's' => rig.change(piece, Change::Sole),
        b'u' => rig.change(piece, Change::Leave),
        b'm' => rig.mark(0, piece),
        _ => {}
    }
}

fn fill_pieces(rig: &mut Rig, pieces: &str) {
    let mut piece = 0;
    for letter in pieces.bytes() {
        fill_piece(rig, piece, letter);
        piece = piece.saturating_add(1);
    }
}

// Carries a step out that grants or lands blocks.
fn grant(rig: &mut Rig, step: Step, line: &str, output: &mut Output) {
    match step {
        Step::Free => add_claim(output, rig.free(u64_at(line, 1))),
        Step::Steal => add_claim(output, rig.steal(u64_at(line, 1))),
        Step::Land => add_runs(
            output,
            &rig.land(u32_at(line, 1), u32_at(line, 2), u16_at(line, 3)),
        ),
        _ => {
            fill_blocks(rig, word(line, 1));
            fill_pieces(rig, word(line, 2));
            add_claim(output, rig.free(0));
        }
    }
}

// Carries a step out that tells nothing.
fn change(rig: &mut Rig, step: Step, line: &str, output: &mut Output) {
    match step {
        Step::Lose => rig.claims.void(u64_at(line, 1)),
        Step::Mark => rig.mark(u16_at(line, 1), u32_at(line, 2)),
        Step::Piece(change) => rig.change(u32_at(line, 1), change),
        _ => {}
    }
    output.text("done");
}

fn add_dead(rig: &Rig, piece: u32, output: &mut Output) {
    output.truth(rig.marks.dead(piece));
    if let Some(mark) = rig.marks.last_mark(piece) {
        output.counted(" ", mark.code.0 as u64);
    }
}

fn add_choice(rig: &Rig, line: &str, output: &mut Output) {
    let loads = u16s(rig.alloc, word(line, 3));
    match rig.choose(u32_at(line, 1), u32_at(line, 2), &loads, u16_at(line, 4)) {
        Some(mirror) => output.number(mirror as u64),
        None => output.text("none"),
    }
}

// What is asked of the marks.
fn ask(rig: &Rig, step: Step, line: &str, output: &mut Output) {
    match step {
        Step::Tries => output.number(u64::from(rig.marks.tries(u16_at(line, 1), u32_at(line, 2)))),
        Step::Total => output.number(u64::from(rig.marks.total(u16_at(line, 1)))),
        Step::Eligible => output.truth(rig.is_eligible(
            u16_at(line, 1),
            u32_at(line, 2),
            u32_at(line, 3),
        )),
        Step::Dead => add_dead(rig, u32_at(line, 1), output),
        _ => add_choice(rig, line, output),
    }
}

// Carries a step of the download out.
fn answer(rig: &mut Rig, step: Step, line: &str, output: &mut Output) {
    match step {
        Step::Free | Step::Steal | Step::Land | Step::Fill => grant(rig, step, line, output),
        Step::Lose | Step::Mark | Step::Piece(_) => change(rig, step, line, output),
        _ => ask(rig, step, line, output),
    }
}

impl Trial for Rig {
    // Each file begins its own downloads.
    fn begin(&mut self) {}

    fn step(&mut self, line: &str, output: &mut Output) {
        output.text("  ");
        match keyword(&STEPS, word(line, 0), Step::Choose) {
            Step::Payload => begin(self, line, output),
            step => {
                answer(self, step, line, output);
                add_state(output, self);
            }
        }
        output.text("\n");
    }
}
