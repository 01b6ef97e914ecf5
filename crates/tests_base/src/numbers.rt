// Plans of pieces and blocks, runs and ids.
use dl_kinds::{Gid, Plan, Run};
use test_lines::{Output, u32_at, u64_at};

/// What a line asks of numbers.
#[derive(Clone, Copy)]
pub enum NumberLine {
    Plan,
    Block,
    Piece,
    Half,
    Id,
}

fn add_block(plan: &Plan, block: u32, output: &mut Output) {
    if block >= plan.blocks() {
        output.text("no such block");
        return;
    }
    let (start, len) = plan.block_span(block);
    output.number(start);
    output.counted("+", len as u64);
    output.counted(", piece ", plan.piece_of(block) as u64);
}

fn add_piece(plan: &Plan, piece: u32, output: &mut Output) {
    if piece >= plan.pieces {
        output.text("no such piece");
        return;
    }
    let (start, len) = plan.piece_span(piece);
    let run = plan.piece_run(piece);
    output.number(start);
    output.counted("+", len as u64);
    output.counted(", blocks ", run.first as u64);
    output.counted("+", run.count as u64);
}

fn add_plan(plan: &Plan, output: &mut Output) {
    output.number(plan.pieces as u64);
    output.counted(" pieces, ", plan.blocks() as u64);
    output.text(" blocks");
}

// Adds what is asked of a plan.
fn add_plan_line(kind: NumberLine, rest: &str, output: &mut Output) {
    match Plan::new(u64_at(rest, 0), u32_at(rest, 1)) {
        Some(plan) => match kind {
            NumberLine::Block => add_block(&plan, u32_at(rest, 2), output),
            NumberLine::Piece => add_piece(&plan, u32_at(rest, 2), output),
            _ => add_plan(&plan, output),
        },
        None => output.text("none"),
    }
}

// Adds the later half of some blocks.
fn add_half(first: u32, count: u32, output: &mut Output) {
    if count > u32::MAX - first {
        output.text("no such blocks");
        return;
    }
    let half = Run { first, count }.later_half();
    output.number(half.first as u64);
    output.counted("+", half.count as u64);
}

fn add_id(id: u64, output: &mut Output) {
    output.text(str::from_utf8(&Gid(id).text()).unwrap_or(""));
}

/// Adds what comes of a line on numbers.
pub fn add_number_line(kind: NumberLine, rest: &str, output: &mut Output) {
    match kind {
        NumberLine::Half => add_half(u32_at(rest, 0), u32_at(rest, 1), output),
        NumberLine::Id => add_id(u64_at(rest, 0), output),
        _ => add_plan_line(kind, rest, output),
    }
}
