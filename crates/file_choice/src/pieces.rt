// The pieces of the files that are selected.
ghost use Rattle.std.specs.Prelude.{◌≡◌, ◌<◌, ◌≤◌, ◌+◌, ◌^◌, IfOk, IfSome, length, option_copied, replicate, true};
ghost use Rattle.dl_kinds.specs.Plan.{pieces_of};
ghost use Rattle.option_set.specs.Files.{IsFileList};
ghost use Rattle.file_choice.specs.Selected.{wanted_of_files};
ghost use Rattle.file_choice.specs.Sweeps.{AreMarked, IsSetBetween};

use crate::selection::selected;
use bit_rows::BitRow;
use dl_kinds::{NoMemory, Plan};
use span_map::Layout;
use std::alloc::Global;

// Makes the values from `first` to before `end` true.
fn set_between(row: &mut BitRow, first: u32, end: u32)
    requires order { first ≤ end }
    requires within { end ≤ length row.old }
    ensures { IsSetBetween first end row.old row.new }
{
    for place in first..end {
        row.set(place);
    }
}

// Adds the pieces that hold a byte of a file of this length that begins at this byte of the payload.
fn mark(row: &mut BitRow, plan: &Plan, start: u64, len: u64)
    requires fits { start + len < 2 ^ 64 }
    requires long { length row.old ≡ plan.now.pieces }
    ensures { AreMarked plan.now.total plan.now.piece_len start len row.old row.new }
{
    let until = (start + len).min(plan.total);
    if start < until {
        let first = (start / plan.piece_len as u64) as u32;
        let past = until.div_ceil(plan.piece_len as u64) as u32;
        set_between(row, first, past);
    }
}

/// The pieces that are wanted of a payload, by the text of `select-file`: those that hold a byte of a file that it selects.
/// It looks at each file, each member of the text and each piece once.
pub fn wanted_row(
    alloc: Global,
    layout: &Layout,
    plan: &Plan,
    select: Option<&str>,
) -> Result<BitRow, NoMemory>
    requires { IfSome select (λ text. IsFileList text.now) }
    ensures { IfOk result (λ row. row ≡ wanted_of_files layout.now (option_copied select.entry)
        plan.now.total plan.now.piece_len) }
{
    let files = layout.files();
    let flags = selected(alloc, select, files.len())?;
    let mut row = BitRow::new(alloc, plan.pieces)?;
    let mut start = 0;
    for (place, file) in files.iter().enumerate() {
        if flags[place] {
            mark(&mut row, plan, start, file.len);
        }
        start += file.len;
    }
    Ok(row)
}

/// All pieces of a payload.
pub fn all_wanted(alloc: Global, plan: &Plan) -> Result<BitRow, NoMemory>
    ensures { IfOk result (λ row. row
        ≡ replicate (pieces_of plan.now.total plan.now.piece_len) true) }
{
    let mut row = BitRow::new(alloc, plan.pieces)?;
    set_between(&mut row, 0, plan.pieces);
    Ok(row)
}
