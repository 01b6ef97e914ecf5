// The line of a download in a summary.
ghost use Rattle.std.specs.Prelude.{◌≡◌, ◌++◌, ◌∷◌, [], IfOk, codes, string_bytes};
ghost use Rattle.std.specs.Fmt.{decimal};
ghost use Rattle.std.specs.List.{join_with_byte};
ghost use Rattle.machine_core.specs.RunLegal.{goes_on_in};
ghost use Rattle.run_report.specs.Failures.{HasEnds};
ghost use Rattle.run_report.specs.Lines as specs;
ghost use Rattle.run_report.specs.Lines.{IsDownloadLine, fields_of};

use crate::paths::path_of;
use crate::{code_by, end_in};
use dl_kinds::{Gid, Status};
use machine_core::{End, Machine};
use std::alloc::{AllocError, Global};
use std::collections::BTreeMap;

fn goes_on(machine: &Machine, gid: Gid) -> bool
    ensures { result ≡ goes_on_in machine.now.start machine.now.past gid }
{
    match machine.status(gid) {
        Some(Status::Active | Status::Waiting | Status::Paused) => true,
        _ => false,
    }
}

fn stat_of(end: Option<End>, goes_on: bool) -> &'static str
    ensures { result.now ≡ specs.stat_of end goes_on }
{
    match end {
        Some(End::Complete) => "OK",
        Some(_) => "ERR",
        None if goes_on => "INPR",
        None => "RM",
    }
}

// What follows the number of a download in its line.
fn fields_text(
    alloc: Global,
    stat: &str,
    completed: u64,
    total: u64,
    code: u8,
    path: &str,
) -> Result<String, AllocError>
    ensures { IfOk result (λ text. string_bytes text
        ≡ codes "|" ++ join_with_byte 124 (stat.now ∷ decimal completed ∷ decimal total
        ∷ decimal code ∷ (path.now ++ codes "\n") ∷ [])) }
{
    format!(in alloc; "|{stat}|{completed}|{total}|{code}|{path}\n")
}

fn line_with(
    alloc: Global,
    gid: Gid,
    stat: &str,
    completed: u64,
    total: u64,
    code: u8,
    path: &str,
) -> Result<Vec<u8>, AllocError>
    ensures { IfOk result (λ line. line.items ≡ specs.line_with gid (record {
      stat = stat.now;
      completed = completed;
      total = total;
      code = code;
    }) path.now) }
{
    let mut line = gid.text().to_vec(alloc)?;
    let fields = fields_text(alloc, stat, completed, total, code, path)?;
    line.extend_from_slice(fields.as_bytes())?;
    Ok(line)
}

// The line of a download with this path.
fn line_at(
    alloc: Global,
    machine: &Machine,
    ends: &BTreeMap<u64, End>,
    gid: Gid,
    path: &str,
) -> Result<Vec<u8>, AllocError>
    requires { HasEnds ends.now machine.now.past }
    ensures { IfOk result (λ line. line.items
        ≡ specs.line_with gid (fields_of machine.now.start machine.now.past gid) path.now) }
{
    let end = end_in(ends, gid);
    let stat = stat_of(end, goes_on(machine, gid));
    let completed = machine.landed_bytes(gid);
    let total = machine.total_len(gid);
    line_with(alloc, gid, stat, completed, total, code_by(end), path)
}

/// The line of a download. Memory is wanting, too, of one that wasn't added.
pub(crate) fn line_of(
    alloc: Global,
    machine: &Machine,
    ends: &BTreeMap<u64, End>,
    gid: Gid,
) -> Result<Vec<u8>, AllocError>
    requires { HasEnds ends.now machine.now.past }
    ensures { IfOk result (λ line. IsDownloadLine machine.now.start machine.now.past gid line.items) }
{
    let (Some(call), Some(begun)) = (machine.adding(gid), machine.begun(gid)) else {
        return Err(AllocError);
    };
    let is_known = machine.lengths(gid).is_some();
    let path = path_of(alloc, call, begun, is_known)?;
    let line = line_at(alloc, machine, ends, gid, path.as_str())?;
    Ok(line)
}
