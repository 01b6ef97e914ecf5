// Which downloads of a list are told.
ghost use Rattle.std.specs.Prelude.{◌≡◌, IfOk, take, drop, reverse};
ghost use Rattle.run_report.specs.Windows as spec;

use dl_kinds::Gid;
use std::alloc::{AllocError, Global};

// So many from a place on.
fn part(alloc: Global, gids: &[Gid], from: usize, num: usize) -> Result<Vec<Gid>, AllocError>
    ensures { IfOk result (λ part. part.items ≡ take num (drop from gids.now)) }
{
    let start = from.min(gids.len());
    let end = start.saturating_add(num).min(gids.len());
    gids[start..end].to_vec(alloc)
}

// So many from the n-th of the last ones on, backwards.
fn part_back(alloc: Global, gids: &[Gid], from: usize, num: usize) -> Result<Vec<Gid>, AllocError>
    ensures { IfOk result (λ part. part.items ≡ take num (drop from (reverse gids.now))) }
{
    let mut turned = gids.to_vec(alloc)?;
    turned.reverse();
    part(alloc, &turned, from, num)
}

/// So many downloads of a list, from the offset on. A negative one counts from the back, and goes backwards.
pub(crate) fn window(
    alloc: Global,
    gids: &[Gid],
    offset: i64,
    num: u32,
) -> Result<Vec<Gid>, AllocError>
    ensures { IfOk result (λ part. part.items ≡ spec.window offset num gids.now) }
{
    let distance = offset.unsigned_abs() as usize;
    if offset < 0 {
        part_back(alloc, gids, distance - 1, num as usize)
    } else {
        part(alloc, gids, distance, num as usize)
    }
}
