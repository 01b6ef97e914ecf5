// The downloads of the lists of a queue.
ghost use Rattle.std.specs.Prelude.{◌≡◌, IfOk};
ghost use Rattle.run_report.specs.Replies as spec;

use dl_kinds::Gid;
use dl_queue::Queue;
use std::alloc::{AllocError, Global};

pub(crate) fn active_gids(alloc: Global, queue: &Queue) -> Result<Vec<Gid>, AllocError>
    ensures { IfOk result (λ gids. gids.items ≡ queue.now.active) }
{
    let mut gids = Vec::new(alloc);
    for gid in queue.active() {
        gids.push(gid)?;
    }
    Ok(gids)
}

/// Those that wait, paused ones too.
pub(crate) fn waiting_gids(alloc: Global, queue: &Queue) -> Result<Vec<Gid>, AllocError>
    ensures { IfOk result (λ gids. gids.items ≡ spec.waiting_gids queue.now) }
{
    let mut gids = Vec::new(alloc);
    for download in queue.waiting() {
        gids.push(download.gid)?;
    }
    Ok(gids)
}

/// Those that have stopped, the oldest first.
pub(crate) fn stopped_gids(alloc: Global, queue: &Queue) -> Result<Vec<Gid>, AllocError>
    ensures { IfOk result (λ gids. gids.items ≡ spec.stopped_gids queue.now) }
{
    let mut gids = Vec::new(alloc);
    for download in queue.stopped() {
        gids.push(download.gid)?;
    }
    Ok(gids)
}
