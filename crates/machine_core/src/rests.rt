// Whether a queue has something to do.
ghost use Rattle.std.specs.Prelude.{◌≡◌};
ghost use Rattle.std.specs.List.{list_any};
ghost use Rattle.dl_queue.specs.Places.{is_ready};
ghost use Rattle.machine_core.specs.Reads.{is_at_rest};

use dl_queue::Queue;

// Whether a download waits that isn't paused.
fn has_ready(queue: &Queue) -> bool
    ensures { result ≡ list_any is_ready queue.now.waiting }
{
    for download in queue.waiting() {
        if !download.paused {
            return true;
        }
    }
    false
}

/// Whether no download is active, and each that waits is paused.
pub(crate) fn is_at_rest(queue: &Queue) -> bool
    ensures { result ≡ is_at_rest queue.now }
{
    queue.active_len() == 0 && !has_ready(queue)
}
