// What is told of all downloads.
ghost use Rattle.std.specs.Prelude.{◌≡◌};
ghost use Rattle.run_report.specs.Replies as spec;

use crate::StatView;
use crate::speeds::speed;
use dl_kinds::Moment;
use dl_queue::Queue;
use machine_core::Machine;

fn stopped_ever(queue: &Queue) -> u64
    ensures { result ≡ spec.stopped_ever queue.now }
{
    queue
        .added_len()
        .saturating_sub(queue.active_len())
        .saturating_sub(queue.waiting_len()) as u64
}

pub(crate) fn stat(machine: &Machine, now: Moment) -> StatView
    ensures { result ≡ spec.stat_view machine.now.start machine.now.past now }
{
    let queue = machine.queue();
    StatView {
        download_speed: speed(machine, None, now),
        num_active: queue.active_len() as u64,
        num_stopped: queue.stopped_len() as u64,
        num_stopped_total: stopped_ever(queue),
        num_waiting: queue.waiting_len() as u64,
        upload_speed: 0,
    }
}
