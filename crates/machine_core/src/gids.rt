// The gids of downloads.
ghost use Rattle.std.specs.Prelude.{◌≡◌, ◌<◌, ◌^◌, List, length, map, unwrap_or};
ghost use Rattle.machine_core.specs.MachineParts.{added_as};
ghost use Rattle.machine_core.specs.Replays as replays;
ghost use Rattle.machine_core.specs.Starts.{Download, RunStart};

use crate::entries::Entry;
use dl_kinds::Gid;
use dl_queue::Queue;
use option_set::{Options, Word};

/// What is added from one number of a gid to the next, modulo 2^64: 2^64 divided by the golden ratio.
pub const GID_STEP: u64 = 11_400_714_819_323_198_485;

fn gid_number(gids: u64, place: usize) -> u64
    ensures { result ≡ replays.gid_number gids place }
{
    gids.wrapping_add((place as u64).wrapping_mul(GID_STEP))
}

fn is_free(queue: &Queue, number: u64) -> bool
    ensures { (downloads : List Download) → queue.now.added ≡ map added_as downloads
        → result ≡ replays.is_free_number downloads number }
{
    number != 0 && queue.adding_place(Gid(number)).is_none()
}

// The first number that is free, of those from that of the next download on.
fn made_number(queue: &Queue, gids: u64, count: usize) -> u64
    requires count { count ≡ length queue.now.added }
    requires few { count < 2 ^ 62 }
    ensures { (downloads : List Download) → queue.now.added ≡ map added_as downloads
        → result ≡ unwrap_or (replays.made_number gids downloads) 0 }
{
    for place in count..2 * count + 2 {
        let number = gid_number(gids, place);
        if is_free(queue, number) {
            return number;
        }
    }
    0
}

/// The gid of the next download: the one that its options name, or the one that is made. `count` downloads were added.
pub(crate) fn next_gid(queue: &Queue, gids: u64, count: usize, options: &Options) -> Gid
    requires count { count ≡ length queue.now.added }
    requires few { count < 2 ^ 62 }
    ensures { (start : RunStart) (downloads : List Download) → start.gids ≡ gids
        → queue.now.added ≡ map added_as downloads
        → result ≡ replays.next_gid start downloads options.now }
{
    if let Some(text) = options.text(Word::Gid) {
        if let Some(gid) = Gid::read(text) {
            return gid;
        }
    }
    Gid(made_number(queue, gids, count))
}

/// How many downloads were added, each of which has an entry.
pub(crate) fn added_count(entries: &Vec<Entry>) -> usize
    ensures value { result ≡ length entries.now.items }
    ensures few { result < 2 ^ 62 }
{
    // The length of a slice is known to be bounded by its elements' size.
    let added = entries.as_slice();
    added.len()
}
