// Options that are set.
ghost use Rattle.std.specs.Prelude.{◌≡◌, ◌+◌, IfOk, OnErr, OnOk, drop};
ghost use Rattle.dl_queue.specs.Calls.{QueueCall, after};
ghost use Rattle.option_set.specs.Values.{number_value};
ghost use Rattle.option_set.specs.declared.kinds.Num.TheVariants.{MaxConcurrentDownloads};
ghost use Rattle.machine_core.specs.Answers.{keyed_answer};
ghost use Rattle.machine_core.specs.CallParts.{AreSetWhere, StandInOrder};
ghost use Rattle.machine_core.specs.Choices.{is_keyed};
ghost use Rattle.machine_core.specs.Replays as replays;
ghost use Rattle.machine_core.specs.declared.applied.Applied.TheVariants as applied;

use crate::Applied;
use crate::entries::Entry;
use crate::keyed::find_keyed;
use dl_kinds::GidKey;
use dl_queue::Queue;
use option_set::{Num, Options, Settings};
use std::alloc::{AllocError, Global};

// Gives an option the value of the setting at a place, if one stands there.
fn set_at(
    alloc: Global,
    options: &mut Options,
    settings: &Settings,
    place: usize,
) -> Result<(), AllocError>
    ensures { OnOk result (replays.with_settings options.new (drop (place + 1) settings.now)
        ≡ replays.with_settings options.old (drop place settings.now)) }
{
    match settings.get(place) {
        Some(setting) => options.apply(setting.copy(alloc)?),
        None => {}
    }
    Ok(())
}

/// A copy of options, in which these are set.
pub(crate) fn with_settings(
    alloc: Global,
    options: &Options,
    settings: &Settings,
) -> Result<Options, AllocError>
    ensures { IfOk result (λ changed.
        changed ≡ replays.with_settings options.now settings.now) }
{
    let mut changed = options.copy(alloc)?;
    for place in 0..settings.len() {
        set_at(alloc, &mut changed, settings, place)?;
    }
    Ok(changed)
}

/// Sets options of a download. After an Err all is as before.
pub(crate) fn change_option(
    alloc: Global,
    queue: &Queue,
    entries: &mut Vec<Entry>,
    key: GidKey,
    settings: &Settings,
) -> Result<Applied, AllocError>
    requires { StandInOrder queue.now.added entries.old.items }
    ensures answer { IfOk result (λ answer.
        answer ≡ keyed_answer queue.now key (λ gid. applied.Fine)) }
    ensures entries { OnOk result (AreSetWhere (is_keyed (replays.keyed_gid queue.now key))
        settings.now entries.old.items entries.new.items) }
    ensures same { OnErr result (entries.new.items ≡ entries.old.items) }
{
    let gid = match find_keyed(queue, key) {
        Ok(gid) => gid,
        Err(refusal) => return Ok(Applied::Refused { refusal }),
    };
    match queue.adding_place(gid) {
        Some(place) => {
            let changed = with_settings(alloc, &entries[place].options, settings)?;
            entries[place].options = changed;
        }
        // Never comes: a download in the lists was added.
        None => {}
    }
    Ok(Applied::Fine)
}

/// Sets global options. After an Err all is as before.
pub(crate) fn change_global(
    alloc: Global,
    queue: &mut Queue,
    global: &mut Options,
    settings: &Settings,
) -> Result<(), AllocError>
    ensures global { OnOk result (global.new
        ≡ replays.with_settings global.old settings.now) }
    ensures queue { OnOk result (queue.new ≡ after queue.old
        (QueueCall.SetLimit (number_value global.new MaxConcurrentDownloads))) }
    ensures same { OnErr result ((global.new ≡ global.old) × (queue.new ≡ queue.old)) }
{
    let changed = with_settings(alloc, global, settings)?;
    queue.set_limit(changed.number(Num::MaxConcurrentDownloads) as u16);
    *global = changed;
    Ok(())
}
