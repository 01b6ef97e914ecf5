// Calls, and what they make of the parts of a machine.
ghost use Rattle.std.specs.Prelude.{◌≡◌, IfOk, OnErr};
ghost use Rattle.machine_core.specs.CallParts.{IsApplied, StandInOrder, call_parts};
ghost use Rattle.machine_core.specs.LawfulCalls.{IsLawful};

use crate::adding::add;
use crate::changes::{change_global, change_option};
use crate::entries::Entry;
use crate::plain::apply_plain;
use crate::{Applied, Call};
use dl_kinds::Texts;
use dl_queue::Queue;
use metainfo::metainfo_is_sound;
use option_set::Options;
use std::alloc::{AllocError, Global};

/// Applies the call at a place of the journal; `gids` is what the gids of downloads are made from. After an Err all is as
/// before.
pub(crate) fn apply(
    alloc: Global,
    gids: u64,
    place: usize,
    queue: &mut Queue,
    entries: &mut Vec<Entry>,
    global: &mut Options,
    shut: &mut bool,
    call: &Call,
) -> Result<Applied, AllocError>
    requires lawful { IsLawful call.now }
    requires order { StandInOrder queue.old.added entries.old.items }
    ensures ok { IfOk result (IsApplied call.now gids place
        (call_parts queue.old global.old shut.old entries.old.items)
        (call_parts queue.new global.new shut.new entries.new.items)) }
    ensures queue { OnErr result (queue.new ≡ queue.old) }
    ensures global { OnErr result (global.new ≡ global.old) }
    ensures shut { OnErr result (shut.new ≡ shut.old) }
    ensures entries { OnErr result (entries.new.items ≡ entries.old.items) }
{
    metainfo_is_sound();
    match call {
        Call::AddUri {
            uris,
            options,
            position,
        } => {
            let seeds = Texts::new(alloc);
            add(
                alloc, gids, place, queue, entries, global, &seeds, uris, options, *position,
            )
        }
        Call::AddTorrent {
            meta,
            uris,
            options,
            position,
        } => add(
            alloc,
            gids,
            place,
            queue,
            entries,
            global,
            &meta.seeds,
            uris,
            options,
            *position,
        ),
        Call::ChangeOption { key, options } => {
            change_option(alloc, queue, entries, *key, options)
        }
        Call::ChangeGlobalOption { options } => {
            change_global(alloc, queue, global, options)?;
            Ok(Applied::Fine)
        }
        _ => Ok(apply_plain(queue, entries, shut, call)),
    }
}
