// Downloads that are added.
ghost use Rattle.std.specs.Prelude.{◌≡◌, ◌≢◌, ◌==◌, ◌+◌, ◌≤◌, All, IfOk, OnErr, OnOk, length, not};
ghost use Rattle.dl_kinds.specs.declared.claims.TheConstants.{MAX_MIRRORS};
ghost use Rattle.dl_queue.specs.Calls.{QueueCall, after, refusal};
ghost use Rattle.dl_queue.specs.declared.kinds.QueueErr.TheVariants.{NoMemory};
ghost use Rattle.link_source.specs.Endpoint.{IsUsable};
ghost use Rattle.option_set.specs.Values.{number_value};
ghost use Rattle.option_set.specs.declared.kinds.Num.TheVariants.{Pause};
ghost use Rattle.machine_core.specs.CallParts.{HasMirrors, IsAddition, IsNewEntry, StandInOrder};
ghost use Rattle.machine_core.specs.Starts.{Subject};

use crate::Applied;
use crate::changes::with_settings;
use crate::entries::Entry;
use crate::gids::{added_count, next_gid};
use dl_kinds::{Gid, Texts};
use dl_queue::{Queue, QueueErr};
use mirror_hosts::host_numbers;
use one_download::OneDownload;
use option_set::{Num, Options, Settings};
use std::alloc::{AllocError, Global};

// What is kept of a download from its adding on, which the call at a place of the journal does.
fn new_entry(
    alloc: Global,
    gid: Gid,
    called: usize,
    options: Options,
    seeds: &Texts,
    uris: &Texts,
) -> Result<Entry, AllocError>
    requires seeds { All IsUsable seeds.now }
    requires uris { All IsUsable uris.now }
    requires few { length seeds.now + length uris.now ≤ MAX_MIRRORS }
    ensures { (subject : Subject) → HasMirrors subject seeds.now uris.now
        → IfOk result (IsNewEntry
        (record { gid = gid; subject = subject; options = options }) called) }
{
    let hosts = host_numbers(alloc, seeds, uris)?;
    let mirrors = (seeds.len() + uris.len()) as u16;
    let tries = options.number(Num::MaxTries) as u8;
    Ok(Entry {
        gid,
        called,
        options,
        hosts,
        state: OneDownload::new(alloc, mirrors, tries),
    })
}

// Why the queue refuses, but for want of memory.
fn judged(fault: QueueErr) -> Result<QueueErr, AllocError>
    ensures { IfOk result (λ refused. (refused ≡ fault) × (refused ≢ NoMemory)) }
{
    match fault {
        QueueErr::NoMemory => Err(AllocError),
        refused => Ok(refused),
    }
}

// Adds a download to the queue, or tells why it is refused. After an Err the queue is as before.
pub(crate) fn add_to_queue(
    queue: &mut Queue,
    gid: Gid,
    options: Options,
    paused: bool,
    position: Option<u32>,
) -> Result<Option<QueueErr>, AllocError>
    ensures answer { IfOk result (λ refused.
        refused ≡ refusal queue.old (QueueCall.Add gid options paused position)) }
    ensures state { OnOk result
        (queue.new ≡ after queue.old (QueueCall.Add gid options paused position)) }
    ensures same { OnErr result (queue.new ≡ queue.old) }
{
    match queue.add(gid, options, paused, position) {
        Ok(()) => Ok(None),
        Err(fault) => Ok(Some(judged(fault)?)),
    }
}

pub(crate) fn is_paused(options: &Options) -> bool
    ensures { result ≡ not (number_value options.now Pause == 0) }
{
    options.number(Num::Pause) != 0
}

/// A download is added by the call at a place of the journal, with settings over the global options. After an Err all is
/// as before.
pub(crate) fn add(
    alloc: Global,
    gids: u64,
    place: usize,
    queue: &mut Queue,
    entries: &mut Vec<Entry>,
    global: &Options,
    seeds: &Texts,
    uris: &Texts,
    settings: &Settings,
    position: Option<u32>,
) -> Result<Applied, AllocError>
    requires order { StandInOrder queue.old.added entries.old.items }
    requires seeds { All IsUsable seeds.now }
    requires uris { All IsUsable uris.now }
    requires few { length seeds.now + length uris.now ≤ MAX_MIRRORS }
    ensures ok { (subject : Subject) → HasMirrors subject seeds.now uris.now
        → IfOk result (IsAddition gids place global.now subject settings.now position
        queue.old queue.new entries.old.items entries.new.items) }
    ensures queue { OnErr result (queue.new ≡ queue.old) }
    ensures entries { OnErr result (entries.new.items ≡ entries.old.items) }
{
    let options = with_settings(alloc, global, settings)?;
    let gid = next_gid(queue, gids, added_count(entries), &options);
    let paused = is_paused(&options);
    let copy = options.copy(alloc)?;
    let entry = new_entry(alloc, gid, place, copy, seeds, uris)?;
    entries.reserve(1)?;
    let refused = add_to_queue(queue, gid, options, paused, position)?;
    match refused {
        None => {
            entries.push_reserved(entry);
            Ok(Applied::Added { gid })
        }
        Some(refusal) => Ok(Applied::Refused { refusal }),
    }
}
