// A queue and global options that follow the events of a run.
ghost use Rattle.std.specs.Prelude.{◌≡◌, OnErr, OnOk, true};
ghost use Rattle.machine_core.specs.CallParts.{is_plain, queue_keyed};
ghost use Rattle.machine_core.specs.NoticeLogs.{FollowsCall, FollowsEvent, FollowsPlain, IsQueueAddition, asks, is_quiet};
ghost use Rattle.machine_core.specs.Replays.{keyed_gid};
ghost use Rattle.dl_queue.specs.Calls.{QueueCall};

use crate::adding::{add_to_queue, is_paused};
use crate::changes::{change_global, with_settings};
use crate::gids::next_gid;
use crate::keyed::{change_position, find_keyed, forget, unpause};
use crate::{Call, Event};
use dl_kinds::GidKey;
use dl_queue::Queue;
use option_set::{Options, Settings};
use std::alloc::{AllocError, Global};

fn pause(queue: &mut Queue, key: GidKey)
    ensures { queue.new ≡ queue_keyed queue.old QueueCall.Pause (keyed_gid queue.old key) }
{
    match find_keyed(queue, key) {
        Ok(gid) => {
            let _ = queue.pause(gid);
        }
        Err(_) => {}
    }
}

fn remove(queue: &mut Queue, key: GidKey)
    ensures { queue.new ≡ queue_keyed queue.old QueueCall.Remove (keyed_gid queue.old key) }
{
    match find_keyed(queue, key) {
        Ok(gid) => {
            let _ = queue.remove(gid);
        }
        Err(_) => {}
    }
}

// A call that neither adds a download nor sets options.
fn follow_plain(queue: &mut Queue, call: &Call)
    requires { is_plain call.now ≡ true }
    ensures { FollowsPlain call.now queue.old queue.new }
{
    match call {
        Call::Remove { key } => remove(queue, *key),
        Call::Pause { key } => pause(queue, *key),
        Call::Unpause { key } => {
            let _ = unpause(queue, *key);
        }
        Call::PauseAll => queue.pause_all(),
        Call::UnpauseAll => queue.unpause_all(),
        Call::ChangePosition { key, pos, how } => {
            let _ = change_position(queue, *key, *pos, *how);
        }
        Call::Purge => queue.purge(),
        Call::RemoveResult { key } => {
            let _ = forget(queue, *key);
        }
        // The others ask, or shut the run down.
        _ => {}
    }
}

// A download is added. After an Err the queue is as before.
fn follow_adding(
    alloc: Global,
    gids: u64,
    queue: &mut Queue,
    global: &Options,
    settings: &Settings,
    position: Option<u32>,
) -> Result<(), AllocError>
    ensures ok { OnOk result
        (IsQueueAddition gids global.now settings.now position queue.old queue.new) }
    ensures same { OnErr result (queue.new ≡ queue.old) }
{
    let options = with_settings(alloc, global, settings)?;
    let gid = next_gid(queue, gids, queue.added_len(), &options);
    let paused = is_paused(&options);
    add_to_queue(queue, gid, options, paused, position)?;
    Ok(())
}

// Any call. After an Err all is as before.
fn follow_call(
    alloc: Global,
    gids: u64,
    queue: &mut Queue,
    global: &mut Options,
    call: &Call,
) -> Result<(), AllocError>
    ensures ok { OnOk result
        (FollowsCall gids call.now queue.old queue.new global.old global.new) }
    ensures queue { OnErr result (queue.new ≡ queue.old) }
    ensures global { OnErr result (global.new ≡ global.old) }
{
    match call {
        Call::AddUri {
            options,
            position,
            ..
        } => follow_adding(alloc, gids, queue, global, options, *position),
        Call::AddTorrent {
            options,
            position,
            ..
        } => follow_adding(alloc, gids, queue, global, options, *position),
        Call::ChangeOption { .. } => Ok(()),
        Call::ChangeGlobalOption { options } => change_global(alloc, queue, global, options),
        _ => {
            follow_plain(queue, call);
            Ok(())
        }
    }
}

/// The queue and the global options come to those behind the event; `gids` is what the gids of downloads are made from.
/// After an Err all is as before.
pub(crate) fn follow(
    alloc: Global,
    gids: u64,
    queue: &mut Queue,
    global: &mut Options,
    event: &Event,
) -> Result<(), AllocError>
    ensures ok { OnOk result
        (FollowsEvent gids event.now queue.old queue.new global.old global.new) }
    ensures queue { OnErr result (queue.new ≡ queue.old) }
    ensures global { OnErr result (global.new ≡ global.old) }
{
    match event {
        Event::Called { call, .. } => follow_call(alloc, gids, queue, global, call),
        Event::Ended { gid, end } => {
            let _ = queue.stop(*gid, end.status());
            Ok(())
        }
        _ => Ok(()),
    }
}

// Whether a call leaves the queue as it is.
fn only_asks(call: &Call) -> bool
    ensures { result ≡ asks call.now }
{
    match call {
        Call::AddUri { .. }
        | Call::AddTorrent { .. }
        | Call::Remove { .. }
        | Call::Pause { .. }
        | Call::Unpause { .. }
        | Call::PauseAll
        | Call::UnpauseAll
        | Call::ChangeGlobalOption { .. }
        | Call::ChangePosition { .. }
        | Call::Purge
        | Call::RemoveResult { .. }
        | Call::Shutdown => false,
        _ => true,
    }
}

/// Whether an event can't change the status of a download.
pub(crate) fn is_quiet(event: &Event) -> bool
    ensures { result ≡ is_quiet event.now }
{
    match event {
        Event::Called { call, .. } => only_asks(call),
        Event::Ended { .. } => false,
        _ => true,
    }
}
