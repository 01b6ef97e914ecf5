// What calls that ask are answered.
ghost use Rattle.std.specs.Prelude.{◌≡◌, ℕ, List, IfOk, true};
ghost use Rattle.dl_kinds.specs.declared.gid.Gid.{Gid as DownloadGid};
ghost use Rattle.run_report.specs.Ends.{AreEnds};
ghost use Rattle.run_report.specs.Replies as spec;
ghost use Rattle.machine_core.specs.Replays.{queue_in};
ghost use Rattle.run_report.specs.Windows as windows;
ghost use Rattle.run_report.specs.Statuses.{status_view_of};
ghost use Rattle.run_report.specs.Subjects.{AreNames};
ghost use Rattle.run_report.specs.Sums.{AreSpeeds};

use crate::ends::Ends;
use crate::options::{global_reply, options_reply};
use crate::queued::{active_gids, stopped_gids, waiting_gids};
use crate::speeds::Speeds;
use crate::stats::stat;
use crate::told::read_download;
use crate::windows::window;
use crate::{Reply, StatusView, StatusViews};
use dl_kinds::{Gid, GidKey, Moment};
use dl_queue::QueueErr;
use machine_core::{Call, Machine};
use std::alloc::{AllocError, Global};

// What is told of a download, if it was added.
fn status_view(
    machine: &Machine,
    alloc: Global,
    ends: &Ends,
    speeds: &Speeds,
    gid: Gid,
    now: Moment,
) -> Result<Option<StatusView>, AllocError>
    requires ends { AreEnds ends.now machine.now.past }
    requires speeds { AreSpeeds speeds.now machine.now.start machine.now.past now }
    ensures { (names : DownloadGid → List ℕ) → AreNames machine.now.start machine.now.past names
        → IfOk result (λ view. view
        ≡ status_view_of machine.now.start machine.now.past now names gid) }
{
    let read = read_download(machine, alloc, gid)?;
    match read {
        Some(download) => Ok(Some(download.status_view(alloc, ends, speeds, now)?)),
        None => Ok(None),
    }
}

fn status_reply(
    machine: &Machine,
    alloc: Global,
    gid: Gid,
    now: Moment,
) -> Result<Option<Reply>, AllocError>
    ensures { (names : DownloadGid → List ℕ) → AreNames machine.now.start machine.now.past names
        → IfOk result (λ reply. reply
        ≡ spec.status_reply machine.now.start machine.now.past names now gid) }
{
    match status_view(machine, alloc, &Ends::Sought, &Speeds::Sought, gid, now)? {
        Some(view) => Ok(Some(Reply::Status(view))),
        None => Ok(None),
    }
}

// The mirrors of the first file.
fn uris_reply(machine: &Machine, alloc: Global, gid: Gid) -> Result<Option<Reply>, AllocError>
    ensures { IfOk result (λ reply. reply ≡ spec.uris_reply machine.now.start machine.now.past gid) }
{
    let read = read_download(machine, alloc, gid)?;
    match read {
        Some(download) => Ok(Some(Reply::Uris(download.first_uris(alloc)?))),
        None => Ok(None),
    }
}

fn files_reply(machine: &Machine, alloc: Global, gid: Gid) -> Result<Option<Reply>, AllocError>
    ensures { (names : DownloadGid → List ℕ) → AreNames machine.now.start machine.now.past names
        → IfOk result (λ reply. reply
        ≡ spec.files_reply machine.now.start machine.now.past names gid) }
{
    let read = read_download(machine, alloc, gid)?;
    match read {
        Some(download) => Ok(Some(Reply::Files(download.file_views(alloc)?))),
        None => Ok(None),
    }
}

// What is told of these downloads, with their ends and speeds looked for there.
fn status_views(
    machine: &Machine,
    alloc: Global,
    ends: &Ends,
    speeds: &Speeds,
    gids: &[Gid],
    now: Moment,
) -> Result<StatusViews, AllocError>
    requires ends { AreEnds ends.now machine.now.past }
    requires speeds { AreSpeeds speeds.now machine.now.start machine.now.past now }
    ensures { (names : DownloadGid → List ℕ) → AreNames machine.now.start machine.now.past names
        → IfOk result (λ views. views
        ≡ spec.statuses_of machine.now.start machine.now.past now names gids.now) }
{
    let mut views = StatusViews::new(alloc);
    for gid in gids {
        if let Some(view) = status_view(machine, alloc, ends, speeds, *gid, now)? {
            views.push(view)?;
        }
    }
    Ok(views)
}

fn statuses_reply(
    machine: &Machine,
    alloc: Global,
    gids: &[Gid],
    now: Moment,
) -> Result<Reply, AllocError>
    ensures { (names : DownloadGid → List ℕ) → AreNames machine.now.start machine.now.past names
        → IfOk result (λ reply. reply
        ≡ spec.statuses_reply machine.now.start machine.now.past names now gids.now) }
{
    let ends = Ends::of(machine, alloc, gids)?;
    let speeds = Speeds::of(machine, alloc, gids.len(), now)?;
    let views = status_views(machine, alloc, &ends, &speeds, gids, now)?;
    Ok(Reply::Statuses(views))
}

fn found(reply: Option<Reply>) -> Reply
    ensures { result ≡ spec.reply_if reply }
{
    match reply {
        Some(reply) => reply,
        None => Reply::Refused(QueueErr::NotFound),
    }
}

fn tell_status(
    machine: &Machine,
    alloc: Global,
    key: GidKey,
    now: Moment,
) -> Result<Reply, AllocError>
    ensures { (names : DownloadGid → List ℕ) → AreNames machine.now.start machine.now.past names
        → IfOk result (λ reply. reply ≡ spec.keyed_reply machine.now.start machine.now.past key
        (spec.status_reply machine.now.start machine.now.past names now)) }
{
    match machine.find(key) {
        Ok(gid) => Ok(found(status_reply(machine, alloc, gid, now)?)),
        Err(refusal) => Ok(Reply::Refused(refusal)),
    }
}

fn get_uris(machine: &Machine, alloc: Global, key: GidKey) -> Result<Reply, AllocError>
    ensures { IfOk result (λ reply. reply ≡ spec.keyed_reply machine.now.start machine.now.past key
        (spec.uris_reply machine.now.start machine.now.past)) }
{
    match machine.find(key) {
        Ok(gid) => Ok(found(uris_reply(machine, alloc, gid)?)),
        Err(refusal) => Ok(Reply::Refused(refusal)),
    }
}

fn get_files(machine: &Machine, alloc: Global, key: GidKey) -> Result<Reply, AllocError>
    ensures { (names : DownloadGid → List ℕ) → AreNames machine.now.start machine.now.past names
        → IfOk result (λ reply. reply ≡ spec.keyed_reply machine.now.start machine.now.past key
        (spec.files_reply machine.now.start machine.now.past names)) }
{
    match machine.find(key) {
        Ok(gid) => Ok(found(files_reply(machine, alloc, gid)?)),
        Err(refusal) => Ok(Reply::Refused(refusal)),
    }
}

fn get_option(machine: &Machine, alloc: Global, key: GidKey) -> Result<Reply, AllocError>
    ensures { IfOk result (λ reply. reply ≡ spec.keyed_reply machine.now.start machine.now.past key
        (spec.options_reply machine.now.start machine.now.past)) }
{
    match machine.find(key) {
        Ok(gid) => Ok(found(options_reply(machine, alloc, gid)?)),
        Err(refusal) => Ok(Reply::Refused(refusal)),
    }
}

fn tell_active(machine: &Machine, alloc: Global, now: Moment) -> Result<Reply, AllocError>
    ensures { (names : DownloadGid → List ℕ) → AreNames machine.now.start machine.now.past names
        → IfOk result (λ reply. reply ≡ spec.statuses_reply machine.now.start machine.now.past
        names now (queue_in machine.now.start machine.now.past).active) }
{
    let gids = active_gids(alloc, machine.queue())?;
    statuses_reply(machine, alloc, &gids, now)
}

fn tell_waiting(
    machine: &Machine,
    alloc: Global,
    offset: i64,
    num: u32,
    now: Moment,
) -> Result<Reply, AllocError>
    ensures { (names : DownloadGid → List ℕ) → AreNames machine.now.start machine.now.past names
        → IfOk result (λ reply. reply ≡ spec.statuses_reply machine.now.start machine.now.past
        names now (windows.window offset num
        (spec.waiting_gids (queue_in machine.now.start machine.now.past)))) }
{
    let gids = waiting_gids(alloc, machine.queue())?;
    let told = window(alloc, &gids, offset, num)?;
    statuses_reply(machine, alloc, &told, now)
}

fn tell_stopped(
    machine: &Machine,
    alloc: Global,
    offset: i64,
    num: u32,
    now: Moment,
) -> Result<Reply, AllocError>
    ensures { (names : DownloadGid → List ℕ) → AreNames machine.now.start machine.now.past names
        → IfOk result (λ reply. reply ≡ spec.statuses_reply machine.now.start machine.now.past
        names now (windows.window offset num
        (spec.stopped_gids (queue_in machine.now.start machine.now.past)))) }
{
    let gids = stopped_gids(alloc, machine.queue())?;
    let told = window(alloc, &gids, offset, num)?;
    statuses_reply(machine, alloc, &told, now)
}

// What a call is answered that asks, where the payloads have these names.
fn reply_by_names(
    machine: &Machine,
    alloc: Global,
    call: &Call,
    now: Moment,
) -> Result<Reply, AllocError>
    requires asks { spec.is_asking call.now ≡ true }
    ensures { (names : DownloadGid → List ℕ) → AreNames machine.now.start machine.now.past names
        → IfOk result (λ reply. reply
        ≡ spec.reply_of machine.now.start machine.now.past names call.now now) }
{
    match call {
        Call::TellStatus { key } => tell_status(machine, alloc, *key, now),
        Call::TellActive => tell_active(machine, alloc, now),
        Call::TellWaiting { offset, num } => tell_waiting(machine, alloc, *offset, *num, now),
        Call::TellStopped { offset, num } => tell_stopped(machine, alloc, *offset, *num, now),
        Call::GetUris { key } => get_uris(machine, alloc, *key),
        Call::GetFiles { key } => get_files(machine, alloc, *key),
        Call::GetOption { key } => get_option(machine, alloc, *key),
        Call::GetGlobalOption => global_reply(machine, alloc),
        Call::GetGlobalStat => Ok(Reply::Stat(stat(machine, now))),
        Call::GetVersion => Ok(Reply::Version),
        // No other call asks.
        _ => unreachable!(),
    }
}

/// What a call is answered that asks and comes at this moment: it is read off the run before the call. `Refused` comes with
/// `NotFound` or `Ambiguous`, where a key names no download, or several. Statuses of the lists are told in their order, and
/// those of a negative offset backwards. A speed is that of the last ten seconds: it is read off the end of the journal, those
/// of several downloads in one look. How one download failed is looked for in the journal from its end on, and how several did
/// is gathered in one look at it; all else takes time in proportion to what is told, to the list that is asked for, and to the
/// pieces of the downloads that are told of.
pub fn reply_to(
    machine: &Machine,
    alloc: Global,
    call: &Call,
    now: Moment,
) -> Result<Reply, AllocError>
    requires asks { spec.is_asking call.now ≡ true }
    ensures { IfOk result
        (spec.IsReplyAt machine.now.start machine.now.past call.now now) }
{
    reply_by_names(machine, alloc, call, now)
}
