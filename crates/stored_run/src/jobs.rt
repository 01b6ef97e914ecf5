// What is to be asked of mirrors.
ghost use Rattle.std.specs.Prelude.{◌≡◌, ◌-◌, ◌∷◌, [], IfNone, IfOk, IfSome, None, Some, slice_index_or};
ghost use Rattle.engine_turns.specs.NextRows.{IsJobOf, mirror_url};
ghost use Rattle.machine_core.specs.Choices.{mirror_urls};
ghost use Rattle.machine_core.specs.MachineParts.{subject_of_event};
ghost use Rattle.machine_core.specs.Reads.{IsOpenedGid, lengths_of_gid};
ghost use Rattle.machine_core.specs.RunLegal.{download_in};
ghost use Rattle.machine_core.specs.Starts.{Download, Subject};
ghost use Rattle.span_map.specs.Jobs.{IsJob, IsRun, run_end, run_start};
ghost use Rattle.stored_run.specs.Settlings.{OfDownload, OfWant};

use crate::StoredRun;
use dl_disk::Disk;
use dl_kinds::{Gid, Plan, Run, Text, Texts, plan_laws};
use machine_core::{Call, Event, Machine};
use metainfo::mirror_job;
use span_map::{Job, JobPart, JobParts};
use std::alloc::{AllocError, Global};

// The call that added a download.
fn adding_of(machine: &Machine, gid: Gid) -> Option<&Event>
    ensures found { (download : Download)
        → download_in machine.now.start machine.now.past gid ≡ Some download
        → IfSome result (λ event. subject_of_event event.now ≡ Some download.subject) }
    ensures none { IfNone result (download_in machine.now.start machine.now.past gid ≡ None) }
{
    let place = machine.place(gid)?;
    let (_, called) = machine.added(place as u32)?;
    machine.journal().get(called)
}

// The text at a place, and an empty one behind them all.
fn text_at(texts: &Texts, place: usize) -> &str
    ensures { result.now ≡ slice_index_or texts.now place [] }
{
    match texts.get(place) {
        Some(text) => text.as_str(),
        None => "",
    }
}

// The URL of a mirror of the download that a call added.
fn url_by(event: &Event, mirror: u16) -> &str
    ensures { (subject : Subject) → subject_of_event event.now ≡ Some subject
        → result.now ≡ slice_index_or (mirror_urls subject) mirror [] }
{
    let place = mirror as usize;
    match event {
        Event::Called {
            call: Call::AddUri { uris, .. },
            ..
        } => text_at(uris, place),
        Event::Called {
            call: Call::AddTorrent { meta, uris, .. },
            ..
        } => {
            let seeds = meta.seeds.len();
            if place < seeds {
                text_at(&meta.seeds, place)
            } else {
                text_at(uris, place - seeds)
            }
        }
        _ => "",
    }
}

// The bytes of a run are asked for at one URL, which has the whole payload.
fn whole_job(alloc: Global, plan: Plan, run: Run, url: &str) -> Result<Job, AllocError>
    requires run { IsRun plan run }
    ensures plan { IfOk result (λ job. job.plan ≡ plan) }
    ensures run { IfOk result (λ job. job.run ≡ run) }
    ensures parts { IfOk result (λ job. job.parts ≡ record {
      url = url.now;
      at = run_start plan run;
      len = run_end plan run - run_start plan run;
      total = plan.total;
    } ∷ []) }
    ensures sound { IfOk result IsJob }
{
    plan_laws();
    let (start, _) = plan.block_span(run.first);
    let (last, len) = plan.block_span(run.first + (run.count - 1));
    let mut parts = JobParts::new(alloc);
    parts.push(JobPart {
        url: Text::of(alloc, url)?,
        at: start,
        len: last + len as u64 - start,
        total: plan.total,
    })?;
    Ok(Job { plan, run, parts })
}

impl<D: Disk> StoredRun<D> {
    // The URL of a mirror of a download that was added, by its number.
    pub(crate) fn mirror_url(&self, gid: Gid, mirror: u16) -> &str
        ensures { OfDownload self.entry.now gid (λ download.
            result.now ≡ mirror_url download.subject mirror) }
    {
        match adding_of(&self.machine, gid) {
            Some(event) => url_by(event, mirror),
            None => "",
        }
    }

    // What is to be asked of a mirror for a run of blocks of a download that is opened.
    pub(crate) fn job(&self, gid: Gid, mirror: u16, run: Run) -> Result<Job, AllocError>
        requires opened { IsOpenedGid self.now.machine gid }
        requires run { OfWant self.now gid (λ want. IsRun want.plan run) }
        ensures { OfDownload self.entry.now gid (λ download. IfOk result
            (IsJobOf (lengths_of_gid self.entry.now.machine gid) download.subject mirror run)) }
    {
        self.tells_stored();
        let want = self.want(gid).unwrap();
        let url = self.mirror_url(gid, mirror);
        if want.info_hash.is_some() {
            mirror_job(self.alloc, &want.layout, want.plan, run, url)
        } else {
            whole_job(self.alloc, want.plan, run, url)
        }
    }
}
