// What is asked of a mirror for a run of blocks of a payload.
ghost use Rattle.std.specs.Prelude.{◌≡◌, ◌<◌, ◌^◌, length, map, All, IfOk};
ghost use Rattle.dl_kinds.specs.declared.plan.TheConstants.{MAX_PAYLOAD_LEN};
ghost use Rattle.span_map.specs.Jobs.{IsRun, IsJob, IsJobPart};
ghost use Rattle.span_map.specs.Layout.{total_of};
ghost use Rattle.span_map.specs.Slices.{IsPart};
ghost use Rattle.metainfo.specs.Jobs.{mirror_part, run_parts};

use crate::urls::url_of;
use dl_kinds::{NoMemory, Plan, Run, Text, plan_laws};
use span_map::{Job, JobPart, JobParts, Layout, Part};
use std::alloc::Global;

// What is asked of the mirror for a part of a file.
fn mirror_part(alloc: Global, layout: &Layout, base: &str, part: &Part) -> Result<JobPart, NoMemory>
    requires { IsPart layout.now part.now }
    ensures asked { IfOk result (λ asked. asked ≡ mirror_part layout.now base.now part.now) }
    ensures range { IfOk result IsJobPart }
    ensures bounded { IfOk result (λ asked. asked.total < 2 ^ 63) }
{
    let file = &layout.files()[part.file as usize];
    let url = url_of(alloc, base, &file.path)?;
    Ok(JobPart {
        url: Text::of(alloc, &url)?,
        at: part.at,
        len: part.len,
        total: file.len,
    })
}

fn mirror_parts(
    alloc: Global,
    layout: &Layout,
    base: &str,
    parts: &[Part],
) -> Result<JobParts, NoMemory>
    requires { All (IsPart layout.now) parts.now }
    ensures asked { IfOk result (λ asked. asked ≡ map (mirror_part layout.now base.now) parts.now) }
    ensures ranges { IfOk result (All IsJobPart) }
    ensures bounded { IfOk result (All (λ part. part.total < 2 ^ 63)) }
{
    let mut asked = JobParts::new(alloc);
    'each: for part in parts {
        asked.push(mirror_part(alloc, layout, base, part)?)?;
    }
    Ok(asked)
}

/// What is to be fetched for a run of blocks of a payload: parts of its files, at their URLs by BEP 19 below a mirror's
/// URL, `base`.
pub fn mirror_job(
    alloc: Global,
    layout: &Layout,
    plan: Plan,
    run: Run,
    base: &str,
) -> Result<Job, NoMemory>
    requires total { total_of layout.now ≡ plan.total }
    requires run { IsRun plan run }
    ensures plan { IfOk result (λ job. job.plan ≡ plan) }
    ensures run { IfOk result (λ job. job.run ≡ run) }
    ensures parts { IfOk result (λ job. job.parts ≡ run_parts layout.now plan run base.now) }
    ensures sound { IfOk result IsJob }
    ensures bounded { IfOk result (λ job. All (λ part. part.total < 2 ^ 63) job.parts) }
{
    plan_laws();
    let (start, _) = plan.block_span(run.first);
    let (last, len) = plan.block_span(run.first + (run.count - 1));
    let parts = layout.parts(alloc, start, last + len as u64 - start)?;
    Ok(Job {
        plan,
        run,
        parts: mirror_parts(alloc, layout, base, &parts)?,
    })
}
