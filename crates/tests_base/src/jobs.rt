// What is to be fetched of a payload (BEP 19).
use crate::metainfos::read_meta;
use crate::spelling::spelled;
use dl_kinds::{Run, Text};
use metainfo::{Meta, mirror_job};
use span_map::{JobPart, JobParts};
use std::alloc::{AllocError, Global};
use test_lines::{Output, after, before, number, u32_at, word};

// Adds a part of a resource, between whose numbers `/` stands: where it begins, its length, and the length of the resource.
fn push_part(alloc: Global, parts: &mut JobParts, word: &str) -> Result<(), AllocError> {
    let numbers = before(word, '=');
    let behind = after(numbers, '/');
    parts.push(JobPart {
        url: Text::of(alloc, after(word, '='))?,
        at: number(before(numbers, '/')),
        len: number(before(behind, '/')),
        total: number(after(behind, '/')),
    })
}

fn push_parts(alloc: Global, parts: &mut JobParts, words: &str) -> Result<(), AllocError> {
    for word in words.split(',') {
        push_part(alloc, parts, word)?;
    }
    Ok(())
}

fn add_part(part: &JobPart, output: &mut Output) {
    output.counted("; ", part.at);
    output.counted("+", part.len);
    output.counted(" of ", part.total);
    output.text(" at ");
    output.text(part.url.as_str());
}

fn add_parts(parts: &JobParts, output: &mut Output) {
    output.number(parts.len() as u64);
    output.text(if parts.is_empty() {
        " parts, none"
    } else {
        " parts"
    });
    for place in 0..parts.len() {
        if let Some(part) = parts.get(place) {
            add_part(part, output);
        }
    }
    if parts.get(parts.len()).is_some() {
        output.text("; ONE MORE");
    }
}

/// Adds parts as they were added, between which a comma stands.
pub fn add_added(alloc: Global, words: &str, output: &mut Output) {
    let mut parts = JobParts::new(alloc);
    if words.is_empty() || push_parts(alloc, &mut parts, words).is_ok() {
        add_parts(&parts, output);
    }
}

// Adds what is asked of a mirror for blocks of the payload of a metainfo file.
fn add_job_of(alloc: Global, meta: &Meta, run: Run, base: &str, output: &mut Output) {
    let blocks = meta.plan.blocks();
    if run.count == 0 || run.count > blocks || run.first > blocks - run.count {
        output.text("no such blocks");
    } else if meta.layout.total() == meta.plan.total {
        if let Ok(job) = mirror_job(alloc, &meta.layout, meta.plan, run, base) {
            add_parts(&job.parts, output);
        }
    }
}

/// Adds what is asked of a mirror for blocks of a payload.
pub fn add_job(alloc: Global, rest: &str, output: &mut Output) {
    let bytes = spelled(alloc, after(after(after(rest, ' '), ' '), ' '));
    let run = Run {
        first: u32_at(rest, 0),
        count: u32_at(rest, 1),
    };
    if let Some(Ok(meta)) = read_meta(alloc, &bytes) {
        add_job_of(alloc, &meta, run, word(rest, 2), output);
    }
}
