// The mirrors of a download, as they are told of a file.
ghost use Rattle.std.specs.Prelude.{◌≡◌, ◌+◌, ◌++◌, ◌≤◌, ◌<◌, IfOk, IfSome, List, None, OnOk, Some, length, map, option_copied};
ghost use Rattle.std.specs.List.{enumerate_from};
ghost use Rattle.dl_kinds.specs.declared.claims.Claim.{Claim};
ghost use Rattle.machine_core.specs.MachineViews.{standing_in};
ghost use Rattle.run_report.specs.Told.{HasFile};
ghost use Rattle.run_report.specs.Uris as spec;

use crate::told::Told;
use crate::{UriStatus, UriView, UriViews};
use dl_kinds::{Gid, Text, Texts};
use machine_core::Machine;
use metainfo::Meta;
use std::alloc::{AllocError, Global};

// Whether a claim of the mirror stands.
fn is_used(machine: &Machine, gid: Gid, mirror: usize) -> bool
    ensures { result ≡ spec.is_used (standing_in machine.now gid) mirror }
{
    for place in 0..machine.standing(gid) {
        let claim = machine.standing_at(gid, place).unwrap();
        if claim.mirror as usize == mirror {
            return true;
        }
    }
    false
}

/// For each of so many mirrors of a download whether a claim of it stands.
pub(crate) fn used_mirrors(
    machine: &Machine,
    alloc: Global,
    gid: Gid,
    mirrors: usize,
) -> Result<Vec<bool>, AllocError>
    ensures { IfOk result (λ used.
        used.items ≡ spec.used_row (standing_in machine.now gid) mirrors) }
{
    let mut used = Vec::with_capacity(alloc, mirrors)?;
    for mirror in 0..mirrors {
        used.push(is_used(machine, gid, mirror))?;
    }
    Ok(used)
}

fn uri_status(used: bool) -> UriStatus
    ensures { result ≡ spec.uri_status used }
{
    if used {
        UriStatus::Used
    } else {
        UriStatus::Waiting
    }
}

// Where a file is at a mirror.
fn file_url(alloc: Global, meta: Option<&Meta>, file: u32, url: &str) -> Result<Text, AllocError>
    requires { IfSome (option_copied meta) (λ meta. file < length meta.layout) }
    ensures { IfOk result (λ text.
        text ≡ spec.file_url (option_copied meta.entry) file url.now) }
{
    match meta {
        Some(meta) => meta.seed_url(alloc, url, file),
        None => Text::of(alloc, url),
    }
}

fn uri_view(
    alloc: Global,
    used: &[bool],
    meta: Option<&Meta>,
    file: u32,
    mirror: usize,
    url: &str,
) -> Result<UriView, AllocError>
    requires mirror { mirror < length used.now }
    requires file { IfSome (option_copied meta) (λ meta. file < length meta.layout) }
    ensures { (standing : List Claim) → used.now ≡ spec.used_row standing (length used.now)
        → IfOk result (λ view. view
        ≡ spec.uri_view standing (option_copied meta.entry) file (mirror, url.now)) }
{
    Ok(UriView {
        status: uri_status(used[mirror]),
        uri: file_url(alloc, meta, file, url)?,
    })
}

// Adds mirrors with these URLs, the first of which has this number.
fn push_uris(
    alloc: Global,
    used: &[bool],
    meta: Option<&Meta>,
    file: u32,
    first: usize,
    urls: &Texts,
    views: &mut UriViews,
) -> Result<(), AllocError>
    requires within { first + length urls.now ≤ length used.now }
    requires file { IfSome (option_copied meta) (λ meta. file < length meta.layout) }
    ensures { (standing : List Claim) → used.now ≡ spec.used_row standing (length used.now)
        → OnOk result (views.new ≡ views.old
        ++ map (spec.uri_view standing (option_copied meta.entry) file) (enumerate_from first urls.now)) }
{
    for place in 0..urls.len() {
        let url = urls.at(place).as_str();
        views.push(uri_view(alloc, used, meta, file, first + place, url)?)?;
    }
    Ok(())
}

// The mirrors of a file of a metainfo file.
fn listed_uris(
    alloc: Global,
    used: &[bool],
    meta: &Meta,
    uris: &Texts,
    file: u32,
) -> Result<UriViews, AllocError>
    requires within { length meta.now.seeds + length uris.now ≤ length used.now }
    requires file { file < length meta.now.layout }
    ensures { (standing : List Claim) → used.now ≡ spec.used_row standing (length used.now)
        → IfOk result (λ views. views ≡ map (spec.uri_view standing (Some meta.now) file)
        (enumerate_from 0 (meta.now.seeds ++ uris.now))) }
{
    let mut views = UriViews::new(alloc);
    let first = meta.seeds.len();
    push_uris(alloc, used, Some(meta), file, 0, &meta.seeds, &mut views)?;
    push_uris(alloc, used, Some(meta), file, first, uris, &mut views)?;
    Ok(views)
}

// .. of a payload without a metainfo file.
fn unlisted_uris(
    alloc: Global,
    used: &[bool],
    uris: &Texts,
    file: u32,
) -> Result<UriViews, AllocError>
    requires { length uris.now ≤ length used.now }
    ensures { (standing : List Claim) → used.now ≡ spec.used_row standing (length used.now)
        → IfOk result (λ views. views ≡ map (spec.uri_view standing None file)
        (enumerate_from 0 uris.now)) }
{
    let mut views = UriViews::new(alloc);
    push_uris(alloc, used, None, file, 0, uris, &mut views)?;
    Ok(views)
}

impl<'a> Told<'a> {
    /// The mirrors of a file, by its number from 0.
    pub(crate) fn uri_views(&self, alloc: Global, file: u32) -> Result<UriViews, AllocError>
        requires { HasFile self.now file }
        ensures { IfOk result (λ views. views ≡ spec.uri_views
            (standing_in self.now.machine self.now.download.gid)
            self.now.download.subject file) }
    {
        let used = self.used.as_slice();
        match self.meta {
            Some(meta) => listed_uris(alloc, used, meta, self.uris, file),
            None => unlisted_uris(alloc, used, self.uris, file),
        }
    }

    /// The mirrors of its first file.
    pub(crate) fn first_uris(&self, alloc: Global) -> Result<UriViews, AllocError>
        ensures { IfOk result (λ views. views ≡ spec.uri_views
            (standing_in self.now.machine self.now.download.gid)
            self.now.download.subject 0) }
    {
        if let Some(meta) = self.meta {
            // A layout has a file.
            let _ = meta.layout.files();
        }
        self.uri_views(alloc, 0)
    }
}
