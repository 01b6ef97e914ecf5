// What a store is to keep of downloads.
ghost use Rattle.std.specs.Prelude.{◌≡◌, ◌≤◌, ◌∷◌, [], All, IfNone, IfOk, IfSome, IsSome, None, Some, length, unwrap_or};
ghost use Rattle.std.specs.Option.{option_and_then};
ghost use Rattle.control_file.specs.Wants.{IsWant};
ghost use Rattle.dl_kinds.specs.declared.plan.TheConstants.{MAX_PAYLOAD_LEN};
ghost use Rattle.link_source.specs.Endpoint.{IsUsable};
ghost use Rattle.metainfo.specs.Info.{info_of, IsSound};
ghost use Rattle.option_set.specs.Values.{text_of_word};
ghost use Rattle.option_set.specs.declared.kinds.Word.TheVariants as word;
ghost use Rattle.span_map.specs.Paths.{IsValidPart};
ghost use Rattle.machine_core.specs.DownloadWants.{HasWant, IsLawfulEvent, IsWantOf, WantsStay};
ghost use Rattle.machine_core.specs.FileNames.{IsPayloadName, IsUnlistedName};
ghost use Rattle.machine_core.specs.LawfulCalls.{IsLawful};
ghost use Rattle.machine_core.specs.MachineParts.{subject_of_call, subject_of_event};
ghost use Rattle.machine_core.specs.Openings.{HasPlan, lengths_of_plan, meta_of_event, meta_of_subject};
ghost use Rattle.machine_core.specs.Starts.{Download};

use crate::opening::{meta_of, plan_with};
use crate::{Call, Event, Machine};
use control_file::Want;
use dl_history::{accounts_match_events, histories_are_sound};
use dl_kinds::{Digests, Gid, Plan, Text, Texts, plan_laws};
use metainfo::{Meta, metainfo_is_sound};
use one_download::steps_match_events;
use option_set::{Num, Options, Word};
use span_map::{FileLen, Layout, LayoutErr};
use std::alloc::{AllocError, Global};
use url_names::name_of_url;

/// The folder of a payload, by the options that its download began with.
pub fn payload_folder(begun: &Options) -> &str
    ensures { result.now ≡ unwrap_or (text_of_word begun.now word.Dir) [] }
{
    match begun.text(Word::Dir) {
        Some(dir) => dir,
        None => "",
    }
}

fn dir_of(alloc: Global, begun: &Options) -> Result<Text, AllocError>
    ensures { IfOk result (λ dir. dir ≡ unwrap_or (text_of_word begun.now word.Dir) []) }
{
    Text::of(alloc, payload_folder(begun))
}

// The name by the option, or else by the first URI.
fn base_of(alloc: Global, begun: &Options, uris: &Texts) -> Result<Text, AllocError>
    requires some { 1 ≤ length uris.now }
    requires usable { All IsUsable uris.now }
    ensures named { IfOk result (IsUnlistedName (text_of_word begun.now word.Out) uris.now) }
    ensures valid { IfOk result IsValidPart }
{
    match begun.text(Word::Out) {
        Some(out) => Text::of(alloc, out),
        None => name_of_url(alloc, uris.at(0).as_str()),
    }
}

fn one_file(alloc: Global, name: &Text, total: u64) -> Result<Layout, AllocError>
    requires name { IsValidPart name.now }
    requires bounded { total ≤ MAX_PAYLOAD_LEN }
    ensures { IfOk result (λ layout.
        layout ≡ record { path = name.now ∷ []; len = total } ∷ []) }
{
    let mut path = Texts::new(alloc);
    path.push(name.copy(alloc)?)?;
    let mut files = Vec::new(alloc);
    files.push(FileLen { path, len: total })?;
    match Layout::new(alloc, files) {
        Ok(layout) => Ok(layout),
        Err(LayoutErr::NoMemory) => Err(AllocError),
        // One file of a valid name, which isn't longer than a plan's payload, is a layout.
        Err(_) => unreachable!(),
    }
}

fn hash_of(hash: &[u8; 20]) -> [u8; 20]
    ensures value { result ≡ hash.now }
    ensures len { length result ≡ 20 }
{
    *hash
}

fn listed_want(alloc: Global, meta: &Meta, begun: &Options) -> Result<Want, AllocError>
    requires { IsSound (info_of meta.now) }
    ensures want { IfOk result IsWant }
    ensures base { IfOk result (λ want. want.base ≡ meta.now.name) }
    ensures dir { IfOk result (λ want. want.dir ≡ unwrap_or (text_of_word begun.now word.Dir) []) }
    ensures layout { IfOk result (λ want. want.layout ≡ meta.now.layout) }
    ensures plan { IfOk result (λ want. want.plan ≡ meta.now.plan) }
    ensures digests { IfOk result (λ want. want.digests ≡ meta.now.digests) }
    ensures info_hash { IfOk result (λ want. want.info_hash ≡ Some meta.now.info_hash) }
{
    Ok(Want {
        base: meta.name.copy(alloc)?,
        dir: dir_of(alloc, begun)?,
        layout: meta.layout.copy(alloc)?,
        plan: meta.plan,
        digests: meta.digests.copy(alloc)?,
        info_hash: Some(hash_of(&meta.info_hash)),
    })
}

fn unlisted_want(
    alloc: Global,
    uris: &Texts,
    begun: &Options,
    plan: Plan,
) -> Result<Want, AllocError>
    requires some { 1 ≤ length uris.now }
    requires usable { All IsUsable uris.now }
    ensures want { IfOk result IsWant }
    ensures base { IfOk result (λ want.
        IsUnlistedName (text_of_word begun.now word.Out) uris.now want.base) }
    ensures dir { IfOk result (λ want. want.dir ≡ unwrap_or (text_of_word begun.now word.Dir) []) }
    ensures layout { IfOk result (λ want.
        want.layout ≡ record { path = want.base ∷ []; len = plan.total } ∷ []) }
    ensures plan { IfOk result (λ want. want.plan ≡ plan) }
    ensures digests { IfOk result (λ want. want.digests ≡ []) }
    ensures info_hash { IfOk result (λ want. want.info_hash ≡ None) }
{
    let base = base_of(alloc, begun, uris)?;
    let layout = one_file(alloc, &base, plan.total)?;
    Ok(Want {
        base,
        dir: dir_of(alloc, begun)?,
        layout,
        plan,
        digests: Digests::new(alloc),
        info_hash: None,
    })
}

// The want of the download that a call adds.
fn want_by_call(alloc: Global, call: &Call, begun: &Options, plan: Plan) -> Result<Want, AllocError>
    requires lawful { IsLawful call.now }
    requires adds { IsSome (subject_of_call call.now) }
    requires plan { IfSome (option_and_then meta_of_subject (subject_of_call call.now))
        (λ meta. lengths_of_plan meta.plan ≡ lengths_of_plan plan) }
    ensures want { IfOk result IsWant }
    ensures is { (download : Download) → subject_of_call call.now ≡ Some download.subject
        → begun.now ≡ download.options → IfOk result (IsWantOf download (lengths_of_plan plan)) }
{
    metainfo_is_sound();
    match call {
        Call::AddTorrent { meta, .. } => listed_want(alloc, meta, begun),
        Call::AddUri { uris, .. } => unlisted_want(alloc, uris, begun, plan),
        // No other call adds one.
        _ => unreachable!(),
    }
}

/// The name of the payload of the download that a call adds: of its file, or of the folder of its files.
pub fn payload_name(alloc: Global, call: &Call, begun: &Options) -> Result<Text, AllocError>
    requires lawful { IsLawful call.now }
    requires adds { IsSome (subject_of_call call.now) }
    ensures { (download : Download) → subject_of_call call.now ≡ Some download.subject
        → begun.now ≡ download.options
        → IfOk result (IsPayloadName download download.subject) }
{
    match call {
        Call::AddTorrent { meta, .. } => meta.name.copy(alloc),
        Call::AddUri { uris, .. } => base_of(alloc, begun, uris),
        // No other call adds one.
        _ => unreachable!(),
    }
}

fn want_by(alloc: Global, event: &Event, begun: &Options, plan: Plan) -> Result<Want, AllocError>
    requires lawful { IsLawfulEvent event.now }
    requires adds { IsSome (subject_of_event event.now) }
    requires plan { IfSome (meta_of_event event.now)
        (λ meta. lengths_of_plan meta.plan ≡ lengths_of_plan plan) }
    ensures want { IfOk result IsWant }
    ensures is { (download : Download) → subject_of_event event.now ≡ Some download.subject
        → begun.now ≡ download.options → IfOk result (IsWantOf download (lengths_of_plan plan)) }
{
    match event {
        Event::Called { call, .. } => want_by_call(alloc, call, begun, plan),
        // No other event adds one.
        _ => unreachable!(),
    }
}

/// The want of a download stays once its length is known. It does nothing when it runs.
pub fn wants_stay()
    ensures { WantsStay }
{
    plan_laws();
    histories_are_sound();
    accounts_match_events();
}

impl Machine {
    /// What a store is to keep of a download: none of one that wasn't added, before its length is known, and where no plan
    /// has it. It makes each text and the layout anew, in the time of their lengths.
    pub fn make_want(&self, alloc: Global, gid: Gid) -> Result<Option<Want>, AllocError>
        ensures found { IfOk result (λ want.
            IfSome want (HasWant self.now.start self.now.past gid)) }
        ensures sound { IfOk result (λ want. IfSome want IsWant) }
        ensures none { IfOk result (λ want. IfNone want (HasPlan self.now gid → ⊥)) }
    {
        plan_laws();
        histories_are_sound();
        accounts_match_events();
        steps_match_events();
        let Some(place) = self.place(gid) else {
            return Ok(None);
        };
        let entry = &self.entries[place];
        let begun = self.queue.options(gid).unwrap();
        let event = self.adding_event(place);
        let piece_len = begun.number(Num::PieceLength) as u32;
        let Some(plan) = plan_with(meta_of(event), piece_len, entry.state.told()) else {
            return Ok(None);
        };
        Ok(Some(want_by(alloc, event, begun, plan)?))
    }
}
