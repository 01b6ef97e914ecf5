// The files of a metainfo file.
ghost use Rattle.std.specs.Prelude.{◌≡◌, ◌≤◌, ℕ, true, length, IfOk};
ghost use Rattle.std.specs.List.{list_all};
ghost use Rattle.std.specs.Str.{is_utf8};
ghost use Rattle.dl_kinds.specs.Answers.{Gives};
ghost use Rattle.metainfo.specs.Kept.{kept_part, kept_path, kept_parts, kept, all_kept};
ghost use Rattle.metainfo.specs.Refusals.{refusal_of};
ghost use Rattle.metainfo.specs.Rules as specs;
ghost use Rattle.metainfo.specs.Tests.{is_string, is_dict};

use crate::fields::{integer_in, is_dict, is_list, sought, value_in};
use crate::{Key, MetaErr};
use bencode_core::BenSlice;
use dl_kinds::{NoMemory, Text, Texts};
use span_map::{FileLen, Layout, LayoutErr, MAX_PARTS};
use std::alloc::Global;

#[tactic(auto, unfolding(crate::specs::Rules::len_in))]
fn len_in(dict: &BenSlice<'_>) -> Result<u64, MetaErr>
    ensures { Gives (λ len. len) refusal_of result (specs.len_in dict.now) }
{
    match u64::try_from(integer_in(dict, Key::Length)?) {
        Ok(len) => Ok(len),
        Err(_) => Err(MetaErr::BadKind(Key::Length)),
    }
}

// The part as a text. What is none, which no path has, is kept as the empty text, which no path has either.
#[tactic(auto, using(crate::proofs::Parts::kept_text, crate::proofs::Parts::kept_empty))]
fn kept_text(alloc: Global, bytes: &[u8]) -> Result<Text, NoMemory>
    ensures { IfOk result (λ text. text ≡ kept_part bytes.now) }
{
    match std::str::from_utf8(bytes) {
        Ok(text) => Text::of(alloc, text),
        Err(_) => Text::of(alloc, ""),
    }
}

fn are_strings(items: &[BenSlice<'_>]) -> bool
    ensures { result ≡ list_all is_string items.now }
{
    items.iter().all(|item| item.string().is_some())
}

fn are_dicts(items: &[BenSlice<'_>]) -> bool
    ensures { result ≡ list_all is_dict items.now }
{
    items.iter().all(is_dict)
}

// The name and the parts behind it, of which there is one at least: without it there is no path. Nor is there one of too
// many parts, which would take much memory.
fn path_of(alloc: Global, name: &Text, items: &[BenSlice<'_>]) -> Result<Texts, NoMemory>
    requires text { is_utf8 name.now ≡ true }
    requires strings { list_all is_string items.now ≡ true }
    ensures { IfOk result (λ path. path
        ≡ kept_path (specs.path_of name.now (specs.strings_among items.now))) }
{
    let mut path = Texts::new(alloc);
    if items.is_empty() || items.len() >= MAX_PARTS {
        return Ok(path);
    }
    path.push(name.copy(alloc)?)?;
    for item in items {
        if let Some(part) = item.string() {
            path.push(kept_text(alloc, part)?)?;
        }
    }
    Ok(path)
}

#[tactic(auto, unfolding(crate::specs::Rules::path_in, crate::specs::Rules::parts_in))]
fn path_in(alloc: Global, name: &Text, dict: &BenSlice<'_>) -> Result<Texts, MetaErr>
    requires { is_utf8 name.now ≡ true }
    ensures { Gives (λ path. path) refusal_of result
        (kept_parts (specs.path_in name.now dict.now)) }
{
    let found = value_in(dict, Key::Path)?;
    if !is_list(&found) {
        return Err(MetaErr::BadKind(Key::Path));
    }
    let items = found.items(alloc)?;
    if !are_strings(&items) {
        return Err(MetaErr::BadKind(Key::Path));
    }
    Ok(path_of(alloc, name, &items)?)
}

#[tactic(auto, unfolding(crate::specs::Rules::file_in))]
fn file_in(alloc: Global, name: &Text, dict: &BenSlice<'_>) -> Result<FileLen, MetaErr>
    requires { is_utf8 name.now ≡ true }
    ensures { Gives (λ file. file) refusal_of result (kept (specs.file_in name.now dict.now)) }
{
    let len = len_in(dict)?;
    let path = path_in(alloc, name, dict)?;
    Ok(FileLen { path, len })
}

fn files_from(alloc: Global, name: &Text, dicts: &[BenSlice<'_>]) -> Result<Vec<FileLen>, MetaErr>
    requires { is_utf8 name.now ≡ true }
    ensures exact { Gives (λ files. files.items) refusal_of result
        (all_kept (specs.files_from name.now dicts.now)) }
    ensures count { IfOk result (λ files. length files.items ≡ length dicts.now) }
{
    let mut files = Vec::new(alloc);
    for dict in dicts {
        files.push(file_in(alloc, name, dict)?)?;
    }
    Ok(files)
}

#[tactic(auto, unfolding(crate::specs::Rules::several_of))]
fn several_of(alloc: Global, name: &Text, found: &BenSlice<'_>) -> Result<Vec<FileLen>, MetaErr>
    requires { is_utf8 name.now ≡ true }
    ensures exact { Gives (λ files. files.items) refusal_of result
        (all_kept (specs.several_of name.now found.now)) }
    ensures some { IfOk result (λ files. 1 ≤ length files.items) }
{
    if !is_list(found) {
        return Err(MetaErr::BadKind(Key::Files));
    }
    let dicts = found.items(alloc)?;
    if dicts.is_empty() || !are_dicts(&dicts) {
        return Err(MetaErr::BadKind(Key::Files));
    }
    files_from(alloc, name, &dicts)
}

#[tactic(auto, unfolding(crate::specs::Rules::single_in))]
fn single_in(alloc: Global, name: &Text, dict: &BenSlice<'_>) -> Result<Vec<FileLen>, MetaErr>
    requires { is_utf8 name.now ≡ true }
    ensures exact { Gives (λ files. files.items) refusal_of result
        (all_kept (specs.single_in name.now dict.now)) }
    ensures some { IfOk result (λ files. 1 ≤ length files.items) }
{
    let len = len_in(dict)?;
    let mut path = Texts::new(alloc);
    path.push(name.copy(alloc)?)?;
    let mut files = Vec::new(alloc);
    files.push(FileLen { path, len })?;
    Ok(files)
}

#[tactic(auto, unfolding(crate::specs::Rules::files_in))]
fn files_in(alloc: Global, name: &Text, dict: &BenSlice<'_>) -> Result<Vec<FileLen>, MetaErr>
    requires { is_utf8 name.now ≡ true }
    ensures exact { Gives (λ files. files.items) refusal_of result
        (all_kept (specs.files_in name.now dict.now)) }
    ensures some { IfOk result (λ files. 1 ≤ length files.items) }
{
    match (sought(dict, Key::Length), sought(dict, Key::Files)) {
        (None, None) => Err(MetaErr::Lacks(Key::Length)),
        (Some(_), Some(_)) => Err(MetaErr::BadKind(Key::Files)),
        (Some(_), None) => single_in(alloc, name, dict),
        (None, Some(found)) => several_of(alloc, name, &found),
    }
}

#[tactic(auto, unfolding(crate::specs::Rules::laid_out, crate::specs::Rules::paths_fit, crate::specs::Rules::sum_fits))]
fn laid_out(alloc: Global, files: Vec<FileLen>) -> Result<Layout, MetaErr>
    requires { 1 ≤ length files.items }
    ensures { Gives (λ layout. layout) refusal_of result (specs.laid_out files.items) }
{
    match Layout::new(alloc, files) {
        Ok(layout) => Ok(layout),
        Err(LayoutErr::BadPath(file)) => Err(MetaErr::BadPath(file)),
        Err(LayoutErr::Repeated(file)) => Err(MetaErr::BadPath(file)),
        Err(LayoutErr::TooLong) => Err(MetaErr::TooLarge(Key::Length)),
        Err(LayoutErr::NoMemory) => Err(MetaErr::NoMemory),
        Err(LayoutErr::Empty) => unreachable!(),
    }
}

#[tactic(auto, unfolding(crate::specs::Rules::layout_in))]
pub(crate) fn layout_in(alloc: Global, name: &Text, info: &BenSlice<'_>) -> Result<Layout, MetaErr>
    requires { is_utf8 name.now ≡ true }
    ensures { Gives (λ layout. layout) refusal_of result (specs.layout_in name.now info.now) }
{
    let files = files_in(alloc, name, info)?;
    laid_out(alloc, files)
}
