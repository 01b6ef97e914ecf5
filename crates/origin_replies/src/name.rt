// The file that a target names.
ghost use Rattle.std.specs.Prelude.{◌≡◌, ◌<◌, ◌+◌, length, map, IfOk, OnOk, IfSome, option_map, string_bytes, position, ◌==◌};
ghost use Rattle.percent_encoding.specs.Percent.{percent_decode};
ghost use Rattle.span_map.specs.declared.paths.TheConstants.{SLASH};
ghost use Rattle.origin_replies.specs.Names as specs;
ghost use Rattle.origin_replies.specs.Segments.{Cuts, HasPutBehind, HavePutBehind, IsPartOf, segments_in};

use dl_kinds::{NoMemory, Text};
use percent_encoding::percent_decode;
use span_map::{SLASH, is_valid_part};
use std::alloc::Global;

/// What stands before the query of a target.
pub const QUESTION_MARK: u8 = b'?';

fn place_of(bytes: &[u8], mark: u8) -> Option<usize>
    ensures place { result ≡ position (λ byte. byte == mark) bytes.now }
    ensures within { IfSome result (λ place. place < length bytes.now) }
{
    bytes.iter().position(|byte| *byte == mark)
}

// What stands before the query.
fn path_in(target: &[u8]) -> &[u8]
    ensures { result.now ≡ specs.path_in target.now }
{
    match place_of(target, QUESTION_MARK) {
        Some(place) => &target[..place],
        None => target,
    }
}

// What stands before the first slash and behind it.
fn cut(path: &[u8]) -> (&[u8], Option<&[u8]>)
    ensures cuts { Cuts path.now result.0.now (option_map (λ rest. rest.now) result.1) }
    ensures shorter { IfSome result.1 (λ rest. length rest.now < length path.now) }
{
    match place_of(path, SLASH) {
        Some(place) => (&path[..place], Some(&path[place + 1..])),
        None => (path, None),
    }
}

// The text of a segment, where it may be a part.
fn part_of(alloc: Global, segment: &[u8]) -> Result<Option<Text>, NoMemory>
    ensures { IfOk result (IsPartOf segment.now) }
{
    let mut part = Vec::new(alloc);
    percent_decode(segment).append_to(&mut part)?;
    if !is_valid_part(&part) {
        return Ok(None);
    }
    match std::str::from_utf8(&part) {
        Ok(text) => Ok(Some(Text::of(alloc, text)?)),
        // A part of a path is UTF-8.
        Err(_) => unreachable!(),
    }
}

// Puts a slash and the text of a segment behind the name. Tells whether it may be a part.
fn put_behind(alloc: Global, name: &mut String, segment: &[u8]) -> Result<bool, NoMemory>
    ensures { IfOk result (λ may. HasPutBehind segment.now (string_bytes name.old)
        may (string_bytes name.new)) }
{
    let Some(part) = part_of(alloc, segment)? else {
        return Ok(false);
    };
    name.push('/')?;
    name.push_str(part.as_str())?;
    Ok(true)
}

// The parts behind the first one.
fn put_others(alloc: Global, name: &mut String, mut behind: Option<&[u8]>) -> Result<bool, NoMemory>
    ensures { IfOk result (λ may. HavePutBehind (segments_in (option_map (λ rest. rest.now) behind.entry))
        (string_bytes name.old) may (string_bytes name.new)) }
{
    while let Some(path) = behind {
        let (segment, others) = cut(path);
        if !put_behind(alloc, name, segment)? {
            return Ok(false);
        }
        behind = others;
    }
    Ok(true)
}

fn name_of_path(alloc: Global, path: &[u8]) -> Result<Option<Text>, NoMemory>
    ensures { IfOk result (λ name. name ≡ specs.name_of_parts (specs.parts_between path.now)) }
{
    let (first, behind) = cut(path);
    let Some(first) = part_of(alloc, first)? else {
        return Ok(None);
    };
    let mut name = String::from_str(alloc, first.as_str())?;
    if !put_others(alloc, &mut name, behind)? {
        return Ok(None);
    }
    Ok(Some(Text::of(alloc, name.as_str())?))
}

/// The name of the file of a target of a request, below the folder that is served: its path without the query, cut at each
/// `/` and then percent-decoded part by part, with `/` between the parts. None is for a target that doesn't begin with `/`,
/// and where some part may be the name of no folder or file.
pub fn name_of(alloc: Global, target: &str) -> Result<Option<Text>, NoMemory>
    ensures { IfOk result (λ name. name ≡ specs.name_of target.now) }
{
    match path_in(target.as_bytes()).strip_prefix(b"/") {
        Some(path) => name_of_path(alloc, path),
        None => Ok(None),
    }
}
