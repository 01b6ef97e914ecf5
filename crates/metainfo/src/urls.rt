// The URL of a file at a web seed (BEP 19).
ghost use Rattle.std.specs.Prelude.{◌≡◌, ◌++◌, ◌==◌, ◌<◌, ◌∷◌, Some, length, map, slice_get, IfOk, OnOk, string_bytes, if◌then◌else◌};
ghost use Rattle.std.specs.List.{join_with_byte};
ghost use Rattle.span_map.specs.declared.paths.TheConstants.{SLASH};
ghost use Rattle.metainfo.specs.Urls as specs;

use dl_kinds::{NoMemory, Texts};
use percent_encoding::{AsciiSet, NON_ALPHANUMERIC, ascii_set, utf8_percent_encode};
use std::alloc::Global;

/// What is escaped in a part of a path: all but the unreserved characters of RFC 3986, section 2.3.
const RESERVED: AsciiSet = ascii_set!(
    NON_ALPHANUMERIC
        .remove(b'-')
        .remove(b'.')
        .remove(b'_')
        .remove(b'~')
);

fn push_escaped(url: &mut String, part: &str) -> Result<(), NoMemory>
    ensures { OnOk result (string_bytes url.new ≡ string_bytes url.old ++ specs.escaped part.now) }
{
    utf8_percent_encode(part, RESERVED).append_to(url)
}

// Adds the part of this number, behind a slash if it isn't the first.
fn push_part(url: &mut String, place: usize, part: &str) -> Result<(), NoMemory>
    ensures { OnOk result (string_bytes url.new
        ≡ string_bytes url.old
        ++ (if place == 0 then specs.escaped part.now else SLASH ∷ specs.escaped part.now)) }
{
    if place > 0 {
        url.push('/')?;
    }
    push_escaped(url, part)
}

fn push_path(url: &mut String, path: &Texts) -> Result<(), NoMemory>
    ensures { OnOk result (string_bytes url.new
        ≡ string_bytes url.old ++ join_with_byte SLASH (map specs.escaped path.now)) }
{
    for place in 0..path.len() {
        push_part(url, place, path.at(place).as_str())?;
    }
    Ok(())
}

fn ends_in_slash(base: &str) -> bool
    ensures { result ≡ specs.ends_in_slash base.now }
{
    base.as_bytes().ends_with(b"/")
}

/// The URL of the file of this path at a seed.
pub(crate) fn url_of(alloc: Global, base: &str, path: &Texts) -> Result<String, NoMemory>
    ensures { IfOk result (λ url. string_bytes url ≡ specs.url_of base.now path.now) }
{
    let slashed = ends_in_slash(base);
    let mut url = String::from_str(alloc, base)?;
    if path.len() == 1 && !slashed {
        return Ok(url);
    }
    if !slashed {
        url.push('/')?;
    }
    push_path(&mut url, path)?;
    Ok(url)
}
