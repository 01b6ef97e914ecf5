// The name of a file by its URL.
ghost use Rattle.std.specs.Prelude.{◌≡◌, IfOk};
ghost use Rattle.link_source.specs.Endpoint.{IsUsable};
ghost use Rattle.percent_encoding.specs.Percent.{percent_decode};
ghost use Rattle.span_map.specs.Paths.{IsValidPart};
ghost use Rattle.url_names.specs.UrlNames as specs;

use dl_kinds::{NoMemory, Text};
use percent_encoding::percent_decode;
use span_map::{SLASH, is_valid_part};
use std::alloc::Global;
use url::Url;

fn behind_last_slash(bytes: &[u8]) -> &[u8]
    ensures { result.now ≡ specs.behind_last_slash bytes.now }
{
    let mut start = 0;
    for (at, byte) in bytes.iter().enumerate() {
        if *byte == SLASH {
            start = at + 1;
        }
    }
    &bytes[start..]
}

// A segment that may name a file, or `index.html`.
fn named(alloc: Global, segment: &[u8]) -> Result<Text, NoMemory>
    ensures named { IfOk result (specs.IsNameBy segment.now) }
    ensures valid { IfOk result IsValidPart }
{
    if !is_valid_part(segment) {
        return Text::of(alloc, "index.html");
    }
    match std::str::from_utf8(segment) {
        Ok(text) => Text::of(alloc, text),
        // A part of a path is UTF-8.
        Err(_) => Err(NoMemory),
    }
}

fn name_of_path(alloc: Global, path: &str) -> Result<Text, NoMemory>
    ensures named { IfOk result
        (specs.IsNameBy (percent_decode (specs.behind_last_slash path.now))) }
    ensures valid { IfOk result IsValidPart }
{
    let mut segment = Vec::new(alloc);
    percent_decode(behind_last_slash(path.as_bytes())).append_to(&mut segment)?;
    named(alloc, &segment)
}

/// The name of the file at a URL: the last segment of its path, percent-decoded, and `index.html` where that may name no
/// file.
pub fn name_of_url(alloc: Global, uri: &str) -> Result<Text, NoMemory>
    requires { IsUsable uri.now }
    ensures named { IfOk result (specs.IsNameOfUrl uri.now) }
    ensures valid { IfOk result IsValidPart }
{
    match Url::parse(alloc, uri) {
        Ok(url) => name_of_path(alloc, url.path()),
        // A usable URL is one by the parser.
        Err(_) => Err(NoMemory),
    }
}
