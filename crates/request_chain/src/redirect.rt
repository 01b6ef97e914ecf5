// Where a moved resource is.
ghost use Rattle.std.specs.Prelude.{◌≡◌, List, ℕ, None, Some, IfOk, codes};
ghost use Rattle.url.specs.Parser.{parse_url};
ghost use Rattle.http_heads.specs.Fields.{sole};
ghost use Rattle.range_http.specs.Fields.{values_of};
ghost use Rattle.request_chain.specs.Redirects.{location_text, joined_to, moved_to};

use dl_kinds::{NoMemory, Text};
use http_heads::Head;
use range_http::location;
use std::alloc::Global;
use url::{ParseError, Url};

/// The reference, joined to the URL.
fn join(alloc: Global, base: &Url, reference: &str) -> Result<Option<Text>, NoMemory>
    ensures { IfOk result
        (λ joined. joined ≡ location_text (parse_url (Some base.now) reference.now)) }
{
    match base.join(reference) {
        Ok(joined) => Ok(Some(Text::of(alloc, joined.as_str())?)),
        Err(ParseError::OutOfMemory | ParseError::Overflow) => Err(NoMemory),
        Err(_) => Ok(None),
    }
}

fn joined(alloc: Global, url: &str, reference: &str) -> Result<Option<Text>, NoMemory>
    ensures { IfOk result (λ joined. joined ≡ joined_to (parse_url None url.now) reference.now) }
{
    match Url::parse(alloc, url) {
        Ok(base) => join(alloc, &base, reference),
        Err(ParseError::OutOfMemory | ParseError::Overflow) => Err(NoMemory),
        Err(_) => Ok(None),
    }
}

/// Where the head of a reply says that the resource is, which was asked for at this URL.
pub(crate) fn target(alloc: Global, url: &str, head: &Head) -> Result<Option<Text>, NoMemory>
    ensures { IfOk result (λ target. (text : List ℕ)
        → sole (values_of head.now (codes "location")) ≡ Some text
        → target ≡ moved_to url.now text) }
{
    match location(head) {
        Some(text) => joined(alloc, url, text),
        None => Ok(None),
    }
}
