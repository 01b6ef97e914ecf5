// Values by the keys of a dictionary.
ghost use Rattle.std.specs.Prelude.{◌≡◌, ◌≤◌, length, IfSome, IfOk};
ghost use Rattle.dl_kinds.specs.Answers.{Gives};
ghost use Rattle.bencode_core.specs.Value.{spelling};
ghost use Rattle.bencode_core.specs.Placed.{StandsIn};
ghost use Rattle.metainfo.specs.Refusals as specs;
ghost use Rattle.metainfo.specs.Tests as tests;

use crate::{Key, MetaErr};
use bencode_core::{BenKind, BenSlice};

/// How the key is written.
fn text_of(key: Key) -> &'static [u8]
    ensures { result.now ≡ specs.key_text key }
{
    match key {
        Key::Info => b"info",
        Key::Name => b"name",
        Key::PieceLength => b"piece length",
        Key::Pieces => b"pieces",
        Key::Length => b"length",
        Key::Files => b"files",
        Key::Path => b"path",
        Key::UrlList => b"url-list",
    }
}

/// The value of the key, if it is there.
pub(crate) fn sought<'a>(dict: &BenSlice<'a>, key: Key) -> Option<BenSlice<'a>>
    ensures found { result ≡ specs.sought key dict.now }
    ensures slice { IfSome result (StandsIn dict.now) }
{
    dict.member(text_of(key))
}

pub(crate) fn value_in<'a>(dict: &BenSlice<'a>, key: Key) -> Result<BenSlice<'a>, MetaErr>
    ensures exact { Gives (λ found. found) specs.refusal_of result (specs.value_in key dict.now) }
    ensures slice { IfOk result (StandsIn dict.now) }
{
    sought(dict, key).ok_or(MetaErr::Lacks(key))
}

#[tactic(auto, unfolding(crate::specs::Refusals::string_in), using(crate::proofs::Lengths::part_len, crate::proofs::Lengths::string_len))]
pub(crate) fn string_in<'a>(dict: &BenSlice<'a>, key: Key) -> Result<&'a [u8], MetaErr>
    ensures exact { Gives (λ bytes. bytes.now) specs.refusal_of result
        (specs.string_in key dict.now) }
    ensures within { IfOk result (λ bytes. length bytes.now ≤ length (spelling dict.now.value)) }
{
    value_in(dict, key)?.string().ok_or(MetaErr::BadKind(key))
}

#[tactic(auto, unfolding(crate::specs::Refusals::integer_in))]
pub(crate) fn integer_in(dict: &BenSlice<'_>, key: Key) -> Result<i64, MetaErr>
    ensures { Gives (λ number. number) specs.refusal_of result (specs.integer_in key dict.now) }
{
    value_in(dict, key)?.integer().ok_or(MetaErr::BadKind(key))
}

pub(crate) fn is_dict(found: &BenSlice<'_>) -> bool
    ensures { result ≡ tests.is_dict found.now }
{
    matches!(found.kind(), BenKind::Dict)
}

pub(crate) fn is_list(found: &BenSlice<'_>) -> bool
    ensures { result ≡ tests.is_list found.now }
{
    matches!(found.kind(), BenKind::List)
}
