// Values by the keys of a dictionary.
ghost use Rattle.std.specs.Prelude.{◌≡◌, ◌≤◌, length, IfSome, IfOk};
ghost use Rattle.dl_kinds.specs.Answers.{Gives};
ghost use Rattle.bencode_core.specs.Placed.{StandsIn};
ghost use Rattle.metainfo.specs.Tests as tests;
ghost use Rattle.meta_v2.specs.Refusals as specs;

use crate::{KeyV2, V2Err};
use bencode_core::{BenKind, BenSlice};

/// How the key is written.
fn text_of(key: KeyV2) -> &'static [u8]
    ensures { result.now ≡ specs.key_text key }
{
    match key {
        KeyV2::Info => b"info",
        KeyV2::MetaVersion => b"meta version",
        KeyV2::Name => b"name",
        KeyV2::PieceLength => b"piece length",
        KeyV2::FileTree => b"file tree",
        KeyV2::Length => b"length",
        KeyV2::PiecesRoot => b"pieces root",
        KeyV2::PieceLayers => b"piece layers",
    }
}

/// The value of the key, if it is there.
pub(crate) fn sought<'a>(dict: &BenSlice<'a>, key: KeyV2) -> Option<BenSlice<'a>>
    ensures found { result ≡ specs.sought key dict.now }
    ensures slice { IfSome result (StandsIn dict.now) }
{
    dict.member(text_of(key))
}

pub(crate) fn value_in<'a>(dict: &BenSlice<'a>, key: KeyV2) -> Result<BenSlice<'a>, V2Err>
    ensures exact { Gives (λ found. found) specs.refusal_of result (specs.value_in key dict.now) }
    ensures slice { IfOk result (StandsIn dict.now) }
{
    sought(dict, key).ok_or(V2Err::Lacks(key))
}

#[tactic(auto, unfolding(crate::specs::Refusals::string_in))]
pub(crate) fn string_in<'a>(dict: &BenSlice<'a>, key: KeyV2) -> Result<&'a [u8], V2Err>
    ensures { Gives (λ bytes. bytes.now) specs.refusal_of result (specs.string_in key dict.now) }
{
    value_in(dict, key)?.string().ok_or(V2Err::BadKind(key))
}

#[tactic(auto, unfolding(crate::specs::Refusals::integer_in))]
pub(crate) fn integer_in(dict: &BenSlice<'_>, key: KeyV2) -> Result<i64, V2Err>
    ensures { Gives (λ number. number) specs.refusal_of result (specs.integer_in key dict.now) }
{
    value_in(dict, key)?.integer().ok_or(V2Err::BadKind(key))
}

pub(crate) fn is_dict(found: &BenSlice<'_>) -> bool
    ensures { result ≡ tests.is_dict found.now }
{
    matches!(found.kind(), BenKind::Dict)
}
