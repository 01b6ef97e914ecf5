// The parameters of methods.
ghost use Rattle.std.specs.Prelude.{◌≡◌, map, option_map, IfOk};
ghost use Rattle.serde_json.specs.View.{view};
ghost use Rattle.rpc_console.specs.Params as spec;

use crate::Keys;
use dl_kinds::{GidKey, NoMemory, Text, Texts};
use dl_queue::How;
use serde_json::Value;
use std::alloc::Global;

fn key_of(text: &str) -> Option<GidKey>
    ensures { result ≡ spec.key_of text.now }
{
    GidKey::read(text)
}

pub(crate) fn key_in(value: &Value) -> Option<GidKey>
    ensures { result ≡ spec.key_in (view value.now) }
{
    match value.as_str() {
        Some(text) => key_of(text),
        None => None,
    }
}

pub(crate) fn whole_in(value: &Value) -> Option<i64>
    ensures { result ≡ spec.whole_in (view value.now) }
{
    value.as_i64()
}

fn if_small(number: u64) -> Option<u32>
    ensures { result ≡ spec.if_small number }
{
    if number < 4_294_967_296 {
        Some(number as u32)
    } else {
        None
    }
}

pub(crate) fn count_in(value: &Value) -> Option<u32>
    ensures { result ≡ spec.count_in (view value.now) }
{
    match value.as_u64() {
        Some(number) => if_small(number),
        None => None,
    }
}

fn how_of(text: &str) -> Option<How>
    ensures { result ≡ spec.how_of text.now }
{
    if text == "POS_SET" {
        Some(How::Set)
    } else if text == "POS_CUR" {
        Some(How::Cur)
    } else if text == "POS_END" {
        Some(How::End)
    } else {
        None
    }
}

pub(crate) fn how_in(value: &Value) -> Option<How>
    ensures { result ≡ spec.how_in (view value.now) }
{
    match value.as_str() {
        Some(text) => how_of(text),
        None => None,
    }
}

fn texts_in(alloc: Global, list: &[Value]) -> Result<Option<Texts>, NoMemory>
    ensures { IfOk result (λ texts. texts ≡ spec.texts_in (map view list.now)) }
{
    let mut texts = Texts::new(alloc);
    for value in list {
        match value.as_str() {
            Some(text) => texts.push(Text::of(alloc, text)?)?,
            None => return Ok(None),
        }
    }
    Ok(Some(texts))
}

fn these(texts: Option<Texts>) -> Option<Keys>
    ensures { result ≡ option_map Keys.These texts }
{
    match texts {
        Some(texts) => Some(Keys::These(texts)),
        None => None,
    }
}

#[tactic(auto, using(crate::proofs::Values::list_of_items))]
pub(crate) fn text_list(alloc: Global, value: &Value) -> Result<Option<Texts>, NoMemory>
    ensures { IfOk result (λ texts. texts ≡ spec.text_list (view value.now)) }
{
    match value.as_array() {
        Some(list) => texts_in(alloc, list),
        None => Ok(None),
    }
}

fn keys_in(alloc: Global, value: &Value) -> Result<Option<Keys>, NoMemory>
    ensures { IfOk result (λ keys. keys ≡ spec.keys_in (view value.now)) }
{
    Ok(these(text_list(alloc, value)?))
}

/// The last parameter, which may be left out.
pub(crate) fn keys_at(alloc: Global, params: &[Value]) -> Result<Option<Keys>, NoMemory>
    ensures { IfOk result (λ keys. keys ≡ spec.keys_at (map view params.now)) }
{
    match params {
        [] => Ok(Some(Keys::All)),
        [value] => keys_in(alloc, value),
        _ => Ok(None),
    }
}
