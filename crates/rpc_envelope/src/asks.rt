// What a value of JSON asks for.
ghost use Rattle.std.specs.Prelude.{◌≡◌, option_map, option_and_then, codes, map};
ghost use Rattle.std.specs.List.{list_all};
ghost use Rattle.serde_json.specs.Find.{get};
ghost use Rattle.serde_json.specs.View.{view};
ghost use Rattle.rpc_envelope.specs.Asks as spec;
ghost use Rattle.rpc_envelope.specs.Outcomes.{value_if_any, seen_if_any};

use serde_json::Value;

fn is_text(found: Option<&Value>, want: &str) -> bool
    ensures { result ≡ spec.is_text want.now (value_if_any found.entry) }
{
    match found {
        Some(value) => match value.as_str() {
            Some(text) => text == want,
            None => false,
        },
        None => false,
    }
}

fn is_id(value: &Value) -> bool
    ensures { result ≡ spec.is_id (view value.now) }
{
    match value {
        Value::Null | Value::String(_) => true,
        Value::Number(number) => !number.is_f64(),
        Value::Bool(_) | Value::Array(_) | Value::Object(_) => false,
    }
}

fn is_list_or_object(value: &Value) -> bool
    ensures { result ≡ spec.is_list_or_object (view value.now) }
{
    match value {
        Value::Array(_) | Value::Object(_) => true,
        Value::Null | Value::String(_) | Value::Number(_) | Value::Bool(_) => false,
    }
}

/// The text of a member.
pub(crate) fn text_at<'v>(key: &str, value: &'v Value) -> Option<&'v str>
    ensures { option_map (λ s. s.now) result ≡ spec.text_at key.now (view value.now) }
{
    value.get(key)?.as_str()
}

fn has_id_if_any(value: &Value) -> bool
    ensures { result ≡ spec.is_absent_or spec.is_id (get (codes "id") (view value.now)) }
{
    match value.get("id") {
        Some(id) => is_id(id),
        None => true,
    }
}

fn has_params_if_any(value: &Value) -> bool
    ensures { result
        ≡ spec.is_absent_or spec.is_list_or_object (get (codes "params") (view value.now)) }
{
    match value.get("params") {
        Some(params) => is_list_or_object(params),
        None => true,
    }
}

#[tactic(auto, unfolding(crate::specs::Asks::is_request))]
pub(crate) fn is_request(value: &Value) -> bool
    ensures { result ≡ spec.is_request (view value.now) }
{
    is_text(value.get("jsonrpc"), "2.0")
        && text_at("method", value).is_some()
        && has_params_if_any(value)
        && has_id_if_any(value)
}

// The items of a list, of what is there.
#[tactic(auto, using(crate::proofs::Lists::list_of_items))]
fn items_in(found: Option<&Value>) -> Option<&[Value]>
    ensures { seen_if_any result ≡ option_and_then spec.list_if (value_if_any found.entry) }
{
    match found {
        Some(value) => match value.as_array() {
            Some(list) => Some(list.as_slice()),
            None => None,
        },
        None => None,
    }
}

/// The parameters: none where they are absent, and no list where they are an object.
pub(crate) fn params_of(value: &Value) -> Option<&[Value]>
    ensures { seen_if_any result ≡ spec.params_of (get (codes "params") (view value.now)) }
{
    match value.get("params") {
        Some(params) => items_in(Some(params)),
        None => Some(&[]),
    }
}

fn is_token(value: &Value) -> bool
    ensures { result ≡ spec.is_token (view value.now) }
{
    match value.as_str() {
        Some(text) => text.as_bytes().starts_with(b"token:"),
        None => false,
    }
}

// Whether it may be one call of several.
fn is_call_part(value: &Value) -> bool
    ensures { result ≡ spec.is_call_part (view value.now) }
{
    text_at("methodName", value).is_some() && items_in(value.get("params")).is_some()
}

fn are_parts(list: &[Value]) -> bool
    ensures { result ≡ list_all (λ v. spec.is_call_part (view v)) list.now }
{
    list.iter().all(|value| is_call_part(value))
}

#[tactic(auto, using(crate::proofs::Lists::all_seen))]
fn parts_if_all(list: &[Value]) -> Option<&[Value]>
    ensures { seen_if_any result ≡ spec.parts_if_all (map view list.now) }
{
    if are_parts(list) { Some(list) } else { None }
}

/// Parameters without a token in front.
pub fn untokened(list: &[Value]) -> &[Value]
    ensures { map view result.now ≡ spec.untokened (map view list.now) }
{
    match list {
        [first, others @ ..] if is_token(first) => others,
        _ => list,
    }
}

// The one list.
fn list_in(list: &[Value]) -> Option<&[Value]>
    ensures { seen_if_any result ≡ spec.list_in (map view list.now) }
{
    if list.len() != 1 {
        return None;
    }
    items_in(Some(&list[0]))
}

/// The parts of a multicall, where its parameters are one list of calls.
pub(crate) fn parts_of(params: Option<&[Value]>) -> Option<&[Value]>
    ensures { seen_if_any result ≡ spec.parts_of (seen_if_any params.entry) }
{
    match params {
        Some(list) => match list_in(untokened(list)) {
            Some(parts) => parts_if_all(parts),
            None => None,
        },
        None => None,
    }
}
