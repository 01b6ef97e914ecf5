// What methods ask for that name a download, or nothing.
ghost use Rattle.std.specs.Prelude.{◌≡◌, map, option_map, IfOk};
ghost use Rattle.serde_json.specs.View.{view};
ghost use Rattle.rpc_console.specs.Askings as spec;

use crate::params::{how_in, key_in, keys_at, whole_in};
use crate::{Asking, BareMethod, KeyMethod, Keys};
use dl_kinds::NoMemory;
use machine_core::Call;
use serde_json::Value;
use std::alloc::Global;

/// A call whose reply is shown whole.
pub(crate) fn plain(call: Call) -> Asking
    ensures { result ≡ spec.plain call }
{
    Asking::One {
        call,
        keys: Keys::All,
    }
}

/// What a method without parameters asks for. None is for parameters that aren't the method's, here and below.
pub fn bare_asking(method: BareMethod, params: &[Value]) -> Option<Asking>
    ensures { result ≡ spec.bare_asking method (map view params.now) }
{
    if params.is_empty() {
        Some(plain(method.call()))
    } else {
        None
    }
}

/// What a method asks for whose one parameter is a gid.
pub fn keyed_asking(method: KeyMethod, params: &[Value]) -> Option<Asking>
    ensures { result ≡ spec.keyed_asking method (map view params.now) }
{
    match params {
        [value] => match key_in(value) {
            Some(key) => Some(plain(method.call(key))),
            None => None,
        },
        _ => None,
    }
}

/// `aria2.tellStatus`: a gid, and keys.
pub fn status_asking(alloc: Global, params: &[Value]) -> Result<Option<Asking>, NoMemory>
    ensures { IfOk result (λ asking. asking ≡ spec.status_asking (map view params.now)) }
{
    match params {
        [value, others @ ..] => match key_in(value) {
            Some(key) => Ok(with_keys(Call::TellStatus { key }, keys_at(alloc, others)?)),
            None => Ok(None),
        },
        [] => Ok(None),
    }
}

/// A call with the keys of its reply, where these could be read.
pub(crate) fn with_keys(call: Call, keys: Option<Keys>) -> Option<Asking>
    ensures { result ≡ option_map (Asking.One call) keys }
{
    match keys {
        Some(keys) => Some(Asking::One { call, keys }),
        None => None,
    }
}

/// `aria2.changePosition`: a gid, a position, and from where it counts.
pub fn position_asking(params: &[Value]) -> Option<Asking>
    ensures { result ≡ spec.position_asking (map view params.now) }
{
    match params {
        [first, second, third] => {
            let key = key_in(first)?;
            let pos = whole_in(second)?;
            let how = how_in(third)?;
            Some(plain(Call::ChangePosition { key, pos, how }))
        }
        _ => None,
    }
}
