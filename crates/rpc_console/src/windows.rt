// What the methods ask for that list downloads.
ghost use Rattle.std.specs.Prelude.{◌≡◌, map, IfOk};
ghost use Rattle.serde_json.specs.View.{view};
ghost use Rattle.rpc_console.specs.Askings as spec;

use crate::calls::with_keys;
use crate::params::{count_in, keys_at, whole_in};
use crate::{Asking, WindowMethod};
use dl_kinds::NoMemory;
use machine_core::Call;
use serde_json::Value;
use std::alloc::Global;

/// `aria2.tellActive`: keys.
pub fn active_asking(alloc: Global, params: &[Value]) -> Result<Option<Asking>, NoMemory>
    ensures { IfOk result (λ asking. asking ≡ spec.active_asking (map view params.now)) }
{
    Ok(with_keys(Call::TellActive, keys_at(alloc, params)?))
}

/// `aria2.tellWaiting` and `aria2.tellStopped`: an offset, how many, and keys.
pub fn window_asking(
    alloc: Global,
    method: WindowMethod,
    params: &[Value],
) -> Result<Option<Asking>, NoMemory>
    ensures { IfOk result (λ asking. asking ≡ spec.window_asking method (map view params.now)) }
{
    match params {
        [first, second, others @ ..] => match (whole_in(first), count_in(second)) {
            (Some(offset), Some(num)) => {
                Ok(with_keys(method.call(offset, num), keys_at(alloc, others)?))
            }
            _ => Ok(None),
        },
        _ => Ok(None),
    }
}
