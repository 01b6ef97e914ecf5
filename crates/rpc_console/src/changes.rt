// What the methods ask for that change options.
ghost use Rattle.std.specs.Prelude.{◌≡◌, List, map, IfOk};
ghost use Rattle.serde_json.specs.Find.{as_object};
ghost use Rattle.serde_json.specs.View.{view};
ghost use Rattle.option_set.specs.declared.setting.Assigned.{Assigned};
ghost use Rattle.rpc_console.specs.Askings.{plain};
ghost use Rattle.rpc_console.specs.Changes.{IsGlobalChange, RefusesGlobalChange, IsChange, RefusesChange};
ghost use Rattle.rpc_console.specs.Options.{IfRefused, AreOptions, RefusesOptions};

use crate::calls::plain;
use crate::options::{OptionUse, options_of};
use crate::params::key_in;
use crate::{Asking, RpcErr};
use dl_kinds::GidKey;
use machine_core::Call;
use rpc_envelope::RpcFault;
use serde_json::Value;
use std::alloc::Global;

fn global_change(alloc: Global, value: &Value) -> Result<Asking, RpcErr>
    ensures ok { IfOk result (λ asking. (options : List Assigned)
        × AreOptions OptionUse.ChangingGlobally (as_object (view value.now)) options
        × (asking ≡ plain (Call.ChangeGlobalOption options))) }
    ensures refused { IfRefused result
        (RefusesOptions OptionUse.ChangingGlobally (as_object (view value.now))) }
{
    match options_of(alloc, OptionUse::ChangingGlobally, value) {
        Ok(options) => Ok(plain(Call::ChangeGlobalOption { options })),
        Err(error) => Err(error),
    }
}

/// `aria2.changeGlobalOption`: options.
pub fn global_change_asking(alloc: Global, params: &[Value]) -> Result<Asking, RpcErr>
    ensures ok { IfOk result (IsGlobalChange (map view params.now)) }
    ensures refused { IfRefused result (RefusesGlobalChange (map view params.now)) }
{
    match params {
        [value] => global_change(alloc, value),
        _ => Err(RpcErr::Refused(RpcFault::BadParams)),
    }
}

fn change(alloc: Global, key: GidKey, value: &Value) -> Result<Asking, RpcErr>
    ensures ok { IfOk result (λ asking. (options : List Assigned)
        × AreOptions OptionUse.Changing (as_object (view value.now)) options
        × (asking ≡ plain (Call.ChangeOption key options))) }
    ensures refused { IfRefused result
        (RefusesOptions OptionUse.Changing (as_object (view value.now))) }
{
    match options_of(alloc, OptionUse::Changing, value) {
        Ok(options) => Ok(plain(Call::ChangeOption { key, options })),
        Err(error) => Err(error),
    }
}

/// `aria2.changeOption`: a gid, and options.
pub fn change_asking(alloc: Global, params: &[Value]) -> Result<Asking, RpcErr>
    ensures ok { IfOk result (IsChange (map view params.now)) }
    ensures refused { IfRefused result (RefusesChange (map view params.now)) }
{
    match params {
        [first, second] => match key_in(first) {
            Some(key) => change(alloc, key, second),
            None => Err(RpcErr::Refused(RpcFault::BadParams)),
        },
        _ => Err(RpcErr::Refused(RpcFault::BadParams)),
    }
}
