// What each method asks for.
ghost use Rattle.std.specs.Prelude.{◌≡◌, map, option_map, IfOk, None, Some};
ghost use Rattle.serde_json.specs.View.{view};
ghost use Rattle.rpc_envelope.specs.Outcomes.{called, seen_if_any};
ghost use Rattle.rpc_envelope.specs.declared.fault.RpcFault.TheVariants.{BadParams};
ghost use Rattle.rpc_console.specs.Dispatch as spec;
ghost use Rattle.rpc_console.specs.Dispatch.{IsAskingOf, RefusesAskingOf, InvocationAsks, RefusesInvocation};
ghost use Rattle.rpc_console.specs.Laws.{IsLawfulAsking};
ghost use Rattle.rpc_console.specs.Options.{IfRefused};

use crate::calls::{bare_asking, keyed_asking, position_asking, status_asking};
use crate::changes::{change_asking, global_change_asking};
use crate::windows::{active_asking, window_asking};
use crate::{Asking, Method, RpcErr, admission, askings_are_lawful, torrent_asking, uri_asking};
use dl_kinds::NoMemory;
use rpc_envelope::RpcFault;
use serde_json::Value;
use std::alloc::Global;

fn list_asking(params: &[Value]) -> Option<Asking>
    ensures { result ≡ spec.list_asking (map view params.now) }
{
    if params.is_empty() {
        Some(Asking::Methods)
    } else {
        None
    }
}

fn asking_without_options(
    alloc: Global,
    method: Method,
    params: &[Value],
) -> Result<Option<Asking>, NoMemory>
    ensures { IfOk result (λ asking. asking
        ≡ spec.asking_without_options method (map view params.now)) }
{
    match method {
        Method::Bare(method) => Ok(bare_asking(method, params)),
        Method::ChangePosition => Ok(position_asking(params)),
        Method::Keyed(method) => Ok(keyed_asking(method, params)),
        Method::ListMethods => Ok(list_asking(params)),
        Method::TellActive => active_asking(alloc, params),
        Method::TellStatus => status_asking(alloc, params),
        Method::Window(method) => window_asking(alloc, method, params),
        _ => Ok(None),
    }
}

fn or_bad_params(asking: Option<Asking>) -> Result<Asking, RpcErr>
    ensures ok { IfOk result (λ found. asking ≡ Some found) }
    ensures refused { IfRefused result (λ fault. (asking ≡ None) × (fault ≡ BadParams)) }
{
    match asking {
        Some(asking) => Ok(asking),
        None => Err(RpcErr::Refused(RpcFault::BadParams)),
    }
}

/// What a method asks for, with these parameters behind a token. An error but want of memory is the first of: the parameters
/// aren't the method's; a URI can't be asked, or of the URIs of `addUri` there are none or too many; an option isn't set; a
/// metainfo file can't be used, or of its seeds and the URIs there are none or too many.
pub fn asking_of(alloc: Global, method: Method, params: &[Value]) -> Result<Asking, RpcErr>
    ensures ok { IfOk result (IsAskingOf method (map view params.now)) }
    ensures refused { IfRefused result (RefusesAskingOf method (map view params.now)) }
{
    match method {
        Method::AddTorrent => torrent_asking(alloc, params),
        Method::AddUri => uri_asking(alloc, params),
        Method::ChangeGlobalOption => global_change_asking(alloc, params),
        Method::ChangeOption => change_asking(alloc, params),
        _ => or_bad_params(asking_without_options(alloc, method, params)?),
    }
}

/// What a call of a method asks for, where this secret is set, or none. Its parameters are none where they were an object. An
/// error but want of memory is the first fault of `admission`, and then of `asking_of`.
pub fn call_of(
    alloc: Global,
    name: &str,
    params: Option<&[Value]>,
    secret: Option<&str>,
) -> Result<Asking, RpcErr>
    ensures ok { IfOk result (InvocationAsks (option_map (λ s. s.now) secret.entry)
        (called name.now (seen_if_any params.entry))) }
    ensures refused { IfRefused result (RefusesInvocation (option_map (λ s. s.now) secret.entry)
        (called name.now (seen_if_any params.entry))) }
    ensures lawful { IfOk result IsLawfulAsking }
{
    askings_are_lawful();
    match admission(name, params, secret) {
        Ok((method, params)) => asking_of(alloc, method, params),
        Err(fault) => Err(RpcErr::Refused(fault)),
    }
}
