// What `aria2.addUri` asks for.
ghost use Rattle.std.specs.Prelude.{◌≡◌, ◌↔◌, ◌∷◌, All, IsTrue, IfOk, None, length, map};
ghost use Rattle.link_source.specs.Endpoint.{IsUsable};
ghost use Rattle.serde_json.specs.View.{view};
ghost use Rattle.rpc_console.specs.Options.{IfRefused};
ghost use Rattle.rpc_console.specs.Uris as spec;
ghost use Rattle.rpc_console.specs.Uris.{AddsUris, RefusesUris, IsUriAsking, RefusesUriAsking};

use crate::calls::plain;
use crate::further::{are_further, further_options, further_position};
use crate::params::text_list;
use crate::{Asking, RpcErr};
use dl_kinds::{MAX_MIRRORS, NoMemory, Texts};
use link_source::is_usable;
use machine_core::Call;
use rpc_envelope::RpcFault;
use serde_json::Value;
use std::alloc::Global;

/// Whether each of them leads to a mirror.
pub(crate) fn are_usable(alloc: Global, uris: &Texts) -> Result<bool, NoMemory>
    ensures { IfOk result (λ usable. IsTrue usable ↔ All IsUsable uris.now) }
{
    for place in 0..uris.len() {
        if !is_usable(alloc, uris.at(place).as_str())? {
            return Ok(false);
        }
    }
    Ok(true)
}

/// Why there may not be so many mirrors.
pub(crate) fn mirrors_fault(mirrors: u128) -> Option<RpcFault>
    ensures { result ≡ spec.mirrors_fault mirrors }
{
    if mirrors == 0 {
        Some(RpcFault::NoUsableUri)
    } else if mirrors > MAX_MIRRORS as u128 {
        Some(RpcFault::TooManyUris)
    } else {
        None
    }
}

// The call that adds a download of these mirrors, with options that it takes.
fn uri_call(alloc: Global, uris: Texts, further: &[Value]) -> Result<Asking, RpcErr>
    requires usable { All IsUsable uris }
    requires counted { spec.mirrors_fault (length uris) ≡ None }
    ensures ok { IfOk result (AddsUris uris (map view further.now)) }
    ensures refused { IfRefused result (RefusesUris uris (map view further.now)) }
{
    match further_options(alloc, further) {
        Ok(options) => Ok(plain(Call::AddUri {
            uris,
            options,
            position: further_position(further),
        })),
        Err(error) => Err(error),
    }
}

fn added_uris(alloc: Global, uris: Texts, further: &[Value]) -> Result<Asking, RpcErr>
    ensures ok { IfOk result (AddsUris uris (map view further.now)) }
    ensures refused { IfRefused result (RefusesUris uris (map view further.now)) }
{
    if !are_usable(alloc, &uris)? {
        return Err(RpcErr::Refused(RpcFault::NoUsableUri));
    }
    match mirrors_fault(uris.len() as u128) {
        Some(fault) => Err(RpcErr::Refused(fault)),
        None => uri_call(alloc, uris, further),
    }
}

fn uris_given(alloc: Global, first: &Value, further: &[Value]) -> Result<Asking, RpcErr>
    ensures ok { IfOk result (IsUriAsking (view first.now ∷ map view further.now)) }
    ensures refused { IfRefused result
        (RefusesUriAsking (view first.now ∷ map view further.now)) }
{
    match text_list(alloc, first)? {
        Some(uris) if are_further(further) => added_uris(alloc, uris, further),
        _ => Err(RpcErr::Refused(RpcFault::BadParams)),
    }
}

/// `aria2.addUri`: URIs, options, and a position.
pub fn uri_asking(alloc: Global, params: &[Value]) -> Result<Asking, RpcErr>
    ensures ok { IfOk result (IsUriAsking (map view params.now)) }
    ensures refused { IfRefused result (RefusesUriAsking (map view params.now)) }
{
    match params {
        [first, further @ ..] => uris_given(alloc, first, further),
        [] => Err(RpcErr::Refused(RpcFault::BadParams)),
    }
}
