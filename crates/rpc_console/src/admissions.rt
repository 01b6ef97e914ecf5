// Which method is called, with which parameters.
ghost use Rattle.std.specs.Prelude.{◌≡◌, map, option_map, IfOk, IfErr, Ok, Err};
ghost use Rattle.serde_json.specs.View.{view};
ghost use Rattle.rpc_envelope.specs.Outcomes.{seen_if_any};
ghost use Rattle.rpc_console.specs.Admissions.{needs_no_token, with_list, admits, admission};

use crate::Method;
use crate::tokens::is_authorized;
use rpc_envelope::{RpcFault, untokened};
use serde_json::Value;

fn needs_no_token(method: Method) -> bool
    ensures { result ≡ needs_no_token method }
{
    matches!(method, Method::ListMethods)
}

fn with_list<'v>(
    method: Method,
    params: Option<&'v [Value]>,
) -> Result<(Method, &'v [Value]), RpcFault>
    ensures found { IfOk result (λ found.
        with_list method (seen_if_any params.entry) ≡ Ok (found.0, map view found.1.now)) }
    ensures refused { IfErr result (λ fault.
        with_list method (seen_if_any params.entry) ≡ Err fault) }
{
    match params {
        Some(params) => Ok((method, untokened(params))),
        None => Err(RpcFault::BadParams),
    }
}

fn admit<'v>(
    method: Option<Method>,
    params: Option<&'v [Value]>,
    secret: Option<&str>,
) -> Result<(Method, &'v [Value]), RpcFault>
    ensures found { IfOk result (λ found.
        admits (option_map (λ s. s.now) secret.entry) method (seen_if_any params.entry)
        ≡ Ok (found.0, map view found.1.now)) }
    ensures refused { IfErr result (λ fault.
        admits (option_map (λ s. s.now) secret.entry) method (seen_if_any params.entry)
        ≡ Err fault) }
{
    match method {
        Some(method) => {
            if needs_no_token(method) || is_authorized(secret, params) {
                with_list(method, params)
            } else {
                Err(RpcFault::Unauthorized)
            }
        }
        None => Err(RpcFault::NoMethod),
    }
}

/// The method of a call, and its parameters behind a token: or the first fault of these, that no method has the name,
/// that the secret isn't told where one is set, and that the parameters are an object.
#[tactic(auto, unfolding(crate::specs::Admissions::admission))]
pub fn admission<'v>(
    name: &str,
    params: Option<&'v [Value]>,
    secret: Option<&str>,
) -> Result<(Method, &'v [Value]), RpcFault>
    ensures found { IfOk result (λ found.
        admission (option_map (λ s. s.now) secret.entry) name.now (seen_if_any params.entry)
        ≡ Ok (found.0, map view found.1.now)) }
    ensures refused { IfErr result (λ fault.
        admission (option_map (λ s. s.now) secret.entry) name.now (seen_if_any params.entry)
        ≡ Err fault) }
{
    admit(Method::named(name), params, secret)
}
