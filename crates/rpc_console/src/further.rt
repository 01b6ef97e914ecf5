// What stands behind the URIs of a call that adds a download.
ghost use Rattle.std.specs.Prelude.{◌≡◌, map, IfOk};
ghost use Rattle.serde_json.specs.View.{view};
ghost use Rattle.serde_json.specs.Find.{as_object};
ghost use Rattle.rpc_console.specs.Further as spec;
ghost use Rattle.rpc_console.specs.Options.{IfRefused, AreOptions, RefusesOptions};
ghost use Rattle.rpc_console.specs.declared.options.OptionUse.TheVariants.{Adding};

use crate::RpcErr;
use crate::options::{OptionUse, are_texts, options_of};
use crate::params::count_in;
use option_set::Settings;
use serde_json::Value;
use std::alloc::Global;

fn is_text_object(value: &Value) -> bool
    ensures { result ≡ spec.is_text_object (as_object (view value.now)) }
{
    match value.as_object() {
        Some(members) => are_texts(members),
        None => false,
    }
}

/// Whether they are options and a position, each of which may be left out, but for options before a position.
pub(crate) fn are_further(params: &[Value]) -> bool
    ensures { result ≡ spec.are_further (map view params.now) }
{
    match params {
        [] => true,
        [options] => is_text_object(options),
        [options, position] => is_text_object(options) && count_in(position).is_some(),
        _ => false,
    }
}

/// The options, of which there are none where they are left out.
pub(crate) fn further_options(alloc: Global, params: &[Value]) -> Result<Settings, RpcErr>
    ensures ok { IfOk result (AreOptions Adding (spec.further_options (map view params.now))) }
    ensures refused { IfRefused result
        (RefusesOptions Adding (spec.further_options (map view params.now))) }
{
    match params {
        [] => Ok(Settings::new(alloc)),
        [options, ..] => options_of(alloc, OptionUse::Adding, options),
    }
}

/// The position, where it isn't left out.
pub(crate) fn further_position(params: &[Value]) -> Option<u32>
    ensures { result ≡ spec.further_position (map view params.now) }
{
    match params {
        [_, position, ..] => count_in(position),
        _ => None,
    }
}
