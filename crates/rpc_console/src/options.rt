// Options, as an object of texts.
ghost use Rattle.std.specs.Prelude.{◌≡◌, ◌∷◌, [], ◌++◌, true, false, IfOk, OnOk};
ghost use Rattle.serde_json.specs.Find.{as_object};
ghost use Rattle.serde_json.specs.View.{view, members_view};
ghost use Rattle.option_set.specs.Assignments.{IsSettingOf, option_of};
ghost use Rattle.option_set.specs.declared.setting.Assigned.{Assigned};
ghost use Rattle.rpc_console.specs.Options.{takes_option, are_texts, members_if_any, IfRefused, RefusesValue, SetsText, RefusesText, Sets, RefusesOption, AreSettings, RefusesSettings, AreOptions, RefusesOptions};

use crate::RpcErr;
use option_set::{Opt, OptErr, Scope, Setting, Settings, read};
use rpc_envelope::RpcFault;
use serde_json::{Map, Value};
use std::alloc::Global;

/// Which options a call takes.
#[derive(Clone, Copy, Debug, PartialEq, Eq)]
pub enum OptionUse {
    /// Those of downloads.
    Adding,
    /// Those that `aria2.changeOption` changes.
    Changing,
    /// Those that `aria2.changeGlobalOption` changes.
    ChangingGlobally,
}

impl OptionUse {
    fn takes(self, option: Opt) -> bool
        ensures { result ≡ takes_option self option }
    {
        match self {
            OptionUse::Adding => matches!(option.row().scope, Scope::Download),
            OptionUse::Changing => option.is_changed_by_option(),
            OptionUse::ChangingGlobally => option.is_changed_globally(),
        }
    }
}

fn read_value(alloc: Global, name: &str, text: &str) -> Result<Setting, RpcErr>
    ensures ok { IfOk result (IsSettingOf name.now text.now) }
    ensures refused { IfRefused result (RefusesValue name.now text.now) }
{
    match read(alloc, name, text) {
        Ok(setting) => Ok(setting),
        Err(OptErr::Unknown) => Err(RpcErr::Refused(RpcFault::OptionUnknown)),
        Err(OptErr::BadValue) => Err(RpcErr::Refused(RpcFault::OptionBadValue)),
        Err(OptErr::OutOfRange { .. }) => Err(RpcErr::Refused(RpcFault::OptionOutOfRange)),
        Err(OptErr::NoMemory) => Err(RpcErr::NoMemory),
    }
}

fn taken(call: OptionUse, setting: Setting) -> Result<Setting, RpcErr>
    ensures ok { IfOk result (λ kept. (kept ≡ setting)
        × (takes_option call (option_of setting) ≡ true)) }
    ensures refused { IfRefused result (λ fault. (fault ≡ RpcFault.OptionFixed)
        × (takes_option call (option_of setting) ≡ false)) }
{
    if call.takes(setting.option()) {
        Ok(setting)
    } else {
        Err(RpcErr::Refused(RpcFault::OptionFixed))
    }
}

fn taken_of(alloc: Global, call: OptionUse, name: &str, text: &str) -> Result<Setting, RpcErr>
    ensures ok { IfOk result (SetsText call name.now text.now) }
    ensures refused { IfRefused result (RefusesText call name.now text.now) }
{
    let setting = read_value(alloc, name, text)?;
    taken(call, setting)
}

fn setting_in(alloc: Global, call: OptionUse, name: &str, value: &Value) -> Result<Setting, RpcErr>
    ensures ok { IfOk result (Sets call name.now (view value.now)) }
    ensures refused { IfRefused result (RefusesOption call name.now (view value.now)) }
{
    match value.as_str() {
        Some(text) => taken_of(alloc, call, name, text),
        None => Err(RpcErr::Refused(RpcFault::BadParams)),
    }
}

fn push_setting(
    alloc: Global,
    call: OptionUse,
    name: &str,
    value: &Value,
    settings: &mut Settings,
) -> Result<(), RpcErr>
    ensures ok { OnOk result ((next : Assigned) × Sets call name.now (view value.now) next
        × (settings.new ≡ settings.old ++ next ∷ [])) }
    ensures refused { IfRefused result (RefusesOption call name.now (view value.now)) }
{
    match setting_in(alloc, call, name, value) {
        Ok(setting) => {
            settings.push(setting)?;
            Ok(())
        }
        Err(error) => Err(error),
    }
}

fn settings_in(
    alloc: Global,
    call: OptionUse,
    members: &Map<String, Value>,
) -> Result<Settings, RpcErr>
    ensures ok { IfOk result (AreSettings call (members_view members.now.entries)) }
    ensures refused { IfRefused result (RefusesSettings call (members_view members.now.entries)) }
{
    let mut settings = Settings::new(alloc);
    for (name, value) in members.iter() {
        match push_setting(alloc, call, name.as_str(), value, &mut settings) {
            Ok(()) => {}
            Err(error) => return Err(error),
        }
    }
    Ok(settings)
}

/// Whether each member is a text.
pub(crate) fn are_texts(members: &Map<String, Value>) -> bool
    ensures { result ≡ are_texts (members_view members.now.entries) }
{
    for (_, value) in members.iter() {
        if !value.is_string() {
            return false;
        }
    }
    true
}

fn options_in(
    alloc: Global,
    call: OptionUse,
    members: Option<&Map<String, Value>>,
) -> Result<Settings, RpcErr>
    ensures ok { IfOk result (AreOptions call (members_if_any members.entry)) }
    ensures refused { IfRefused result (RefusesOptions call (members_if_any members.entry)) }
{
    match members {
        Some(members) => {
            if !are_texts(members) {
                return Err(RpcErr::Refused(RpcFault::BadParams));
            }
            settings_in(alloc, call, members)
        }
        None => Err(RpcErr::Refused(RpcFault::BadParams)),
    }
}

/// The options of a call: an object of texts, each of which sets an option that the call takes. An error but want of
/// memory is that it is no such object, or the first option's that isn't set.
pub fn options_of(alloc: Global, call: OptionUse, value: &Value) -> Result<Settings, RpcErr>
    ensures ok { IfOk result (AreOptions call (as_object (view value.now))) }
    ensures refused { IfRefused result (RefusesOptions call (as_object (view value.now))) }
{
    options_in(alloc, call, value.as_object())
}
