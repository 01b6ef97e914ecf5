// Members of objects.
ghost use Rattle.std.specs.Prelude.{◌≡◌, IfOk, OnOk, bytes_eq, map, option_map};
ghost use Rattle.std.specs.List.{list_any};
ghost use Rattle.serde_json.specs.Data.{string, put as with_member};
ghost use Rattle.serde_json.specs.View.{view, members_view};
ghost use Rattle.reply_values.specs.Members.{decimal_data, is_chosen, named_if, pick, put_all};

use crate::texts::decimal_value;
use dl_kinds::{NoMemory, Text, Texts};
use rpc_console::Keys;
use serde_json::{Map, Value, put};
use std::alloc::Global;

pub(crate) fn put_number(
    alloc: Global,
    members: &mut Map<String, Value>,
    name: &str,
    number: u64,
) -> Result<(), NoMemory>
    ensures { OnOk result (members_view members.new.entries
        ≡ with_member name.now (decimal_data number) (members_view members.old.entries)) }
{
    let value = decimal_value(alloc, number)?;
    put(members, alloc, name, value)
}

pub(crate) fn put_text(
    alloc: Global,
    members: &mut Map<String, Value>,
    name: &str,
    text: &str,
) -> Result<(), NoMemory>
    ensures { OnOk result (members_view members.new.entries
        ≡ with_member name.now (string text.now) (members_view members.old.entries)) }
{
    let value = Value::try_from_str(alloc, text)?;
    put(members, alloc, name, value)
}

/// Adds a number, where there is one.
pub(crate) fn put_number_if(
    alloc: Global,
    members: &mut Map<String, Value>,
    name: &str,
    number: Option<u64>,
) -> Result<(), NoMemory>
    ensures { OnOk result (members_view members.new.entries
        ≡ put_all (named_if name.now (option_map decimal_data number))
        (members_view members.old.entries)) }
{
    match number {
        Some(number) => put_number(alloc, members, name, number),
        None => Ok(()),
    }
}

/// Adds a text, where there is one.
pub(crate) fn put_text_if(
    alloc: Global,
    members: &mut Map<String, Value>,
    name: &str,
    text: &Option<Text>,
) -> Result<(), NoMemory>
    ensures { OnOk result (members_view members.new.entries
        ≡ put_all (named_if name.now (option_map string text.now))
        (members_view members.old.entries)) }
{
    match text {
        Some(text) => put_text(alloc, members, name, text.as_str()),
        None => Ok(()),
    }
}

fn has_text(texts: &Texts, name: &str) -> bool
    ensures { result ≡ list_any (λ text. bytes_eq text name.now) texts.now }
{
    for place in 0..texts.len() {
        if texts.at(place).as_str() == name {
            return true;
        }
    }
    false
}

fn is_chosen(keys: &Keys, name: &str) -> bool
    ensures { result ≡ is_chosen keys.now name.now }
{
    match keys {
        Keys::All => true,
        Keys::These(texts) => texts.is_empty() || has_text(texts, name),
    }
}

/// Keeps the members that the keys choose.
pub(crate) fn keep_chosen(keys: &Keys, members: &mut Map<String, Value>)
    ensures { members_view members.new.entries
        ≡ pick keys.now (members_view members.old.entries) }
{
    members.retain(|name, _| is_chosen(keys, name.as_str()));
}
