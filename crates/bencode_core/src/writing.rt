// Values as bytes.
ghost use Rattle.std.specs.Prelude.{◌≡◌, ◌++◌, IfOk, OnOk};
ghost use Rattle.bencode_core.specs.Value.{Spells, spelling, spellings, member_spellings, string_spelling, integer};
ghost use Rattle.bencode_core.specs.Node.{values_in, members_in};

use crate::ben::{Ben, Member, Node};
use crate::scalars::{DICT, END, LIST};
use std::alloc::{AllocError, Global};

impl Ben {
    /// The one spelling of the value.
    pub fn write(&self, alloc: Global) -> Result<Vec<u8>, AllocError>
        ensures { IfOk result (λ out. Spells self.now.value out.items) }
    {
        // The fields say that the value has a spelling.
        let _ = &self.node;
        let mut out = Vec::new(alloc);
        push_value(alloc, &mut out, self)?;
        Ok(out)
    }
}

#[cycle(writing)]
fn push_value(alloc: Global, out: &mut Vec<u8>, value: &Ben) -> Result<(), AllocError>
    ensures { OnOk result (out.new.items ≡ out.old.items ++ spelling value.now.value) }
{
    match &value.node {
        Node::Integer(number) => push_integer(alloc, out, *number),
        Node::String(bytes) => push_string(alloc, out, bytes),
        Node::List(items) => {
            out.push(LIST)?;
            push_items(alloc, out, items)?;
            Ok(out.push(END)?)
        }
        Node::Dict(members) => {
            out.push(DICT)?;
            push_members(alloc, out, members)?;
            Ok(out.push(END)?)
        }
    }
}

#[cycle(writing)]
fn push_items(alloc: Global, out: &mut Vec<u8>, items: &[Ben]) -> Result<(), AllocError>
    ensures { OnOk result (out.new.items ≡ out.old.items ++ spellings (values_in items.now)) }
{
    for item in items {
        push_value(alloc, out, item)?;
    }
    Ok(())
}

#[cycle(writing)]
fn push_members(alloc: Global, out: &mut Vec<u8>, members: &[Member]) -> Result<(), AllocError>
    ensures { OnOk result (out.new.items
        ≡ out.old.items ++ member_spellings (members_in members.now)) }
{
    for member in members {
        push_string(alloc, out, &member.key)?;
        push_value(alloc, out, &member.value)?;
    }
    Ok(())
}

fn push_integer(alloc: Global, out: &mut Vec<u8>, number: i64) -> Result<(), AllocError>
    ensures { OnOk result (out.new.items ≡ out.old.items ++ spelling (integer number)) }
{
    let text = format!(in alloc; "i{number}e")?;
    out.extend_from_slice(text.as_bytes())
}

fn push_string(alloc: Global, out: &mut Vec<u8>, bytes: &[u8]) -> Result<(), AllocError>
    ensures { OnOk result (out.new.items ≡ out.old.items ++ string_spelling bytes.now) }
{
    let len = bytes.len();
    let front = format!(in alloc; "{len}:")?;
    out.extend_from_slice(front.as_bytes())?;
    out.extend_from_slice(bytes)
}
