// Requests, and batches of them.
ghost use Rattle.std.specs.Prelude.{◌≡◌, ◌∷◌, [], map, option_map, false, IfOk, List};
ghost use Rattle.std.specs.Str.{IsUtf8};
ghost use Rattle.serde_json.specs.Data.{Data, null};
ghost use Rattle.serde_json.specs.View.{view, items_view};
ghost use Rattle.serde_json.specs.Written.{compact_text, has_float};
ghost use Rattle.rpc_envelope.specs.Answers.{answer, request_answers, member_answers, answers_of_all, first_of, list_if_any, batch_answer, body_answer};
ghost use Rattle.rpc_envelope.specs.Asks.{request_calls, member_calls, calls_of_all, body_calls};
ghost use Rattle.rpc_envelope.specs.Turns.{Walked, failed};
ghost use Rattle.rpc_envelope.specs.Outcomes.{answers_in};
ghost use Rattle.rpc_envelope.specs.Texts.{ArePlainData, ListsFurther, item_text, listed_text};

use crate::answers::{answer_failed, answer_if};
use crate::asks::is_request;
use crate::parts::carry_out;
use crate::{Caller, LongText, RpcFault};
use dl_kinds::NoMemory;
use serde_json::Value;
use std::alloc::Global;

// Carries out a request. The answer is none where it has no id.
fn asked_answer<T, C: Caller<T>>(
    alloc: Global,
    desk: &mut T,
    caller: &mut C,
    value: &Value,
) -> Result<Option<Value>, NoMemory>
    ensures { Walked (C.at caller.old desk.old) (C.at caller.new desk.new)
        (request_calls (view value.now)) result
        (λ answer ss. answers_in answer ≡ request_answers (view value.now) ss) }
{
    let outcome = carry_out(alloc, desk, caller, value)?;
    answer_if(alloc, value.get("id"), outcome)
}

// One request, or one member of a batch.
#[tactic(auto, unfolding(crate::specs::Asks::member_calls, crate::specs::Answers::member_answers), using(crate::proofs::Walks::walks_none, crate::proofs::Walks::breaks_none))]
fn member_answer<T, C: Caller<T>>(
    alloc: Global,
    desk: &mut T,
    caller: &mut C,
    value: &Value,
) -> Result<Option<Value>, NoMemory>
    ensures { Walked (C.at caller.old desk.old) (C.at caller.new desk.new)
        (member_calls (view value.now)) result
        (λ answer ss. answers_in answer ≡ member_answers (view value.now) ss) }
{
    if is_request(value) {
        asked_answer(alloc, desk, caller, value)
    } else {
        let answer = answer_failed(alloc, Value::Null, RpcFault::NoRequest)?;
        Ok(Some(answer))
    }
}

// The text of an item of a list, behind the bracket that opens the list, or a comma.
fn item_text(alloc: Global, is_first: bool, answer: &Value) -> Result<Vec<u8>, NoMemory>
    requires { has_float (view answer.now) ≡ false }
    ensures text { IfOk result (λ text. text.items ≡ item_text is_first (view answer.now)) }
    ensures utf8 { IfOk result (λ text. IsUtf8 text.items) }
{
    let mut text = Vec::new(alloc);
    text.push(if is_first { b'[' } else { b',' })?;
    text.extend_from_slice(&answer.to_vec(alloc)?)?;
    Ok(text)
}

// Writes an answer as an item behind those that are listed.
fn list_value(alloc: Global, answer: &Value, list: &mut LongText) -> Result<(), NoMemory>
    requires { has_float (view answer.now) ≡ false }
    ensures { IfOk result (λ _. ListsFurther list.old list.new (view answer.now ∷ [])) }
{
    let text = item_text(alloc, list.is_empty(), answer)?;
    list.push(text)?;
    Ok(())
}

fn list_if_any(alloc: Global, answer: &Option<Value>, list: &mut LongText) -> Result<(), NoMemory>
    requires { ArePlainData (answers_in answer.now) }
    ensures { IfOk result (λ _. ListsFurther list.old list.new (answers_in answer.now)) }
{
    match answer {
        Some(answer) => list_value(alloc, answer, list),
        None => Ok(()),
    }
}

// Answers one member of a batch.
fn list_member<T, C: Caller<T>>(
    alloc: Global,
    desk: &mut T,
    caller: &mut C,
    value: &Value,
    list: &mut LongText,
) -> Result<(), NoMemory>
    ensures { Walked (C.at caller.old desk.old) (C.at caller.new desk.new)
        (member_calls (view value.now)) result
        (λ _ ss. ListsFurther list.old list.new (member_answers (view value.now) ss)) }
{
    let answer = member_answer(alloc, desk, caller, value)?;
    list_if_any(alloc, &answer, list)
}

// Answers the members of a batch. Each answer is written before the next member is carried out.
#[tactic(auto, using(crate::proofs::Walks::walks_none, crate::proofs::Walks::breaks_none))]
fn members_text<T, C: Caller<T>>(
    alloc: Global,
    desk: &mut T,
    caller: &mut C,
    members: &[Value],
) -> Result<LongText, NoMemory>
    ensures { Walked (C.at caller.old desk.old) (C.at caller.new desk.new)
        (calls_of_all (map view members.now)) result
        (λ list ss. list ≡ listed_text (answers_of_all (map view members.now) ss)) }
{
    let mut list = LongText::new(alloc);
    for member in members {
        list_member(alloc, desk, caller, member, &mut list)?;
    }
    Ok(list)
}

// Closes the list, where it has an item.
fn close_if_any(alloc: Global, list: LongText) -> Result<Option<LongText>, NoMemory>
    ensures { IfOk result (λ text. (items : List Data) → list ≡ listed_text items
        → text ≡ option_map compact_text (list_if_any items)) }
{
    if list.is_empty() {
        return Ok(None);
    }
    let mut text = list;
    let end = Vec::from_slice(alloc, b"]")?;
    text.push(end)?;
    Ok(Some(text))
}

// A batch that has a member.
fn batch_of_some<T, C: Caller<T>>(
    alloc: Global,
    desk: &mut T,
    caller: &mut C,
    members: &[Value],
) -> Result<Option<LongText>, NoMemory>
    ensures { Walked (C.at caller.old desk.old) (C.at caller.new desk.new)
        (calls_of_all (map view members.now)) result
        (λ text ss. text
        ≡ option_map compact_text (list_if_any (answers_of_all (map view members.now) ss))) }
{
    let list = members_text(alloc, desk, caller, members)?;
    close_if_any(alloc, list)
}

// The text of one answer.
fn text_of(alloc: Global, answer: &Value) -> Result<LongText, NoMemory>
    requires { has_float (view answer.now) ≡ false }
    ensures { IfOk result (λ text. text ≡ compact_text (view answer.now)) }
{
    let mut text = LongText::new(alloc);
    text.push(answer.to_vec(alloc)?)?;
    Ok(text)
}

fn text_if_any(alloc: Global, answer: &Option<Value>) -> Result<Option<LongText>, NoMemory>
    requires { ArePlainData (answers_in answer.now) }
    ensures { IfOk result (λ text. text
        ≡ option_map compact_text (first_of (answers_in answer.now))) }
{
    match answer {
        Some(answer) => Ok(Some(text_of(alloc, answer)?)),
        None => Ok(None),
    }
}

/// The text of an answer with a fault, to what has no id.
pub(crate) fn fault_text(alloc: Global, fault: RpcFault) -> Result<LongText, NoMemory>
    ensures { IfOk result (λ text. text ≡ compact_text (answer null (failed fault))) }
{
    let answer = answer_failed(alloc, Value::Null, fault)?;
    text_of(alloc, &answer)
}

// One request, which is no batch.
fn single<T, C: Caller<T>>(
    alloc: Global,
    desk: &mut T,
    caller: &mut C,
    value: &Value,
) -> Result<Option<LongText>, NoMemory>
    ensures { Walked (C.at caller.old desk.old) (C.at caller.new desk.new)
        (member_calls (view value.now)) result
        (λ text ss. text
        ≡ option_map compact_text (first_of (member_answers (view value.now) ss))) }
{
    let answer = member_answer(alloc, desk, caller, value)?;
    text_if_any(alloc, &answer)
}

// A batch, which must not be empty.
#[tactic(auto, using(crate::proofs::Lists::list_of_items, crate::proofs::Walks::walks_none, crate::proofs::Walks::breaks_none))]
fn batch<T, C: Caller<T>>(
    alloc: Global,
    desk: &mut T,
    caller: &mut C,
    members: &[Value],
) -> Result<Option<LongText>, NoMemory>
    ensures { Walked (C.at caller.old desk.old) (C.at caller.new desk.new)
        (calls_of_all (map view members.now)) result
        (λ text ss. text ≡ option_map compact_text (batch_answer (items_view members.now) ss)) }
{
    if members.is_empty() {
        let text = fault_text(alloc, RpcFault::NoRequest)?;
        return Ok(Some(text));
    }
    batch_of_some(alloc, desk, caller, members)
}

/// Carries out the calls of a body, and gives the text of its answer, if it has one.
#[tactic(auto, using(crate::proofs::Lists::list_of_items))]
pub(crate) fn text_of_body<T, C: Caller<T>>(
    alloc: Global,
    desk: &mut T,
    caller: &mut C,
    body: &Value,
) -> Result<Option<LongText>, NoMemory>
    ensures { Walked (C.at caller.old desk.old) (C.at caller.new desk.new)
        (body_calls (view body.now)) result
        (λ text ss. text ≡ option_map compact_text (body_answer (view body.now) ss)) }
{
    match body.as_array() {
        Some(members) => batch(alloc, desk, caller, members),
        None => single(alloc, desk, caller, body),
    }
}
