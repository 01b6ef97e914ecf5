// The calls of a request: one, or the parts of a multicall.
ghost use Rattle.std.specs.Prelude.{◌≡◌, ◌∷◌, [], map};
ghost use Rattle.serde_json.specs.View.{view};
ghost use Rattle.rpc_envelope.specs.Answers.{first_outcome, outcome_of_part, part_answers, answers_of_parts, several_outcome, request_outcome};
ghost use Rattle.rpc_envelope.specs.Asks.{part_calls, calls_of_parts, several_calls, request_calls};
ghost use Rattle.rpc_envelope.specs.Outcomes.{called, seen_if_any, AddsAnswers, outcome_view};
ghost use Rattle.rpc_envelope.specs.Turns.{Walked};

use crate::answers::part_value;
use crate::asks::{params_of, parts_of, text_at};
use crate::{Caller, Outcome, RpcFault};
use dl_kinds::NoMemory;
use serde_json::Value;
use std::alloc::Global;

// One call.
fn invoke<T, C: Caller<T>>(
    alloc: Global,
    desk: &mut T,
    caller: &mut C,
    method: &str,
    params: Option<&[Value]>,
) -> Result<Outcome, NoMemory>
    ensures { Walked (C.at caller.old desk.old) (C.at caller.new desk.new)
        (called method.now (seen_if_any params.entry) ∷ []) result
        (λ outcome ss. outcome_view outcome ≡ first_outcome ss) }
{
    caller.call(alloc, desk, method, params)
}

// One of several calls.
#[tactic(auto, using(crate::proofs::Walks::walks_none, crate::proofs::Walks::breaks_none))]
fn part_of<T, C: Caller<T>>(
    alloc: Global,
    desk: &mut T,
    caller: &mut C,
    part: &Value,
) -> Result<Outcome, NoMemory>
    ensures { Walked (C.at caller.old desk.old) (C.at caller.new desk.new)
        (part_calls (view part.now)) result
        (λ outcome ss. outcome_view outcome ≡ outcome_of_part (view part.now) ss) }
{
    let method = text_at("methodName", part).unwrap_or("");
    if method == "system.multicall" {
        Ok(Outcome::Failed(RpcFault::Nested))
    } else {
        invoke(alloc, desk, caller, method, params_of(part))
    }
}

// AddsAnswers the answer of one of several calls.
fn push_part<T, C: Caller<T>>(
    alloc: Global,
    desk: &mut T,
    caller: &mut C,
    part: &Value,
    list: &mut Vec<Value>,
) -> Result<(), NoMemory>
    ensures { Walked (C.at caller.old desk.old) (C.at caller.new desk.new)
        (part_calls (view part.now)) result
        (λ _ ss. AddsAnswers list.old.items list.new.items (part_answers (view part.now) ss)) }
{
    let outcome = part_of(alloc, desk, caller, part)?;
    list.push(part_value(alloc, outcome)?)?;
    Ok(())
}

// The answers of several calls.
#[tactic(auto, using(crate::proofs::Walks::walks_none, crate::proofs::Walks::breaks_none))]
fn part_values<T, C: Caller<T>>(
    alloc: Global,
    desk: &mut T,
    caller: &mut C,
    parts: &[Value],
) -> Result<Vec<Value>, NoMemory>
    ensures { Walked (C.at caller.old desk.old) (C.at caller.new desk.new)
        (calls_of_parts (map view parts.now)) result
        (λ values ss. map view values.items ≡ answers_of_parts (map view parts.now) ss) }
{
    let mut list = Vec::new(alloc);
    for part in parts {
        push_part(alloc, desk, caller, part, &mut list)?;
    }
    Ok(list)
}

// Several calls, or none where the parameters aren't those of a multicall.
#[tactic(auto, using(crate::proofs::Walks::walks_none, crate::proofs::Walks::breaks_none))]
fn several<T, C: Caller<T>>(
    alloc: Global,
    desk: &mut T,
    caller: &mut C,
    parts: Option<&[Value]>,
) -> Result<Outcome, NoMemory>
    ensures { Walked (C.at caller.old desk.old) (C.at caller.new desk.new)
        (several_calls (seen_if_any parts.entry)) result
        (λ outcome ss. outcome_view outcome ≡ several_outcome (seen_if_any parts.entry) ss) }
{
    match parts {
        Some(parts) => {
            let values = part_values(alloc, desk, caller, parts)?;
            Ok(Outcome::Given(Value::Array(values)))
        }
        None => Ok(Outcome::Failed(RpcFault::BadParams)),
    }
}

/// Carries out what a request asks for.
pub(crate) fn carry_out<T, C: Caller<T>>(
    alloc: Global,
    desk: &mut T,
    caller: &mut C,
    value: &Value,
) -> Result<Outcome, NoMemory>
    ensures { Walked (C.at caller.old desk.old) (C.at caller.new desk.new)
        (request_calls (view value.now)) result
        (λ outcome ss. outcome_view outcome ≡ request_outcome (view value.now) ss) }
{
    let method = text_at("method", value).unwrap_or("");
    if method == "system.multicall" {
        several(alloc, desk, caller, parts_of(params_of(value)))
    } else {
        invoke(alloc, desk, caller, method, params_of(value))
    }
}
