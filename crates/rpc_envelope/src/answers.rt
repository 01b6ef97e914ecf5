// Answers, as values of JSON.
ghost use Rattle.std.specs.Prelude.{◌≡◌, IfOk};
ghost use Rattle.serde_json.specs.View.{view};
ghost use Rattle.rpc_envelope.specs.Answers.{answer, answer_if, part_data};
ghost use Rattle.rpc_envelope.specs.Outcomes.{answers_in, value_if_any, outcome_view};
ghost use Rattle.rpc_envelope.specs.Turns.{given, failed};

use crate::fault::fault_value;
use crate::{Outcome, RpcFault};
use dl_kinds::NoMemory;
use serde_json::{Map, Value, put};
use std::alloc::Global;

/// The answer of one of several calls: a list of the one value, or the fault.
pub(crate) fn part_value(alloc: Global, outcome: Outcome) -> Result<Value, NoMemory>
    ensures { IfOk result (λ value. view value ≡ part_data (outcome_view outcome)) }
{
    match outcome {
        Outcome::Given(value) => {
            let mut list = Vec::new(alloc);
            list.push(value)?;
            Ok(Value::Array(list))
        }
        Outcome::Failed(fault) => fault_value(alloc, fault),
    }
}

fn answer_given(alloc: Global, id: Value, value: Value) -> Result<Value, NoMemory>
    ensures { IfOk result (λ v. view v ≡ answer (view id) (given (view value))) }
{
    let version = Value::try_from_str(alloc, "2.0")?;
    let mut members = Map::new(alloc);
    put(&mut members, alloc, "id", id)?;
    put(&mut members, alloc, "jsonrpc", version)?;
    put(&mut members, alloc, "result", value)?;
    Ok(Value::Object(members))
}

/// The answer of a request that was refused.
pub(crate) fn answer_failed(alloc: Global, id: Value, fault: RpcFault) -> Result<Value, NoMemory>
    ensures { IfOk result (λ v. view v ≡ answer (view id) (failed fault)) }
{
    let error = fault_value(alloc, fault)?;
    let version = Value::try_from_str(alloc, "2.0")?;
    let mut members = Map::new(alloc);
    put(&mut members, alloc, "error", error)?;
    put(&mut members, alloc, "id", id)?;
    put(&mut members, alloc, "jsonrpc", version)?;
    Ok(Value::Object(members))
}

fn answer(alloc: Global, id: Value, outcome: Outcome) -> Result<Value, NoMemory>
    ensures { IfOk result (λ v. view v ≡ answer (view id) (outcome_view outcome)) }
{
    match outcome {
        Outcome::Given(value) => answer_given(alloc, id, value),
        Outcome::Failed(fault) => answer_failed(alloc, id, fault),
    }
}

/// The answer of a request, where it has an id.
pub(crate) fn answer_if(
    alloc: Global,
    id: Option<&Value>,
    outcome: Outcome,
) -> Result<Option<Value>, NoMemory>
    ensures { IfOk result (λ answer. answers_in answer
        ≡ answer_if (value_if_any id.entry) (outcome_view outcome)) }
{
    match id {
        Some(id) => Ok(Some(answer(alloc, id.clone()?, outcome)?)),
        None => Ok(None),
    }
}
