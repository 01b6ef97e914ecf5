// Bodies of requests, as bytes.
ghost use Rattle.std.specs.Prelude.{◌≡◌, option_map, IfOk};
ghost use Rattle.serde_json.specs.View.{view};
ghost use Rattle.rpc_envelope.specs.Answers.{answer_text, read_bytes};
ghost use Rattle.rpc_envelope.specs.Asks.{found_calls};
ghost use Rattle.rpc_envelope.specs.Turns.{Walked};

use crate::batches::{fault_text, text_of_body};
use crate::{Caller, LongText, RpcFault};
use dl_kinds::NoMemory;
use serde_json::Value;
use std::alloc::Global;

// What bytes read as: nothing where they are no JSON.
fn read_body(alloc: Global, body: &[u8]) -> Result<Option<Value>, NoMemory>
    ensures { IfOk result (λ found. option_map view found ≡ read_bytes body.now) }
{
    match Value::from_slice(alloc, body) {
        Ok(value) => Ok(Some(value)),
        Err(e) => {
            if e.is_memory() {
                Err(NoMemory)
            } else {
                Ok(None)
            }
        }
    }
}

/// Carries out the calls of a body, each once and in order, and gives the text that answers it. None is for a body of
/// notifications alone. Where memory runs out the first ones of the calls were carried out, and no others. Beside the body
/// as it was read, an answer takes the memory of its text, in which what repeats stands once.
#[tactic(auto, using(crate::proofs::Walks::walks_none, crate::proofs::Walks::breaks_none))]
pub fn answer_body<T, C: Caller<T>>(
    alloc: Global,
    desk: &mut T,
    caller: &mut C,
    body: &[u8],
) -> Result<Option<LongText>, NoMemory>
    ensures { Walked (C.at caller.old desk.old) (C.at caller.new desk.new)
        (found_calls (read_bytes body.now)) result
        (λ text ss. text ≡ answer_text (read_bytes body.now) ss) }
{
    match read_body(alloc, body)? {
        Some(value) => text_of_body(alloc, desk, caller, &value),
        None => Ok(Some(fault_text(alloc, RpcFault::NoJson)?)),
    }
}
