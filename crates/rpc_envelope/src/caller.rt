// Who carries out the calls of methods.
ghost use Rattle.std.specs.Prelude.{List, ◌∷◌, [], IfOk};
ghost use Rattle.rpc_envelope.specs.Outcomes.{seen_if_any, outcome_view, turn_of};
ghost use Rattle.rpc_envelope.specs.Turns.{Extends, Invoked, IsPlain};

use crate::RpcFault;
use dl_kinds::NoMemory;
use serde_json::Value;
use std::alloc::Global;

/// What comes of a call: a value, or why it was refused.
#[derive(Debug, Drop)]
pub enum Outcome {
    Given(Value),
    Failed(RpcFault),
}

/// Carries out calls of methods, at a desk that it may share.
pub trait Caller<T> {
    /// What holds of caller and desk where, since they were the caller and the desk that stand behind them, these calls were
    /// carried out here, in this order, and came to this.
    ghost at: { Self → T → Self → T → List Invoked → Type 0 };

    /// Carries out one call. Its parameters are none where they were an object. A value that it gives has no float.
    fn call(
        &mut self,
        alloc: Global,
        desk: &mut T,
        method: &str,
        params: Option<&[Value]>,
    ) -> Result<Outcome, NoMemory>
        ensures took { Extends (at self.old desk.old) (at self.new desk.new)
            (turn_of method.now (seen_if_any params.entry) result ∷ []) }
        ensures plain { IfOk result (λ outcome. IsPlain (outcome_view outcome)) };
}
