// What comes of calls by their replies.
ghost use Rattle.std.specs.Prelude.{◌≡◌, IfOk, IsErr, IsOk, map};
ghost use Rattle.dl_queue.specs.declared.kinds.QueueErr.TheVariants as refusal;
ghost use Rattle.rpc_envelope.specs.Outcomes.{outcome_view};
ghost use Rattle.rpc_envelope.specs.Turns.{IsPlain, failed};
ghost use Rattle.run_report.specs.declared.kinds.Reply.TheVariants as reply_cases;
ghost use Rattle.serde_json.specs.Data.{no_members};
ghost use Rattle.serde_json.specs.View.{view, members_view};
ghost use Rattle.reply_values.specs.Members.{put_all};
ghost use Rattle.reply_values.specs.Outcomes as spec;
ghost use Rattle.reply_values.specs.Outcomes.{IsRefusal, named_text, options_data, refusal_fault, reply_outcome, version_data};

use crate::files::{files_value, uris_value};
use crate::laws::outcomes_are_plain;
use crate::members::put_text;
use crate::stats::stat_value;
use crate::statuses::{status_value, statuses_value};
use crate::texts::gid_value;
use dl_kinds::NoMemory;
use dl_queue::QueueErr;
use rpc_console::{Keys, method_names};
use rpc_envelope::{Outcome, RpcFault};
use run_report::{Pairs, Reply};
use serde_json::{Map, Value, put};
use std::alloc::Global;

fn refusal_outcome(error: QueueErr) -> Result<Outcome, NoMemory>
    ensures told { IfOk result (λ outcome. outcome_view outcome ≡ failed (refusal_fault error)) }
    ensures memory { error ≡ refusal.NoMemory → IsErr result }
    ensures refused { IsRefusal (reply_cases.Refused error) → IsOk result }
{
    match error {
        QueueErr::NotFound => Ok(Outcome::Failed(RpcFault::GidUnknown)),
        QueueErr::Ambiguous { .. } => Ok(Outcome::Failed(RpcFault::GidAmbiguous)),
        QueueErr::WrongStatus(status) => Ok(Outcome::Failed(RpcFault::WrongStatus(status))),
        QueueErr::SameGid => Ok(Outcome::Failed(RpcFault::GidInUse)),
        QueueErr::Full { .. } => Ok(Outcome::Failed(RpcFault::TooManyDownloads)),
        QueueErr::NoMemory => Err(NoMemory),
    }
}

fn option_members(alloc: Global, pairs: &Pairs) -> Result<Map<String, Value>, NoMemory>
    ensures { IfOk result (λ members. members_view members.entries
        ≡ put_all (map named_text pairs.now) no_members) }
{
    let mut members = Map::new(alloc);
    for (name, text) in pairs.as_slice() {
        put_text(alloc, &mut members, name.as_str(), text.as_str())?;
    }
    Ok(members)
}

fn options_value(alloc: Global, pairs: &Pairs) -> Result<Value, NoMemory>
    ensures { IfOk result (λ value. view value ≡ options_data pairs.now) }
{
    let members = option_members(alloc, pairs)?;
    Ok(Value::Object(members))
}

fn version_value(alloc: Global) -> Result<Value, NoMemory>
    ensures { IfOk result (λ value. view value ≡ version_data) }
{
    let mut members = Map::new(alloc);
    put(
        &mut members,
        alloc,
        "enabledFeatures",
        Value::Array(Vec::new(alloc)),
    )?;
    put_text(alloc, &mut members, "version", "1.0.0")?;
    Ok(Value::Object(members))
}

fn outcome_of(alloc: Global, reply: &Reply, keys: &Keys) -> Result<Outcome, NoMemory>
    ensures told { IfOk result (λ outcome.
        outcome_view outcome ≡ reply_outcome reply.now keys.now) }
    ensures memory { reply.now ≡ reply_cases.Refused refusal.NoMemory → IsErr result }
    ensures refused { IsRefusal reply.now → IsOk result }
{
    match reply {
        Reply::Gid(gid) => Ok(Outcome::Given(gid_value(alloc, *gid)?)),
        Reply::Fine => Ok(Outcome::Given(Value::try_from_str(alloc, "OK")?)),
        Reply::Status(status) => Ok(Outcome::Given(status_value(alloc, keys, status)?)),
        Reply::Statuses(statuses) => Ok(Outcome::Given(statuses_value(alloc, keys, statuses)?)),
        Reply::Files(files) => Ok(Outcome::Given(files_value(alloc, files)?)),
        Reply::Uris(uris) => Ok(Outcome::Given(uris_value(alloc, uris)?)),
        Reply::Options(pairs) => Ok(Outcome::Given(options_value(alloc, pairs)?)),
        Reply::Position(place) => Ok(Outcome::Given(Value::from(*place))),
        Reply::Stat(stat) => Ok(Outcome::Given(stat_value(alloc, stat)?)),
        Reply::Version => Ok(Outcome::Given(version_value(alloc)?)),
        Reply::Refused(error) => refusal_outcome(*error),
    }
}

/// What comes of a call by its reply: a value, or the fault of one that changes nothing. Of a status the members are
/// told that the keys choose. Memory is wanting, too, where it was for the call; a refusal takes none.
pub fn reply_value(alloc: Global, reply: &Reply, keys: &Keys) -> Result<Outcome, NoMemory>
    ensures told { IfOk result (λ outcome.
        outcome_view outcome ≡ reply_outcome reply.now keys.now) }
    ensures plain { IfOk result (λ outcome. IsPlain (outcome_view outcome)) }
    ensures memory { reply.now ≡ reply_cases.Refused refusal.NoMemory → IsErr result }
    ensures refused { IsRefusal reply.now → IsOk result }
{
    outcomes_are_plain();
    outcome_of(alloc, reply, keys)
}

/// What comes of `system.listMethods`: the names of all methods.
pub fn methods_outcome(alloc: Global) -> Result<Outcome, NoMemory>
    ensures told { IfOk result (λ outcome. outcome_view outcome ≡ spec.methods_outcome) }
    ensures plain { IfOk result (λ outcome. IsPlain (outcome_view outcome)) }
{
    outcomes_are_plain();
    Ok(Outcome::Given(method_names(alloc)?))
}
