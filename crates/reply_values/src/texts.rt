// Values that are texts.
ghost use Rattle.std.specs.Prelude.{◌≡◌, IfOk};
ghost use Rattle.serde_json.specs.Data.{string};
ghost use Rattle.serde_json.specs.View.{view};
ghost use Rattle.reply_values.specs.Members.{decimal_data, truth_data, gid_data};

use dl_kinds::{Gid, NoMemory};
use serde_json::Value;
use std::alloc::Global;

pub(crate) fn decimal_value(alloc: Global, number: u64) -> Result<Value, NoMemory>
    ensures { IfOk result (λ value. view value ≡ decimal_data number) }
{
    Ok(Value::String(format!(in alloc; "{number}")?))
}

pub(crate) fn truth_value(alloc: Global, holds: bool) -> Result<Value, NoMemory>
    ensures { IfOk result (λ value. view value ≡ truth_data holds) }
{
    if holds {
        Value::try_from_str(alloc, "true")
    } else {
        Value::try_from_str(alloc, "false")
    }
}

pub(crate) fn gid_value(alloc: Global, gid: Gid) -> Result<Value, NoMemory>
    ensures { IfOk result (λ value. view value ≡ gid_data gid) }
{
    Ok(Value::String(hex::encode(alloc, gid.0.to_be_bytes())?))
}
