// The names of the methods.
ghost use Rattle.std.specs.Prelude.{◌≡◌, IfOk};
ghost use Rattle.serde_json.specs.View.{view};
ghost use Rattle.rpc_console.specs.Names.{names_data};

use crate::methods::METHODS;
use dl_kinds::NoMemory;
use serde_json::Value;
use std::alloc::Global;

/// What `system.listMethods` gives: all names, in ascending order.
pub fn method_names(alloc: Global) -> Result<Value, NoMemory>
    ensures { IfOk result (λ names. view names ≡ names_data) }
{
    let mut names = Vec::new(alloc);
    for method in METHODS.iter() {
        names.push(Value::try_from_str(alloc, method.name())?)?;
    }
    names.push(Value::try_from_str(alloc, "system.multicall")?)?;
    Ok(Value::Array(names))
}
