// What is told of all downloads.
ghost use Rattle.std.specs.Prelude.{◌≡◌, IfOk};
ghost use Rattle.serde_json.specs.View.{view};
ghost use Rattle.reply_values.specs.Views.{stat_data};

use crate::members::put_number;
use dl_kinds::NoMemory;
use run_report::StatView;
use serde_json::{Map, Value};
use std::alloc::Global;

pub(crate) fn stat_value(alloc: Global, stat: &StatView) -> Result<Value, NoMemory>
    ensures { IfOk result (λ value. view value ≡ stat_data stat.now) }
{
    let mut members = Map::new(alloc);
    put_number(alloc, &mut members, "downloadSpeed", stat.download_speed)?;
    put_number(alloc, &mut members, "numActive", stat.num_active)?;
    put_number(alloc, &mut members, "numStopped", stat.num_stopped)?;
    put_number(
        alloc,
        &mut members,
        "numStoppedTotal",
        stat.num_stopped_total,
    )?;
    put_number(alloc, &mut members, "numWaiting", stat.num_waiting)?;
    put_number(alloc, &mut members, "uploadSpeed", stat.upload_speed)?;
    Ok(Value::Object(members))
}
