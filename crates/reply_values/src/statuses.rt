// What is told of downloads.
ghost use Rattle.std.specs.Prelude.{◌≡◌, ◌∷◌, [], codes, IfOk, OnOk, map, option_map};
ghost use Rattle.rpc_envelope.specs.Faults.{status_word};
ghost use Rattle.serde_json.specs.Data.{string};
ghost use Rattle.serde_json.specs.View.{view, members_view};
ghost use Rattle.reply_values.specs.Members.{decimal_data, gid_data, named_if, put_all};
ghost use Rattle.reply_values.specs.Views.{files_data, status_members, status_data, statuses_data};

use crate::files::files_value;
use crate::members::{keep_chosen, put_number, put_number_if, put_text, put_text_if};
use crate::texts::gid_value;
use dl_kinds::{NoMemory, Status};
use rpc_console::Keys;
use run_report::{StatusView, StatusViews};
use serde_json::{Map, Value, put};
use std::alloc::Global;

fn status_word(status: Status) -> &'static str
    ensures { result.now ≡ status_word status }
{
    match status {
        Status::Active => "active",
        Status::Waiting => "waiting",
        Status::Paused => "paused",
        Status::Failed => "error",
        Status::Complete => "complete",
        Status::Removed => "removed",
    }
}

fn put_lengths(
    alloc: Global,
    members: &mut Map<String, Value>,
    status: &StatusView,
) -> Result<(), NoMemory>
    ensures { OnOk result (members_view members.new.entries ≡ put_all (
        (codes "completedLength", decimal_data status.now.completed_length)
        ∷ (codes "numPieces", decimal_data status.now.num_pieces)
        ∷ (codes "pieceLength", decimal_data status.now.piece_length)
        ∷ (codes "totalLength", decimal_data status.now.total_length)
        ∷ []) (members_view members.old.entries)) }
{
    put_number(alloc, members, "completedLength", status.completed_length)?;
    put_number(alloc, members, "numPieces", status.num_pieces)?;
    put_number(alloc, members, "pieceLength", status.piece_length)?;
    put_number(alloc, members, "totalLength", status.total_length)
}

fn put_speeds(
    alloc: Global,
    members: &mut Map<String, Value>,
    status: &StatusView,
) -> Result<(), NoMemory>
    ensures { OnOk result (members_view members.new.entries ≡ put_all (
        (codes "connections", decimal_data status.now.connections)
        ∷ (codes "downloadSpeed", decimal_data status.now.download_speed)
        ∷ (codes "uploadLength", decimal_data status.now.upload_length)
        ∷ (codes "uploadSpeed", decimal_data status.now.upload_speed)
        ∷ []) (members_view members.old.entries)) }
{
    put_number(alloc, members, "connections", status.connections)?;
    put_number(alloc, members, "downloadSpeed", status.download_speed)?;
    put_number(alloc, members, "uploadLength", status.upload_length)?;
    put_number(alloc, members, "uploadSpeed", status.upload_speed)
}

fn put_names(
    alloc: Global,
    members: &mut Map<String, Value>,
    status: &StatusView,
) -> Result<(), NoMemory>
    ensures { OnOk result (members_view members.new.entries ≡ put_all (
        (codes "gid", gid_data status.now.gid)
        ∷ (codes "files", files_data status.now.files)
        ∷ (codes "dir", string status.now.dir)
        ∷ (codes "status", string (status_word status.now.status))
        ∷ []) (members_view members.old.entries)) }
{
    let gid = gid_value(alloc, status.gid)?;
    let files = files_value(alloc, &status.files)?;
    put(members, alloc, "gid", gid)?;
    put(members, alloc, "files", files)?;
    put_text(alloc, members, "dir", status.dir.as_str())?;
    put_text(alloc, members, "status", status_word(status.status))
}

// What may be left out.
fn put_others(
    alloc: Global,
    members: &mut Map<String, Value>,
    status: &StatusView,
) -> Result<(), NoMemory>
    ensures { OnOk result (members_view members.new.entries
        ≡ put_all (named_if (codes "infoHash") (option_map string status.now.info_hash))
        (put_all (named_if (codes "errorMessage") (option_map string status.now.error_message))
        (put_all (named_if (codes "errorCode") (option_map decimal_data status.now.error_code))
        (put_all (named_if (codes "bitfield") (option_map string status.now.bitfield))
        (members_view members.old.entries))))) }
{
    put_text_if(alloc, members, "bitfield", &status.bitfield)?;
    put_number_if(alloc, members, "errorCode", status.error_code)?;
    put_text_if(alloc, members, "errorMessage", &status.error_message)?;
    put_text_if(alloc, members, "infoHash", &status.info_hash)
}

fn status_members(alloc: Global, status: &StatusView) -> Result<Map<String, Value>, NoMemory>
    ensures { IfOk result (λ members. members_view members.entries ≡ status_members status.now) }
{
    let mut members = Map::new(alloc);
    put_lengths(alloc, &mut members, status)?;
    put_speeds(alloc, &mut members, status)?;
    put_names(alloc, &mut members, status)?;
    put_others(alloc, &mut members, status)?;
    Ok(members)
}

/// An object of the members that the keys choose.
pub(crate) fn status_value(
    alloc: Global,
    keys: &Keys,
    status: &StatusView,
) -> Result<Value, NoMemory>
    ensures { IfOk result (λ value. view value ≡ status_data keys.now status.now) }
{
    let mut members = status_members(alloc, status)?;
    keep_chosen(keys, &mut members);
    Ok(Value::Object(members))
}

/// A list of such objects.
pub(crate) fn statuses_value(
    alloc: Global,
    keys: &Keys,
    statuses: &StatusViews,
) -> Result<Value, NoMemory>
    ensures { IfOk result (λ value. view value ≡ statuses_data keys.now statuses.now) }
{
    let mut values = Vec::new(alloc);
    for status in statuses.as_slice() {
        values.push(status_value(alloc, keys, status)?)?;
    }
    Ok(Value::Array(values))
}
