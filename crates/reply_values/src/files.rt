// What is told of files, and of their mirrors.
ghost use Rattle.std.specs.Prelude.{◌≡◌, IfOk, map};
ghost use Rattle.serde_json.specs.View.{view};
ghost use Rattle.reply_values.specs.Views.{uri_word, uri_data, uris_data, file_data, files_data};

use crate::members::{put_number, put_text};
use crate::texts::truth_value;
use dl_kinds::NoMemory;
use run_report::{FileView, FileViews, UriStatus, UriView, UriViews};
use serde_json::{Map, Value, put};
use std::alloc::Global;

fn uri_word(status: UriStatus) -> &'static str
    ensures { result.now ≡ uri_word status }
{
    match status {
        UriStatus::Used => "used",
        UriStatus::Waiting => "waiting",
    }
}

fn uri_value(alloc: Global, uri: &UriView) -> Result<Value, NoMemory>
    ensures { IfOk result (λ value. view value ≡ uri_data uri.now) }
{
    let mut members = Map::new(alloc);
    put_text(alloc, &mut members, "status", uri_word(uri.status))?;
    put_text(alloc, &mut members, "uri", uri.uri.as_str())?;
    Ok(Value::Object(members))
}

/// A list of the mirrors.
pub(crate) fn uris_value(alloc: Global, uris: &UriViews) -> Result<Value, NoMemory>
    ensures { IfOk result (λ value. view value ≡ uris_data uris.now) }
{
    let mut values = Vec::new(alloc);
    for uri in uris.as_slice() {
        values.push(uri_value(alloc, uri)?)?;
    }
    Ok(Value::Array(values))
}

fn file_value(alloc: Global, file: &FileView) -> Result<Value, NoMemory>
    ensures { IfOk result (λ value. view value ≡ file_data file.now) }
{
    let selected = truth_value(alloc, file.selected)?;
    let uris = uris_value(alloc, &file.uris)?;
    let mut members = Map::new(alloc);
    put_number(
        alloc,
        &mut members,
        "completedLength",
        file.completed_length,
    )?;
    put_number(alloc, &mut members, "index", file.index)?;
    put_number(alloc, &mut members, "length", file.length)?;
    put_text(alloc, &mut members, "path", file.path.as_str())?;
    put(&mut members, alloc, "selected", selected)?;
    put(&mut members, alloc, "uris", uris)?;
    Ok(Value::Object(members))
}

/// A list of the files.
pub(crate) fn files_value(alloc: Global, files: &FileViews) -> Result<Value, NoMemory>
    ensures { IfOk result (λ value. view value ≡ files_data files.now) }
{
    let mut values = Vec::new(alloc);
    for file in files.as_slice() {
        values.push(file_value(alloc, file)?)?;
    }
    Ok(Value::Array(values))
}
