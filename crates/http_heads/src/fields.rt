// The fields of a head.
ghost use Rattle.std.specs.Prelude.{◌≡◌, ◌<◌, ◌≤◌, [], length, map, All, IfOk, OnOk, option_copied};
ghost use Rattle.std.specs.List.{list_any};
ghost use Rattle.http_header.specs.FieldName.{IsFieldName};
ghost use Rattle.http_header.specs.FieldValue.{IsFieldValue, plain_value};
ghost use Rattle.http_header.specs.HeaderMap.{append, append_all, value_count};
ghost use Rattle.http_header.specs.Token.{lowercase};
ghost use Rattle.httparse.specs.Spans.{IsHeaderWithin};
ghost use Rattle.http_heads.specs.Fields.{field_values, sole, field_names};
ghost use Rattle.http_heads.specs.Members.{lists};
ghost use Rattle.http_heads.specs.Spans.{entry_at, IsFieldAt};

use crate::MAX_HEAD_FIELDS;
use crate::members::lists;
use dl_kinds::NoMemory;
use http_header::{
    HeaderMap, HeaderMapError, HeaderName, HeaderNameError, HeaderValue, HeaderValueError,
    ValueIter,
};
use httparse::spans::HeaderSpan;
use std::alloc::Global;

fn add_field(
    alloc: Global,
    fields: &mut HeaderMap<HeaderValue>,
    name: &[u8],
    value: &[u8],
) -> Result<(), NoMemory>
    requires name { IsFieldName name.now }
    requires value { IsFieldValue value.now }
    requires names_fit { length fields.old < MAX_HEAD_FIELDS }
    requires values_fit { value_count fields.old < MAX_HEAD_FIELDS }
    ensures { OnOk result (fields.new
        ≡ append fields.old (lowercase name.now) (plain_value value.now)) }
{
    let name = match HeaderName::from_bytes(alloc, name) {
        Ok(name) => name,
        Err(HeaderNameError::Invalid) => unreachable!(),
        Err(HeaderNameError::OutOfMemory) => return Err(NoMemory),
    };
    let value = match HeaderValue::from_bytes(alloc, value) {
        Ok(value) => value,
        Err(HeaderValueError::Invalid) => unreachable!(),
        Err(HeaderValueError::OutOfMemory) => return Err(NoMemory),
    };
    match fields.append(name, value) {
        Ok(_) => Ok(()),
        Err(HeaderMapError::MaxSizeReached) => unreachable!(),
        Err(HeaderMapError::OutOfMemory) => Err(NoMemory),
    }
}

/// The fields that the spans cover.
pub(crate) fn fields_at(
    alloc: Global,
    bytes: &[u8],
    spans: &[HeaderSpan],
) -> Result<HeaderMap<HeaderValue>, NoMemory>
    requires within { All (IsHeaderWithin (length bytes.now)) spans.now }
    requires fields { All (IsFieldAt bytes.now) spans.now }
    requires few { length spans.now ≤ MAX_HEAD_FIELDS }
    ensures { IfOk result (λ fields. fields ≡ append_all [] (map (entry_at bytes.now) spans.now)) }
{
    let mut fields = HeaderMap::new(alloc);
    for span in spans {
        let name = span.name.of(bytes);
        let value = span.value.of(bytes);
        add_field(alloc, &mut fields, name, value)?;
    }
    Ok(fields)
}

/// The value of the only field of the name, in any case.
pub fn sole_field<'a>(fields: &'a HeaderMap<HeaderValue>, name: &str) -> Option<&'a [u8]>
    ensures { option_copied result ≡ sole (field_values fields.now (lowercase name.now)) }
{
    let mut values = fields.get_all(name).iter();
    let value = values.next()?;
    match values.next() {
        None => Some(value.as_bytes()),
        Some(_) => None,
    }
}

fn any_lists(mut values: ValueIter<'_, HeaderValue>, word: &[u8]) -> bool
    ensures { result ≡ list_any (λ value. lists word.now value.bytes) values.entry }
{
    values.any(|value| lists(value.as_bytes(), word))
}

/// Whether a field of the name lists the word: both are taken in any case.
pub fn field_names(fields: &HeaderMap<HeaderValue>, name: &str, word: &[u8]) -> bool
    ensures { result ≡ field_names fields.now (lowercase name.now) word.now }
{
    any_lists(fields.get_all(name).iter(), word)
}
