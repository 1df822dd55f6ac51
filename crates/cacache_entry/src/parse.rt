//! Reads an entry from its JSON text.
ghost use Rattle.std.specs.Prelude.{◌≡◌, IfOk, codes, option_map, option_and_then, string_bytes};
ghost use Rattle.serde_json.specs.{Find.{get}, View.{view, items_view}};
ghost use Rattle.cacache_entry.specs.{EntryTexts.{or_null, whole_value, text_or_none, bytes_or_none, bytes_of as bytes_of_items, entry_read as entry_of_data, read_entry as entry_of_text}, View.{entry_view}};

use crate::limits::is_whole;
use crate::metadata::SerializableMetadata;
use serde_json::Value;
use std::alloc::{AllocError, Global};

/// The entry that a text is read as. `None` if the text isn't a JSON object with an entry's members.
pub(crate) fn read_entry(
    alloc: Global,
    text: &str,
) -> Result<Option<SerializableMetadata>, AllocError>
    ensures { IfOk result (λ o. option_map entry_view o ≡ entry_of_text text.now) }
{
    match Value::from_str(alloc, text) {
        Ok(mut value) => entry_of(alloc, &mut value),
        Err(error) => if error.is_memory() {
            Err(AllocError)
        } else {
            Ok(None)
        },
    }
}

/// The entry that a value is read as. `None` if the value isn't an object with an entry's members. The metadata is
/// taken out of the value, so that it needn't be copied.
fn entry_of(alloc: Global, value: &mut Value) -> Result<Option<SerializableMetadata>, AllocError>
    ensures { IfOk result (λ o. option_map entry_view o ≡ entry_of_data (view value.old)) }
{
    let Some(time) = value.get("time").and_then(Value::as_u64) else {
        return Ok(None);
    };
    let Some(size) = value.get("size").and_then(Value::as_u64) else {
        return Ok(None);
    };
    let Some(key) = value.get("key").and_then(Value::as_str) else {
        return Ok(None);
    };
    let key = String::from_str(alloc, key)?;
    let Some(integrity) = text_field(alloc, value.get("integrity"))? else {
        return Ok(None);
    };
    let Some(raw_metadata) = bytes_field(alloc, value.get("raw_metadata"))? else {
        return Ok(None);
    };
    let Some(metadata) = take_metadata(value) else {
        return Ok(None);
    };
    Ok(Some(SerializableMetadata {
        key,
        integrity,
        time: u128::from(time),
        size: size as usize,
        metadata,
        raw_metadata,
    }))
}

/// Takes the metadata out of a value. `None` if it is absent, or if one of its numbers isn't a 64-bit integer.
fn take_metadata(value: &mut Value) -> Option<Value>
    ensures { option_map view result
        ≡ option_and_then whole_value (get (codes "metadata") (view value.old)) }
{
    match value.get_mut("metadata") {
        Some(metadata) => if is_whole(metadata) {
            Some(metadata.take())
        } else {
            None
        },
        None => None,
    }
}

/// The text of a member that may be absent or null. `None` if the member is anything else.
fn text_field(alloc: Global, value: Option<&Value>) -> Result<Option<Option<String>>, AllocError>
    ensures { IfOk result (λ o. option_map (option_map string_bytes) o
        ≡ text_or_none (or_null (option_map (λ v. view v.now) value.entry))) }
{
    match value {
        None => Ok(Some(None)),
        Some(Value::Null) => Ok(Some(None)),
        Some(Value::String(text)) => Ok(Some(Some(text.clone()?))),
        Some(Value::Bool(_)) => Ok(None),
        Some(Value::Number(_)) => Ok(None),
        Some(Value::Array(_)) => Ok(None),
        Some(Value::Object(_)) => Ok(None),
    }
}

/// The bytes of a member that may be absent or null. `None` if the member is anything else.
fn bytes_field(alloc: Global, value: Option<&Value>) -> Result<Option<Option<Vec<u8>>>, AllocError>
    ensures { IfOk result (λ o. option_map (option_map (λ v. v.items)) o
        ≡ bytes_or_none (or_null (option_map (λ v. view v.now) value.entry))) }
{
    match value {
        None => Ok(Some(None)),
        Some(Value::Null) => Ok(Some(None)),
        Some(Value::Array(items)) => match bytes_of(alloc, items)? {
            Some(bytes) => Ok(Some(Some(bytes))),
            None => Ok(None),
        },
        Some(Value::Bool(_)) => Ok(None),
        Some(Value::Number(_)) => Ok(None),
        Some(Value::String(_)) => Ok(None),
        Some(Value::Object(_)) => Ok(None),
    }
}

/// The items as bytes. `None` if an item isn't an integer from 0 to 255.
fn bytes_of(alloc: Global, items: &Vec<Value>) -> Result<Option<Vec<u8>>, AllocError>
    ensures { IfOk result (λ o. option_map (λ v. v.items) o
        ≡ bytes_of_items (items_view items.now.items)) }
{
    let mut bytes = Vec::new(alloc);
    for item in items {
        let Some(number) = item.as_u64() else {
            return Ok(None);
        };
        let Ok(byte) = u8::try_from(number) else {
            return Ok(None);
        };
        bytes.push(byte)?;
    }
    Ok(Some(bytes))
}
