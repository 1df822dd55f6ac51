//! Facts that hold of every JSON value and of all bytes. A function here looks through a value, so that contracts can
//! use these facts.
ghost use Rattle.std.specs.{Prelude.{◌<◌, ◌^◌, string_cmp, FitsSigned}, Int.{w64}, BTreeMap.{IsOrdered}};
ghost use Rattle.serde_json.specs.View.{view, number_view, items_view, members_view};
ghost use Rattle.cacache_entry.specs.FittingEntries.{EachIsByte, IsJson};
ghost use Rattle.cacache_calls.specs.JsonCode.{IsRanged, AllJson, NamedJson};

use serde_json::{Map, Number, Value};

/// Looks through a value. Every value prints as UTF-8, and has the names of its objects in order and its numbers in
/// range.
#[cycle(json)]
pub fn look_through(value: &Value)
    ensures { IsJson (view value.now) }
{
    match value {
        Value::Null => (),
        Value::Bool(_) => (),
        Value::Number(number) => look_at_number(number),
        Value::String(_) => (),
        Value::Array(items) => look_through_items(items),
        Value::Object(members) => look_through_members(members),
    }
}

/// An unsigned 64-bit number.
fn natural(number: u64)
    ensures { number < 2 ^ 64 }
{}

/// A signed 64-bit number.
fn whole(number: i64)
    ensures { FitsSigned w64 number }
{}

/// Looks at a number.
fn look_at_number(number: &Number)
    ensures { IsRanged (number_view number.now) }
{
    if let Some(number) = number.as_u64() {
        natural(number);
    } else if let Some(number) = number.as_i64() {
        whole(number);
    }
}

/// Looks through the items of an array.
#[cycle(json)]
fn look_through_items(items: &Vec<Value>)
    ensures { AllJson (items_view items.now.items) }
{
    for item in items {
        look_through(item);
    }
}

/// Looks through the members of an object.
#[cycle(json)]
fn look_through_members(members: &Map<String, Value>)
    ensures named { NamedJson (members_view members.now.entries) }
    ensures ordered { IsOrdered string_cmp members.now }
{
    for (_name, member) in members.iter() {
        look_through(member);
    }
}

/// An 8-bit number.
fn octet(byte: u8)
    ensures { byte < 256 }
{}

/// Looks through bytes.
pub fn look_through_bytes(bytes: &[u8])
    ensures { EachIsByte bytes.now }
{
    for byte in bytes {
        octet(*byte);
    }
}
