//! The limits on metadata: only integers, nested to a limited depth.
ghost use Rattle.std.specs.Prelude.{◌≡◌, not, nat_le};
ghost use Rattle.serde_json.specs.{Data.{depth, items_depth, members_depth}, Written.{has_float, items_have_float, members_have_float}, View.{view, items_view, members_view}};

use serde_json::{Map, Value};

/// Whether each number in the value is a 64-bit integer. Only such values can be written as metadata.
#[cycle(whole)]
pub fn is_whole(value: &Value) -> bool
    ensures { result ≡ not (has_float (view value.now)) }
{
    match value {
        Value::Null => true,
        Value::Bool(_) => true,
        Value::Number(number) => !number.is_f64(),
        Value::String(_) => true,
        Value::Array(items) => items_are_whole(items),
        Value::Object(members) => members_are_whole(members),
    }
}

/// Whether each number in the items is a 64-bit integer.
#[cycle(whole)]
fn items_are_whole(items: &Vec<Value>) -> bool
    ensures { result ≡ not (items_have_float (items_view items.now.items)) }
{
    for item in items {
        if !is_whole(item) {
            return false;
        }
    }
    true
}

/// Whether each number in the members is a 64-bit integer.
#[cycle(whole)]
fn members_are_whole(members: &Map<String, Value>) -> bool
    ensures { result ≡ not (members_have_float (members_view members.now.entries)) }
{
    for (_key, member) in members.iter() {
        if !is_whole(member) {
            return false;
        }
    }
    true
}

/// Whether the arrays and objects in the value nest at most this many levels deep.
#[cycle(nested)]
pub(crate) fn nests_within(value: &Value, levels: u64) -> bool
    ensures { result ≡ nat_le (depth (view value.now)) levels }
{
    match value {
        Value::Null => true,
        Value::Bool(_) => true,
        Value::Number(_) => true,
        Value::String(_) => true,
        Value::Array(items) => levels > 0 && items_nest_within(items, levels - 1),
        Value::Object(members) => levels > 0 && members_nest_within(members, levels - 1),
    }
}

/// Whether the items nest at most this many levels deep.
#[cycle(nested)]
fn items_nest_within(items: &Vec<Value>, levels: u64) -> bool
    ensures { result ≡ nat_le (items_depth (items_view items.now.items)) levels }
{
    for item in items {
        if !nests_within(item, levels) {
            return false;
        }
    }
    true
}

/// Whether the members nest at most this many levels deep.
#[cycle(nested)]
fn members_nest_within(members: &Map<String, Value>, levels: u64) -> bool
    ensures { result ≡ nat_le (members_depth (members_view members.now.entries)) levels }
{
    for (_key, member) in members.iter() {
        if !nests_within(member, levels) {
            return false;
        }
    }
    true
}
