ghost use Rattle.std.specs.Prelude.{◌≡◌, ◌≤◌, IfSome, option_map};
ghost use Rattle.serde_json.specs.View.{view, items_view};
ghost use Rattle.dw_wire.specs.ReadLine.{bool_at, array_at, are_texts as all_texts, texts_at, asked_texts as asked, whole_at, counted_to as counted, size_at as size_part};

use serde_json::Value;

/// A member that is a truth value.
pub fn bool_member(value: &Value, name: &str) -> Option<bool>
    ensures { result ≡ bool_at name.now (view value.now) }
{
    value.get(name).and_then(Value::as_bool)
}

/// A member that is a list.
pub fn list_member<'v>(value: &'v Value, name: &str) -> Option<&'v Vec<Value>>
    ensures { option_map (λ v. items_view v.now.items) result ≡ array_at name.now (view value.now) }
{
    value.get(name).and_then(Value::as_array)
}

fn are_texts(items: &[Value]) -> bool
    ensures { result ≡ all_texts (items_view items.now) }
{
    for value in items {
        if !value.is_string() {
            return false;
        }
    }
    true
}

/// A member that is a list of texts.
pub fn texts_member<'v>(value: &'v Value, name: &str) -> Option<&'v Vec<Value>>
    ensures { option_map (λ v. items_view v.now.items) result ≡ texts_at name.now (view value.now) }
{
    let items = list_member(value, name)?;
    if !are_texts(items.as_slice()) {
        return None;
    }
    Some(items)
}

/// Such a member, `Some(None)` where it is missing.
pub fn asked_texts<'v>(value: &'v Value, name: &str) -> Option<Option<&'v Vec<Value>>>
    ensures { option_map (λ o. option_map (λ v. items_view v.now.items) o) result ≡ asked name.now (view value.now) }
{
    if value.get(name).is_none() {
        return Some(None);
    }
    match texts_member(value, name) {
        Some(items) => Some(Some(items)),
        None => None,
    }
}

/// A member that is a whole number of 64 bits, `Some(None)` where that is below zero.
pub fn whole_member(value: &Value, name: &str) -> Option<Option<u64>>
    ensures { result ≡ whole_at name.now (view value.now) }
{
    let number = value.get(name).and_then(Value::as_number)?;
    if let Some(n) = number.as_u64() {
        return Some(Some(n));
    }
    if number.is_i64() {
        return Some(None);
    }
    None
}

/// The size of a page, where it is a whole number: 10 where it is not said.
pub fn size_member(value: &Value) -> Option<Option<u64>>
    ensures { result ≡ size_part (view value.now) }
{
    if value.get("size").is_none() {
        return Some(Some(10));
    }
    whole_member(value, "size")
}

/// The number, where it is from 1 to the most.
pub fn counted_to(most: u64, number: Option<u64>) -> Option<u64>
    ensures is { result ≡ counted most number }
    ensures within { IfSome result (λ n. n ≤ most) }
{
    let number = number?;
    if number < 1 || number > most {
        return None;
    }
    Some(number)
}
