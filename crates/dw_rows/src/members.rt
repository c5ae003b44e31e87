ghost use Rattle.std.specs.Prelude.{◌≡◌, option_map, map};
ghost use Rattle.std.specs.List.{list_any};
ghost use Rattle.std.specs.Str.{bytes_eq};
ghost use Rattle.serde_json.specs.View.{view, members_view};
ghost use Rattle.dw_rows.specs.Values.{text_at, object_at, has_only_names, has_only};

use serde_json::{Map, Value};

/// A member that is a text.
pub fn text_member<'v>(value: &'v Value, name: &str) -> Option<&'v str>
    ensures { option_map (λ s. s.now) result ≡ text_at name.now (view value.now) }
{
    value.get(name).and_then(Value::as_str)
}

/// A member that is an object.
pub fn object_member<'v>(value: &'v Value, name: &str) -> Option<&'v Map<String, Value>>
    ensures { option_map (λ m. members_view m.now.entries) result ≡ object_at name.now (view value.now) }
{
    value.get(name).and_then(Value::as_object)
}

/// Whether a text is one of these.
fn is_one_of(names: &[&str], name: &str) -> bool
    ensures { result ≡ list_any (λ n. bytes_eq n name.now) (map (λ n. n.now) names.now) }
{
    for one in names {
        if *one == name {
            return true;
        }
    }
    false
}

fn has_only_these(names: &[&str], members: &Map<String, Value>) -> bool
    ensures { result ≡ has_only_names (map (λ n. n.now) names.now) (members_view members.now.entries) }
{
    for (name, _) in members.iter() {
        if !is_one_of(names, name.as_str()) {
            return false;
        }
    }
    true
}

/// Whether a value is an object with no member but these.
pub fn is_object_of(names: &[&str], value: &Value) -> bool
    ensures { result ≡ has_only (map (λ n. n.now) names.now) (view value.now) }
{
    match value.as_object() {
        Some(members) => has_only_these(names, members),
        None => false,
    }
}
