//! Fields, numbers, texts and lists of a JSON value.

ghost use Rattle.std.specs.Prelude.{◌≡◌};
ghost use Rattle.sz_script.specs.Terms.{map, length, option_map, option_and_then, get, as_str};
ghost use Rattle.sz_script.specs.Terms.{view, has_fields, number_in, whole_in, list_in, two_in};
ghost use Rattle.sz_script.specs.Terms.{numbers_in, items_in, first_length, at};

use serde_json::Value;

/// Whether the value is an object with exactly these fields.
pub fn has_fields(value: &Value, names: &[&str]) -> bool
    ensures { result ≡ has_fields (map (λ n. n.now) names.now) (view value.now) }
{
    let Some(members) = value.as_object() else {
        return false;
    };
    if members.len() != names.len() {
        return false;
    }
    for name in names {
        if value.get(*name).is_none() {
            return false;
        }
    }
    true
}

/// The text of a field.
pub fn text_at<'a>(value: &'a Value, key: &str) -> Option<&'a str>
    ensures { option_map (λ s. s.now) result ≡ at as_str key.now (view value.now) }
{
    value.get(key)?.as_str()
}

/// The number of a field.
pub fn number_at(value: &Value, key: &str) -> Option<u32>
    ensures { result ≡ at number_in key.now (view value.now) }
{
    number_of(value.get(key)?)
}

/// A whole number from 0 to 4,294,967,295.
pub fn number_of(value: &Value) -> Option<u32>
    ensures { result ≡ number_in (view value.now) }
{
    match value.as_u64() {
        Some(n) => {
            if n <= u32::MAX as u64 {
                Some(n as u32)
            } else {
                None
            }
        }
        None => None,
    }
}

/// The whole number of a field.
pub fn whole_at(value: &Value, key: &str) -> Option<i64>
    ensures { result ≡ at whole_in key.now (view value.now) }
{
    whole_of(value.get(key)?)
}

/// A whole number that is an i64.
pub fn whole_of(value: &Value) -> Option<i64>
    ensures { result ≡ whole_in (view value.now) }
{
    value.as_i64()
}

/// The list of a field.
pub fn list_at<'a>(value: &'a Value, key: &str) -> Option<&'a [Value]>
    ensures { option_map (λ s. map view s.now) result ≡ at list_in key.now (view value.now) }
{
    list_of(value.get(key)?)
}

/// The items of a list.
pub fn list_of(value: &Value) -> Option<&[Value]>
    ensures { option_map (λ s. map view s.now) result ≡ list_in (view value.now) }
{
    match value.as_array() {
        Some(items) => Some(items.as_slice()),
        None => None,
    }
}

/// How many items a list has, and 0 where the value is none.
pub fn length_of(value: &Value) -> usize
    ensures { result ≡ length (items_in (view value.now)) }
{
    match list_of(value) {
        Some(items) => items.len(),
        None => 0,
    }
}

/// How many items the first of some values has.
pub fn first_length(values: &[Value]) -> usize
    ensures { result ≡ first_length (map view values.now) }
{
    match values.first() {
        Some(first) => length_of(first),
        None => 0,
    }
}

/// Two numbers.
pub fn numbers_of(value: &Value) -> Option<(u32, u32)>
    ensures { result ≡ numbers_in (view value.now) }
{
    let (first, second) = two_of(value)?;
    match (number_of(first), number_of(second)) {
        (Some(a), Some(b)) => Some((a, b)),
        _ => None,
    }
}

/// The two items of a list of two.
pub fn two_of(value: &Value) -> Option<(&Value, &Value)>
    ensures { option_map (λ p. (view p.0.now, view p.1.now)) result ≡ two_in (view value.now) }
{
    match list_of(value) {
        Some(list) => {
            if list.len() == 2 {
                Some((&list[0], &list[1]))
            } else {
                None
            }
        }
        None => None,
    }
}
