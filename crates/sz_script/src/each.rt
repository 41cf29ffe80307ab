//! Lists of a line, read item by item.

ghost use Rattle.std.specs.Prelude.{◌≡◌};
ghost use Rattle.sz_script.specs.Terms.{map, option_map, IfOk, view, each_of, list_at};

use crate::fields;
use serde_json::Value;
use std::alloc::{AllocError, Global};

/// What a list of a line holds.
pub trait Listed: Drop {
    ghost use Rattle.std.specs.Prelude.{Option};
    ghost use Rattle.serde_json.specs.Data.{Data};

    ghost said: { Data → Option Self };

    /// What an item says, where it says something.
    fn of_item(alloc: Global, value: &Value) -> Result<Option<Self>, AllocError>
        ensures { IfOk result (λ o. o ≡ said (view value.now)) };
}

/// What each item of a list says, where each says something.
pub fn each<T: Listed>(alloc: Global, list: &[Value]) -> Result<Option<Vec<T>>, AllocError>
    ensures { IfOk result (λ o. option_map (λ v. v.items) o
        ≡ each_of T.said (map view list.now)) }
{
    let mut said = Vec::new(alloc);
    for item in list {
        let Some(one) = T::of_item(alloc, item)? else {
            return Ok(None);
        };
        said.push(one)?;
    }
    Ok(Some(said))
}

/// The same of the list of a field.
pub fn each_at<T: Listed>(
    alloc: Global,
    value: &Value,
    key: &str,
) -> Result<Option<Vec<T>>, AllocError>
    ensures { IfOk result (λ o. option_map (λ v. v.items) o
        ≡ list_at T.said key.now (view value.now)) }
{
    match fields::list_at(value, key) {
        Some(list) => each(alloc, list),
        None => Ok(None),
    }
}
