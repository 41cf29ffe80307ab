//! The forms that hold an array: of one layer, the same as comma-separated text, and of several
//! layers.

ghost use Rattle.std.specs.Prelude.{◌≡◌, ◌∷◌};
ghost use Rattle.sz_script.specs.Terms.{[], option_map, view, reading_of_form, at, array_form};
ghost use Rattle.sz_script.specs.Terms.{one_layer, csv_form, layers_form, Reads};

use crate::command::{BAD_NAME, Command, LineFault, NO_FORM};
use crate::name::{Name, is_name};
use crate::{fields, layers, records};
use serde_json::Value;
use std::alloc::Global;
use std::slice::from_ref;

/// {"array":NAME,"cells":LIST}: an array of one layer.
pub fn array(alloc: Global, value: &Value) -> Result<Command, LineFault>
    ensures { Reads (reading_of_form (array_form.draft (view value.now))) result }
{
    let name = fields::text_at(value, "array").ok_or(NO_FORM)?;
    let rows = list_field(value, "cells").ok_or(NO_FORM)?;
    if !is_name(name) {
        return Err(BAD_NAME);
    }
    match layers::array_of(alloc, from_ref(rows)) {
        Ok(array) => {
            let name = Name::of(String::from_str(alloc, name)?);
            Ok(Command::Array { name, array })
        }
        Err(fault) => Err(fault),
    }
}

/// A field that is a list.
fn list_field<'a>(value: &'a Value, key: &str) -> Option<&'a Value>
    ensures { option_map (λ v. view v.now ∷ []) result ≡ at one_layer key.now (view value.now) }
{
    match value.get(key) {
        Some(field) => { if field.is_array() { Some(field) } else { None } }
        None => None,
    }
}

/// {"csv":NAME,"text":TEXT}: an array of one layer, as comma-separated text.
pub fn csv(alloc: Global, value: &Value) -> Result<Command, LineFault>
    ensures { Reads (reading_of_form (csv_form.draft (view value.now))) result }
{
    let name = fields::text_at(value, "csv").ok_or(NO_FORM)?;
    let text = fields::text_at(value, "text").ok_or(NO_FORM)?;
    if !is_name(name) {
        return Err(BAD_NAME);
    }
    match records::array_of(alloc, text.as_bytes()) {
        Ok(array) => {
            let name = Name::of(String::from_str(alloc, name)?);
            Ok(Command::Csv { name, array })
        }
        Err(fault) => Err(fault),
    }
}

/// {"layers":NAME,"cells":[LIST,..]}: an array of several layers.
pub fn layered(alloc: Global, value: &Value) -> Result<Command, LineFault>
    ensures { Reads (reading_of_form (layers_form.draft (view value.now))) result }
{
    let name = fields::text_at(value, "layers").ok_or(NO_FORM)?;
    let cells = fields::list_at(value, "cells").ok_or(NO_FORM)?;
    if !is_name(name) {
        return Err(BAD_NAME);
    }
    match layers::array_of(alloc, cells) {
        Ok(array) => {
            let name = Name::of(String::from_str(alloc, name)?);
            Ok(Command::Layers { name, array })
        }
        Err(fault) => Err(fault),
    }
}
