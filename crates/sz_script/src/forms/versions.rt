//! The forms that speak of a version by its number: refresh, merge, merged, await and show.

ghost use Rattle.std.specs.Prelude.{◌≡◌};
ghost use Rattle.sz_script.specs.Terms.{IfOk, view, reading_of_form, refresh_form, new_cell_in};
ghost use Rattle.sz_script.specs.Terms.{new_cell_at, merge_form, merged_form, await_form};
ghost use Rattle.sz_script.specs.Terms.{show_form, Reads};

use crate::command::{Command, LineFault, NO_FORM, NewCell};
use crate::each::{Listed, each_at};
use crate::lists::NewCells;
use crate::{fields, layers};
use serde_json::Value;
use std::alloc::{AllocError, Global};

/// {"refresh":U,"input":U,"set":[NEW,..]}: set cells of a base array of a version, and start its
/// flow again on the array that they give.
pub fn refresh(alloc: Global, value: &Value) -> Result<Command, LineFault>
    ensures { Reads (reading_of_form (refresh_form.draft (view value.now))) result }
{
    let version = fields::number_at(value, "refresh").ok_or(NO_FORM)?;
    let input = fields::number_at(value, "input").ok_or(NO_FORM)?;
    let set = NewCells::of(each_at(alloc, value, "set")?.ok_or(NO_FORM)?);
    Ok(Command::Refresh {
        version,
        input,
        set,
    })
}

impl Listed for NewCell {
    ghost said = { new_cell_in };

    /// [U,U,VALUE], a row and a column of layer 0 and what the cell is to hold, or [U,U,U,VALUE],
    /// a layer, a row in it, a column and what the cell is to hold
    fn of_item(_alloc: Global, value: &Value) -> Result<Option<NewCell>, AllocError> {
        Ok(match fields::list_of(value) {
            Some([row, col, value]) => new_cell_at(0, row, col, value),
            Some([layer, row, col, value]) => match fields::number_of(layer) {
                Some(layer) => new_cell_at(layer, row, col, value),
                None => None,
            },
            _ => None,
        })
    }
}

/// The cell of a layer in this row and column, with what it is to hold.
fn new_cell_at(layer: u32, row: &Value, col: &Value, value: &Value) -> Option<NewCell>
    ensures { result ≡ new_cell_at layer (view row.now) (view col.now) (view value.now) }
{
    let row = fields::number_of(row)?;
    let col = fields::number_of(col)?;
    let value = layers::value_of(value)?;
    Some(NewCell {
        layer,
        row,
        col,
        value,
    })
}

/// {"merge":U}: merge the stores of a version.
pub fn merge(value: &Value) -> Result<Command, LineFault>
    ensures { Reads (reading_of_form (merge_form.draft (view value.now))) result }
{
    let version = fields::number_at(value, "merge").ok_or(NO_FORM)?;
    Ok(Command::Merge { version })
}

/// {"merged":U}: tell the kinds of lineage of a version's merged stores.
pub fn merged(value: &Value) -> Result<Command, LineFault>
    ensures { Reads (reading_of_form (merged_form.draft (view value.now))) result }
{
    let version = fields::number_at(value, "merged").ok_or(NO_FORM)?;
    Ok(Command::Merged { version })
}

/// {"await":U}: await a version.
pub fn awaiting(value: &Value) -> Result<Command, LineFault>
    ensures { Reads (reading_of_form (await_form.draft (view value.now))) result }
{
    let version = fields::number_at(value, "await").ok_or(NO_FORM)?;
    Ok(Command::Await { version })
}

/// {"show":U,"node":U}: show the output of a node of a version.
pub fn show(value: &Value) -> Result<Command, LineFault>
    ensures { Reads (reading_of_form (show_form.draft (view value.now))) result }
{
    let version = fields::number_at(value, "show").ok_or(NO_FORM)?;
    let node = fields::number_at(value, "node").ok_or(NO_FORM)?;
    Ok(Command::Show { version, node })
}
