//! The forms that ask along a path, for its cells or for the ways of its steps: a version, a
//! direction, a path and cells.

ghost use Rattle.std.specs.Prelude.{◌≡◌};
ghost use Rattle.sz_script.specs.Terms.{IfOk, view, at, dir_in, reading_of_form, ask_form};
ghost use Rattle.sz_script.specs.Terms.{explain_form, question_in, step_in, named_cell_in};
ghost use Rattle.sz_script.specs.Terms.{named_cell_at, Reads};

use crate::command::{Command, LineFault, NO_FORM, NamedCell, PathStep};
use crate::each::{Listed, each_at};
use crate::lists::{NamedCells, Path};
use crate::{fields, words};
use serde_json::Value;
use std::alloc::{AllocError, Global};
use sz_spec::Dir;

/// {"ask":U,"dir":DIR,"path":[[U,U],..],"cells":[CELL,..]}: ask where a path leads from cells.
pub fn ask(alloc: Global, value: &Value) -> Result<Command, LineFault>
    ensures { Reads (reading_of_form (ask_form.draft (view value.now))) result }
{
    let q = question_of(alloc, value, "ask")?.ok_or(NO_FORM)?;
    Ok(Command::Ask {
        version: q.version,
        dir: q.dir,
        path: q.path,
        cells: q.cells,
    })
}

/// {"explain":U,"dir":DIR,"path":[[U,U],..],"cells":[CELL,..]}: by which ways an ask goes.
pub fn explain(alloc: Global, value: &Value) -> Result<Command, LineFault>
    ensures { Reads (reading_of_form (explain_form.draft (view value.now))) result }
{
    let q = question_of(alloc, value, "explain")?.ok_or(NO_FORM)?;
    Ok(Command::Explain {
        version: q.version,
        dir: q.dir,
        path: q.path,
        cells: q.cells,
    })
}

/// A version, a direction, a path and cells.
#[derive(Drop)]
pub struct Question {
    pub version: u32,
    pub dir: Dir,
    pub path: Path,
    pub cells: NamedCells,
}

/// The question of a value, whose first field is this and holds the version.
fn question_of(alloc: Global, value: &Value, word: &str) -> Result<Option<Question>, AllocError>
    ensures { IfOk result (λ o. o ≡ question_in word.now (view value.now)) }
{
    let Some(version) = fields::number_at(value, word) else {
        return Ok(None);
    };
    let Some(dir) = dir_at(value, "dir") else {
        return Ok(None);
    };
    let Some(path) = each_at(alloc, value, "path")? else {
        return Ok(None);
    };
    let Some(cells) = each_at(alloc, value, "cells")? else {
        return Ok(None);
    };
    Ok(Some(Question {
        version,
        dir,
        path: Path::of(path),
        cells: NamedCells::of(cells),
    }))
}

/// The direction of a field, by its word.
fn dir_at(value: &Value, key: &str) -> Option<Dir>
    ensures { result ≡ at dir_in key.now (view value.now) }
{
    words::dir_named(fields::text_at(value, key)?)
}

impl Listed for PathStep {
    ghost said = { step_in };

    /// [U,U]
    fn of_item(_alloc: Global, value: &Value) -> Result<Option<PathStep>, AllocError> {
        match fields::numbers_of(value) {
            Some((node, input)) => Ok(Some(PathStep { node, input })),
            None => Ok(None),
        }
    }
}

impl Listed for NamedCell {
    ghost said = { named_cell_in };

    /// [U,U], a row and a column of layer 0, or [U,U,U], a layer, a row in it and a column
    fn of_item(_alloc: Global, value: &Value) -> Result<Option<NamedCell>, AllocError> {
        Ok(match fields::list_of(value) {
            Some([row, col]) => named_cell_at(0, row, col),
            Some([layer, row, col]) => match fields::number_of(layer) {
                Some(layer) => named_cell_at(layer, row, col),
                None => None,
            },
            _ => None,
        })
    }
}

/// The place of a layer in this row and column.
fn named_cell_at(layer: u32, row: &Value, col: &Value) -> Option<NamedCell>
    ensures { result ≡ named_cell_at layer (view row.now) (view col.now) }
{
    let row = fields::number_of(row)?;
    let col = fields::number_of(col)?;
    Some(NamedCell { layer, row, col })
}
