//! Replies, and the lines that they are written as. Contracts see a reply as a `Response`.
ghost use Rattle.std.specs.Prelude.{◌≡◌, ◌<◌, ◌≤◌, ◌++◌};
ghost use Rattle.sz_catalogue.specs.Terms.{[], OnOk, IfOk, string_bytes, flat_map, size_of};
ghost use Rattle.sz_catalogue.specs.Terms.{indexes_of, before, name_of_strategy, cell_text};
ghost use Rattle.sz_catalogue.specs.Terms.{value_text, shape_text, word_text, number_text};
ghost use Rattle.sz_catalogue.specs.Terms.{reply_text, reply_line, response_of};
ghost use Rattle.sz_catalogue.specs.declared.reply.Reply.TheVariants as reply_is;

use std::alloc::{AllocError, Global};
use std::fmt::Write;
use std::sync::Arc;
use sz_cells::{CellSet, NoMemory, Run, Shape};
use sz_planner::ChoiceList;
use sz_script::{Name, Refusal, StrategyList, strategy_name};
use sz_spec::{Array, Strategy, Value};

/// The answer to a line.
#[derive(Drop)]
pub enum Reply {
    /// An array is held as this version of its name.
    Array {
        name: Name,
        version: u32,
    },
    /// A flow is held.
    Flow {
        name: Name,
    },
    /// The strategies of a node of a flow are set.
    Strategy {
        name: Name,
        node: u32,
    },
    /// A version is started.
    Started {
        version: u32,
    },
    /// A version is awaited.
    Done {
        version: u32,
    },
    /// The cells of an ask.
    Cells {
        cells: CellSet,
    },
    /// The way of each step of a path, and how many cells are traced for them.
    Explain {
        used: StrategyList,
        traced: u64,
    },
    /// The output of a node.
    Values {
        array: Arc<Array>,
    },
    /// A list of strategies that is planned, one a node, its cost, and the units of its stores.
    Plan {
        cost: u64,
        units: u32,
        list: ChoiceList,
    },
    /// A version is started on an array with cells set, and so many node cells were computed again.
    Refreshed {
        version: u32,
        cells: u64,
    },
    /// The merge of a version is asked.
    Merging {
        version: u32,
    },
    /// How many kinds of lineage the nodes of a version have, one number for each store of full
    /// lineage.
    Merged {
        version: u32,
        kinds: Vec<u32>,
    },
    /// The line is refused.
    Refused(Refusal),
}

/// The reply line of the line of this number: the number, a blank, the reply's text and a newline.
/// Takes time in the length of the text.
pub fn reply_text(alloc: Global, line: u64, reply: &Reply) -> Result<Vec<u8>, NoMemory>
    ensures { IfOk result (λ bytes. bytes.items ≡ reply_line line (response_of reply.now)) }
{
    let mut text = String::new(alloc);
    push_line(&mut text, line, reply)?;
    Ok(text.into_bytes())
}

/// Writes the reply line of the line of this number.
fn push_line(text: &mut String, line: u64, reply: &Reply) -> Result<(), AllocError>
    ensures { OnOk result (string_bytes text.new
        ≡ string_bytes text.old ++ reply_line line (response_of reply.now)) }
{
    write!(text, "{line} ")?;
    push_reply(text, reply)?;
    text.push('\n')
}

/// Writes the text of a reply.
fn push_reply(text: &mut String, reply: &Reply) -> Result<(), AllocError>
    ensures { OnOk result (string_bytes text.new
        ≡ string_bytes text.old ++ reply_text (response_of reply.now)) }
{
    match reply {
        Reply::Array { name, version } => write!(text, "array {} {version}", name.as_str()),
        Reply::Flow { name } => write!(text, "flow {}", name.as_str()),
        Reply::Strategy { name, node } => write!(text, "strategy {} {node}", name.as_str()),
        Reply::Started { version } => write!(text, "started {version}"),
        Reply::Done { version } => write!(text, "done {version}"),
        Reply::Cells { cells } => {
            let count = cells.count();
            write!(text, "cells {count}")?;
            push_cells(text, cells)
        }
        Reply::Explain { used, traced } => {
            text.push_str("explain")?;
            push_ways(text, used.as_slice())?;
            write!(text, " traced {traced}")
        }
        Reply::Values { array } => {
            push_shape(text, array.shape())?;
            push_values(text, array.cells())
        }
        Reply::Plan { cost, units, list } => {
            write!(text, "plan {cost} {units}")?;
            push_ways(text, list.as_slice())
        }
        Reply::Refreshed { version, cells } => write!(text, "refreshed {version} cells {cells}"),
        Reply::Merging { version } => write!(text, "merging {version}"),
        Reply::Merged { version, kinds } => {
            write!(text, "merged {version}")?;
            push_numbers(text, kinds)
        }
        Reply::Refused(rule) => push_refusal(text, *rule),
    }
}

/// Writes the cells of a set in row-major order, each behind a blank.
fn push_cells(text: &mut String, cells: &CellSet) -> Result<(), AllocError>
    ensures { OnOk result (string_bytes text.new
        ≡ string_bytes text.old ++ flat_map (cell_text cells.now.extent) cells.now.indexes) }
{
    let shape = cells.shape();
    for run in cells.runs() {
        push_run(text, shape, *run)?;
    }
    Ok(())
}

/// Writes the cells of a run, each behind a blank.
fn push_run(text: &mut String, shape: Shape, run: Run) -> Result<(), AllocError>
    requires rising { run.first ≤ run.last }
    requires within { run.last < size_of shape }
    ensures { OnOk result (string_bytes text.new
        ≡ string_bytes text.old ++ flat_map (cell_text shape) (indexes_of run)) }
{
    for index in run.first..run.last + 1 {
        push_cell(text, shape, index)?;
    }
    Ok(())
}

/// Writes a blank and a cell.
fn push_cell(text: &mut String, shape: Shape, index: u32) -> Result<(), AllocError>
    requires { index < size_of shape }
    ensures { OnOk result (string_bytes text.new ≡ string_bytes text.old ++ cell_text shape index) }
{
    let cell = shape.cell_at(index);
    if shape.layers == 1 {
        write!(text, " {},{}", cell.row, cell.col)
    } else {
        let layer = shape.layer_of(cell);
        let row = shape.row_in(cell);
        write!(text, " {layer},{row},{}", cell.col)
    }
}

/// Writes strategies, the ways of a path's steps or those of a plan, each behind a blank.
fn push_ways(text: &mut String, ways: &[Strategy]) -> Result<(), AllocError>
    ensures { OnOk result (string_bytes text.new
        ≡ string_bytes text.old ++ flat_map (λ s. word_text (name_of_strategy s)) ways.now) }
{
    for way in ways {
        let name = strategy_name(*way);
        write!(text, " {name}")?;
    }
    Ok(())
}

/// Writes what an array's values stand behind: its rows and columns, and its layers where there are
/// several.
fn push_shape(text: &mut String, shape: Shape) -> Result<(), AllocError>
    ensures { OnOk result (string_bytes text.new ≡ string_bytes text.old ++ shape_text shape) }
{
    if shape.layers == 1 {
        write!(text, "values {} {}", shape.rows, shape.cols)
    } else {
        let height = shape.height();
        write!(text, "layers {} {height} {}", shape.layers, shape.cols)
    }
}

/// Writes values, each behind a blank.
fn push_values(text: &mut String, values: &[Value]) -> Result<(), AllocError>
    ensures { OnOk result (string_bytes text.new
        ≡ string_bytes text.old ++ flat_map value_text values.now) }
{
    for value in values {
        push_value(text, *value)?;
    }
    Ok(())
}

/// Writes a blank and a value, - where there is none.
fn push_value(text: &mut String, value: Value) -> Result<(), AllocError>
    ensures { OnOk result (string_bytes text.new ≡ string_bytes text.old ++ value_text value) }
{
    match value {
        Some(number) => write!(text, " {number}"),
        None => text.push_str(" -"),
    }
}

/// Writes numbers, each behind a blank.
fn push_numbers(text: &mut String, numbers: &[u32]) -> Result<(), AllocError>
    ensures { OnOk result (string_bytes text.new
        ≡ string_bytes text.old ++ flat_map number_text numbers.now) }
{
    for number in numbers {
        write!(text, " {number}")?;
    }
    Ok(())
}

/// Writes a refusal: its number, and the numbers behind it.
fn push_refusal(text: &mut String, rule: Refusal) -> Result<(), AllocError>
    ensures { OnOk result (string_bytes text.new
        ≡ string_bytes text.old ++ reply_text (response_of (reply_is.Refused rule))) }
{
    let printed = rule.printed();
    let number = printed.number;
    write!(text, "refused {number}")?;
    push_some(text, printed.first)?;
    push_some(text, printed.second)?;
    push_some(text, printed.third)
}

/// Writes a blank and a number, where there is one.
fn push_some(text: &mut String, number: Option<u32>) -> Result<(), AllocError>
    ensures { OnOk result (string_bytes text.new
        ≡ string_bytes text.old ++ flat_map number_text (before number [])) }
{
    match number {
        Some(number) => write!(text, " {number}"),
        None => Ok(()),
    }
}
