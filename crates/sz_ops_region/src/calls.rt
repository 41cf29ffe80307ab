//! What is prepared for the operator, and its calls that go by that.

ghost use Rattle.std.specs.Prelude.{◌≡◌, ◌<◌, ◌+◌, ◌^◌};
ghost use Rattle.sz_ops_region.specs.Terms.{true, map, All, IfOk, OnOk, OnErr, arc_value, holds};
ghost use Rattle.sz_ops_region.specs.Terms.{extents_of, value_of, output_of, supports, pieces_of};
ghost use Rattle.sz_ops_region.specs.Terms.{Fits, measure_of, cells_in_piece, parts_by, is_regions};
ghost use Rattle.sz_ops_region.specs.Terms.{aid_of};

use crate::aid::{Aid, Kept};
use crate::cell_labels::Labels;
use crate::output::value_of;
use crate::work::{Labelling, components_over, threshold};
use std::alloc::Global;
use std::sync::Arc;
use sz_cells::{Cell, NoMemory};
use sz_frame::{AtWork, PieceLineage, output_with, piece_by, run_by};
use sz_spec::{Array, OpAt, Strategy, Tally, Value};

/// The labels of the cells of the input, of which no set is made: values need no more.
///
/// Takes memory in the number of the input's cells, of which four bytes a cell are kept, and time
/// as [`run`](crate::run) does.
pub fn prepare(alloc: Global, at: &OpAt, inputs: &[Arc<Array>]) -> Result<Aid, NoMemory>
    requires regions { is_regions at.now.op ≡ true }
    requires inputs { extents_of (map (λ a. arc_value a) inputs.now) ≡ at.now.ins }
    ensures { IfOk result (λ a. a ≡ aid_of at.now.op (map (λ a. arc_value a) inputs.now)) }
{
    let t = threshold(at);
    at.ins();
    let labels = Labels::of(alloc, &inputs[0], t)?;
    Ok(Aid::of(Kept::Labels(labels)))
}

/// The components of the high cells of the input, with their sets: what pieces of lineage need.
///
/// Takes memory in the number of the input's cells, of which four bytes a cell are kept, and for
/// each component of several cells what its runs take; and time as
/// [`components_over`](crate::components_over) does.
pub fn prepare_lineage(alloc: Global, at: &OpAt, inputs: &[Arc<Array>]) -> Result<Aid, NoMemory>
    requires regions { is_regions at.now.op ≡ true }
    requires inputs { extents_of (map (λ a. arc_value a) inputs.now) ≡ at.now.ins }
    ensures { IfOk result (λ a. a ≡ aid_of at.now.op (map (λ a. arc_value a) inputs.now)) }
{
    let components = components_over(alloc, at, inputs)?;
    Ok(Aid::of(Kept::Components(components)))
}

/// The value of an output cell: its label, as it was prepared. Takes no memory.
pub fn value_at(at: &OpAt, inputs: &[Arc<Array>], aid: &Aid, cell: Cell) -> Value
    requires regions { is_regions at.now.op ≡ true }
    requires inputs { extents_of (map (λ a. arc_value a) inputs.now) ≡ at.now.ins }
    requires aid { aid.now ≡ aid_of at.now.op (map (λ a. arc_value a) inputs.now) }
    requires cell { holds at.now.out cell ≡ true }
    ensures { result ≡ value_of at.now.op (map (λ a. arc_value a) inputs.now) cell }
{
    let t = threshold(at);
    let index = at.out().index(cell);
    match aid.kept() {
        Kept::Labels(labels) => value_of(labels.label(index)),
        Kept::Components(aid) => Labelling { at, inputs, aid, t }.value(cell, index),
    }
}

/// The operator's output, by what was prepared for its input: one pass over its cells, in which
/// each label is written as a value.
pub fn run_prepared(
    alloc: Global,
    at: &OpAt,
    inputs: &[Arc<Array>],
    aid: &Aid,
) -> Result<Array, NoMemory>
    requires regions { is_regions at.now.op ≡ true }
    requires inputs { extents_of (map (λ a. arc_value a) inputs.now) ≡ at.now.ins }
    requires aid { aid.now ≡ aid_of at.now.op (map (λ a. arc_value a) inputs.now) }
    ensures { IfOk result (λ a. a ≡ output_of at.now.op (map (λ a. arc_value a) inputs.now)) }
{
    let t = threshold(at);
    match aid.kept() {
        Kept::Labels(labels) => {
            let cells = labels.values(alloc)?;
            Ok(output_with(at, inputs, cells))
        }
        Kept::Components(aid) => run_by(alloc, &Labelling { at, inputs, aid, t }),
    }
}

/// The lineage of piece `k` of the output: the parts that the strategies of a list need. Each cell
/// of the piece is looked at once, and counted.
///
/// Where only the labels were prepared it makes the components for itself first, and that for each
/// piece: so what pieces are made by is what [`prepare_lineage`] gives.
pub fn piece(
    alloc: Global,
    at: &OpAt,
    inputs: &[Arc<Array>],
    aid: &Aid,
    k: u32,
    list: &[Strategy],
    tally: &mut Tally,
) -> Result<PieceLineage, NoMemory>
    requires regions { is_regions at.now.op ≡ true }
    requires inputs { extents_of (map (λ a. arc_value a) inputs.now) ≡ at.now.ins }
    requires aid { aid.now ≡ aid_of at.now.op (map (λ a. arc_value a) inputs.now) }
    requires piece { k < pieces_of at.now.out }
    requires supported { All (λ s. supports at.now.op s ≡ true) list.now }
    requires room { tally.old + cells_in_piece at.now.out k < 2 ^ 63 }
    ensures piece { IfOk result (λ p. p.piece ≡ k) }
    ensures written { IfOk result
        (λ p. p ≡ parts_by at.now (map (λ a. arc_value a) inputs.now) list.now k) }
    ensures fits { IfOk result
        (λ p. Fits (measure_of at.now (map (λ a. arc_value a) inputs.now)) list.now k p) }
    ensures ticks { OnOk result (tally.new ≡ tally.old + cells_in_piece at.now.out k) }
    ensures kept { OnErr result (tally.new ≡ tally.old) }
{
    let t = threshold(at);
    match aid.kept() {
        Kept::Labels(_) => {
            let aid = &components_over(alloc, at, inputs)?;
            piece_by(alloc, &Labelling { at, inputs, aid, t }, k, list, tally)
        }
        Kept::Components(aid) => {
            piece_by(alloc, &Labelling { at, inputs, aid, t }, k, list, tally)
        }
    }
}
