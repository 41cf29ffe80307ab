//! The calls of all operators, each that of the operator's crate.

ghost use Rattle.std.specs.Prelude.{◌≡◌, ◌<◌, ◌+◌, ◌^◌};
ghost use Rattle.sz_ops.specs.Terms.{true, length, map, All, IfOk, OnOk, OnErr, arc_value, holds};
ghost use Rattle.sz_ops.specs.Terms.{size_of, has, with_those, extents_of, value_of, output_of};
ghost use Rattle.sz_ops.specs.Terms.{related, mapped, has_mapping, supports, pieces_of, Fits};
ghost use Rattle.sz_ops.specs.Terms.{near_side, far_side, image_in, measure_of, cells_in_piece};
ghost use Rattle.sz_ops.specs.Terms.{parts_by, aid_of};

use crate::aid::Aid;
use crate::table::{at_work, choose, mapping};
use std::alloc::Global;
use std::sync::Arc;
use sz_cells::{Cell, CellBits, NoMemory};
use sz_frame::{AtWork, MapOf, PieceLineage, image_by, piece_by, run_by, trace_by};
use sz_spec::{Array, Dir, Op, OpAt, Strategy, Tally, Value};

/// What is prepared for an operator and these inputs: what its values need. For connected regions
/// it takes time and memory in the number of cells, of which a word a cell is kept, for the others
/// none.
pub fn prepare(alloc: Global, at: &OpAt, inputs: &[Arc<Array>]) -> Result<Aid, NoMemory>
    requires inputs { extents_of (map (λ a. arc_value a) inputs.now) ≡ at.now.ins }
    ensures { IfOk result (λ a. a ≡ aid_of at.now.op (map (λ a. arc_value a) inputs.now)) }
{
    match at.op() {
        Op::Regions { .. } => Ok(Aid::Components(sz_ops_region::prepare(alloc, at, inputs)?)),
        _ => Ok(Aid::Nothing),
    }
}

/// The same, with what lineage needs: for connected regions the set of each component of several
/// cells is kept too. It is what pieces are to be made by. For connected regions it takes time and
/// memory in the number of cells, for the others none.
pub fn prepare_lineage(alloc: Global, at: &OpAt, inputs: &[Arc<Array>]) -> Result<Aid, NoMemory>
    requires inputs { extents_of (map (λ a. arc_value a) inputs.now) ≡ at.now.ins }
    ensures { IfOk result (λ a. a ≡ aid_of at.now.op (map (λ a. arc_value a) inputs.now)) }
{
    match at.op() {
        Op::Regions { .. } => {
            let aid = sz_ops_region::prepare_lineage(alloc, at, inputs)?;
            Ok(Aid::Components(aid))
        }
        _ => Ok(Aid::Nothing),
    }
}

/// The value of an output cell, by what was prepared for these inputs. Takes no memory.
pub fn value_at(at: &OpAt, inputs: &[Arc<Array>], aid: &Aid, cell: Cell) -> Value
    requires inputs { extents_of (map (λ a. arc_value a) inputs.now) ≡ at.now.ins }
    requires aid { aid.now ≡ aid_of at.now.op (map (λ a. arc_value a) inputs.now) }
    requires cell { holds at.now.out cell ≡ true }
    ensures { result ≡ value_of at.now.op (map (λ a. arc_value a) inputs.now) cell }
{
    let shape = sz_frame::at_work(at, inputs);
    let index = shape.index(cell);
    at_work!(
        at, inputs;
        work => work.value(cell, index);
        regions _t => {
            let aid = aid.components(at, inputs);
            sz_ops_region::value_at(at, inputs, aid, cell)
        }
    )
}

/// The operator's output. One pass over its cells, in the way of the operator's own type.
pub fn run(alloc: Global, at: &OpAt, inputs: &[Arc<Array>]) -> Result<Array, NoMemory>
    requires inputs { extents_of (map (λ a. arc_value a) inputs.now) ≡ at.now.ins }
    ensures { IfOk result (λ a. a ≡ output_of at.now.op (map (λ a. arc_value a) inputs.now)) }
{
    sz_frame::at_work(at, inputs);
    choose!(
        at, inputs;
        elementwise of => of.run(alloc, inputs);
        mapped of => of.run(alloc, inputs);
        lookup work => work.run(alloc);
        clean work => run_by(alloc, &work);
        regions _t => sz_ops_region::run(alloc, at, inputs)
    )
}

/// The operator's output, by what was prepared for these inputs: nothing is prepared anew.
pub fn run_prepared<'x>(
    alloc: Global,
    at: &'x OpAt,
    inputs: &'x [Arc<Array>],
    aid: &'x Aid,
) -> Result<Array, NoMemory>
    requires inputs { extents_of (map (λ a. arc_value a) inputs.now) ≡ at.now.ins }
    requires aid { aid.now ≡ aid_of at.now.op (map (λ a. arc_value a) inputs.now) }
    ensures { IfOk result (λ a. a ≡ output_of at.now.op (map (λ a. arc_value a) inputs.now)) }
{
    sz_frame::at_work(at, inputs);
    match at.op() {
        Op::Regions { .. } => {
            let aid = aid.components(at, inputs);
            sz_ops_region::run_prepared(alloc, at, inputs, aid)
        }
        _ => run(alloc, at, inputs),
    }
}

/// The lineage of piece `k` of the output: the parts that the strategies of a list need. Each cell
/// of the piece is looked at once, and counted. Of connected regions the components are made anew
/// for each piece, where they were not prepared by [`prepare_lineage`].
pub fn piece(
    alloc: Global,
    at: &OpAt,
    inputs: &[Arc<Array>],
    aid: &Aid,
    k: u32,
    list: &[Strategy],
    tally: &mut Tally,
) -> Result<PieceLineage, NoMemory>
    requires inputs { extents_of (map (λ a. arc_value a) inputs.now) ≡ at.now.ins }
    requires aid { aid.now ≡ aid_of at.now.op (map (λ a. arc_value a) inputs.now) }
    requires piece { k < pieces_of at.now.out }
    requires supported { All (λ s. supports at.now.op s ≡ true) list.now }
    requires room { tally.old + cells_in_piece at.now.out k < 2 ^ 63 }
    ensures piece { IfOk result (λ p. p.piece ≡ k) }
    ensures written { IfOk result
        (λ p. p ≡ parts_by at.now (map (λ a. arc_value a) inputs.now) list.now k) }
    ensures fits { IfOk result
        (λ p. Fits (measure_of at.now (map (λ a. arc_value a) inputs.now)) list.now k p) }
    ensures ticks { OnOk result (tally.new ≡ tally.old + cells_in_piece at.now.out k) }
    ensures kept { OnErr result (tally.new ≡ tally.old) }
{
    sz_frame::at_work(at, inputs);
    at_work!(
        at, inputs;
        work => piece_by(alloc, &work, k, list, tally);
        regions _t => {
            let aid = aid.components(at, inputs);
            sz_ops_region::piece(alloc, at, inputs, aid, k, list, tally)
        }
    )
}

/// Adds the image of a set of cells by tracing: each output cell is looked at once, and counted.
/// After `NoMemory`, `to` may hold some of the image and the tally may have risen.
pub fn trace(
    alloc: Global,
    at: &OpAt,
    inputs: &[Arc<Array>],
    dir: Dir,
    input: u32,
    from: &CellBits,
    to: &mut CellBits,
    tally: &mut Tally,
) -> Result<(), NoMemory>
    requires inputs { extents_of (map (λ a. arc_value a) inputs.now) ≡ at.now.ins }
    requires input { input < length at.now.ins }
    requires from { from.now.extent ≡ near_side dir at.now input }
    requires to { to.old.extent ≡ far_side dir at.now input }
    requires room { tally.old + size_of at.now.out < 2 ^ 63 }
    ensures to { OnOk result (to.new ≡ with_those to.old (has (image_in dir at.now input
        (related at.now.op (map (λ a. arc_value a) inputs.now) input) from.now))) }
    ensures ticks { OnOk result (tally.new ≡ tally.old + size_of at.now.out) }
{
    sz_frame::at_work(at, inputs);
    at_work!(
        at, inputs;
        work => {
            trace_by(&work, dir, input, from, to, tally);
            Ok(())
        };
        regions _t => sz_ops_region::trace(alloc, at, inputs, dir, input, from, to, tally)
    )
}

/// Adds the image of a set of cells by the mapping of an operator that has one. It goes by the
/// cells of the set, never by those of the array, and takes no memory.
pub fn image_by_map(at: &OpAt, dir: Dir, input: u32, from: &CellBits, to: &mut CellBits)
    requires mapping { has_mapping at.now.op ≡ true }
    requires input { input < length at.now.ins }
    requires from { from.now.extent ≡ near_side dir at.now input }
    requires to { to.old.extent ≡ far_side dir at.now input }
    ensures { to.new ≡ with_those to.old
        (has (image_in dir at.now input (mapped at.now.op at.now.ins input) from.now)) }
{
    mapping!(
        at;
        elementwise map => map.image(dir, input, from, to);
        mapped map => image_by(&MapOf { of: &map }, dir, input, from, to)
    )
}
