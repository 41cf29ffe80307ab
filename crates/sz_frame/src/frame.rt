//! The frame of all operators: what a run, a trace, a piece and an image do is written here once,
//! over what differs from one operator to the next.

ghost use Rattle.std.specs.Prelude.{◌≡◌, ◌<◌, ◌+◌, ◌^◌};
ghost use Rattle.sz_frame.specs.Terms.{List, true, false, length, map, IfOk, arc_value, holds};
ghost use Rattle.sz_frame.specs.Terms.{index_of, size_of, any_cell, has, with_those, Grid};
ghost use Rattle.sz_frame.specs.Terms.{extent_at, extents_of, input_at, Site, IsSite, AreExtents};
ghost use Rattle.sz_frame.specs.Terms.{related, mapped, value_of, output_of, payload_of, overrides};
ghost use Rattle.sz_frame.specs.Terms.{IsAtWork, related_cells, lineage_kind, payload_kind};

use crate::payload::Payload;
use std::alloc::Global;
use std::sync::Arc;
use sz_cells::laws::a_shape_is_within_limits;
use sz_cells::{Cell, CellBits, CellSet, NoMemory, Shape};
use sz_spec::{Array, OpAt, Value};

/// An operator at work over its inputs. What differs from one operator to the next is here; the
/// rest of the frame is written over it.
pub trait AtWork {
    ghost site: { Self → Site };

    ghost inputs: { Self → List Grid };

    /// The output's shape.
    fn out(&self) -> Shape
        ensures { result ≡ (site self.now).out };

    /// How many inputs there are.
    fn arity(&self) -> u32
        ensures { result ≡ length (site self.now).ins };

    /// The value of an output cell, which has this row-major index. Takes no memory.
    fn value(&self, out: Cell, index: u32) -> Value
        requires right { IsAtWork (site self.now) (inputs self.now) }
        requires out { holds (site self.now).out out ≡ true }
        requires index { index ≡ index_of (site self.now).out out }
        ensures { result ≡ value_of (site self.now).op (inputs self.now) out };

    /// Adds the cells of an input to which an output cell is related. Takes no memory.
    fn back_into(&self, out: Cell, input: u32, to: &mut CellBits)
        requires right { IsAtWork (site self.now) (inputs self.now) }
        requires out { holds (site self.now).out out ≡ true }
        requires input { input < length (site self.now).ins }
        requires to { to.old.extent ≡ extent_at (site self.now).ins input }
        ensures { to.new ≡ with_those to.old
            (λ x. related (site self.now).op (inputs self.now) input out x) };

    /// Whether an output cell is related to a cell of this set of an input's cells. Takes no
    /// memory.
    fn meets(&self, out: Cell, input: u32, from: &CellBits) -> bool
        requires right { IsAtWork (site self.now) (inputs self.now) }
        requires out { holds (site self.now).out out ≡ true }
        requires input { input < length (site self.now).ins }
        requires from { from.now.extent ≡ extent_at (site self.now).ins input }
        ensures { result
            ≡ any_cell (λ x. related (site self.now).op (inputs self.now) input out x) from.now };

    /// The cells of an input to which an output cell is related, as a set.
    fn related_set(&self, alloc: Global, out: Cell, input: u32) -> Result<Arc<CellSet>, NoMemory>
        requires right { IsAtWork (site self.now) (inputs self.now) }
        requires out { holds (site self.now).out out ≡ true }
        requires input { input < length (site self.now).ins }
        ensures { IfOk result
            (λ s. arc_value s ≡ related_cells (site self.now) (inputs self.now) input out) };

    /// The kind of an output cell for its lineage, if it has one: all output cells of a kind are
    /// related to the same cells of each input. Takes no memory.
    fn lineage_kind(&self, out: Cell) -> Option<u32>
        requires right { IsAtWork (site self.now) (inputs self.now) }
        requires out { holds (site self.now).out out ≡ true }
        ensures { result ≡ lineage_kind (site self.now).op (inputs self.now) out };

    /// The kind of an output cell for its payload, if it has one: all output cells of a kind have
    /// one payload. Takes no memory.
    fn payload_kind(&self, out: Cell) -> Option<u32>
        requires right { IsAtWork (site self.now) (inputs self.now) }
        requires out { holds (site self.now).out out ≡ true }
        ensures { result ≡ payload_kind (site self.now).op (inputs self.now) out };

    /// The payload of an output cell: no byte, for an operator with a mapping.
    fn payload(&self, alloc: Global, out: Cell) -> Result<Arc<Payload>, NoMemory>
        requires right { IsAtWork (site self.now) (inputs self.now) }
        requires out { holds (site self.now).out out ≡ true }
        ensures { IfOk result
            (λ p. arc_value p ≡ payload_of (site self.now).op (inputs self.now) out) };

    /// Whether a composite store keeps an entry for an output cell, for an operator without a
    /// mapping. Takes no memory.
    fn overrides(&self, out: Cell) -> bool
        requires right { IsAtWork (site self.now) (inputs self.now) }
        requires out { holds (site self.now).out out ≡ true }
        ensures { result ≡ overrides (site self.now).op (inputs self.now) out };
}

/// The output's shape. Its caller knows from now on that the operator has right parameters, as many
/// inputs as it takes, and the output that its shape rule gives, and that the inputs have right
/// shapes.
pub fn right_shapes(at: &OpAt) -> Shape
    ensures value { result ≡ at.now.out }
    ensures site { IsSite at.now }
    ensures right { AreExtents at.now.ins }
{
    at.op();
    for shape in at.ins() {
        a_shape_is_within_limits(shape);
    }
    at.out()
}

/// The output's shape of an operator with its inputs. Its caller knows from now on that the
/// operator is at work over them.
pub fn at_work(at: &OpAt, inputs: &[Arc<Array>]) -> Shape
    requires { extents_of (map (λ a. arc_value a) inputs.now) ≡ at.now.ins }
    ensures value { result ≡ at.now.out }
    ensures right { IsAtWork at.now (map (λ a. arc_value a) inputs.now) }
{
    right_shapes(at)
}

/// An input of an operator at work.
pub fn input_of<'a>(at: &OpAt, inputs: &'a [Arc<Array>], input: u32) -> &'a Array
    requires right { IsAtWork at.now (map (λ a. arc_value a) inputs.now) }
    requires input { input < length at.now.ins }
    ensures value { result.now ≡ input_at (map (λ a. arc_value a) inputs.now) input }
    ensures shape { result.now.extent ≡ extent_at at.now.ins input }
{
    &inputs[input as usize]
}
