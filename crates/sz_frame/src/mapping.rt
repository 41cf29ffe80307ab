//! Operators with a mapping of cells: what differs from one to the next is here, and what they
//! share when they are at work is written once over it.

ghost use Rattle.std.specs.Prelude.{◌≡◌, ◌<◌};
ghost use Rattle.sz_frame.specs.Terms.{true, length, map, IfOk, arc_value, holds, index_of};
ghost use Rattle.sz_frame.specs.Terms.{any_cell, cells_where, with_those, extent_at, Site, mapped};
ghost use Rattle.sz_frame.specs.Terms.{has_mapping, value_of, IsAtWork};

use crate::frame::AtWork;
use crate::payload::Payload;
use std::alloc::Global;
use std::sync::Arc;
use sz_cells::{Cell, CellBits, CellSet, NoMemory, Shape};
use sz_spec::{Array, Mapper, OpAt, Value};

/// An operator between its shapes whose lineage is a mapping of cells. What differs from one such
/// operator to the next is here. None of its calls but `mapped_set` takes memory.
pub trait Mapping {
    ghost site: { Self → Site };

    /// The operator with its shapes.
    fn at(&self) -> &OpAt
        ensures value { result.now ≡ site self.now }
        ensures mapping { has_mapping (site self.now).op ≡ true };

    /// The value of an output cell over these inputs. The cell has this row-major index.
    fn value(&self, inputs: &[Arc<Array>], out: Cell, index: u32) -> Value
        requires right { IsAtWork (site self.now) (map (λ a. arc_value a) inputs.now) }
        requires out { holds (site self.now).out out ≡ true }
        requires index { index ≡ index_of (site self.now).out out }
        ensures { result ≡ value_of (site self.now).op (map (λ a. arc_value a) inputs.now) out };

    /// Adds the cells of an input to which an output cell is mapped.
    fn back_into(&self, out: Cell, input: u32, to: &mut CellBits)
        requires out { holds (site self.now).out out ≡ true }
        requires input { input < length (site self.now).ins }
        requires to { to.old.extent ≡ extent_at (site self.now).ins input }
        ensures { let s = site self.now in to.new ≡ with_those to.old
            (λ x. mapped s.op s.ins input out x) };

    /// Adds the output cells that are mapped to a cell of an input.
    fn forward_into(&self, cell: Cell, input: u32, to: &mut CellBits)
        requires input { input < length (site self.now).ins }
        requires cell { holds (extent_at (site self.now).ins input) cell ≡ true }
        requires to { to.old.extent ≡ (site self.now).out }
        ensures { let s = site self.now in to.new ≡ with_those to.old
            (λ o. mapped s.op s.ins input o cell) };

    /// Whether an output cell is mapped to a cell of this set of an input's cells.
    fn meets(&self, out: Cell, input: u32, from: &CellBits) -> bool
        requires out { holds (site self.now).out out ≡ true }
        requires input { input < length (site self.now).ins }
        requires from { from.now.extent ≡ extent_at (site self.now).ins input }
        ensures { let s = site self.now in
            result ≡ any_cell (λ x. mapped s.op s.ins input out x) from.now };

    /// The cells of an input to which an output cell is mapped, as a set.
    fn mapped_set(&self, alloc: Global, out: Cell, input: u32) -> Result<Arc<CellSet>, NoMemory>
        requires out { holds (site self.now).out out ≡ true }
        requires input { input < length (site self.now).ins }
        ensures { let s = site self.now in IfOk result (λ c. arc_value c
            ≡ cells_where (extent_at s.ins input) (mapped s.op s.ins input out)) };
}

/// A mapping that is lent, by itself.
#[derive(Drop)]
pub struct MapOf<'a, M> {
    pub of: &'a M,
}

impl<'a, M: Mapping> Mapper for MapOf<'a, M> {
    ghost site = { λ m. M.site m.of.now };

    fn map_b_into(&self, out: Cell, input: u32, to: &mut CellBits) {
        self.of.back_into(out, input, to);
    }

    fn map_f_into(&self, cell: Cell, input: u32, to: &mut CellBits) {
        self.of.forward_into(cell, input, to);
    }

    fn map_p_into(&self, _out: Cell, _payload: &[u8], _input: u32, _to: &mut CellBits) {
        self.of.at(); // no payload is one of an operator with a mapping
    }
}

/// An operator with a mapping at work over its inputs. Nothing is kept for it but region pairs.
#[derive(Drop)]
pub struct Mapped<'a, M> {
    pub of: M,
    pub inputs: &'a [Arc<Array>],
}

impl<'a, M: Mapping> AtWork for Mapped<'a, M> {
    ghost site = { λ w. M.site w.of };

    ghost inputs = { λ w. map (λ a. arc_value a) w.inputs.now };

    fn out(&self) -> Shape {
        self.of.at().out()
    }

    fn arity(&self) -> u32 {
        self.of.at().ins().len() as u32
    }

    fn value(&self, out: Cell, index: u32) -> Value {
        self.of.value(self.inputs, out, index)
    }

    fn back_into(&self, out: Cell, input: u32, to: &mut CellBits) {
        self.of.at();
        self.of.back_into(out, input, to);
    }

    fn meets(&self, out: Cell, input: u32, from: &CellBits) -> bool {
        self.of.at();
        from.shape(); // the set is that of its cells
        self.of.meets(out, input, from)
    }

    fn related_set(&self, alloc: Global, out: Cell, input: u32) -> Result<Arc<CellSet>, NoMemory> {
        self.of.at();
        self.of.mapped_set(alloc, out, input)
    }

    fn lineage_kind(&self, _out: Cell) -> Option<u32> {
        self.of.at();
        None
    }

    fn payload_kind(&self, _out: Cell) -> Option<u32> {
        self.of.at();
        None
    }

    fn payload(&self, alloc: Global, _out: Cell) -> Result<Arc<Payload>, NoMemory> {
        self.of.at();
        Ok(Arc::new(alloc, Payload::of(Vec::new(alloc)))?)
    }

    fn overrides(&self, _out: Cell) -> bool {
        self.of.at();
        false
    }
}
