//! The operator at work over its input.

ghost use Rattle.std.specs.Prelude.{◌≡◌, ◌<◌, true, map, is_some, IfSome, IfNone, IfOk};
ghost use Rattle.std.specs.Arc.{arc_value};
ghost use Rattle.sz_cells.specs.Extent.{holds, index_of};
ghost use Rattle.sz_cells.specs.Cells.{any_cell, has, is_same};
ghost use Rattle.sz_cells.specs.declared.Cell.{Cell};
ghost use Rattle.sz_spec.specs.Values.{extents_of, input_at, extent_at};
ghost use Rattle.sz_spec.specs.Shapes.{IsSite};
ghost use Rattle.sz_spec.specs.LawsShapes.{AreExtents};
ghost use Rattle.sz_spec.specs.Lineage.{related};
ghost use Rattle.sz_spec.specs.declared.op.Op.TheVariants.{Regions};
ghost use Rattle.sz_spec.specs.Operators.Regions.{is_high, component_of};
ghost use Rattle.sz_spec.specs.Work.{IsAtWork};
ghost use Rattle.sz_frame.specs.Groups.{least_of};
ghost use Rattle.sz_ops_region.specs.Regions.{is_regions, components_of, aid_of};
ghost use Rattle.sz_ops_region.specs.Parts.{IsPartAt};

use crate::components::{Component, Components, Part, payload_of};
use std::alloc::Global;
use std::sync::Arc;
use sz_cells::{Cell, CellBits, CellSet, NoMemory, Shape};
use sz_frame::{AtWork, Payload};
use sz_spec::{Array, Op, OpAt, Value};

/// The operator at work over its input, of which the components are prepared. A set or a payload
/// of more than a few cells is shared, whichever cell asks for it.
#[derive(Drop)]
pub struct Labelling<'a> {
    pub at: &'a OpAt,
    pub inputs: &'a [Arc<Array>],
    pub aid: &'a Components,
    pub t: i64,
    ghost labels: { at.now.op ≡ Regions t },
    ghost found: { aid.now ≡ components_of t (input_at (map (λ a. arc_value a) inputs.now) 0) },
}

impl<'a> AtWork for Labelling<'a> {
    ghost site = { λ w. w.at.now };

    ghost inputs = { λ w. map (λ a. arc_value a) w.inputs.now };

    fn out(&self) -> Shape {
        self.at.out()
    }

    fn arity(&self) -> u32 {
        self.at.ins().len() as u32
    }

    fn value(&self, out: Cell, index: u32) -> Value {
        self.at.out().size(); // a shape is within the limits
        match self.component(out) {
            Some(Part::Shared(component)) => Some(i64::from(component.label())),
            Some(Part::Alone) => Some(i64::from(1 + index)),
            None => Some(0),
        }
    }

    fn back_into(&self, out: Cell, _input: u32, to: &mut CellBits) {
        match self.kept(out) {
            Some(component) => to.add_set(component.cells()),
            None => to.set(out),
        }
    }

    fn meets(&self, out: Cell, _input: u32, from: &CellBits) -> bool {
        from.shape(); // the set is that of its cells
        match self.kept(out) {
            Some(component) => have_one(component.cells(), from),
            None => from.has(out),
        }
    }

    fn related_set(&self, alloc: Global, out: Cell, _input: u32) -> Result<Arc<CellSet>, NoMemory> {
        match self.kept(out) {
            Some(component) => Ok(component.set()?),
            None => {
                let set = CellSet::from_cells(alloc, self.at.out(), &[out])?;
                Ok(Arc::new(alloc, set)?)
            }
        }
    }

    fn lineage_kind(&self, out: Cell) -> Option<u32> {
        self.least(out)
    }

    fn payload_kind(&self, out: Cell) -> Option<u32> {
        match self.least(out) {
            Some(index) => Some(1 + index),
            None => Some(0),
        }
    }

    fn payload(&self, alloc: Global, out: Cell) -> Result<Arc<Payload>, NoMemory> {
        match self.component(out) {
            Some(Part::Shared(component)) => component.payload(alloc),
            Some(Part::Alone) => {
                let set = CellSet::from_cells(alloc, self.at.out(), &[out])?;
                payload_of(alloc, &set)
            }
            None => Ok(Arc::new(alloc, Payload::of(Vec::new(alloc)))?),
        }
    }

    fn overrides(&self, out: Cell) -> bool {
        self.component(out).is_some()
    }
}

impl<'a> Labelling<'a> {
    /// The component of a cell. `None` exactly where the cell is not high.
    pub(crate) fn component(&self, out: Cell) -> Option<Part<'_>>
        requires right { IsAtWork self.now.at.now (map (λ a. arc_value a) self.now.inputs.now) }
        requires out { holds self.now.at.now.out out ≡ true }
        ensures value { IfSome result (λ p. IsPartAt (index_of self.now.at.now.out out) p
            (component_of self.now.t (input_at (map (λ a. arc_value a) self.now.inputs.now) 0)
            out)) }
        ensures high { is_some result ≡ is_high self.now.t
            (input_at (map (λ a. arc_value a) self.now.inputs.now) 0) out }
    {
        match self.aid.component(self.at.out().index(out)) {
            Some(part) => Some(part),
            None => None,
        }
    }

    /// The least index of the component of a cell. `None` exactly where the cell is not high.
    pub(crate) fn least(&self, out: Cell) -> Option<u32>
        requires right { IsAtWork self.now.at.now (map (λ a. arc_value a) self.now.inputs.now) }
        requires out { holds self.now.at.now.out out ≡ true }
        ensures value { result ≡ least_of (component_of self.now.t
            (input_at (map (λ a. arc_value a) self.now.inputs.now) 0) out).indexes }
        ensures few { IfSome result (λ k. k < 1048576) }
    {
        let shape = self.at.out();
        shape.size(); // a shape is within the limits
        match self.component(out) {
            Some(Part::Shared(component)) => Some(component.first()),
            Some(Part::Alone) => Some(shape.index(out)),
            None => None,
        }
    }

    /// The component of a cell where it has several cells. Where there is none, the cell is related
    /// to itself alone.
    pub(crate) fn kept(&self, out: Cell) -> Option<&Component>
        requires right { IsAtWork self.now.at.now (map (λ a. arc_value a) self.now.inputs.now) }
        requires out { holds self.now.at.now.out out ≡ true }
        ensures value { IfSome result (λ c. c.now ≡ component_of self.now.t
            (input_at (map (λ a. arc_value a) self.now.inputs.now) 0) out) }
        ensures high { IfSome result (λ c. is_high self.now.t
            (input_at (map (λ a. arc_value a) self.now.inputs.now) 0) out ≡ true) }
        ensures itself { IfNone result ((x : Cell) → related self.now.at.now.op
            (map (λ a. arc_value a) self.now.inputs.now) 0 out x ≡ is_same x out) }
    {
        match self.component(out) {
            Some(Part::Shared(component)) => Some(component),
            Some(Part::Alone) => None,
            None => None,
        }
    }
}

/// Whether a set and a bitmap of one shape have a cell in common.
///
/// Takes time in the number of the shape's cells.
fn have_one(set: &CellSet, from: &CellBits) -> bool
    requires { from.now.extent ≡ set.now.extent }
    ensures { result ≡ any_cell (has set.now) from.now }
{
    from.shape(); // the set is that of its cells
    let shape = set.shape();
    for index in 0..shape.size() {
        let cell = shape.cell_at(index);
        if from.has(cell) && set.has(cell) {
            return true;
        }
    }
    false
}

/// The least value that is high. Its caller knows from now on that the operator has one input, of
/// the output's shape.
pub(crate) fn threshold(at: &OpAt) -> i64
    requires { is_regions at.now.op ≡ true }
    ensures value { at.now.op ≡ Regions result }
    ensures site { IsSite at.now }
    ensures shape { extent_at at.now.ins 0 ≡ at.now.out }
    ensures right { AreExtents at.now.ins }
{
    at.ins();
    let shape = at.out();
    let _ = &shape.rows; // a shape is within the limits
    match at.op() {
        Op::Regions { t } => *t,
        _ => unreachable!(),
    }
}

/// The components of the high cells of the input, with their sets.
///
/// Takes memory in the number of the input's cells, and time in that number too, whatever the
/// components look like, but for the searches for roots, as [`run`](crate::run) does: what each
/// cell holds is looked at once, and the set of each component of several cells is made once, with
/// room for just its runs. A component of one cell takes no memory but its mark.
pub fn components_over(
    alloc: Global,
    at: &OpAt,
    inputs: &[Arc<Array>],
) -> Result<Components, NoMemory>
    requires regions { is_regions at.now.op ≡ true }
    requires inputs { extents_of (map (λ a. arc_value a) inputs.now) ≡ at.now.ins }
    ensures { IfOk result (λ c. c ≡ aid_of at.now.op (map (λ a. arc_value a) inputs.now)) }
{
    let t = threshold(at);
    at.ins();
    Components::of(alloc, &inputs[0], t)
}
