//! The components of an array's high cells, found once.

ghost use Rattle.std.specs.Prelude.{◌≡◌, ◌<◌};
ghost use Rattle.sz_ops_region.specs.Terms.{pos, [], length, map, IfOk, IfSome, slice_index_or};
ghost use Rattle.sz_ops_region.specs.Terms.{IfNone, range_with_len, arc_value, size_of, Cells};
ghost use Rattle.sz_ops_region.specs.Terms.{set_bytes, label_of, components_of, first_index};
ghost use Rattle.sz_ops_region.specs.Terms.{AreLists, cells_numbered, AreUsed, IsPartAt};

use crate::marks::{Mark, Marks};
use crate::numbering::numbers_of;
use crate::run_lists::{RunList, lists_of};
use std::alloc::Global;
use std::marker::Model;
use std::mem;
use std::sync::Arc;
use sz_cells::{CellSet, NoMemory, Shape};
use sz_frame::Payload;
use sz_region::put_set;
use sz_spec::Array;

/// A component of several cells: their set, and the bytes that are kept for each of them. Contracts
/// see the set.
#[derive(Drop)]
pub(crate) struct Component {
    first: u32,
    set: Arc<CellSet>,
    /// The bytes of the set, where it has more than few cells.
    payload: Option<Arc<Payload>>,
}

impl Model for Component {
    ghost use Rattle.std.specs.Prelude.{◌≡◌, ◌<◌, length, IfSome};
    ghost use Rattle.std.specs.Arc.{arc_value};
    ghost use Rattle.sz_cells.specs.Cells.{Cells};
    ghost use Rattle.sz_cells.specs.SetBytes.{set_bytes};
    ghost use Rattle.sz_ops_region.specs.Tracing.{first_index};

    ghost Value = { Cells };

    ghost view = { λ c. arc_value c.set };

    ghost invariant = { λ c. (0 < length (arc_value c.set).indexes)
        × (c.first ≡ first_index (arc_value c.set).indexes)
        × IfSome c.payload (λ p. arc_value p ≡ set_bytes (arc_value c.set)) };
}

/// How many cells are few: the bytes of their set are written anew for each that asks for them.
const FEW: u32 = 16;

/// The bytes of a set. Takes time and memory in the number of its runs.
pub(crate) fn payload_of(alloc: Global, set: &CellSet) -> Result<Arc<Payload>, NoMemory>
    ensures { IfOk result (λ p. arc_value p ≡ set_bytes set.now) }
{
    let mut bytes = Vec::new(alloc);
    bytes.reserve(4 + 8 * set.runs().len())?;
    put_set(set, &mut bytes)?;
    Ok(Arc::new(alloc, Payload::of(bytes))?)
}

/// The bytes of a set, where it has more than few cells.
fn kept_payload(alloc: Global, set: &CellSet) -> Result<Option<Arc<Payload>>, NoMemory>
    ensures { IfOk result (λ o. IfSome o (λ p. arc_value p ≡ set_bytes set.now)) }
{
    if set.count() > FEW {
        Ok(Some(payload_of(alloc, set)?))
    } else {
        Ok(None)
    }
}

impl Component {
    /// The component of these cells.
    fn of(alloc: Global, set: CellSet) -> Result<Component, NoMemory>
        requires { 0 < length set.indexes }
        ensures { IfOk result (λ c. c ≡ set) }
    {
        Ok(Component {
            first: first_of(&set),
            payload: kept_payload(alloc, &set)?,
            set: Arc::new(alloc, set)?,
        })
    }
}

/// The least index of a cell of a set, 0 where it has none.
fn first_of(set: &CellSet) -> u32
    ensures { result ≡ first_index set.now.indexes }
{
    match set.runs().first() {
        Some(run) => run.first,
        None => 0,
    }
}

impl Component {
    /// The cells.
    pub(crate) fn cells(&self) -> &CellSet
        ensures value { result.now ≡ self.now }
        ensures full { 0 < length self.now.indexes }
    {
        &self.set
    }

    /// The set of the cells, shared.
    pub(crate) fn set(&self) -> Result<Arc<CellSet>, NoMemory>
        ensures { IfOk result (λ s. arc_value s ≡ self.now) }
    {
        Ok(Arc::try_clone(&self.set)?)
    }

    /// The bytes of the set. Those of more than few cells are shared.
    pub(crate) fn payload(&self, alloc: Global) -> Result<Arc<Payload>, NoMemory>
        ensures { IfOk result (λ p. arc_value p ≡ set_bytes self.now) }
    {
        match &self.payload {
            Some(payload) => Ok(Arc::try_clone(payload)?),
            None => payload_of(alloc, &self.set),
        }
    }

    /// The least index of a cell.
    pub(crate) fn first(&self) -> u32
        ensures value { result ≡ first_index self.now.indexes }
        ensures within { result < size_of self.now.extent }
    {
        self.set.shape(); // the set is that of its cells
        self.first
    }

    /// 1 plus the least index of a cell.
    pub(crate) fn label(&self) -> u32
        ensures { pos result ≡ label_of self.now.indexes }
    {
        self.set.shape().size(); // a shape is within the limits
        1 + self.first
    }
}

/// The component of a high cell, as it is kept.
#[derive(Clone, Copy)]
pub(crate) enum Part<'a> {
    /// The cell by itself. Nothing is kept of it but its mark.
    Alone,
    /// Several cells, with what is kept for all of them.
    Shared(&'a Component),
}

/// The component of each cell, with a set for each component of several cells. Contracts see the
/// list of the components, in row-major order; that of a cell that is not high is empty.
#[derive(Drop)]
pub struct Components {
    shape: Shape,
    marks: Marks,
    components: Vec<Component>,
}

impl Model for Components {
    ghost use Rattle.std.specs.Prelude.{◌≡◌, List, map, length};
    ghost use Rattle.sz_cells.specs.Cells.{Cells};

    ghost Value = { List Cells };

    ghost use Rattle.sz_cells.specs.Extent.{size_of};
    ghost use Rattle.sz_ops_region.specs.Sets.{sets_by, HaveSets};

    ghost view = { λ a. sets_by a.shape a.components.items a.marks };

    ghost invariant = { λ a. (length a.marks ≡ size_of a.shape)
        × HaveSets a.components.items a.marks };
}

impl Components {
    /// The components of the cells of an array that are at least `t`.
    ///
    /// Takes memory in the number of the array's cells, of which four bytes a cell are kept, and
    /// for each component of several cells what its runs take; and time as the links of cells do.
    pub(crate) fn of(alloc: Global, array: &Array, t: i64) -> Result<Components, NoMemory>
        ensures { IfOk result (λ a. a ≡ components_of t array.now) }
    {
        let shape = array.shape();
        shape.size(); // a shape is within the limits
        let numbers = numbers_of(alloc, array, t)?;
        let mut lists = lists_of(alloc, &numbers.marks, numbers.count)?;
        let components = components_of(alloc, shape, &numbers.marks, numbers.count, &mut lists)?;
        Ok(Components {
            shape,
            marks: numbers.marks,
            components,
        })
    }

    /// The component of the cell of an index. `None` exactly where it is empty.
    pub(crate) fn component(&self, index: u32) -> Option<Part<'_>>
        requires { index < length self.now }
        ensures some { IfSome result (λ p. (d : Cells)
            → IsPartAt index p (slice_index_or self.now index d)) }
        ensures none { IfNone result
            ((d : Cells) → (slice_index_or self.now index d).indexes ≡ []) }
    {
        match self.marks.at(index) {
            Mark::Alone => Some(Part::Alone),
            Mark::Numbered(number) => {
                let component = &self.components[number as usize];
                component.cells(); // no component is without a cell
                Some(Part::Shared(component))
            }
            _ => None,
        }
    }
}

/// The component of each number, of its runs, which are taken.
fn components_of(
    alloc: Global,
    shape: Shape,
    marks: &Marks,
    count: u32,
    lists: &mut Vec<RunList>,
) -> Result<Vec<Component>, NoMemory>
    requires lists { AreLists marks.now (size_of shape) count lists.old.items }
    requires used { AreUsed marks.now count }
    requires long { length marks.now ≡ size_of shape }
    ensures { IfOk result (λ v. v.items
        ≡ map (cells_numbered shape marks.now) (range_with_len 0 count)) }
{
    let mut components = Vec::new(alloc);
    components.reserve(count as usize)?;
    for number in 0..count {
        let list = mem::replace(&mut lists[number as usize], RunList::new(alloc));
        let set = list.into_set(shape, marks, number);
        components.push(Component::of(alloc, set)?)?;
    }
    Ok(components)
}
