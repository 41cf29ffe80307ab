//! Arrays: what each cell of a shape holds.

ghost use Rattle.std.specs.Prelude.{◌≡◌, ◌==◌, if◌then◌else◌};
ghost use Rattle.sz_spec.specs.Terms.{true, Some, None, length, map, arc_value, size_of, holds};
ghost use Rattle.sz_spec.specs.Terms.{value_at};

use std::marker::Model;
use std::sync::Arc;
use sz_cells::{Cell, Shape};

/// A rectangle of values, in layers. Contracts see its shape and the values in row-major order.
#[derive(Drop)]
pub struct Array {
    shape: Shape,
    cells: Vec<Value>,
}

/// What a cell holds: a number, or nothing.
pub type Value = Option<i64>;

impl Model for Array {
    ghost use Rattle.std.specs.Prelude.{◌≡◌, length};
    ghost use Rattle.sz_cells.specs.Extent.{size_of};
    ghost use Rattle.sz_spec.specs.Values.{Grid};

    ghost Value = { Grid };

    ghost view = { λ a. record { extent = a.shape; values = a.cells.items } };

    ghost invariant = { λ a. length a.cells.items ≡ size_of a.shape };
}

impl Array {
    /// The array of this shape with these cells, in row-major order. `None` exactly where there are
    /// more or fewer cells than the shape has.
    pub fn make(shape: Shape, cells: Vec<Value>) -> Option<Array>
        ensures { result ≡ (if length cells.items == size_of shape
            then Some (record { extent = shape; values = cells.items }) else None) }
    {
        if cells.len() == shape.size() as usize {
            Some(Array { shape, cells })
        } else {
            None
        }
    }

    /// The array's shape: its layers, rows and columns.
    pub fn shape(&self) -> Shape
        ensures { result ≡ self.now.extent }
    {
        self.shape
    }

    /// What the array holds at each of its cells, in row-major order.
    pub fn cells(&self) -> &[Value]
        ensures values { result.now ≡ self.now.values }
        ensures count { length result.now ≡ size_of self.now.extent }
    {
        &self.cells
    }

    /// What the array holds at one of its cells: a number, or nothing.
    pub fn at(&self, cell: Cell) -> Value
        requires { holds self.now.extent cell ≡ true }
        ensures { result ≡ value_at self.now cell }
    {
        self.cells[self.shape.index(cell) as usize]
    }
}

/// Shared arrays, in an order: those that an operator takes, or those that a flow is run over.
/// Contracts see the list of the arrays.
#[derive(Drop)]
pub struct ArrayList {
    items: Vec<Arc<Array>>,
}

impl Model for ArrayList {
    ghost use Rattle.std.specs.Prelude.{List, map};
    ghost use Rattle.std.specs.Arc.{arc_value};
    ghost use Rattle.sz_spec.specs.Values.{Grid};

    ghost Value = { List Grid };

    ghost view = { λ s. map (λ a. arc_value a) s.items.items };
}

impl ArrayList {
    /// These arrays, in this order.
    pub fn of(items: Vec<Arc<Array>>) -> ArrayList
        ensures { result ≡ map (λ a. arc_value a) items.items }
    {
        ArrayList { items }
    }

    /// The arrays, in their order.
    pub fn as_slice(&self) -> &[Arc<Array>]
        ensures { map (λ a. arc_value a) result.now ≡ self.now }
    {
        &self.items
    }
}
