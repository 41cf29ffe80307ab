//! The lists that a command holds. Contracts see each as the list of what it holds.

ghost use Rattle.std.specs.Prelude.{◌≡◌};

use crate::command::{BaseName, NamedCell, NewCell, PathStep};
use std::marker::Model;
use sz_spec::Strategy;

/// Strategies, in an order.
pub type StrategyList = Items<Strategy>;

/// Base arrays, in the order in which a flow takes them.
pub type BaseList = Items<BaseName>;

/// The steps of a path, in their order.
pub type Path = Items<PathStep>;

/// The cells that an ask names, in the order in which it names them.
pub type NamedCells = Items<NamedCell>;

/// The cells that a refresh sets, in the order in which it sets them.
pub type NewCells = Items<NewCell>;

/// Things in an order.
#[derive(Debug, Drop)]
pub struct Items<T> {
    items: Vec<T>,
}

impl<T> Model for Items<T> {
    ghost use Rattle.std.specs.Prelude.{List};

    ghost Value = { List T };

    ghost view = { λ l. l.items.items };
}

impl<T> Items<T> {
    /// These things, in this order.
    pub fn of(items: Vec<T>) -> Items<T>
        ensures { result ≡ items.items }
    {
        Items { items }
    }

    /// The things, in their order.
    pub fn as_slice(&self) -> &[T]
        ensures { result.now ≡ self.now }
    {
        &self.items
    }
}
