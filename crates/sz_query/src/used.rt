//! How the steps of a path were taken.

ghost use Rattle.std.specs.Prelude.{◌≡◌};

use std::marker::Model;
use sz_spec::Strategy;

/// How one step was taken.
#[derive(Clone, Copy, Debug, PartialEq, Eq)]
pub enum Used {
    /// By what this strategy keeps.
    By(Strategy),
    /// By running the operator again over its inputs.
    Traced,
}

/// How each step was taken, in the path's order. Contracts see the list.
#[derive(Debug, Drop)]
pub struct UsedList {
    items: Vec<Used>,
}

impl Model for UsedList {
    ghost use Rattle.std.specs.Prelude.{List};
    ghost use Rattle.sz_query.specs.declared.used.Used.{Used};

    ghost Value = { List Used };

    ghost view = { λ s. s.items.items };
}

impl UsedList {
    /// These steps, in this order.
    pub(crate) fn of(items: Vec<Used>) -> UsedList
        ensures { result ≡ items.items }
    {
        UsedList { items }
    }

    /// How each step was taken, in the path's order.
    pub fn as_slice(&self) -> &[Used]
        ensures { result.now ≡ self.now }
    {
        &self.items
    }
}
