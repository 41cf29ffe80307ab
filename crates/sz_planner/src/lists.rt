//! The list of a choice. Contracts see it as the list of its strategies.

ghost use Rattle.std.specs.Prelude.{◌≡◌};

use std::marker::Model;
use sz_spec::Strategy;

/// One strategy for each node of a flow, in the order of the nodes.
#[derive(Debug, Drop)]
pub struct ChoiceList {
    items: Vec<Strategy>,
}

impl Model for ChoiceList {
    ghost use Rattle.std.specs.Prelude.{List};
    ghost use Rattle.sz_spec.specs.declared.modes.Strategy.{Strategy};

    ghost Value = { List Strategy };

    ghost view = { λ l. l.items.items };
}

impl ChoiceList {
    /// These strategies, in this order.
    pub fn of(items: Vec<Strategy>) -> ChoiceList
        ensures { result ≡ items.items }
    {
        ChoiceList { items }
    }

    /// The strategies, in the order of the nodes.
    pub fn as_slice(&self) -> &[Strategy]
        ensures { result.now ≡ self.now }
    {
        &self.items
    }
}
