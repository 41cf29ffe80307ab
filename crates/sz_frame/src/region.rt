//! Region pairs.

ghost use Rattle.std.specs.Prelude.{◌≡◌};
ghost use Rattle.sz_frame.specs.Terms.{map, arc_value};

use std::marker::Model;
use std::sync::Arc;
use sz_cells::CellSet;

/// Shared cell sets, one for each input of an operator. Contracts see the list of the sets.
#[derive(Drop)]
pub struct SetList {
    items: Vec<Arc<CellSet>>,
}

impl Model for SetList {
    ghost use Rattle.std.specs.Prelude.{List, map};
    ghost use Rattle.std.specs.Arc.{arc_value};
    ghost use Rattle.sz_cells.specs.Cells.{Cells};

    ghost Value = { List Cells };

    ghost view = { λ s. map (λ a. arc_value a) s.items.items };
}

impl SetList {
    /// These sets, in this order.
    pub fn of(items: Vec<Arc<CellSet>>) -> SetList
        ensures { result ≡ map (λ a. arc_value a) items.items }
    {
        SetList { items }
    }

    /// The sets, in their order.
    pub fn as_slice(&self) -> &[Arc<CellSet>]
        ensures { map (λ a. arc_value a) result.now ≡ self.now }
    {
        &self.items
    }
}

/// A region pair: a set of output cells, and for each input array a set of input cells. Every
/// output cell depends on every one of these input cells.
#[derive(Drop)]
pub struct Region {
    pub out: Arc<CellSet>,
    pub ins: SetList,
}

impl Model for Region {
    ghost use Rattle.std.specs.Arc.{arc_value};
    ghost use Rattle.sz_frame.specs.Parts.{Pairing};

    ghost Value = { Pairing };

    ghost view = { λ r. record { out = arc_value r.out; ins = r.ins } };
}
