//! What is prepared once for the operator over its input: the labels of its cells, or where lineage
//! is to be kept their components, with the sets of these.

ghost use Rattle.std.specs.Prelude.{◌≡◌};
ghost use Rattle.sz_ops_region.specs.Terms.{sets_in};

use crate::cell_labels::Labels;
use crate::components::Components;
use std::marker::Model;

/// In which way the component of each cell is kept.
#[derive(Drop)]
pub enum Kept {
    /// By its label. That is all that a value needs.
    Labels(Labels),
    /// By its set, as lineage needs it.
    Components(Components),
}

/// What is prepared once for the operator over its input: the component of each cell, in one way or
/// the other. Contracts see the list of these, in row-major order; that of a cell that is not high
/// is empty.
#[derive(Drop)]
pub struct Aid {
    kept: Kept,
}

impl Model for Aid {
    ghost use Rattle.std.specs.Prelude.{List};
    ghost use Rattle.sz_cells.specs.Cells.{Cells};
    ghost use Rattle.sz_ops_region.specs.Prepared.{sets_in};

    ghost Value = { List Cells };

    ghost view = { λ a. sets_in a.kept };
}

impl Aid {
    /// What is kept in this way.
    pub(crate) fn of(kept: Kept) -> Aid
        ensures { result ≡ sets_in kept }
    {
        Aid { kept }
    }

    /// What is kept, in its way.
    pub(crate) fn kept(&self) -> &Kept
        ensures { sets_in result.now ≡ self.now }
    {
        &self.kept
    }
}
