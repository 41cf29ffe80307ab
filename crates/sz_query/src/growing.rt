//! An operator whose stores grow on a shelf, and which is run again only while that is not sealed.
//!
//! The arrays are in sight of this file alone. It lends them to a pass of that shelf whose last
//! turn found no seal, so a view cannot run the operator where its look found a store.

ghost use Rattle.std.specs.Prelude.{◌≡◌};
ghost use Rattle.sz_query.specs.Terms.{arc_value, place_of, FoundOpen};

use crate::views::NodeRunRef;
use std::marker::Model;
use std::sync::Arc;
use sz_shelf::{Pass, Shelf};
use sz_spec::OpAt;

/// The operator and the arrays that it takes, and the shelf on which its stores grow.
#[derive(Drop)]
pub struct Growing {
    run: NodeRunRef,
    shelf: Arc<Shelf>,
}

impl Model for Growing {
    ghost use Rattle.std.specs.Arc.{arc_value};
    ghost use Rattle.sz_query.specs.Growths.{Growth};

    ghost Value = { Growth };

    ghost view = { λ g. record {
      site = arc_value g.run.at;
      inputs = g.run.inputs;
      place = arc_value g.shelf;
    } };
}

impl Growing {
    /// These arrays, behind this shelf.
    pub fn of(run: NodeRunRef, shelf: Arc<Shelf>) -> Growing
        ensures { result ≡ record {
          site = arc_value run.at;
          inputs = run.inputs;
          place = arc_value shelf;
        } }
    {
        Growing { run, shelf }
    }

    /// The operator, at its shapes.
    pub(crate) fn at(&self) -> &OpAt
        ensures { result.now ≡ self.now.site }
    {
        &self.run.at
    }

    /// The shelf.
    pub(crate) fn shelf(&self) -> &Shelf
        ensures { result.now ≡ self.now.place }
    {
        &self.shelf
    }

    /// The operator and its arrays, for a pass whose last turn at the shelf found no seal.
    pub(crate) fn run(&self, pass: &Pass) -> &NodeRunRef
        requires own { place_of pass.now ≡ self.now.place }
        requires unsealed { FoundOpen pass.now }
        ensures at { arc_value result.now.at ≡ self.now.site }
        ensures inputs { result.now.inputs ≡ self.now.inputs }
    {
        let _ = pass;
        &self.run
    }
}
