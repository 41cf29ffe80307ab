//! Stores that were made of a node, whole.

ghost use Rattle.std.specs.Prelude.{◌≡◌, true};
ghost use Rattle.std.specs.Arc.{arc_value};
ghost use Rattle.std.proofs.Props.{props};
ghost use Rattle.sz_shelf.specs.Passes.{place_of};
ghost use Rattle.sz_shelf.specs.Tags.{StandsFor};

use std::sync::Arc;
use sz_shelf::{Pass, Shelf};
use sz_store::NodeStore;

/// Stores that are whole, and the sealed shelf that they were taken from, with a pass of it: there
/// they can be merged beside the asks. Where a node's keeping is spoken of, contracts see the
/// stores alone.
#[derive(Drop)]
pub struct Built {
    pub(crate) store: Arc<NodeStore>,
    pub(crate) shelf: Arc<Shelf>,
    pub(crate) pass: Pass,
    ghost own: { place_of pass ≡ arc_value shelf },
    ghost saw: { pass.saw ≡ true },
    ghost stands: { StandsFor pass.tag (arc_value store) } by { Prim.hlevel props },
}
