//! What a worker works on.

ghost use Rattle.std.specs.Prelude.{◌≡◌};
ghost use Rattle.std.specs.Arc.{arc_value};
ghost use Rattle.sz_spec.specs.Pieces.{pieces_of};
ghost use Rattle.sz_ops.specs.Aids.{aid_of};
ghost use Rattle.sz_shelf.specs.Passes.{place_of};
ghost use Rattle.sz_pool.specs.Tagged.{tag_over};

use std::marker::Model;
use std::sync::Arc;
use sz_claims::{ClaimPass, Claims};
use sz_ops::Aid;
use sz_shelf::{Pass, Shelf};
use sz_spec::{ArrayList, OpAt, Strategy};

/// A node of a version, as a worker needs it. Its pass is of its shelf, whose tag is the operator,
/// the arrays and the list; what was prepared is theirs; there is one claim for each piece of the
/// output; and its claim pass is of these claims.
#[derive(Drop)]
pub struct Task {
    /// The number of the version.
    pub version: u32,
    /// The number of the node in its flow.
    pub node: u32,
    /// The operator, with the shapes of the arrays that it takes and of its output.
    pub at: Arc<OpAt>,
    /// The arrays that it takes.
    pub inputs: ArrayList,
    /// What was prepared for the operator and these arrays.
    pub aid: Arc<Aid>,
    /// The strategies by which the lineage is kept.
    pub list: StrategyList,
    /// Where it is kept.
    pub shelf: Arc<Shelf>,
    /// The right to take turns at the shelf.
    pub pass: Pass,
    /// The claims on the pieces of the output.
    pub claims: Arc<Claims>,
    /// The right to claim them.
    pub claim_pass: ClaimPass,
    ghost prepared: { arc_value aid ≡ aid_of (arc_value at).op inputs },
    ghost own: { place_of pass ≡ arc_value shelf },
    ghost tag: { (arc_value shelf).tag ≡ tag_over (arc_value at) inputs list },
    ghost pieces: { (arc_value claims).count ≡ pieces_of (arc_value at).out },
    ghost claimant: { claim_pass.table ≡ (arc_value claims).table },
}

/// Strategies, in an order. Contracts see the list of them.
#[derive(Drop)]
pub struct StrategyList {
    items: Vec<Strategy>,
}

impl Model for StrategyList {
    ghost use Rattle.std.specs.Prelude.{List};
    ghost use Rattle.sz_spec.specs.declared.modes.Strategy.{Strategy};

    ghost Value = { List Strategy };

    ghost view = { λ s. s.items.items };
}

impl StrategyList {
    /// These strategies, in this order.
    pub fn of(items: Vec<Strategy>) -> StrategyList
        ensures { result ≡ items.items }
    {
        StrategyList { items }
    }

    /// The strategies, in their order.
    pub fn as_slice(&self) -> &[Strategy]
        ensures { result.now ≡ self.now }
    {
        &self.items
    }
}
