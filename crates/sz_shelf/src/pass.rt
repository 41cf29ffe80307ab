//! A pass: the right to take turns at one shelf, and what it knows of it.

ghost use Rattle.std.specs.Prelude.{◌≡◌};
ghost use Rattle.sz_shelf.specs.Terms.{IfSome, OnOk, OnErr, option_map, option_or, arc_value};
ghost use Rattle.sz_shelf.specs.Terms.{IsTag, StandsFor};

use crate::rule::View;
use crate::shelved::Shelved;
use atomic_table::Seat;
use std::marker::Model;
use std::sync::Arc;
use sz_cells::NoMemory;
use sz_store::NodeStore;

/// The right to take turns at one shelf. It moves between threads. Contracts see the shelf's table
/// and tag, the placed list as the pass has seen it, whether it saw the seal, the number of its
/// turns, of its loads of the count and of the passes that were split off it, with those of the
/// passes joined into it, what its last turn found, and the stores that it keeps.
#[derive(Drop)]
pub struct Pass {
    pub(crate) seat: Seat<Shelved, View>,
    pub(crate) kept: Option<Arc<NodeStore>>,
}

impl Model for Pass {
    ghost use Rattle.std.specs.Prelude.{◌≡◌, IfSome};
    ghost use Rattle.std.specs.Option.{option_map};
    ghost use Rattle.std.specs.Arc.{arc_value};
    ghost use Rattle.sz_shelf.specs.Passes.{Onlooker, onlooker};
    ghost use Rattle.sz_shelf.specs.Tags.{IsTag, StandsFor};
    ghost use Rattle.sz_shelf.specs.Turns.{IsIdle};

    ghost Value = { Onlooker };

    ghost view = { λ p. onlooker p.seat.table_id p.seat.me.0
        (option_map (λ a. arc_value a) p.kept) };

    ghost invariant = { λ p. IsIdle p.seat.me × IsTag p.seat.me.0.tag
        × IfSome p.kept (λ a. StandsFor p.seat.me.0.tag (arc_value a)) };
}

impl Pass {
    /// What the last `store_of` of this pass gave, or of one that it was split from or that was
    /// joined into it. No turn, no memory. The clause `tag` is true of every pass.
    pub fn kept(&self) -> Option<&Arc<NodeStore>>
        ensures value { option_map (λ a. arc_value a.now) result ≡ self.now.kept }
        ensures tag { IsTag self.now.tag }
        ensures stands { IfSome result (λ a. StandsFor self.now.tag (arc_value a.now)) }
    {
        self.kept.as_ref()
    }

    /// Keeps a share of these stores, where there are any. Where there is none to be had, it keeps
    /// what it kept.
    pub(crate) fn keep(&mut self, given: &Option<Arc<NodeStore>>) -> Result<(), NoMemory>
        requires { IfSome given.now (λ a. StandsFor self.old.tag (arc_value a)) }
        ensures rest { self.new ≡ record self.old { kept = self.new.kept } }
        ensures ok { OnOk result (self.new.kept
            ≡ option_or (option_map (λ a. arc_value a) given.now) self.old.kept) }
        ensures err { OnErr result (self.new.kept ≡ self.old.kept) }
    {
        if let Some(store) = given {
            let store = Arc::try_clone(store)?;
            self.kept = Some(store);
        }
        Ok(())
    }
}
