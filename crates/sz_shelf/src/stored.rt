//! The stores of a shelf: open while pieces are placed, and shared once they are handed out.

ghost use Rattle.std.specs.Prelude.{◌≡◌};
ghost use Rattle.sz_shelf.specs.Terms.{Some, IfOk, OnOk, OnErr, true, arc_value, store_in, IsThere};
ghost use Rattle.sz_shelf.specs.Terms.{CanTake, with_more, IsSharedFrom, StayApart};

use std::alloc::{AllocFailed, Global};
use std::sync::Arc;
use sz_cells::NoMemory;
use sz_frame::PieceLineage;
use sz_store::NodeStore;

/// The stores of a node, in one of two forms.
#[derive(Drop)]
pub enum Stored {
    /// Pieces can be placed in it.
    Open(NodeStore),
    /// It can be handed out, and nothing is placed in it any more.
    Shared(Arc<NodeStore>),
    /// What stands in its place while it is changed from one form to the other.
    Moved,
}

impl Stored {
    /// The stores, in whichever form.
    pub(crate) fn store(&self) -> &NodeStore
        requires { IsThere self.now }
        ensures { store_in self.now ≡ Some result.now }
    {
        match self {
            Stored::Open(store) => store,
            Stored::Shared(store) => store,
            Stored::Moved => unreachable!(),
        }
    }

    /// Places the lineage of a piece that is not placed in the stores yet. Where `apart`, the sets
    /// of each input that a store has then are one or apart.
    pub(crate) fn place(&mut self, lineage: &PieceLineage, apart: bool) -> Result<(), NoMemory>
        requires take { CanTake lineage.now self.old }
        requires apart { apart ≡ true → StayApart lineage.now self.old }
        ensures ok { OnOk result (self.new ≡ with_more lineage.now self.old) }
        ensures err { OnErr result (self.new ≡ self.old) }
    {
        match self {
            Stored::Open(store) => {
                store.place_as(lineage, apart)?;
                Ok(())
            }
            Stored::Shared(_) | Stored::Moved => unreachable!(),
        }
    }

    /// The stores in the form that is shared, and one share of them more. Where there is no memory
    /// they are as before, or are shared without a share more.
    pub(crate) fn share(self, alloc: Global) -> (Stored, Result<Arc<NodeStore>, NoMemory>)
        requires { IsThere self }
        ensures form { IsSharedFrom self result.0 }
        ensures ok { IfOk result.1 (λ a. store_in self ≡ Some (arc_value a)) }
    {
        let shared = match self {
            Stored::Open(store) => match Arc::new(alloc, store) {
                Ok(shared) => shared,
                Err(AllocFailed { value }) => return (Stored::Open(value), Err(NoMemory)),
            },
            Stored::Shared(shared) => shared,
            Stored::Moved => unreachable!(),
        };
        match Arc::try_clone(&shared) {
            Ok(again) => (Stored::Shared(shared), Ok(again)),
            Err(_) => (Stored::Shared(shared), Err(NoMemory)),
        }
    }
}
