//! What a shelf is for: its tag.
//!
//! At run time a shelf holds no arrays. Its tag is made once, for the sake of a [`Snapshot`] of it,
//! which takes no bytes and is seen by contracts alone, and is then let go.
//!
//! [`Snapshot`]: std::snapshot::Snapshot

ghost use Rattle.std.specs.Prelude.{◌≡◌};
ghost use Rattle.sz_shelf.specs.Terms.{map, IfOk, arc_value};

use std::alloc::Global;
use std::marker::Model;
use std::sync::Arc;
use sz_cells::NoMemory;
use sz_spec::{Array, ArrayList, OpAt, Strategy};

/// The operator at its shapes, the arrays that it takes, and the list of its strategies.
#[derive(Drop)]
pub struct TagParts {
    pub(crate) at: Arc<OpAt>,
    pub(crate) inputs: ArrayList,
    pub(crate) list: Vec<Strategy>,
}

impl Model for TagParts {
    ghost use Rattle.std.specs.Arc.{arc_value};
    ghost use Rattle.sz_shelf.specs.Tags.{Tag};

    ghost Value = { Tag };

    ghost view = { λ t. record { site = arc_value t.at; inputs = t.inputs; list = t.list.items } };
}

impl TagParts {
    /// The tag of these three.
    pub(crate) fn of(
        alloc: Global,
        at: &Arc<OpAt>,
        inputs: &[Arc<Array>],
        list: &[Strategy],
    ) -> Result<TagParts, NoMemory>
        ensures { IfOk result (λ t. t ≡ record {
          site = arc_value at.now;
          inputs = map (λ a. arc_value a) inputs.now;
          list = list.now;
        }) }
    {
        let at = Arc::try_clone(at)?;
        let inputs = share(alloc, inputs)?;
        let list = list.to_vec(alloc)?;
        Ok(TagParts { at, inputs, list })
    }
}

/// The same arrays, shared once more.
fn share(alloc: Global, arrays: &[Arc<Array>]) -> Result<ArrayList, NoMemory>
    ensures { IfOk result (λ s. s ≡ map (λ a. arc_value a) arrays.now) }
{
    let mut items: Vec<Arc<Array>> = Vec::new(alloc);
    for array in arrays {
        items.push(Arc::try_clone(array)?)?;
    }
    Ok(ArrayList::of(items))
}
