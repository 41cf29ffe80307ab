//! The versions that a log gave: of each what the runs of its nodes are made of once they are asked,
//! beside the stores that were read of it.

ghost use Rattle.std.specs.Prelude.{◌≡◌};
ghost use Rattle.sz_versions.specs.Terms.{map, true, All, option_map, IfOk, arc_value, arrays_of};
ghost use Rattle.sz_versions.specs.Terms.{lineages, IsEntryOf, keeping_of, keeping_from};
ghost use Rattle.sz_versions.specs.Terms.{IsResident, kept_of};

use crate::held::{Carried, HeldRun};
use crate::runs::{NodeKeeping, UnmadeRun};
use std::alloc::Global;
use std::sync::Arc;
use sz_catalogue::{BaseArray, Catalogue};
use sz_cells::NoMemory;
use sz_recover::KeptVersion;
use sz_spec::Array;
use sz_store::NodeStore;

/// What is carried of each version of a catalogue that a log gave, with its stores. The values of
/// its nodes are not computed yet.
pub(crate) fn recall_each(
    alloc: Global,
    catalogue: &Catalogue,
    stores: Vec<KeptVersion>,
) -> Result<Vec<HeldRun>, NoMemory>
    requires { All (IsEntryOf catalogue.now) stores.items }
    ensures own { IfOk result (λ v. All (IsResident catalogue.now) v.items) }
    ensures logged { IfOk result (λ v. All (λ r. r.logged ≡ true) v.items) }
    ensures kept { IfOk result (λ v. map kept_of v.items ≡ stores.items) }
{
    let count = stores.len();
    let mut recalled = Vec::with_capacity(alloc, count)?;
    for at in 0..count {
        recalled.push(recall(alloc, catalogue, &stores[at])?)?;
    }
    Ok(recalled)
}

/// What is carried of a version.
fn recall(alloc: Global, catalogue: &Catalogue, kept: &KeptVersion) -> Result<HeldRun, NoMemory>
    requires { IsEntryOf catalogue.now kept.now }
    ensures own { IfOk result (λ r. IsResident catalogue.now r) }
    ensures logged { IfOk result (λ r. r.logged ≡ true) }
    ensures kept { IfOk result (λ r. kept_of r ≡ kept.now) }
{
    catalogue.is_in_order();
    let Some(held) = catalogue.version(kept.version) else {
        unreachable!()
    };
    let arrays = arrays_of(alloc, held.base.as_slice())?;
    let stores = stores_read(alloc, &kept.nodes)?;
    Ok(HeldRun {
        number: kept.version,
        logged: true,
        run: Carried::Unmade(UnmadeRun::of(&held.flow, arrays, stores)?),
    })
}

/// What is kept of each node: the stores that were read of it.
fn stores_read(
    alloc: Global,
    nodes: &[Option<Arc<NodeStore>>],
) -> Result<Vec<NodeKeeping>, NoMemory>
    ensures { IfOk result (λ v. map keeping_of v.items ≡ map keeping_from (lineages nodes.now)) }
{
    let mut stores = Vec::with_capacity(alloc, nodes.len())?;
    for node in nodes {
        stores.push(store_read(node)?)?;
    }
    Ok(stores)
}

/// What is kept of a node: the stores that were read of it, where there are some.
fn store_read(node: &Option<Arc<NodeStore>>) -> Result<NodeKeeping, NoMemory>
    ensures { IfOk result
        (λ s. keeping_of s ≡ keeping_from (option_map (λ a. arc_value a) node.now)) }
{
    match node {
        Some(store) => Ok(NodeKeeping::Read {
            store: Arc::try_clone(store)?,
        }),
        None => Ok(NodeKeeping::Nothing),
    }
}

/// The arrays of base arrays, shared.
pub(crate) fn arrays_of(alloc: Global, base: &[BaseArray]) -> Result<Vec<Arc<Array>>, NoMemory>
    ensures { IfOk result (λ v. map (λ a. arc_value a) v.items ≡ arrays_of base.now) }
{
    let mut arrays = Vec::with_capacity(alloc, base.len())?;
    for only in base {
        arrays.push(Arc::try_clone(&only.array)?)?;
    }
    Ok(arrays)
}
