//! The body that a log gets of a version, once that is awaited.

ghost use Rattle.std.specs.Prelude.{◌≡◌};
ghost use Rattle.sz_versions.specs.Terms.{map, true, false, IfOk, option_map, arc_value};
ghost use Rattle.sz_versions.specs.Terms.{has_no_version, version_of, is_format, lineages};
ghost use Rattle.sz_versions.specs.Terms.{IsSoundBody, store_in, IsTrailOf, keeping_of};

use crate::runs::{NodeKeeping, VersionRun};
use std::alloc::Global;
use std::sync::Arc;
use sz_bodies::version_body;
use sz_catalogue::Catalogue;
use sz_cells::NoMemory;
use sz_store::NodeStore;

/// The body of a version that is held, in a format of a log, with the stores that its run has once
/// it is awaited.
///
/// Takes time and memory in the stores.
pub fn body_for(
    alloc: Global,
    catalogue: &Catalogue,
    version: u32,
    run: &VersionRun,
    format: u8,
) -> Result<Vec<u8>, NoMemory>
    requires format { is_format format ≡ true }
    requires held { has_no_version catalogue.now version ≡ false }
    requires own { IsTrailOf (record (version_of catalogue.now version) { awaited = true })
        run.now }
    ensures { IfOk result
        (λ body. IsSoundBody format version (version_of catalogue.now version) body.items) }
{
    catalogue.is_in_order();
    let stores = stores_of(alloc, run)?;
    version_body(alloc, catalogue, version, &stores, format)
}

/// The stores that were made of each node, where they are whole.
fn stores_of(alloc: Global, run: &VersionRun) -> Result<Vec<Option<Arc<NodeStore>>>, NoMemory>
    ensures { IfOk result (λ v. lineages v.items ≡ map store_in run.now.kept) }
{
    let mut stores = Vec::with_capacity(alloc, run.stores.len())?;
    for one in &run.stores {
        stores.push(store_of(one)?)?;
    }
    Ok(stores)
}

/// The stores that were made of a node, where they are whole.
fn store_of(kept: &NodeKeeping) -> Result<Option<Arc<NodeStore>>, NoMemory>
    ensures { IfOk result
        (λ s. option_map (λ a. arc_value a) s ≡ store_in (keeping_of kept.now)) }
{
    match kept {
        NodeKeeping::Nothing => Ok(None),
        NodeKeeping::Growing { .. } => Ok(None),
        NodeKeeping::Whole(built) => Ok(Some(Arc::try_clone(&built.store)?)),
        NodeKeeping::Read { .. } => Ok(None),
    }
}
