//! The stores of a node, each merged by itself.

ghost use Rattle.std.specs.Prelude.{◌≡◌, ◌<◌, ◌≤◌, ◌∷◌};
ghost use Rattle.sz_merge.specs.Terms.{List, length, map, All, IfOk, arc_value, mode_of, AreRight};
ghost use Rattle.sz_merge.specs.Terms.{HasShapes, Pairing, pairings, regions, keep_at, IsOfItsMode};
ghost use Rattle.sz_merge.specs.Terms.{IsTableOf, IsPartMerged, AreKindsPut};
ghost use Rattle.sz_spec.specs.declared.modes.Mode.TheVariants as mode;

use crate::apart::are_kinds;
use crate::kinds::kinds_of;
use crate::tabled::put_kinds_of_rows;
use std::alloc::Global;
use std::sync::Arc;
use sz_cells::NoMemory;
use sz_frame::Region;
use sz_region::{put_regions, shapes_are_within_limits, take_regions};
use sz_spec::OpAt;
use sz_store::NodeStore;
use sz_tables::RegionTable;

/// Merges the store at a place: its word is put, and its number of kinds if it has region pairs.
/// Whether it is put as it is.
pub fn merge_part(
    alloc: Global,
    store: &NodeStore,
    place: usize,
    to: &mut Vec<u8>,
    kinds: &mut Vec<u32>,
) -> Result<bool, NoMemory>
    requires place { place < length store.now.stores }
    requires mode { IsOfItsMode (keep_at store.now.stores place) }
    ensures { let s = store.now in IfOk result (λ same. IsPartMerged s.site
        (keep_at s.stores place) same to.old.items to.new.items kinds.old.items kinds.new.items) }
{
    let Some(table) = store.table(place) else {
        store.put_store(place, to)?; // entries stay
        return Ok(true);
    };
    merge_pairs(alloc, store, place, table, to, kinds)
}

/// Every shape of an operator is within the limits.
pub fn within_limits(at: &OpAt)
    ensures right { AreRight (at.now.out ∷ at.now.ins) }
    ensures few { length at.now.ins ≤ 2 }
{
    shapes_are_within_limits(&at.out(), at.ins());
}

/// Merges the store at a place, whose region pairs are those of a table. It is put as it is where
/// they are kinds already.
fn merge_pairs(
    alloc: Global,
    store: &NodeStore,
    place: usize,
    table: &RegionTable,
    to: &mut Vec<u8>,
    kinds: &mut Vec<u32>,
) -> Result<bool, NoMemory>
    requires place { place < length store.now.stores }
    requires mode { IsOfItsMode (keep_at store.now.stores place) }
    requires table { let s = store.now in
        IsTableOf s.site (keep_at s.stores place).holding table.now }
    ensures { let s = store.now in IfOk result (λ same. IsPartMerged s.site
        (keep_at s.stores place) same to.old.items to.new.items kinds.old.items kinds.new.items) }
{
    let at = store.site();
    within_limits(at);
    if are_kinds(alloc, at.out(), at.ins().len() as u32, table)? {
        store.put_store(place, to)?;
        kinds.push(table.len())?;
        return Ok(true);
    }
    let count = put_kinds(alloc, store, place, table, to)?;
    kinds.push(count)?;
    Ok(false)
}

/// Puts the kinds of the store at a place, whose region pairs are those of a table, and answers how
/// many they are. The kinds of region pairs of one input of which no two have an output cell are put
/// from the table. Only for the other ones the store is read again, into region pairs whose sets can
/// be joined.
fn put_kinds(
    alloc: Global,
    store: &NodeStore,
    place: usize,
    table: &RegionTable,
    to: &mut Vec<u8>,
) -> Result<u32, NoMemory>
    requires place { place < length store.now.stores }
    requires mode { IsOfItsMode (keep_at store.now.stores place) }
    requires table { let s = store.now in
        IsTableOf s.site (keep_at s.stores place).holding table.now }
    ensures { let s = store.now.site in IfOk result (λ n. AreKindsPut s.out s.ins
        (pairings table.now) n to.old.items to.new.items) }
{
    let at = store.site();
    if let Some(count) = put_kinds_of_rows(alloc, at.out(), at.ins(), table, to)? {
        return Ok(count);
    }
    put_joined(alloc, store, place, to)
}

/// Puts the kinds of the store of region pairs at a place, whose sets are joined, and answers how
/// many they are.
fn put_joined(
    alloc: Global,
    store: &NodeStore,
    place: usize,
    to: &mut Vec<u8>,
) -> Result<u32, NoMemory>
    requires place { place < length store.now.stores }
    requires mode { mode_of (keep_at store.now.stores place).strategy ≡ mode.Full }
    ensures { let s = store.now in IfOk result (λ n. (rs : List Pairing)
        × ((keep_at s.stores place).holding ≡ regions rs)
        × AreKindsPut s.site.out s.site.ins rs n to.old.items to.new.items) }
{
    let at = store.site();
    within_limits(at);
    let regions = pairs_of(alloc, store, place)?;
    let merged = kinds_of(alloc, at.out(), at.ins(), &regions)?;
    if merged.len() > 1_048_576 {
        return Err(NoMemory); // there are no more of them than output cells
    }
    put_regions(&merged, to)?;
    Ok(merged.len() as u32)
}

/// The region pairs of the store at a place, with sets of their own: its bytes are put, and read.
fn pairs_of(alloc: Global, store: &NodeStore, place: usize) -> Result<Vec<Arc<Region>>, NoMemory>
    requires place { place < length store.now.stores }
    requires mode { mode_of (keep_at store.now.stores place).strategy ≡ mode.Full }
    ensures pairs { IfOk result (λ v. (keep_at store.now.stores place).holding
        ≡ regions (map (λ a. arc_value a) v.items)) }
    ensures shapes { let s = store.now.site in IfOk result
        (λ v. All (HasShapes s.out s.ins) (map (λ a. arc_value a) v.items)) }
{
    let at = store.site();
    within_limits(at);
    let mut bytes = Vec::new(alloc);
    store.put_store(place, &mut bytes)?;
    match take_regions(alloc, at.out(), at.ins(), &bytes, 0) {
        Ok((pairs, _)) => Ok(pairs),
        Err(_) => Err(NoMemory),
    }
}
