//! Reading a store of full lineage: the table of sets, and then the region pairs that name them.

ghost use Rattle.std.specs.Prelude.{◌≡◌, ◌<◌, ◌≤◌, ◌+◌, ◌^◌, ◌∷◌};
ghost use Rattle.sz_region.specs.Terms.{ℕ, List, [], length, map, true, Some, All, IfOk, IfErr};
ghost use Rattle.sz_region.specs.Terms.{IfSome, IfNone, AllZip, flat_map, slice_get, arc_value};
ghost use Rattle.sz_region.specs.Terms.{Extent, is_extent, size_of, AreRunsFrom, four_bytes};
ghost use Rattle.sz_region.specs.Terms.{extent_at, counted, rows_bytes, IsAt, IsListed};
ghost use Rattle.sz_region.specs.Terms.{listed_bytes, listed_from, AreNumbersOf, AreNamesOf};
ghost use Rattle.sz_region.specs.Terms.{BeginsRegions, listed_by, OnBad, NoRegionsBegin};
ghost use Rattle.sz_region.specs.Terms.{SaysNoRegions, NoneAt, AreFew, IsNameFor, AreNamesFor};
ghost use Rattle.sz_region.specs.Terms.{ArePairNames, AreStoreNames};

use crate::limits::shapes_are_within_limits;
use crate::numbers::take_number;
use crate::set_bytes::{Take, take_set, take_set_runs};
use std::alloc::Global;
use std::marker::Model;
use std::sync::Arc;
use sz_cells::{CellSet, Run, Shape};
use sz_frame::{Region, SetList};

/// A set of the table of a store.
#[derive(Drop)]
struct Kept {
    array: u8,
    set: Arc<CellSet>,
}

impl Model for Kept {
    ghost use Rattle.std.specs.Arc.{arc_value};
    ghost use Rattle.sz_region.specs.FullBytes.{Listed};

    ghost Value = { Listed };

    ghost view = { λ k. record { array = k.array; set = arc_value k.set } };
}

/// The region pairs of the store that begins at a place of some bytes, for an operator with an
/// output and inputs of these shapes, and the place behind it. `Bad` exactly where none begins
/// there. Region pairs that name one set share it.
///
/// Takes time and memory in the number of bytes that it reads, and none for what is not there.
pub fn take_regions(
    alloc: Global,
    out: Shape,
    ins: &[Shape],
    bytes: &[u8],
    at: u64,
) -> Result<(Vec<Arc<Region>>, u64), Take>
    ensures ok { IfOk result (λ r. BeginsRegions out ins.now bytes.now at r.1
        (map (λ x. arc_value x) r.0.items)) }
    ensures within { IfOk result (λ r. r.1 ≤ length bytes.now) }
    ensures err { IfErr result (λ e. SaysNoRegions out ins.now bytes.now at e) }
{
    shapes_are_within_limits(&out, ins);
    match take_full(alloc, out, ins, bytes, at) {
        Err(Take::Bad { .. }) => Err(Take::Bad { at }),
        taken => taken,
    }
}

/// As [`take_regions`], but that `Bad` says any place.
fn take_full(
    alloc: Global,
    out: Shape,
    ins: &[Shape],
    bytes: &[u8],
    at: u64,
) -> Result<(Vec<Arc<Region>>, u64), Take>
    requires { All (λ e. is_extent e ≡ true) (out ∷ ins.now) }
    ensures ok { IfOk result (λ r. BeginsRegions out ins.now bytes.now at r.1
        (map (λ x. arc_value x) r.0.items)) }
    ensures within { IfOk result (λ r. r.1 ≤ length bytes.now) }
    ensures err { IfErr result (λ e. OnBad e (NoRegionsBegin out ins.now bytes.now at)) }
{
    let (table, place) = take_table(alloc, out, ins, bytes, at)?;
    take_pairs(alloc, &table, ins.len(), bytes, place)
}

/// The table of sets that begins at a place.
fn take_table(
    alloc: Global,
    out: Shape,
    ins: &[Shape],
    bytes: &[u8],
    at: u64,
) -> Result<(Vec<Kept>, u64), Take>
    requires { All (λ e. is_extent e ≡ true) (out ∷ ins.now) }
    ensures sets { IfOk result (λ r. AreFew (IsListed out ins.now) r.0.items) }
    ensures bytes { IfOk result (λ r. IsAt bytes.now at r.1 (counted listed_bytes r.0.items)) }
    ensures err { IfErr result (λ e. OnBad e
        (NoneAt (AreFew (IsListed out ins.now)) (counted listed_bytes) bytes.now at)) }
{
    let Some(count) = take_number(bytes, at) else {
        return Err(Take::Bad { at });
    };
    let mut table = Vec::new(alloc);
    let mut place = at + 4;
    for _index in 0..count {
        let (kept, next) = take_listed(alloc, out, ins, bytes, place)?;
        table.push(kept)?;
        place = next;
    }
    Ok((table, place))
}

/// The set with its array that begins at a place.
fn take_listed(
    alloc: Global,
    out: Shape,
    ins: &[Shape],
    bytes: &[u8],
    at: u64,
) -> Result<(Kept, u64), Take>
    ensures set { IfOk result (λ r. IsListed out ins.now r.0) }
    ensures bytes { IfOk result (λ r. IsAt bytes.now at r.1 (listed_bytes r.0)) }
    ensures err { IfErr result (λ e. OnBad e
        (NoneAt (IsListed out ins.now) listed_bytes bytes.now at)) }
{
    let Some(head) = array_at(out, ins, bytes, at) else {
        return Err(Take::Bad { at });
    };
    let (set, next) = take_set(alloc, head.1, bytes, at + 1)?;
    let set = Arc::new(alloc, set)?;
    Ok((Kept { array: head.0, set }, next))
}

/// The array of the listed set that begins at a place of some bytes, 0 for the output and i + 1 for
/// input i of an operator with these shapes, and the place behind the set. Its longest runs,
/// rising, take the place of what a list has. `Bad` exactly where none begins there.
///
/// Takes time in the number of the set's runs, and memory only where it has more than the list had
/// before.
pub fn take_listed_runs(
    out: Shape,
    ins: &[Shape],
    bytes: &[u8],
    at: u64,
    to: &mut Vec<Run>,
) -> Result<(u8, u64), Take>
    ensures set { IfOk result (λ r. IsListed out ins.now (listed_by out ins.now r.0 to.new.items)) }
    ensures longest { IfOk result (λ r.
        AreRunsFrom 0 (size_of (extent_at (out ∷ ins.now) r.0)) to.new.items) }
    ensures bytes { IfOk result (λ r. IsAt bytes.now at r.1
        (listed_bytes (listed_by out ins.now r.0 to.new.items))) }
    ensures err { IfErr result (λ e. OnBad e
        (NoneAt (IsListed out ins.now) listed_bytes bytes.now at)) }
{
    let Some(head) = array_at(out, ins, bytes, at) else {
        return Err(Take::Bad { at });
    };
    let next = take_set_runs(head.1, bytes, at + 1, to)?;
    Ok((head.0, next))
}

/// The array whose byte stands at a place, and its shape. `None` where no listed set begins there.
fn array_at(out: Shape, ins: &[Shape], bytes: &[u8], at: u64) -> Option<(u8, Shape)>
    ensures array { IfSome result (λ r. IsAt bytes.now at (at + 1) (r.0 ∷ [])) }
    ensures there { IfSome result (λ r. r.0 ≤ length ins.now) }
    ensures shape { IfSome result (λ r. r.1 ≡ extent_at (out ∷ ins.now) r.0) }
    ensures none { IfNone result (NoneAt (IsListed out ins.now) listed_bytes bytes.now at) }
{
    if bytes.len() as u64 <= at {
        return None;
    }
    let array = bytes[at as usize];
    let shape = shape_of(out, ins, array)?;
    Some((array, shape))
}

/// The shape of an array of an operator. `None` exactly where it has no such array.
fn shape_of(out: Shape, ins: &[Shape], array: u8) -> Option<Shape>
    ensures some { IfSome result (λ e. e ≡ extent_at (out ∷ ins.now) array) }
    ensures there { IfSome result (λ e. array ≤ length ins.now) }
    ensures none { IfNone result (length ins.now < array) }
{
    if array == 0 {
        return Some(out);
    }
    ins.get(array as usize - 1).copied()
}

/// The region pairs that begin with their number at a place, and name sets of a table.
fn take_pairs(
    alloc: Global,
    table: &[Kept],
    inputs: usize,
    bytes: &[u8],
    at: u64,
) -> Result<(Vec<Arc<Region>>, u64), Take>
    requires { length table.now < 2 ^ 32 }
    ensures ok { IfOk result (λ r. (rows : List (List ℕ))
        × AllZip (AreNamesOf table.now inputs) rows (map (λ x. arc_value x) r.0.items)
        × (length rows ≤ 2 ^ 30) × IsAt bytes.now at r.1 (rows_bytes rows)) }
    ensures err { IfErr result (λ e. OnBad e
        (NoneAt (AreStoreNames table.now inputs) rows_bytes bytes.now at)) }
{
    let Some(count) = take_number(bytes, at) else {
        return Err(Take::Bad { at });
    };
    if count > MOST_ROWS {
        return Err(Take::Bad { at });
    }
    let mut regions = Vec::new(alloc);
    let mut place = at + 4;
    for _index in 0..count {
        let (region, next) = take_region(alloc, table, inputs, bytes, place)?;
        regions.push(Arc::new(alloc, region)?)?;
        place = next;
    }
    Ok((regions, place))
}

/// The most region pairs or entries of a store.
pub const MOST_ROWS: u32 = 1_073_741_824;

/// The region pair whose names stand at a place.
fn take_region(
    alloc: Global,
    table: &[Kept],
    inputs: usize,
    bytes: &[u8],
    at: u64,
) -> Result<(Region, u64), Take>
    requires { length table.now < 2 ^ 32 }
    ensures ok { IfOk result (λ r. (ns : List ℕ) × AreNamesOf table.now inputs ns r.0
        × IsAt bytes.now at r.1 (flat_map four_bytes ns)) }
    ensures err { IfErr result (λ e. OnBad e
        (NoneAt (ArePairNames table.now inputs) (flat_map four_bytes) bytes.now at)) }
{
    let out = take_name(table, 0, bytes, at)?;
    let (ins, next) = take_names(alloc, table, inputs, bytes, at + 4)?;
    let ins = SetList::of(ins);
    Ok((Region { out, ins }, next))
}

/// The sets of so many inputs whose names stand at a place.
fn take_names(
    alloc: Global,
    table: &[Kept],
    inputs: usize,
    bytes: &[u8],
    at: u64,
) -> Result<(Vec<Arc<CellSet>>, u64), Take>
    requires few { length table.now < 2 ^ 32 }
    requires within { at ≤ length bytes.now }
    ensures ok { IfOk result (λ r. (ns : List ℕ)
        × AreNumbersOf table.now ns (listed_from 1 (map (λ s. arc_value s) r.0.items))
        × (length r.0.items ≡ inputs) × IsAt bytes.now at r.1 (flat_map four_bytes ns)) }
    ensures err { IfErr result (λ e. OnBad e
        (NoneAt (AreNamesFor table.now 1 inputs) (flat_map four_bytes) bytes.now at)) }
{
    let mut sets = Vec::new(alloc);
    let mut place = at;
    for input in 0..inputs {
        sets.push(take_name(table, input + 1, bytes, place)?)?;
        place += 4;
    }
    Ok((sets, place))
}

/// The set of an array whose name stands at a place.
fn take_name(table: &[Kept], array: usize, bytes: &[u8], at: u64) -> Result<Arc<CellSet>, Take>
    requires { length table.now < 2 ^ 32 }
    ensures ok { IfOk result (λ s. (n : ℕ)
        × (slice_get table.now n ≡ Some (record { array = array; set = arc_value s }))
        × IsAt bytes.now at (at + 4) (four_bytes n)) }
    ensures err { IfErr result (λ e. OnBad e
        (NoneAt (IsNameFor table.now array) four_bytes bytes.now at)) }
{
    let Some(name) = take_number(bytes, at) else {
        return Err(Take::Bad { at });
    };
    let Some(kept) = table.get(name as usize) else {
        return Err(Take::Bad { at });
    };
    if kept.array as usize != array {
        return Err(Take::Bad { at });
    }
    Ok(Arc::try_clone(&kept.set)?)
}
