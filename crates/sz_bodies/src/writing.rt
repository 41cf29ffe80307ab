//! Writing the body of a version.

ghost use Rattle.std.specs.Prelude.{◌≡◌, ◌<◌, ◌^◌, ◌++◌, ◌∷◌};
ghost use Rattle.sz_bodies.specs.Terms.{ℕ, List, [], length, map, true, false, All, IfOk, OnOk};
ghost use Rattle.sz_bodies.specs.Terms.{option_map, arc_value, four_bytes, Site, number_of};
ghost use Rattle.sz_bodies.specs.Terms.{counted, has_no_version, version_of, is_format, name_bytes};
ghost use Rattle.sz_bodies.specs.Terms.{base_bytes, list_bytes, BeginNodes, IsShortName};
ghost use Rattle.sz_bodies.specs.Terms.{IsShortBase, IsBodyOf, sites_of, FitsNode, FitNodes, Fit};
ghost use Rattle.sz_bodies.specs.Terms.{lineages, part_of, parts_of, named_base, body_of};

use std::alloc::Global;
use std::sync::Arc;
use sz_catalogue::{BaseArray, Catalogue};
use sz_cells::NoMemory;
use sz_formats::put_stores;
use sz_numbers::four_bytes;
use sz_script::{Name, StrategyList};
use sz_spec::Strategy;
use sz_store::NodeStore;

/// The body of a version that is held, in a format of logs, 1 or 2, with these stores: for each
/// node those of its list, where that has a strategy that keeps one.
///
/// Takes time and memory in the stores. `NoMemory` also where a name has more than 255 bytes, a
/// list more than 255 strategies, or there are 2^32 base arrays or nodes: none of these is so of a
/// version that a line started.
pub fn version_body(
    alloc: Global,
    catalogue: &Catalogue,
    version: u32,
    stores: &[Option<Arc<NodeStore>>],
    format: u8,
) -> Result<Vec<u8>, NoMemory>
    requires format { is_format format ≡ true }
    requires held { has_no_version catalogue.now version ≡ false }
    requires fit { Fit (version_of catalogue.now version) (lineages stores.now) }
    ensures { let v = version_of catalogue.now version in IfOk result (λ body.
        IsBodyOf format (sites_of v) (body_of version v (lineages stores.now)) body.items) }
{
    let Some(held) = catalogue.version(version) else {
        unreachable!()
    };
    let mut body = Vec::new(alloc);
    put_number(version, &mut body)?;
    put_name(&held.flow_name, &mut body)?;
    put_bases(held.base.as_slice(), &mut body)?;
    put_count(stores.len(), &mut body)?;
    put_nodes(alloc, format, held.lists.as_slice(), stores, &mut body)?;
    Ok(body)
}

/// Appends a number of four bytes.
fn put_number(number: u32, to: &mut Vec<u8>) -> Result<(), NoMemory>
    ensures { OnOk result (to.new.items ≡ to.old.items ++ four_bytes number) }
{
    to.extend_from_slice(&four_bytes(number))?;
    Ok(())
}

/// Appends how many things there are.
fn put_count(count: usize, to: &mut Vec<u8>) -> Result<(), NoMemory>
    ensures few { OnOk result (count < 2 ^ 32) }
    ensures bytes { OnOk result (to.new.items ≡ to.old.items ++ four_bytes count) }
{
    if count > u32::MAX as usize {
        return Err(NoMemory);
    }
    put_number(count as u32, to)
}

/// Appends how many things there are, in one byte.
fn put_short_count(count: usize, to: &mut Vec<u8>) -> Result<(), NoMemory>
    ensures few { OnOk result (count < 256) }
    ensures bytes { OnOk result (to.new.items ≡ to.old.items ++ count ∷ []) }
{
    if count > 255 {
        return Err(NoMemory);
    }
    to.push(count as u8)?;
    Ok(())
}

/// Appends a name.
fn put_name(name: &Name, to: &mut Vec<u8>) -> Result<(), NoMemory>
    ensures short { OnOk result (IsShortName name.now) }
    ensures bytes { OnOk result (to.new.items ≡ to.old.items ++ name_bytes name.now) }
{
    let text = name.as_str().as_bytes();
    put_short_count(text.len(), to)?;
    to.extend_from_slice(text)?;
    Ok(())
}

/// Appends how many base arrays there are, and the name and the version of each.
fn put_bases(base: &[BaseArray], to: &mut Vec<u8>) -> Result<(), NoMemory>
    ensures few { OnOk result (length base.now < 2 ^ 32) }
    ensures short { OnOk result (All IsShortBase (map named_base base.now)) }
    ensures bytes { OnOk result (to.new.items
        ≡ to.old.items ++ counted base_bytes (map named_base base.now)) }
{
    put_count(base.len(), to)?;
    for only in base {
        put_base(only, to)?;
    }
    Ok(())
}

/// Appends the name and the version of a base array.
fn put_base(base: &BaseArray, to: &mut Vec<u8>) -> Result<(), NoMemory>
    ensures short { OnOk result (IsShortBase (named_base base.now)) }
    ensures bytes { OnOk result (to.new.items
        ≡ to.old.items ++ base_bytes (named_base base.now)) }
{
    put_name(&base.name, to)?;
    put_number(base.version, to)
}

/// Appends the list and the stores of each node.
fn put_nodes(
    alloc: Global,
    format: u8,
    lists: &[StrategyList],
    stores: &[Option<Arc<NodeStore>>],
    to: &mut Vec<u8>,
) -> Result<(), NoMemory>
    requires format { is_format format ≡ true }
    requires fit { (sites : List Site) × FitNodes sites lists.now (lineages stores.now) }
    ensures short { OnOk result (All (λ x. length x.list < 256)
        (parts_of lists.now (lineages stores.now))) }
    ensures front { OnOk result ((more : List ℕ) × (to.new.items ≡ to.old.items ++ more)) }
    ensures nodes { OnOk result ((sites : List Site)
        → FitNodes sites lists.now (lineages stores.now)
        → BeginNodes format sites to.new.items (length to.old.items) (length to.new.items)
        (parts_of lists.now (lineages stores.now))) }
{
    for node in 0..stores.len() {
        put_node(alloc, format, &lists[node], &stores[node], to)?;
    }
    Ok(())
}

/// Appends the list of a node, and its stores where there are some.
fn put_node(
    alloc: Global,
    format: u8,
    list: &StrategyList,
    stores: &Option<Arc<NodeStore>>,
    to: &mut Vec<u8>,
) -> Result<(), NoMemory>
    requires { is_format format ≡ true }
    ensures short { OnOk result (length list.now < 256) }
    ensures front { OnOk result ((more : List ℕ) × (to.new.items ≡ to.old.items ++ more)) }
    ensures node { OnOk result ((s : Site) → let kept = option_map (λ a. arc_value a) stores.now in
        FitsNode s list.now kept → (rest : List ℕ)
        → BeginNodes format (s ∷ []) (to.new.items ++ rest)
        (length to.old.items) (length to.new.items) (part_of list.now kept ∷ [])) }
{
    put_list(list.as_slice(), to)?;
    match stores {
        Some(kept) => put_stores(alloc, format, kept, to),
        None => Ok(()),
    }
}

/// Appends how many strategies a list has, and the number of each.
fn put_list(list: &[Strategy], to: &mut Vec<u8>) -> Result<(), NoMemory>
    ensures few { OnOk result (length list.now < 256) }
    ensures bytes { OnOk result (to.new.items ≡ to.old.items ++ list_bytes list.now) }
{
    put_short_count(list.len(), to)?;
    for strategy in list {
        to.push(byte_of(*strategy))?;
    }
    Ok(())
}

/// The number of a strategy.
fn byte_of(strategy: Strategy) -> u8
    ensures { result ≡ number_of strategy }
{
    match strategy {
        Strategy::Map => 1,
        Strategy::FullOneB => 2,
        Strategy::FullOneF => 3,
        Strategy::FullManyB => 4,
        Strategy::FullManyF => 5,
        Strategy::PayOne => 6,
        Strategy::PayMany => 7,
        Strategy::CompOne => 8,
        Strategy::CompMany => 9,
        Strategy::BlackBox => 10,
    }
}
