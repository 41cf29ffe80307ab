//! The stores of a list, one for each of its stored strategies.

ghost use Rattle.std.specs.Prelude.{◌≡◌, ◌<◌, ◌≤◌, ◌==◌, ◌∷◌, ◌++◌};
ghost use Rattle.sz_store.specs.Terms.{ℕ, List, [], length, map, true, All, OnOk, OnErr, IfOk};
ghost use Rattle.sz_store.specs.Terms.{IfErr, take, slice_index_or, list_any, arc_value, Site};
ghost use Rattle.sz_store.specs.Terms.{supports, is_stored, number_of, mode_of, Keep, empty_keep};
ghost use Rattle.sz_store.specs.Terms.{stored_in, keep_with, holding_for, stock_of, keep_of};
ghost use Rattle.sz_store.specs.Terms.{site_of, CanGrow, HasRoomFor, capacities_of, StaysApart};
ghost use Rattle.sz_store.specs.Terms.{AreWordsOf, BeginEach, NoneBegin, SaysNone};

use crate::kept::KeptStore;
use std::alloc::Global;
use std::sync::Arc;
use std::thread::Threads;
use sz_cells::{NoMemory, Shape};
use sz_frame::PieceLineage;
use sz_region::{Take, shapes_are_within_limits};
use sz_spec::{OpAt, Strategy};

/// A store, and the strategy of the list that it is for.
#[derive(Drop)]
pub struct ListedStore {
    pub strategy: Strategy,
    pub kept: KeptStore,
}

impl ListedStore {
    /// Makes the room for the store's part of a lineage.
    fn reserve(&mut self, lineage: &PieceLineage) -> Result<(), NoMemory>
        requires { CanGrow lineage.now (stock_of self.old.kept) }
        ensures room { OnOk result (HasRoomFor lineage.now (stock_of self.new.kept)) }
        ensures grow { CanGrow lineage.now (stock_of self.new.kept) }
        ensures keep { keep_of self.new ≡ keep_of self.old }
        ensures site { site_of self.new ≡ site_of self.old }
    {
        self.kept.reserve(lineage)
    }

    /// Adds the store's part of a lineage. Takes no memory: each capacity stays.
    fn add(&mut self, lineage: &PieceLineage, apart: bool)
        requires grow { CanGrow lineage.now (stock_of self.old.kept) }
        requires room { HasRoomFor lineage.now (stock_of self.old.kept) }
        requires apart { apart ≡ true
            → StaysApart lineage.now (stock_of self.old.kept).holding }
        ensures keep { keep_of self.new ≡ keep_with lineage.now (keep_of self.old) }
        ensures site { site_of self.new ≡ site_of self.old }
        ensures capacities { capacities_of self.new ≡ capacities_of self.old }
    {
        self.kept.add(lineage, apart);
    }
}

/// The stores of the stored strategies of a list, in its order. They stand for nothing yet.
pub fn empty_stores(
    alloc: Global,
    at: &Arc<OpAt>,
    list: &[Strategy],
) -> Result<Vec<ListedStore>, NoMemory>
    requires { All (λ t. supports (arc_value at.now).op t ≡ true) list.now }
    ensures stores { IfOk result (λ v. map keep_of v.items
        ≡ map empty_keep (stored_in list.now)) }
    ensures sites { IfOk result (λ v. All (λ s. s ≡ arc_value at.now) (map site_of v.items)) }
{
    let mut stores = Vec::new(alloc);
    for strategy in list {
        add_empty(alloc, at, *strategy, &mut stores)?;
    }
    Ok(stores)
}

/// Adds the store of a strategy, if that has one.
fn add_empty(
    alloc: Global,
    at: &Arc<OpAt>,
    strategy: Strategy,
    stores: &mut Vec<ListedStore>,
) -> Result<(), NoMemory>
    requires supported { supports (arc_value at.now).op strategy ≡ true }
    requires sites { All (λ s. s ≡ arc_value at.now) (map site_of stores.old.items) }
    ensures stores { OnOk result (map keep_of stores.new.items
        ≡ map keep_of stores.old.items ++ map empty_keep (stored_in (strategy ∷ []))) }
    ensures sites { OnOk result (All (λ s. s ≡ arc_value at.now) (map site_of stores.new.items)) }
{
    if strategy.is_stored() {
        let kept = KeptStore::new(alloc, Arc::try_clone(at)?, strategy)?;
        stores.push(ListedStore { strategy, kept })?;
    }
    Ok(())
}

/// Makes the room for a lineage in each store. After `NoMemory` some may have it.
pub fn reserve_all(stores: &mut [ListedStore], lineage: &PieceLineage) -> Result<(), NoMemory>
    requires { All (λ l. CanGrow lineage.now (stock_of l.kept)) stores.old }
    ensures room { OnOk result (All (λ l. HasRoomFor lineage.now (stock_of l.kept)) stores.new) }
    ensures grow { All (λ l. CanGrow lineage.now (stock_of l.kept)) stores.new }
    ensures stores { map keep_of stores.new ≡ map keep_of stores.old }
    ensures sites { map site_of stores.new ≡ map site_of stores.old }
{
    for store in stores.iter_mut() {
        store.reserve(lineage)?;
    }
    Ok(())
}

/// Adds a lineage to each store. Takes no memory: each capacity stays. Where `apart`, the sets of
/// an input are one or apart, store by store.
pub fn add_all(stores: &mut [ListedStore], lineage: &PieceLineage, apart: bool)
    requires grow { All (λ l. CanGrow lineage.now (stock_of l.kept)) stores.old }
    requires room { All (λ l. HasRoomFor lineage.now (stock_of l.kept)) stores.old }
    requires apart { apart ≡ true
        → All (λ l. StaysApart lineage.now (stock_of l.kept).holding) stores.old }
    ensures stores { map keep_of stores.new
        ≡ map (keep_with lineage.now) (map keep_of stores.old) }
    ensures sites { map site_of stores.new ≡ map site_of stores.old }
    ensures capacities { map capacities_of stores.new ≡ map capacities_of stores.old }
{
    for store in stores.iter_mut() {
        store.add(lineage, apart);
    }
}

/// The place of the first store of a strategy.
pub fn place_of(stores: &[ListedStore], strategy: Strategy) -> usize
    requires { list_any (λ l. number_of l.strategy == number_of strategy) stores.now ≡ true }
    ensures within { result < length stores.now }
    ensures store { (d : ListedStore) → (stock_of (slice_index_or stores.now result d).kept).holding
        ≡ holding_for strategy (map keep_of stores.now) }
    ensures strategy { (d : ListedStore)
        → (slice_index_or stores.now result d).strategy ≡ strategy }
{
    for (place, store) in stores.iter().enumerate() {
        if store.strategy == strategy {
            return place;
        }
    }
    unreachable!()
}

/// Appends the bytes of each store, one after another. After `NoMemory` some of them may be there.
pub fn put_all(stores: &[ListedStore], to: &mut Vec<u8>) -> Result<(), NoMemory>
    ensures ok { (s : Site) → All (λ x. x ≡ s) (map site_of stores.now)
        → OnOk result ((bytes : List ℕ) × AreWordsOf s (map keep_of stores.now) bytes
        × (to.new.items ≡ to.old.items ++ bytes)) }
    ensures err { OnErr result (take (length to.old.items) to.new.items ≡ to.old.items) }
{
    for store in stores {
        store.kept.put_bytes(to)?;
    }
    Ok(())
}

/// The stores of the stored strategies of a list, in its order, whose bytes begin one after the
/// other, the first one's at a place; and the place behind the last one's. `Take::Bad` exactly
/// where none begin so.
pub fn take_all<R: Threads + Sync>(
    rt: &R,
    alloc: Global,
    at: &Arc<OpAt>,
    list: &[Strategy],
    bytes: &[u8],
    from: u64,
) -> Result<(Vec<ListedStore>, u64), Take>
    requires { All (λ t. supports (arc_value at.now).op t ≡ true) list.now }
    ensures ok { let s = arc_value at.now in IfOk result (λ r.
        BeginEach s (stored_in list.now) bytes.now from r.1 (map keep_of r.0.items)) }
    ensures sites { IfOk result (λ r. All (λ s. s ≡ arc_value at.now) (map site_of r.0.items)) }
    ensures err { let s = arc_value at.now in IfErr result (λ e.
        SaysNone (NoneBegin s (stored_in list.now) bytes.now from) from e) }
{
    shapes_are_within_limits(&at.out(), at.ins());
    let mut stores = Vec::new(alloc);
    let mut place = from;
    for strategy in list {
        match take_next(rt, alloc, at, *strategy, bytes, place, &mut stores) {
            Ok(next) => place = next,
            Err(Take::Bad { .. }) => return Err(Take::Bad { at: from }),
            Err(Take::NoMemory) => return Err(Take::NoMemory),
        }
    }
    Ok((stores, place))
}

/// Adds the store of a strategy whose bytes begin at a place, if the strategy has one, and gives
/// the place behind them.
fn take_next<R: Threads + Sync>(
    rt: &R,
    alloc: Global,
    at: &Arc<OpAt>,
    strategy: Strategy,
    bytes: &[u8],
    place: u64,
    stores: &mut Vec<ListedStore>,
) -> Result<u64, Take>
    requires supported { supports (arc_value at.now).op strategy ≡ true }
    requires sites { All (λ s. s ≡ arc_value at.now) (map site_of stores.old.items) }
    ensures ok { let s = arc_value at.now in IfOk result (λ next. (more : List Keep)
        × BeginEach s (stored_in (strategy ∷ [])) bytes.now place next more
        × (map keep_of stores.new.items ≡ map keep_of stores.old.items ++ more)) }
    ensures sites { IfOk result (λ _. All (λ s. s ≡ arc_value at.now)
        (map site_of stores.new.items)) }
    ensures err { let s = arc_value at.now in IfErr result (λ e.
        SaysNone (NoneBegin s (stored_in (strategy ∷ [])) bytes.now place) place e) }
{
    if !strategy.is_stored() {
        return Ok(place);
    }
    let own = Arc::try_clone(at)?;
    let (kept, next) = KeptStore::take_bytes(rt, alloc, own, strategy, bytes, place)?;
    stores.push(ListedStore { strategy, kept })?;
    Ok(next)
}
