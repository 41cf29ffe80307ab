//! One store, whichever sort it is.
//!
//! Each call is a table with a line for each sort or strategy, as are the definitions in
//! `specs/Stocks` and `specs/Words`: a further stored strategy is a further line in each.

ghost use Rattle.std.specs.Prelude.{◌≡◌, ◌<◌, ◌≤◌, ◌++◌};
ghost use Rattle.sz_store.specs.Terms.{ℕ, List, [], length, true, false, OnOk, OnErr, IfOk, IfErr};
ghost use Rattle.sz_store.specs.Terms.{MatchOption, arc_value, has, with_those, is_stored};
ghost use Rattle.sz_store.specs.Terms.{supports, mode_of, has_mapping, near_side, far_side};
ghost use Rattle.sz_store.specs.Terms.{image_in, no_room, entries, holding_stands, nothing_for};
ghost use Rattle.sz_store.specs.Terms.{with_part, kept_in, ticked_in, stock_of, mode_in};
ghost use Rattle.sz_store.specs.Terms.{empty_stock, CanGrow, HasRoomFor, AreEntries, IsTableOf};
ghost use Rattle.sz_store.specs.Terms.{StaysApart, IsWordOf, Begins, NoneBegins, SaysNone};
ghost use Rattle.sz_spec.specs.declared.modes.Mode.TheVariants as mode;

use crate::checklist::StoreChecklist;
use std::alloc::Global;
use std::sync::Arc;
use std::thread::Threads;
use sz_cells::{CellBits, NoMemory};
use sz_frame::PieceLineage;
use sz_full_many::FullMany;
use sz_full_one::FullOne;
use sz_payload::{PayMap, PayStore};
use sz_region::Take;
use sz_spec::{Dir, OpAt, Strategy};
use sz_tables::RegionTable;

/// A store of one sort.
#[derive(Drop)]
pub enum KeptStore {
    One(FullOne),
    Many(FullMany),
    Pay(PayStore<PayMap>),
}

impl KeptStore {
    /// The store of a strategy, which stands for nothing yet.
    pub fn new(alloc: Global, at: Arc<OpAt>, strategy: Strategy) -> Result<KeptStore, NoMemory>
        requires stored { is_stored strategy ≡ true }
        requires supported { supports (arc_value at).op strategy ≡ true }
        ensures { IfOk result (λ k. stock_of k
            ≡ empty_stock (arc_value at) (mode_of strategy) (stock_of k).capacities) }
    {
        match strategy {
            Strategy::FullOneB => Ok(KeptStore::One(FullOne::new(alloc, at, Dir::Back)?)),
            Strategy::FullOneF => Ok(KeptStore::One(FullOne::new(alloc, at, Dir::Forward)?)),
            Strategy::FullManyB => Ok(KeptStore::Many(FullMany::new(alloc, at, Dir::Back)?)),
            Strategy::FullManyF => Ok(KeptStore::Many(FullMany::new(alloc, at, Dir::Forward)?)),
            Strategy::PayOne => new_pay(alloc, at, false, false),
            Strategy::PayMany => new_pay(alloc, at, true, false),
            Strategy::CompOne => new_pay(alloc, at, false, true),
            Strategy::CompMany => new_pay(alloc, at, true, true),
            Strategy::Map | Strategy::BlackBox => unreachable!(),
        }
    }

    /// Makes the room for the store's part of a lineage.
    pub fn reserve(&mut self, lineage: &PieceLineage) -> Result<(), NoMemory>
        requires { CanGrow lineage.now (stock_of self.old) }
        ensures ok { OnOk result (HasRoomFor lineage.now (stock_of self.new)) }
        ensures kept { stock_of self.new ≡ record (stock_of self.old) {
          room = (stock_of self.new).room;
          capacities = (stock_of self.new).capacities;
        } }
    {
        match self {
            KeptStore::One(store) => store.reserve_piece(lineage),
            KeptStore::Many(store) => store.reserve_piece(lineage),
            KeptStore::Pay(store) => store.reserve_piece(lineage),
        }
    }

    /// Adds the store's part of a lineage. Takes no memory: each capacity stays. Where `apart`, the
    /// sets of an input are one or apart, so that runs need not be compared.
    pub fn add(&mut self, lineage: &PieceLineage, apart: bool)
        requires part { CanGrow lineage.now (stock_of self.old) }
        requires room { HasRoomFor lineage.now (stock_of self.old) }
        requires apart { apart ≡ true → StaysApart lineage.now (stock_of self.old).holding }
        ensures holding { (stock_of self.new).holding
            ≡ with_part lineage.now (stock_of self.old).holding }
        ensures site { (stock_of self.new).site ≡ (stock_of self.old).site }
        ensures capacities { (stock_of self.new).capacities ≡ (stock_of self.old).capacities }
    {
        match self {
            KeptStore::One(store) => store.add_piece_as(lineage, apart),
            KeptStore::Many(store) => store.add_piece_as(lineage, apart),
            KeptStore::Pay(store) => store.add_piece(lineage),
        }
    }

    /// Adds the image of a set of cells by what the store stands for. Takes no memory.
    pub fn image(&self, dir: Dir, input: u32, from: &CellBits, to: &mut CellBits)
        requires input { input < length (stock_of self.now).site.ins }
        requires from { from.now.extent ≡ near_side dir (stock_of self.now).site input }
        requires to { to.old.extent ≡ far_side dir (stock_of self.now).site input }
        ensures { let k = stock_of self.now in to.new ≡ with_those to.old
            (has (image_in dir k.site input (holding_stands k.site k.holding input) from.now)) }
    {
        match self {
            KeptStore::One(store) => store.image(dir, input, from, to),
            KeptStore::Many(store) => store.image(dir, input, from, to),
            KeptStore::Pay(store) => store.image(dir, input, from, to),
        }
    }

    /// A checklist of what the store keeps, of which nothing is ticked.
    pub fn checklist(&self, alloc: Global) -> StoreChecklist<'_>
        ensures kept { kept_in result ≡ (stock_of self.now).holding }
        ensures none { ticked_in result ≡ nothing_for (mode_in (stock_of self.now).holding) }
    {
        match self {
            KeptStore::One(store) => StoreChecklist::Pairs(store.checklist(alloc)),
            KeptStore::Many(store) => StoreChecklist::Pairs(store.checklist(alloc)),
            KeptStore::Pay(store) => {
                let list = store.checklist(alloc);
                if store.is_composite() {
                    StoreChecklist::Comps(list)
                } else {
                    StoreChecklist::Pays(list)
                }
            }
        }
    }

    /// The table of the region pairs. `None` exactly where the store keeps entries.
    pub fn table(&self) -> Option<&RegionTable>
        ensures { let k = stock_of self.now in MatchOption result (AreEntries k.holding)
            (λ t. IsTableOf k.site k.holding t.now) }
    {
        match self {
            KeptStore::One(store) => Some(store.table()),
            KeptStore::Many(store) => Some(store.table()),
            KeptStore::Pay(_) => None,
        }
    }

    /// Appends the store's bytes. After `NoMemory` they are as before.
    pub fn put_bytes(&self, to: &mut Vec<u8>) -> Result<(), NoMemory>
        ensures ok { let k = stock_of self.now in OnOk result ((word : List ℕ)
            × IsWordOf k.site k.holding word × (to.new.items ≡ to.old.items ++ word)) }
        ensures err { OnErr result (to.new.items ≡ to.old.items) }
    {
        match self {
            KeptStore::One(store) => store.put_bytes(to),
            KeptStore::Many(store) => store.put_bytes(to),
            KeptStore::Pay(store) => store.put_bytes(to),
        }
    }

    /// The store of a strategy whose bytes begin at a place, and the place behind them.
    /// `Take::Bad` exactly where none begins there.
    pub fn take_bytes<R: Threads + Sync>(
        rt: &R,
        alloc: Global,
        at: Arc<OpAt>,
        strategy: Strategy,
        bytes: &[u8],
        from: u64,
    ) -> Result<(KeptStore, u64), Take>
        requires stored { is_stored strategy ≡ true }
        requires supported { supports (arc_value at).op strategy ≡ true }
        ensures ok { let s = arc_value at in IfOk result
            (λ r. Begins s (mode_of strategy) bytes.now from r.1 (stock_of r.0).holding) }
        ensures site { IfOk result (λ r. (stock_of r.0).site ≡ arc_value at) }
        ensures within { IfOk result (λ r. r.1 ≤ length bytes.now) }
        ensures err { IfErr result (λ e. SaysNone
            (NoneBegins (arc_value at) (mode_of strategy) bytes.now from) from e) }
    {
        match strategy {
            Strategy::FullOneB => take_one(alloc, at, Dir::Back, bytes, from),
            Strategy::FullOneF => take_one(alloc, at, Dir::Forward, bytes, from),
            Strategy::FullManyB => take_many(rt, alloc, at, Dir::Back, bytes, from),
            Strategy::FullManyF => take_many(rt, alloc, at, Dir::Forward, bytes, from),
            Strategy::PayOne => take_pay(alloc, at, false, false, bytes, from),
            Strategy::PayMany => take_pay(alloc, at, true, false, bytes, from),
            Strategy::CompOne => take_pay(alloc, at, false, true, bytes, from),
            Strategy::CompMany => take_pay(alloc, at, true, true, bytes, from),
            Strategy::Map | Strategy::BlackBox => unreachable!(),
        }
    }
}

/// A store of payload lineage, or where `comp` is true of composite lineage, by single cells, or
/// where `many` is true by sets.
fn new_pay(alloc: Global, at: Arc<OpAt>, many: bool, comp: bool) -> Result<KeptStore, NoMemory>
    requires { has_mapping (arc_value at).op ≡ false }
    ensures { IfOk result (λ k. stock_of k ≡ record {
      site = arc_value at;
      holding = entries comp [];
      room = no_room;
      capacities = (stock_of k).capacities;
    }) }
{
    let map = PayMap::new(Arc::try_clone(&at)?);
    Ok(KeptStore::Pay(PayStore::new(alloc, map, at, many, comp)?))
}

/// A store by single cells.
fn take_one(
    alloc: Global,
    at: Arc<OpAt>,
    dir: Dir,
    bytes: &[u8],
    from: u64,
) -> Result<(KeptStore, u64), Take>
    ensures ok { let s = arc_value at in IfOk result
        (λ r. Begins s mode.Full bytes.now from r.1 (stock_of r.0).holding) }
    ensures site { IfOk result (λ r. (stock_of r.0).site ≡ arc_value at) }
    ensures within { IfOk result (λ r. r.1 ≤ length bytes.now) }
    ensures err { IfErr result (λ e. SaysNone
        (NoneBegins (arc_value at) mode.Full bytes.now from) from e) }
{
    let (store, next) = FullOne::take_bytes(alloc, at, dir, bytes, from)?;
    Ok((KeptStore::One(store), next))
}

/// A store by sets.
fn take_many<R: Threads + Sync>(
    rt: &R,
    alloc: Global,
    at: Arc<OpAt>,
    dir: Dir,
    bytes: &[u8],
    from: u64,
) -> Result<(KeptStore, u64), Take>
    ensures ok { let s = arc_value at in IfOk result
        (λ r. Begins s mode.Full bytes.now from r.1 (stock_of r.0).holding) }
    ensures site { IfOk result (λ r. (stock_of r.0).site ≡ arc_value at) }
    ensures within { IfOk result (λ r. r.1 ≤ length bytes.now) }
    ensures err { IfErr result (λ e. SaysNone
        (NoneBegins (arc_value at) mode.Full bytes.now from) from e) }
{
    let (store, next) = FullMany::take_bytes(rt, alloc, at, dir, bytes, from)?;
    Ok((KeptStore::Many(store), next))
}

/// A store of entries, as [`new_pay`] makes it.
fn take_pay(
    alloc: Global,
    at: Arc<OpAt>,
    many: bool,
    comp: bool,
    bytes: &[u8],
    from: u64,
) -> Result<(KeptStore, u64), Take>
    requires { has_mapping (arc_value at).op ≡ false }
    ensures ok { let s = arc_value at in IfOk result
        (λ r. Begins s (mode_in (entries comp [])) bytes.now from r.1 (stock_of r.0).holding) }
    ensures site { IfOk result (λ r. (stock_of r.0).site ≡ arc_value at) }
    ensures within { IfOk result (λ r. r.1 ≤ length bytes.now) }
    ensures err { IfErr result (λ e. SaysNone
        (NoneBegins (arc_value at) (mode_in (entries comp [])) bytes.now from) from e) }
{
    let map = PayMap::new(Arc::try_clone(&at)?);
    let (store, next) = PayStore::take_bytes(alloc, map, at, many, comp, bytes, from)?;
    Ok((KeptStore::Pay(store), next))
}
