//! The stores of a node: its lineage, kept by each stored strategy of the node's list.
//!
//! A [`NodeStore`] keeps a store for each stored strategy of a list, in the list's order, and knows
//! which pieces of the node's output are placed in them. `Map` and `BlackBox` keep nothing.
//!
//! - [`NodeStore::new`] makes the stores of a list, which stand for nothing yet.
//! - [`NodeStore::place`] adds the lineage of a piece to each of them, once a piece, and
//!   [`NodeStore::place_as`] does so sooner where the sets of an input are one or apart.
//! - [`NodeStore::is_whole`] and [`NodeStore::missing`] tell whether every piece is placed, and the
//!   least one that is not.
//! - [`NodeStore::image`] adds the image of a set of cells by the store of a strategy.
//! - [`NodeStore::checklist`] tells whether lineages are those that the store of a strategy keeps.
//! - [`NodeStore::put_bytes`] writes the stores, and [`NodeStore::take_bytes`] reads them again.
//! - [`NodeStore::stores`], [`NodeStore::table`] and [`NodeStore::put_store`] go over them by place.
//!
//! ```
//! let mut store = NodeStore::new(alloc, at, &[Strategy::FullOneB, Strategy::CompMany])?;
//! let new = store.place(&lineage)?;       // in each store, or in none where there is no memory
//! if store.is_whole() {
//!     store.image(Strategy::FullOneB, Dir::Back, 0, &asked, &mut found);
//! }
//! ```
//!
//! Where a fitting lineage of each piece is placed, each store stands for exactly the relation of
//! the operator ([`laws::placed_pieces_make_the_relation`]).
//!
//! To whoever changes this crate: a further stored strategy is a line in each table of `src/kept`,
//! `specs/Stocks` and `specs/Words`. That a store of entries may be given a piece's rests on
//! `AreOfPlaced` of `specs/Stocked`: each cell of its entries is one of a placed piece, so entries
//! of a further piece have none of theirs. A store that was read is whole, and is given nothing.
#![tactic(auto)]

ghost use Rattle.std.specs.Prelude.{◌≡◌, ◌<◌, ◌≤◌, ◌==◌, ◌++◌};
ghost use Rattle.sz_store.specs.Terms.{ℕ, List, length, true, not, All, OnOk, OnErr, IfOk, IfErr};
ghost use Rattle.sz_store.specs.Terms.{MatchOption, map, position_or_len, arc_value, has};
ghost use Rattle.sz_store.specs.Terms.{with_those, supports, is_listed, is_stored, mode_of};
ghost use Rattle.sz_store.specs.Terms.{pieces_of, near_side, far_side, image_in, no_lineage};
ghost use Rattle.sz_store.specs.Terms.{with_lineage, is_placed, is_whole, AreParts, missing};
ghost use Rattle.sz_store.specs.Terms.{holding_for, holding_stands, stored_in, nothing_for};
ghost use Rattle.sz_store.specs.Terms.{keep_at, IsOfItsMode, AreEntries, IsTableOf, StaysApart};
ghost use Rattle.sz_store.specs.Terms.{kept_in, ticked_in, AreWordsOf, IsWordOf, Begins, BeginEach};
ghost use Rattle.sz_store.specs.Terms.{NoneBegin, SaysNone};

mod checklist;
mod kept;
pub mod laws;
mod stores;

use crate::stores::{ListedStore, add_all, empty_stores, place_of, put_all, reserve_all, take_all};
pub use checklist::StoreChecklist;
use std::alloc::Global;
use std::marker::Model;
use std::sync::Arc;
use std::thread::Threads;
use sz_cells::{CellBits, NoMemory};
use sz_frame::PieceLineage;
use sz_region::{Take, shapes_are_within_limits};
use sz_spec::{Dir, OpAt, Strategy, pieces_of};
use sz_tables::RegionTable;

/// The most region pairs or entries of a store.
const MOST: u32 = 1_073_741_824;

/// The stores of a node.
#[derive(Drop)]
pub struct NodeStore {
    at: Arc<OpAt>,
    list: Vec<Strategy>,
    stores: Vec<ListedStore>,
    /// For each piece whether it is placed.
    placed: Vec<bool>,
    /// How many more region pairs or entries each store can be given.
    spare: u32,
}

impl Model for NodeStore {
    ghost use Rattle.std.specs.Prelude.{map};
    ghost use Rattle.std.specs.Arc.{arc_value};
    ghost use Rattle.sz_store.specs.Kept.{NodeLineage};
    ghost use Rattle.sz_store.specs.Stocks.{keep_of, site_of};
    ghost use Rattle.sz_store.specs.Stocked.{AreStocked};

    ghost Value = { NodeLineage };

    ghost view = { λ s. record {
      site = arc_value s.at;
      list = s.list.items;
      placed = s.placed.items;
      stores = map keep_of s.stores.items;
    } };

    ghost invariant = { λ s. AreStocked (arc_value s.at) s.list.items s.placed.items s.spare
        (map keep_of s.stores.items) (map site_of s.stores.items) };
}

impl NodeStore {
    /// The stores of a list of strategies of an operator. Nothing is placed, and they stand for
    /// nothing.
    pub fn new(alloc: Global, at: Arc<OpAt>, list: &[Strategy]) -> Result<NodeStore, NoMemory>
        requires { All (λ t. supports (arc_value at).op t ≡ true) list.now }
        ensures { IfOk result (λ s. s ≡ no_lineage (arc_value at) list.now) }
    {
        let stores = empty_stores(alloc, &at, list)?;
        let placed = vec![in alloc; false; pieces_of(at.out()) as usize]?;
        let list = list.to_vec(alloc)?;
        Ok(NodeStore {
            at,
            list,
            stores,
            placed,
            spare: MOST,
        })
    }

    /// The operator at its shapes.
    pub fn site(&self) -> &OpAt
        ensures { result.now ≡ self.now.site }
    {
        &self.at
    }

    /// The list of the strategies.
    pub fn list(&self) -> &[Strategy]
        ensures { result.now ≡ self.now.list }
    {
        &self.list
    }

    /// Adds the lineage of a piece to each store, where the piece is not placed yet: then true.
    /// Where it is, nothing changes.
    ///
    /// Costs what each store needs to take the lineage's part. `NoMemory` also where a store would
    /// have more than 2^30 region pairs or entries.
    pub fn place(&mut self, lineage: &PieceLineage) -> Result<bool, NoMemory>
        requires piece { lineage.now.piece < pieces_of self.old.site.out }
        requires parts { AreParts self.old.site self.old.list lineage.now }
        ensures new { IfOk result (λ b. b ≡ not (is_placed self.old.placed lineage.now.piece)) }
        ensures ok { OnOk result (self.new ≡ with_lineage self.old lineage.now) }
        ensures err { OnErr result (self.new ≡ self.old) }
    {
        self.place_as(lineage, false)
    }

    /// As [`NodeStore::place`]. Where `apart`, the sets of each input that a store of region pairs
    /// has then are one or have no cell in common, any two of them.
    ///
    /// A set that such a store has costs then a look at some of its runs, where it else costs one
    /// at each of them.
    pub fn place_as(&mut self, lineage: &PieceLineage, apart: bool) -> Result<bool, NoMemory>
        requires piece { lineage.now.piece < pieces_of self.old.site.out }
        requires parts { AreParts self.old.site self.old.list lineage.now }
        requires apart { apart ≡ true
            → All (λ f. StaysApart lineage.now f.holding) self.old.stores }
        ensures new { IfOk result (λ b. b ≡ not (is_placed self.old.placed lineage.now.piece)) }
        ensures ok { OnOk result (self.new ≡ with_lineage self.old lineage.now) }
        ensures err { OnErr result (self.new ≡ self.old) }
    {
        let piece = lineage.piece() as usize;
        if self.placed[piece] {
            return Ok(false);
        }
        let most = longest_part(lineage);
        if (self.spare as usize) < most {
            return Err(NoMemory);
        }
        reserve_all(&mut self.stores, lineage)?;
        add_all(&mut self.stores, lineage, apart);
        self.placed[piece] = true;
        self.spare -= most as u32;
        Ok(true)
    }

    /// Whether every piece is placed.
    pub fn is_whole(&self) -> bool
        ensures { result ≡ is_whole self.now }
    {
        self.placed.iter().all(|placed| *placed)
    }

    /// The least piece that is not placed, or the number of pieces.
    pub fn missing(&self) -> u32
        ensures { result ≡ missing self.now }
    {
        self.at.out().size();
        let mut piece = 0;
        for placed in &self.placed {
            if !*placed {
                return piece;
            }
            piece += 1;
        }
        piece
    }

    /// Adds the image of a set of cells by what the store of a strategy stands for: backward those
    /// that stand behind it, forward those that it stands behind. Takes no memory.
    pub fn image(
        &self,
        strategy: Strategy,
        dir: Dir,
        input: u32,
        from: &CellBits,
        to: &mut CellBits,
    )
        requires listed { is_listed self.now.list strategy ≡ true }
        requires stored { is_stored strategy ≡ true }
        requires input { input < length self.now.site.ins }
        requires from { from.now.extent ≡ near_side dir self.now.site input }
        requires to { to.old.extent ≡ far_side dir self.now.site input }
        ensures { let s = self.now in let h = holding_for strategy s.stores in
            to.new ≡ with_those to.old
            (has (image_in dir s.site input (holding_stands s.site h input) from.now)) }
    {
        let place = place_of(&self.stores, strategy);
        self.stores[place].kept.image(dir, input, from, to);
    }

    /// A checklist of what the store of a strategy keeps, of which nothing is ticked.
    pub fn checklist(&self, alloc: Global, strategy: Strategy) -> StoreChecklist<'_>
        requires listed { is_listed self.now.list strategy ≡ true }
        requires stored { is_stored strategy ≡ true }
        ensures kept { kept_in result ≡ holding_for strategy self.now.stores }
        ensures none { ticked_in result ≡ nothing_for (mode_of strategy) }
    {
        let place = place_of(&self.stores, strategy);
        self.stores[place].kept.checklist(alloc)
    }

    /// Appends the bytes of each store, in the list's order: whatever follows them, they are read
    /// again as these stores, and in no other way ([`laws::written_stores_are_read`]). After
    /// `NoMemory` the bytes are as before.
    pub fn put_bytes(&self, to: &mut Vec<u8>) -> Result<(), NoMemory>
        ensures ok { let s = self.now in OnOk result ((bytes : List ℕ)
            × AreWordsOf s.site s.stores bytes × (to.new.items ≡ to.old.items ++ bytes)) }
        ensures read { let s = self.now in OnOk result ((rest : List ℕ)
            → BeginEach s.site (stored_in s.list) (to.new.items ++ rest) (length to.old.items)
            (length to.new.items) s.stores) }
        ensures err { OnErr result (to.new.items ≡ to.old.items) }
    {
        shapes_are_within_limits(&self.at.out(), self.at.ins());
        let length = to.len();
        let put = put_all(&self.stores, to);
        if put.is_err() {
            to.truncate(length);
        }
        put
    }

    /// How many stores there are: one for each stored strategy of the list, in its order.
    pub fn stores(&self) -> usize
        ensures count { result ≡ length self.now.stores }
        ensures strategies { map (λ f. f.strategy) self.now.stores ≡ stored_in self.now.list }
        ensures modes { All IsOfItsMode self.now.stores }
    {
        self.stores.len()
    }

    /// The table of the region pairs of the store at a place. `None` exactly where it keeps
    /// entries.
    pub fn table(&self, place: usize) -> Option<&RegionTable>
        requires { place < length self.now.stores }
        ensures { let s = self.now in let h = (keep_at s.stores place).holding in
            MatchOption result (AreEntries h) (λ t. IsTableOf s.site h t.now) }
    {
        self.stores[place].kept.table()
    }

    /// Appends the bytes of the store at a place: whatever follows them, they are read again as this
    /// store, and in no other way. After `NoMemory` the bytes are as before.
    pub fn put_store(&self, place: usize, to: &mut Vec<u8>) -> Result<(), NoMemory>
        requires { place < length self.now.stores }
        ensures ok { let s = self.now in OnOk result ((word : List ℕ)
            × IsWordOf s.site (keep_at s.stores place).holding word
            × (to.new.items ≡ to.old.items ++ word)) }
        ensures read { let s = self.now in let f = keep_at s.stores place in
            OnOk result ((rest : List ℕ) → Begins s.site (mode_of f.strategy)
            (to.new.items ++ rest) (length to.old.items) (length to.new.items) f.holding) }
        ensures err { OnErr result (to.new.items ≡ to.old.items) }
    {
        shapes_are_within_limits(&self.at.out(), self.at.ins());
        self.stores[place].kept.put_bytes(to)
    }

    /// The stores of a list of strategies of an operator, whose bytes begin one after another at a
    /// place, and the place behind them. `Take::Bad` exactly where none begin so. Each piece is
    /// placed. A long table of sets is read in two parts side by side.
    pub fn take_bytes<R: Threads + Sync>(
        rt: &R,
        alloc: Global,
        at: Arc<OpAt>,
        list: &[Strategy],
        bytes: &[u8],
        from: u64,
    ) -> Result<(NodeStore, u64), Take>
        requires { All (λ t. supports (arc_value at).op t ≡ true) list.now }
        ensures ok { let s = arc_value at in IfOk result
            (λ r. BeginEach s (stored_in list.now) bytes.now from r.1 r.0.stores) }
        ensures site { IfOk result (λ r. r.0.site ≡ arc_value at) }
        ensures list { IfOk result (λ r. r.0.list ≡ list.now) }
        ensures whole { IfOk result (λ r. is_whole r.0 ≡ true) }
        ensures within { from ≤ length bytes.now → IfOk result (λ r. r.1 ≤ length bytes.now) }
        ensures err { let s = arc_value at in IfErr result (λ e.
            SaysNone (NoneBegin s (stored_in list.now) bytes.now from) from e) }
    {
        let (stores, next) = take_all(rt, alloc, &at, list, bytes, from)?;
        let placed = vec![in alloc; true; pieces_of(at.out()) as usize]?;
        let list = list.to_vec(alloc)?;
        let store = NodeStore {
            at,
            list,
            stores,
            placed,
            spare: 0,
        };
        Ok((store, next))
    }
}

/// How many region pairs or entries the longest part of a lineage has.
fn longest_part(lineage: &PieceLineage) -> usize
    ensures regions { length lineage.now.regions ≤ result }
    ensures pays { length lineage.now.pays ≤ result }
    ensures comps { length lineage.now.comps ≤ result }
{
    let entries = lineage.pays().len().max(lineage.comps().len());
    lineage.regions().len().max(entries)
}
