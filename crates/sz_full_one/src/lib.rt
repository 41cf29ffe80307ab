//! Full lineage by single cells: region pairs, found by each cell of their indexed sets.
//!
//! A [`FullOne`] keeps region pairs of one operator, each different set once, and an index of the
//! sets from which looks of one direction start, by each of their cells. A look in that direction
//! follows the entries of the asked cells; a look in the other direction goes through all region
//! pairs. Both answer alike.
//!
//! - [`FullOne::new`] makes a store without a region pair.
//! - [`FullOne::reserve_piece`] takes the memory for the region pairs of a lineage.
//! - [`FullOne::add_piece`] adds them, and takes none; [`FullOne::add_piece_as`] does so sooner
//!   where sets are one or apart.
//! - [`FullOne::image`] adds the image of a set of cells, backward or forward.
//!
//! ```
//! let mut store = FullOne::new(alloc, at, Dir::Back)?;
//! store.reserve_piece(&lineage)?;
//! store.add_piece(&lineage);
//! store.image(Dir::Back, 0, &asked, &mut found);     // the cells of input 0 behind the asked ones
//! ```
//!
//! To whoever changes this crate: what an image is rests on the index by `IsIndexOf` of
//! `specs/ByCells` alone, which says what the entries are, in their order. A look keeps the number
//! of the set that it handled last (`IsDone`), and begins each ask without one.
#![tactic(auto)]

ghost use Rattle.std.specs.Prelude.{◌≡◌, ◌<◌, ◌≤◌, ◌+◌, ◌∷◌, ◌++◌};
ghost use Rattle.sz_full_one.specs.Terms.{[], length, All, OnOk, OnErr, IfOk, IfErr, List, ℕ, map};
ghost use Rattle.sz_full_one.specs.Terms.{true, arc_value, has, with_those, near_side, far_side};
ghost use Rattle.sz_full_one.specs.Terms.{image_in, Listed, IsFullWord, BeginsRegions, full_stands};
ghost use Rattle.sz_full_one.specs.Terms.{SaysNoRegions, pairings, IsPairOf, IsWithin};
ghost use Rattle.sz_full_one.specs.Terms.{room_for_pairs, no_room, most_given, AreDifferent};
ghost use Rattle.sz_full_one.specs.Terms.{HaveInputsApart};

mod adding;
mod counting;
mod filing;
mod index;
mod looking;

use crate::adding::add_regions;
use crate::counting::needs_of;
use crate::index::Index;
use crate::looking::look;
use std::alloc::Global;
use std::marker::Model;
use std::sync::Arc;
use sz_cells::{CellBits, NoMemory};
use sz_frame::{PieceLineage, Region};
use sz_region::{Take, take_regions};
use sz_spec::{Dir, OpAt};
use sz_tables::{PairChecklist, RegionTable};

/// Region pairs of one operator, indexed by the single cells of the sets from which looks in one
/// direction start.
#[derive(Drop)]
pub struct FullOne {
    at: Arc<OpAt>,
    table: RegionTable,
    index: Index,
    /// For how many region pairs, and cells of their sets, table and index have room.
    spare_rows: u32,
    spare_cells: u32,
}

impl Model for FullOne {
    ghost use Rattle.std.specs.Prelude.{◌++◌};
    ghost use Rattle.std.specs.Arc.{arc_value};
    ghost use Rattle.sz_frame.specs.Parts.{Pairing};
    ghost use Rattle.sz_tables.specs.Rows.{pairings};
    ghost use Rattle.sz_tables.specs.Stores.{Store};
    ghost use Rattle.sz_full_one.specs.ByCells.{IsKeptFor, index_capacities};

    ghost Value = { Store Pairing };

    ghost view = { λ s. record {
      site = arc_value s.at;
      given = pairings s.table;
      room = record {
        items = s.spare_rows;
        runs = s.table.spare_runs;
        cells = s.spare_cells;
        bytes = 0;
      };
      capacities = s.table.capacities ++ index_capacities s.index;
    } };

    ghost invariant = { λ s.
        IsKeptFor (arc_value s.at) s.table s.index s.spare_rows s.spare_cells };
}

impl FullOne {
    /// A store that stands for nothing, indexed for looks in this direction.
    pub fn new(alloc: Global, at: Arc<OpAt>, dir: Dir) -> Result<FullOne, NoMemory>
        ensures { IfOk result (λ s. s ≡ record {
          site = arc_value at;
          given = [];
          room = no_room;
          capacities = s.capacities;
        }) }
    {
        let table = RegionTable::new(alloc, at.out(), at.ins())?;
        let index = Index::new(alloc, &at, dir)?;
        Ok(FullOne {
            at,
            table,
            index,
            spare_rows: 0,
            spare_cells: 0,
        })
    }

    /// Makes the room for the region pairs of a lineage.
    ///
    /// Costs a visit to each of their sets, and a copy of a part of the store where that part has
    /// to grow. `NoMemory` also where the index would have more than 2^32 - 1 entries.
    pub fn reserve_piece(&mut self, lineage: &PieceLineage) -> Result<(), NoMemory>
        requires few { length self.old.given + length lineage.now.regions ≤ most_given }
        requires pairs { All (IsPairOf self.old.site) lineage.now.regions }
        ensures ok { OnOk result (IsWithin (room_for_pairs lineage.now.regions) self.new.room) }
        ensures kept { self.new ≡ record self.old {
          room = self.new.room;
          capacities = self.new.capacities;
        } }
    {
        self.reserve_all(lineage.regions())
    }

    /// Makes the room for these region pairs. After `NoMemory` there is none for pairs and cells.
    fn reserve_all(&mut self, regions: &[Arc<Region>]) -> Result<(), NoMemory>
        requires few { length self.old.given + length regions.now ≤ most_given }
        ensures ok { OnOk result
            (IsWithin (room_for_pairs (map (λ a. arc_value a) regions.now)) self.new.room) }
        ensures kept { self.new ≡ record self.old {
          room = self.new.room;
          capacities = self.new.capacities;
        } }
    {
        let count = regions.len() as u32;
        let needs = needs_of(regions)?;
        self.at.ins(); // an operator has at most two inputs
        self.spare_rows = 0;
        self.spare_cells = 0;
        self.table.reserve(count, needs.runs)?;
        self.index.reserve(needs.cells, count)?;
        self.spare_rows = count;
        self.spare_cells = needs.cells;
        Ok(())
    }

    /// Adds the region pairs of a lineage. It uses up the room for pairs and cells, and takes no
    /// memory: the capacity of each list that the store keeps stays.
    pub fn add_piece(&mut self, lineage: &PieceLineage)
        requires few { length self.old.given + length lineage.now.regions ≤ most_given }
        requires pairs { All (IsPairOf self.old.site) lineage.now.regions }
        requires room { IsWithin (room_for_pairs lineage.now.regions) self.old.room }
        ensures given { self.new.given ≡ self.old.given ++ lineage.now.regions }
        ensures site { self.new.site ≡ self.old.site }
        ensures capacities { self.new.capacities ≡ self.old.capacities }
    {
        self.add_all(lineage.regions(), false);
    }

    /// As [`FullOne::add_piece`]. Where `apart`, the sets of each input that the store has then
    /// are one or have no cell in common, any two of them.
    ///
    /// Of a set that the store has it looks then at some runs alone.
    pub fn add_piece_as(&mut self, lineage: &PieceLineage, apart: bool)
        requires few { length self.old.given + length lineage.now.regions ≤ most_given }
        requires pairs { All (IsPairOf self.old.site) lineage.now.regions }
        requires room { IsWithin (room_for_pairs lineage.now.regions) self.old.room }
        requires apart { apart ≡ true → HaveInputsApart (self.old.given ++ lineage.now.regions) }
        ensures given { self.new.given ≡ self.old.given ++ lineage.now.regions }
        ensures site { self.new.site ≡ self.old.site }
        ensures capacities { self.new.capacities ≡ self.old.capacities }
    {
        self.add_all(lineage.regions(), apart);
    }

    /// Adds these region pairs. Takes no memory.
    fn add_all(&mut self, regions: &[Arc<Region>], apart: bool)
        requires pairs { All (IsPairOf self.old.site) (map (λ a. arc_value a) regions.now) }
        requires room { IsWithin
            (room_for_pairs (map (λ a. arc_value a) regions.now)) self.old.room }
        requires apart { apart ≡ true
            → HaveInputsApart (self.old.given ++ map (λ a. arc_value a) regions.now) }
        ensures given { self.new.given
            ≡ self.old.given ++ map (λ a. arc_value a) regions.now }
        ensures site { self.new.site ≡ self.old.site }
        ensures capacities { self.new.capacities ≡ self.old.capacities }
    {
        self.at.ins(); // an operator has at most two inputs
        add_regions(&mut self.table, &mut self.index, regions, apart);
        self.spare_rows = 0;
        self.spare_cells = 0;
    }

    /// Adds the image of a set of cells: backward those that stand behind it, forward those that
    /// it stands behind. Takes no memory.
    ///
    /// From the side of its index it takes time in the entries of the asked cells and the runs of
    /// the sets that these lead to; from the other side it goes through all region pairs.
    pub fn image(&self, dir: Dir, input: u32, from: &CellBits, to: &mut CellBits)
        requires input { input < length self.now.site.ins }
        requires from { from.now.extent ≡ near_side dir self.now.site input }
        requires to { to.old.extent ≡ far_side dir self.now.site input }
        ensures { let s = self.now in to.new ≡ with_those to.old
            (has (image_in dir s.site input (full_stands s.given input) from.now)) }
    {
        if self.index.side() == dir {
            look(&self.table, &self.index, input, from, to);
        } else {
            self.table.scan(dir, input, from, to);
        }
    }

    /// The table of the region pairs, each different set once.
    pub fn table(&self) -> &RegionTable
        ensures pairings { pairings result.now ≡ self.now.given }
        ensures out { result.now.out ≡ self.now.site.out }
        ensures ins { result.now.ins ≡ self.now.site.ins }
    {
        &self.table
    }

    /// A checklist of the region pairs, of which none is ticked.
    pub fn checklist(&self, alloc: Global) -> PairChecklist<'_>
        ensures kept { pairings result.table ≡ self.now.given }
        ensures none { result.ticked ≡ [] }
    {
        self.at.ins(); // there are at most two inputs
        PairChecklist::new(alloc, &self.table)
    }

    /// Appends the bytes of the region pairs: a table of their sets, each once, and the rows of the
    /// numbers of these (`docs/FORMATS.md`). After `NoMemory` the bytes are as before.
    ///
    /// Costs a visit to each run of each different set, and to each region pair.
    pub fn put_bytes(&self, to: &mut Vec<u8>) -> Result<(), NoMemory>
        ensures ok { let s = self.now in OnOk result (
            (sets : List Listed) × (word : List ℕ) × AreDifferent sets
            × IsFullWord s.site.out s.site.ins sets s.given word
            × (to.new.items ≡ to.old.items ++ word)) }
        ensures err { OnErr result (to.new.items ≡ to.old.items) }
    {
        self.table.put_bytes(to)
    }

    /// The store of the region pairs whose bytes begin at a place, and the place behind them.
    /// `Take::Bad` exactly where none begin there.
    ///
    /// Costs by the bytes that it reads, and by the cells of the sets that are filed.
    pub fn take_bytes(
        alloc: Global,
        at: Arc<OpAt>,
        dir: Dir,
        bytes: &[u8],
        from: u64,
    ) -> Result<(FullOne, u64), Take>
        ensures ok { let s = arc_value at in IfOk result
            (λ r. BeginsRegions s.out s.ins bytes.now from r.1 r.0.given) }
        ensures site { IfOk result (λ r. r.0.site ≡ arc_value at) }
        ensures within { IfOk result (λ r. r.1 ≤ length bytes.now) }
        ensures err { let s = arc_value at in IfErr result
            (λ e. SaysNoRegions s.out s.ins bytes.now from e) }
    {
        let (regions, next) = take_regions(alloc, at.out(), at.ins(), bytes, from)?;
        let store = FullOne::of_regions(alloc, at, dir, &regions)?;
        Ok((store, next))
    }

    /// The store of these region pairs. The room for each is made when those before it are added,
    /// so a set that many of them share is counted once.
    fn of_regions(
        alloc: Global,
        at: Arc<OpAt>,
        dir: Dir,
        regions: &[Arc<Region>],
    ) -> Result<FullOne, NoMemory>
        requires few { length regions.now ≤ most_given }
        requires pairs { All (IsPairOf (arc_value at)) (map (λ a. arc_value a) regions.now) }
        ensures given { IfOk result (λ s. s.given ≡ map (λ a. arc_value a) regions.now) }
        ensures site { IfOk result (λ s. s.site ≡ arc_value at) }
    {
        let mut store = FullOne::new(alloc, at, dir)?;
        for region in regions {
            store.keep(region)?;
        }
        Ok(store)
    }

    /// Makes the room for a region pair, and adds it.
    fn keep(&mut self, region: &Arc<Region>) -> Result<(), NoMemory>
        requires few { length self.old.given < most_given }
        requires pair { IsPairOf self.old.site (arc_value region.now) }
        ensures given { OnOk result
            (self.new.given ≡ self.old.given ++ arc_value region.now ∷ []) }
        ensures site { self.new.site ≡ self.old.site }
    {
        let pairs = [Arc::try_clone(region)?];
        self.reserve_all(&pairs)?;
        self.add_all(&pairs, false);
        Ok(())
    }
}
