//! Full lineage by sets: region pairs, found by the bounds of their sets.
//!
//! A [`FullMany`] keeps region pairs of one operator, each different set once, and the bounds of
//! the sets from which looks of one direction start, as rectangles of [`RTree`]s. A look in that
//! direction takes the region pairs whose bounds overlap those of the asked cells, and tests and
//! adds their sets; a look in the other direction goes through all region pairs. Both answer alike.
//!
//! - [`FullMany::new`] makes a store without a region pair.
//! - [`FullMany::reserve_piece`] takes the memory for the region pairs of a lineage.
//! - [`FullMany::add_piece`] adds them, and takes none; [`FullMany::add_piece_as`] does so sooner
//!   where sets are one or apart.
//! - [`FullMany::image`] adds the image of a set of cells, backward or forward.
//! - [`FullMany::checklist`] tells whether region pairs are those of the store.
//! - [`FullMany::put_bytes`] writes its region pairs, and [`FullMany::take_bytes`] reads them
//!   again, for looks of either direction.
//!
//! ```
//! let mut store = FullMany::new(alloc, at, Dir::Back)?;
//! store.reserve_piece(&lineage)?;
//! store.add_piece(&lineage);
//! store.image(Dir::Back, 0, &asked, &mut found);     // the cells of input 0 behind the asked ones
//! ```
//!
//! To whoever changes this crate: what an image is rests on the index by `IsIndexed` of
//! `specs/Indexed` alone, that each rectangle is round its set. A rectangle that is too wide costs
//! a test, and one that is too narrow is refused.
#![tactic(auto)]

ghost use Rattle.std.specs.Prelude.{◌≡◌, ◌<◌, ◌≤◌, ◌+◌, ◌∷◌, ◌++◌};
ghost use Rattle.sz_full_many.specs.Terms.{ℕ, List, [], length, map, All, OnOk, OnErr, IfOk, IfErr};
ghost use Rattle.sz_full_many.specs.Terms.{true, arc_value, has, with_those, near_side, far_side};
ghost use Rattle.sz_full_many.specs.Terms.{image_in, full_stands, Listed, IsFullWord};
ghost use Rattle.sz_full_many.specs.Terms.{BeginsRegions, SaysNoRegions, weight_of, pairings};
ghost use Rattle.sz_full_many.specs.Terms.{AreDifferent, AreOneOrApart, HaveInputsApart, IsPairOf};
ghost use Rattle.sz_full_many.specs.Terms.{IsWithin, room_for_pairs, no_room, most_given};

mod bounds;
mod counting;
mod looking;

use crate::bounds::{add_bounds, empty_trees, reserve_trees, trees_of};
use crate::counting::runs_of_all;
use crate::looking::{look, tree_for};
use std::alloc::Global;
use std::marker::Model;
use std::sync::Arc;
use std::thread::Threads;
use sz_cells::{CellBits, NoMemory};
use sz_frame::{PieceLineage, Region};
use sz_region::Take;
use sz_rtree::RTree;
use sz_spec::{Dir, OpAt};
use sz_tables::{PairChecklist, RegionTable};

/// Region pairs of one operator, indexed by the bounds of the sets from which `dir` starts.
#[derive(Drop)]
pub struct FullMany {
    at: Arc<OpAt>,
    dir: Dir,
    table: RegionTable,
    /// Backward one, of the bounds of the output sets; forward one for each input.
    trees: Vec<RTree>,
}

impl Model for FullMany {
    ghost use Rattle.std.specs.Prelude.{◌*◌, ◌∷◌, ◌++◌};
    ghost use Rattle.std.specs.Vec.{vec_capacity};
    ghost use Rattle.std.specs.Arc.{arc_value};
    ghost use Rattle.sz_frame.specs.Parts.{Pairing};
    ghost use Rattle.sz_tables.specs.Rows.{pairings};
    ghost use Rattle.sz_tables.specs.Stores.{Store};
    ghost use Rattle.sz_full_many.specs.Indexed.{room_in, IsIndexed, tree_capacities};

    ghost Value = { Store Pairing };

    ghost view = { λ s. record {
      site = arc_value s.at;
      given = pairings s.table;
      room = record {
        items = room_in s.table.spare_rows s.trees.items;
        runs = s.table.spare_runs;
        cells = s.table.spare_runs * 1048576;
        bytes = 0;
      };
      capacities = s.table.capacities ++ vec_capacity s.trees ∷ tree_capacities s.trees.items;
    } };

    ghost invariant = { λ s. IsIndexed (arc_value s.at) s.dir s.table s.trees.items };
}

impl FullMany {
    /// A store that stands for nothing, indexed for looks in this direction.
    pub fn new(alloc: Global, at: Arc<OpAt>, dir: Dir) -> Result<FullMany, NoMemory>
        ensures { IfOk result (λ s. s ≡ record {
          site = arc_value at;
          given = [];
          room = no_room;
          capacities = s.capacities;
        }) }
    {
        let table = RegionTable::new(alloc, at.out(), at.ins())?;
        let trees = empty_trees(alloc, dir, at.ins().len())?;
        Ok(FullMany {
            at,
            dir,
            table,
            trees,
        })
    }

    /// Makes the room for the region pairs of a lineage.
    ///
    /// Costs a visit to each of their sets' lists of runs, and a copy of a part of the store where
    /// that part has to grow.
    pub fn reserve_piece(&mut self, lineage: &PieceLineage) -> Result<(), NoMemory>
        requires few { length self.old.given + length lineage.now.regions ≤ most_given }
        requires pairs { All (IsPairOf self.old.site) lineage.now.regions }
        ensures ok { OnOk result (IsWithin (room_for_pairs lineage.now.regions) self.new.room) }
        ensures kept { self.new ≡ record self.old {
          room = self.new.room;
          capacities = self.new.capacities;
        } }
    {
        self.reserve_all(lineage.regions())
    }

    /// Makes the room for these region pairs.
    fn reserve_all(&mut self, regions: &[Arc<Region>]) -> Result<(), NoMemory>
        requires few { length self.old.given + length regions.now ≤ most_given }
        requires pairs { All (IsPairOf self.old.site) (map (λ a. arc_value a) regions.now) }
        ensures ok { OnOk result
            (IsWithin (room_for_pairs (map (λ a. arc_value a) regions.now)) self.new.room) }
        ensures kept { self.new ≡ record self.old {
          room = self.new.room;
          capacities = self.new.capacities;
        } }
    {
        self.at.ins(); // there are at most two inputs
        let more = regions.len() as u32;
        let runs = runs_of_all(regions);
        reserve_trees(&mut self.trees, more)?;
        self.table.reserve(more, runs)
    }

    /// Adds the region pairs of a lineage. Takes no memory: the capacity of each list that the
    /// store keeps stays.
    pub fn add_piece(&mut self, lineage: &PieceLineage)
        requires few { length self.old.given + length lineage.now.regions ≤ most_given }
        requires pairs { All (IsPairOf self.old.site) lineage.now.regions }
        requires room { IsWithin (room_for_pairs lineage.now.regions) self.old.room }
        ensures given { self.new.given ≡ self.old.given ++ lineage.now.regions }
        ensures site { self.new.site ≡ self.old.site }
        ensures capacities { self.new.capacities ≡ self.old.capacities }
    {
        self.add_all(lineage.regions(), false);
    }

    /// As [`FullMany::add_piece`]. Where `apart`, the sets of each input that the store has then
    /// are one or have no cell in common, any two of them.
    ///
    /// Of a set that the store has it looks then at some runs alone.
    pub fn add_piece_as(&mut self, lineage: &PieceLineage, apart: bool)
        requires few { length self.old.given + length lineage.now.regions ≤ most_given }
        requires pairs { All (IsPairOf self.old.site) lineage.now.regions }
        requires room { IsWithin (room_for_pairs lineage.now.regions) self.old.room }
        requires apart { apart ≡ true → HaveInputsApart (self.old.given ++ lineage.now.regions) }
        ensures given { self.new.given ≡ self.old.given ++ lineage.now.regions }
        ensures site { self.new.site ≡ self.old.site }
        ensures capacities { self.new.capacities ≡ self.old.capacities }
    {
        self.add_all(lineage.regions(), apart);
    }

    /// Adds these region pairs. Takes no memory.
    fn add_all(&mut self, regions: &[Arc<Region>], apart: bool)
        requires pairs { All (IsPairOf self.old.site) (map (λ a. arc_value a) regions.now) }
        requires room { IsWithin
            (room_for_pairs (map (λ a. arc_value a) regions.now)) self.old.room }
        requires apart { apart ≡ true
            → HaveInputsApart (self.old.given ++ map (λ a. arc_value a) regions.now) }
        ensures given { self.new.given
            ≡ self.old.given ++ map (λ a. arc_value a) regions.now }
        ensures site { self.new.site ≡ self.old.site }
        ensures capacities { self.new.capacities ≡ self.old.capacities }
    {
        for region in regions {
            self.add(region, apart);
        }
    }

    /// Adds a region pair. Takes no memory.
    fn add(&mut self, region: &Region, apart: bool)
        requires pair { IsPairOf self.old.site region.now }
        requires items { 0 < self.old.room.items }
        requires runs { weight_of region.now ≤ self.old.room.runs }
        requires apart { apart ≡ true → All (AreOneOrApart region.now) self.old.given }
        ensures given { self.new.given ≡ self.old.given ++ region.now ∷ [] }
        ensures site { self.new.site ≡ self.old.site }
        ensures items { self.old.room.items ≤ self.new.room.items + 1 }
        ensures runs { self.old.room.runs ≤ self.new.room.runs + weight_of region.now }
        ensures capacities { self.new.capacities ≡ self.old.capacities }
    {
        add_bounds(&mut self.trees, self.dir, region);
        self.table.add_as(region, apart);
    }

    /// Adds the image of a set of cells: backward those that stand behind it, forward those that
    /// it stands behind. Takes no memory.
    ///
    /// In the direction for which the store is indexed it costs a visit to the region pairs whose
    /// bounds overlap those of the asked cells, and of each different set that follows another the
    /// runs; in the other direction a visit to every region pair.
    pub fn image(&self, dir: Dir, input: u32, from: &CellBits, to: &mut CellBits)
        requires input { input < length self.now.site.ins }
        requires from { from.now.extent ≡ near_side dir self.now.site input }
        requires to { to.old.extent ≡ far_side dir self.now.site input }
        ensures { let s = self.now in to.new ≡ with_those to.old
            (has (image_in dir s.site input (full_stands s.given input) from.now)) }
    {
        if dir == self.dir {
            let tree = &self.trees[tree_for(dir, input) as usize];
            look(&self.table, tree, dir, input, from, to);
        } else {
            self.table.scan(dir, input, from, to);
        }
    }

    /// The table of the region pairs, each different set once.
    pub fn table(&self) -> &RegionTable
        ensures pairings { pairings result.now ≡ self.now.given }
        ensures out { result.now.out ≡ self.now.site.out }
        ensures ins { result.now.ins ≡ self.now.site.ins }
    {
        &self.table
    }

    /// A checklist of the region pairs, of which none is ticked.
    pub fn checklist(&self, alloc: Global) -> PairChecklist<'_>
        ensures kept { pairings result.table ≡ self.now.given }
        ensures none { result.ticked ≡ [] }
    {
        self.at.ins(); // there are at most two inputs
        PairChecklist::new(alloc, &self.table)
    }

    /// Appends the bytes of the region pairs: a table of their sets, each once, and the rows of the
    /// numbers of these (`docs/FORMATS.md`). After `NoMemory` the bytes are as before.
    ///
    /// Costs a visit to each run of each different set, and to each region pair.
    pub fn put_bytes(&self, to: &mut Vec<u8>) -> Result<(), NoMemory>
        ensures ok { let s = self.now in OnOk result (
            (sets : List Listed) × (word : List ℕ) × AreDifferent sets
            × IsFullWord s.site.out s.site.ins sets s.given word
            × (to.new.items ≡ to.old.items ++ word)) }
        ensures err { OnErr result (to.new.items ≡ to.old.items) }
    {
        self.table.put_bytes(to)
    }

    /// The store of the region pairs whose bytes begin at a place, and the place behind them.
    /// `Take::Bad` exactly where none begin there.
    ///
    /// Costs by the bytes that it reads. The store has each different set once. A long table of
    /// sets is read in two parts side by side.
    pub fn take_bytes<R: Threads + Sync>(
        rt: &R,
        alloc: Global,
        at: Arc<OpAt>,
        dir: Dir,
        bytes: &[u8],
        from: u64,
    ) -> Result<(FullMany, u64), Take>
        ensures ok { let s = arc_value at in IfOk result
            (λ r. BeginsRegions s.out s.ins bytes.now from r.1 r.0.given) }
        ensures site { IfOk result (λ r. r.0.site ≡ arc_value at) }
        ensures within { IfOk result (λ r. r.1 ≤ length bytes.now) }
        ensures err { let s = arc_value at in IfErr result
            (λ e. SaysNoRegions s.out s.ins bytes.now from e) }
    {
        let (table, next) = RegionTable::take_bytes(rt, alloc, at.out(), at.ins(), bytes, from)?;
        let store = FullMany::of_table(alloc, at, dir, table)?;
        Ok((store, next))
    }

    /// The store of the region pairs of a table between the operator's shapes.
    ///
    /// Costs a visit to the runs of the sets of each region pair from which a look starts.
    pub fn of_table(
        alloc: Global,
        at: Arc<OpAt>,
        dir: Dir,
        table: RegionTable,
    ) -> Result<FullMany, NoMemory>
        requires out { table.out ≡ (arc_value at).out }
        requires ins { table.ins ≡ (arc_value at).ins }
        ensures given { IfOk result (λ s. s.given ≡ pairings table) }
        ensures site { IfOk result (λ s. s.site ≡ arc_value at) }
    {
        let trees = trees_of(alloc, dir, &table, at.ins().len() as u32)?;
        Ok(FullMany {
            at,
            dir,
            table,
            trees,
        })
    }
}
