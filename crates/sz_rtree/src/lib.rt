//! Rectangles by number, and the next one that overlaps a given one.
//!
//! A store of lineage keeps the bounds of each of its sets as a rectangle of an [`RTree`]. A look
//! asks for the sets whose bounds overlap those of the cells that it is about, one after another in
//! the order of their numbers, and leaves all others alone.
//!
//! - [`RTree::new`] makes a tree without rectangles.
//! - [`RTree::of`] makes a tree of rectangles that are all there.
//! - [`RTree::reserve`] takes the memory for rectangles to come, and for all that is above them.
//! - [`RTree::insert`] adds a rectangle. Its number is the count of those before it.
//! - [`RTree::len`] is that count.
//! - [`RTree::next_hit`] is the least number, from a given one on, whose rectangle overlaps.
//!
//! ```text
//! let mut tree = RTree::new(alloc)?;
//! tree.reserve(3)?;
//! tree.insert(upper_half);                        // number 0
//! tree.insert(lower_half);                        // number 1
//! tree.insert(left_half);                         // number 2
//! let mut from = 0;
//! while let Some(number) = tree.next_hit(lower_left_cell, from) {
//!     ..                                          // first at 1, then at 2
//!     from = number + 1;
//! }
//! ```
//!
//! A rectangle has both its corners in it, and two overlap where they have a row and a column in
//! common. One whose top is below its bottom, or whose left is right of its right, is taken as that
//! formula takes it. [`laws`] says what may be taken for granted of overlapping and of looks.
//!
//! # For whoever changes it
//!
//! Above the rectangles stand levels of boxes. On the level of span `s`, box `k` is round the
//! rectangles from number `k * s` up to `(k + 1) * s`. Numbers follow the pieces of an array, so
//! neighbours in number are mostly neighbours in place, and the boxes are small without sorting.
//!
//! Every level is there from the start, and a box begins with the first rectangle in it: no node is
//! ever moved or split in two. So `reserve` can count beforehand what each level may need, which is
//! why `insert` takes no memory.
//!
//! What a look answers rests on `Covers` of `specs/Levels.antt` alone, that a box is round all its
//! rectangles. The level that the search tries next (`height_at` in `search.rt`) decides what a
//! look costs, and never what it answers.
#![tactic(auto)]

ghost use Rattle.std.specs.Prelude.{◌≡◌, ◌<◌, ◌≤◌, ◌+◌, ◌-◌, ◌^◌, ◌∷◌, ◌++◌};
ghost use Rattle.sz_rtree.specs.Terms.{[], length, max, OnOk, OnErr, IsOk, IfOk, IsNextHit};

pub mod laws;
mod levels;
mod search;

use crate::levels::{Level, add_to_all, empty_levels, levels_over, reserve_all, reserve_bounds};
use crate::search::first_hit;
use std::alloc::Global;
use std::marker::Model;
use sz_cells::{Bounds, NoMemory};

/// Rectangles by number, with boxes round runs of them that let a look pass over many at once.
#[derive(Drop)]
pub struct RTree {
    rectangles: Vec<Bounds>,
    levels: Vec<Level>,
    spare: u32,
}

impl Model for RTree {
    ghost use Rattle.sz_rtree.specs.Rectangles.{Rectangles};

    ghost Value = { Rectangles };

    ghost use Rattle.sz_rtree.specs.Levels.{IsReady, capacities_of};

    ghost view = { λ t. record {
      rectangles = t.rectangles.items;
      spare = t.spare;
      capacities = capacities_of t.rectangles t.levels;
    } };

    ghost invariant = { λ t. IsReady t.rectangles t.spare t.levels.items };
}

impl RTree {
    /// A tree without rectangles, and without room for any. It takes room for its fifteen levels.
    pub fn new(alloc: Global) -> Result<RTree, NoMemory>
        ensures rectangles { IfOk result (λ tree. tree.rectangles ≡ []) }
        ensures spare { IfOk result (λ tree. tree.spare ≡ 0) }
    {
        Ok(RTree {
            rectangles: Vec::new(alloc),
            levels: empty_levels(alloc)?,
            spare: 0,
        })
    }

    /// The tree of these rectangles, numbered in their order, without room for more.
    ///
    /// Costs a visit to each rectangle and a third of one more: less than adding them one by one.
    pub fn of(alloc: Global, rectangles: Vec<Bounds>) -> Result<RTree, NoMemory>
        requires { length rectangles.items < 2 ^ 32 }
        ensures rectangles { IfOk result (λ tree. tree.rectangles ≡ rectangles.items) }
        ensures spare { IfOk result (λ tree. tree.spare ≡ 0) }
    {
        let levels = levels_over(alloc, &rectangles)?;
        Ok(RTree {
            rectangles,
            levels,
            spare: 0,
        })
    }

    /// Makes room for `more` rectangles and the boxes above them, where there is none yet. After
    /// `NoMemory` the tree is as before, but some of its lists may hold more memory.
    ///
    /// Costs a visit to each level, and a copy of the tree where a list has to grow. A list at
    /// least doubles then, so that many small calls cost no more than a few large ones.
    pub fn reserve(&mut self, more: u32) -> Result<(), NoMemory>
        requires { length self.old.rectangles + more < 2 ^ 32 }
        ensures ok { OnOk result (self.new ≡ record self.old {
          spare = max self.old.spare more;
          capacities = self.new.capacities;
        }) }
        ensures err { OnErr result
            (self.new ≡ record self.old { capacities = self.new.capacities }) }
        ensures ready { more ≤ self.old.spare → IsOk result × (self.new ≡ self.old) }
    {
        if more <= self.spare {
            return Ok(());
        }
        let count = self.rectangles.len() + more as usize;
        reserve_bounds(&mut self.rectangles, more as usize)?;
        reserve_all(&mut self.levels, count)?;
        self.spare = more;
        Ok(())
    }

    /// Adds a rectangle, whose number is the `len` before. It takes no memory: the capacity of
    /// each list that the tree keeps stays.
    ///
    /// Costs one box on each of the fifteen levels, however many rectangles there are: 262,144 unit
    /// squares in row-major order take some 20 ms.
    pub fn insert(&mut self, bounds: Bounds)
        requires { 0 < self.old.spare }
        ensures { self.new ≡ record self.old {
          rectangles = self.old.rectangles ++ bounds ∷ [];
          spare = self.old.spare - 1;
        } }
    {
        let number = self.rectangles.len();
        add_to_all(&mut self.levels, number, bounds);
        self.rectangles.push_reserved(bounds);
        self.spare -= 1;
    }

    /// How many rectangles there are. Their numbers are those below it.
    pub fn len(&self) -> u32
        ensures { result ≡ length self.now.rectangles }
    {
        self.rectangles.len() as u32
    }

    /// The least number at or above `from` whose rectangle overlaps `bounds`. It takes no memory.
    ///
    /// Costs a few boxes on each level where the boxes that overlap are those of hits: among
    /// 262,144 unit squares in row-major order, a look for one cell visits some thirty boxes, and
    /// the next look, which finds no other, some fifteen. At worst, where boxes overlap and their
    /// rectangles do not, it visits all.
    pub fn next_hit(&self, bounds: Bounds, from: u32) -> Option<u32>
        ensures hit { IsNextHit self.now.rectangles bounds from result }

        // So a number that was found can be counted up by one.
        ensures few { length self.now.rectangles < 2 ^ 32 }
    {
        first_hit(&self.rectangles, &self.levels, &bounds, from as usize).map(
            |number| number as u32,
        )
    }
}
