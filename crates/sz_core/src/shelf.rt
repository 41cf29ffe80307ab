//! The shelf of a node: its pairs, which pieces are placed, and whether it is sealed.

ghost use Rattle.std.specs.Prelude.{◌≡◌, ◌<◌, ◌≤◌, ◌^◌};
ghost use Rattle.sz_core.specs.Terms.{ℕ, [], true, false, IfOk, OnErr, OnOk, length, map};
ghost use Rattle.sz_core.specs.Terms.{slice_index_or, size_of, place_reply, after_place};
ghost use Rattle.sz_core.specs.Terms.{seal_reply, after_seal, extent_before, image_by};
ghost use Rattle.sz_core.specs.Terms.{PairsLieWithin, relation_of, pairs_taken};

use crate::events::Told;
use crate::pairs::Pair;
use crate::relation::PairIndex;
use std::alloc::Global;
use std::marker::Model;
use sz_cells::{CellSet, NoMemory, Shape};
use sz_spec::Dir;

/// A shelf with an index of its pairs, and a mark for each piece that is placed.
#[derive(Drop)]
pub(crate) struct IndexedShelf {
    pairs: PairIndex,
    placed: Vec<u32>,
    marks: Vec<bool>,
    least: usize,
    sealed: bool,
}

impl Model for IndexedShelf {
    ghost use Rattle.std.specs.Prelude.{◌≡◌, true, length};
    ghost use Rattle.sz_core.specs.Invariants.{AreMarks, AreAllPlaced};
    ghost use Rattle.sz_core.specs.States.{Shelf};

    ghost Value = { Shelf };

    ghost view = { λ x. record {
      out = x.pairs.out;
      ins = x.pairs.ins;
      pieces = x.pairs.pieces;
      placed = x.placed.items;
      sealed = x.sealed;
    } };

    ghost invariant = { λ x. (length x.marks.items ≡ length x.pairs.pieces)
        × AreMarks x.placed.items x.marks.items x.least
        × (x.sealed ≡ true → AreAllPlaced (length x.pairs.pieces) x.placed.items) };
}

impl IndexedShelf {
    /// The shelf of these pairs before any event.
    ///
    /// Takes time and memory in the number of pairs and of the cells of the shapes.
    pub fn new(
        alloc: Global,
        out: Shape,
        ins: Vec<Shape>,
        pieces: Vec<Vec<Pair>>,
    ) -> Result<IndexedShelf, NoMemory>
        requires few { length ins.items < 2 ^ 32 }
        requires count { length pieces.items ≤ size_of out }
        requires within { PairsLieWithin
            (relation_of out ins.items (map (λ v. v.items) pieces.items)) }
        ensures { IfOk result (λ x. x ≡ record {
          out = out;
          ins = ins.items;
          pieces = map (λ v. v.items) pieces.items;
          placed = [];
          sealed = false;
        }) }
    {
        prove!(pieces.len() <= out.size() as usize);
        let marks = vec![in alloc; false; pieces.len()]?;
        let pairs = PairIndex::new(alloc, out, ins, pieces)?;
        Ok(IndexedShelf {
            pairs,
            placed: Vec::new(alloc),
            marks,
            least: 0,
            sealed: false,
        })
    }

    /// Whether the shelf is sealed.
    pub fn is_sealed(&self) -> bool
        ensures { result ≡ self.now.sealed }
    {
        self.sealed
    }

    /// Places a piece, and says what that is told.
    pub fn place(&mut self, piece: u32) -> Result<Told, NoMemory>
        ensures ok { IfOk result (λ told. told ≡ place_reply piece self.old) }
        ensures after { OnOk result (self.new ≡ after_place piece self.old) }
        ensures err { OnErr result (self.new ≡ self.old) }
    {
        let place = piece as usize;
        if place >= self.marks.len() {
            return Ok(Told::NoSuch);
        }
        if self.sealed {
            return Ok(Told::SealedBefore);
        }
        if self.marks[place] {
            return Ok(Told::Already);
        }
        self.placed.push(piece)?;
        self.marks[place] = true;
        Ok(Told::Placed)
    }

    /// Seals the shelf where every piece is placed, and says what that is told.
    ///
    /// Takes time in the number of pieces that were placed since the last seal.
    pub fn seal(&mut self) -> Told
        ensures told { result ≡ seal_reply self.old }
        ensures after { self.new ≡ after_seal self.old }
    {
        self.least = first_unmarked(&self.marks, self.least);
        if self.least < self.marks.len() {
            Told::Missing {
                piece: self.least as u32,
            }
        } else {
            self.sealed = true;
            Told::Sealed
        }
    }

    /// The image of a set under the pairs that a look takes, of one of the inputs.
    ///
    /// Takes time as `PairIndex::image`.
    pub fn image(
        &mut self,
        alloc: Global,
        dir: Dir,
        input: u32,
        from: &CellSet,
    ) -> Result<CellSet, NoMemory>
        requires input { input < length self.old.ins }
        requires shape { from.now.extent ≡ extent_before dir self.old.out self.old.ins input }
        ensures same { self.new ≡ self.old }
        ensures ok { IfOk result (λ set.
            set ≡ image_by (pairs_taken self.old) dir self.old.out self.old.ins input from.now) }
    {
        // All pieces of a sealed shelf are placed, so the pairs of the placed pieces are all pairs.
        self.pairs.image(alloc, dir, input, from)
    }
}

/// The first place from a number on that is not marked, or the number of places.
fn first_unmarked(marks: &[bool], from: usize) -> usize
    requires { (k : ℕ) → k < from → slice_index_or marks.now k false ≡ true }
    ensures within { result ≤ length marks.now }
    ensures below { (k : ℕ) → k < result → slice_index_or marks.now k false ≡ true }
    ensures here { slice_index_or marks.now result false ≡ false }
{
    for place in from..marks.len() {
        if !marks[place] {
            return place;
        }
    }
    marks.len()
}
