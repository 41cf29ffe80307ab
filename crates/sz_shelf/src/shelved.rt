//! What lies in the slot of a shelf: the stores, beside the tag and the list of the placed pieces.
//!
//! A [`Shelved`] knows no turns. Contracts see its tag, the placed pieces in their order, and
//! whether it is sealed; the stores themselves are seen by [`Shelved::store`], which says what they
//! stand for.

ghost use Rattle.std.specs.Prelude.{◌≡◌, ◌<◌, ◌≤◌, ◌++◌, ◌∷◌};
ghost use Rattle.sz_shelf.specs.Terms.{ℕ, [], length, true, false, Some, None, IfOk, OnOk, OnErr};
ghost use Rattle.sz_shelf.specs.Terms.{All, slice_index_or, arc_value, has, with_those, is_listed};
ghost use Rattle.sz_shelf.specs.Terms.{is_stored, near_side, far_side, FitsAsNeeded, measure_of};
ghost use Rattle.sz_shelf.specs.Terms.{IsTag, StandsFor, tag_pieces, tag_image, StandsOnPlaced};
ghost use Rattle.sz_shelf.specs.Terms.{is_in, missing_in, least_missing, IsFirst, HasImages};
ghost use Rattle.sz_shelf.specs.Terms.{IsRegions};

use crate::read_by::ReadBy;
use crate::stored::Stored;
use crate::tag::TagParts;
use std::alloc::Global;
use std::marker::Model;
use std::snapshot::Snapshot;
use std::sync::Arc;
use sz_cells::laws::a_bitmap_is_its_cells;
use sz_cells::{CellBits, NoMemory};
use sz_frame::PieceLineage;
use sz_spec::{Dir, Op, Strategy, pieces_of};
use sz_store::NodeStore;

/// The stores of a shelf, its tag, and the placed pieces.
#[derive(Drop)]
pub struct Shelved {
    tag: Snapshot<TagParts>,
    stored: Stored,
    /// The placed pieces, in their order. There is room for all from the start.
    placed: Vec<u32>,
    /// For each piece whether it is placed.
    marks: Vec<bool>,
    /// The least piece that is not placed, or the number of pieces.
    first: usize,
    sealed: bool,
    /// Whether the operator is `regions`, and each region pair in the stores is known to have the
    /// images of an output cell. The sets of its input are then one or apart.
    apart: bool,
}

impl Model for Shelved {
    ghost use Rattle.sz_shelf.specs.Contents.{Contents};
    ghost use Rattle.std.specs.Prelude.{◌≡◌, true};
    ghost use Rattle.sz_shelf.specs.Keeping.{IsShelved};
    ghost use Rattle.sz_shelf.specs.Apart.{AreRegionImages};

    ghost Value = { Contents };

    ghost view = { λ s. record {
      tag = s.tag.value;
      placed = s.placed.items;
      sealed = s.sealed;
    } };

    ghost invariant = { λ s.
        IsShelved s.tag.value s.placed.items s.sealed s.marks.items s.first s.stored
        × (s.apart ≡ true → AreRegionImages s.tag.value s.stored) };
}

impl Shelved {
    /// The stores of a tag. Nothing is placed, and they are not sealed.
    pub(crate) fn new(alloc: Global, tag: TagParts) -> Result<Shelved, NoMemory>
        requires { IsTag tag }
        ensures { IfOk result
            (λ s. s ≡ record { tag = tag; placed = []; sealed = false }) }
    {
        let seen = Snapshot::of(&tag);
        let TagParts {
            at,
            inputs: _,
            list,
        } = tag;
        let pieces = pieces_of(at.out()) as usize;
        let apart = is_regions(at.op());
        let store = NodeStore::new(alloc, at, &list)?;
        let placed = Vec::with_capacity(alloc, pieces)?;
        let marks = vec![in alloc; false; pieces]?;
        Ok(Shelved {
            tag: seen,
            stored: Stored::Open(store),
            placed,
            marks,
            first: 0,
            sealed: false,
            apart,
        })
    }

    /// The stores, which can be read once they are sealed. They are whole then, and stand for all
    /// of the tag's relation.
    pub fn store(&self) -> &NodeStore
        requires { self.now.sealed ≡ true }
        ensures { StandsFor self.now.tag result.now }
    {
        self.stored.store()
    }

    /// The stores as contracts alone see them. On each placed piece they stand for exactly the
    /// tag's relation, elsewhere for nothing or the composite default.
    pub fn standing(&self) -> Snapshot<NodeStore>
        ensures placed { StandsOnPlaced self.now.tag self.now.placed result.value }
        ensures whole { self.now.sealed ≡ true → StandsFor self.now.tag result.value }
    {
        Snapshot::of(self.stored.store())
    }

    /// Whether they are sealed.
    pub(crate) fn is_sealed(&self) -> bool
        ensures { result ≡ self.now.sealed }
    {
        self.sealed
    }

    /// Whether a piece is placed.
    pub(crate) fn has(&self, piece: u32) -> bool
        requires { piece < tag_pieces self.now.tag }
        ensures { result ≡ is_in self.now.placed piece }
    {
        self.marks[piece as usize]
    }

    /// How many pieces are placed.
    pub(crate) fn count(&self) -> u32
        ensures value { result ≡ length self.now.placed }
        ensures most { result ≤ tag_pieces self.now.tag }
    {
        self.placed.len() as u32
    }

    /// How many pieces there are.
    pub(crate) fn pieces(&self) -> u32
        ensures { result ≡ tag_pieces self.now.tag }
    {
        self.marks.len() as u32
    }

    /// The least piece that is not placed, or the number of pieces.
    pub(crate) fn missing(&self) -> u32
        ensures value { result ≡ least_missing (tag_pieces self.now.tag) self.now.placed }
        ensures some { let n = tag_pieces self.now.tag in
            result < n → missing_in n self.now.placed ≡ Some result }
        ensures none { let n = tag_pieces self.now.tag in
            n ≤ result → missing_in n self.now.placed ≡ None }
    {
        self.first as u32
    }

    /// Places the lineage of a piece, of which each region pair has the images of an output cell
    /// where `images`. Where there is no memory, nothing changes. The search for the least piece
    /// that is missing goes on from where it was, so all of them together go over the pieces once.
    pub(crate) fn place(&mut self, lineage: &PieceLineage, images: bool) -> Result<(), NoMemory>
        requires piece { lineage.now.piece < tag_pieces self.old.tag }
        requires fits { let t = self.old.tag in
            FitsAsNeeded (measure_of t.site t.inputs) t.list lineage.now.piece lineage.now }
        requires open { self.old.sealed ≡ false }
        requires new { is_in self.old.placed lineage.now.piece ≡ false }
        requires images { let t = self.old.tag in
            images ≡ true → All (HasImages t.site t.inputs) lineage.now.regions }
        ensures ok { OnOk result (self.new ≡ record self.old {
          placed = self.old.placed ++ lineage.now.piece ∷ [];
        }) }
        ensures err { OnErr result (self.new ≡ self.old) }
    {
        self.placed.reserve(1)?;
        let apart = both(self.apart, images);
        self.stored.place(lineage, apart)?;
        self.apart = apart;
        let piece = lineage.piece();
        self.placed.push_reserved(piece);
        self.marks[piece as usize] = true;
        self.first = first_unmarked(&self.marks, self.first);
        Ok(())
    }

    /// Seals them. Takes no memory.
    pub(crate) fn seal(&mut self)
        requires { missing_in (tag_pieces self.old.tag) self.old.placed ≡ None }
        ensures { self.new ≡ record self.old { sealed = true } }
    {
        self.sealed = true;
    }

    /// Adds the image of a set of cells under the relation of an input, and tells which store was
    /// read. Takes no memory.
    pub(crate) fn image(
        &self,
        strategy: Strategy,
        dir: Dir,
        input: u32,
        from: &CellBits,
        to: &mut CellBits,
    ) -> ReadBy
        requires sealed { self.now.sealed ≡ true }
        requires listed { is_listed self.now.tag.list strategy ≡ true }
        requires stored { is_stored strategy ≡ true }
        requires input { input < length self.now.tag.site.ins }
        requires from { from.now.extent ≡ near_side dir self.now.tag.site input }
        requires to { to.old.extent ≡ far_side dir self.now.tag.site input }
        ensures image { to.new
            ≡ with_those to.old (has (tag_image dir self.now.tag input from.now)) }
        ensures by { result.strategy ≡ strategy }
    {
        a_bitmap_is_its_cells(from);
        let store = self.store();
        ReadBy::image(store, strategy, dir, input, from, to)
    }

    /// A share of the stores. The first one makes them such that they can be shared, later ones
    /// hand out the same. Where there is no memory, nothing changes.
    pub(crate) fn share(&mut self, alloc: Global) -> Result<Arc<NodeStore>, NoMemory>
        requires { self.old.sealed ≡ true }
        ensures kept { self.new ≡ self.old }
        ensures ok { IfOk result (λ a. StandsFor self.old.tag (arc_value a)) }
    {
        let own = std::mem::replace(&mut self.stored, Stored::Moved);
        let (stored, given) = own.share(alloc);
        self.stored = stored;
        given
    }

    /// Puts other stores in place of these. Takes no memory.
    pub(crate) fn swap(&mut self, store: Arc<NodeStore>)
        requires sealed { self.old.sealed ≡ true }
        requires stands { StandsFor self.old.tag (arc_value store) }
        ensures { self.new ≡ self.old }
    {
        self.stored = Stored::Shared(store);
    }
}

/// Whether an operator is `regions`.
fn is_regions(op: &Op) -> bool
    ensures { result ≡ true → IsRegions op.now }
{
    matches!(op, Op::Regions { .. })
}

/// Whether both are so.
fn both(one: bool, other: bool) -> bool
    ensures one { result ≡ true → one ≡ true }
    ensures other { result ≡ true → other ≡ true }
{
    one && other
}

/// The first place that is not marked, or the number of places. Each one before `from` is marked.
fn first_unmarked(marks: &[bool], from: usize) -> usize
    requires within { from ≤ length marks.now }
    requires below { (k : ℕ) → k < from → slice_index_or marks.now k false ≡ true }
    ensures { IsFirst marks.now result }
{
    for place in from..marks.len() {
        if !marks[place] {
            return place;
        }
    }
    marks.len()
}
