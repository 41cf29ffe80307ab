//! A shelf, and the calls by which passes use it.

ghost use Rattle.std.specs.Prelude.{◌≡◌, ◌+◌, ◌<◌, ◌++◌, ◌∷◌, ◌||◌};
ghost use Rattle.sz_shelf.specs.Terms.{[], length, map, true, false, not, Ok, Some, IfOk, OnOk};
ghost use Rattle.sz_shelf.specs.Terms.{OnErr, IfSome, is_none, Option, All, option_map, option_or};
ghost use Rattle.sz_shelf.specs.Terms.{arc_value, has, with_those, is_listed, is_stored, near_side};
ghost use Rattle.sz_shelf.specs.Terms.{far_side, FitsAsNeeded, measure_of, place_reply};
ghost use Rattle.sz_shelf.specs.Terms.{after_place, seal_reply, after_seal, look_reply, after_look};
ghost use Rattle.sz_shelf.specs.Terms.{found_shelf, left_shelf, first_step, told_of_place};
ghost use Rattle.sz_shelf.specs.Terms.{told_of_seal, told_of_look, IsTag, StandsFor, tag_pieces};
ghost use Rattle.sz_shelf.specs.Terms.{tag_image, HasImages, longer, TookTurn, newcomer, place_of};
ghost use Rattle.sz_shelf.specs.Terms.{with_split, split_off, place_answer, seal_answer};
ghost use Rattle.sz_shelf.specs.Terms.{look_answer, read_by, New, SealedNow};

use crate::answers::{Look, Placed, SealReply};
use crate::pass::Pass;
use crate::shelved::Shelved;
use crate::tag::TagParts;
use crate::words::Words;
use std::alloc::Global;
use std::marker::Model;
use std::snapshot::Snapshot;
use std::sync::{Arc, Wait};
use sz_cells::laws::a_bitmap_is_its_cells;
use sz_cells::{CellBits, NoMemory};
use sz_frame::PieceLineage;
use sz_spec::{Array, Dir, OpAt, Strategy};
use sz_store::NodeStore;

/// The shared store of one operator of one version. Contracts see which one it is, and its
/// tag.
#[derive(Drop)]
pub struct Shelf {
    words: Words,
}

impl Model for Shelf {
    ghost use Rattle.sz_shelf.specs.Places.{ShelfPlace};

    ghost Value = { ShelfPlace };

    ghost view = { λ s. s.words };
}

impl Shelf {
    /// A shelf on which nothing is placed, and its first pass. The arrays are handed in for the tag
    /// alone, and are not kept.
    pub fn make(
        alloc: Global,
        at: Arc<OpAt>,
        inputs: &[Arc<Array>],
        list: &[Strategy],
    ) -> Result<(Arc<Shelf>, Pass), NoMemory>
        requires { IsTag record {
          site = arc_value at;
          inputs = map (λ a. arc_value a) inputs.now;
          list = list.now;
        } }
        ensures pass { IfOk result (λ made. made.1 ≡ newcomer (arc_value made.0)) }
        ensures tag { IfOk result (λ made. (arc_value made.0).tag ≡ record {
          site = arc_value at;
          inputs = map (λ a. arc_value a) inputs.now;
          list = list.now;
        }) }
    {
        let tag = TagParts::of(alloc, &at, inputs, list)?;
        let mark = Snapshot::of(&tag);
        let store = Shelved::new(alloc, tag)?;
        let (words, seat) = Words::new(alloc, store, &mark)?;
        let shelf = Arc::new(alloc, Shelf { words })?;
        Ok((shelf, Pass { seat, kept: None }))
    }

    /// One pass more, which has seen and keeps the same and made no step. The pass that it is split
    /// off counts it. Where there is no memory, none is.
    pub fn split(&self, pass: &mut Pass) -> Result<Pass, NoMemory>
        requires { place_of pass.old ≡ self.now }
        ensures counted { OnOk result (pass.new ≡ with_split pass.old) }
        ensures err { OnErr result (pass.new ≡ pass.old) }
        ensures new { IfOk result (λ p. p ≡ split_off pass.old) }
    {
        let kept = match &pass.kept {
            Some(kept) => Some(Arc::try_clone(kept)?),
            None => None,
        };
        let seat = self.words.split(&mut pass.seat);
        Ok(Pass { seat, kept })
    }

    /// Puts the second pass into the first, which has then seen the longer list and the seal that
    /// either saw, and keeps what it kept, or else what the second did. The counts of both are
    /// added up, so that no turn, load or split of either is lost.
    pub fn join(&self, into: &mut Pass, from: Pass)
        requires into { place_of into.old ≡ self.now }
        requires from { place_of from ≡ self.now }
        ensures { into.new ≡ record into.old {
          seen = longer into.old.seen from.seen;
          saw = into.old.saw || from.saw;
          turns = into.old.turns + from.turns;
          loads = into.old.loads + from.loads;
          splits = into.old.splits + from.splits;
          kept = option_or into.old.kept from.kept;
        } }
    {
        let Pass { seat, kept } = from;
        self.words.join(&mut into.seat, seat);
        if into.kept.is_none() {
            into.kept = kept;
        }
    }

    /// Places the lineage of a piece, in one turn: also where there is no memory for it, when the
    /// store is as before.
    pub fn place<R: Wait>(
        &self,
        rt: &R,
        pass: &mut Pass,
        lineage: &PieceLineage,
    ) -> Result<Placed, NoMemory>
        requires own { place_of pass.old ≡ self.now }
        requires piece { lineage.now.piece < tag_pieces pass.old.tag }
        requires fits { let t = pass.old.tag in
            FitsAsNeeded (measure_of t.site t.inputs) t.list lineage.now.piece lineage.now }
        ensures turn { TookTurn pass.old pass.new }
        ensures kept { pass.new.kept ≡ pass.old.kept }
        ensures answer { IfOk result
            (λ p. p ≡ place_answer lineage.now.piece pass.new.found pass.new.found_sealed) }
        ensures new { result ≡ Ok New
            → pass.new.seen ≡ pass.new.found ++ lineage.now.piece ∷ [] }
        ensures other { ¬ (result ≡ Ok New) → pass.new.seen ≡ pass.new.found }
        ensures saw { pass.new.saw ≡ pass.new.found_sealed }
        ensures told { IfOk result (λ p. told_of_place p
            ≡ place_reply lineage.now.piece (found_shelf pass.new)) }
        ensures left { IfOk result (λ _.
            left_shelf pass.new ≡ after_place lineage.now.piece (found_shelf pass.new)) }
    {
        self.place_as(rt, pass, lineage, false)
    }

    /// As [`Shelf::place`]. Where `images`, each region pair has the images of an output cell: of
    /// each input all cells to which that is related. A store of `regions` that was given such
    /// alone tells a set by its first cell, so that pieces that name one large set cost little;
    /// else its runs are compared.
    pub fn place_as<R: Wait>(
        &self,
        rt: &R,
        pass: &mut Pass,
        lineage: &PieceLineage,
        images: bool,
    ) -> Result<Placed, NoMemory>
        requires own { place_of pass.old ≡ self.now }
        requires piece { lineage.now.piece < tag_pieces pass.old.tag }
        requires fits { let t = pass.old.tag in
            FitsAsNeeded (measure_of t.site t.inputs) t.list lineage.now.piece lineage.now }
        requires images { let t = pass.old.tag in
            images ≡ true → All (HasImages t.site t.inputs) lineage.now.regions }
        ensures turn { TookTurn pass.old pass.new }
        ensures kept { pass.new.kept ≡ pass.old.kept }
        ensures answer { IfOk result
            (λ p. p ≡ place_answer lineage.now.piece pass.new.found pass.new.found_sealed) }
        ensures new { result ≡ Ok New
            → pass.new.seen ≡ pass.new.found ++ lineage.now.piece ∷ [] }
        ensures other { ¬ (result ≡ Ok New) → pass.new.seen ≡ pass.new.found }
        ensures saw { pass.new.saw ≡ pass.new.found_sealed }
        ensures told { IfOk result (λ p. told_of_place p
            ≡ place_reply lineage.now.piece (found_shelf pass.new)) }
        ensures left { IfOk result (λ _.
            left_shelf pass.new ≡ after_place lineage.now.piece (found_shelf pass.new)) }
    {
        self.words.enter(rt, &mut pass.seat);
        let placed = self.words.place(&mut pass.seat, lineage, images);
        self.words.leave(&mut pass.seat);
        placed
    }

    /// Seals the store, in one turn, where every piece is placed. No memory.
    pub fn seal<R: Wait>(&self, rt: &R, pass: &mut Pass) -> SealReply
        requires own { place_of pass.old ≡ self.now }
        ensures turn { TookTurn pass.old pass.new }
        ensures kept { pass.new.kept ≡ pass.old.kept }
        ensures answer { result ≡ seal_answer (tag_pieces pass.new.tag) pass.new.found }
        ensures seen { pass.new.seen ≡ pass.new.found }
        ensures sealed { result ≡ SealedNow → pass.new.saw ≡ true }
        ensures missing { ¬ (result ≡ SealedNow) → pass.new.saw ≡ pass.new.found_sealed }
        ensures again { pass.old.saw ≡ true → result ≡ SealedNow }
        ensures told { told_of_seal result ≡ seal_reply (found_shelf pass.new) }
        ensures left { left_shelf pass.new ≡ after_seal (found_shelf pass.new) }
    {
        self.words.enter(rt, &mut pass.seat);
        let sealed = self.words.seal(&mut pass.seat);
        self.words.leave(&mut pass.seat);
        sealed
    }

    /// Adds the image of a set of cells by the store of a strategy, in one turn, where the store is
    /// sealed: backward the cells of the input that those of the output depend on, forward those
    /// that depend on these. Which store was read is told. No memory.
    pub fn look<R: Wait>(
        &self,
        rt: &R,
        pass: &mut Pass,
        s: Strategy,
        dir: Dir,
        input: u32,
        from: &CellBits,
        to: &mut CellBits,
    ) -> Look
        requires own { place_of pass.old ≡ self.now }
        requires listed { is_listed pass.old.tag.list s ≡ true }
        requires stored { is_stored s ≡ true }
        requires input { input < length pass.old.tag.site.ins }
        requires from { from.now.extent ≡ near_side dir pass.old.tag.site input }
        requires to { to.old.extent ≡ far_side dir pass.old.tag.site input }
        ensures turn { TookTurn pass.old pass.new }
        ensures kept { pass.new.kept ≡ pass.old.kept }
        ensures answer { let q = pass.new in
            result ≡ look_answer s (tag_pieces q.tag) q.found q.found_sealed }
        ensures done { result ≡ read_by s → to.new
            ≡ with_those to.old (has (tag_image dir pass.old.tag input from.now)) }
        ensures cells { let ask = first_step dir input from.now in result ≡ read_by s → to.new
            ≡ with_those to.old (has (after_look (found_shelf pass.new ∷ []) ask).cells) }
        ensures unsealed { ¬ (result ≡ read_by s) → to.new ≡ to.old }
        ensures seen { pass.new.seen ≡ pass.new.found }
        ensures saw { pass.new.saw ≡ pass.new.found_sealed }
        ensures never { pass.old.saw ≡ true → result ≡ read_by s }
        ensures told { told_of_look result ≡ look_reply (found_shelf pass.new ∷ [])
            (first_step dir input from.now) }
    {
        a_bitmap_is_its_cells(from);
        self.words.enter(rt, &mut pass.seat);
        let look = self.words.image(&mut pass.seat, s, dir, input, from, to);
        self.words.leave(&mut pass.seat);
        look
    }

    /// Whether the store is sealed, by one load. No turn, no memory, no waiting.
    pub fn sealed_now(&self, pass: &mut Pass) -> bool
        requires { place_of pass.old ≡ self.now }
        ensures counted { pass.new ≡ record pass.old {
          loads = pass.old.loads + 1;
          saw = result;
        } }
        ensures never { pass.old.saw ≡ true → result ≡ true }
    {
        self.words.is_last(&mut pass.seat)
    }

    /// A share of the store, in one turn, where it is sealed. The first one makes the store such
    /// that it can be shared, later ones give the same. The pass keeps what it is given. Where
    /// there is no memory, the store is as before, and the turn is taken.
    pub fn store_of<R: Wait>(
        &self,
        alloc: Global,
        rt: &R,
        pass: &mut Pass,
    ) -> Result<Option<Arc<NodeStore>>, NoMemory>
        requires own { place_of pass.old ≡ self.now }
        ensures turn { TookTurn pass.old pass.new }
        ensures none { IfOk result (λ given. is_none given ≡ not pass.new.found_sealed) }
        ensures stands { IfOk result (λ given. IfSome given
            (λ a. StandsFor pass.new.tag (arc_value a))) }
        ensures kept { IfOk result (λ given. pass.new.kept
            ≡ option_or (option_map (λ a. arc_value a) given) pass.old.kept) }
        ensures err { OnErr result (pass.new.kept ≡ pass.old.kept) }
        ensures seen { pass.new.seen ≡ pass.new.found }
        ensures saw { pass.new.saw ≡ pass.new.found_sealed }
    {
        self.words.enter(rt, &mut pass.seat);
        let given = self.words.share(&mut pass.seat, alloc);
        self.words.leave(&mut pass.seat);
        let given = given?;
        pass.keep(&given)?;
        Ok(given)
    }

    /// Puts another store that stands for the same in place of the sealed one, in one turn. No
    /// memory. What passes keep stays theirs.
    pub fn swap<R: Wait>(&self, rt: &R, pass: &mut Pass, store: Arc<NodeStore>)
        requires own { place_of pass.old ≡ self.now }
        requires saw { pass.old.saw ≡ true }
        requires stands { StandsFor pass.old.tag (arc_value store) }
        ensures turn { TookTurn pass.old pass.new }
        ensures kept { pass.new.kept ≡ pass.old.kept }
        ensures seen { pass.new.seen ≡ pass.new.found }
        ensures saw { pass.new.saw ≡ pass.new.found_sealed }
    {
        self.words.enter(rt, &mut pass.seat);
        self.words.swap(&mut pass.seat, store);
        self.words.leave(&mut pass.seat);
    }
}
