//! The flag, the count and the slot. Their table is in sight of this file alone, so these calls are
//! all the steps there are.
ghost use Rattle.std.specs.Prelude.{◌≡◌, ◌+◌, ◌<◌, ◌≤◌, ◌++◌, ◌∷◌, [], length, false, true, None};
ghost use Rattle.std.specs.Prelude.{Ok, All, IfOk, OnErr, IfSome, is_none, not};
ghost use Rattle.std.specs.Arc.{arc_value};
ghost use Rattle.sz_cells.specs.Cells.{has, with_those};
ghost use Rattle.sz_spec.specs.Modes.{is_listed, is_stored};
ghost use Rattle.sz_spec.specs.Sides.{near_side, far_side};
ghost use Rattle.sz_store.specs.Needed.{FitsAsNeeded};
ghost use Rattle.sz_frame.specs.Images.{measure_of};
ghost use Rattle.sz_shelf.specs.Tags.{StandsFor, tag_pieces, tag_image};
ghost use Rattle.sz_shelf.specs.Contents.{missing_in};
ghost use Rattle.sz_shelf.specs.Apart.{HasImages};
ghost use Rattle.sz_shelf.specs.Rule.{first_view, last_of, count_of, contents};
ghost use Rattle.sz_shelf.specs.Steps.{after_win, after_release, after_take, after_count};
ghost use Rattle.sz_shelf.specs.Steps.{after_load, after_split, parted_view, after_join, Grows};
ghost use Rattle.sz_shelf.specs.Turns.{IsIdle, Has, HasOut, HasTaken, Entered};
ghost use Rattle.sz_shelf.specs.Answers.{place_answer, seal_answer, look_answer};
ghost use Rattle.sz_shelf.specs.declared.answers.Placed.TheVariants.{New};
ghost use Rattle.sz_shelf.specs.declared.answers.SealReply.TheVariants.{Sealed as SealedNow};
ghost use Rattle.sz_shelf.specs.declared.rule.Stage.TheVariants.{StoreOut};

use crate::answers::{Look, Placed, SealReply};
use crate::rule::{
    Copies, Counts, GivesBack, Loads, OneAtATime, Releases, Takes, TakesBoth, Tries, View,
};
use crate::shelved::Shelved;
use crate::tag::TagParts;
use atomic_table::{Refused, Seat, Table};
use std::alloc::Global;
use std::marker::Model;
use std::snapshot::Snapshot;
use std::sync::{Arc, Wait};
use std::thread;
use sz_cells::{CellBits, NoMemory};
use sz_frame::PieceLineage;
use sz_spec::{Dir, Strategy};
use sz_store::NodeStore;

const FLAG: usize = 0;

const COUNT: usize = 1;

/// The flag, 0 while no seat has a turn; the count, of the placed pieces or one more than there are
/// pieces; and the slot of the store. Contracts see which table it is.
#[derive(Drop)]
pub struct Words {
    table: Table<Shelved, View, Snapshot<TagParts>, OneAtATime, Global>,
    /// The count once the store is sealed.
    last: u64,
    ghost sized: { (table.shared.table_id.words ≡ 2) × (table.shared.table_id.slots ≡ 1)
        × (last ≡ last_of table.shared.key.value) },
}

impl Model for Words {
    ghost use Rattle.sz_shelf.specs.Rule.{last_of};
    ghost use Rattle.sz_shelf.specs.Places.{ShelfPlace};

    ghost Value = { ShelfPlace };

    ghost view = { λ w. record {
      table = w.table.shared.table_id;
      tag = w.table.shared.key.value;
    } };
}

impl Words {
    /// The store is in its slot, and the first seat knows its tag.
    pub(crate) fn new(
        alloc: Global,
        store: Shelved,
        tag: &Snapshot<TagParts>,
    ) -> Result<(Words, Seat<Shelved, View>), NoMemory>
        requires { store ≡ contents tag.now.value [] false }
        ensures own { IfOk result (λ made. made.1.table_id ≡ made.0.table) }
        ensures tag { IfOk result (λ made. made.0.tag ≡ tag.now.value) }
        ensures seat { IfOk result (λ made. made.1.me ≡ (first_view tag.now.value, [])) }
    {
        let last = u64::from(store.pieces()) + 1;
        let mut slots = Vec::with_capacity(alloc, 1)?;
        slots.push_reserved(store);
        match Table::new(alloc, &[0, 0], slots, tag) {
            Ok((table, seat)) => Ok((Words { table, last }, seat)),
            Err(Refused { slots: _ }) => Err(NoMemory),
        }
    }

    /// One compare-exchange of the flag, by an idle seat. Whether it has the turn now.
    pub(crate) fn win(&self, seat: &mut Seat<Shelved, View>) -> bool
        requires own { seat.old.table_id ≡ self.now.table }
        requires idle { IsIdle seat.old.me }
        ensures own { seat.new.table_id ≡ seat.old.table_id }
        ensures won { result ≡ true → seat.new.me ≡ (after_win seat.old.me.0, []) }
        ensures lost { result ≡ false → seat.new.me ≡ seat.old.me }
    {
        self.table
            .shared
            .compare_exchange::<Tries>(seat, FLAG, 0, 1)
            == 0
    }

    /// One load of the count, by a seat that was idle and has won the turn. It has the store now.
    pub(crate) fn take(&self, seat: &mut Seat<Shelved, View>)
        requires own { seat.old.table_id ≡ self.now.table }
        requires won { (v : _) × (seat.old.me ≡ (after_win v, [])) }
        ensures own { seat.new.table_id ≡ seat.old.table_id }
        ensures has { HasTaken seat.old.me.0 seat.new.me }
    {
        self.table.shared.load::<Takes>(seat, COUNT);
    }

    /// One store to the count, of what was done to the store.
    pub(crate) fn count(&self, seat: &mut Seat<Shelved, View>, count: u64)
        requires own { seat.old.table_id ≡ self.now.table }
        requires turn { seat.old.me.0.stage ≡ StoreOut }
        requires unsealed { seat.old.me.0.saw ≡ false }
        requires grown { (c : _) × Has c seat.old.me × Grows seat.old.me.0 c
            × (count ≡ count_of seat.old.me.0.tag c.placed c.sealed) }
        ensures own { seat.new.table_id ≡ seat.old.table_id }
        ensures counted { (c : _) × Has c seat.old.me
            × (seat.new.me ≡ (after_count c seat.old.me.0, seat.old.me.1)) }
    {
        self.table.shared.store::<Counts>(seat, COUNT, count);
    }

    /// One load of the count, with which the store goes back to its slot.
    pub(crate) fn give(&self, seat: &mut Seat<Shelved, View>)
        requires own { seat.old.table_id ≡ self.now.table }
        requires turn { seat.old.me.0.stage ≡ StoreOut }
        requires seen { let v = seat.old.me.0 in Has (contents v.tag v.seen v.saw) seat.old.me }
        ensures own { seat.new.table_id ≡ seat.old.table_id }
        ensures gave { seat.new.me ≡ (after_win seat.old.me.0, []) }
    {
        self.table.shared.load::<GivesBack>(seat, COUNT);
    }

    /// One store to the flag. The turn has ended.
    pub(crate) fn release(&self, seat: &mut Seat<Shelved, View>)
        requires own { seat.old.table_id ≡ self.now.table }
        requires turn { (v : _) × (seat.old.me ≡ (after_win v, [])) }
        ensures own { seat.new.table_id ≡ seat.old.table_id }
        ensures ended { seat.new.me ≡ (after_release seat.old.me.0, []) }
    {
        self.table.shared.store::<Releases>(seat, FLAG, 0);
    }

    /// One load of the count, out of turn.
    fn look(&self, seat: &mut Seat<Shelved, View>) -> u64
        requires own { seat.old.table_id ≡ self.now.table }
        requires idle { IsIdle seat.old.me }
        ensures own { seat.new.table_id ≡ seat.old.table_id }
        ensures after { seat.new.me ≡ (after_load result seat.old.me.0, []) }
        ensures saw { seat.old.me.0.saw ≡ true → result ≡ last_of seat.old.me.0.tag }
    {
        self.table.shared.load::<Loads>(seat, COUNT)
    }

    /// Whether the store is sealed, by one load of the count, out of turn.
    pub(crate) fn is_last(&self, seat: &mut Seat<Shelved, View>) -> bool
        requires own { seat.old.table_id ≡ self.now.table }
        requires tag { seat.old.me.0.tag ≡ self.now.tag }
        requires idle { IsIdle seat.old.me }
        ensures own { seat.new.table_id ≡ seat.old.table_id }
        ensures after { seat.new.me ≡ (
          record seat.old.me.0 {
            loads = seat.old.me.0.loads + 1;
            saw = result;
          },
          [],
        ) }
        ensures saw { seat.old.me.0.saw ≡ true → result ≡ true }
    {
        self.look(seat) == self.last
    }

    /// One seat more, which knows what this one knows.
    pub(crate) fn split(&self, seat: &mut Seat<Shelved, View>) -> Seat<Shelved, View>
        requires own { seat.old.table_id ≡ self.now.table }
        requires idle { IsIdle seat.old.me }
        ensures own { seat.new.table_id ≡ seat.old.table_id }
        ensures also { result.table_id ≡ seat.old.table_id }
        ensures counted { seat.new.me ≡ (after_split seat.old.me.0, []) }
        ensures new { result.me ≡ (parted_view seat.old.me.0, []) }
    {
        self.table.shared.split_seat::<Copies>(seat)
    }

    /// The kept seat has the longer list, the seal bit of either and the sums of their counts.
    pub(crate) fn join(&self, kept: &mut Seat<Shelved, View>, spent: Seat<Shelved, View>)
        requires kept { (kept.old.table_id ≡ self.now.table) × IsIdle kept.old.me }
        requires spent { (spent.table_id ≡ self.now.table) × IsIdle spent.me }
        ensures own { kept.new.table_id ≡ kept.old.table_id }
        ensures both { kept.new.me ≡ (after_join kept.old.me.0 spent.me.0, []) }
    {
        self.table.shared.join_seat::<TakesBoth>(kept, spent);
    }

    /// Waits for the turn, and takes the store.
    pub(crate) fn enter<R: Wait>(&self, rt: &R, seat: &mut Seat<Shelved, View>)
        requires own { seat.old.table_id ≡ self.now.table }
        requires idle { IsIdle seat.old.me }
        ensures own { seat.new.table_id ≡ seat.old.table_id }
        ensures entered { Entered seat.old.me.0 seat.new.me.0 }
        ensures out { HasOut seat.new.me }
    {
        self.wait(rt, seat);
        self.take(seat);
    }

    /// Tries for the turn until it is won. Whoever waits lets other threads run.
    fn wait<R: Wait>(&self, rt: &R, seat: &mut Seat<Shelved, View>)
        requires own { seat.old.table_id ≡ self.now.table }
        requires idle { IsIdle seat.old.me }
        ensures own { seat.new.table_id ≡ seat.old.table_id }
        ensures won { seat.new.me ≡ (after_win seat.old.me.0, []) }
    {
        for _ in rt.forever() {
            if self.win(seat) {
                return;
            }
            thread::yield_now();
        }
        unreachable!()
    }

    /// Gives the store back, and ends the turn.
    pub(crate) fn leave(&self, seat: &mut Seat<Shelved, View>)
        requires own { seat.old.table_id ≡ self.now.table }
        requires out { HasOut seat.old.me }
        ensures own { seat.new.table_id ≡ seat.old.table_id }
        ensures left { seat.new.me ≡ (after_release seat.old.me.0, []) }
    {
        self.give(seat);
        self.release(seat);
    }

    /// In a turn: places the lineage of a piece, where the store is not sealed and has it not. Each
    /// of its region pairs has the images of an output cell where `images`.
    pub(crate) fn place(
        &self,
        seat: &mut Seat<Shelved, View>,
        lineage: &PieceLineage,
        images: bool,
    ) -> Result<Placed, NoMemory>
        requires own { seat.old.table_id ≡ self.now.table }
        requires out { HasOut seat.old.me }
        requires piece { lineage.now.piece < tag_pieces seat.old.me.0.tag }
        requires fits { let t = seat.old.me.0.tag in
            FitsAsNeeded (measure_of t.site t.inputs) t.list lineage.now.piece lineage.now }
        requires images { let t = seat.old.me.0.tag in
            images ≡ true → All (HasImages t.site t.inputs) lineage.now.regions }
        ensures own { seat.new.table_id ≡ seat.old.table_id }
        ensures out { HasOut seat.new.me }
        ensures answer { let v = seat.old.me.0 in
            IfOk result (λ p. p ≡ place_answer lineage.now.piece v.seen v.saw) }
        ensures new { let v = seat.old.me.0 in result ≡ Ok New
            → seat.new.me.0 ≡ record v { seen = v.seen ++ lineage.now.piece ∷ [] } }
        ensures other { ¬ (result ≡ Ok New) → seat.new.me.0 ≡ seat.old.me.0 }
    {
        let store = seat.slot_mut(&self.table.shared, 0);
        if store.is_sealed() {
            return Ok(Placed::Sealed);
        }
        if store.has(lineage.piece()) {
            return Ok(Placed::Already);
        }
        store.place(lineage, images)?;
        let count = store.count();
        self.count(seat, u64::from(count));
        Ok(Placed::New)
    }

    /// In a turn: seals the store, where every piece is placed.
    pub(crate) fn seal(&self, seat: &mut Seat<Shelved, View>) -> SealReply
        requires own { seat.old.table_id ≡ self.now.table }
        requires out { HasOut seat.old.me }
        requires whole { let v = seat.old.me.0 in
            v.saw ≡ true → missing_in (tag_pieces v.tag) v.seen ≡ None }
        ensures own { seat.new.table_id ≡ seat.old.table_id }
        ensures out { HasOut seat.new.me }
        ensures answer { let v = seat.old.me.0 in
            result ≡ seal_answer (tag_pieces v.tag) v.seen }
        ensures sealed { result ≡ SealedNow
            → seat.new.me.0 ≡ record seat.old.me.0 { saw = true } }
        ensures missing { ¬ (result ≡ SealedNow) → seat.new.me.0 ≡ seat.old.me.0 }
    {
        let store = seat.slot_mut(&self.table.shared, 0);
        let pieces = store.pieces();
        let missing = store.missing();
        if missing < pieces {
            return SealReply::Missing(missing);
        }
        if !store.is_sealed() {
            store.seal();
            self.count(seat, u64::from(pieces) + 1);
        }
        SealReply::Sealed
    }

    /// In a turn: adds the image of a set of cells, where the store is sealed.
    pub(crate) fn image(
        &self,
        seat: &mut Seat<Shelved, View>,
        strategy: Strategy,
        dir: Dir,
        input: u32,
        from: &CellBits,
        to: &mut CellBits,
    ) -> Look
        requires own { seat.old.table_id ≡ self.now.table }
        requires out { HasOut seat.old.me }
        requires listed { is_listed seat.old.me.0.tag.list strategy ≡ true }
        requires stored { is_stored strategy ≡ true }
        requires input { input < length seat.old.me.0.tag.site.ins }
        requires from { from.now.extent ≡ near_side dir seat.old.me.0.tag.site input }
        requires to { to.old.extent ≡ far_side dir seat.old.me.0.tag.site input }
        ensures own { seat.new.table_id ≡ seat.old.table_id }
        ensures same { seat.new.me ≡ seat.old.me }
        ensures answer { let v = seat.old.me.0 in
            result ≡ look_answer strategy (tag_pieces v.tag) v.seen v.saw }
        ensures done { seat.old.me.0.saw ≡ true → to.new
            ≡ with_those to.old (has (tag_image dir seat.old.me.0.tag input from.now)) }
        ensures unsealed { seat.old.me.0.saw ≡ false → to.new ≡ to.old }
    {
        let store = seat.slot_mut(&self.table.shared, 0);
        let sealed = store.is_sealed();
        if sealed {
            let read = store.image(strategy, dir, input, from, to);
            Look::Done(read)
        } else {
            Look::Unsealed {
                missing: store.missing(),
            }
        }
    }

    /// In a turn: a share of the store, where it is sealed.
    pub(crate) fn share(
        &self,
        seat: &mut Seat<Shelved, View>,
        alloc: Global,
    ) -> Result<Option<Arc<NodeStore>>, NoMemory>
        requires own { seat.old.table_id ≡ self.now.table }
        requires out { HasOut seat.old.me }
        ensures own { seat.new.table_id ≡ seat.old.table_id }
        ensures same { seat.new.me ≡ seat.old.me }
        ensures none { IfOk result (λ given. is_none given ≡ not seat.old.me.0.saw) }
        ensures stands { IfOk result (λ given. IfSome given
            (λ a. StandsFor seat.old.me.0.tag (arc_value a))) }
    {
        let store = seat.slot_mut(&self.table.shared, 0);
        if !store.is_sealed() {
            return Ok(None);
        }
        let shared = store.share(alloc)?;
        Ok(Some(shared))
    }

    /// In a turn: puts another store in place of a sealed one.
    pub(crate) fn swap(&self, seat: &mut Seat<Shelved, View>, store: Arc<NodeStore>)
        requires own { seat.old.table_id ≡ self.now.table }
        requires out { HasOut seat.old.me }
        requires sealed { seat.old.me.0.saw ≡ true }
        requires stands { StandsFor seat.old.me.0.tag (arc_value store) }
        ensures own { seat.new.table_id ≡ seat.old.table_id }
        ensures same { seat.new.me ≡ seat.old.me }
    {
        let old = seat.slot_mut(&self.table.shared, 0);
        old.swap(store);
    }
}
