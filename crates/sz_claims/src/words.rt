//! The row of words, one a piece. Its table is in sight of this file alone, so these calls are all
//! the steps there are.
ghost use Rattle.std.specs.Prelude.{◌≡◌, ◌+◌, ◌<◌, ◌≤◌, ◌≢◌, [], IfOk, Contains};
ghost use Rattle.sz_claims.specs.Rule.{HasNoRepeats, empty_view, after_win, after_loss, after_look};
ghost use Rattle.sz_claims.specs.Rule.{after_split, after_join};

use crate::NoMemory;
use crate::rule::{Looks, OnePassEach, StartsEmpty, TakesBoth, Tries, View};
use atomic_table::{Seat, Table};
use std::alloc::Global;
use std::marker::Model;

// A word for each piece: 0 while the piece is free, 1 once it is claimed. Contracts see which table
// it is.
#[derive(Drop)]
pub struct Words {
    table: Table<(), View, usize, OnePassEach, Global>,
    ghost sized: { (table.shared.key ≡ table.shared.table_id.words)
        × (0 < table.shared.table_id.words) },
}

impl Model for Words {
    ghost use Rattle.atomic_table.specs.Seated.{TableId};

    ghost Value = { TableId };

    ghost view = { λ w. w.table.shared.table_id };
}

impl Words {
    // All pieces are free, and the first seat knows nothing.
    pub(crate) fn new(alloc: Global, pieces: u32) -> Result<(Words, Seat<(), View>), NoMemory>
        requires { 1 ≤ pieces }
        ensures own { IfOk result (λ made. made.1.table_id ≡ made.0) }
        ensures pieces { IfOk result (λ made. made.0.words ≡ pieces) }
        ensures seat { IfOk result (λ made. made.1.me ≡ (empty_view 0, [])) }
    {
        let count = pieces as usize;
        let words = Vec::from_elem(alloc, 0, count)?;
        let (table, seat) = Table::of_words(alloc, &words, &count)?;
        Ok((Words { table }, seat))
    }

    // One compare-exchange of 0 for 1. Returns the word that it found.
    pub(crate) fn exchange(&self, seat: &mut Seat<(), View>, piece: u32) -> u64
        requires own { seat.old.table_id ≡ self.now }
        requires inside { piece < self.now.words }
        ensures own { seat.new.table_id ≡ seat.old.table_id }
        ensures win { result ≡ 0 → seat.new.me ≡ (after_win piece seat.old.me.0, seat.old.me.1) }
        ensures loss { result ≢ 0 → seat.new.me ≡ (after_loss piece seat.old.me.0, seat.old.me.1) }
        ensures claimed { result ≢ 0 → result ≡ 1 }
        ensures unclaimed { result ≡ 0 → ¬ Contains seat.old.me.0.claimed piece }
        ensures unmet { result ≡ 0 → ¬ Contains seat.old.me.0.met piece }
        ensures alone { seat.old.me.0.depth ≡ 0 → seat.old.me.0.splits ≡ 0
            → ¬ Contains seat.old.me.0.claimed piece → result ≡ 0 }
    {
        self.table
            .shared
            .compare_exchange::<Tries>(seat, piece as usize, 0, 1)
    }

    // One load, of the first word. It tells that the seat has each of its pieces once.
    pub(crate) fn look(&self, seat: &mut Seat<(), View>)
        requires { seat.old.table_id ≡ self.now }
        ensures own { seat.new.table_id ≡ seat.old.table_id }
        ensures same { seat.new.me ≡ (after_look seat.old.me.0, seat.old.me.1) }
        ensures once { HasNoRepeats seat.old.me.0.claimed }
    {
        self.table.shared.load::<Looks>(seat, 0);
    }

    // One more seat, which knows nothing.
    pub(crate) fn split(&self, seat: &mut Seat<(), View>) -> Seat<(), View>
        requires { seat.old.table_id ≡ self.now }
        ensures own { seat.new.table_id ≡ seat.old.table_id }
        ensures also { result.table_id ≡ seat.old.table_id }
        ensures counted { seat.new.me ≡ (after_split seat.old.me.0, seat.old.me.1) }
        ensures empty { result.me ≡ (empty_view (seat.old.me.0.depth + 1), []) }
    {
        self.table.shared.split_seat::<StartsEmpty>(seat)
    }

    // The kept seat has the lists of both, and the sums of their counts.
    pub(crate) fn join(&self, kept: &mut Seat<(), View>, spent: Seat<(), View>)
        requires kept { kept.old.table_id ≡ self.now }
        requires spent { (spent.table_id ≡ self.now) × (spent.me.1 ≡ []) }
        ensures own { kept.new.table_id ≡ kept.old.table_id }
        ensures both { kept.new.me ≡ (after_join kept.old.me.0 spent.me.0, kept.old.me.1) }
    {
        self.table.shared.join_seat::<TakesBoth>(kept, spent);
    }
}
