//! Laws of the steps, for a reader: each function has an empty body, and its contract is the law.
//!
//! The rule and the views are ghosts. So what the contracts of [`Shelf`](crate::Shelf) say of a
//! pass means what these laws say. That no other kind of step is made is read in `src/words.rt`:
//! that file alone reaches the table.

ghost use Rattle.std.specs.Prelude.{◌≡◌};
ghost use Rattle.sz_shelf.specs.Terms.{ℕ, Table, first_view, Rules, WinsOrLoses, TakesStore};
ghost use Rattle.sz_shelf.specs.Terms.{CountsOne, GivesStoreBack, EndsTurn, LoadsCount, Splits};
ghost use Rattle.sz_shelf.specs.Terms.{Joins, Snapshot, TagParts};

use crate::rule::{
    Copies, Counts, GivesBack, Loads, OneAtATime, Releases, Takes, TakesBoth, Tries, View,
};
use crate::shelved::Shelved;
use crate::tag::TagParts;
use atomic_table::{Join, Play, Split, TableRule};
use std::snapshot::Snapshot;

/// What the table keeps between any two steps is the rule, and the first seat of a table has seen
/// nothing.
pub fn the_rule_is_kept()
    ensures rule { (key : Snapshot TagParts) (s : Table)
        → ⟦<OneAtATime as TableRule<Shelved, View, Snapshot<TagParts>>>⟧.holds key s
        → Rules key.value s }
    ensures first { (key : Snapshot TagParts)
        → ⟦<OneAtATime as TableRule<Shelved, View, Snapshot<TagParts>>>⟧.first key
        ≡ first_view key.value }
{}

/// A try is a compare-exchange of the flag, 0 for 1, which wins the turn or changes nothing.
pub fn tries_win_or_lose()
    ensures { WinsOrLoses ⟦<Tries as Play<Shelved, View>>⟧.then }
{}

/// A take is a load of the count, with which the store leaves its slot.
pub fn takes_have_the_store()
    ensures { TakesStore ⟦<Takes as Play<Shelved, View>>⟧.then }
{}

/// A count is a store to the count, of one piece more or of the seal.
pub fn counts_grow()
    ensures { CountsOne ⟦<Counts as Play<Shelved, View>>⟧.then }
{}

/// A give is a load of the count, with which the store goes back as the seat has seen it.
pub fn gives_bring_the_store_back()
    ensures { GivesStoreBack ⟦<GivesBack as Play<Shelved, View>>⟧.then }
{}

/// A release is a store of 0 to the flag, with which the turn ends.
pub fn releases_end_the_turn()
    ensures { EndsTurn ⟦<Releases as Play<Shelved, View>>⟧.then }
{}

/// A load of the count out of turn is counted, and sees the seal where there is one.
pub fn loads_see_the_seal()
    ensures { LoadsCount ⟦<Loads as Play<Shelved, View>>⟧.then }
{}

/// A split is counted, and adds a seat which knows the same and made no step. A join takes the
/// longer list and either seal, and adds the counts of both.
pub fn splits_and_joins()
    ensures splits { Splits ⟦<Copies as Split<View>>⟧.left ⟦<Copies as Split<View>>⟧.right }
    ensures joins { Joins ⟦<TakesBoth as Join<View>>⟧.both ⟦<TakesBoth as Join<View>>⟧.spent }
{}
