//! Laws of the steps, for a reader: each function has an empty body, and its contract is the law.
ghost use Rattle.std.specs.Prelude.{◌≡◌};
ghost use Rattle.sz_claims.specs.Terms.{ℕ, View, Table, IsKept, WordsTell, KnowsNothing};
ghost use Rattle.sz_claims.specs.Terms.{IsExchangeOnly, WinsOrLoses, IsOnlyCounted, SplitsOff};
ghost use Rattle.sz_claims.specs.Terms.{AddsBothUp, NoneLosesFree, NoneWinsClaimed};

use crate::rule::{Looks, OnePassEach, StartsEmpty, TakesBoth, Tries, View};
use atomic_table::{Join, Play, Split, TableRule};

/// What the table keeps between any two steps is the rule, and the first seat of a table knows
/// nothing.
pub fn the_rule_is_kept()
    ensures rule { (pieces : ℕ) (s : Table)
        → ⟦<OnePassEach as TableRule<(), View, usize>>⟧.holds pieces s → IsKept pieces s }
    ensures first { (pieces : ℕ)
        → KnowsNothing 0 (⟦<OnePassEach as TableRule<(), View, usize>>⟧.first pieces) }
{}

/// Where the rule holds, a word tells who claimed its piece: one seat, once, where it is 1, and
/// none where it is 0.
pub fn words_tell_who_claimed()
    ensures { (pieces : ℕ) (s : Table) → IsKept pieces s → WordsTell pieces s }
{}

/// A try is a compare-exchange of 0 for 1, which wins the piece or loses it.
pub fn tries_win_or_lose()
    ensures exchange { IsExchangeOnly ⟦<Tries as Play<(), View>>⟧.then }
    ensures changes { WinsOrLoses ⟦<Tries as Play<(), View>>⟧.then }
{}

/// A look changes nothing but its number.
pub fn looks_are_only_counted()
    ensures { IsOnlyCounted ⟦<Looks as Play<(), View>>⟧.then }
{}

/// A split is counted and changes nothing else of its seat, and adds a seat that knows nothing.
pub fn splits_add_a_seat()
    ensures { SplitsOff ⟦<StartsEmpty as Split<View>>⟧.left ⟦<StartsEmpty as Split<View>>⟧.right }
{}

/// A join puts the lists of the spent seat behind those of the kept one, and adds the tries, looks
/// and splits of both. So what a seat did is still told once it is joined.
pub fn joins_add_up()
    ensures { AddsBothUp ⟦<TakesBoth as Join<View>>⟧.both ⟦<TakesBoth as Join<View>>⟧.spent }
{}

/// Whatever kind of step is made, by whatever code: one that keeps the rule finds claimed what it
/// loses, and takes from 0 to 1 the word of what it wins.
pub fn no_step_loses_a_free_piece()
    ensures lost { NoneLosesFree }
    ensures won { NoneWinsClaimed }
{}
