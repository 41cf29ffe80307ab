//! What a seat knows, the rule that ties it to the words, and the four kinds of step: a try, a
//! look, a split, a join.
ghost use Rattle.std.specs.Prelude.{◌+◌};
ghost use Rattle.sz_claims.specs.Terms.{IsKept, IsTry, IsLook, empty_view, after_split, after_join};

use atomic_table::{Join, Play, Split, TableRule};
use std::collections::LinkedList;

// What a seat knows. No value of it is made.
pub struct View {
    pub claimed: LinkedList<u32>,
    pub met: LinkedList<u32>,
    pub found: Option<u64>,
    pub tries: u64,
    pub looks: u64,
    pub splits: u64,
    pub depth: u64,
}

// The key is the number of pieces.
pub struct OnePassEach;

impl TableRule<(), View, usize> for OnePassEach {
    ghost holds = { IsKept };

    ghost first = { λ _. empty_view 0 };
}

// One compare-exchange of 0 for 1, a win or a loss.
pub struct Tries;

impl Play<(), View> for Tries {
    ghost then = { IsTry };
}

// One load, which changes nothing but the number of looks.
pub struct Looks;

impl Play<(), View> for Looks {
    ghost then = { λ st m _ n. IsLook st m n };
}

// The seat that is split counts it and stays else as it is, and the new one, one split deeper,
// knows nothing.
pub struct StartsEmpty;

impl Split<View> for StartsEmpty {
    ghost left = { after_split };

    ghost right = { λ v. empty_view (v.depth + 1) };
}

// The kept seat has the lists of both and the sums of their counts, and the spent one knows nothing
// any more.
pub struct TakesBoth;

impl Join<View> for TakesBoth {
    ghost both = { after_join };

    ghost spent = { empty_view 1 };
}
