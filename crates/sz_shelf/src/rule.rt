//! What a seat knows, the rule that ties it to the words and to the slot, and the kinds of step.
ghost use Rattle.sz_shelf.specs.Terms.{IsKept, first_view, spent_view, IsTry, IsTaking, IsCounting};
ghost use Rattle.sz_shelf.specs.Terms.{IsGiving, IsReleasing, IsLoad, after_split, parted_view};
ghost use Rattle.sz_shelf.specs.Terms.{after_join};

use crate::shelved::Shelved;
use crate::tag::TagParts;
use atomic_table::{Join, Play, Split, TableRule};
use std::collections::LinkedList;
use std::snapshot::Snapshot;

/// How far a seat is in a turn, or that it was joined to another.
pub enum Stage {
    /// It has no turn.
    Idle,
    /// It has a turn, and the store is in its slot.
    InTurn,
    /// It has a turn and the store.
    StoreOut,
    /// It was joined to another seat, and knows nothing any more.
    Spent,
}

/// What a seat knows. No value of it is made.
pub struct View {
    pub tag: TagParts,
    pub seen: LinkedList<u32>,
    pub saw: bool,
    pub stage: Stage,
    pub turns: u64,
    pub loads: u64,
    pub splits: u64,
    pub found: LinkedList<u32>,
    pub found_sealed: bool,
}

/// The key is the tag.
pub struct OneAtATime;

impl TableRule<Shelved, View, Snapshot<TagParts>> for OneAtATime {
    ghost holds = { λ key. IsKept key.value };

    ghost first = { λ key. first_view key.value };
}

/// A compare-exchange of the flag, 0 for 1: the turn is won, or is another's.
pub struct Tries;

impl Play<Shelved, View> for Tries {
    ghost then = { IsTry };
}

/// A load of the count, with which the store leaves its slot.
pub struct Takes;

impl Play<Shelved, View> for Takes {
    ghost then = { IsTaking };
}

/// A store to the count, of a piece more or of the seal.
pub struct Counts;

impl Play<Shelved, View> for Counts {
    ghost then = { λ st m _ n. IsCounting st m n };
}

/// A load of the count, with which the store goes back to its slot.
pub struct GivesBack;

impl Play<Shelved, View> for GivesBack {
    ghost then = { λ st m _ n. IsGiving st m n };
}

/// A store of 0 to the flag: the turn ends.
pub struct Releases;

impl Play<Shelved, View> for Releases {
    ghost then = { λ st m _ n. IsReleasing st m n };
}

/// A load of the count, out of turn.
pub struct Loads;

impl Play<Shelved, View> for Loads {
    ghost then = { IsLoad };
}

/// The seat that is split counts it and stays else as it is, and the new one knows the same and
/// made no step.
pub struct Copies;

impl Split<View> for Copies {
    ghost left = { after_split };

    ghost right = { parted_view };
}

/// The kept seat has the longer list, the seal bit of either and the sums of their counts, and the
/// spent one knows nothing.
pub struct TakesBoth;

impl Join<View> for TakesBoth {
    ghost both = { after_join };

    ghost spent = { spent_view };
}
