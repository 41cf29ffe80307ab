//! Claims on pieces, without a lock: several threads share out numbered pieces of work, and no
//! piece goes to two of them.
//!
//! A [`Claims`] is a row of words, one for each piece, 0 while it is free and 1 once it is claimed.
//! A [`ClaimPass`] is the right to claim pieces of one such table, and takes no bytes. Contracts
//! see in it which pieces it claimed and which it met claimed, each in the order of its claims.
//! They see the word that its last claim found, how many compare-exchanges (`tries`), looks and
//! splits it and the passes joined into it made, and its `depth`, the number of splits between the
//! first pass and it.
//!
//! - `Claims::new` makes a table and its first pass, which has no piece and made no step.
//! - `claim` is one compare-exchange. It takes no memory and waits for nobody. True: this step took
//!   the free piece. False: this step found the piece claimed, be it by this pass or by another.
//! - `split` makes one more pass, for one more thread.
//! - `join` puts a pass into another, once its thread is done. No piece was in the lists of both,
//!   and the counts of both are added up.
//!
//! A worker claims each piece and does what it won:
//!
//! ```text
//! let (claims, mut mine) = Claims::new(alloc, 3)?;
//! let mut theirs = claims.split(&mut mine);
//! claims.claim(&mut mine, 0);      // true:  mine has claimed 0
//! claims.claim(&mut theirs, 0);    // false: theirs has met 0
//! claims.claim(&mut theirs, 2);    // true:  theirs has claimed 2
//! claims.join(&mut mine, theirs);  // mine has claimed 0 and 2, and met 0
//! ```
//!
//! # What is proved of the steps
//!
//! [`laws`] says it in public clauses:
//!
//! - Between any two steps a word is the number of times that its piece stands in the lists of
//!   claimed pieces of all passes, and it is 0 or 1. So a claimed piece is in the list of one pass,
//!   once, and a free one in none. A piece that a pass met is claimed. A first pass that was never
//!   split is alone.
//! - A try is a compare-exchange of 0 for 1, won or lost. A look, a split and a join change no
//!   word. Each kind of step says what it changes of the pass that makes it, and leaves all other
//!   passes.
//! - No step of any kind that keeps the rule loses a free piece, or wins a claimed one.
//!
//! So a `claim` that is false found the piece claimed, and a pass that is alone wins each piece
//! that it has not claimed. That `claim` makes one try and nothing else is a clause, since each
//! call by which it can reach the words is counted.
//!
//! # What is not
//!
//! - A lost compare-exchange changes nothing, so no clause can tell it from a load that finds 1. A
//!   try says by which operands it is made, so no other call makes one. That no further kind of
//!   step is made beside the four, and no load that tells the pass nothing, is read in
//!   `src/words.rt`: it alone reaches the table, by five calls of a line or two. A split and a join
//!   each load a word for the step, which is not counted.
//! - Of several passes nothing is said of who wins a piece, nor that any does, nor that a thread
//!   gets on.
//! - A pass that is dropped keeps its pieces, which nobody can claim again, and its counts are
//!   told nowhere else: only a join adds them up.
//!
//! A loop that claims piece after piece keeps that each piece so far is claimed or met.
//! `reach-next` in `proofs/Reach.antt` is the lemma for its step.
//!
//! To whoever changes this crate: `src/rule.rt` has the kinds of step, `specs/Rule.antt` what they
//! tell, `specs/Changes.antt` and `specs/Owners.antt` what the laws say of them, and
//! `proofs/Steps.antt` one lemma for each. A join ends with a look, since the step that joins
//! cannot tell its caller what the rule says.
#![tactic(auto)]

ghost use Rattle.std.specs.Prelude.{◌≡◌, ◌<◌, ◌≤◌, ◌+◌, ◌∷◌, ◌++◌};
ghost use Rattle.sz_claims.specs.Terms.{[], IfOk, Contains, true, false, Some, arc_value};
ghost use Rattle.sz_claims.specs.Terms.{AreDisjoint, newcomer};

pub mod laws;
mod rule;
mod words;

use crate::rule::View;
use crate::words::Words;
use atomic_table::Seat;
use std::alloc::{AllocError, AllocFailed, Global};
use std::marker::Model;
use std::sync::Arc;

/// Pieces numbered from 0, each free or claimed by one pass. Contracts see which table it is, and
/// how many pieces it has. Threads share it by a reference or an `Arc`.
#[derive(Drop)]
pub struct Claims {
    words: Words,
}

impl Claims {
    /// A table whose pieces are all free, and its first pass. The cost is linear in the number of
    /// pieces.
    pub fn new(alloc: Global, pieces: u32) -> Result<(Arc<Claims>, ClaimPass), NoMemory>
        requires { 1 ≤ pieces }
        ensures pieces { IfOk result (λ made. (arc_value made.0).count ≡ pieces) }
        ensures pass { IfOk result (λ made. made.1 ≡ newcomer (arc_value made.0).table 0) }
    {
        let (words, seat) = Words::new(alloc, pieces)?;
        let claims = Arc::new(alloc, Claims { words })?;
        Ok((claims, ClaimPass { seat }))
    }

    /// Claims the piece, by one compare-exchange. True where this step took it. False where this
    /// step found it claimed: by any pass, this one among them.
    pub fn claim(&self, pass: &mut ClaimPass, piece: u32) -> bool
        requires own { pass.old.table ≡ self.now.table }
        requires inside { piece < self.now.count }
        ensures own { pass.new.table ≡ pass.old.table }
        ensures tries { pass.new.tries ≡ pass.old.tries + 1 }
        ensures won { result ≡ true → pass.new ≡ record pass.old {
          claimed = pass.old.claimed ++ piece ∷ [];
          found = Some 0;
          tries = pass.old.tries + 1;
        } }
        ensures lost { result ≡ false → pass.new ≡ record pass.old {
          met = pass.old.met ++ piece ∷ [];
          found = Some 1;
          tries = pass.old.tries + 1;
        } }
        ensures unclaimed { result ≡ true → ¬ Contains pass.old.claimed piece }
        ensures unmet { result ≡ true → ¬ Contains pass.old.met piece }
        ensures alone { pass.old.depth ≡ 0 → pass.old.splits ≡ 0
            → ¬ Contains pass.old.claimed piece → result ≡ true }
    {
        self.words.exchange(&mut pass.seat, piece) == 0
    }

    /// One more pass, which has no claims, by one load.
    pub fn split(&self, pass: &mut ClaimPass) -> ClaimPass
        requires { pass.old.table ≡ self.now.table }
        ensures counted { pass.new ≡ record pass.old { splits = pass.old.splits + 1 } }
        ensures new { result ≡ newcomer pass.old.table (pass.old.depth + 1) }
    {
        let seat = self.words.split(&mut pass.seat);
        ClaimPass { seat }
    }

    /// Puts the second pass into the first, by the load that joins them and one look. The counts
    /// of both are added up, so that no step of either is lost.
    pub fn join(&self, into: &mut ClaimPass, from: ClaimPass)
        requires into { into.old.table ≡ self.now.table }
        requires from { from.table ≡ self.now.table }
        ensures disjoint { AreDisjoint into.old.claimed from.claimed }
        ensures both { into.new ≡ record into.old {
          claimed = into.old.claimed ++ from.claimed;
          met = into.old.met ++ from.met;
          tries = into.old.tries + from.tries;
          looks = into.old.looks + from.looks + 1;
          splits = into.old.splits + from.splits;
        } }
    {
        let ClaimPass { seat } = from;
        self.words.join(&mut into.seat, seat);
        self.words.look(&mut into.seat);
    }
}

impl Model for Claims {
    ghost use Rattle.sz_claims.specs.Claims.{Pieces};

    ghost Value = { Pieces };

    ghost view = { λ c. record { table = c.words; count = c.words.words } };
}

/// The right to claim pieces of one table. It takes no bytes and moves between threads. Contracts
/// see its table, the pieces that it claimed and those that it met claimed, the word that its last
/// claim found (0 free, 1 claimed), and how many compare-exchanges, looks and splits it and the
/// passes joined into it made, and how many splits lie between the first pass and it.
#[derive(Drop)]
pub struct ClaimPass {
    seat: Seat<(), View>,
}

impl Model for ClaimPass {
    ghost use Rattle.std.specs.Prelude.{◌≡◌, []};
    ghost use Rattle.sz_claims.specs.Claims.{Claimant};

    ghost Value = { Claimant };

    ghost view = { λ p. record {
      table = p.seat.table_id;
      claimed = p.seat.me.0.claimed;
      met = p.seat.me.0.met;
      found = p.seat.me.0.found;
      tries = p.seat.me.0.tries;
      looks = p.seat.me.0.looks;
      splits = p.seat.me.0.splits;
      depth = p.seat.me.0.depth;
    } };

    ghost invariant = { λ p. p.seat.me.1 ≡ [] };
}

/// There was no memory for what the call had to make.
#[derive(Clone, Copy, Debug, Drop, PartialEq, Eq)]
pub struct NoMemory;

impl From<AllocError> for NoMemory {
    fn from(_: AllocError) -> NoMemory {
        NoMemory
    }
}

impl<T: Drop> From<AllocFailed<T>> for NoMemory {
    fn from(_: AllocFailed<T>) -> NoMemory {
        NoMemory
    }
}
