//! Folds of the numbers of many cells into one, a number at a time.

ghost use Rattle.std.specs.Prelude.{◌≡◌, ◌+◌, ◌<◌, ◌^◌, ◌++◌, ◌∷◌};
ghost use Rattle.sz_frame.specs.Terms.{ℤ, [], List, length, Some, reduce, int_min, int_max};
ghost use Rattle.sz_frame.specs.Terms.{fold_of, summary_of, numbers_in};

use std::marker::Model;
use sz_spec::{Fold, Value};

/// What a fold keeps of the numbers that it has seen. Contracts see how many there were, their
/// whole sum, and the least and the greatest of them.
#[derive(Debug, Drop)]
pub struct Folding {
    count: u32,
    sum: i128,
    least: Option<i64>,
    greatest: Option<i64>,
}

impl Model for Folding {
    ghost use Rattle.std.specs.Prelude.{◌*◌, ◌^◌, pos, neg_ℤ, ◌≤ℤ◌};
    ghost use Rattle.sz_frame.specs.Folding.{Summary};

    ghost Value = { Summary };

    ghost view = { λ f. record {
      count = f.count;
      sum = f.sum;
      least = f.least;
      greatest = f.greatest;
    } };

    ghost invariant = { λ f. (neg_ℤ (pos (f.count * 2 ^ 63)) ≤ℤ f.sum)
        × (f.sum ≤ℤ pos (f.count * 2 ^ 63)) };
}

impl Folding {
    /// No number yet.
    pub fn new() -> Folding
        ensures { result ≡ summary_of [] }
    {
        Folding {
            count: 0,
            sum: 0,
            least: None,
            greatest: None,
        }
    }

    /// One number more.
    pub fn add(&mut self, number: i64)
        requires { self.old.count + 1 < 2 ^ 32 }
        ensures count { self.new.count ≡ self.old.count + 1 }
        ensures numbers { (zs : List ℤ) → self.old ≡ summary_of zs
            → self.new ≡ summary_of (zs ++ number ∷ []) }
    {
        self.count += 1;
        self.sum += i128::from(number);
        self.least = Some(least_with(self.least, number));
        self.greatest = Some(greatest_with(self.greatest, number));
    }

    /// The numbers of values more, in their order: an empty value is none.
    pub fn add_all(&mut self, values: &[Value])
        requires { self.old.count + length values.now < 2 ^ 32 }
        ensures { (zs : List ℤ) → self.old ≡ summary_of zs
            → self.new ≡ summary_of (zs ++ numbers_in values.now) }
    {
        for value in values {
            if let Some(number) = value {
                self.add(*number);
            }
        }
    }

    /// What the numbers are folded into: of none the sum, the least and the greatest are empty, and
    /// the count is 0. The whole sum is fitted here, once.
    pub fn result(&self, fold: Fold) -> Value
        ensures { (zs : List ℤ) → self.now ≡ summary_of zs → result ≡ fold_of fold zs }
    {
        match fold {
            Fold::Sum if self.count == 0 => None,
            Fold::Sum => i64::try_from(self.sum).ok(),
            Fold::Min => self.least,
            Fold::Max => self.greatest,
            Fold::Count => Some(i64::from(self.count)),
        }
    }
}

/// The lesser of a number and the least before it, where there is one.
fn least_with(least: Option<i64>, number: i64) -> i64
    ensures { (zs : List ℤ) → least ≡ reduce int_min zs
        → Some result ≡ reduce int_min (zs ++ number ∷ []) }
{
    match least {
        Some(least) => least.min(number),
        None => number,
    }
}

/// The greater of a number and the greatest before it, where there is one.
fn greatest_with(greatest: Option<i64>, number: i64) -> i64
    ensures { (zs : List ℤ) → greatest ≡ reduce int_max zs
        → Some result ≡ reduce int_max (zs ++ number ∷ []) }
{
    match greatest {
        Some(greatest) => greatest.max(number),
        None => number,
    }
}
