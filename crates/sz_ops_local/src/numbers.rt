//! What each elementwise operator makes of one number, or of two: a type each, and one table of
//! them. Where the type is known, nothing is looked up.

ghost use Rattle.std.specs.Prelude.{◌≡◌, ◌+ℤ◌, ◌-ℤ◌, ◌*ℤ◌};
ghost use Rattle.sz_ops_local.specs.Terms.{ℕ, ℤ, neg_ℤ, List, true, Option, Some, int_min, int_max};
ghost use Rattle.sz_ops_local.specs.Terms.{Cell, Grid, fit, value_at, input_at, arity, value_of};
ghost use Rattle.sz_ops_local.specs.Terms.{absolute, clipped, is_elementwise};

use sz_spec::{Op, Value};

/// What is made of one number.
pub(crate) trait OfOne {
    ghost made: { Self → ℤ → Option ℤ };

    /// The value that is made of `a`.
    fn of(&self, a: i64) -> Value
        ensures { result ≡ made self.now a };
}

/// What is made of two numbers.
pub(crate) trait OfTwo {
    ghost made: { Self → ℤ → ℤ → Option ℤ };

    /// The value that is made of `a` and `b`.
    fn of(&self, a: i64, b: i64) -> Value
        ensures { result ≡ made self.now a b };
}

/// The number with its sign turned.
#[derive(Drop)]
pub(crate) struct Negation;

impl OfOne for Negation {
    ghost made = { λ _ a. fit (neg_ℤ a) };

    fn of(&self, a: i64) -> Value {
        fit(-i128::from(a))
    }
}

/// The number without its sign.
#[derive(Drop)]
pub(crate) struct Absolute;

impl OfOne for Absolute {
    ghost made = { λ _ a. absolute a };

    fn of(&self, a: i64) -> Value {
        fit(i128::from(a).abs())
    }
}

/// The number and `k`.
#[derive(Drop)]
pub(crate) struct Raised {
    pub(crate) k: i64,
}

impl OfOne for Raised {
    ghost made = { λ s a. fit (a +ℤ s.k) };

    fn of(&self, a: i64) -> Value {
        add(a, self.k)
    }
}

/// The number `k` times.
#[derive(Drop)]
pub(crate) struct Scaled {
    pub(crate) k: i64,
}

impl OfOne for Scaled {
    ghost made = { λ s a. fit (a *ℤ s.k) };

    fn of(&self, a: i64) -> Value {
        fit(i128::from(a) * i128::from(self.k))
    }
}

/// The number, within `lo` and `hi`.
#[derive(Drop)]
pub(crate) struct Clipped {
    pub(crate) lo: i64,
    pub(crate) hi: i64,
}

impl OfOne for Clipped {
    ghost made = { λ s a. clipped s.lo s.hi a };

    fn of(&self, a: i64) -> Value {
        Some(clip(a, self.lo, self.hi))
    }
}

/// The sum.
#[derive(Drop)]
pub(crate) struct Sum;

impl OfTwo for Sum {
    ghost made = { λ _ a b. fit (a +ℤ b) };

    fn of(&self, a: i64, b: i64) -> Value {
        add(a, b)
    }
}

/// The first number less the second.
#[derive(Drop)]
pub(crate) struct Difference;

impl OfTwo for Difference {
    ghost made = { λ _ a b. fit (a -ℤ b) };

    fn of(&self, a: i64, b: i64) -> Value {
        subtract(a, b)
    }
}

/// The product.
#[derive(Drop)]
pub(crate) struct Product;

impl OfTwo for Product {
    ghost made = { λ _ a b. fit (a *ℤ b) };

    fn of(&self, a: i64, b: i64) -> Value {
        fit(i128::from(a) * i128::from(b))
    }
}

/// The lesser number.
#[derive(Drop)]
pub(crate) struct Lesser;

impl OfTwo for Lesser {
    ghost made = { λ _ a b. Some (int_min a b) };

    fn of(&self, a: i64, b: i64) -> Value {
        Some(a.min(b))
    }
}

/// The greater number.
#[derive(Drop)]
pub(crate) struct Greater;

impl OfTwo for Greater {
    ghost made = { λ _ a b. Some (int_max a b) };

    fn of(&self, a: i64, b: i64) -> Value {
        Some(a.max(b))
    }
}

/// The table: goes on with what the operator makes of one number, or of two.
macro_rules! arithmetic {
    ($op:expr; one $f:ident => $one:expr; two $g:ident => $two:expr) => {
        match $op {
            sz_spec::Op::Neg => {
                let $f = crate::numbers::Negation;
                $one
            }
            sz_spec::Op::Abs => {
                let $f = crate::numbers::Absolute;
                $one
            }
            sz_spec::Op::AddK { k } => {
                let $f = crate::numbers::Raised { k: *k };
                $one
            }
            sz_spec::Op::MulK { k } => {
                let $f = crate::numbers::Scaled { k: *k };
                $one
            }
            sz_spec::Op::Clip { lo, hi } => {
                let $f = crate::numbers::Clipped { lo: *lo, hi: *hi };
                $one
            }
            sz_spec::Op::Add => {
                let $g = crate::numbers::Sum;
                $two
            }
            sz_spec::Op::Sub => {
                let $g = crate::numbers::Difference;
                $two
            }
            sz_spec::Op::Mul => {
                let $g = crate::numbers::Product;
                $two
            }
            sz_spec::Op::Min => {
                let $g = crate::numbers::Lesser;
                $two
            }
            sz_spec::Op::Max => {
                let $g = crate::numbers::Greater;
                $two
            }
            _ => unreachable!(),
        }
    };
}

pub(crate) use arithmetic;

/// The operator's value at a cell at which its first input holds `a` and its second, where it has
/// one, holds `b`. Sums and products are taken as whole numbers, and fitted once.
pub(crate) fn of_numbers(op: &Op, a: i64, b: i64) -> Value
    requires { is_elementwise op.now ≡ true }
    ensures { (inputs : List Grid) (o : Cell) → value_at (input_at inputs 0) o ≡ Some a
        → (arity op.now ≡ 2 → value_at (input_at inputs 1) o ≡ Some b)
        → result ≡ value_of op.now inputs o }
{
    arithmetic!(op; one f => f.of(a); two f => f.of(a, b))
}

/// A number, `lo` where it is below that, and `hi` where it is above that.
fn clip(a: i64, lo: i64, hi: i64) -> i64
    ensures { Some result ≡ clipped lo hi a }
{
    if a < lo {
        lo
    } else if hi < a {
        hi
    } else {
        a
    }
}

/// The sum of two numbers as a value: empty where it is no i64.
#[tactic(auto, using(crate::proofs::Fits::checked_fit))]
fn add(a: i64, b: i64) -> Value
    ensures { result ≡ fit (a +ℤ b) }
{
    a.checked_add(b)
}

/// The first number less the second, as a value: empty where it is no i64.
#[tactic(auto, using(crate::proofs::Fits::checked_fit))]
fn subtract(a: i64, b: i64) -> Value
    ensures { result ≡ fit (a -ℤ b) }
{
    a.checked_sub(b)
}

/// A whole number as a value: empty where it is no i64.
fn fit(number: i128) -> Value
    ensures { result ≡ fit number }
{
    i64::try_from(number).ok()
}
