//! The stores of a list in the other format.

ghost use Rattle.std.specs.Prelude.{◌≡◌, ◌∷◌, ◌++◌};
ghost use Rattle.sz_formats.specs.Terms.{[], ℕ, List, length, IfOk, IfErr, OnErr, AreRight, OnBad};
ghost use Rattle.sz_formats.specs.Terms.{RespellsFull, RespellsPay, NoFullBegins, NoPayBegins};
ghost use Rattle.sz_formats.specs.Terms.{stored_in, spelling, other_than, NoneBeginIn, AreTwice};
ghost use Rattle.sz_formats.specs.Terms.{from_format, span};

use std::alloc::Global;
use sz_region::Take;
use sz_short::{shorten_full, shorten_pay, widen_full, widen_pay};
use sz_spec::{Mode, OpAt, Strategy};

/// Appends the stores of a list that begin at a place in a format, in the other format, and gives
/// the place behind them. Payloads may be any. `Bad` exactly where no stores begin there, and it
/// says any place. After a refusal some of the bytes may be there.
pub(crate) fn respell_each(
    alloc: Global,
    format: u8,
    op: &OpAt,
    list: &[Strategy],
    bytes: &[u8],
    at: u64,
    to: &mut Vec<u8>,
) -> Result<u64, Take>
    requires { AreRight (op.now.out ∷ op.now.ins) }
    ensures ok { IfOk result (λ n. (rest : List ℕ)
        → AreTwice (from_format format) op.now (stored_in list.now) (span bytes.now at n)
        (span (to.new.items ++ rest) (length to.old.items) (length to.new.items))) }
    ensures front { (more : List ℕ) × (to.new.items ≡ to.old.items ++ more) }
    ensures err { IfErr result (λ e. OnBad e
        (NoneBeginIn format op.now (stored_in list.now) bytes.now at)) }
{
    let [first, others @ ..] = list else {
        return Ok(at);
    };
    let place = respell_next(alloc, format, op, *first, bytes, at, to)?;
    respell_each(alloc, format, op, others, bytes, place, to)
}

/// The same for one strategy, which may have no store.
fn respell_next(
    alloc: Global,
    format: u8,
    op: &OpAt,
    strategy: Strategy,
    bytes: &[u8],
    at: u64,
    to: &mut Vec<u8>,
) -> Result<u64, Take>
    ensures ok { IfOk result (λ n. (rest : List ℕ)
        → AreTwice (from_format format) op.now (stored_in (strategy ∷ [])) (span bytes.now at n)
        (span (to.new.items ++ rest) (length to.old.items) (length to.new.items))) }
    ensures front { (more : List ℕ) × (to.new.items ≡ to.old.items ++ more) }
    ensures err { IfErr result (λ e. OnBad e
        (NoneBeginIn format op.now (stored_in (strategy ∷ [])) bytes.now at)) }
{
    match strategy.mode() {
        Mode::Full => respell_full(alloc, format, op, bytes, at, to),
        Mode::Pay => respell_pay(alloc, format, op, bytes, at, to),
        Mode::Comp => respell_pay(alloc, format, op, bytes, at, to),
        Mode::Map | Mode::BlackBox => Ok(at),
    }
}

/// The same for a store of full lineage.
fn respell_full(
    alloc: Global,
    format: u8,
    op: &OpAt,
    bytes: &[u8],
    at: u64,
    to: &mut Vec<u8>,
) -> Result<u64, Take>
    ensures ok { IfOk result (λ n. RespellsFull (spelling format) (spelling (other_than format))
        op.now.out op.now.ins bytes.now at n to.old.items to.new.items) }
    ensures kept { OnErr result (to.new.items ≡ to.old.items) }
    ensures err { IfErr result (λ e. OnBad e
        (NoFullBegins (spelling format) op.now.out op.now.ins bytes.now at)) }
{
    if format == 2 {
        widen_full(alloc, op.out(), op.ins(), bytes, at, to)
    } else {
        shorten_full(alloc, op.out(), op.ins(), bytes, at, to)
    }
}

/// The same for a store of payloads.
fn respell_pay(
    alloc: Global,
    format: u8,
    op: &OpAt,
    bytes: &[u8],
    at: u64,
    to: &mut Vec<u8>,
) -> Result<u64, Take>
    ensures ok { IfOk result (λ n. RespellsPay (spelling format) (spelling (other_than format))
        op.now.out bytes.now at n to.old.items to.new.items) }
    ensures kept { OnErr result (to.new.items ≡ to.old.items) }
    ensures err { IfErr result (λ e. OnBad e
        (NoPayBegins (spelling format) op.now.out bytes.now at)) }
{
    if format == 2 {
        widen_pay(alloc, op.out(), bytes, at, to)
    } else {
        shorten_pay(alloc, op.out(), bytes, at, to)
    }
}
