//! The whole output of an elementwise operator, of the values of its inputs: which arithmetic it
//! has is looked up once, and each value is written once.

ghost use Rattle.std.specs.Prelude.{◌≡◌};
ghost use Rattle.sz_ops_local.specs.Terms.{true, map, IfOk, arc_value, zip, Cell, size_of};
ghost use Rattle.sz_ops_local.specs.Terms.{with_number, with_numbers, arity, of_one, of_two};
ghost use Rattle.sz_ops_local.specs.Terms.{output_of, value_of, IsAtWork, values_before};
ghost use Rattle.sz_ops_local.specs.Terms.{is_elementwise};

use crate::numbers::{OfOne, OfTwo, arithmetic};
use std::alloc::Global;
use std::sync::Arc;
use sz_cells::NoMemory;
use sz_frame::{input_of, output_with};
use sz_spec::{Array, OpAt, Value};

/// The output of an elementwise operator. One pass over its cells.
pub(crate) fn run(alloc: Global, at: &OpAt, inputs: &[Arc<Array>]) -> Result<Array, NoMemory>
    requires op { is_elementwise at.now.op ≡ true }
    requires right { IsAtWork at.now (map (λ a. arc_value a) inputs.now) }
    ensures { IfOk result (λ a. a ≡ output_of at.now.op (map (λ a. arc_value a) inputs.now)) }
{
    let cells = values(alloc, at, inputs)?;
    Ok(output_with(at, inputs, cells))
}

/// The values of all output cells.
fn values(alloc: Global, at: &OpAt, inputs: &[Arc<Array>]) -> Result<Vec<Value>, NoMemory>
    requires op { is_elementwise at.now.op ≡ true }
    requires right { IsAtWork at.now (map (λ a. arc_value a) inputs.now) }
    ensures { IfOk result (λ v. v.items
        ≡ values_before at.now (map (λ a. arc_value a) inputs.now) (size_of at.now.out)) }
{
    arithmetic!(
        at.op();
        one f => of_all(alloc, at, inputs, &f);
        two f => of_both(alloc, at, inputs, &f)
    )
}

/// The values of all output cells, each made of the number at the same cell.
fn of_all<F: OfOne>(
    alloc: Global,
    at: &OpAt,
    inputs: &[Arc<Array>],
    f: &F,
) -> Result<Vec<Value>, NoMemory>
    requires op { is_elementwise at.now.op ≡ true }
    requires right { IsAtWork at.now (map (λ a. arc_value a) inputs.now) }
    requires each { (o : Cell) → value_of at.now.op (map (λ a. arc_value a) inputs.now) o
        ≡ of_one (F.made f.now) (map (λ a. arc_value a) inputs.now) o }
    ensures { IfOk result (λ v. v.items
        ≡ values_before at.now (map (λ a. arc_value a) inputs.now) (size_of at.now.out)) }
{
    at.ins(); // there is an input
    ones(alloc, f, input_of(at, inputs, 0).cells())
}

/// The values of all output cells, each made of the two numbers at the same cell.
fn of_both<F: OfTwo>(
    alloc: Global,
    at: &OpAt,
    inputs: &[Arc<Array>],
    f: &F,
) -> Result<Vec<Value>, NoMemory>
    requires op { is_elementwise at.now.op ≡ true }
    requires two { arity at.now.op ≡ 2 }
    requires right { IsAtWork at.now (map (λ a. arc_value a) inputs.now) }
    requires each { (o : Cell) → value_of at.now.op (map (λ a. arc_value a) inputs.now) o
        ≡ of_two (F.made f.now) (map (λ a. arc_value a) inputs.now) o }
    ensures { IfOk result (λ v. v.items
        ≡ values_before at.now (map (λ a. arc_value a) inputs.now) (size_of at.now.out)) }
{
    at.ins(); // there are two inputs
    let first = input_of(at, inputs, 0).cells();
    let second = input_of(at, inputs, 1).cells();
    twos(alloc, f, first, second)
}

/// What is made of each value of one list.
fn ones<F: OfOne>(alloc: Global, f: &F, first: &[Value]) -> Result<Vec<Value>, NoMemory>
    ensures { IfOk result (λ v. v.items ≡ map (with_number (F.made f.now)) first.now) }
{
    let count = first.len();
    let mut values = Vec::new(alloc);
    values.reserve(count)?;
    for k in 0..count {
        values.push_reserved(made_of_one(f, first[k]));
    }
    Ok(values)
}

/// What is made of each two values at one place of two lists.
fn twos<F: OfTwo>(
    alloc: Global,
    f: &F,
    first: &[Value],
    second: &[Value],
) -> Result<Vec<Value>, NoMemory>
    ensures { IfOk result (λ v. v.items
        ≡ map (λ p. with_numbers (F.made f.now) p.0 p.1) (zip first.now second.now)) }
{
    let count = first.len().min(second.len());
    let mut values = Vec::new(alloc);
    values.reserve(count)?;
    for k in 0..count {
        values.push_reserved(made_of_two(f, first[k], second[k]));
    }
    Ok(values)
}

/// What is made of a value: nothing where there is no number.
fn made_of_one<F: OfOne>(f: &F, value: Value) -> Value
    ensures { result ≡ with_number (F.made f.now) value }
{
    match value {
        Some(a) => f.of(a),
        None => None,
    }
}

/// What is made of two values: nothing where one is no number.
fn made_of_two<F: OfTwo>(f: &F, value: Value, other: Value) -> Value
    ensures { result ≡ with_numbers (F.made f.now) value other }
{
    match (value, other) {
        (Some(a), Some(b)) => f.of(a, b),
        _ => None,
    }
}
