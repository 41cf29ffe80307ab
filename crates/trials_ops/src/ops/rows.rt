//! The rows: what each operator makes of small arrays, and where their cells lead.

use super::{BACK, Example, ON, Sides, kept_by, layers, numbers};
use std::alloc::Global;
use std::sync::Arc;
use std::test::Fail;
use sz_frame::PayEntry;
use sz_spec::{Array, Fold, Kernel, Op, Value};

/// A row: the operator makes an array of these sides and values of its inputs, and the steps of a
/// table are true.
fn row(
    alloc: Global,
    example: &Example,
    sides: Sides,
    output: &[Value],
    steps: &[u32],
) -> Result<bool, Fail> {
    let output = layers(alloc, sides, output)?;
    Ok(example.makes(alloc, &output)? && example.leads_all(alloc, steps)?)
}

/// A row of an operator over one array.
fn over(
    alloc: Global,
    op: Op,
    from: Sides,
    cells: &[Value],
    to: Sides,
    output: &[Value],
    steps: &[u32],
) -> Result<bool, Fail> {
    let array = layers(alloc, from, cells)?;
    let example = Example::of_one(alloc, op, array)?;
    row(alloc, &example, to, output, steps)
}

/// A row of an operator over two layers of the rows 1 2 and 3 and an empty cell.
fn layered(
    alloc: Global,
    op: Op,
    to: Sides,
    output: &[Value],
    steps: &[u32],
) -> Result<bool, Fail> {
    let cells = [Some(1), Some(2), Some(3), None];
    over(alloc, op, (2, 1, 2), &cells, to, output, steps)
}

/// A row of an operator over the rows 1 2 3, 4 5 6 and 7 8 9, which makes numbers.
fn nine(
    alloc: Global,
    op: Op,
    rows: u32,
    cols: u32,
    output: &[i64],
    steps: &[u32],
) -> Result<bool, Fail> {
    let array = numbers(alloc, 3, 3, &[1, 2, 3, 4, 5, 6, 7, 8, 9])?;
    let example = Example::of_one(alloc, op, array)?;
    let output = numbers(alloc, rows, cols, output)?;
    Ok(example.makes(alloc, &output)? && example.leads_all(alloc, steps)?)
}

/// A row of an operator over the row -3, an empty cell and 7.
fn of_one(alloc: Global, op: Op, output: &[Value]) -> Result<bool, Fail> {
    let cells = [Some(-3), None, Some(7)];
    let steps = [BACK, 0, 2, 2, 1, 2, ON, 0, 0, 1, 2, 0, 1];
    over(alloc, op, (1, 1, 3), &cells, (1, 1, 3), output, &steps)
}

/// A row of an operator over the row 5, -2, an empty cell and the greatest number, and the row 3,
/// 4, 9 and 1.
fn of_two(alloc: Global, op: Op, output: &[Value]) -> Result<bool, Fail> {
    let first = layers(alloc, (1, 1, 4), &[Some(5), Some(-2), None, GREATEST])?;
    let second = numbers(alloc, 1, 4, &[3, 4, 9, 1])?;
    let example = Example::of_two(alloc, op, first, second)?;
    let steps = [
        BACK, 0, 3, 3, 1, 3, BACK, 1, 3, 3, 1, 3, ON, 1, 0, 1, 2, 0, 1,
    ];
    row(alloc, &example, (1, 1, 4), output, &steps)
}

const GREATEST: Value = Some(9_223_372_036_854_775_807);

#[test]
fn a_number_becomes_a_number(rt: HostRuntime) -> Result<(), Fail> {
    let alloc = rt.alloc();
    assert!(rt; of_one(alloc, Op::Neg, &[Some(3), None, Some(-7)])?);
    assert!(rt; of_one(alloc, Op::Abs, &[Some(3), None, Some(7)])?);
    assert!(rt; of_one(alloc, Op::AddK { k: 5 }, &[Some(2), None, Some(12)])?);
    assert!(rt; of_one(alloc, Op::MulK { k: -2 }, &[Some(6), None, Some(-14)])?);
    assert!(rt;
        of_one(
            alloc,
            Op::Clip { lo: -1, hi: 4 },
            &[Some(-1), None, Some(4)]
        )?
    );
    Ok(())
}

#[test]
fn two_numbers_become_a_number(rt: HostRuntime) -> Result<(), Fail> {
    let alloc = rt.alloc();
    let less = Some(9_223_372_036_854_775_806);
    assert!(rt; of_two(alloc, Op::Add, &[Some(8), Some(2), None, None])?);
    assert!(rt; of_two(alloc, Op::Sub, &[Some(2), Some(-6), None, less])?);
    assert!(rt; of_two(alloc, Op::Mul, &[Some(15), Some(-8), None, GREATEST])?);
    assert!(rt; of_two(alloc, Op::Min, &[Some(3), Some(-2), None, Some(1)])?);
    assert!(rt; of_two(alloc, Op::Max, &[Some(5), Some(4), None, GREATEST])?);
    Ok(())
}

#[test]
fn cells_are_moved_layer_by_layer(rt: HostRuntime) -> Result<(), Fail> {
    let alloc = rt.alloc();
    let steps = [BACK, 0, 3, 3, 1, 3, ON, 0, 2, 2, 1, 2];
    let output = [Some(-1), Some(-2), Some(-3), None];
    assert!(rt; layered(alloc, Op::Neg, (2, 1, 2), &output, &steps)?);
    let steps = [BACK, 0, 3, 3, 1, 3, ON, 0, 1, 1, 1, 1];
    let output = [Some(1), Some(2), Some(3), None];
    assert!(rt; layered(alloc, Op::Transpose, (2, 2, 1), &output, &steps)?);
    let (r0, c0, h, w) = (0, 1, 1, 1);
    let steps = [BACK, 0, 1, 1, 1, 3, ON, 0, 2, 2, 0];
    assert!(rt;
        layered(
            alloc,
            Op::Slice { r0, c0, h, w },
            (2, 1, 1),
            &[Some(2), None],
            &steps
        )?
    );
    Ok(())
}

#[test]
fn cells_are_folded(rt: HostRuntime) -> Result<(), Fail> {
    let alloc = rt.alloc();
    let fold = Fold::Sum;
    let steps = [BACK, 0, 1, 1, 2, 2, 3, ON, 0, 1, 1, 1, 0];
    let (h, w) = (1, 2);
    let output = [Some(3), Some(3)];
    assert!(rt; layered(alloc, Op::Block { fold, h, w }, (2, 1, 1), &output, &steps)?);
    let steps = [BACK, 0, 1, 1, 2, 1, 3, ON, 0, 2, 2, 1, 0];
    let output = [Some(4), Some(2)];
    assert!(rt; layered(alloc, Op::FoldLayers { fold }, (1, 1, 2), &output, &steps)?);
    let steps = [
        BACK, 0, 3, 3, 1, 8, BACK, 0, 1, 1, 2, 2, 5, ON, 0, 7, 7, 1, 2,
    ];
    let (h, w) = (2, 2);
    assert!(rt;
        nine(
            alloc,
            Op::Block { fold, h, w },
            2,
            2,
            &[12, 9, 15, 9],
            &steps
        )?
    );
    Ok(())
}

#[test]
fn cells_are_moved_from_nine(rt: HostRuntime) -> Result<(), Fail> {
    let alloc = rt.alloc();
    let output = [1, 4, 7, 2, 5, 8, 3, 6, 9];
    let steps = [BACK, 0, 6, 6, 1, 2, ON, 0, 2, 3, 2, 1, 6];
    assert!(rt; nine(alloc, Op::Transpose, 3, 3, &output, &steps)?);
    let (r0, c0, h, w) = (1, 1, 2, 2);
    let steps = [BACK, 0, 1, 1, 1, 5, ON, 0, 0, 0, 0, ON, 0, 7, 7, 1, 2];
    assert!(rt;
        nine(
            alloc,
            Op::Slice { r0, c0, h, w },
            2,
            2,
            &[5, 6, 8, 9],
            &steps
        )?
    );
    Ok(())
}

/// The convolution with the kernel of these weights.
fn under(alloc: Global, rows: u32, cols: u32, weights: &[i64]) -> Result<Op, Fail> {
    Ok(Op::Convolve {
        kernel: Kernel::make(rows, cols, weights.to_vec(alloc)?),
    })
}

#[test]
fn a_kernel_is_laid_on_as_it_is(rt: HostRuntime) -> Result<(), Fail> {
    let alloc = rt.alloc();
    let op = under(alloc, 3, 3, &[0, 2, 0, 1, 1, 3, 0, 1, 0])?;
    let output = [11, 17, 11, 28, 39, 26, 39, 52, 29];
    let steps = [BACK, 0, 0, 0, 3, 0, 1, 3, ON, 0, 0, 0, 3, 0, 1, 3];
    assert!(rt; nine(alloc, op, 3, 3, &output, &steps)?);
    let op = under(alloc, 1, 3, &[0, 0, 1])?;
    let output = [2, 3, 0, 5, 6, 0, 8, 9, 0];
    let steps = [BACK, 0, 0, 0, 1, 1, BACK, 0, 2, 2, 0, ON, 0, 1, 1, 1, 0];
    assert!(rt; nine(alloc, op, 3, 3, &output, &steps)?);
    Ok(())
}

#[test]
fn cells_round_a_cell_stay_in_its_layer(rt: HostRuntime) -> Result<(), Fail> {
    let alloc = rt.alloc();
    let sides = (2, 1, 2);
    let cells = [Some(300), Some(100), Some(100), Some(99)];
    let output = [None, None, Some(99), Some(99)];
    let steps = [BACK, 0, 1, 1, 2, 0, 1, ON, 0, 3, 3, 2, 2, 3];
    let op = Op::Clean { t: 100 };
    assert!(rt; over(alloc, op, sides, &cells, sides, &output, &steps)?);
    let output = [Some(1), Some(1), Some(3), LOW];
    let steps = [BACK, 0, 1, 1, 2, 0, 1, ON, 0, 2, 2, 1, 2];
    let op = Op::Regions { t: 100 };
    assert!(rt; over(alloc, op, sides, &cells, sides, &output, &steps)?);
    let op = under(alloc, 3, 1, &[1, 1, 2])?;
    let steps = [BACK, 0, 1, 1, 1, 1, ON, 0, 2, 2, 1, 2];
    assert!(rt; over(alloc, op, sides, &cells, sides, &cells, &steps)?);
    Ok(())
}

const LOW: Value = Some(0);

/// Whether an operator's first piece keeps the first numbers as payload lineage, and the second
/// ones as composite lineage.
fn keeps(alloc: Global, example: &Example, pays: &[u32], comps: &[u32]) -> Result<bool, Fail> {
    let kept = example.kept(alloc)?;
    Ok(kept_is(alloc, kept.pays(), pays)? && kept_is(alloc, kept.comps(), comps)?)
}

/// Whether entries keep these numbers.
fn kept_is(alloc: Global, entries: &[Arc<PayEntry>], numbers: &[u32]) -> Result<bool, Fail> {
    Ok(kept_by(alloc, entries)?.as_slice() == numbers)
}

/// Two rows of three columns, one of them empty, looked up in a table of 10 and 20.
fn looked_up(alloc: Global) -> Result<Example, Fail> {
    let columns = [Some(1), Some(0), Some(1), Some(-1), Some(0), None];
    let columns = layers(alloc, (1, 2, 3), &columns)?;
    let table = numbers(alloc, 1, 2, &[10, 20])?;
    Example::of_two(alloc, Op::Lookup, columns, table)
}

#[test]
fn matched_cells_keep_their_column(rt: HostRuntime) -> Result<(), Fail> {
    let alloc = rt.alloc();
    let found = looked_up(alloc)?;
    let steps = [
        BACK, 1, 0, 0, 1, 1, BACK, 1, 3, 3, 0, BACK, 0, 5, 5, 1, 5, ON, 1, 1, 1, 2, 0, 2,
    ];
    let output = [Some(20), Some(10), Some(20), None, Some(10), None];
    assert!(rt; row(alloc, &found, (1, 2, 3), &output, &steps)?);
    let matched = [2, 0, 0, 2, 2, 4, 0, 0, 0, 1, 2, 1, 1, 4, 4, 4, 0, 0, 0, 0];
    let others = [
        2, 0, 0, 2, 2, 4, 0, 0, 0, 1, 2, 1, 1, 4, 4, 4, 0, 0, 0, 0, 2, 3, 3, 5, 5, 0,
    ];
    assert!(rt; keeps(alloc, &found, &others, &matched)?);
    Ok(())
}

/// An operator over two rows of three numbers.
fn of_six(alloc: Global, op: Op, cells: &[i64]) -> Result<Example, Fail> {
    let array = numbers(alloc, 2, 3, cells)?;
    Example::of_one(alloc, op, array)
}

/// Whether the pieces have these numbers of region pairs.
fn has_pairs(alloc: Global, example: &Example, counts: &[usize]) -> Result<bool, Fail> {
    Ok(example.pairs(alloc)?.as_slice() == counts)
}

#[test]
fn hot_cells_keep_one_mark(rt: HostRuntime) -> Result<(), Fail> {
    let alloc = rt.alloc();
    let cleaned = of_six(alloc, Op::Clean { t: 100 }, &[300, 2, 300, 4, 300, 6])?;
    let steps = [
        BACK, 0, 0, 0, 4, 0, 1, 3, 4, BACK, 0, 1, 1, 1, 1, ON, 0, 5, 5, 3, 2, 4, 5,
    ];
    let output = [Some(2), Some(2), Some(2), Some(4), Some(2), Some(6)];
    assert!(rt; row(alloc, &cleaned, (1, 2, 3), &output, &steps)?);
    let all = [3, 0, 0, 2, 2, 4, 4, 1, 1, 3, 1, 1, 3, 3, 5, 5, 1, 0];
    let hot = [3, 0, 0, 2, 2, 4, 4, 1, 1];
    assert!(rt; keeps(alloc, &cleaned, &all, &hot)?);
    Ok(())
}

#[test]
fn high_cells_keep_their_region(rt: HostRuntime) -> Result<(), Fail> {
    let alloc = rt.alloc();
    let labels = of_six(alloc, Op::Regions { t: 6 }, &[9, 0, 9, 9, 0, 5])?;
    let steps = [
        BACK, 0, 3, 3, 2, 0, 3, BACK, 0, 0, 2, 4, 0, 1, 2, 3, ON, 0, 0, 0, 2, 0, 3,
    ];
    let output = [Some(1), LOW, Some(3), Some(1), LOW, LOW];
    assert!(rt; row(alloc, &labels, (1, 2, 3), &output, &steps)?);
    let all = [
        2, 0, 0, 3, 3, 20, 0, 0, 0, 2, 0, 0, 0, 0, 0, 0, 0, 0, 0, 0, 0, 3, 0, 0, 0, 3, 2, 1, 1, 4,
        5, 0, 1, 2, 2, 12, 0, 0, 0, 1, 0, 0, 0, 2, 0, 0, 0, 2,
    ];
    let high = [
        2, 0, 0, 3, 3, 20, 0, 0, 0, 2, 0, 0, 0, 0, 0, 0, 0, 0, 0, 0, 0, 3, 0, 0, 0, 3, 1, 2, 2, 12,
        0, 0, 0, 1, 0, 0, 0, 2, 0, 0, 0, 2,
    ];
    assert!(rt; keeps(alloc, &labels, &all, &high)?);
    assert!(rt; has_pairs(alloc, &labels, &[5])?);
    Ok(())
}

/// Whether an operator over the row of the numbers 1 to 130 has these numbers of region pairs, one
/// for each of its three pieces, of 64, 64 and 2 cells, and whether steps are true.
fn three_pieces(alloc: Global, op: Op, pairs: [usize; 3], steps: &[u32]) -> Result<bool, Fail> {
    let example = Example::of_one(alloc, op, rising(alloc)?)?;
    Ok(has_pairs(alloc, &example, &pairs)? && example.leads_all(alloc, steps)?)
}

/// The row of the numbers 1 to 130.
fn rising(alloc: Global) -> Result<Arc<Array>, Fail> {
    let mut values = Vec::new(alloc);
    for number in 1..131i64 {
        values.push(number)?;
    }
    numbers(alloc, 1, 130, &values)
}

#[test]
fn cells_of_three_pieces_lead_on(rt: HostRuntime) -> Result<(), Fail> {
    let alloc = rt.alloc();
    let each = [64, 64, 2];
    let op = under(alloc, 1, 3, &[1, 0, 2])?;
    let steps = [BACK, 0, 64, 64, 2, 63, 65, ON, 0, 64, 65, 4, 63, 64, 65, 66];
    assert!(rt; three_pieces(alloc, op, each, &steps)?);
    let steps = [BACK, 0, 63, 65, 3, 63, 64, 65, ON, 0, 128, 129, 2, 128, 129];
    assert!(rt; three_pieces(alloc, Op::Transpose, each, &steps)?);
    let steps = [
        BACK, 0, 128, 128, 3, 127, 128, 129, ON, 0, 63, 64, 2, 63, 64,
    ];
    assert!(rt; three_pieces(alloc, Op::Regions { t: 128 }, [64, 64, 1], &steps)?);
    assert!(rt; three_pieces(alloc, Op::Regions { t: 1 }, [1, 1, 1], &[])?);
    Ok(())
}

/// Two layers of 3 rows and 37 columns, of numbers on both sides of 0 and of empty cells.
fn uneven(alloc: Global) -> Result<Arc<Array>, Fail> {
    let mut cells = Vec::new(alloc);
    for index in 0..222u32 {
        cells.push(if index % 11 == 4 {
            None
        } else {
            Some(i64::from(index * 7 % 23) - 9)
        })?;
    }
    layers(alloc, (2, 3, 37), &cells)
}

/// Whether an operator over the uneven array is run as its cells say.
fn runs_as_its_cells(alloc: Global, op: Op) -> Result<bool, Fail> {
    Example::of_one(alloc, op, uneven(alloc)?)?.runs_as_its_cells(alloc)
}

#[test]
fn an_output_is_what_its_cells_say(rt: HostRuntime) -> Result<(), Fail> {
    let alloc = rt.alloc();
    assert!(rt; runs_as_its_cells(alloc, Op::Neg)?);
    assert!(rt; runs_as_its_cells(alloc, Op::Transpose)?);
    assert!(rt;
        runs_as_its_cells(
            alloc,
            Op::Slice {
                r0: 1,
                c0: 2,
                h: 2,
                w: 31
            }
        )?
    );
    assert!(rt; runs_as_its_cells(alloc, Op::Regions { t: 0 })?);
    let kernel = under(alloc, 3, 5, &[1, 0, 2, 0, 0, 0, 3, -1, 0, 4, 0, 0, 5, 0, 6])?;
    assert!(rt; runs_as_its_cells(alloc, kernel)?);
    Ok(())
}

/// Whether an operator over the uneven array and a second one is run as its cells say.
fn two_run_as_their_cells(alloc: Global, op: Op, second: Arc<Array>) -> Result<bool, Fail> {
    Example::of_two(alloc, op, uneven(alloc)?, second)?.runs_as_its_cells(alloc)
}

#[test]
fn an_output_of_two_is_what_its_cells_say(rt: HostRuntime) -> Result<(), Fail> {
    let alloc = rt.alloc();
    assert!(rt; two_run_as_their_cells(alloc, Op::Sub, uneven(alloc)?)?);
    let table = numbers(alloc, 1, 9, &[10, 11, 12, 13, 14, 15, 16, 17, 18])?;
    assert!(rt; two_run_as_their_cells(alloc, Op::Lookup, table)?);
    Ok(())
}
