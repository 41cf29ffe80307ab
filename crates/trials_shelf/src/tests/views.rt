//! Views of a shelf: a step by one of a shelf that is filled is told as traced before the seal and
//! by the strategy after it, and finds the same cells.

ghost use Rattle.std.specs.Prelude.{◌≡◌, ◌<◌, true, IfOk};
ghost use Rattle.sz_cells.specs.Extent.{flat};
ghost use Rattle.sz_query.specs.Views.{view_of, view_site, most_traced_by, IsUsable};
ghost use Rattle.sz_shelf.specs.Passes.{place_of};
ghost use Rattle.trials_shelf.specs.Bench.{negation};

use super::bench::{Bench, row};
use super::rows::fills;
use std::alloc::Global;
use std::sync::Wait;
use std::test::Fail;
use sz_cells::{Cell, CellSet, Run};
use sz_query::{Found, NodeView, Used, answer};
use sz_shelf::{Pass, SealReply};
use sz_spec::{Dir, Strategy, Tally};

/// Two cells of the output, in one piece each.
fn ends(alloc: Global) -> Result<CellSet, Fail>
    ensures { IfOk result (λ s. s.extent ≡ flat 1 65) }
{
    let shape = row()?;
    let (first, last) = (Cell { row: 0, col: 1 }, Cell { row: 0, col: 64 });
    if !shape.holds(first) || !shape.holds(last) {
        return Err("the row has 65 cells".into());
    }
    Ok(CellSet::from_cells(alloc, shape, &[first, last])?)
}

/// The places of these cells.
const PLACES: [Run; 2] = [
    Run { first: 1, last: 1 },
    Run {
        first: 64,
        last: 64,
    },
];

/// Whether an answer has these places, and is told so.
fn tells(found: &Found, used: Used, traced: u64) -> bool {
    found.cells.runs() == PLACES.as_slice()
        && found.used.as_slice() == [used].as_slice()
        && found.traced == traced
}

/// Whether a step from these cells by a view leads back to their places, and is told so.
fn is_told<R: Wait>(
    alloc: Global,
    rt: &R,
    view: NodeView,
    used: Used,
    traced: u64,
) -> Result<bool, Fail>
    requires ready { IsUsable (view_of view) }
    requires site { view_site (view_of view) ≡ negation }
    requires room { most_traced_by (view_of view) < 66 }
{
    let cells = ends(alloc)?;
    let mut tally = Tally::new();
    let found = answer(alloc, rt, &mut [view], &[0], Dir::Back, &cells, &mut tally)?;
    Ok(tells(&found, used, traced) && tally.count() == traced)
}

/// Whether a step by a view of a shelf that may grow is told so.
fn building_is_told<R: Wait>(
    alloc: Global,
    rt: &R,
    bench: &Bench,
    pass: &mut Pass,
    used: Used,
    traced: u64,
) -> Result<bool, Fail>
    requires { place_of pass.old ≡ bench.now }
    ensures own { place_of pass.new ≡ place_of pass.old }
    ensures saw { pass.new.saw ≡ pass.old.saw }
{
    let own = bench.split(pass)?;
    is_told(alloc, rt, bench.building(alloc, own)?, used, traced)
}

/// Whether steps before the seal are told as traced, while the shelf is empty and once it is
/// filled.
fn is_traced<R: Wait>(alloc: Global, rt: &R, bench: &Bench, pass: &mut Pass) -> Result<bool, Fail>
    requires { place_of pass.old ≡ bench.now }
    ensures { place_of pass.new ≡ place_of pass.old }
{
    Ok(
        building_is_told(alloc, rt, bench, pass, Used::Traced, 65)?
            && fills(alloc, rt, bench, pass)?
            && building_is_told(alloc, rt, bench, pass, Used::Traced, 65)?,
    )
}

/// The strategy of the store by sets.
const KEPT: Used = Used::By(Strategy::FullManyB);

/// Whether steps after the seal are told by the strategy.
fn is_told_by_kept<R: Wait>(
    alloc: Global,
    rt: &R,
    bench: &Bench,
    mut pass: Pass,
) -> Result<bool, Fail>
    requires { place_of pass ≡ bench.now }
{
    if bench.seal(rt, &mut pass) != SealReply::Sealed {
        return Err("the shelf is filled".into());
    }
    let growing = building_is_told(alloc, rt, bench, &mut pass, KEPT, 0)?;
    let stored = bench.stored(pass)?;
    Ok(growing && is_told(alloc, rt, stored, KEPT, 0)?)
}

/// Whether steps by views of a new shelf are told so, before its seal and after it.
fn are_told<R: Wait>(alloc: Global, rt: &R) -> Result<bool, Fail> {
    let (bench, mut pass) = Bench::new(alloc)?;
    Ok(is_traced(alloc, rt, &bench, &mut pass)? && is_told_by_kept(alloc, rt, &bench, pass)?)
}

#[test]
fn a_growing_shelf_is_told_by_the_strategy_from_its_seal_on(rt: HostRuntime) -> Result<(), Fail> {
    assert!(rt; are_told(rt.alloc(), &rt)?);
    Ok(())
}
