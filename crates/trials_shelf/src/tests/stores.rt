//! What is handed out: the same stores each time, until others are put in their place.

ghost use Rattle.std.specs.Prelude.{◌≡◌, true, IfOk};
ghost use Rattle.std.specs.Arc.{arc_value};
ghost use Rattle.sz_shelf.specs.Passes.{place_of};
ghost use Rattle.sz_shelf.specs.Tags.{StandsFor};

use super::bench::Bench;
use super::rows::{ADDED, fills, looks};
use std::alloc::Global;
use std::sync::{Arc, Wait};
use std::test::Fail;
use sz_shelf::{Pass, SealReply};
use sz_store::NodeStore;

/// The stores of a shelf that is filled and sealed first.
fn filled<R: Wait>(
    alloc: Global,
    rt: &R,
    bench: &Bench,
    pass: &mut Pass,
) -> Result<Arc<NodeStore>, Fail>
    requires { place_of pass.old ≡ bench.now }
    ensures own { place_of pass.new ≡ place_of pass.old }
    ensures saw { IfOk result (λ _. pass.new.saw ≡ true) }
    ensures stands { IfOk result (λ a. StandsFor pass.new.tag (arc_value a)) }
{
    if !fills(alloc, rt, bench, pass)? || bench.seal(rt, pass) != SealReply::Sealed {
        return Err("the shelf is not filled".into());
    }
    given(alloc, rt, bench, pass)
}

/// The stores that are handed out.
fn given<R: Wait>(
    alloc: Global,
    rt: &R,
    bench: &Bench,
    pass: &mut Pass,
) -> Result<Arc<NodeStore>, Fail>
    requires own { place_of pass.old ≡ bench.now }
    requires saw { pass.old.saw ≡ true }
    ensures own { place_of pass.new ≡ place_of pass.old }
    ensures saw { pass.new.saw ≡ true }
    ensures stands { IfOk result (λ a. StandsFor pass.new.tag (arc_value a)) }
{
    match bench.store_of(alloc, rt, pass)? {
        Some(store) => Ok(store),
        None => Err("a sealed shelf hands out its stores".into()),
    }
}

/// Whether stores that were handed out are handed out again.
fn gives_again<R: Wait>(
    alloc: Global,
    rt: &R,
    bench: &Bench,
    pass: &mut Pass,
    first: &Arc<NodeStore>,
) -> Result<bool, Fail>
    requires own { place_of pass.old ≡ bench.now }
    requires saw { pass.old.saw ≡ true }
{
    let shares = Arc::strong_count(first);
    let again = given(alloc, rt, bench, pass)?;
    Ok(Arc::strong_count(first) > shares && Arc::strong_count(&again) == Arc::strong_count(first))
}

/// Whether a new shelf does so.
fn are_given_again<R: Wait>(alloc: Global, rt: &R) -> Result<bool, Fail> {
    let (bench, mut pass) = Bench::new(alloc)?;
    let first = filled(alloc, rt, &bench, &mut pass)?;
    gives_again(alloc, rt, &bench, &mut pass, &first)
}

#[test]
fn the_same_stores_are_handed_out_each_time(rt: HostRuntime) -> Result<(), Fail> {
    assert!(rt; are_given_again(rt.alloc(), &rt)?);
    Ok(())
}

/// Whether stores that are put in place of others are handed out, and the others given up.
fn gives_others<R: Wait>(
    alloc: Global,
    rt: &R,
    bench: &Bench,
    pass: &mut Pass,
    old: &Arc<NodeStore>,
    new: &Arc<NodeStore>,
) -> Result<bool, Fail>
    requires own { place_of pass.old ≡ bench.now }
    requires saw { pass.old.saw ≡ true }
    requires stands { StandsFor pass.old.tag (arc_value new.now) }
    ensures { place_of pass.new ≡ place_of pass.old }
{
    let own = Arc::try_clone(new)?;
    bench.swap(rt, pass, own);
    let shares = (Arc::strong_count(old), Arc::strong_count(new));
    let given = given(alloc, rt, bench, pass)?;
    Ok(
        Arc::strong_count(old) < shares.0
            && Arc::strong_count(new) > shares.1
            && Arc::strong_count(&given) == Arc::strong_count(new),
    )
}

/// Whether a pass from before keeps stores all the same, and a look finds the image in the others.
fn is_swapped<R: Wait>(
    alloc: Global,
    rt: &R,
    bench: &Bench,
    pass: &mut Pass,
    old: &Arc<NodeStore>,
    new: &Arc<NodeStore>,
) -> Result<bool, Fail>
    requires own { place_of pass.old ≡ bench.now }
    requires saw { pass.old.saw ≡ true }
    requires stands { StandsFor pass.old.tag (arc_value new.now) }
{
    let before = bench.split(pass)?;
    Ok(
        gives_others(alloc, rt, bench, pass, old, new)?
            && before.kept().is_some()
            && looks(alloc, rt, bench, pass, None, &ADDED)?,
    )
}

/// Stores of another shelf for the same operator and array.
fn of_twin<R: Wait>(alloc: Global, rt: &R, bench: &Bench) -> Result<Arc<NodeStore>, Fail>
    ensures { IfOk result (λ a. StandsFor bench.now.tag (arc_value a)) }
{
    let (twin, mut there) = bench.again(alloc)?;
    filled(alloc, rt, &twin, &mut there)
}

/// Whether those are handed out by a new shelf that they are put in.
fn are_swapped<R: Wait>(alloc: Global, rt: &R) -> Result<bool, Fail> {
    let (bench, mut pass) = Bench::new(alloc)?;
    let new = of_twin(alloc, rt, &bench)?;
    let old = filled(alloc, rt, &bench, &mut pass)?;
    is_swapped(alloc, rt, &bench, &mut pass, &old, &new)
}

#[test]
fn stores_that_are_put_in_are_handed_out_from_then_on(rt: HostRuntime) -> Result<(), Fail> {
    assert!(rt; are_swapped(rt.alloc(), &rt)?);
    Ok(())
}
