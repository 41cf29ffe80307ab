//! What each call answers, one after another.

ghost use Rattle.std.specs.Prelude.{◌≡◌, IfOk};
ghost use Rattle.sz_shelf.specs.Passes.{TookTurn, place_of};

use super::bench::Bench;
use std::alloc::Global;
use std::sync::Wait;
use std::test::Fail;
use sz_cells::Run;
use sz_shelf::{Look, Pass, Placed, SealReply};
use sz_spec::Strategy;

/// The target before a look, and once the image is added.
pub const BEFORE: [Run; 1] = [Run { first: 0, last: 0 }];

pub const ADDED: [Run; 2] = [Run { first: 0, last: 0 }, Run { first: 3, last: 64 }];

/// Whether a look tells that this piece is missing, or by the store by sets that it is done, and
/// leaves these runs of cells in its target.
pub fn looks<R: Wait>(
    alloc: Global,
    rt: &R,
    bench: &Bench,
    pass: &mut Pass,
    missing: Option<u32>,
    cells: &[Run],
) -> Result<bool, Fail>
    requires { place_of pass.old ≡ bench.now }
    ensures own { place_of pass.new ≡ place_of pass.old }
    ensures turn { IfOk result (λ _. TookTurn pass.old pass.new) }
{
    let (look, to) = bench.look(alloc, rt, pass)?;
    let told = match look {
        Look::Done(read) => missing.is_none() && read.strategy() == Strategy::FullManyB,
        Look::Unsealed { missing: piece } => missing == Some(piece),
    };
    Ok(told && to.runs() == cells)
}

/// Whether both pieces are placed, the later one first, with these answers on the way.
pub fn fills<R: Wait>(alloc: Global, rt: &R, bench: &Bench, pass: &mut Pass) -> Result<bool, Fail>
    requires { place_of pass.old ≡ bench.now }
    ensures { place_of pass.new ≡ place_of pass.old }
{
    let none = bench.seal(rt, pass) == SealReply::Missing(0);
    let new = bench.place(alloc, rt, pass, 1)? == Placed::New;
    let still = bench.seal(rt, pass) == SealReply::Missing(0);
    let early = looks(alloc, rt, bench, pass, Some(0), &BEFORE)?;
    let again = bench.place(alloc, rt, pass, 1)? == Placed::Already;
    let last = bench.place(alloc, rt, pass, 0)? == Placed::New;
    Ok(none && new && still && early && again && last)
}

/// Whether a full shelf is sealed, with these answers before the seal and behind it.
fn seals<R: Wait>(alloc: Global, rt: &R, bench: &Bench, pass: &mut Pass) -> Result<bool, Fail>
    requires { place_of pass.old ≡ bench.now }
    ensures { place_of pass.new ≡ place_of pass.old }
{
    let open = looks(alloc, rt, bench, pass, Some(2), &BEFORE)?;
    let none = bench.store_of(alloc, rt, pass)?.is_none();
    let sealed = bench.seal(rt, pass) == SealReply::Sealed;
    let closed = looks(alloc, rt, bench, pass, None, &ADDED)?;
    let late = bench.place(alloc, rt, pass, 0)? == Placed::Sealed;
    Ok(open && none && sealed && closed && late)
}

/// Whether a shelf is filled and sealed, and another pass sees the seal from then on.
fn fills_and_seals<R: Wait>(
    alloc: Global,
    rt: &R,
    bench: &Bench,
    pass: &mut Pass,
    other: &mut Pass,
) -> Result<bool, Fail>
    requires pass { place_of pass.old ≡ bench.now }
    requires other { place_of other.old ≡ bench.now }
{
    Ok(
        fills(alloc, rt, bench, pass)?
            && !bench.sealed_now(other)
            && seals(alloc, rt, bench, pass)?
            && bench.sealed_now(other),
    )
}

/// Whether a new shelf is, beside another pass of it.
fn is_filled_and_sealed<R: Wait>(alloc: Global, rt: &R) -> Result<bool, Fail> {
    let (bench, mut pass) = Bench::new(alloc)?;
    let mut other = bench.split(&mut pass)?;
    fills_and_seals(alloc, rt, &bench, &mut pass, &mut other)
}

#[test]
fn pieces_are_placed_and_then_sealed(rt: HostRuntime) -> Result<(), Fail> {
    assert!(rt; is_filled_and_sealed(rt.alloc(), &rt)?);
    Ok(())
}

/// Whether a pass of a sealed shelf keeps what is handed out to it, and nothing before.
fn keeps<R: Wait>(alloc: Global, rt: &R, bench: &Bench, pass: &mut Pass) -> Result<bool, Fail>
    requires { place_of pass.old ≡ bench.now }
    ensures { place_of pass.new ≡ place_of pass.old }
{
    let before = pass.kept().is_none();
    let given = bench.store_of(alloc, rt, pass)?.is_some();
    Ok(before && given && pass.kept().is_some())
}

/// Whether a pass that is split off from one that keeps the stores keeps them too, and so does one
/// that it is joined to.
fn hands_on<R: Wait>(
    alloc: Global,
    rt: &R,
    bench: &Bench,
    pass: &mut Pass,
    before: &mut Pass,
) -> Result<bool, Fail>
    requires pass { place_of pass.old ≡ bench.now }
    requires before { place_of before.old ≡ bench.now }
{
    let mut after = bench.split(pass)?;
    let kept = before.kept().is_none() && after.kept().is_some();
    let looked = looks(alloc, rt, bench, &mut after, None, &ADDED)?;
    bench.join(before, after);
    Ok(kept && looked && before.kept().is_some())
}

/// Whether a sealed shelf hands out its stores, and a pass keeps them and hands them on.
fn keeps_and_hands_on<R: Wait>(
    alloc: Global,
    rt: &R,
    bench: &Bench,
    pass: &mut Pass,
) -> Result<bool, Fail>
    requires { place_of pass.old ≡ bench.now }
{
    let mut before = bench.split(pass)?;
    Ok(keeps(alloc, rt, bench, pass)? && hands_on(alloc, rt, bench, pass, &mut before)?)
}

/// Whether a new shelf does, once it is filled and sealed.
fn is_kept<R: Wait>(alloc: Global, rt: &R) -> Result<bool, Fail> {
    let (bench, mut pass) = Bench::new(alloc)?;
    Ok(
        fills(alloc, rt, &bench, &mut pass)?
            && bench.seal(rt, &mut pass) == SealReply::Sealed
            && keeps_and_hands_on(alloc, rt, &bench, &mut pass)?,
    )
}

#[test]
fn what_is_handed_out_is_kept(rt: HostRuntime) -> Result<(), Fail> {
    assert!(rt; is_kept(rt.alloc(), &rt)?);
    Ok(())
}
