//! Threads that use one shelf: one that fills it while another looks, and two that place one piece
//! each.

ghost use Rattle.std.specs.Prelude.{◌≡◌, ◌<◌, true, Ok, None, IfOk};
ghost use Rattle.sz_shelf.specs.Contents.{missing_in};
ghost use Rattle.sz_shelf.specs.Passes.{place_of};
ghost use Rattle.sz_shelf.specs.Tags.{tag_pieces};

use super::bench::Bench;
use super::rows::{ADDED, BEFORE, looks};
use std::alloc::Global;
use std::sync::Wait;
use std::test::Fail;
use std::thread::{self, Threads};
use sz_cells::{CellSet, NoMemory};
use sz_shelf::{Look, Pass, Placed, SealReply};

const LOOKS: u32 = 200;

/// Places both pieces, the later one first, and seals. Whether both were new, and the shelf is
/// sealed.
fn fill<R: Wait>(alloc: Global, rt: &R, bench: &Bench, pass: &mut Pass) -> Result<bool, NoMemory>
    requires { place_of pass.old ≡ bench.now }
    ensures own { place_of pass.new ≡ place_of pass.old }
    ensures saw { result ≡ Ok true → pass.new.saw ≡ true }
{
    let later = bench.place(alloc, rt, pass, 1)? == Placed::New;
    let first = bench.place(alloc, rt, pass, 0)? == Placed::New;
    let sealed = bench.seal(rt, pass) == SealReply::Sealed;
    Ok(later && first && sealed)
}

/// Whether a look beside `fill` may end so: the image is added once the shelf is sealed, and before
/// it the target is as it was, and piece 0 is missing or none.
fn is_right(look: Look, to: &CellSet) -> bool {
    match look {
        Look::Done(_) => to.runs() == &ADDED[..],
        Look::Unsealed { missing } => missing % 2 == 0 && missing <= 2 && to.runs() == &BEFORE[..],
    }
}

/// Looks often. Whether each look ended as it may.
fn look_often<R: Wait>(alloc: Global, rt: &R, bench: &Bench, pass: &mut Pass) -> bool
    requires { place_of pass.old ≡ bench.now }
    ensures { place_of pass.new ≡ place_of pass.old }
{
    for _ in 0..LOOKS {
        match bench.look(alloc, rt, pass) {
            Ok((look, to)) => {
                if !is_right(look, &to) {
                    return false;
                }
            }
            Err(_) => return false,
        }
    }
    true
}

/// One thread fills the shelf while this one looks, and their passes are joined. Whether each look
/// was right, and whether the shelf was filled: then the joined pass has seen the seal, and every
/// piece.
fn fill_beside_looks<R: Threads + Wait + Sync>(
    rt: &R,
    alloc: Global,
    bench: &Bench,
    pass: &mut Pass,
) -> Result<(bool, Result<bool, NoMemory>), NoMemory>
    requires { place_of pass.old ≡ bench.now }
    ensures own { place_of pass.new ≡ place_of pass.old }
    ensures saw { IfOk result (λ told. told.1 ≡ Ok true → pass.new.saw ≡ true) }
{
    let mut other = bench.split(pass)?;
    let (filled, looked) = thread::join_mut(
        rt,
        &mut || fill(alloc, rt, bench, &mut other),
        &mut || look_often(alloc, rt, bench, pass),
    );
    bench.join(pass, other);
    Ok((looked, filled))
}

/// Whether a look by a pass that saw the seal is done. The pass has seen every piece then.
fn sees_all<R: Wait>(alloc: Global, rt: &R, bench: &Bench, pass: &mut Pass) -> Result<bool, Fail>
    requires own { place_of pass.old ≡ bench.now }
    requires saw { pass.old.saw ≡ true }
    ensures own { place_of pass.new ≡ place_of pass.old }
    ensures seen { IfOk result
        (λ _. missing_in (tag_pieces pass.new.tag) pass.new.seen ≡ None) }
{
    looks(alloc, rt, bench, pass, None, &ADDED)
}

/// Whether a piece was new.
fn is_new<R: Wait>(alloc: Global, rt: &R, bench: &Bench, pass: &mut Pass, k: u32) -> bool
    requires own { place_of pass.old ≡ bench.now }
    requires piece { k < 2 }
    ensures { place_of pass.new ≡ place_of pass.old }
{
    matches!(bench.place(alloc, rt, pass, k), Ok(Placed::New))
}

/// Two threads place one piece each, and their passes are joined. Whether both were new.
fn place_in_two<R: Threads + Wait + Sync>(
    rt: &R,
    alloc: Global,
    bench: &Bench,
    pass: &mut Pass,
) -> Result<(bool, bool), NoMemory>
    requires { place_of pass.old ≡ bench.now }
    ensures { place_of pass.new ≡ place_of pass.old }
{
    let mut other = bench.split(pass)?;
    let told = thread::join_mut(
        rt,
        &mut || is_new(alloc, rt, bench, &mut other, 1),
        &mut || is_new(alloc, rt, bench, pass, 0),
    );
    bench.join(pass, other);
    Ok(told)
}

/// Whether a pass of a shelf that another thread filled sees all.
fn is_seen_filled<R: Threads + Wait + Sync>(
    rt: &R,
    alloc: Global,
    bench: &Bench,
    pass: &mut Pass,
) -> Result<bool, Fail>
    requires { place_of pass.old ≡ bench.now }
    ensures { place_of pass.new ≡ place_of pass.old }
{
    let (looked, filled) = fill_beside_looks(rt, alloc, bench, pass)?;
    match filled {
        Ok(true) => Ok(looked && sees_all(alloc, rt, bench, pass)?),
        _ => Err("the shelf is not filled".into()),
    }
}

/// Whether a shelf is sealed to a pass, which keeps its stores once they are handed out.
fn is_sealed<R: Wait>(alloc: Global, rt: &R, bench: &Bench, pass: &mut Pass) -> Result<bool, Fail>
    requires { place_of pass.old ≡ bench.now }
{
    Ok(
        bench.sealed_now(pass)
            && bench.seal(rt, pass) == SealReply::Sealed
            && bench.place(alloc, rt, pass, 1)? == Placed::Sealed
            && pass.kept().is_none()
            && bench.store_of(alloc, rt, pass)?.is_some()
            && pass.kept().is_some(),
    )
}

/// Whether a new shelf is filled so, and sealed.
fn is_filled_beside_looks<R: Threads + Wait + Sync>(rt: &R, alloc: Global) -> Result<bool, Fail> {
    let (bench, mut pass) = Bench::new(alloc)?;
    Ok(is_seen_filled(rt, alloc, &bench, &mut pass)? && is_sealed(alloc, rt, &bench, &mut pass)?)
}

#[test]
fn a_thread_places_while_another_looks(rt: HostRuntime) -> Result<(), Fail> {
    assert!(rt; is_filled_beside_looks(&rt, rt.alloc())?);
    Ok(())
}

/// Whether two threads place one piece each of a new shelf, and it is full then.
fn two_fill_it<R: Threads + Wait + Sync>(rt: &R, alloc: Global) -> Result<bool, Fail> {
    let (bench, mut pass) = Bench::new(alloc)?;
    let told = place_in_two(rt, alloc, &bench, &mut pass)?;
    Ok(
        told.0
            && told.1
            && bench.place(alloc, rt, &mut pass, 1)? == Placed::Already
            && bench.seal(rt, &mut pass) == SealReply::Sealed,
    )
}

#[test]
fn two_threads_place_one_piece_each(rt: HostRuntime) -> Result<(), Fail> {
    assert!(rt; two_fill_it(&rt, rt.alloc())?);
    Ok(())
}
