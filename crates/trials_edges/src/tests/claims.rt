//! Threads that share out all pieces, and the calls that no clause ties to each other.
ghost use Rattle.std.specs.Prelude.{◌≡◌, ◌+◌, ◌<◌, ◌≤◌, ◌⊎◌, ℕ, List, ◌++◌, Contains};
ghost use Rattle.std.specs.Prelude.{length};
ghost use Rattle.sz_claims.specs.Claims.{AreDisjoint};

use std::alloc::Global;
use std::mem::size_of;
use std::sync::Arc;
use std::test::Fail;
use std::thread::{self, Threads};
use sz_claims::{ClaimPass, Claims, NoMemory};

const PIECES: u32 = 1_000;

// Claims every piece, and counts those that the pass won.
fn claim_all(claims: &Claims, pass: &mut ClaimPass) -> u32
    requires own { pass.old.table ≡ claims.now.table }
    requires pieces { claims.now.count ≡ 1000 }
    ensures own { pass.new.table ≡ pass.old.table }
    ensures won { length pass.new.claimed ≡ length pass.old.claimed + result }
    ensures some { result ≤ 1000 }
    ensures every { (piece : ℕ) → piece < 1000
        → Contains pass.new.claimed piece ⊎ Contains pass.new.met piece }
{
    let mut won = 0;
    for piece in 0..PIECES {
        if claims.claim(pass, piece) {
            won += 1;
        }
    }
    won
}

// Two threads claim every piece, each with a pass of its own, and the passes are joined. What they
// won has no piece in common, so where they won as many as there are pieces, each piece was won by
// exactly one of them.
fn claim_by_two<R: Threads + Sync>(rt: &R, claims: &Claims, pass: &mut ClaimPass) -> (u32, u32)
    requires own { pass.old.table ≡ claims.now.table }
    requires pieces { claims.now.count ≡ 1000 }
    ensures some { (result.0 ≤ 1000) × (result.1 ≤ 1000) }
    ensures won { (here : List ℕ) × (there : List ℕ) × (pass.new.claimed ≡ here ++ there)
        × AreDisjoint here there × (length here ≡ length pass.old.claimed + result.0)
        × (length there ≡ result.1) }
{
    let mut other = claims.split(pass);
    let won = thread::join_mut(
        rt,
        &mut || claim_all(claims, pass),
        &mut || claim_all(claims, &mut other),
    );
    claims.join(pass, other);
    won
}

// How many pieces two threads win together.
fn won_by_two<R: Threads + Sync>(rt: &R, alloc: Global) -> Result<u32, NoMemory> {
    let (claims, mut pass) = Claims::new(alloc, PIECES)?;
    let (here, there) = claim_by_two(rt, &claims, &mut pass);
    Ok(here + there)
}

#[test]
fn two_threads_share_out_all_pieces(rt: HostRuntime) {
    assert!(rt; won_by_two(&rt, rt.alloc()) == Ok(PIECES));
}

#[test]
fn claims_and_passes_move_into_threads(rt: HostRuntime) -> Result<(), Fail> {
    let (claims, mut pass) = Claims::new(rt.alloc(), PIECES)?;
    let mut other = claims.split(&mut pass);
    let shared = Arc::try_clone(&claims)?;
    let worker = thread::spawn(&rt, move || claim_all(&shared, &mut other))?;
    let here = claim_all(&claims, &mut pass);
    let there = worker.join(&rt);
    assert_eq!(rt; u64::from(here) + u64::from(there), u64::from(PIECES));
    Ok(())
}

// Whether a pass wins a piece that is free, and neither it nor another wins the piece again, also
// once they are joined.
fn is_won_once(alloc: Global) -> Result<bool, NoMemory> {
    let (claims, mut first) = Claims::new(alloc, 3)?;
    let mut second = claims.split(&mut first);
    let zero = claims.claim(&mut first, 0);
    let zero_by_second = claims.claim(&mut second, 0);
    let zero_again = claims.claim(&mut first, 0);
    let two = claims.claim(&mut second, 2);
    claims.join(&mut first, second);
    let one = claims.claim(&mut first, 1);
    let two_again = claims.claim(&mut first, 2);
    Ok(zero && !zero_by_second && !zero_again && two && one && !two_again)
}

#[test]
fn a_piece_is_won_once_by_passes_without_bytes(rt: HostRuntime) {
    assert!(rt; size_of::<ClaimPass>() == 0);
    assert!(rt; is_won_once(rt.alloc()) == Ok(true));
}
