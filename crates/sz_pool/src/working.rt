//! Work on a task: claim after claim, and a seal.

ghost use Rattle.std.specs.Prelude.{◌≡◌, ◌+◌, ◌<◌, ◌≤◌, ◌^◌};
ghost use Rattle.sz_pool.specs.Terms.{length, true, All, IfOk, arc_value, size_of, pieces_of};
ghost use Rattle.sz_pool.specs.Terms.{seal_reply, after_seal, is_in, found_shelf, left_shelf};
ghost use Rattle.sz_pool.specs.Terms.{told_of_seal, cells_of, Grows, GrowsBy, AreReached};
ghost use Rattle.sz_pool.specs.Terms.{claimed_since, IsReplyOf, HasTriedAll, refused_after};
ghost use Rattle.sz_pool.specs.Terms.{IsSameTask};

use crate::task::Task;
use crate::trying::{Tried, try_piece};
use std::alloc::Global;
use std::sync::Wait;
use sz_cells::NoMemory;
use sz_outside::Gate;
use sz_shelf::SealReply;
use sz_spec::{Tally, pieces_of};

/// Claims each piece of a task, and for each that it wins calls the gate, makes it and places it.
/// Its last turn is a seal, whose reply it gives. Where a piece that it won is refused for memory,
/// the answer is `NoMemory`, with no seal; the pieces behind it are claimed all the same, and which
/// of those that it won are made is not said.
///
/// Each piece costs one claim, and each that is won one turn and a look at its 64 cells.
pub fn work<G: Gate, R: Wait>(
    alloc: Global,
    rt: &R,
    task: &mut Task,
    gate: &G,
    tally: &mut Tally,
) -> Result<SealReply, NoMemory>
    requires room { tally.old + 1048576 < 2 ^ 63 }
    ensures same { IsSameTask task.old task.new }
    ensures pass { Grows task.old.pass task.new.pass }
    ensures claims { GrowsBy (pieces_of (arc_value task.old.at).out) task.old.claim_pass
        task.new.claim_pass }
    ensures reached { AreReached (pieces_of (arc_value task.old.at).out) task.new.claim_pass }
    ensures placed { let won = claimed_since task.old.claim_pass task.new.claim_pass in
        IfOk result (λ _. All (λ k. is_in task.new.pass.seen k ≡ true) won) }
    ensures turns { let won = claimed_since task.old.claim_pass task.new.claim_pass in
        IfOk result (λ _. task.new.pass.turns ≡ task.old.pass.turns + length won + 1) }
    ensures ticks { let won = claimed_since task.old.claim_pass task.new.claim_pass in
        IfOk result (λ _. tally.new ≡ tally.old + cells_of (arc_value task.old.at).out won) }
    ensures rises { tally.old ≤ tally.new }
    ensures most { let won = claimed_since task.old.claim_pass task.new.claim_pass in
        tally.new ≤ tally.old + cells_of (arc_value task.old.at).out won }
    ensures reply { IfOk result (λ r. IsReplyOf task.new.pass r) }
    ensures last { IfOk result (λ r. told_of_seal r ≡ seal_reply (found_shelf task.new.pass)) }
    ensures left { IfOk result
        (λ _. left_shelf task.new.pass ≡ after_seal (found_shelf task.new.pass)) }
{
    let _ = task.at.out().size(); // at most 1,048,576
    if try_pieces(alloc, rt, task, gate, tally) {
        return Err(NoMemory);
    }
    Ok(task.shelf.seal(rt, &mut task.pass))
}

/// Tries each piece of a task. Whether one was refused for memory.
fn try_pieces<G: Gate, R: Wait>(
    alloc: Global,
    rt: &R,
    task: &mut Task,
    gate: &G,
    tally: &mut Tally,
) -> bool
    requires room { tally.old + size_of (arc_value task.old.at).out < 2 ^ 63 }
    ensures same { IsSameTask task.old task.new }
    ensures tried { let out = (arc_value task.old.at).out in
        HasTriedAll out (pieces_of out) result task.old.claim_pass task.new.claim_pass
        task.old.pass task.new.pass tally.old tally.new }
{
    let mut refused = false;
    for k in 0..pieces_of(task.at.out()) {
        let tried = try_piece(alloc, rt, task, gate, k, tally);
        refused = refused_after(refused, tried);
    }
    refused
}

/// Whether a piece was refused, once this came of one more.
fn refused_after(refused: bool, tried: Tried) -> bool
    ensures { result ≡ refused_after refused tried }
{
    match tried {
        Tried::Refused => true,
        _ => refused,
    }
}
