//! One try of a piece of a task.

ghost use Rattle.std.specs.Prelude.{◌+◌, ◌<◌, ◌^◌};
ghost use Rattle.sz_pool.specs.Terms.{arc_value, pieces_of, cells_in_piece, HasTried, IsSameTask};

use crate::maker::Maker;
use crate::task::Task;
use std::alloc::Global;
use std::sync::Wait;
use sz_outside::Gate;
use sz_spec::Tally;

/// What came of a try.
#[derive(Clone, Copy)]
pub(crate) enum Tried {
    /// The piece was claimed before.
    Met,
    /// The piece was claimed, made and placed.
    Made,
    /// The piece was claimed, and there was no memory for it.
    Refused,
}

/// Claims a piece, and where it wins it calls the gate, makes the piece and places it.
pub(crate) fn try_piece<G: Gate, R: Wait>(
    alloc: Global,
    rt: &R,
    task: &mut Task,
    gate: &G,
    k: u32,
    tally: &mut Tally,
) -> Tried
    requires piece { k < pieces_of (arc_value task.old.at).out }
    requires room { tally.old + cells_in_piece (arc_value task.old.at).out k < 2 ^ 63 }
    ensures same { IsSameTask task.old task.new }
    ensures tried { HasTried (arc_value task.old.at).out k result task.old.claim_pass
        task.new.claim_pass task.old.pass task.new.pass tally.old tally.new }
{
    if !task.claims.claim(&mut task.claim_pass, k) {
        return Tried::Met;
    }
    gate.at_piece(task.version, task.node, k);
    let maker = Maker {
        at: &task.at,
        inputs: task.inputs.as_slice(),
        aid: &task.aid,
        list: task.list.as_slice(),
        shelf: &task.shelf,
    };
    match maker.place(alloc, rt, &mut task.pass, k, tally) {
        Ok(()) => Tried::Made,
        Err(_) => Tried::Refused,
    }
}
