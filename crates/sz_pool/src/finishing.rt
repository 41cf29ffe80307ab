//! What workers left undone, done.

ghost use Rattle.std.specs.Prelude.{◌≡◌, ◌+◌, ◌<◌, ◌≤◌, ◌^◌};
ghost use Rattle.sz_pool.specs.Terms.{true, OnOk, arc_value, size_of, place_of, cells_of};
ghost use Rattle.sz_pool.specs.Terms.{left_over, Grows, tag_over};

use crate::maker::Maker;
use std::alloc::Global;
use std::sync::Wait;
use sz_cells::NoMemory;
use sz_flow::NodeRun;
use sz_shelf::{Pass, SealReply, Shelf};
use sz_spec::{Strategy, Tally};

/// Makes and places each piece that is missing on the shelf of a run, and seals it, whatever
/// workers did or left undone. After `NoMemory` the shelf may have more pieces.
///
/// A shelf that is sealed costs one load. Else each missing piece costs two turns and a look at its
/// 64 cells, and the searches for all of them together go over the pieces once.
pub fn finish<R: Wait>(
    alloc: Global,
    rt: &R,
    run: &NodeRun,
    list: &[Strategy],
    shelf: &Shelf,
    pass: &mut Pass,
    tally: &mut Tally,
) -> Result<(), NoMemory>
    requires own { place_of pass.old ≡ shelf.now }
    requires tag { pass.old.tag ≡ tag_over (arc_value run.now.at) run.now.inputs list.now }
    requires room { tally.old + 1048576 < 2 ^ 63 }
    ensures pass { Grows pass.old pass.new }
    ensures saw { OnOk result (pass.new.saw ≡ true) }
    ensures rises { tally.old ≤ tally.new }
    ensures most { tally.new ≤ tally.old
        + cells_of (arc_value run.now.at).out (left_over pass.old.tag pass.old.seen) }
{
    if shelf.sealed_now(pass) {
        return Ok(());
    }
    let _ = run.at.out().size(); // at most 1,048,576
    let maker = Maker {
        at: &run.at,
        inputs: run.inputs.as_slice(),
        aid: &run.aid,
        list,
        shelf,
    };
    fill(alloc, rt, &maker, pass, tally)
}

/// Makes and places the least piece that is missing, again and again, until the seal.
fn fill<R: Wait>(
    alloc: Global,
    rt: &R,
    maker: &Maker,
    pass: &mut Pass,
    tally: &mut Tally,
) -> Result<(), NoMemory>
    requires own { place_of pass.old ≡ maker.now.shelf.now }
    requires room { tally.old + size_of maker.now.at.now.out < 2 ^ 63 }
    ensures pass { Grows pass.old pass.new }
    ensures saw { OnOk result (pass.new.saw ≡ true) }
    ensures rises { tally.old ≤ tally.new }
    ensures most { tally.new ≤ tally.old
        + cells_of maker.now.at.now.out (left_over pass.old.tag pass.old.seen) }
{
    let mut reply = maker.shelf.seal(rt, pass);
    while let SealReply::Missing(k) = reply {
        maker.place(alloc, rt, pass, k, tally)?;
        reply = maker.shelf.seal(rt, pass);
    }
    Ok(())
}
