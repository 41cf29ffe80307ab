//! The affected cells of a node: those that the changed cells of what it takes reach forward, by
//! the relation of the old arrays or by that of the new ones.

ghost use Rattle.std.specs.Prelude.{◌≡◌, ◌<◌, ◌||◌};
ghost use Rattle.sz_refresh.specs.Terms.{ℕ, [], length, map, All, true, false, IfOk, MatchOption};
ghost use Rattle.sz_refresh.specs.Terms.{OnOk, arc_value, Cell, holds, any_cell, has, with_those};
ghost use Rattle.sz_refresh.specs.Terms.{Clean, Lookup, extents_of, extent_at, related, output_of};
ghost use Rattle.sz_refresh.specs.Terms.{has_mapping, affected_by, is_regions, changed_from};
ghost use Rattle.sz_refresh.specs.Terms.{is_before, is_changed, HaveShapes, reaches, reaches_all};

use crate::labels::add_joined;
use crate::named::{add_between, add_named};
use crate::near::add_round;
use crate::whole::{is_whole, reaches_all};
use std::alloc::Global;
use std::sync::Arc;
use sz_cells::{CellBits, CellSet, NoMemory};
use sz_frame::{at_work, input_of};
use sz_ops::image_by_map;
use sz_ops_window::Cleaning;
use sz_spec::{Array, Dir, Mode, Op, OpAt, SourceRef, arity, has_mode};

/// The affected cells of an operator over old and new inputs, given what is changed of its sources:
/// the cells `changed` of base array `input`, and of each node before it a set. It takes the old
/// output, and of connected regions, which are told by their labels, the new output too.
///
/// Takes memory for bitmaps. Takes time in the number of cells that are changed and affected, but
/// for the table of a lookup, of which each output cell is looked at, and for connected regions,
/// whose labels are looked at from the first affected row to the last.
pub(crate) fn affected_of(
    alloc: Global,
    at: &OpAt,
    old: &[Arc<Array>],
    new: &[Arc<Array>],
    old_out: &Array,
    labels: Option<&Array>,
    from: &[SourceRef],
    input: u32,
    changed: &CellSet,
    sets: &[CellSet],
) -> Result<CellSet, NoMemory>
    requires old { extents_of (map (λ a. arc_value a) old.now) ≡ at.now.ins }
    requires new { extents_of (map (λ a. arc_value a) new.now) ≡ at.now.ins }
    requires old_out { old_out.now ≡ output_of at.now.op (map (λ a. arc_value a) old.now) }
    requires labels { MatchOption labels (is_regions at.now.op ≡ false)
        (λ out. out.now ≡ output_of at.now.op (map (λ a. arc_value a) new.now)) }
    requires count { length from.now ≡ length at.now.ins }
    requires before { All (λ s. is_before (length sets.now) s ≡ true) from.now }
    requires shapes { HaveShapes input changed.now sets.now at.now.ins from.now }
    ensures { IfOk result (λ c. c ≡ affected_by at.now.op (map (λ a. arc_value a) old.now)
        (map (λ a. arc_value a) new.now) (map (changed_from input changed.now sets.now) from.now)) }
{
    at.ins(); // there are as many inputs as the operator takes
    let mut to = CellBits::new(alloc, at.out())?;
    for number in 0..arity(at.op()) {
        match changed_from(from[number as usize], input, changed, sets) {
            Some(set) => {
                add_reached(alloc, at, old, new, old_out, labels, number, set, &mut to)?;
            }
            None => {}
        }
    }
    to.to_set(alloc)
}

/// What is changed of a source. `None` for a base array that is not the changed one.
fn changed_from<'a>(
    source: SourceRef,
    input: u32,
    changed: &'a CellSet,
    sets: &'a [CellSet],
) -> Option<&'a CellSet>
    requires { is_before (length sets.now) source ≡ true }
    ensures { MatchOption result
        ((changed_from input changed.now sets.now source).indexes ≡ [])
        (λ s. (is_changed input source ≡ true)
        × (s.now ≡ changed_from input changed.now sets.now source)) }
{
    match source {
        SourceRef::Input(number) => { if number == input { Some(changed) } else { None } }
        SourceRef::Node(number) => Some(&sets[number as usize]),
    }
}

/// Adds the output cells that are related to a cell of a set of an input's cells, by the old inputs
/// or by the new ones.
fn add_reached(
    alloc: Global,
    at: &OpAt,
    old: &[Arc<Array>],
    new: &[Arc<Array>],
    old_out: &Array,
    labels: Option<&Array>,
    number: u32,
    set: &CellSet,
    to: &mut CellBits,
) -> Result<(), NoMemory>
    requires old { extents_of (map (λ a. arc_value a) old.now) ≡ at.now.ins }
    requires new { extents_of (map (λ a. arc_value a) new.now) ≡ at.now.ins }
    requires old_out { old_out.now ≡ output_of at.now.op (map (λ a. arc_value a) old.now) }
    requires labels { MatchOption labels (is_regions at.now.op ≡ false)
        (λ out. out.now ≡ output_of at.now.op (map (λ a. arc_value a) new.now)) }
    requires number { number < length at.now.ins }
    requires set { set.now.extent ≡ extent_at at.now.ins number }
    requires to { to.old.extent ≡ at.now.out }
    ensures { OnOk result (to.new ≡ with_those to.old (reaches at.now.op
        (map (λ a. arc_value a) old.now) (map (λ a. arc_value a) new.now) number set.now)) }
{
    to.shape(); // the set as it was is that of its cells
    if set.runs().is_empty() {
        return Ok(());
    }
    if reaches_all(at.op(), number) && is_whole(set) {
        add_all(at, old, new, number, set, to);
        return Ok(());
    }
    let mut from = CellBits::new(alloc, set.shape())?;
    from.add_set(set);
    if has_mode(at.op(), Mode::Map) {
        image_by_map(at, Dir::Forward, number, &from, to);
        Ok(())
    } else {
        add_by_values(alloc, at, old, new, old_out, labels, number, &from, to)
    }
}

/// The same for a set of all cells, where each output cell is related to some cell of the input:
/// all cells are added.
fn add_all(
    at: &OpAt,
    old: &[Arc<Array>],
    _new: &[Arc<Array>],
    number: u32,
    _set: &CellSet,
    to: &mut CellBits,
)
    requires op { reaches_all at.now.op number ≡ true }
    requires old { extents_of (map (λ a. arc_value a) old.now) ≡ at.now.ins }
    requires new { extents_of (map (λ a. arc_value a) _new.now) ≡ at.now.ins }
    requires set { _set.now.extent ≡ extent_at at.now.ins number }
    requires whole { (c : Cell) → holds _set.now.extent c ≡ true → has _set.now c ≡ true }
    requires to { to.old.extent ≡ at.now.out }
    ensures { to.new ≡ with_those to.old (reaches at.now.op
        (map (λ a. arc_value a) old.now) (map (λ a. arc_value a) _new.now) number _set.now) }
{
    let shape = at_work(at, old);
    add_between(0, shape.size(), to);
}

/// The same for an operator without a mapping, whose relation depends on values. A key of a lookup
/// is related to itself, and a cleaned cell to cells round it; a cell of the table is named by keys
/// anywhere, and a region is told by labels.
fn add_by_values(
    alloc: Global,
    at: &OpAt,
    old: &[Arc<Array>],
    new: &[Arc<Array>],
    old_out: &Array,
    labels: Option<&Array>,
    number: u32,
    from: &CellBits,
    to: &mut CellBits,
) -> Result<(), NoMemory>
    requires valued { has_mapping at.now.op ≡ false }
    requires old { extents_of (map (λ a. arc_value a) old.now) ≡ at.now.ins }
    requires new { extents_of (map (λ a. arc_value a) new.now) ≡ at.now.ins }
    requires old_out { old_out.now ≡ output_of at.now.op (map (λ a. arc_value a) old.now) }
    requires labels { MatchOption labels (is_regions at.now.op ≡ false)
        (λ out. out.now ≡ output_of at.now.op (map (λ a. arc_value a) new.now)) }
    requires number { number < length at.now.ins }
    requires from { from.now.extent ≡ extent_at at.now.ins number }
    requires to { to.old.extent ≡ at.now.out }
    ensures { OnOk result (to.new ≡ with_those to.old (reaches at.now.op
        (map (λ a. arc_value a) old.now) (map (λ a. arc_value a) new.now) number from.now)) }
{
    at_work(at, old); // of one input there is no other number
    match at.op() {
        Op::Clean { t } => add_cleaned(alloc, at, old, new, *t, from, to),
        Op::Lookup => {
            add_looked_up(at, old, new, number, from, to);
            Ok(())
        }
        Op::Regions { .. } => match labels {
            Some(labels) => add_joined(alloc, at, old, new, old_out, labels, from, to),
            None => unreachable!(),
        },
        _ => unreachable!(),
    }
}

/// The same for cleaning, by the squares round the cells of the set.
fn add_cleaned(
    alloc: Global,
    at: &OpAt,
    old: &[Arc<Array>],
    new: &[Arc<Array>],
    t: i64,
    from: &CellBits,
    to: &mut CellBits,
) -> Result<(), NoMemory>
    requires op { at.now.op ≡ Clean t }
    requires old { extents_of (map (λ a. arc_value a) old.now) ≡ at.now.ins }
    requires new { extents_of (map (λ a. arc_value a) new.now) ≡ at.now.ins }
    requires from { from.now.extent ≡ extent_at at.now.ins 0 }
    requires to { to.old.extent ≡ at.now.out }
    ensures { OnOk result (to.new ≡ with_those to.old (reaches at.now.op
        (map (λ a. arc_value a) old.now) (map (λ a. arc_value a) new.now) 0 from.now)) }
{
    at_work(at, old);
    at_work(at, new);
    let before = Cleaning { at, inputs: old, t };
    let now = Cleaning { at, inputs: new, t };
    add_round(alloc, &before, &now, from, to)
}

/// The same for a lookup, of its keys or of its table.
fn add_looked_up(
    at: &OpAt,
    old: &[Arc<Array>],
    new: &[Arc<Array>],
    number: u32,
    from: &CellBits,
    to: &mut CellBits,
)
    requires op { at.now.op ≡ Lookup }
    requires old { extents_of (map (λ a. arc_value a) old.now) ≡ at.now.ins }
    requires new { extents_of (map (λ a. arc_value a) new.now) ≡ at.now.ins }
    requires number { number < 2 }
    requires from { from.now.extent ≡ extent_at at.now.ins number }
    requires to { to.old.extent ≡ at.now.out }
    ensures { to.new ≡ with_those to.old (reaches at.now.op
        (map (λ a. arc_value a) old.now) (map (λ a. arc_value a) new.now) number from.now) }
{
    if number == 0 {
        add_keys(at, old, new, from, to);
    } else {
        add_matched(at, old, new, from, to);
    }
}

/// The same for the keys of a lookup: each is related to itself.
fn add_keys(at: &OpAt, old: &[Arc<Array>], _new: &[Arc<Array>], from: &CellBits, to: &mut CellBits)
    requires op { at.now.op ≡ Lookup }
    requires old { extents_of (map (λ a. arc_value a) old.now) ≡ at.now.ins }
    requires from { from.now.extent ≡ extent_at at.now.ins 0 }
    requires to { to.old.extent ≡ at.now.out }
    ensures { to.new ≡ with_those to.old (reaches at.now.op
        (map (λ a. arc_value a) old.now) (map (λ a. arc_value a) _new.now) 0 from.now) }
{
    at_work(at, old);
    from.shape(); // the set is that of its cells
    to.add_bits(from);
}

/// The same for the table of a lookup: a key is related to the cell that it names.
fn add_matched(
    at: &OpAt,
    old: &[Arc<Array>],
    new: &[Arc<Array>],
    from: &CellBits,
    to: &mut CellBits,
)
    requires op { at.now.op ≡ Lookup }
    requires old { extents_of (map (λ a. arc_value a) old.now) ≡ at.now.ins }
    requires new { extents_of (map (λ a. arc_value a) new.now) ≡ at.now.ins }
    requires from { from.now.extent ≡ extent_at at.now.ins 1 }
    requires to { to.old.extent ≡ at.now.out }
    ensures { to.new ≡ with_those to.old (reaches at.now.op
        (map (λ a. arc_value a) old.now) (map (λ a. arc_value a) new.now) 1 from.now) }
{
    at_work(at, old);
    at_work(at, new);
    from.shape(); // the set is that of its cells
    let keys = input_of(at, old, 0).cells();
    let new_keys = input_of(at, new, 0).cells();
    let size = to.shape().size();
    add_named(0, 0, size, keys, from, new_keys, from, to);
}
