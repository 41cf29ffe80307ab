//! Lineages by number, each different one once.

ghost use Rattle.std.specs.Prelude.{◌≡◌, ◌<◌, ◌≤◌, ◌+◌, ◌++◌};
ghost use Rattle.sz_merge.specs.Terms.{All, map, length, true, Some, IfOk, OnOk, slice_get};
ghost use Rattle.sz_merge.specs.Terms.{arc_value, is_extent, IsSetOf, AreDifferent, nothing};
ghost use Rattle.sz_merge.specs.Terms.{spelling, list_at, KeepsNumbers};

use std::alloc::Global;
use std::marker::Model;
use std::sync::Arc;
use sz_cells::laws::{a_set_is_its_cells, a_shape_is_within_limits};
use sz_cells::{CellSet, NoMemory, Shape};
use sz_frame::SetList;
use sz_region::put_set;
use sz_tables::PayloadTable;

/// Lineages over inputs of some shapes, each different one once. Number 0 is the one of no cell.
#[derive(Drop)]
pub struct LineageTable {
    ins: Vec<Shape>,
    lists: Vec<SetList>,
    /// The bytes of each lineage, by which an equal one is found.
    words: PayloadTable,
}

impl Model for LineageTable {
    ghost use Rattle.sz_merge.specs.Lineages.{Lineages};
    ghost use Rattle.sz_merge.specs.Spelled.{AreSpelled};

    ghost Value = { Lineages };

    ghost view = { λ t. record { ins = t.ins.items; lists = t.lists.items } };

    ghost invariant = { λ t. AreSpelled t.ins.items t.lists.items t.words.payloads };
}

impl LineageTable {
    /// The table of the lineage of no cell.
    pub fn new(alloc: Global, ins: &[Shape]) -> Result<LineageTable, NoMemory>
        ensures ins { IfOk result (λ t. t.ins ≡ ins.now) }
        ensures zero { IfOk result (λ t. slice_get t.lists 0 ≡ Some (nothing ins.now)) }
    {
        shapes_are_within_limits(ins);
        let mut table = LineageTable {
            ins: ins.to_vec(alloc)?,
            lists: Vec::new(alloc),
            words: PayloadTable::new(alloc)?,
        };
        let none = no_sets(alloc, ins)?;
        table.add(alloc, none)?;
        Ok(table)
    }

    /// The number of this lineage, which is added where no lineage of the table is equal.
    pub fn add(&mut self, alloc: Global, sets: Vec<Arc<CellSet>>) -> Result<u32, NoMemory>
        requires { map (λ s. s.extent) (map (λ a. arc_value a) sets.items) ≡ self.old.ins }
        ensures number { IfOk result
            (λ n. slice_get self.new.lists n ≡ Some (map (λ a. arc_value a) sets.items)) }
        ensures kept { KeepsNumbers self.old.lists self.new.lists }
        ensures few { length self.new.lists ≤ length self.old.lists + 1 }
        ensures ins { self.new.ins ≡ self.old.ins }
    {
        let mut word = Vec::new(alloc);
        put_sets(&sets, &mut word)?;
        if self.words.len() >= 4_294_967_294 {
            return Err(NoMemory);
        }
        self.words.reserve(1, word.len())?;
        self.lists.reserve(1)?;
        let number = self.words.add(&word);
        if self.lists.len() < self.words.len() as usize {
            self.lists.push_reserved(SetList::of(sets));
        }
        Ok(number)
    }

    /// How many lineages there are. No two of them are equal.
    pub fn len(&self) -> u32
        ensures count { result ≡ length self.now.lists }
        ensures different { AreDifferent self.now.lists }
    {
        self.words.len()
    }

    /// The lineages, in the order of their numbers.
    pub fn lists(&self) -> &[SetList]
        ensures { result.now ≡ self.now.lists }
    {
        &self.lists
    }

    /// The sets of the lineage of a number.
    pub fn sets(&self, number: u32) -> &[Arc<CellSet>]
        requires { number < length self.now.lists }
        ensures sets { map (λ a. arc_value a) result.now ≡ list_at self.now.lists number }
        ensures extents { map (λ s. s.extent) (list_at self.now.lists number) ≡ self.now.ins }
    {
        self.lists[number as usize].as_slice()
    }
}

/// Every shape is within the limits.
fn shapes_are_within_limits(ins: &[Shape])
    ensures { All (λ e. is_extent e ≡ true) ins.now }
{
    for shape in ins {
        a_shape_is_within_limits(shape);
    }
}

/// Of each input the set of no cell.
pub fn no_sets(alloc: Global, ins: &[Shape]) -> Result<Vec<Arc<CellSet>>, NoMemory>
    ensures { IfOk result (λ v. map (λ a. arc_value a) v.items ≡ nothing ins.now) }
{
    let mut sets = Vec::new(alloc);
    for input in 0..ins.len() {
        let set = CellSet::from_cells(alloc, ins[input], &[])?;
        sets.push(Arc::new(alloc, set)?)?;
    }
    Ok(sets)
}

/// Appends the bytes of these sets, one after another.
fn put_sets(sets: &[Arc<CellSet>], to: &mut Vec<u8>) -> Result<(), NoMemory>
    ensures ok { OnOk result
        (to.new.items ≡ to.old.items ++ spelling (map (λ a. arc_value a) sets.now)) }
    ensures right { OnOk result
        (All (λ s. IsSetOf s.extent s) (map (λ a. arc_value a) sets.now)) }
{
    for set in sets {
        a_set_is_its_cells(set);
        put_set(set, to)?;
    }
    Ok(())
}
