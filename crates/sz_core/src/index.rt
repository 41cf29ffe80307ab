//! An index of pairs: from each cell on one side to the cells on the other side.

ghost use Rattle.std.specs.Prelude.{◌≡◌, ◌<◌, ◌≤◌, ◌+◌, ◌-◌, ◌==◌, ◌||◌, ◌&&◌};
ghost use Rattle.sz_core.specs.Terms.{ℕ, true, [], All, IfOk, OnErr, length, map, replicate};
ghost use Rattle.sz_core.specs.Terms.{list_any, flat_map, size_of, index_of, with_those};
ghost use Rattle.sz_core.specs.Terms.{AreRunsFrom, indexes_of, near_cell, far_cell, leads};
ghost use Rattle.sz_core.specs.Terms.{groups_lead, pair_leads, LiesWithin, LeadInto, IsSpelled};
ghost use Rattle.sz_core.specs.Terms.{is_among, cells_linked, is_linked_from};

use crate::pairs::Pair;
use std::alloc::Global;
use std::marker::Model;
use sz_cells::{CellBits, CellSet, NoMemory, Run, Shape};
use sz_spec::Dir;

/// For each row-major index on one side, the row-major indexes on the other side to which pairs
/// link it.
#[derive(Drop)]
pub(crate) struct Index {
    groups: Vec<Vec<u32>>,
    found: CellBits,
}

impl Model for Index {
    ghost use Rattle.std.specs.Prelude.{map};
    ghost use Rattle.sz_core.specs.Links.{Links, LeadInto};

    ghost Value = { Links };

    ghost view = { λ x.
        record { to = x.found.extent; groups = map (λ g. g.items) x.groups.items } };

    ghost invariant = { λ x. LeadInto x.found.extent (map (λ g. g.items) x.groups.items) };
}

impl Index {
    /// The index of no pair, for so many cells on one side and this shape on the other.
    pub fn new(alloc: Global, count: u32, to: Shape) -> Result<Index, NoMemory>
        ensures { IfOk result (λ x. x ≡ record { to = to; groups = replicate count [] }) }
    {
        let mut groups = Vec::with_capacity(alloc, count as usize)?;
        for _key in 0..count {
            groups.push(Vec::new(alloc))?;
        }
        let found = CellBits::new(alloc, to)?;
        Ok(Index { groups, found })
    }

    /// Adds the pairs of one of the node's inputs that a list has, each from its cell on the near
    /// side of a direction to the one on the far side.
    pub fn add_pairs(&mut self, dir: Dir, input: u32, pairs: &[Pair]) -> Result<(), NoMemory>
        requires { All (LiesWithin dir input (length self.old.groups) self.old.to) pairs.now }
        ensures to { self.new.to ≡ self.old.to }
        ensures count { length self.new.groups ≡ length self.old.groups }
        ensures ok { IfOk result (λ _. (k t : ℕ) → leads self.new k t
            ≡ (leads self.old k t || list_any (pair_leads dir input k t) pairs.now)) }
    {
        for pair in pairs {
            if pair.input == input {
                let (near, far) = ends(dir, pair);
                self.add(near, far)?;
            }
        }
        Ok(())
    }

    /// Links one more index to another.
    fn add(&mut self, near: u32, far: u32) -> Result<(), NoMemory>
        requires near { near < length self.old.groups }
        requires far { far < size_of self.old.to }
        ensures to { self.new.to ≡ self.old.to }
        ensures count { length self.new.groups ≡ length self.old.groups }
        ensures ok { IfOk result (λ _. (k t : ℕ) → leads self.new k t
            ≡ (leads self.old k t || ((near == k) && (far == t)))) }
    {
        link(&mut self.groups, near, far)
    }

    /// The cells to which the cells of a set are linked.
    ///
    /// Takes time in the number of the set's cells, of their links, and of the words of a bitmap of
    /// the other side that lie between the least and the greatest cell found by this call and the
    /// one before it.
    pub fn image(&mut self, alloc: Global, from: &CellSet) -> Result<CellSet, NoMemory>
        requires { size_of from.now.extent ≤ length self.old.groups }
        ensures same { self.new ≡ self.old }
        ensures ok { IfOk result (λ set. set ≡ cells_linked self.old from.now) }
    {
        self.found.clear();
        add_runs(&mut self.found, &self.groups, from.runs());
        self.found.to_set(alloc)
    }
}

/// The cell of a pair from which a step leads, and the one to which it leads.
fn ends(dir: Dir, pair: &Pair) -> (u32, u32)
    ensures near { result.0 ≡ near_cell dir pair.now }
    ensures far { result.1 ≡ far_cell dir pair.now }
{
    match dir {
        Dir::Back => (pair.out, pair.cell),
        Dir::Forward => (pair.cell, pair.out),
    }
}

/// Puts an index behind those of a group.
fn link(groups: &mut Vec<Vec<u32>>, near: u32, far: u32) -> Result<(), NoMemory>
    requires { near < length groups.old.items }
    ensures count { length groups.new.items ≡ length groups.old.items }
    ensures ok { IfOk result (λ _. (k t : ℕ) → groups_lead (map (λ g. g.items) groups.new.items) k t
        ≡ (groups_lead (map (λ g. g.items) groups.old.items) k t || ((near == k) && (far == t)))) }
    ensures err { OnErr result
        (map (λ g. g.items) groups.new.items ≡ map (λ g. g.items) groups.old.items) }
{
    let group = &mut groups[near as usize];
    group.push(far)?;
    Ok(())
}

/// Adds the cells to which the indexes of runs are linked.
fn add_runs(found: &mut CellBits, groups: &[Vec<u32>], runs: &[Run])
    requires within { AreRunsFrom 0 (length groups.now) runs.now }
    requires links { LeadInto found.old.extent (map (λ g. g.items) groups.now) }
    requires spelled { IsSpelled found.old }
    ensures { found.new ≡ with_those found.old (is_linked_from (map (λ g. g.items) groups.now)
        (flat_map indexes_of runs.now) found.old.extent) }
{
    for run in runs {
        add_run(found, groups, *run);
    }
}

/// Adds the cells to which the indexes of a run are linked.
fn add_run(found: &mut CellBits, groups: &[Vec<u32>], run: Run)
    requires order { run.first ≤ run.last }
    requires within { run.last < length groups.now }
    requires links { LeadInto found.old.extent (map (λ g. g.items) groups.now) }
    requires spelled { IsSpelled found.old }
    ensures { found.new ≡ with_those found.old (is_linked_from (map (λ g. g.items) groups.now)
        (indexes_of run) found.old.extent) }
{
    for index in run.first as usize..run.last as usize + 1 {
        add_group(found, &groups[index]);
    }
}

/// Adds the cells of these indexes.
fn add_group(found: &mut CellBits, group: &[u32])
    requires links { (t : ℕ) → is_among group.now t ≡ true → t < size_of found.old.extent }
    requires spelled { IsSpelled found.old }
    ensures { found.new
        ≡ with_those found.old (λ x. is_among group.now (index_of found.old.extent x)) }
{
    let shape = found.shape();
    for index in group {
        found.set(shape.cell_at(*index));
    }
}
