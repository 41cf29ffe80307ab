//! Entries under three keys, and sets by number: each call once, with memory to spare.

ghost use Rattle.std.specs.Prelude.{◌≡◌, ◌<◌, ◌≤◌, ◌+◌, [], ◌∷◌, true, length, All, IfOk};
ghost use Rattle.sz_cells.specs.Extent.{flat};

use crate::samples::row_of_20;
use std::alloc::Global;
use std::test::Fail;
use sz_cells::{Cell, CellSet, NoMemory, Run};
use sz_tables::{Chains, SetTable};

/// Three entries, two under the first of three keys and one under the last.
fn three_entries(alloc: Global) -> Result<Chains, NoMemory>
    ensures keys { IfOk result (λ c. c.keys ≡ 3) }
    ensures entries { IfOk result (λ c. c.entries ≡ record { key = 0; item = 70 }
        ∷ record { key = 2; item = 80 } ∷ record { key = 0; item = 90 } ∷ []) }
{
    let mut chains = Chains::new(alloc, 2)?;
    chains.reserve(1, 3)?;
    chains.add_key();
    chains.add(0, 70);
    chains.add(2, 80);
    chains.add(0, 90);
    Ok(chains)
}

/// Whether the entries of each key are linked from the last to the first.
fn are_linked(chains: &Chains) -> bool
    requires keys { chains.now.keys ≡ 3 }
    requires entries { chains.now.entries ≡ record { key = 0; item = 70 }
        ∷ record { key = 2; item = 80 } ∷ record { key = 0; item = 90 } ∷ [] }
{
    chains.last(0) == Some(2)
        && chains.last(1) == None
        && chains.last(2) == Some(1)
        && chains.before(2, 0) == Some(0)
        && chains.before(0, 0) == None
        && chains.item(2) == 90
}

#[test]
fn walks_from_the_last_entry_of_a_key_to_its_first(rt: HostRuntime) -> Result<(), Fail> {
    let chains = three_entries(rt.alloc())?;
    assert!(rt; are_linked(&chains));
    Ok(())
}

/// The number of the set of three cells of a row.
fn number_of(alloc: Global, table: &mut SetTable, cols: [u32; 3]) -> Result<u32, NoMemory>
    requires extent { table.old.extent ≡ flat 1 20 }
    requires cols { All (λ c. c < 20) cols }
    requires few { length table.old.sets < 100 }
    ensures extent { table.new.extent ≡ table.old.extent }
    ensures few { length table.new.sets ≤ length table.old.sets + 1 }
{
    let cells = [
        Cell {
            row: 0,
            col: cols[0],
        },
        Cell {
            row: 0,
            col: cols[1],
        },
        Cell {
            row: 0,
            col: cols[2],
        },
    ];
    let set = CellSet::from_cells(alloc, table.shape(), &cells)?;
    table.reserve(1, set.runs().len())?;
    Ok(table.add(&set))
}

/// The numbers of two sets that are added four times.
fn numbers_of(alloc: Global, table: &mut SetTable) -> Result<[u32; 4], NoMemory>
    requires extent { table.old.extent ≡ flat 1 20 }
    requires none { table.old.sets ≡ [] }
{
    let first = number_of(alloc, table, [0, 5, 10])?;
    let equal = number_of(alloc, table, [0, 5, 10])?;
    // The first run, the last one and the count are those of the set before.
    let other = number_of(alloc, table, [0, 6, 10])?;
    let again = number_of(alloc, table, [10, 0, 5])?;
    Ok([first, equal, other, again])
}

/// Whether two sets are kept, of which the second has these runs.
fn are_kept(table: &SetTable) -> bool {
    if table.len() != 2 {
        return false;
    }
    let runs = table.runs(1);
    runs.len() == 3 && runs.get(1) == Some(&Run { first: 6, last: 6 })
}

/// Whether equal sets have one number, and are kept once.
fn have_one_number(alloc: Global, table: &mut SetTable) -> Result<bool, NoMemory>
    requires extent { table.old.extent ≡ flat 1 20 }
    requires none { table.old.sets ≡ [] }
{
    let numbers = numbers_of(alloc, table)?;
    Ok(numbers == [0, 0, 1, 0] && are_kept(table))
}

#[test]
fn equal_sets_have_one_number(rt: HostRuntime) -> Result<(), Fail> {
    let alloc = rt.alloc();
    let mut table = SetTable::new(alloc, row_of_20()?)?;
    assert!(rt; have_one_number(alloc, &mut table)?);
    Ok(())
}
