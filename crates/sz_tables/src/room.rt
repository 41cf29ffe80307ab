//! Room for listed sets, made before they are read: how many there are of each array, and how many
//! runs they have, is told by the counts alone. Nothing rests on what is told: a table that has less
//! room makes more as it is read.

ghost use Rattle.std.specs.Prelude.{◌≡◌, ◌∷◌};
ghost use Rattle.sz_tables.specs.Terms.{[], map, All};

use crate::set_table::SetTable;
use sz_cells::NoMemory;
use sz_region::take_number;

/// How many sets of an array are found, and how many runs they have together.
#[derive(Clone, Copy)]
struct Found {
    sets: u32,
    runs: usize,
}

/// How many things are found, each of which begins with a count, and how much they count together.
#[derive(Clone, Copy)]
pub(crate) struct Counted {
    pub things: u32,
    pub sum: usize,
}

/// Of how many arrays the sets are counted: an operator has at most two inputs.
const ARRAYS: usize = 3;

/// Makes room in each table for the sets of its array among so many that are listed from a place
/// on, as far as the bytes go.
///
/// Costs a look at the count of each listed set.
pub(crate) fn make_room(
    bytes: &[u8],
    count: u32,
    at: u64,
    outs: &mut SetTable,
    tables: &mut [SetTable],
) -> Result<(), NoMemory>
    requires none { All (λ t. t.sets ≡ []) (outs.old ∷ tables.old) }
    ensures extents { map (λ t. t.extent) (outs.new ∷ tables.new)
        ≡ map (λ t. t.extent) (outs.old ∷ tables.old) }
    ensures none { All (λ t. t.sets ≡ []) (outs.new ∷ tables.new) }
{
    let found = find_sets(bytes, count, at);
    let own = found_at(&found, 0);
    outs.reserve(own.sets, own.runs)?;
    make_room_in_each(&found, tables)
}

/// As [`make_room`], in the tables of the inputs.
fn make_room_in_each(found: &[Found], tables: &mut [SetTable]) -> Result<(), NoMemory>
    requires none { All (λ t. t.sets ≡ []) tables.old }
    ensures extents { map (λ t. t.extent) tables.new ≡ map (λ t. t.extent) tables.old }
    ensures none { All (λ t. t.sets ≡ []) tables.new }
{
    let mut array = 0u8;
    for table in tables.iter_mut() {
        array = array.saturating_add(1);
        let own = found_at(found, array);
        table.reserve(own.sets, own.runs)?;
    }
    Ok(())
}

/// What was found of an array: nothing where it was not counted.
fn found_at(found: &[Found], array: u8) -> Found {
    match found.get(array as usize) {
        Some(own) => *own,
        None => Found { sets: 0, runs: 0 },
    }
}

/// The sets of each array among so many that are listed from a place on.
fn find_sets(bytes: &[u8], count: u32, at: u64) -> [Found; ARRAYS] {
    let mut found = [Found { sets: 0, runs: 0 }; ARRAYS];
    let mut place = at;
    for _index in 0..count {
        let Some(next) = find_set(bytes, place, &mut found) else {
            return found;
        };
        place = next;
    }
    found
}

/// Counts the listed set at a place, and answers the place behind it. `None` where the bytes do not
/// go so far.
fn find_set(bytes: &[u8], at: u64, found: &mut [Found]) -> Option<u64> {
    let array = bytes.get(at as usize)?;
    let runs = take_number(bytes, at.saturating_add(1))?;
    let next = at.saturating_add(5).saturating_add(u64::from(runs) * 8);
    if (bytes.len() as u64) < next {
        return None;
    }
    if let Some(own) = found.get_mut(*array as usize) {
        own.sets = own.sets.saturating_add(1);
        own.runs = own.runs.saturating_add(runs as usize);
    }
    Some(next)
}

/// The things among so many that begin at a place one behind the other, each a count and so many
/// bytes for each that it counts, as far as the bytes go.
///
/// Costs a look at the count of each.
pub(crate) fn find_counted(bytes: &[u8], count: u32, at: u64, width: u32) -> Counted {
    let mut found = Counted { things: 0, sum: 0 };
    let mut place = at;
    for _index in 0..count {
        let Some(own) = take_number(bytes, place) else {
            return found;
        };
        place = place
            .saturating_add(4)
            .saturating_add(u64::from(own) * u64::from(width));
        if (bytes.len() as u64) < place {
            return found;
        }
        found.things = found.things.saturating_add(1);
        found.sum = found.sum.saturating_add(own as usize);
    }
    found
}
