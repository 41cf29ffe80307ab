//! The arrays held, in the order in which they came, with an index by name.
ghost use Rattle.std.specs.Prelude.{◌≡◌, ◌+◌, ◌∷◌, ◌++◌, if◌then◌else◌};
ghost use Rattle.sz_catalogue.specs.Terms.{ℕ, List, [], length, map, option_map, IfOk, OnErr};
ghost use Rattle.sz_catalogue.specs.Terms.{bytes_eq, arc_value, size_of, Grid, Named, things_named};
ghost use Rattle.sz_catalogue.specs.Terms.{thing_numbered, versions_in, IsVersionIndex};
ghost use Rattle.sz_catalogue.specs.Terms.{string_bytes};

use crate::memory::{another_owner, own_text};
use std::alloc::Global;
use std::collections::BTreeMap;
use std::marker::Model;
use std::sync::Arc;
use sz_cells::NoMemory;
use sz_spec::Array;

/// The arrays held, and those of each name.
#[derive(Drop)]
pub struct HeldArrays {
    list: Vec<HeldArray>,
    by_name: BTreeMap<String, Vec<Arc<Array>>>,
}

impl Model for HeldArrays {
    ghost Value = { List (Named Grid) };

    ghost view = { λ a. a.list.items };

    ghost invariant = { λ a. IsVersionIndex a.by_name a.list.items };
}

impl HeldArrays {
    pub fn new(alloc: Global) -> HeldArrays
        ensures { result ≡ [] }
    {
        HeldArrays {
            list: Vec::new(alloc),
            by_name: BTreeMap::new(alloc),
        }
    }

    /// How many arrays are held.
    pub fn len(&self) -> usize
        ensures { result ≡ length self.now }
    {
        self.list.len()
    }

    /// The array of a name and a version, from 1. Logarithmic in the names.
    pub fn get(&self, name: &str, version: u32) -> Option<&Arc<Array>>
        ensures { option_map (λ a. arc_value a.now) result
            ≡ thing_numbered version (things_named name.now self.now) }
    {
        if version == 0 {
            return None;
        }
        match self.by_name.get(name) {
            Some(versions) => versions.get(version as usize - 1),
            None => None,
        }
    }

    /// The number of the version that the next array of a name is. Logarithmic in the names.
    pub fn next_version(&self, name: &str) -> usize
        ensures { result ≡ length (things_named name.now self.now) + 1 }
    {
        match self.by_name.get(name) {
            Some(versions) => versions.len() + 1,
            None => 1,
        }
    }

    /// Holds an array as the next version of a name, and gives that version's number. Logarithmic
    /// in the names.
    pub fn push(&mut self, alloc: Global, name: &str, owner: Arc<Array>) -> Result<usize, NoMemory>
        ensures held { IfOk result (λ _. self.new ≡ self.old ++ record {
          name = name.now;
          thing =
              arc_value owner;
        } ∷ []) }
        ensures version { IfOk result (λ n. n ≡ length (things_named name.now self.old) + 1) }
        ensures err { OnErr result (self.new ≡ self.old) }
    {
        let held = HeldArray::make(alloc, name, &owner)?;
        self.list.reserve(1)?;
        let version = enlist(alloc, &mut self.by_name, name, owner)?;
        self.list.push_reserved(held);
        Ok(version)
    }

    /// Lets go of the array that came last, which is one of this name, and says how many cells it
    /// has. Logarithmic in the names, and takes no memory.
    pub fn take_back(&mut self, name: &str) -> u32
        requires last { (rest : List (Named Grid)) × (g : Grid)
            × (self.old ≡ rest ++ record { name = name.now; thing = g } ∷ []) }
        ensures { (rest : List (Named Grid)) (g : Grid)
            → self.old ≡ rest ++ record { name = name.now; thing = g } ∷ []
            → (self.new ≡ rest) × (result ≡ size_of g.extent) }
    {
        delist(&mut self.by_name, name);
        match self.list.pop() {
            Some(held) => held.array.shape().size(),
            None => unreachable!(),
        }
    }
}

/// An array under a name.
#[derive(Drop)]
struct HeldArray {
    name: String,
    array: Arc<Array>,
}

impl Model for HeldArray {
    ghost Value = { Named Grid };

    ghost view = { λ x. record { name = string_bytes x.name; thing = arc_value x.array } };
}

impl HeldArray {
    fn make(alloc: Global, name: &str, array: &Arc<Array>) -> Result<HeldArray, NoMemory>
        ensures { IfOk result (λ h. h ≡ record { name = name.now; thing = arc_value array.now }) }
    {
        let name = own_text(alloc, name)?;
        let array = another_owner(array)?;
        Ok(HeldArray { name, array })
    }
}

/// Adds an array to those of a name, and says how many the name has then.
fn enlist(
    alloc: Global,
    index: &mut BTreeMap<String, Vec<Arc<Array>>>,
    name: &str,
    array: Arc<Array>,
) -> Result<usize, NoMemory>
    ensures added { IfOk result (λ _. (q : List ℕ)
        → versions_in index.new q
        ≡ versions_in index.old q ++ (if bytes_eq q name.now then arc_value array ∷ [] else [])) }
    ensures count { IfOk result (λ n. n ≡ length (versions_in index.old name.now) + 1) }
    ensures err { OnErr result ((q : List ℕ) → versions_in index.new q ≡ versions_in index.old q) }
{
    let key = own_text(alloc, name)?;
    let entry = index.entry(key)?;
    add(entry.or_insert(Vec::new(alloc)), array)
}

/// Takes the last array of a name away.
fn delist(index: &mut BTreeMap<String, Vec<Arc<Array>>>, name: &str)
    requires { (rest : List Grid) × (g : Grid)
        × (versions_in index.old name.now ≡ rest ++ g ∷ []) }
    ensures { (rest : List Grid) (g : Grid) → versions_in index.old name.now ≡ rest ++ g ∷ []
        → (q : List ℕ)
        → versions_in index.new q
        ≡ (if bytes_eq q name.now then rest else versions_in index.old q) }
{
    if let Some(versions) = index.get_mut(name) {
        versions.pop();
    }
}

/// Adds an owner at the end, and says how many there are then.
fn add(versions: &mut Vec<Arc<Array>>, array: Arc<Array>) -> Result<usize, NoMemory>
    ensures added { IfOk result (λ _. map (λ a. arc_value a) versions.new.items
        ≡ map (λ a. arc_value a) versions.old.items ++ arc_value array ∷ []) }
    ensures count { IfOk result (λ n. n ≡ length (map (λ a. arc_value a) versions.old.items) + 1) }
    ensures err { OnErr result (map (λ a. arc_value a) versions.new.items
        ≡ map (λ a. arc_value a) versions.old.items) }
{
    versions.push(array)?;
    Ok(versions.len())
}
