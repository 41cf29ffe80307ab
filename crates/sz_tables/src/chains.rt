//! Entries under keys, each entry linked to the one before it of the same key.

ghost use Rattle.std.specs.Prelude.{◌≡◌, ◌<◌, ◌≤◌, ◌+◌, ◌-◌, ◌^◌, ◌∷◌, ◌++◌};
ghost use Rattle.sz_tables.specs.Terms.{[], length, map, max, OnOk, OnErr, IfOk, replicate};
ghost use Rattle.sz_tables.specs.Terms.{vec_capacity, HoldsAt, IsLastBelow, IsWidened, rest_under};
ghost use Rattle.sz_tables.specs.Terms.{told};

use std::alloc::Global;
use std::marker::Model;
use sz_cells::NoMemory;

/// Entries in the order in which they came, each filed under a key below the number of keys.
#[derive(Drop)]
pub struct Chains {
    /// For each key one more than the number of its last entry, or 0.
    heads: Vec<u32>,
    links: Vec<Link>,
    spare_keys: u32,
    spare: u32,
}

/// An entry, and one more than the number of the entry before it of the same key, or 0.
#[derive(Clone, Copy)]
struct Link {
    key: u32,
    item: u32,
    before: u32,
}

impl Model for Chains {
    ghost use Rattle.std.specs.Prelude.{length, map, [], ◌∷◌, vec_capacity};
    ghost use Rattle.sz_tables.specs.Filed.{Files};

    ghost Value = { Files };

    ghost use Rattle.sz_tables.specs.Filed.{entry_of, AreChained, HasRoom};

    ghost view = { λ c. record {
      keys = length c.heads.items;
      entries = map entry_of c.links.items;
      spare_keys = c.spare_keys;
      spare = c.spare;
      capacities = vec_capacity c.heads ∷ vec_capacity c.links ∷ [];
    } };

    ghost invariant = { λ c. AreChained c.heads.items c.links.items
        × HasRoom (length c.heads.items) c.spare_keys (vec_capacity c.heads)
        × HasRoom (length c.links.items) c.spare (vec_capacity c.links) };
}

impl Chains {
    /// No entry yet, under so many keys, and room for no more than these.
    pub fn new(alloc: Global, keys: u32) -> Result<Chains, NoMemory>
        ensures { IfOk result (λ c. c ≡ record {
          keys = keys;
          entries = [];
          spare_keys = 0;
          spare = 0;
          capacities = keys ∷ 0 ∷ [];
        }) }
    {
        Ok(Chains {
            heads: no_heads(alloc, keys)?,
            links: Vec::new(alloc),
            spare_keys: 0,
            spare: 0,
        })
    }

    /// Makes room for so many more keys and entries, where there is none yet.
    pub fn reserve(&mut self, keys: u32, entries: u32) -> Result<(), NoMemory>
        requires keys { self.old.keys + keys < 2 ^ 32 }
        requires entries { length self.old.entries + entries < 2 ^ 32 }
        ensures ok { OnOk result (self.new ≡ record self.old {
          spare_keys = max self.old.spare_keys keys;
          spare = max self.old.spare entries;
          capacities = self.new.capacities;
        }) }
        ensures kept { self.new ≡ record self.old {
          spare_keys = self.new.spare_keys;
          spare = self.new.spare;
          capacities = self.new.capacities;
        } }
        ensures grown { (self.old.spare_keys ≤ self.new.spare_keys)
            × (self.old.spare ≤ self.new.spare) }
    {
        self.reserve_keys(keys)?;
        self.reserve_entries(entries)
    }

    /// Makes room for so many more keys.
    fn reserve_keys(&mut self, more: u32) -> Result<(), NoMemory>
        requires { self.old.keys + more < 2 ^ 32 }
        ensures ok { OnOk result (self.new ≡ record self.old {
          spare_keys = max self.old.spare_keys more;
          capacities = self.new.capacities;
        }) }
        ensures err { OnErr result (self.new ≡ self.old) }
    {
        if more <= self.spare_keys {
            return Ok(());
        }
        self.heads.reserve(more as usize)?;
        self.spare_keys = more;
        Ok(())
    }

    /// Makes room for so many more entries.
    fn reserve_entries(&mut self, more: u32) -> Result<(), NoMemory>
        requires { length self.old.entries + more < 2 ^ 32 }
        ensures ok { OnOk result (self.new ≡ record self.old {
          spare = max self.old.spare more;
          capacities = self.new.capacities;
        }) }
        ensures err { OnErr result (self.new ≡ self.old) }
    {
        if more <= self.spare {
            return Ok(());
        }
        self.links.reserve(more as usize)?;
        self.spare = more;
        Ok(())
    }

    /// Makes room for so many more entries, and where there would be more than four entries for
    /// each key, also more keys. Then each entry is filed under the rest of its item.
    ///
    /// Costs a visit to each entry where there are more keys: all calls together a few visits to
    /// each.
    pub fn widen(&mut self, entries: u32) -> Result<(), NoMemory>
        requires few { length self.old.entries + entries < 2 ^ 32 }
        ensures ok { OnOk result (entries ≤ self.new.spare) }
        ensures err { OnErr result (self.old.spare ≤ self.new.spare) }
        ensures kept { IsWidened self.old self.new }
    {
        let count = self.len() + entries;
        if count / 4 <= self.keys() {
            return self.reserve(0, entries);
        }
        *self = self.filed_anew(count / 4 * 2 + 1, entries)?;
        Ok(())
    }

    /// These entries under so many keys, each under the rest of its item, with room for so many
    /// more.
    fn filed_anew(&self, keys: u32, more: u32) -> Result<Chains, NoMemory>
        requires keys { 0 < keys }
        requires few { length self.now.entries + more < 2 ^ 32 }
        ensures keys { IfOk result (λ c. c.keys ≡ keys) }
        ensures entries { IfOk result (λ c. c.entries ≡ map (rest_under keys) self.now.entries) }
        ensures room { IfOk result (λ c. c.spare ≡ more) }
    {
        let mut anew = Chains::new(*self.links.allocator(), keys)?;
        anew.reserve(0, self.len() + more)?;
        for link in &self.links {
            anew.add(link.item % keys, link.item);
        }
        Ok(anew)
    }

    /// One key more, under which nothing is filed. Takes no memory: each capacity stays.
    pub fn add_key(&mut self)
        requires { 0 < self.old.spare_keys }
        ensures { self.new ≡ record self.old {
          keys = self.old.keys + 1;
          spare_keys = self.old.spare_keys - 1;
        } }
    {
        self.heads.push_reserved(0);
        self.spare_keys -= 1;
    }

    /// Files an item under a key. Its number is the count of the entries before it. Takes no
    /// memory: each capacity stays.
    pub fn add(&mut self, key: u32, item: u32)
        requires key { key < self.old.keys }
        requires room { 0 < self.old.spare }
        ensures { self.new ≡ record self.old {
          entries = self.old.entries ++ (record { key = key; item = item }) ∷ [];
          spare = self.old.spare - 1;
        } }
    {
        let count = self.links.len() as u32;
        let before = self.heads[key as usize];
        self.heads[key as usize] = count + 1;
        self.links.push_reserved(Link { key, item, before });
        self.spare -= 1;
    }

    /// The last entry of a key.
    pub fn last(&self, key: u32) -> Option<u32>
        requires { key < self.now.keys }
        ensures { IsLastBelow self.now.entries key (length self.now.entries) result }
    {
        number_told(self.heads[key as usize])
    }

    /// The last entry below this one that has the same key.
    pub fn before(&self, number: u32, key: u32) -> Option<u32>
        requires { HoldsAt (λ e. e.key ≡ key) self.now.entries number }
        ensures { IsLastBelow self.now.entries key number result }
    {
        number_told(self.links[number as usize].before)
    }

    /// The item of an entry.
    pub fn item(&self, number: u32) -> u32
        requires { number < length self.now.entries }
        ensures { HoldsAt (λ e. e.item ≡ result) self.now.entries number }
    {
        self.links[number as usize].item
    }

    /// The allocator that the memory is of.
    pub fn allocator(&self) -> Global {
        *self.links.allocator()
    }

    /// How many keys there are.
    pub fn keys(&self) -> u32
        ensures { result ≡ self.now.keys }
    {
        self.heads.len() as u32
    }

    /// How many entries there are.
    pub fn len(&self) -> u32
        ensures { result ≡ length self.now.entries }
    {
        self.links.len() as u32
    }
}

/// So many noughts, and room for no more.
fn no_heads(alloc: Global, keys: u32) -> Result<Vec<u32>, NoMemory>
    ensures items { IfOk result (λ v. v.items ≡ replicate keys 0) }
    ensures capacity { IfOk result (λ v. vec_capacity v ≡ keys) }
{
    let mut heads = Vec::with_capacity(alloc, keys as usize)?;
    for _ in 0..keys {
        heads.push_reserved(0);
    }
    Ok(heads)
}

/// The number that is kept as one more than it, `None` where 0 is kept.
fn number_told(kept: u32) -> Option<u32>
    ensures { result ≡ told kept }
{
    kept.checked_sub(1)
}
