//! Stores of payload and of composite lineage.

ghost use Rattle.std.specs.Prelude.{◌≡◌, ◌<◌, ◌≤◌, ◌+◌, ◌*◌, ◌∷◌, ◌++◌};
ghost use Rattle.sz_payload.specs.Terms.{[], length, map, All, OnOk, OnErr, IfOk, IfErr, List, ℕ};
ghost use Rattle.sz_payload.specs.Terms.{true, false, arc_value, Cells, has, with_those};
ghost use Rattle.sz_payload.specs.Terms.{has_mapping, near_side, far_side, image_in, AreApart};
ghost use Rattle.sz_payload.specs.Terms.{IsPayWord, entries, runs_in, IsWithin, room_for_entries};
ghost use Rattle.sz_payload.specs.Terms.{no_room, most_given, cells_in, AreDifferent, AreLawful};
ghost use Rattle.sz_payload.specs.Terms.{BeginsPayloads, SaysNoPayloads, IsEntryOf, entries_stand};
ghost use Rattle.sz_payload.specs.Terms.{part_of};

use crate::counting::{bytes_of_all, cells_of_all, runs_of_all};
use crate::look::Look;
use crate::owner::Owner;
use crate::taking::take_lawful;
use std::alloc::Global;
use std::marker::Model;
use std::sync::Arc;
use sz_cells::{CellBits, NoMemory};
use sz_frame::{PayEntry, PieceLineage};
use sz_region::Take;
use sz_spec::{Dir, Mapper, OpAt};
use sz_tables::{EntryChecklist, EntryTable};

/// Entries of one operator that has payloads, and the index of their output cells.
#[derive(Drop)]
pub struct PayStore<M: Mapper> {
    map: M,
    at: Arc<OpAt>,
    /// Whether a cell that is in no entry has the default.
    comp: bool,
    table: EntryTable,
    owner: Owner,
}

impl<M: Mapper> Model for PayStore<M> {
    ghost use Rattle.std.specs.Prelude.{◌≡◌, ◌++◌};
    ghost use Rattle.std.specs.Arc.{arc_value};
    ghost use Rattle.sz_tables.specs.Entries.{entries};
    ghost use Rattle.sz_payload.specs.Kept.{PayContents};
    ghost use Rattle.sz_payload.specs.Owned.{cell_room, room_in, owner_capacities, IsHeld};

    ghost Value = { PayContents };

    ghost view = { λ s. record {
      comp = s.comp;
      store = record {
        site = arc_value s.at;
        given = entries s.table;
        room = record {
          items = room_in s.table.spare_rows s.owner;
          runs = s.table.spare_runs;
          cells = cell_room s.table.spare_runs s.owner;
          bytes = s.table.spare_bytes;
        };
        capacities = s.table.capacities ++ owner_capacities s.owner;
      };
    } };

    ghost invariant = { λ s. IsHeld (arc_value s.at) s.table s.owner
        × (M.site s.map ≡ arc_value s.at) };
}

impl<M: Mapper + Drop> PayStore<M> {
    /// A store without an entry: of payload lineage, or where `comp` is true of composite lineage.
    /// Its entries are found by rectangles where `many` is true, and else by single cells: what
    /// this takes grows with the cells of the entries, up to four bytes for each output cell.
    pub fn new(
        alloc: Global,
        map: M,
        at: Arc<OpAt>,
        many: bool,
        comp: bool,
    ) -> Result<PayStore<M>, NoMemory>
        requires map { M.site map ≡ arc_value at }
        requires payloads { has_mapping (arc_value at).op ≡ false }
        ensures { IfOk result (λ s. s ≡ record {
          comp = comp;
          store = record {
            site = arc_value at;
            given = [];
            room = no_room;
            capacities = s.store.capacities;
          };
        }) }
    {
        let table = EntryTable::new(alloc, at.out())?;
        let owner = Owner::new(alloc, at.out(), many)?;
        Ok(PayStore {
            map,
            at,
            comp,
            table,
            owner,
        })
    }

    /// Makes the room for the entries of a lineage: of its payload part, or where the store is of
    /// composite lineage of that part.
    ///
    /// Costs a visit to each of them, and a copy of a part of the store where that part has to
    /// grow.
    pub fn reserve_piece(&mut self, lineage: &PieceLineage) -> Result<(), NoMemory>
        requires few { length self.old.store.given + length (part_of self.old.comp lineage.now)
            ≤ most_given }
        requires entries { All (IsEntryOf self.old.store.site) (part_of self.old.comp lineage.now) }
        requires apart { AreApart (self.old.store.given ++ part_of self.old.comp lineage.now) }
        ensures ok { OnOk result (IsWithin (room_for_entries (part_of self.old.comp lineage.now))
            self.new.store.room) }
        ensures kept { self.new ≡ record self.old {
          store = record self.old.store {
            room = self.new.store.room;
            capacities = self.new.store.capacities;
          };
        } }
    {
        if self.comp {
            self.reserve_all(lineage.comps())
        } else {
            self.reserve_all(lineage.pays())
        }
    }

    /// Makes the room for these entries.
    fn reserve_all(&mut self, entries: &[Arc<PayEntry>]) -> Result<(), NoMemory>
        requires few { length self.old.store.given + length entries.now ≤ most_given }
        requires entries { All (IsEntryOf self.old.store.site)
            (map (λ a. arc_value a) entries.now) }
        ensures ok { OnOk result
            (IsWithin (room_for_entries (map (λ a. arc_value a) entries.now)) self.new.store.room) }
        ensures kept { self.new ≡ record self.old {
          store = record self.old.store {
            room = self.new.store.room;
            capacities = self.new.store.capacities;
          };
        } }
    {
        let more = entries.len() as u32;
        self.table.len(); // there is a row for each entry
        self.at.out().size(); // a payload is not longer than a set of input 0
        let runs = runs_of_all(entries);
        let bytes = bytes_of_all(entries);
        let cells = cells_of_all(entries);
        self.owner.widen(&self.table, cells)?;
        self.owner.reserve(more, cells)?;
        self.table.reserve(more, runs, bytes)
    }

    /// Adds the entries of a lineage: of its payload part, or where the store is of composite
    /// lineage of that part. Takes no memory: the capacity of each list that the store keeps stays.
    pub fn add_piece(&mut self, lineage: &PieceLineage)
        requires few { length self.old.store.given + length (part_of self.old.comp lineage.now)
            ≤ most_given }
        requires entries { All (IsEntryOf self.old.store.site) (part_of self.old.comp lineage.now) }
        requires apart { AreApart (self.old.store.given ++ part_of self.old.comp lineage.now) }
        requires room { IsWithin (room_for_entries (part_of self.old.comp lineage.now))
            self.old.store.room }
        ensures given { self.new.store.given
            ≡ self.old.store.given ++ part_of self.old.comp lineage.now }
        ensures site { self.new.store.site ≡ self.old.store.site }
        ensures comp { self.new.comp ≡ self.old.comp }
        ensures capacities { self.new.store.capacities ≡ self.old.store.capacities }
    {
        if self.comp {
            self.add_all(lineage.comps());
        } else {
            self.add_all(lineage.pays());
        }
    }

    /// Adds these entries. Takes no memory.
    fn add_all(&mut self, entries: &[Arc<PayEntry>])
        requires few { length self.old.store.given + length entries.now ≤ most_given }
        requires entries { All (IsEntryOf self.old.store.site)
            (map (λ a. arc_value a) entries.now) }
        requires apart { AreApart
            (self.old.store.given ++ map (λ a. arc_value a) entries.now) }
        requires room { IsWithin
            (room_for_entries (map (λ a. arc_value a) entries.now)) self.old.store.room }
        ensures given { self.new.store.given
            ≡ self.old.store.given ++ map (λ a. arc_value a) entries.now }
        ensures site { self.new.store.site ≡ self.old.store.site }
        ensures comp { self.new.comp ≡ self.old.comp }
        ensures capacities { self.new.store.capacities ≡ self.old.store.capacities }
    {
        runs_of_all(entries); // a run has no more cells than a shape
        for entry in entries {
            self.add(entry);
        }
    }

    /// Adds an entry. Takes no memory.
    fn add(&mut self, entry: &PayEntry)
        requires few { length self.old.store.given < most_given }
        requires entry { IsEntryOf self.old.store.site entry.now }
        requires apart { AreApart (self.old.store.given ++ entry.now ∷ []) }
        requires items { 0 < self.old.store.room.items }
        requires runs { runs_in entry.now.out ≤ self.old.store.room.runs }
        requires cells { cells_in entry.now.out ≤ self.old.store.room.cells }
        requires bytes { length entry.now.payload ≤ self.old.store.room.bytes }
        ensures given { self.new.store.given ≡ self.old.store.given ++ entry.now ∷ [] }
        ensures site { self.new.store.site ≡ self.old.store.site }
        ensures comp { self.new.comp ≡ self.old.comp }
        ensures items { self.old.store.room.items ≤ self.new.store.room.items + 1 }
        ensures runs { self.old.store.room.runs
            ≤ self.new.store.room.runs + runs_in entry.now.out }
        ensures cells { (n : ℕ) → n ≤ self.new.store.room.runs * 1048576
            → cells_in entry.now.out + n ≤ self.old.store.room.cells
            → n ≤ self.new.store.room.cells }
        ensures bytes { self.old.store.room.bytes
            ≤ self.new.store.room.bytes + length entry.now.payload }
        ensures capacities { self.new.store.capacities ≡ self.old.store.capacities }
    {
        let row = self.table.len();
        let shape = self.at.out();
        self.owner.add(shape, &entry.out, row);
        self.table.add(entry);
    }

    /// Adds the image of a set of cells: backward those that stand behind it, forward those that
    /// it stands behind. Takes no memory.
    ///
    /// Backward it costs a look for the entry of each asked cell, and what its payload stands for;
    /// forward a test of each entry's payload, or of each output cell of those entries whose
    /// payload stands for cells round each.
    pub fn image(&self, dir: Dir, input: u32, from: &CellBits, to: &mut CellBits)
        requires input { input < length self.now.store.site.ins }
        requires from { from.now.extent ≡ near_side dir self.now.store.site input }
        requires to { to.old.extent ≡ far_side dir self.now.store.site input }
        ensures { let s = self.now.store in to.new ≡ with_those to.old (has
            (image_in dir s.site input (entries_stand self.now.comp s.site s.given input)
            from.now)) }
    {
        let look = Look {
            at: &self.at,
            table: &self.table,
            owner: &self.owner,
        };
        match dir {
            Dir::Back => look.back(&self.map, self.comp, input, from, to),
            Dir::Forward => look.forward(self.comp, input, from, to),
        }
    }

    /// A checklist of the entries, of which none is ticked.
    pub fn checklist(&self, alloc: Global) -> EntryChecklist<'_>
        ensures kept { entries result.table ≡ self.now.store.given }
        ensures none { result.ticked ≡ [] }
    {
        EntryChecklist::new(alloc, &self.table)
    }

    /// Whether the entries are composite lineage.
    pub fn is_composite(&self) -> bool
        ensures { result ≡ self.now.comp }
    {
        self.comp
    }

    /// Appends the bytes of the entries: tables of their payloads and sets, each once, and the rows
    /// of the numbers of these (`docs/FORMATS.md`). After `NoMemory` the bytes are as before.
    ///
    /// Costs a visit to each byte of each different payload, to each run of each different set, and
    /// to each entry.
    pub fn put_bytes(&self, to: &mut Vec<u8>) -> Result<(), NoMemory>
        ensures ok { let s = self.now.store in OnOk result (
            (payloads : List (List ℕ)) × (sets : List Cells) × (word : List ℕ)
            × AreDifferent payloads × AreDifferent sets × AreLawful s.site payloads
            × IsPayWord s.site.out payloads sets s.given word
            × (to.new.items ≡ to.old.items ++ word)) }
        ensures err { OnErr result (to.new.items ≡ to.old.items) }
    {
        self.at.out().size(); // a payload is not longer than a set of input 0
        self.table.put_bytes(to)
    }

    /// The store of the entries whose bytes begin at a place, and the place behind them. Each
    /// payload of the bytes is one of the operator. `Take::Bad` exactly where none begin there.
    ///
    /// Costs by the bytes that it reads, by the runs of the entries' sets and by the words of 64
    /// cells in which these have cells, and where entries are found by single cells by the cells.
    /// Takes memory for each set and payload once, for each entry and for the index, and while it
    /// reads a bit for each output cell. The store has no room for more.
    pub fn take_bytes(
        alloc: Global,
        map: M,
        at: Arc<OpAt>,
        many: bool,
        comp: bool,
        bytes: &[u8],
        from: u64,
    ) -> Result<(PayStore<M>, u64), Take>
        requires map { M.site map ≡ arc_value at }
        requires payloads { has_mapping (arc_value at).op ≡ false }
        ensures ok { IfOk result
            (λ r. BeginsPayloads (arc_value at) bytes.now from r.1 r.0.store.given) }
        ensures site { IfOk result (λ r. r.0.store.site ≡ arc_value at) }
        ensures comp { IfOk result (λ r. r.0.comp ≡ comp) }
        ensures within { IfOk result (λ r. r.1 ≤ length bytes.now) }
        ensures err { IfErr result (λ e. SaysNoPayloads (arc_value at) bytes.now from e) }
    {
        let (table, next) = take_lawful(alloc, &at, bytes, from)?;
        let owner = Owner::of_table(alloc, &table, many)?;
        let store = PayStore {
            map,
            at,
            comp,
            table,
            owner,
        };
        Ok((store, next))
    }
}
