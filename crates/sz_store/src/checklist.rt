//! Whether lineages are those that one store keeps.

ghost use Rattle.std.specs.Prelude.{◌≡◌};
ghost use Rattle.sz_store.specs.Terms.{true, IfOk, OnOk, with_part, table_in, kept_in, ticked_in};
ghost use Rattle.sz_store.specs.Terms.{emptied, joined, AreOneList};

use sz_cells::NoMemory;
use sz_frame::PieceLineage;
use sz_tables::{EntryChecklist, PairChecklist};

/// What one store keeps, and what of it was ticked: region pairs, entries of payload lineage, or
/// entries of composite lineage.
#[derive(Drop)]
pub enum StoreChecklist<'a> {
    Pairs(PairChecklist<'a>),
    Pays(EntryChecklist<'a>),
    Comps(EntryChecklist<'a>),
}

impl<'a> StoreChecklist<'a> {
    /// Another checklist of the same store, of which nothing is ticked.
    pub fn fork(&self) -> StoreChecklist<'a>
        ensures table { table_in result ≡ table_in self.now }
        ensures none { ticked_in result ≡ emptied (kept_in self.now) }
    {
        match self {
            StoreChecklist::Pairs(list) => StoreChecklist::Pairs(list.fork()),
            StoreChecklist::Pays(list) => StoreChecklist::Pays(list.fork()),
            StoreChecklist::Comps(list) => StoreChecklist::Comps(list.fork()),
        }
    }

    /// Ticks what another checklist of the same store has ticked.
    pub fn join(&mut self, other: &StoreChecklist) -> Result<(), NoMemory>
        requires { table_in other.now ≡ table_in self.old }
        ensures table { table_in self.new ≡ table_in self.old }
        ensures ticked { OnOk result
            (ticked_in self.new ≡ joined (ticked_in self.old) (ticked_in other.now)) }
    {
        match (self, other) {
            (StoreChecklist::Pairs(list), StoreChecklist::Pairs(more)) => list.join(more),
            (StoreChecklist::Pays(list), StoreChecklist::Pays(more)) => list.join(more),
            (StoreChecklist::Comps(list), StoreChecklist::Comps(more)) => list.join(more),
            _ => unreachable!(),
        }
    }

    /// Ticks the store's part of a lineage, and answers true. False, with a part of it ticked, where
    /// the store cannot keep it.
    ///
    /// Costs a look at the runs of the part's sets, and at its payloads.
    pub fn tick(&mut self, lineage: &PieceLineage) -> Result<bool, NoMemory>
        ensures table { table_in self.new ≡ table_in self.old }
        ensures ticked { IfOk result (λ b. b ≡ true
            → ticked_in self.new ≡ with_part lineage.now (ticked_in self.old)) }
    {
        match self {
            StoreChecklist::Pairs(list) => list.tick_all(lineage.regions()),
            StoreChecklist::Pays(list) => list.tick_all(lineage.pays()),
            StoreChecklist::Comps(list) => list.tick_all(lineage.comps()),
        }
    }

    /// Whether all that the store keeps is ticked, as often as it is kept, and nothing else. It may
    /// be called once: the ticks lose their order.
    ///
    /// Takes time by a sort of the region pairs or entries, and memory for their numbers.
    pub fn is_done(&mut self) -> Result<bool, NoMemory>
        ensures { IfOk result (λ b. b ≡ true
            → AreOneList (kept_in self.old) (ticked_in self.old)) }
    {
        match self {
            StoreChecklist::Pairs(list) => list.is_done(),
            StoreChecklist::Pays(list) => list.is_done(),
            StoreChecklist::Comps(list) => list.is_done(),
        }
    }
}
