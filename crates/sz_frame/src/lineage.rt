//! The lineage of one piece of an output array.

ghost use Rattle.std.specs.Prelude.{◌≡◌, ◌<◌, ◌++◌, ◌∷◌, if◌then◌else◌};
ghost use Rattle.sz_frame.specs.Terms.{[], map, length, OnOk, OnErr, arc_value, no_parts};
ghost use Rattle.sz_frame.specs.Terms.{most_entries};

use crate::payload::PayEntry;
use crate::region::Region;
use std::alloc::Global;
use std::marker::Model;
use std::sync::Arc;
use sz_cells::NoMemory;

/// The lineage of one piece of an output array: region pairs for full lineage, and entries for
/// payload and for composite lineage.
#[derive(Drop)]
pub struct PieceLineage {
    alloc: Global,
    piece: u32,
    regions: Vec<Arc<Region>>,
    pays: Vec<Arc<PayEntry>>,
    comps: Vec<Arc<PayEntry>>,
}

impl Model for PieceLineage {
    ghost use Rattle.std.specs.Prelude.{map};
    ghost use Rattle.std.specs.Arc.{arc_value};
    ghost use Rattle.sz_frame.specs.Parts.{Parts};

    ghost Value = { Parts };

    ghost view = { λ p. record {
      piece = p.piece;
      regions = map (λ a. arc_value a) p.regions.items;
      pays = map (λ a. arc_value a) p.pays.items;
      comps = map (λ a. arc_value a) p.comps.items;
    } };
}

impl PieceLineage {
    /// The lineage of this piece, without an entry.
    pub fn new(alloc: Global, piece: u32) -> PieceLineage
        ensures { result ≡ no_parts piece }
    {
        PieceLineage {
            alloc,
            piece,
            regions: Vec::new(alloc),
            pays: Vec::new(alloc),
            comps: Vec::new(alloc),
        }
    }

    /// Appends a region pair.
    pub fn lwrite(&mut self, region: Region) -> Result<(), NoMemory>
        requires { length self.old.regions < most_entries }
        ensures ok { OnOk result
            (self.new ≡ record self.old { regions = self.old.regions ++ region ∷ [] }) }
        ensures err { OnErr result (self.new ≡ self.old) }
    {
        append(self.alloc, &mut self.regions, region)
    }

    /// Appends an entry: to the composite part where `comp` is true, else to the payload part.
    pub fn lwrite_payload(&mut self, entry: PayEntry, comp: bool) -> Result<(), NoMemory>
        requires { length (if comp then self.old.comps else self.old.pays) < most_entries }
        ensures ok { OnOk result (self.new ≡ (if comp
            then record self.old { comps = self.old.comps ++ entry ∷ [] }
            else record self.old { pays = self.old.pays ++ entry ∷ [] })) }
        ensures err { OnErr result (self.new ≡ self.old) }
    {
        if comp {
            append(self.alloc, &mut self.comps, entry)
        } else {
            append(self.alloc, &mut self.pays, entry)
        }
    }

    /// The number of the piece.
    pub fn piece(&self) -> u32
        ensures { result ≡ self.now.piece }
    {
        self.piece
    }

    /// The region pairs, in the order in which they were written.
    pub fn regions(&self) -> &[Arc<Region>]
        ensures { map (λ a. arc_value a) result.now ≡ self.now.regions }
    {
        &self.regions
    }

    /// The entries of the payload part, in the order in which they were written.
    pub fn pays(&self) -> &[Arc<PayEntry>]
        ensures { map (λ a. arc_value a) result.now ≡ self.now.pays }
    {
        &self.pays
    }

    /// The entries of the composite part, in the order in which they were written.
    pub fn comps(&self) -> &[Arc<PayEntry>]
        ensures { map (λ a. arc_value a) result.now ≡ self.now.comps }
    {
        &self.comps
    }
}

/// Puts a value behind shared ones.
fn append<T: Drop>(alloc: Global, part: &mut Vec<Arc<T>>, value: T) -> Result<(), NoMemory>
    ensures ok { OnOk result (map (λ a. arc_value a) part.new.items
        ≡ map (λ a. arc_value a) part.old.items ++ value ∷ []) }
    ensures err { OnErr result (part.new.items ≡ part.old.items) }
{
    part.reserve(1)?;
    let value = Arc::new(alloc, value)?;
    part.push_reserved(value);
    Ok(())
}
