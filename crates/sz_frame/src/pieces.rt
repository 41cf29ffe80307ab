//! The lineage of one piece of any operator's output: one walk over the piece's cells says how each
//! part keeps them, and then each part has one entry for those that are kept together.

ghost use Rattle.std.specs.Prelude.{◌≡◌, ◌<◌, ◌≤◌, ◌+◌, ◌-◌, ◌^◌, ◌&&◌, ◌++◌, ◌∷◌, if◌then◌else◌};
ghost use Rattle.sz_frame.specs.Terms.{[], true, false, length, map, All, IfOk, OnOk, OnErr};
ghost use Rattle.sz_frame.specs.Terms.{arc_value, holds, size_of, IsAtWork, supports, pieces_of};
ghost use Rattle.sz_frame.specs.Terms.{Fits, is_mode, needs, leads, measure_of, full_keeping};
ghost use Rattle.sz_frame.specs.Terms.{pay_keeping, comp_keeping, keepings, region_by, regions_by};
ghost use Rattle.sz_frame.specs.Terms.{entry_by, entries_by, with_entries, cells_in_piece};
ghost use Rattle.sz_frame.specs.Terms.{parts_by};

use crate::frame::AtWork;
use crate::groups::{Keeping, group, keeping_of, leads};
use crate::lineage::PieceLineage;
use crate::payload::PayEntry;
use crate::region::{Region, SetList};
use crate::walks::cell_after;
use std::alloc::Global;
use sz_cells::{Cell, NoMemory};
use sz_spec::{Mode, Strategy, Tally};

/// How many cells a piece has. The last piece of an array may have fewer.
const CELLS: u32 = 64;

/// The lineage of piece `k` of the output of an operator at work: the parts that the strategies of
/// a list need. Each cell of the piece is looked at once, and counted. Cells of one lineage share a
/// region pair, and cells of one payload an entry, where the operator tells. After `NoMemory` the
/// tally is as before.
pub fn piece_by<A: AtWork>(
    alloc: Global,
    at: &A,
    k: u32,
    list: &[Strategy],
    tally: &mut Tally,
) -> Result<PieceLineage, NoMemory>
    requires right { IsAtWork (A.site at.now) (A.inputs at.now) }
    requires piece { k < pieces_of (A.site at.now).out }
    requires supported { All (λ s. supports (A.site at.now).op s ≡ true) list.now }
    requires room { tally.old + cells_in_piece (A.site at.now).out k < 2 ^ 63 }
    ensures piece { IfOk result (λ p. p.piece ≡ k) }
    ensures written { IfOk result
        (λ p. p ≡ parts_by (A.site at.now) (A.inputs at.now) list.now k) }
    ensures fits { IfOk result
        (λ p. Fits (measure_of (A.site at.now) (A.inputs at.now)) list.now k p) }
    ensures ticks { OnOk result (tally.new ≡ tally.old + cells_in_piece (A.site at.now).out k) }
    ensures kept { OnErr result (tally.new ≡ tally.old) }
{
    let shape = at.out();
    let wanted = Wanted {
        full: needs(list, Mode::Full),
        pay: needs(list, Mode::Pay),
        comp: needs(list, Mode::Comp),
    };
    let start = k * CELLS;
    let end = shape.size().min(start + CELLS);
    let mut looked = Tally::new();
    let kept = look(alloc, at, start, end, wanted, &mut looked)?;
    let mut lineage = PieceLineage::new(alloc, k);
    write_regions(alloc, at, start, &kept.full, &mut lineage)?;
    write_entries(alloc, at, start, &kept.pay, false, &mut lineage)?;
    write_entries(alloc, at, start, &kept.comp, true, &mut lineage)?;
    tally.add(looked);
    Ok(lineage)
}

/// Which parts of a lineage are wanted.
#[derive(Clone, Copy)]
struct Wanted {
    full: bool,
    pay: bool,
    comp: bool,
}

/// Whether a list has a strategy of a mode that keeps a store.
fn needs(list: &[Strategy], mode: Mode) -> bool
    ensures { result ≡ needs list.now mode }
{
    list.iter().any(|strategy| is_mode(mode, strategy.mode()))
}

/// Whether two modes are one that keeps a store.
fn is_mode(wanted: Mode, mode: Mode) -> bool
    ensures { result ≡ is_mode wanted mode }
{
    match wanted {
        Mode::Full => matches!(mode, Mode::Full),
        Mode::Pay => matches!(mode, Mode::Pay),
        Mode::Comp => matches!(mode, Mode::Comp),
        _ => false,
    }
}

/// How each part keeps each cell of a piece, in row-major order.
#[derive(Drop)]
struct Keepings {
    full: Vec<Keeping>,
    pay: Vec<Keeping>,
    comp: Vec<Keeping>,
}

/// Looks at the output cells from an index to before another, each of which is counted.
fn look<A: AtWork>(
    alloc: Global,
    at: &A,
    start: u32,
    end: u32,
    wanted: Wanted,
    tally: &mut Tally,
) -> Result<Keepings, NoMemory>
    requires right { IsAtWork (A.site at.now) (A.inputs at.now) }
    requires some { start < end }
    requires cells { end ≤ size_of (A.site at.now).out }
    requires room { tally.old + (end - start) < 2 ^ 63 }
    ensures full { let s = A.site at.now in IfOk result (λ l. l.full.items
        ≡ keepings s.out (full_keeping wanted.full s.op (A.inputs at.now)) start (end - start)) }
    ensures pay { let s = A.site at.now in IfOk result (λ l. l.pay.items
        ≡ keepings s.out (pay_keeping wanted.pay s.op (A.inputs at.now)) start (end - start)) }
    ensures comp { let s = A.site at.now in IfOk result (λ l. l.comp.items
        ≡ keepings s.out (comp_keeping wanted.comp s.op (A.inputs at.now)) start (end - start)) }
    ensures long { IfOk result (λ l. (length l.full.items ≡ end - start)
        × (length l.pay.items ≡ end - start) × (length l.comp.items ≡ end - start)) }
    ensures ticks { OnOk result (tally.new ≡ tally.old + (end - start)) }
{
    let shape = at.out();
    let mut full = Vec::with_capacity(alloc, CELLS as usize)?;
    let mut pay = Vec::with_capacity(alloc, CELLS as usize)?;
    let mut comp = Vec::with_capacity(alloc, CELLS as usize)?;
    let mut cell = shape.cell_at(start);
    for index in start..end {
        full.push(full_keeping(at, cell, wanted.full))?;
        pay.push(pay_keeping(at, cell, wanted.pay))?;
        comp.push(comp_keeping(at, cell, wanted.comp))?;
        tally.tick();
        cell = cell_after(&shape, cell);
    }
    Ok(Keepings { full, pay, comp })
}

/// How a part for full lineage keeps an output cell, where the part is wanted.
fn full_keeping<A: AtWork>(at: &A, cell: Cell, wanted: bool) -> Keeping
    requires right { IsAtWork (A.site at.now) (A.inputs at.now) }
    requires cell { holds (A.site at.now).out cell ≡ true }
    ensures { result ≡ full_keeping wanted (A.site at.now).op (A.inputs at.now) cell }
{
    if wanted {
        keeping_of(true, at.lineage_kind(cell))
    } else {
        Keeping::Nothing
    }
}

/// How a payload part keeps an output cell, where the part is wanted.
fn pay_keeping<A: AtWork>(at: &A, cell: Cell, wanted: bool) -> Keeping
    requires right { IsAtWork (A.site at.now) (A.inputs at.now) }
    requires cell { holds (A.site at.now).out cell ≡ true }
    ensures { result ≡ pay_keeping wanted (A.site at.now).op (A.inputs at.now) cell }
{
    if wanted {
        keeping_of(true, at.payload_kind(cell))
    } else {
        Keeping::Nothing
    }
}

/// How a composite part keeps an output cell, where the part is wanted: not at all, unless the cell
/// overrides the default.
fn comp_keeping<A: AtWork>(at: &A, cell: Cell, wanted: bool) -> Keeping
    requires right { IsAtWork (A.site at.now) (A.inputs at.now) }
    requires cell { holds (A.site at.now).out cell ≡ true }
    ensures { result ≡ comp_keeping wanted (A.site at.now).op (A.inputs at.now) cell }
{
    pay_keeping(at, cell, wanted && at.overrides(cell))
}

/// Writes the region pairs of the cells of a piece, one for those that are kept together. The piece
/// has the cells from an index on.
fn write_regions<A: AtWork>(
    alloc: Global,
    at: &A,
    start: u32,
    kept: &[Keeping],
    lineage: &mut PieceLineage,
) -> Result<(), NoMemory>
    requires right { IsAtWork (A.site at.now) (A.inputs at.now) }
    requires few { length kept.now ≤ 64 }
    requires cells { start + length kept.now ≤ size_of (A.site at.now).out }
    requires none { lineage.old.regions ≡ [] }
    ensures { OnOk result (lineage.new ≡ record lineage.old {
      regions = regions_by (A.site at.now) (A.inputs at.now) start kept.now;
    }) }
{
    for place in 0..kept.len() {
        if leads(kept, place) {
            lineage.lwrite(region_of(alloc, at, start, kept, place)?)?;
        }
    }
    Ok(())
}

/// The region pair of the cells of a piece that are kept with the one at a place, which leads them.
fn region_of<A: AtWork>(
    alloc: Global,
    at: &A,
    start: u32,
    kept: &[Keeping],
    place: usize,
) -> Result<Region, NoMemory>
    requires right { IsAtWork (A.site at.now) (A.inputs at.now) }
    requires place { place < length kept.now }
    requires leads { leads kept.now place ≡ true }
    requires cells { start + length kept.now ≤ size_of (A.site at.now).out }
    ensures { IfOk result
        (λ r. r ≡ region_by (A.site at.now) (A.inputs at.now) start kept.now place) }
{
    let shape = at.out();
    let out = group(alloc, shape, start, kept, place)?;
    let cell = shape.cell_at(start + place as u32);
    let mut ins = Vec::new(alloc);
    for input in 0..at.arity() {
        ins.push(at.related_set(alloc, cell, input)?)?;
    }
    Ok(Region {
        out,
        ins: SetList::of(ins),
    })
}

/// Writes the entries of the cells of a piece, one for those that are kept together: to the
/// composite part where `comp` is true, else to the payload part. The piece has the cells from an
/// index on.
fn write_entries<A: AtWork>(
    alloc: Global,
    at: &A,
    start: u32,
    kept: &[Keeping],
    comp: bool,
    lineage: &mut PieceLineage,
) -> Result<(), NoMemory>
    requires right { IsAtWork (A.site at.now) (A.inputs at.now) }
    requires few { length kept.now ≤ 64 }
    requires cells { start + length kept.now ≤ size_of (A.site at.now).out }
    requires none { (if comp then lineage.old.comps else lineage.old.pays) ≡ [] }
    ensures { OnOk result (lineage.new
        ≡ with_entries comp (entries_by (A.site at.now) (A.inputs at.now) start kept.now)
        lineage.old) }
{
    for place in 0..kept.len() {
        if leads(kept, place) {
            lineage.lwrite_payload(entry_of(alloc, at, start, kept, place)?, comp)?;
        }
    }
    Ok(())
}

/// The entry of the cells of a piece that are kept with the one at a place, which leads them.
fn entry_of<A: AtWork>(
    alloc: Global,
    at: &A,
    start: u32,
    kept: &[Keeping],
    place: usize,
) -> Result<PayEntry, NoMemory>
    requires right { IsAtWork (A.site at.now) (A.inputs at.now) }
    requires place { place < length kept.now }
    requires leads { leads kept.now place ≡ true }
    requires cells { start + length kept.now ≤ size_of (A.site at.now).out }
    ensures { IfOk result
        (λ e. e ≡ entry_by (A.site at.now) (A.inputs at.now) start kept.now place) }
{
    let shape = at.out();
    let cell = shape.cell_at(start + place as u32);
    Ok(PayEntry {
        out: group(alloc, shape, start, kept, place)?,
        payload: at.payload(alloc, cell)?,
    })
}
