//! Whether a store keeps what the lineages of the pieces have, and nothing else. The pieces are looked
//! up side by side: each is ticked on a checklist of its own, and these are joined in the order of
//! the pieces.

ghost use Rattle.std.specs.Prelude.{◌≡◌, ◌<◌, ◌^◌, ◌∷◌};
ghost use Rattle.sz_recover.specs.Terms.{ℕ, [], length, get_or, true, All, IfOk, supports};
ghost use Rattle.sz_recover.specs.Terms.{pieces_of, Fits, measure_of, aid_of, execution_of};
ghost use Rattle.sz_recover.specs.Terms.{holding_for, table_in, ticked_in, joined, PieceTicks};
ghost use Rattle.sz_recover.specs.Terms.{IsExact, IsOneOf, IsTicked, IsFork, AreTicksOf};
ghost use Rattle.sz_recover.specs.declared.ticking.Told.TheVariants as told;

use rayon::prelude::*;
use std::alloc::Global;
use std::thread::Threads;
use sz_cells::NoMemory;
use sz_flow::NodeRun;
use sz_frame::PieceLineage;
use sz_ops::{Aid, piece};
use sz_spec::{Strategy, Tally, pieces_of};
use sz_store::{NodeStore, StoreChecklist};

/// The ticks of a piece.
#[derive(Drop)]
pub(crate) struct PieceTicks<'a> {
    list: StoreChecklist<'a>,
    told: Told,
}

/// What looking a piece up told.
#[derive(Clone, Copy)]
enum Told {
    /// The piece is ticked.
    Ticked,
    /// The list does not have it.
    Missed,
    /// There was no memory.
    NoMemory,
}

/// Whether the store of a strategy keeps what the lineages of all pieces have for it, and nothing
/// else: it is exact then. One that does not may be exact as well, as one that was merged is.
pub(crate) fn keeps_each_piece<R: Threads + Sync>(
    rt: &R,
    alloc: Global,
    run: &NodeRun,
    aid: &Aid,
    store: &NodeStore,
    s: Strategy,
) -> Result<bool, NoMemory>
    requires aid { let e = execution_of run.now in aid.now ≡ aid_of e.site.op e.inputs }
    requires store { IsOneOf s (execution_of run.now).site store.now }
    ensures { IfOk result (λ b. b ≡ true
        → IsExact (execution_of run.now) (holding_for s store.now.stores)) }
{
    sz_store::laws::placed_pieces_make_the_relation();
    sz_store::laws::other_orders_stand_for_the_same();
    let mut list = store.checklist(alloc, s);
    let pieces = ticks_of_pieces(rt, alloc, run, aid, s, &list)?;
    for piece in &pieces {
        if !join_piece(&mut list, piece)? {
            return Ok(false);
        }
    }
    list.is_done()
}

/// The ticks of each piece, on checklists of one store.
fn ticks_of_pieces<'a, R: Threads + Sync>(
    rt: &R,
    alloc: Global,
    run: &NodeRun,
    aid: &Aid,
    s: Strategy,
    list: &StoreChecklist<'a>,
) -> Result<Vec<PieceTicks<'a>>, NoMemory>
    requires aid { let e = execution_of run.now in aid.now ≡ aid_of e.site.op e.inputs }
    requires supported { supports (execution_of run.now).site.op s ≡ true }
    ensures count { IfOk result
        (λ v. length v.items ≡ pieces_of (execution_of run.now).site.out) }
    ensures each { IfOk result (λ v. (k : ℕ) (d : PieceTicks) → k < length v.items
        → AreTicksOf (execution_of run.now) s list.now k (get_or v.items k d)) }
{
    let mut pieces = forks_of(alloc, list, pieces_of(run.at.out()))?;
    par_for_each_mut(
        rt,
        &mut pieces,
        |index: usize, piece: &mut PieceTicks|
            requires aid { let e = execution_of run.now in
                aid.now ≡ aid_of e.site.op e.inputs }
            requires supported { supports (execution_of run.now).site.op s ≡ true }
            requires piece { index < pieces_of (execution_of run.now).site.out }
            requires fits { index < 2 ^ 32 }
            ensures table { table_in piece.new.list ≡ table_in piece.old.list }
            ensures ticked { piece.new.told ≡ told.Ticked → IsTicked (execution_of run.entry.now)
                s index (ticked_in piece.old.list) (ticked_in piece.new.list) }
        {
            tick_piece(alloc, run, aid, s, index as u32, piece);
        },
    );
    Ok(pieces)
}

/// So many checklists of one store, of which nothing is ticked.
fn forks_of<'a>(
    alloc: Global,
    list: &StoreChecklist<'a>,
    count: u32,
) -> Result<Vec<PieceTicks<'a>>, NoMemory>
    ensures count { IfOk result (λ v. length v.items ≡ count) }
    ensures each { IfOk result (λ v. All (IsFork list.now) v.items) }
{
    let mut forks = Vec::with_capacity(alloc, count as usize)?;
    for _piece in 0..count {
        forks.push(fork_of(list))?;
    }
    Ok(forks)
}

/// A checklist of the same store, of which nothing is ticked.
fn fork_of<'a>(list: &StoreChecklist<'a>) -> PieceTicks<'a>
    ensures { IsFork list.now result }
{
    PieceTicks {
        list: list.fork(),
        told: Told::Missed,
    }
}

/// Ticks what the lineage of a piece has for a strategy, and says what that told.
fn tick_piece(alloc: Global, run: &NodeRun, aid: &Aid, s: Strategy, k: u32, piece: &mut PieceTicks)
    requires aid { let e = execution_of run.now in aid.now ≡ aid_of e.site.op e.inputs }
    requires supported { supports (execution_of run.now).site.op s ≡ true }
    requires piece { k < pieces_of (execution_of run.now).site.out }
    ensures table { table_in piece.new.list ≡ table_in piece.old.list }
    ensures ticked { piece.new.told ≡ told.Ticked → IsTicked (execution_of run.now) s k
        (ticked_in piece.old.list) (ticked_in piece.new.list) }
{
    piece.told = match tick_on(alloc, run, aid, s, k, &mut piece.list) {
        Ok(true) => Told::Ticked,
        Ok(false) => Told::Missed,
        Err(NoMemory) => Told::NoMemory,
    };
}

/// Ticks what the lineage of a piece has for a strategy. False where the list does not have it.
fn tick_on(
    alloc: Global,
    run: &NodeRun,
    aid: &Aid,
    s: Strategy,
    k: u32,
    list: &mut StoreChecklist,
) -> Result<bool, NoMemory>
    requires aid { let e = execution_of run.now in aid.now ≡ aid_of e.site.op e.inputs }
    requires supported { supports (execution_of run.now).site.op s ≡ true }
    requires piece { k < pieces_of (execution_of run.now).site.out }
    ensures table { table_in list.new ≡ table_in list.old }
    ensures ticked { IfOk result (λ b. b ≡ true
        → IsTicked (execution_of run.now) s k (ticked_in list.old) (ticked_in list.new)) }
{
    let lineage = lineage_of(alloc, run, aid, s, k)?;
    list.tick(&lineage)
}

/// Adds the ticks of a piece to those of a list. False where the piece is not ticked.
fn join_piece(list: &mut StoreChecklist, piece: &PieceTicks) -> Result<bool, NoMemory>
    requires { table_in piece.now.list ≡ table_in list.old }
    ensures table { table_in list.new ≡ table_in list.old }
    ensures ticked { IfOk result (λ b. b ≡ true → (piece.now.told ≡ told.Ticked)
        × (ticked_in list.new ≡ joined (ticked_in list.old) (ticked_in piece.now.list))) }
{
    match piece.told {
        Told::Ticked => {
            list.join(&piece.list)?;
            Ok(true)
        }
        Told::Missed => Ok(false),
        Told::NoMemory => Err(NoMemory),
    }
}

/// The lineage of a piece, as a strategy needs it.
pub(crate) fn lineage_of(
    alloc: Global,
    run: &NodeRun,
    aid: &Aid,
    s: Strategy,
    k: u32,
) -> Result<PieceLineage, NoMemory>
    requires aid { let e = execution_of run.now in aid.now ≡ aid_of e.site.op e.inputs }
    requires supported { supports (execution_of run.now).site.op s ≡ true }
    requires piece { k < pieces_of (execution_of run.now).site.out }
    ensures { let e = execution_of run.now in IfOk result (λ p. (p.piece ≡ k)
        × Fits (measure_of e.site e.inputs) (s ∷ []) k p) }
{
    let mut tally = Tally::new();
    piece(
        alloc,
        &run.at,
        run.inputs.as_slice(),
        aid,
        k,
        &[s],
        &mut tally,
    )
}
