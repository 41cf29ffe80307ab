//! The stores of a node, written and read.

ghost use Rattle.std.specs.Prelude.{◌≡◌, ◌≤◌, ◌∷◌, ◌++◌};
ghost use Rattle.sz_formats.specs.Terms.{ℕ, List, length, true, All, IfOk, IfErr, OnOk, OnErr};
ghost use Rattle.sz_formats.specs.Terms.{arc_value, supports, AreRight, OnBad, stored_in, is_whole};
ghost use Rattle.sz_formats.specs.Terms.{is_format, BeginEachIn, NoneBeginIn};

use crate::respelling::respell_each;
use std::alloc::Global;
use std::sync::Arc;
use std::thread::Threads;
use sz_cells::{NoMemory, Shape};
use sz_region::{Take, shapes_are_within_limits};
use sz_spec::{OpAt, Strategy};
use sz_store::NodeStore;

/// Appends the bytes of each store of a node in a format, in the list's order: whatever follows
/// them, they are read again as these stores, and in no other way
/// ([`crate::laws::stores_are_read_in_one_way`]). After `NoMemory` the bytes are as before.
///
/// Takes time in the number of the bytes; in format 2 also the memory of the stores' bytes in
/// format 1 while it works, and of reading them.
pub fn put_stores(
    alloc: Global,
    format: u8,
    store: &NodeStore,
    to: &mut Vec<u8>,
) -> Result<(), NoMemory>
    requires { is_format format ≡ true }
    ensures read { let s = store.now in OnOk result ((rest : List ℕ)
        → BeginEachIn format s.site (stored_in s.list) (to.new.items ++ rest)
        (length to.old.items) (length to.new.items) s.stores) }
    ensures front { OnOk result ((more : List ℕ) × (to.new.items ≡ to.old.items ++ more)) }
    ensures err { OnErr result (to.new.items ≡ to.old.items) }
{
    if format == 2 {
        put_short(alloc, store, to)
    } else {
        store.put_bytes(to)
    }
}

/// [`put_stores`] in format 2.
fn put_short(alloc: Global, store: &NodeStore, to: &mut Vec<u8>) -> Result<(), NoMemory>
    ensures read { let s = store.now in OnOk result ((rest : List ℕ)
        → BeginEachIn 2 s.site (stored_in s.list) (to.new.items ++ rest)
        (length to.old.items) (length to.new.items) s.stores) }
    ensures front { OnOk result ((more : List ℕ) × (to.new.items ≡ to.old.items ++ more)) }
    ensures err { OnErr result (to.new.items ≡ to.old.items) }
{
    let op = store.site();
    within_limits(op);
    let mut wide = Vec::new(alloc);
    store.put_bytes(&mut wide)?;
    let length = to.len();
    match respell_each(alloc, 1, op, store.list(), &wide, 0, to) {
        Ok(_) => Ok(()),
        Err(Take::NoMemory) => {
            to.truncate(length);
            Err(NoMemory)
        }
        Err(Take::Bad { .. }) => unreachable!(),
    }
}

/// The stores of a list of strategies of an operator, whose bytes in a format begin one after
/// another at a place, and the place behind them. `Bad` exactly where none begin so, and it says
/// any place. Each piece is placed.
///
/// Takes time and memory in the number of the bytes, in format 2 as many as they would be in
/// format 1. A long table of sets is read in two parts side by side.
pub fn take_stores<R: Threads + Sync>(
    rt: &R,
    alloc: Global,
    format: u8,
    op: Arc<OpAt>,
    list: &[Strategy],
    bytes: &[u8],
    at: u64,
) -> Result<(NodeStore, u64), Take>
    requires format { is_format format ≡ true }
    requires supported { All (λ t. supports (arc_value op).op t ≡ true) list.now }
    ensures ok { let s = arc_value op in IfOk result
        (λ r. BeginEachIn format s (stored_in list.now) bytes.now at r.1 r.0.stores) }
    ensures site { IfOk result (λ r. r.0.site ≡ arc_value op) }
    ensures list { IfOk result (λ r. r.0.list ≡ list.now) }
    ensures whole { IfOk result (λ r. is_whole r.0 ≡ true) }
    ensures within { at ≤ length bytes.now → IfOk result (λ r. r.1 ≤ length bytes.now) }
    ensures err { let s = arc_value op in IfErr result (λ e. OnBad e
        (NoneBeginIn format s (stored_in list.now) bytes.now at)) }
{
    if format == 2 {
        take_short(rt, alloc, op, list, bytes, at)
    } else {
        NodeStore::take_bytes(rt, alloc, op, list, bytes, at)
    }
}

/// [`take_stores`] in format 2.
fn take_short<R: Threads + Sync>(
    rt: &R,
    alloc: Global,
    op: Arc<OpAt>,
    list: &[Strategy],
    bytes: &[u8],
    at: u64,
) -> Result<(NodeStore, u64), Take>
    requires { All (λ t. supports (arc_value op).op t ≡ true) list.now }
    ensures ok { let s = arc_value op in IfOk result
        (λ r. BeginEachIn 2 s (stored_in list.now) bytes.now at r.1 r.0.stores) }
    ensures site { IfOk result (λ r. r.0.site ≡ arc_value op) }
    ensures list { IfOk result (λ r. r.0.list ≡ list.now) }
    ensures whole { IfOk result (λ r. is_whole r.0 ≡ true) }
    ensures within { at ≤ length bytes.now → IfOk result (λ r. r.1 ≤ length bytes.now) }
    ensures err { let s = arc_value op in IfErr result (λ e. OnBad e
        (NoneBeginIn 2 s (stored_in list.now) bytes.now at)) }
{
    within_limits(&op);
    let mut wide = Vec::new(alloc);
    let next = respell_each(alloc, 2, &op, list, bytes, at, &mut wide)?;
    let (store, _end) = NodeStore::take_bytes(rt, alloc, op, list, &wide, 0)?;
    Ok((store, next))
}

/// Every shape of an operator is within the limits.
fn within_limits(op: &OpAt)
    ensures { AreRight (op.now.out ∷ op.now.ins) }
{
    shapes_are_within_limits(&op.out(), op.ins());
}
