//! Views of nodes: how the lineage of each is looked at.
//!
//! Each call is a table with a line for each kind of view, as are the definitions in `specs/Views`:
//! a further kind is a further line in each.

ghost use Rattle.std.specs.Prelude.{◌≡◌, ◌+◌, ◌<◌, ◌^◌};
ghost use Rattle.sz_query.specs.Terms.{length, IfOk, OnOk, arc_value, no_cells, size_of, related};
ghost use Rattle.sz_query.specs.Terms.{near_side, far_side, image_in, extents_of, Traced, view_of};
ghost use Rattle.sz_query.specs.Terms.{view_site, IsUsable, used_of, traced_by, most_traced_by};
ghost use Rattle.sz_query.specs.Terms.{image_by, IsAsked};

use crate::growing::Growing;
use crate::used::Used;
use std::alloc::Global;
use std::sync::{Arc, Wait};
use sz_cells::{CellBits, NoMemory, Shape};
use sz_ops::{image_by_map, trace};
use sz_shelf::{Look, Pass, Shelf};
use sz_spec::{ArrayList, Dir, OpAt, Strategy, Tally};
use sz_store::NodeStore;

/// A view of a node: it owns what it uses.
#[derive(Drop)]
pub enum NodeView {
    /// The operator's mapping of cells.
    Mapped {
        at: Arc<OpAt>,
    },
    /// The store of a strategy on the node's shelf, of which the pass saw the seal.
    Stored {
        at: Arc<OpAt>,
        shelf: Arc<Shelf>,
        pass: Pass,
        s: Strategy,
    },
    /// What the store of a strategy stands for. It holds no values.
    Kept {
        at: Arc<OpAt>,
        store: Arc<NodeStore>,
        s: Strategy,
    },
    /// The store of a strategy on the node's shelf where a look finds a seal, and else the
    /// operator, run again over its inputs.
    Building {
        node: Growing,
        pass: Pass,
        s: Strategy,
    },
    /// The operator, run again over its inputs.
    Traced {
        run: NodeRunRef,
    },
}

/// An operator at work: the operator, and the arrays that it takes, in their order.
#[derive(Drop)]
pub struct NodeRunRef {
    pub at: Arc<OpAt>,
    pub inputs: ArrayList,
}

impl NodeView {
    /// The operator, at its shapes.
    fn at(&self) -> &OpAt
        ensures { result.now ≡ view_site (view_of self.now) }
    {
        match self {
            NodeView::Mapped { at } => at,
            NodeView::Stored { at, .. } => at,
            NodeView::Kept { at, .. } => at,
            NodeView::Building { node, .. } => node.at(),
            NodeView::Traced { run } => &run.at,
        }
    }

    /// The shape to which a step leads.
    pub(crate) fn far_shape(&self, dir: Dir, input: u32) -> Shape
        requires { input < length (view_site (view_of self.now)).ins }
        ensures { result ≡ far_side dir (view_site (view_of self.now)) input }
    {
        match dir {
            Dir::Back => self.at().ins()[input as usize],
            Dir::Forward => self.at().out(),
        }
    }

    /// Takes a set of cells through one step, into a bitmap that is empty yet, and tells how it
    /// went. A mapping costs by the cells of the set and of its image, a store by what it finds of
    /// them, and a trace looks at each output cell once and counts them. A view of a shelf takes
    /// one turn there. Only a trace takes memory. After `NoMemory`, `to` and the tally are of no
    /// use.
    pub(crate) fn step_into<R: Wait>(
        &mut self,
        alloc: Global,
        rt: &R,
        dir: Dir,
        input: u32,
        from: &CellBits,
        to: &mut CellBits,
        tally: &mut Tally,
    ) -> Result<Used, NoMemory>
        requires ready { IsUsable (view_of self.old) }
        requires input { input < length (view_site (view_of self.old)).ins }
        requires from { from.now.extent ≡ near_side dir (view_site (view_of self.old)) input }
        requires to { to.old ≡ no_cells (far_side dir (view_site (view_of self.old)) input) }
        requires room { tally.old + most_traced_by (view_of self.old) < 2 ^ 63 }
        ensures to { OnOk result (to.new ≡ image_by dir (view_of self.old) input from.now) }
        ensures used { IfOk result (λ u. u ≡ used_of (view_of self.new)) }
        ensures ticks { OnOk result (tally.new ≡ tally.old + traced_by (view_of self.new)) }
        ensures asked { IsAsked (view_of self.old) (view_of self.new) }
    {
        match self {
            NodeView::Mapped { at } => {
                image_by_map(at, dir, input, from, to);
                Ok(Used::By(Strategy::Map))
            }
            NodeView::Stored { shelf, pass, s, .. } => {
                shelf.look(rt, pass, *s, dir, input, from, to);
                Ok(Used::By(*s))
            }
            NodeView::Kept { store, s, .. } => {
                store.image(*s, dir, input, from, to);
                Ok(Used::By(*s))
            }
            NodeView::Building { node, pass, s } => {
                match node.shelf().look(rt, pass, *s, dir, input, from, to) {
                    Look::Done(read) => Ok(Used::By(read.strategy())),
                    Look::Unsealed { .. } => {
                        let run = node.run(pass);
                        run.trace_into(alloc, dir, input, from, to, tally)
                    }
                }
            }
            NodeView::Traced { run } => run.trace_into(alloc, dir, input, from, to, tally),
        }
    }
}

impl NodeRunRef {
    /// Takes a set of cells through one step by running the operator again, into a bitmap that is
    /// empty yet. After `NoMemory`, `to` and the tally are of no use.
    fn trace_into(
        &self,
        alloc: Global,
        dir: Dir,
        input: u32,
        from: &CellBits,
        to: &mut CellBits,
        tally: &mut Tally,
    ) -> Result<Used, NoMemory>
        requires ready { extents_of self.now.inputs ≡ (arc_value self.now.at).ins }
        requires input { input < length (arc_value self.now.at).ins }
        requires from { from.now.extent ≡ near_side dir (arc_value self.now.at) input }
        requires to { to.old ≡ no_cells (far_side dir (arc_value self.now.at) input) }
        requires room { tally.old + size_of (arc_value self.now.at).out < 2 ^ 63 }
        ensures to { let run = self.now in OnOk result (to.new ≡ image_in dir (arc_value run.at)
            input (related (arc_value run.at).op run.inputs input) from.now) }
        ensures used { IfOk result (λ u. u ≡ Traced) }
        ensures ticks { OnOk result
            (tally.new ≡ tally.old + size_of (arc_value self.now.at).out) }
    {
        let arrays = self.inputs.as_slice();
        trace(alloc, &self.at, arrays, dir, input, from, to, tally)?;
        Ok(Used::Traced)
    }
}
