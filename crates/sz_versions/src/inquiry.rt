//! What is asked along a path, ready to be answered by any thread.

ghost use Rattle.std.specs.Prelude.{◌≡◌, ◌+◌, ◌^◌, ◌<◌};
ghost use Rattle.sz_versions.specs.Terms.{IfOk, OnErr, IsAnswerTo};

use std::alloc::Global;
use std::marker::Model;
use std::sync::Wait;
use sz_cells::{CellSet, NoMemory};
use sz_query::{Found, NodeView, Spare, answer_with};
use sz_spec::{Dir, Tally};

/// An ask along a path: the view of each step with the number of its input, and the cells from
/// which the path starts. It owns what it uses. Contracts see it as a `Search`; each step can be
/// taken.
#[derive(Drop)]
pub struct Inquiry {
    pub(crate) dir: Dir,
    pub(crate) views: Vec<NodeView>,
    pub(crate) inputs: Vec<u32>,
    pub(crate) cells: CellSet,
}

impl Model for Inquiry {
    ghost use Rattle.std.specs.Prelude.{map};
    ghost use Rattle.sz_query.specs.Views.{view_of};
    ghost use Rattle.sz_versions.specs.Searches.{Search, IsReady};

    ghost Value = { Search };

    ghost view = { λ s. record {
      dir = s.dir;
      views = map view_of s.views.items;
      inputs = s.inputs.items;
      start = s.cells;
    } };

    ghost invariant = { λ s. IsReady (record {
      dir = s.dir;
      views = map view_of s.views.items;
      inputs = s.inputs.items;
      start = s.cells;
    }) };
}

impl Inquiry {
    /// What is found: each view is asked once. The tally rises by the output sizes of the steps
    /// that are told as traced, and stays where there is no memory. Costs what the steps cost, and
    /// what bitmaps cost of which there is no spare one.
    pub fn answer<R: Wait>(
        self,
        alloc: Global,
        rt: &R,
        spare: &mut Spare,
        tally: &mut Tally,
    ) -> Result<Found, NoMemory>
        requires room { tally.old + 33554432 < 2 ^ 63 }
        ensures answer { IfOk result (λ f. IsAnswerTo self f) }
        ensures ticks { IfOk result (λ f. tally.new ≡ tally.old + f.traced) }
        ensures kept { OnErr result (tally.new ≡ tally.old) }
    {
        let Inquiry {
            dir,
            mut views,
            inputs,
            cells,
        } = self;
        answer_with(alloc, rt, spare, &mut views, &inputs, dir, &cells, tally)
    }
}
