//! Asks: queries on their way.

ghost use Rattle.std.specs.Prelude.{◌≡◌, ◌<◌, ◌+◌};
ghost use Rattle.sz_core.specs.Terms.{length, option_map, next_step, first_ask, step_of};

use std::marker::Model;
use sz_cells::CellSet;
use sz_spec::Dir;

/// What is asked: a direction, a path of nodes each with the number of one of its inputs, and the
/// cells to start with. Contracts see a query.
#[derive(Drop)]
pub struct CoreAsk {
    pub dir: Dir,
    pub path: Vec<(u32, u32)>,
    pub cells: CellSet,
}

impl Model for CoreAsk {
    ghost use Rattle.std.specs.Prelude.{map};
    ghost use Rattle.sz_core.specs.Steps.{step_of};
    ghost use Rattle.sz_core.specs.States.{Query};

    ghost Value = { Query };

    ghost view = { λ q. record { dir = q.dir; path = map step_of q.path.items; cells = q.cells } };
}

/// A query of which some steps are made, and the cells that they led to.
#[derive(Drop)]
pub(crate) struct MovingAsk {
    dir: Dir,
    path: Vec<(u32, u32)>,
    made: usize,
    cells: CellSet,
}

impl Model for MovingAsk {
    ghost use Rattle.std.specs.Prelude.{map};
    ghost use Rattle.sz_core.specs.Steps.{step_of};
    ghost use Rattle.sz_core.specs.States.{Ask};

    ghost Value = { Ask };

    ghost view = { λ a. record {
      dir = a.dir;
      path = map step_of a.path.items;
      made = a.made;
      cells = a.cells;
    } };
}

impl MovingAsk {
    /// The ask of a query before any event.
    pub fn of(query: CoreAsk) -> MovingAsk
        ensures { result ≡ first_ask query }
    {
        MovingAsk {
            dir: query.dir,
            path: query.path,
            made: 0,
            cells: query.cells,
        }
    }

    /// The direction in which the ask goes.
    pub fn dir(&self) -> Dir
        ensures { result ≡ self.now.dir }
    {
        self.dir
    }

    /// The cells that the steps made led to.
    pub fn cells(&self) -> &CellSet
        ensures { result.now ≡ self.now.cells }
    {
        &self.cells
    }

    /// The next step, a node and the number of one of its inputs. `None` exactly where all are
    /// made.
    pub fn next_step(&self) -> Option<(u32, u32)>
        ensures { option_map step_of result ≡ next_step self.now }
    {
        if self.made < self.path.len() {
            Some(self.path[self.made])
        } else {
            None
        }
    }

    /// Makes the next step, which led to these cells.
    pub fn make_step(&mut self, cells: CellSet)
        requires { self.old.made < length self.old.path }
        ensures { self.new ≡ record self.old { made = self.old.made + 1; cells = cells } }
    {
        self.cells = cells;
        self.made += 1;
    }
}
