//! What a line orders. Contracts see a command as it is, its lists as lists.

ghost use Rattle.std.specs.Prelude.{◌≡◌};
ghost use Rattle.sz_script.specs.declared.command.LineFault.TheVariants as fault;

use crate::lists::{BaseList, NamedCells, NewCells, Path, StrategyList};
use crate::name::Name;
use crate::refusal::Refusal;
use std::alloc::{AllocError, AllocFailed};
use std::marker::Model;
use sz_spec::{Array, Dir, Flow};

/// What a line orders.
#[derive(Drop)]
pub enum Command {
    /// Hold an array of one layer as the next version of a name.
    Array {
        name: Name,
        array: Array,
    },
    /// Hold an array of one layer, given as comma-separated text, as the next version of a name.
    Csv {
        name: Name,
        array: Array,
    },
    /// Hold an array of several layers as the next version of a name.
    Layers {
        name: Name,
        array: Array,
    },
    /// Hold a flow under a name.
    Flow {
        name: Name,
        flow: Flow,
    },
    /// Set the strategies of a node of a flow, for versions started later.
    Strategy {
        name: Name,
        node: u32,
        list: StrategyList,
    },
    /// Start a version of a flow on base arrays.
    Start {
        name: Name,
        base: BaseList,
    },
    /// Plan the strategies of a flow's nodes on base arrays, within so many units, for so many asks
    /// in each direction.
    Plan {
        name: Name,
        base: BaseList,
        units: u32,
        back: u32,
        forward: u32,
    },
    /// Set cells of a base array of a version, and start its flow again on the array that they
    /// give.
    Refresh {
        version: u32,
        input: u32,
        set: NewCells,
    },
    /// Merge the stores of a version.
    Merge {
        version: u32,
    },
    /// Tell the kinds of lineage of a version's merged stores.
    Merged {
        version: u32,
    },
    /// Await a version.
    Await {
        version: u32,
    },
    /// Ask which cells a path leads to from these.
    Ask {
        version: u32,
        dir: Dir,
        path: Path,
        cells: NamedCells,
    },
    /// Ask by which way each step of a path is answered.
    Explain {
        version: u32,
        dir: Dir,
        path: Path,
        cells: NamedCells,
    },
    /// Show the output of a node.
    Show {
        version: u32,
        node: u32,
    },
}

/// A base array that a start or a plan names: its name, and its version from 1.
#[derive(Debug, Drop)]
pub struct BaseName {
    pub name: Name,
    pub version: u32,
}

/// A step of a path: a node of a flow and the number of one of its inputs, both from 0. Contracts
/// see it as a `Step`.
#[derive(Clone, Copy, Debug, Drop)]
pub struct PathStep {
    pub node: u32,
    pub input: u32,
}

impl Model for PathStep {
    ghost use Rattle.sz_spec.specs.Paths.{Step};

    ghost Value = { Step };

    ghost view = { λ s. record { node = s.node; input = s.input } };

    ghost inverse = { λ s. record { node = s.node; input = s.input } };
}

/// A cell as a line names it: its layer, its row in the layer, and its column, all from 0.
#[derive(Clone, Copy, Debug, Drop, PartialEq, Eq)]
pub struct NamedCell {
    pub layer: u32,
    pub row: u32,
    pub col: u32,
}

/// A cell as a line sets it: its layer, its row in the layer, and its column, all from 0, and what
/// it is to hold.
#[derive(Clone, Copy, Debug, Drop, PartialEq, Eq)]
pub struct NewCell {
    pub layer: u32,
    pub row: u32,
    pub col: u32,
    pub value: Option<i64>,
}

/// Why a line is not taken.
#[derive(Debug, Drop)]
pub enum LineFault {
    /// A rule refuses it.
    Refused(Refusal),
    /// There was no memory.
    NoMemory,
}

/// A line that has none of the forms.
pub const NO_FORM: LineFault = LineFault::Refused(Refusal::NoForm);

/// A line with a name that is none.
pub const BAD_NAME: LineFault = LineFault::Refused(Refusal::BadName);

impl From<AllocError> for LineFault {
    ghost from_gives = { λ _ e. e ≡ fault.NoMemory };

    fn from(_error: AllocError) -> LineFault {
        LineFault::NoMemory
    }
}

impl<T: Drop> From<AllocFailed<T>> for LineFault {
    ghost from_gives = { λ _ e. e ≡ fault.NoMemory };

    fn from(_error: AllocFailed<T>) -> LineFault {
        LineFault::NoMemory
    }
}
