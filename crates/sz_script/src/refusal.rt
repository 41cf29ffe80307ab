//! Why a line is refused, and the numbers that are printed for it.

ghost use Rattle.std.specs.Prelude.{◌≡◌, ◌∷◌};
ghost use Rattle.sz_script.specs.Terms.{[], numbers_of, fault_numbers, before};

use std::marker::Model;
use sz_spec::FlowFault;

/// The rule that refuses a line, with what is printed beside its number. The rules are tested in
/// the order in which they stand here.
#[derive(Clone, Copy, Debug, Drop, PartialEq, Eq)]
pub enum Refusal {
    /// The line is too long.
    TooLong,
    /// The line is no JSON.
    NoJson,
    /// The JSON has none of the forms.
    NoForm,
    /// A name is none.
    BadName,
    /// The cells of an array are none.
    BadCells,
    /// An array has too many cells.
    TooManyCells,
    /// No further array, or not this one, is held.
    NoRoomForArray,
    /// A flow has this fault.
    BadFlow(FlowFault),
    /// No further flow is held, or one of this name is.
    NoRoomForFlow,
    /// No such flow is held.
    NoSuchFlow,
    /// A base array is not held.
    NoSuchArray,
    /// There are more or fewer base arrays than the flow takes.
    WrongBase,
    /// This is the first node whose shape rule is broken.
    ShapesDoNotFit { node: u32 },
    /// No further version, or not this one, is held.
    NoRoomForVersion,
    /// No such version is held.
    NoSuchVersion,
    /// The path is not joined.
    NotJoined,
    /// A cell is out of range.
    OutOfRange,
    /// The node is not there, or the list of strategies is none of the operator's.
    BadStrategies,
    /// The version is not awaited.
    NotAwaited,
    /// The version has no such node.
    NoSuchNode,
    /// The version to refresh or to merge is not awaited.
    StillBuilt,
    /// The version has no such input.
    NoSuchInput,
    /// A plan is to fit into too many units.
    TooManyUnits,
    /// No merge of the version was asked.
    NotMerged,
}

/// What is printed of a refusal: its number, and the numbers behind it. Contracts see the list of
/// them.
#[derive(Debug, Drop)]
pub struct Printed {
    pub number: u32,
    pub first: Option<u32>,
    pub second: Option<u32>,
    pub third: Option<u32>,
}

impl Model for Printed {
    ghost use Rattle.std.specs.Prelude.{ℕ, List, [], ◌∷◌};
    ghost use Rattle.sz_script.specs.Refusals.{before};

    ghost Value = { List ℕ };

    ghost view = { λ p. p.number ∷ before p.first (before p.second (before p.third [])) };
}

impl Refusal {
    /// What is printed of this refusal: its line of the table.
    pub fn printed(self) -> Printed
        ensures { result ≡ numbers_of self }
    {
        match self {
            Refusal::TooLong => number(2),
            Refusal::NoJson => number(1),
            Refusal::NoForm => number(3),
            Refusal::BadName => number(4),
            Refusal::BadCells => number(5),
            Refusal::TooManyCells => number(6),
            Refusal::NoRoomForArray => number(7),
            Refusal::BadFlow(fault) => behind(8, fault),
            Refusal::NoRoomForFlow => number(9),
            Refusal::NoSuchFlow => number(10),
            Refusal::NoSuchArray => number(11),
            Refusal::WrongBase => number(12),
            Refusal::ShapesDoNotFit { node } => numbers(13, Some(node), None, None),
            Refusal::NoRoomForVersion => number(14),
            Refusal::NoSuchVersion => number(15),
            Refusal::NotJoined => number(16),
            Refusal::OutOfRange => number(17),
            Refusal::BadStrategies => number(18),
            Refusal::NotAwaited => number(19),
            Refusal::NoSuchNode => number(20),
            Refusal::StillBuilt => number(22),
            Refusal::NoSuchInput => number(23),
            Refusal::TooManyUnits => number(24),
            Refusal::NotMerged => number(25),
        }
    }
}

/// A number alone.
fn number(number: u32) -> Printed
    ensures { result ≡ number ∷ [] }
{
    numbers(number, None, None, None)
}

/// A number, and the numbers of a flow's fault behind it.
fn behind(number: u32, fault: FlowFault) -> Printed
    ensures { result ≡ number ∷ fault_numbers fault }
{
    match fault {
        FlowFault::NoNodes => numbers(number, Some(1), None, None),
        FlowFault::TooManyNodes => numbers(number, Some(2), None, None),
        FlowFault::BadSource { node, input } => numbers(number, Some(3), Some(node), Some(input)),
        FlowFault::WrongArity { node } => numbers(number, Some(4), Some(node), None),
        FlowFault::BadParameter { node } => numbers(number, Some(5), Some(node), None),
        FlowFault::TooManyInputs => numbers(number, Some(6), None, None),
    }
}

/// A number, and those of three that are there.
fn numbers(number: u32, first: Option<u32>, second: Option<u32>, third: Option<u32>) -> Printed
    ensures { result ≡ number ∷ before first (before second (before third [])) }
{
    Printed {
        number,
        first,
        second,
        third,
    }
}
