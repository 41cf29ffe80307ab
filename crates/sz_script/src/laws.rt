//! Laws of the definitions, for a reader: each function has an empty body, and its contract is the
//! law.

ghost use Rattle.sz_script.specs.Terms.{TooLongExactly, NoJsonExactly, NoFormExactly};
ghost use Rattle.sz_script.specs.Terms.{BadNameExactly, BadCellsExactly, TooManyCellsExactly};
ghost use Rattle.sz_script.specs.Terms.{BadFlowExactly, ReadExactly, NoOtherRefusal};
ghost use Rattle.sz_script.specs.Terms.{CommandsAreRight, WordsNameTheirStrategies};

/// Each refusal of a line comes exactly where its rule holds and none before it, there are no
/// others, and a line is a command exactly where no rule holds.
pub fn refusals_are_exact()
    ensures too_long { TooLongExactly }
    ensures no_json { NoJsonExactly }
    ensures no_form { NoFormExactly }
    ensures bad_name { BadNameExactly }
    ensures bad_cells { BadCellsExactly }
    ensures too_many_cells { TooManyCellsExactly }
    ensures bad_flow { BadFlowExactly }
    ensures read { ReadExactly }
    ensures no_other { NoOtherRefusal }
{}

/// A command that is read has right names and a flow without fault.
pub fn commands_are_right()
    ensures { CommandsAreRight }
{}

/// The word of a strategy is read as that strategy.
pub fn words_name_their_strategies()
    ensures { WordsNameTheirStrategies }
{}
