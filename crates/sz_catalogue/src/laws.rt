//! What may be taken for granted of judging and of what is held. Each function is a law: its
//! clauses say it, and it does nothing.
ghost use Rattle.sz_catalogue.specs.Terms.{RefusedCommandsChangeNothing, OtherCommandsAreTaken};
ghost use Rattle.sz_catalogue.specs.Terms.{RefusalsAreTheFirst, FirstRulesRefuse};
ghost use Rattle.sz_catalogue.specs.Terms.{TakenCommandsBreakNoRule, NextNumbersAreNew};
ghost use Rattle.sz_catalogue.specs.Terms.{PathsStartInTheirArrays, NumbersReadBack};

/// A refused command changes nothing, and any other is taken.
pub fn refused_commands_change_nothing()
    ensures refused { RefusedCommandsChangeNothing }
    ensures taken { OtherCommandsAreTaken }
{}

/// A rule refuses a command exactly where it holds and none before it does.
pub fn refusals_are_exact()
    ensures first { RefusalsAreTheFirst }
    ensures refuse { FirstRulesRefuse }
    ensures taken { TakenCommandsBreakNoRule }
{}

/// The number of a version that is started is not held.
pub fn next_numbers_are_new()
    ensures { NextNumbersAreNew }
{}

/// The numbers of a reply read back.
pub fn numbers_read_back()
    ensures { NumbersReadBack }
{}

/// The shape in which a path starts, found from shapes alone, is that of the array in which it
/// starts.
pub fn paths_start_in_their_arrays()
    ensures { PathsStartInTheirArrays }
{}
