//! Laws of the definitions, for a reader: each function has an empty body, and its contract is the
//! law.

ghost use Rattle.sz_planner.specs.Terms.{ListsAreBestChoices, BestChoicesAreOne};

/// Within any limit there is a best choice: the list that is read off from the least costs.
pub fn lists_are_best_choices()
    ensures { ListsAreBestChoices }
{}

/// Within a limit there is one best choice.
pub fn best_choices_are_one()
    ensures { BestChoicesAreOne }
{}
