//! Laws of the definitions, for a reader: each function has an empty body, and its contract is the
//! law.

ghost use Rattle.sz_gen.specs.Terms.{SessionsHave42Lines, DrawsAreBelow};

/// Every seed and side make 42 lines.
pub fn sessions_have_42_lines()
    ensures { SessionsHave42Lines }
{}

/// A draw of a number gives one below it.
pub fn draws_are_below()
    ensures { DrawsAreBelow }
{}
