//! What may be taken for granted of stores in the bytes of a format. Each function is a law: its
//! clauses say it, and it does nothing.

ghost use Rattle.sz_formats.specs.Terms.{FormatOneIsAsBefore, OneListOfStoresBegins};

/// In format 1 the stores of a node are those that `sz_store` writes.
pub fn format_one_is_as_before()
    ensures { FormatOneIsAsBefore }
{}

/// Stores of either format are read in one way.
pub fn stores_are_read_in_one_way()
    ensures { OneListOfStoresBegins }
{}
