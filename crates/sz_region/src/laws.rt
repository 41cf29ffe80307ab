//! Laws of the definitions, for a reader: each function has an empty body, and its contract is the
//! law.

ghost use Rattle.sz_region.specs.Terms.{WrittenSetsAreRead, OneListOfRegionsBegins};
ghost use Rattle.sz_region.specs.Terms.{WrittenRegionsAreRead, OneListOfEntriesBegins};
ghost use Rattle.sz_region.specs.Terms.{WrittenEntriesAreRead};

/// What is written of a set is read again whatever follows it, and is read in no other way.
pub fn written_sets_are_read()
    ensures { WrittenSetsAreRead }
{}

/// What is written of region pairs is read again whatever follows it, and is read in no other way.
pub fn written_regions_are_read()
    ensures one { OneListOfRegionsBegins }
    ensures read { WrittenRegionsAreRead }
{}

/// What is written of entries is read again whatever follows it, and is read in no other way.
pub fn written_entries_are_read()
    ensures one { OneListOfEntriesBegins }
    ensures read { WrittenEntriesAreRead }
{}
