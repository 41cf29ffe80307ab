//! Laws of the definitions, for a reader: each function has an empty body, and its contract is the
//! law.

ghost use Rattle.sz_short.specs.Terms.{NumbersHaveShortSpellings, ShortSpellingsAreNumbers};
ghost use Rattle.sz_short.specs.Terms.{BytesAreOneShortNumber, BytesAreOneShortSet};
ghost use Rattle.sz_short.specs.Terms.{OneShortSetBegins, WrittenShortSetsAreRead, LongFullIsFull};
ghost use Rattle.sz_short.specs.Terms.{LongPayIsPay};

/// The bytes of a number are exactly its one short spelling.
pub fn numbers_have_one_short_spelling()
    ensures spelled { NumbersHaveShortSpellings }
    ensures only { ShortSpellingsAreNumbers }
{}

/// A short number is known by its bytes, and its end shows without what follows.
pub fn short_bytes_are_one_number()
    ensures { BytesAreOneShortNumber }
{}

/// A set of a known shape has one short spelling, and its end shows without what follows.
pub fn short_bytes_are_one_set()
    ensures bytes { BytesAreOneShortSet }
    ensures place { OneShortSetBegins }
{}

/// What is written of a set is read again whatever follows it, and is read in no other way.
pub fn written_short_sets_are_read()
    ensures { WrittenShortSetsAreRead }
{}

/// Where its sets have eight bytes a run, a store by its parts is a store as `sz_frame` defines
/// it.
pub fn long_stores_are_stores()
    ensures full { LongFullIsFull }
    ensures pay { LongPayIsPay }
{}
