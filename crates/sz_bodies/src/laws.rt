//! What may be taken for granted of the bodies. Each function is a law: its clauses say it, and it
//! does nothing.
ghost use Rattle.sz_bodies.specs.Terms.{OneBodyAtMost, WrittenBodiesAreLawful};

/// Some bytes are the body of at most one version with its stores: what is written is read again,
/// and in no other way.
pub fn bodies_are_read_in_one_way()
    ensures { OneBodyAtMost }
{}

/// The body of a version is lawful over anything to which the version can be added, and says it.
pub fn written_bodies_are_lawful()
    ensures { WrittenBodiesAreLawful }
{}
