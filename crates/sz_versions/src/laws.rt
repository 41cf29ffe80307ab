//! What follows from the definitions alone.

ghost use Rattle.sz_versions.specs.Terms.{SoundStoresTellTheKinds, SoundStoresAnswerTheRelation};

/// What is answered by stores that stand for the relation is the composed relation.
pub fn sound_stores_answer_the_relation()
    ensures { SoundStoresAnswerTheRelation }
{}

/// The numbers that are told of stores that a log gave and that stand for the relation, once they
/// are merged, are those that are told of a version that was started here.
pub fn sound_stores_tell_the_kinds()
    ensures { SoundStoresTellTheKinds }
{}
