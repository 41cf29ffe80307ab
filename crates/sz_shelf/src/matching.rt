//! Laws of the pure machine's shelf of a tag, for a reader: each function has an empty body, and
//! its contract is the law. They tie the pairs that the machine is given to the tag's relation, so
//! what the machine's looks hold is what [`Shelf::look`](crate::Shelf::look) adds.

ghost use Rattle.sz_shelf.specs.Terms.{PairsSayTheRelation, AsksComeToTheTagsImage};
ghost use Rattle.sz_shelf.specs.Terms.{LooksHoldTheTagsImage};

/// The pairs of all pieces say exactly the tag's relation.
pub fn pairs_say_the_relation()
    ensures { PairsSayTheRelation }
{}

/// The ask of a look comes to the image under the tag's relation, and holds it once it has looked.
pub fn looks_hold_the_tags_image()
    ensures come { AsksComeToTheTagsImage }
    ensures hold { LooksHoldTheTagsImage }
{}
