//! Laws of answers, for a reader and for whoever holds a flow's outputs: each function has an empty
//! body, and its contract is the law.

ghost use Rattle.sz_query.specs.Terms.{AnswersGoByParts, AnswersAreTheComposedRelation};
ghost use Rattle.sz_query.specs.Terms.{JoinedPathsAreSteps, StepsHaveWhatViewsAsk, AskedViewsStay};

/// The answer by views in two parts is the answer by the second part from that by the first.
pub fn answers_go_by_parts()
    ensures { AnswersGoByParts }
{}

/// By views of the nodes of a flow's path, each by the node's mapping, by a store that stands for
/// exactly the node's relation, or over the node's inputs, the answer is the composed relation
/// along the path. Where a view is by a store, the set that it takes is one that a step can take.
pub fn answers_are_the_composed_relation()
    ensures { AnswersAreTheComposedRelation }
{}

/// Along a joined path of a flow, by views of its nodes that can be used, the steps are as
/// [`crate::answer`] needs them from a set of the shape in which the path starts.
pub fn joined_paths_are_steps()
    ensures { JoinedPathsAreSteps }
{}

/// Where steps can be taken from a set, each view has what it asks of the set that it takes.
pub fn steps_have_what_views_ask()
    ensures { StepsHaveWhatViewsAsk }
{}

/// A view whose step was taken is one of the same operator, and gives each set its image as before.
/// Where it is not one of a shelf that may grow, it tells of its step what it told.
pub fn asked_views_stay()
    ensures { AskedViewsStay }
{}
