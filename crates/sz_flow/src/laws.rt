//! Laws of the definitions, for a reader: each function has an empty body, and its contract is the
//! law.

ghost use Rattle.sz_flow.specs.Terms.{OutputsAreTheEvaluations, ExecutionsAreThoseOfTheirNodes};
ghost use Rattle.sz_flow.specs.Terms.{EachNodeHasAnExecution, ExecutionsAreRight};

/// A flow has one execution for each node, and their outputs are the evaluations of the nodes. Of a
/// well-formed flow each is that of its node's operator over the arrays that the node takes.
pub fn executions_are_those_of_their_nodes()
    ensures count { EachNodeHasAnExecution }
    ensures outputs { OutputsAreTheEvaluations }
    ensures each { ExecutionsAreThoseOfTheirNodes }
{}

/// Where a flow is well formed and fits, each of its operators is executed between right shapes.
pub fn executions_are_right()
    ensures { ExecutionsAreRight }
{}
