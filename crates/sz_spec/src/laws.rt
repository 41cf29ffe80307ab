//! Laws of the definitions, for a reader: each function has an empty body, and its contract is the
//! law.

ghost use Rattle.sz_spec.specs.Terms.{I64sAreValues, OtherNumbersAreEmpty, SumsOfNumbersAreTotals};
ghost use Rattle.sz_spec.specs.Terms.{SumsWithAnEmptyOneAreEmpty, OutputsHaveAValueForEachCell};
ghost use Rattle.sz_spec.specs.Terms.{OutputsHoldTheirValues, OutputsAreShapes};
ghost use Rattle.sz_spec.specs.Terms.{EachCellIsInOnePiece, PiecesAreOfTheShape, PiecesAreFew};
ghost use Rattle.sz_spec.specs.Terms.{ImagesBackAreTheRelatedCells};
ghost use Rattle.sz_spec.specs.Terms.{ImagesForwardAreTheRelatedCells, ImagesBackSayThereIs};
ghost use Rattle.sz_spec.specs.Terms.{ImagesForwardSayThereIs, ImagesBackOfUnions};
ghost use Rattle.sz_spec.specs.Terms.{ImagesForwardOfUnions, ImagesBackAgree, ImagesForwardAgree};
ghost use Rattle.sz_spec.specs.Terms.{PathsComposeByTheirParts, ConnectedCellsAreLedTo};
ghost use Rattle.sz_spec.specs.Terms.{ConnectedCellsAreHigh, HighCellsAreConnectedToThemselves};
ghost use Rattle.sz_spec.specs.Terms.{ConnectionIsSymmetric, ConnectionGoesByParts};
ghost use Rattle.sz_spec.specs.Terms.{ComponentsAreClosed, ComponentsAreWhole};
ghost use Rattle.sz_spec.specs.Terms.{ConnectedCellsHaveOneComponent, OtherCellsAreLabelledZero};
ghost use Rattle.sz_spec.specs.Terms.{HighCellsAreLabelledByTheLeast, RelatedCellsAreOfInputs};
ghost use Rattle.sz_spec.specs.Terms.{MappingsAreTheRelation, PayloadsAreLawful};
ghost use Rattle.sz_spec.specs.Terms.{PayloadsAreTheRelation, DefaultsAreTheRelation};
ghost use Rattle.sz_spec.specs.Terms.{ValuesDependOnRelatedCells, RelationsDependOnRelatedCells};
ghost use Rattle.sz_spec.specs.Terms.{ValuesDependOnEitherRelation};
ghost use Rattle.sz_spec.specs.Terms.{RelationsDependOnEitherRelation, ComposedCellsAreLedTo};
ghost use Rattle.sz_spec.specs.Terms.{ValuesDependOnReachedCells};
ghost use Rattle.sz_spec.specs.Terms.{ValuesDependOnCellsReachedInEither, WellFormedFlowsAreRight};
ghost use Rattle.sz_spec.specs.Terms.{EachNodeHasAnOutput, OutputsAreThoseOfTheirNodes};
ghost use Rattle.sz_spec.specs.Terms.{ShapesFoundAreThoseOfTheOutputs, ThreeHaveNoMapping};
ghost use Rattle.sz_spec.specs.Terms.{MappedOperatorsSupport, OtherOperatorsSupport};
ghost use Rattle.sz_spec.specs.Terms.{MappedOperatorsSupportForward, OtherOperatorsSupportForward};
ghost use Rattle.sz_spec.specs.Terms.{NumbersTellStrategiesApart, OrdersHaveEachStrategyOnce};
ghost use Rattle.sz_spec.specs.Terms.{ListedStrategiesAreInTheList, WaysAreInTheList};
ghost use Rattle.sz_spec.specs.Terms.{WaysAreTheFirst};

/// A whole number that is an i64 is a value, and any other is empty.
pub fn values_are_the_i64s()
    ensures value { I64sAreValues }
    ensures empty { OtherNumbersAreEmpty }
{}

/// The sum of values is that of their numbers where all are there, and is not there where one is
/// not.
pub fn sums_are_of_all()
    ensures numbers { SumsOfNumbersAreTotals }
    ensures empty { SumsWithAnEmptyOneAreEmpty }
{}

/// An operator's output has one value for each cell of its shape: the operator's value there.
pub fn outputs_hold_their_values()
    ensures count { OutputsHaveAValueForEachCell }
    ensures values { OutputsHoldTheirValues }
{}

/// Of shapes within the limits an operator makes a shape within the limits.
pub fn outputs_are_shapes()
    ensures { OutputsAreShapes }
{}

/// Each cell of a shape is in exactly one piece, and there are 1 to 16,384 pieces.
pub fn cells_are_in_one_piece()
    ensures one { EachCellIsInOnePiece }
    ensures held { PiecesAreOfTheShape }
    ensures few { PiecesAreFew }
{}

/// The image of a set under a relation is exactly the related cells.
pub fn images_are_the_related_cells()
    ensures back { ImagesBackAreTheRelatedCells }
    ensures forward { ImagesForwardAreTheRelatedCells }
    ensures back_there_is { ImagesBackSayThereIs }
    ensures forward_there_is { ImagesForwardSayThereIs }
{}

/// The image of a union is the union of the images, in both directions.
pub fn images_of_unions_are_unions()
    ensures back { ImagesBackOfUnions }
    ensures forward { ImagesForwardOfUnions }
{}

/// Relations that agree on the cells of both shapes have the same images.
pub fn images_agree_with_their_relations()
    ensures back { ImagesBackAgree }
    ensures forward { ImagesForwardAgree }
{}

/// Composition along a path that is joined of two parts is the composition of the parts.
pub fn paths_compose_by_their_parts()
    ensures { PathsComposeByTheirParts }
{}

/// A cell is connected to another exactly where a list of high cells leads there, each a neighbour
/// of the one before. So it goes back, and by parts.
pub fn connected_cells_are_led_to()
    ensures led_to { ConnectedCellsAreLedTo }
    ensures high { ConnectedCellsAreHigh }
    ensures itself { HighCellsAreConnectedToThemselves }
    ensures symmetric { ConnectionIsSymmetric }
    ensures parts { ConnectionGoesByParts }
{}

/// A component has every high neighbour of its cells, and is that of each of them.
pub fn components_are_closed()
    ensures closed { ComponentsAreClosed }
    ensures whole { ComponentsAreWhole }
    ensures one { ConnectedCellsHaveOneComponent }
{}

/// A high cell is labelled by 1 plus the least index of a connected cell, and any other cell by 0.
pub fn regions_are_labelled_by_their_least()
    ensures other { OtherCellsAreLabelledZero }
    ensures high { HighCellsAreLabelledByTheLeast }
{}

/// A cell is related to cells of the inputs alone, and the relation of an operator that supports
/// Map is its mapping of cells.
pub fn mappings_are_the_relation()
    ensures inputs { RelatedCellsAreOfInputs }
    ensures mapped { MappingsAreTheRelation }
{}

/// The payload that is kept for a cell is one of the operator's and stands for the relation. Where
/// a composite store keeps none, the default is the relation.
pub fn payloads_are_the_relation()
    ensures lawful { PayloadsAreLawful }
    ensures stands { PayloadsAreTheRelation }
    ensures default { DefaultsAreTheRelation }
{}

/// Where the cells to which a cell is related hold the same values in old and in new inputs, the
/// cell has the same value and the same relation. For every operator but regions the old relation
/// tells which cells these are; for regions the old one and the new one.
pub fn values_depend_on_related_cells()
    ensures value { ValuesDependOnRelatedCells }
    ensures relation { RelationsDependOnRelatedCells }
    ensures value_in_either { ValuesDependOnEitherRelation }
    ensures relation_in_either { RelationsDependOnEitherRelation }
{}

/// A cell is in the composed image along a path exactly where a list of cells, one for each step,
/// leads there.
pub fn composed_cells_are_led_to()
    ensures { ComposedCellsAreLedTo }
{}

/// The value of an output cell of a flow depends on no cell of the base arrays but those that are
/// reached from it along some path: by the old evaluation, where the paths pass no regions, and
/// else at each step by the old or by the new one.
pub fn values_depend_on_reached_cells()
    ensures reached { ValuesDependOnReachedCells }
    ensures in_either { ValuesDependOnCellsReachedInEither }
{}

/// A flow is well formed exactly where its sizes and each of its nodes keep the rules.
pub fn well_formed_flows_are_right()
    ensures { WellFormedFlowsAreRight }
{}

/// A flow has one output for each node: that of its operator over the arrays that its sources stand
/// for.
pub fn outputs_are_those_of_their_nodes()
    ensures count { EachNodeHasAnOutput }
    ensures value { OutputsAreThoseOfTheirNodes }
{}

/// The shapes of a flow's outputs are found without computing a value.
pub fn shapes_found_are_those_of_the_outputs()
    ensures { ShapesFoundAreThoseOfTheOutputs }
{}

/// Which strategies an operator supports, in the order of each direction: it is settled by whether
/// it has a mapping of cells, as all but three have.
pub fn operators_support_by_their_mapping()
    ensures three { ThreeHaveNoMapping }
    ensures mapped { MappedOperatorsSupport }
    ensures others { OtherOperatorsSupport }
    ensures mapped_forward { MappedOperatorsSupportForward }
    ensures others_forward { OtherOperatorsSupportForward }
{}

/// The order of each direction has each strategy exactly once.
pub fn orders_have_each_strategy_once()
    ensures apart { NumbersTellStrategiesApart }
    ensures once { OrdersHaveEachStrategyOnce }
{}

/// The way is in the list, and no strategy that comes before it in the direction's order is.
pub fn ways_are_the_first_listed()
    ensures listed { ListedStrategiesAreInTheList }
    ensures way { WaysAreInTheList }
    ensures first { WaysAreTheFirst }
{}
