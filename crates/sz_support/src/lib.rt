//! What fixes a value, as laws for a reader: each function has an empty body, and its contract is
//! the law.
//!
//! The cells that support an output cell of an operator are those to which it is related, and for a
//! cell of a region the neighbours of the region too (`supports`, of sz_spec). Whatever the other
//! cells of the inputs hold, the output cell has the same value: of one operator, along the paths
//! of a flow, and forward, for whole sets, node by node. The last laws say that nothing is idle:
//! when a supporting cell can matter, operator by operator, and that no value of it makes a
//! difference elsewhere.
//!
//! A row of five pixels, of which `regions` at 5 makes the labels 1 1 0 4 4:
//!
//! ```text
//! pixels     9 9 0 9 9
//! supports   the first label: pixels 0, 1 and 2; the last one: pixels 2, 3 and 4
//! suspects   of pixel 2: all five labels; of pixel 0: the first two
//! ```
//!
//! Were pixel 2 high, each label would be 1, though no lineage of the last one has pixel 2.
#![tactic(auto)]

ghost use Rattle.sz_support.specs.Terms.{RelatedCellsSupport, RelationsSupport};
ghost use Rattle.sz_support.specs.Terms.{RegionsRestOnTheirRims, LowCellsRestOnThemselves};
ghost use Rattle.sz_support.specs.Terms.{ValuesDependOnSupportingCells};
ghost use Rattle.sz_support.specs.Terms.{SupportsDependOnSupportingCells, ValuesDependOnCellsLedTo};
ghost use Rattle.sz_support.specs.Terms.{SuspectsAreLedFrom, OtherCellsKeepTheirValues};
ghost use Rattle.sz_support.specs.Terms.{SuspectsAreUnionsOfImages, SupportIsLedTo};
ghost use Rattle.sz_support.specs.Terms.{ValuesDependOnSupport, ChangedInputsDifferThere};
ghost use Rattle.sz_support.specs.Terms.{NegatedCellsMatter, CellsOfAbsMatter, CellsOfAddKMatter};
ghost use Rattle.sz_support.specs.Terms.{CellsOfMulKMatter, CellsOfMulKMatterByPresence};
ghost use Rattle.sz_support.specs.Terms.{CellsOfClipMatter, CellsOfClipMatterByPresence};
ghost use Rattle.sz_support.specs.Terms.{TransposedCellsMatter, SlicedCellsMatter};
ghost use Rattle.sz_support.specs.Terms.{CountedCellsMatter, CountedCellsOfLayersMatter};
ghost use Rattle.sz_support.specs.Terms.{SummedCellsMatter, SummedCellsOfLayersMatter};
ghost use Rattle.sz_support.specs.Terms.{ConvolvedCellsMatter, NumbersCanBeNumbers};
ghost use Rattle.sz_support.specs.Terms.{AddedCellsMatter, SubtractedCellsMatter};
ghost use Rattle.sz_support.specs.Terms.{MultipliedCellsMatter, LesserCellsMatter};
ghost use Rattle.sz_support.specs.Terms.{GreaterCellsMatter, MatchedCellsMatter};
ghost use Rattle.sz_support.specs.Terms.{MatchingCellsMatter, OwnCellsOfRegionsMatter};
ghost use Rattle.sz_support.specs.Terms.{RimCellsBeforeMatter, CellsOfLeastMatter};
ghost use Rattle.sz_support.specs.Terms.{CellsOfLeastOfLayersMatter, CellsOfGreatestMatter};
ghost use Rattle.sz_support.specs.Terms.{CellsOfGreatestOfLayersMatter, OwnCellsOfCleanMatter};
ghost use Rattle.sz_support.specs.Terms.{CellsRoundHotOnesMatter, SummedCellsMatterOnlyThere};
ghost use Rattle.sz_support.specs.Terms.{SummedCellsOfLayersMatterOnlyThere};
ghost use Rattle.sz_support.specs.Terms.{ConvolvedCellsMatterOnlyThere, PairedCellsMatterOnlyThere};
ghost use Rattle.sz_support.specs.Terms.{NamingCellsMatter, MultipliedCellsMatterByPresence};
ghost use Rattle.sz_support.specs.Terms.{RegionsHaveFirstCells, InnerCellsOfRegionsMatter};
ghost use Rattle.sz_support.specs.Terms.{RimCellsOfRegionsMatter};

/// The cells to which an output cell is related support it, and no others but for regions: a cell
/// of a region rests on the region and on the neighbours of the region's cells, and a cell that is
/// not high on itself.
pub fn supporting_cells_are_the_related_ones_and_rims()
    ensures related { RelatedCellsSupport }
    ensures relation { RelationsSupport }
    ensures rim { RegionsRestOnTheirRims }
    ensures low { LowCellsRestOnThemselves }
{}

/// Where old and new inputs hold the same value at each cell that supports an output cell, by the
/// old inputs alone, the output cell has the same value, and the same cells support it: for every
/// operator.
pub fn values_depend_on_supporting_cells()
    ensures value { ValuesDependOnSupportingCells }
    ensures supports { SupportsDependOnSupportingCells }
{}

/// The value of a node's cell depends on no cell of the base arrays but those that are led to from
/// it by supports along some path to a base array, in the old evaluation alone: whatever the paths
/// pass, and whatever stands elsewhere.
pub fn values_depend_on_cells_led_to()
    ensures { ValuesDependOnCellsLedTo }
{}

/// Whatever new values some cells of a base array take, no node's value differs outside the node's
/// suspects, which are found forward, node by node, in the old evaluation alone: those of a node
/// are the union of the images of its sources' sets. They are the cells from which one of these
/// cells is led to along some path.
pub fn other_cells_keep_their_values()
    ensures values { OtherCellsKeepTheirValues }
    ensures paths { SuspectsAreLedFrom }
    ensures images { SuspectsAreUnionsOfImages }
{}

/// The support of some cells of a node is exactly what is led to from them. Whatever stands
/// elsewhere in the base arrays, these cells have their values.
pub fn values_depend_on_their_support()
    ensures led_to { SupportIsLedTo }
    ensures values { ValuesDependOnSupport }
{}

/// Inputs with a new value in one cell differ from what they were in that cell alone, and the
/// operator is at work over them too. Where the value of an output cell is a number, and so is that
/// of a cell that supports it, there is a number for that cell with which it is one: its own.
pub fn changed_inputs_differ_there()
    ensures there { ChangedInputsDifferThere }
    ensures number { NumbersCanBeNumbers }
{}

/// Of an operator that makes its output cell of one cell, that cell can matter: there is a number
/// by which the output cell's value differs. For a product the constant is not 0, and for a clip
/// the bounds are two; where they are not, the cell matters by being empty or not.
pub fn cells_of_one_matter()
    ensures neg { NegatedCellsMatter }
    ensures abs { CellsOfAbsMatter }
    ensures add_k { CellsOfAddKMatter }
    ensures mul_k { CellsOfMulKMatter }
    ensures mul_k_presence { CellsOfMulKMatterByPresence }
    ensures clip { CellsOfClipMatter }
    ensures clip_presence { CellsOfClipMatterByPresence }
    ensures transpose { TransposedCellsMatter }
    ensures slice { SlicedCellsMatter }
{}

/// Of a fold that counts or sums, each cell that stands behind an output cell can matter: by being
/// empty or not for a count, and for a sum by a number, where the sum is an i64 for some number
/// there; where it is not, the cell is idle.
pub fn folded_cells_matter()
    ensures count { CountedCellsMatter }
    ensures count_layers { CountedCellsOfLayersMatter }
    ensures sum { SummedCellsMatter }
    ensures sum_layers { SummedCellsOfLayersMatter }
    ensures sum_only { SummedCellsMatterOnlyThere }
    ensures sum_layers_only { SummedCellsOfLayersMatterOnlyThere }
{}

/// Of a fold of the least each cell that stands behind an output cell matters, by a number, exactly
/// where no other one holds the least i64; and of the greatest where none holds the greatest i64.
/// Beside one that does it is idle: no value there makes a difference.
pub fn cells_of_extremes_matter()
    ensures least { CellsOfLeastMatter }
    ensures least_layers { CellsOfLeastOfLayersMatter }
    ensures greatest { CellsOfGreatestMatter }
    ensures greatest_layers { CellsOfGreatestOfLayersMatter }
{}

/// Of a clean whose threshold is above the least i64 each cell can matter to what it becomes, by
/// being empty or the least i64; and to what a hot cell becomes each other cell in the square round
/// it matters, by a number, exactly where no third one there holds the least i64. Where the
/// threshold is not above it, all that is made is empty, and no cell matters.
pub fn cleaned_cells_matter()
    ensures own { OwnCellsOfCleanMatter }
    ensures round { CellsRoundHotOnesMatter }
{}

/// Of a convolution each cell that lies under a weight other than 0 can matter by a number, where
/// the weighted sum is an i64 for some number there: so no other cell under a weight is empty.
/// Where it is not, the cell is idle.
pub fn convolved_cells_matter()
    ensures there { ConvolvedCellsMatter }
    ensures only { ConvolvedCellsMatterOnlyThere }
{}

/// Of an operator of two inputs each of the two cells can matter where the other one is not empty,
/// and for a product not 0: by a number for a sum, a difference and a product, where the result is
/// an i64 for some number there, and by being empty or not for the lesser and the greater, and for
/// a product by 0 too. Where no number there makes the result an i64, the cell is idle.
pub fn cells_of_two_matter()
    ensures add { AddedCellsMatter }
    ensures sub { SubtractedCellsMatter }
    ensures mul { MultipliedCellsMatter }
    ensures min { LesserCellsMatter }
    ensures max { GreaterCellsMatter }
    ensures mul_presence { MultipliedCellsMatterByPresence }
    ensures only { PairedCellsMatterOnlyThere }
{}

/// Of a lookup the matched cell of the table can matter by a number, and the cell that names its
/// column by being empty, where the value is a number; in any case it matters exactly where the
/// table holds some number.
pub fn looked_up_cells_matter()
    ensures matched { MatchedCellsMatter }
    ensures matching { MatchingCellsMatter }
    ensures naming { NamingCellsMatter }
{}

/// Of regions each cell can matter to its own label. A cell of a region matters to the label of
/// another, by being emptied, exactly where each way through the region from that one to the
/// region's first cell passes it; and a neighbour of a region, by being raised to the threshold,
/// exactly where it is before the region's first cell, or would join the region to a cell that is.
/// All other cells that support a label are idle: no value of one of them makes a difference.
pub fn cells_of_regions_matter()
    ensures own { OwnCellsOfRegionsMatter }
    ensures before { RimCellsBeforeMatter }
    ensures first { RegionsHaveFirstCells }
    ensures inner { InnerCellsOfRegionsMatter }
    ensures rim { RimCellsOfRegionsMatter }
{}
