//! Rows of every operator through the one entry. A row says what an operator makes of small arrays,
//! by `run` and by `value_at`, and to which cells one cell leads: by tracing, by the mapping where
//! there is one, as a whole and cell by cell, and by the region pairs of all pieces. All ways have
//! to agree.

ghost use Rattle.std.specs.Prelude.{◌≡◌, ◌<◌, true, length, All, IfOk};
ghost use Rattle.std.specs.Arc.{arc_value};
ghost use Rattle.sz_cells.specs.Extent.{holds};
ghost use Rattle.sz_spec.specs.Values.{extents_of};
ghost use Rattle.sz_spec.specs.Modes.{has_mapping, supports};
ghost use Rattle.sz_spec.specs.Pieces.{pieces_of};
ghost use Rattle.sz_spec.specs.Sides.{near_side, far_side};
ghost use Rattle.sz_ops.specs.Aids.{aid_of};

use std::alloc::Global;
use std::sync::Arc;
use std::test::Fail;
use sz_cells::{Cell, CellBits, CellSet, Run, Shape};
use sz_frame::{PayEntry, PieceLineage, Region};
use sz_ops::{
    Aid, OpMap, image_by_map, piece, prepare, prepare_lineage, run, run_prepared, trace, value_at,
};
use sz_spec::{
    Array, ArrayList, Dir, Mapper, Mode, Op, OpAt, Strategy, Tally, Value, arity, has_mode,
    has_right_parameters, pieces_of, supports,
};

mod looks;
mod rows;

/// An operator over its inputs.
#[derive(Drop)]
struct Example {
    at: Arc<OpAt>,
    inputs: ArrayList,
    ghost shapes: { extents_of inputs ≡ (arc_value at).ins },
}

impl Example {
    /// An operator over one array.
    fn of_one(alloc: Global, op: Op, array: Arc<Array>) -> Result<Example, Fail> {
        let at = site(alloc, op, vec![in alloc; array.shape()]?)?;
        let inputs = ArrayList::of(vec![in alloc; array]?);
        Ok(Example { at, inputs })
    }

    /// An operator over two arrays.
    fn of_two(
        alloc: Global,
        op: Op,
        first: Arc<Array>,
        second: Arc<Array>,
    ) -> Result<Example, Fail> {
        let at = site(alloc, op, vec![in alloc; first.shape(), second.shape()]?)?;
        let inputs = ArrayList::of(vec![in alloc; first, second]?);
        Ok(Example { at, inputs })
    }

    /// Whether the output is this array, at once and cell by cell.
    fn makes(&self, alloc: Global, array: &Array) -> Result<bool, Fail> {
        let inputs = self.inputs.as_slice();
        let output = run(alloc, &self.at, inputs)?;
        let aid = prepare(alloc, &self.at, inputs)?;
        let values = self.values(alloc, &aid)?;
        Ok(
            output.shape() == array.shape()
                && output.cells() == array.cells()
                && values.as_slice() == array.cells(),
        )
    }

    /// Whether a run, and a run by what was prepared, make what the cells hold one by one: whether
    /// it was prepared for values alone, or for lineage too.
    fn runs_as_its_cells(&self, alloc: Global) -> Result<bool, Fail> {
        let inputs = self.inputs.as_slice();
        let output = run(alloc, &self.at, inputs)?;
        let aid = prepare(alloc, &self.at, inputs)?;
        let more = prepare_lineage(alloc, &self.at, inputs)?;
        Ok(
            output.shape() == self.at.out()
                && self.runs_by(alloc, &aid, &output)?
                && self.runs_by(alloc, &more, &output)?,
        )
    }

    /// Whether a run by what was prepared makes this array, at once and cell by cell.
    fn runs_by(&self, alloc: Global, aid: &Aid, output: &Array) -> Result<bool, Fail>
        requires { aid.now ≡ aid_of (arc_value self.now.at).op self.now.inputs }
    {
        let prepared = run_prepared(alloc, &self.at, self.inputs.as_slice(), aid)?;
        let values = self.values(alloc, aid)?;
        Ok(values.as_slice() == output.cells() && values.as_slice() == prepared.cells())
    }

    /// The output's values, cell by cell.
    fn values(&self, alloc: Global, aid: &Aid) -> Result<Vec<Value>, Fail>
        requires { aid.now ≡ aid_of (arc_value self.now.at).op self.now.inputs }
    {
        let inputs = self.inputs.as_slice();
        let shape = self.at.out();
        let mut values = Vec::new(alloc);
        for index in 0..shape.size() {
            let cell = shape.cell_at(index);
            values.push(value_at(&self.at, inputs, aid, cell))?;
        }
        Ok(values)
    }

    /// Whether the cells of a run of indexes lead to just the cells of these indexes, each of which
    /// is said once.
    fn leads(
        &self,
        alloc: Global,
        dir: Dir,
        input: u32,
        from: Run,
        cells: &[u32],
    ) -> Result<bool, Fail> {
        if input as usize >= self.at.ins().len() {
            return Err("the operator has no such input".into());
        }
        let near = near_side(&self.at, dir, input);
        if from.last < from.first || near.size() <= from.last {
            return Err("the cells are out of their array".into());
        }
        let mut bits = CellBits::new(alloc, near)?;
        bits.add_run(from);
        let image = self.image(alloc, dir, input, &bits)?;
        let far = image.shape();
        Ok(
            image.count() as usize == cells.len()
                && cells.iter().all(|index| *index < far.size() && image.has(far.cell_at(*index))),
        )
    }

    /// Whether each row of a table of steps is true: the direction, the input, the first and the
    /// last index of a run of cells, how many cells they lead to, and the indexes of these.
    fn leads_all(&self, alloc: Global, table: &[u32]) -> Result<bool, Fail> {
        let mut rest = table;
        while rest.len() > 4 {
            let count = rest[4] as usize;
            let tail = &rest[5..];
            if tail.len() < count {
                return Err("a row is cut".into());
            }
            let dir = if rest[0] == BACK {
                Dir::Back
            } else {
                Dir::Forward
            };
            let from = run_of(rest[2], rest[3]);
            if !self.leads(alloc, dir, rest[1], from, &tail[..count])? {
                return Ok(false);
            }
            rest = &tail[count..];
        }
        Ok(rest.is_empty())
    }

    /// The image of a set of cells, on which all ways agree.
    fn image(&self, alloc: Global, dir: Dir, input: u32, from: &CellBits) -> Result<CellSet, Fail>
        requires input { input < length (arc_value self.now.at).ins }
        requires from { from.now.extent ≡ near_side dir (arc_value self.now.at) input }
    {
        let image = self.traced(alloc, dir, input, from)?;
        if self.stored(alloc, dir, input, from)?.runs() != image.runs() {
            return Err("the pieces lead elsewhere than the trace".into());
        }
        if has_mode(self.at.op(), Mode::Map) {
            if self.mapped(alloc, dir, input, from)?.runs() != image.runs() {
                return Err("the mapping leads elsewhere than the trace".into());
            }
            if self.mapped_singly(alloc, dir, input, from)?.runs() != image.runs() {
                return Err("the mapping of single cells leads elsewhere than the trace".into());
            }
        }
        Ok(image)
    }

    /// The image of a set of cells by tracing, where that counts each output cell once.
    fn traced(&self, alloc: Global, dir: Dir, input: u32, from: &CellBits) -> Result<CellSet, Fail>
        requires input { input < length (arc_value self.now.at).ins }
        requires from { from.now.extent ≡ near_side dir (arc_value self.now.at) input }
    {
        let mut to = CellBits::new(alloc, far_side(&self.at, dir, input))?;
        let mut tally = Tally::new();
        let cells = self.at.out().size();
        trace(
            alloc,
            &self.at,
            self.inputs.as_slice(),
            dir,
            input,
            from,
            &mut to,
            &mut tally,
        )?;
        if tally.count() != u64::from(cells) {
            return Err("a trace counts each output cell once".into());
        }
        Ok(to.to_set(alloc)?)
    }

    /// The image of a set of cells by the mapping.
    fn mapped(&self, alloc: Global, dir: Dir, input: u32, from: &CellBits) -> Result<CellSet, Fail>
        requires mapping { has_mapping (arc_value self.now.at).op ≡ true }
        requires input { input < length (arc_value self.now.at).ins }
        requires from { from.now.extent ≡ near_side dir (arc_value self.now.at) input }
    {
        let mut to = CellBits::new(alloc, far_side(&self.at, dir, input))?;
        image_by_map(&self.at, dir, input, from, &mut to);
        Ok(to.to_set(alloc)?)
    }

    /// The image of a set of cells by the mapping of each of them.
    fn mapped_singly(
        &self,
        alloc: Global,
        dir: Dir,
        input: u32,
        from: &CellBits,
    ) -> Result<CellSet, Fail>
        requires mapping { has_mapping (arc_value self.now.at).op ≡ true }
        requires input { input < length (arc_value self.now.at).ins }
        requires from { from.now.extent ≡ near_side dir (arc_value self.now.at) input }
    {
        let mut to = CellBits::new(alloc, far_side(&self.at, dir, input))?;
        let map = OpMap::new(Arc::try_clone(&self.at)?);
        let near = from.shape();
        for index in 0..near.size() {
            if from.has_index(index) {
                add_mapped(&map, dir, input, near.cell_at(index), &mut to);
            }
        }
        Ok(to.to_set(alloc)?)
    }

    /// The image of a set of cells by the region pairs of all pieces, where these count each output
    /// cell once.
    fn stored(&self, alloc: Global, dir: Dir, input: u32, from: &CellBits) -> Result<CellSet, Fail>
        requires { input < length (arc_value self.now.at).ins }
    {
        let mut to = CellBits::new(alloc, far_side(&self.at, dir, input))?;
        let mut cells = 0u64;
        for k in 0..pieces_of(self.at.out()) {
            let (lineage, count) = self.lineage(alloc, k, &[Strategy::FullOneB])?;
            add_stored(lineage.regions(), dir, input, from, &mut to)?;
            cells = cells.checked_add(count).ok_or("there are few cells")?;
        }
        if cells != u64::from(self.at.out().size()) {
            return Err("the pieces count each output cell once".into());
        }
        Ok(to.to_set(alloc)?)
    }

    /// How many region pairs the pieces have, one after the other.
    fn pairs(&self, alloc: Global) -> Result<Vec<usize>, Fail> {
        let mut counts = Vec::new(alloc);
        for k in 0..pieces_of(self.at.out()) {
            let (lineage, _) = self.lineage(alloc, k, &[Strategy::FullManyB])?;
            counts.push(lineage.regions().len())?;
        }
        Ok(counts)
    }

    /// The payload and the composite part of the first piece.
    fn kept(&self, alloc: Global) -> Result<PieceLineage, Fail> {
        let op = self.at.op();
        if !supports(op, Strategy::PayOne) || !supports(op, Strategy::CompMany) {
            return Err("the operator has no payloads".into());
        }
        self.at.out().size(); // some cell, so there is a piece
        let (lineage, _) = self.lineage(alloc, 0, &[Strategy::PayOne, Strategy::CompMany])?;
        Ok(lineage)
    }

    /// What a piece is made by: the first one by what values need, and the others by what lineage
    /// does.
    fn prepared_for(&self, alloc: Global, k: u32) -> Result<Aid, Fail>
        ensures { IfOk result (λ a. a ≡ aid_of (arc_value self.now.at).op self.now.inputs) }
    {
        let inputs = self.inputs.as_slice();
        if k == 0 {
            return Ok(prepare(alloc, &self.at, inputs)?);
        }
        Ok(prepare_lineage(alloc, &self.at, inputs)?)
    }

    /// The lineage of a piece, as the strategies of a list need it, and how many cells it counted.
    fn lineage(&self, alloc: Global, k: u32, list: &[Strategy]) -> Result<(PieceLineage, u64), Fail>
        requires piece { k < pieces_of (arc_value self.now.at).out }
        requires supported { All (λ s. supports (arc_value self.now.at).op s ≡ true) list.now }
    {
        let inputs = self.inputs.as_slice();
        let aid = self.prepared_for(alloc, k)?;
        let mut tally = Tally::new();
        let lineage = piece(alloc, &self.at, inputs, &aid, k, list, &mut tally)?;
        Ok((lineage, tally.count()))
    }
}

/// An operator between inputs of these shapes.
fn site(alloc: Global, op: Op, ins: Vec<Shape>) -> Result<Arc<OpAt>, Fail>
    ensures { IfOk result (λ at. (arc_value at).ins ≡ ins.items) }
{
    if ins.len() != arity(&op) as usize || !has_right_parameters(&op) {
        return Err("the operator has other inputs or parameters".into());
    }
    match OpAt::of(op, ins) {
        Ok(at) => Ok(Arc::new(alloc, at)?),
        Err(_) => Err("the inputs break the operator's shape rule".into()),
    }
}

/// The shape from which a direction starts.
fn near_side(at: &OpAt, dir: Dir, input: u32) -> Shape
    requires { input < length at.now.ins }
    ensures { result ≡ near_side dir at.now input }
{
    match dir {
        Dir::Back => at.out(),
        Dir::Forward => at.ins()[input as usize],
    }
}

/// The shape to which a direction leads.
fn far_side(at: &OpAt, dir: Dir, input: u32) -> Shape
    requires { input < length at.now.ins }
    ensures { result ≡ far_side dir at.now input }
{
    match dir {
        Dir::Back => at.ins()[input as usize],
        Dir::Forward => at.out(),
    }
}

/// Adds the cells to which one cell is mapped.
fn add_mapped(map: &OpMap, dir: Dir, input: u32, cell: Cell, to: &mut CellBits)
    requires input { input < length (map.now).ins }
    requires cell { holds (near_side dir (map.now) input) cell ≡ true }
    requires to { to.old.extent ≡ far_side dir (map.now) input }
    ensures { to.new.extent ≡ to.old.extent }
{
    match dir {
        Dir::Back => map.map_b_into(cell, input, to),
        Dir::Forward => map.map_f_into(cell, input, to),
    }
}

/// Adds the cells to which these region pairs lead from a set of cells.
fn add_stored(
    pairs: &[Arc<Region>],
    dir: Dir,
    input: u32,
    from: &CellBits,
    to: &mut CellBits,
) -> Result<(), Fail> {
    for pair in pairs {
        let inside = pair.ins.as_slice().get(input as usize);
        let inside = inside.ok_or("a pair has a set for each input")?;
        let (near, far) = match dir {
            Dir::Back => (&pair.out, inside),
            Dir::Forward => (inside, &pair.out),
        };
        if near.shape() != from.shape() || far.shape() != to.shape() {
            return Err("a pair has sets of the operator's shapes".into());
        }
        if meets(near, from) {
            to.add_set(far);
        }
    }
    Ok(())
}

/// Whether two sets have a cell in common.
fn meets(set: &CellSet, from: &CellBits) -> bool {
    set.runs().iter().any(|run| from
        .next_after(run.first)
        .is_some_and(|index| index <= run.last))
}

/// What some entries keep: for each the number of the runs of its cells, their ends, the number of
/// its bytes, and its bytes.
fn kept_by(alloc: Global, entries: &[Arc<PayEntry>]) -> Result<Vec<u32>, Fail> {
    let mut told = Vec::new(alloc);
    for entry in entries {
        push_runs(&mut told, entry.out.runs())?;
        push_bytes(&mut told, entry.payload.bytes())?;
    }
    Ok(told)
}

fn push_runs(told: &mut Vec<u32>, runs: &[Run]) -> Result<(), Fail> {
    told.push(u32::try_from(runs.len()).ok().ok_or("there are few runs")?)?;
    for run in runs {
        told.push(run.first)?;
        told.push(run.last)?;
    }
    Ok(())
}

fn push_bytes(told: &mut Vec<u32>, bytes: &[u8]) -> Result<(), Fail> {
    told.push(
        u32::try_from(bytes.len())
            .ok()
            .ok_or("there are few bytes")?,
    )?;
    for byte in bytes {
        told.push(u32::from(*byte))?;
    }
    Ok(())
}

fn run_of(first: u32, last: u32) -> Run {
    Run { first, last }
}

/// The rows of a table of steps that go back, and those that go on.
const BACK: u32 = 0;

const ON: u32 = 1;

/// An array of one layer that holds these numbers, row by row.
fn numbers(alloc: Global, rows: u32, cols: u32, numbers: &[i64]) -> Result<Arc<Array>, Fail> {
    let mut values = Vec::new(alloc);
    for number in numbers {
        values.push(Some(*number))?;
    }
    layers(alloc, (1, rows, cols), &values)
}

/// The sides of an array: how many layers it has, the height of each, and its columns.
type Sides = (u32, u32, u32);

/// An array of these sides that holds these values, row by row.
fn layers(alloc: Global, sides: Sides, values: &[Value]) -> Result<Arc<Array>, Fail> {
    let (layers, height, cols) = sides;
    let shape = Shape::make_layers(layers, height, cols).ok_or("the sides are those of a shape")?;
    let array = Array::make(shape, values.to_vec(alloc)?).ok_or("each cell has a value")?;
    Ok(Arc::new(alloc, array)?)
}
