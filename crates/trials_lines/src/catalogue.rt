//! Sessions in short: each public call on its happy path, and the limits on how many things are
//! held. Which rule comes first is worked out row by row in proofs/Rows*.antt.
ghost use Rattle.std.specs.Prelude.{◌≡◌, ◌≤◌, [], ◌∷◌, true, length, None, Some, IfOk, OnOk, All};
ghost use Rattle.std.specs.Prelude.{codes, option_map};
ghost use Rattle.std.specs.Arc.{arc_value};
ghost use Rattle.std.specs.Result.{result_err};
ghost use Rattle.sz_spec.specs.declared.modes.Strategy.TheVariants as strategy;
ghost use Rattle.sz_spec.specs.FlowShapes.{output_shapes};
ghost use Rattle.sz_catalogue.specs.Holdings.{cells_of, shapes_of, output_cells};
ghost use Rattle.sz_catalogue.specs.Holdings.{flow_named, array_version};
ghost use Rattle.sz_script.specs.Right.{is_right};
ghost use Rattle.sz_catalogue.specs.Rules.{are_lists_for, judged};

use std::alloc::Global;
use std::fmt::Write;
use std::sync::Arc;
use std::test::Fail;
use sz_catalogue::{
    BaseArray, BaseArrays, Catalogue, HeldVersion, Reply, StrategyLists, reply_text,
};
use sz_cells::{Cell, CellSet, NoMemory, Shape};
use sz_script::{Command, LineFault, Name, StrategyList, read_line};
use sz_spec::{Array, Flow, Node, Strategy, output_shapes};

/// Reads a line, judges its command and takes it, where no rule refuses it.
fn taken(alloc: Global, held: &mut Catalogue, line: &[u8]) -> Result<Reply, LineFault> {
    sz_script::laws::commands_are_right();
    let command = read_line(alloc, line)?;
    held.judge(alloc, &command)?;
    match accept(held, command) {
        Ok(reply) => Ok(reply),
        Err(_) => Err(LineFault::NoMemory),
    }
}

/// Reads a line, judges its command and takes it. A reply to a line that changes nothing is that it
/// is done; so is one to a refresh, which is not taken.
fn take(alloc: Global, held: &mut Catalogue, line: &[u8]) -> Result<Reply, Fail> {
    match taken(alloc, held, line) {
        Ok(reply) => Ok(reply),
        Err(LineFault::Refused(rule)) => Ok(Reply::Refused(rule)),
        Err(LineFault::NoMemory) => Err(Fail::from("no memory")),
    }
}

/// Takes a command that no rule refuses.
fn accept(held: &mut Catalogue, command: Command) -> Result<Reply, NoMemory>
    requires right { is_right command ≡ true }
    requires judged { judged held.old command ≡ None }
{
    match command {
        Command::Start { name, base } => held.start(name, base.as_slice()),
        Command::Refresh { .. } => Ok(Reply::Done { version: 0 }),
        Command::Await { version } => Ok(held.await_version(version)),
        Command::Merged { .. } => Ok(Reply::Done { version: 0 }),
        Command::Ask { .. } => Ok(Reply::Done { version: 0 }),
        Command::Explain { .. } => Ok(Reply::Done { version: 0 }),
        Command::Show { .. } => Ok(Reply::Done { version: 0 }),
        other => held.accept(other),
    }
}

/// Whether a line is answered by this text.
fn says(alloc: Global, held: &mut Catalogue, line: &[u8], text: &str) -> Result<bool, Fail> {
    let reply = take(alloc, held, line)?;
    let said = reply_text(alloc, 7, &reply)?;
    Ok(said.as_slice() == text.as_bytes())
}

/// The line of a flow under the name of a number.
fn flow_line(alloc: Global, number: u32) -> Result<String, Fail> {
    let mut line = format!(in alloc; "{{\"flow\":\"f{number}\",\"inputs\":1,")?;
    line.push_str(r#""nodes":[{"op":"neg","from":[{"i":0}]}]}"#)?;
    Ok(line)
}

/// Takes a line so many times.
fn take_each_time(
    alloc: Global,
    held: &mut Catalogue,
    times: u32,
    line: &[u8],
) -> Result<(), Fail> {
    for _ in 0..times {
        let _reply = take(alloc, held, line)?;
    }
    Ok(())
}

/// Holds the flows of the numbers below another.
fn fill_flows(alloc: Global, held: &mut Catalogue, end: u32) -> Result<(), Fail> {
    for number in 0..end {
        let line = flow_line(alloc, number)?;
        let _flow = take(alloc, held, line.as_bytes())?;
    }
    Ok(())
}

/// Holds one array, one flow and one version fewer than can be held.
fn fill(alloc: Global, held: &mut Catalogue) -> Result<(), Fail> {
    take_each_time(alloc, held, 4_095, br#"{"array":"a","cells":[[5]]}"#)?;
    fill_flows(alloc, held, 1_023)?;
    take_each_time(alloc, held, 4_095, br#"{"start":"f7","base":[["a",1]]}"#)
}

/// A refresh of a version that is not awaited.
const REFRESH: &str = r#"{"refresh":1,"input":0,"set":[[0,0,6]]}"#;

/// The last version that can be held and the last array, and no further ones. A version that cannot
/// be started can be planned. A refresh needs room for a version, and before that for an array,
/// whatever else stands against it.
const LAST: [(&str, &str); 9] = [
    (REFRESH, "7 refused 22\n"),
    (r#"{"start":"f7","base":[["a",1]]}"#, "7 started 4096\n"),
    (r#"{"start":"f7","base":[["a",1]]}"#, "7 refused 14\n"),
    (
        r#"{"plan":"f7","base":[["a",1]],"units":0,"back":1,"forward":0}"#,
        "7 plan 1 0 map\n",
    ),
    (REFRESH, "7 refused 14\n"),
    (r#"{"array":"a","cells":[[5]]}"#, "7 array a 4096\n"),
    (r#"{"array":"a","cells":[[5]]}"#, "7 refused 7\n"),
    (REFRESH, "7 refused 7\n"),
    (
        r#"{"refresh":9999,"input":9,"set":[[9,9,6]]}"#,
        "7 refused 7\n",
    ),
];

/// Whether each line is answered by its text.
fn each_says(alloc: Global, held: &mut Catalogue, rows: &[(&str, &str)]) -> Result<bool, Fail> {
    for (line, text) in rows {
        if !says(alloc, held, line.as_bytes(), text)? {
            return Err(Fail::new(format_args!("{line} is not answered by {text}")));
        }
    }
    Ok(true)
}

/// Whether the last flow that can be held is, and no further one.
fn holds_the_last_flow(alloc: Global, held: &mut Catalogue) -> Result<bool, Fail> {
    let line = flow_line(alloc, 1_023)?;
    let last = says(alloc, held, line.as_bytes(), "7 flow f1023\n")?;
    let line = flow_line(alloc, 1_024)?;
    let next = says(alloc, held, line.as_bytes(), "7 refused 9\n")?;
    Ok(last && next)
}

/// Whether the last array, flow and version that can be held are.
fn holds_the_last(alloc: Global, held: &mut Catalogue) -> Result<bool, Fail> {
    fill(alloc, held)?;
    Ok(each_says(alloc, held, &LAST)? && holds_the_last_flow(alloc, held)?)
}

/// Whether the last array, flow and version of a new catalogue are held.
fn last_is_held(alloc: Global) -> Result<bool, Fail> {
    let mut held = Catalogue::new(alloc);
    holds_the_last(alloc, &mut held)
}

#[test]
fn the_last_array_flow_and_version_is_held(rt: HostRuntime) -> Result<(), Fail> {
    assert!(rt; last_is_held(rt.alloc())?);
    Ok(())
}

/// Holds an array `a` of one cell, and a flow `f` of one negation.
fn hold_flow(alloc: Global, held: &mut Catalogue) -> Result<(), Fail> {
    let flow = br#"{"flow":"f","inputs":1,"nodes":[{"op":"neg","from":[{"i":0}]}]}"#;
    take_each_time(alloc, held, 1, br#"{"array":"a","cells":[[5]]}"#)?;
    take_each_time(alloc, held, 1, flow)
}

/// The first array of `a` alone.
fn base_of(alloc: Global, array: Arc<Array>) -> Result<BaseArrays, NoMemory>
    ensures { IfOk result
        (λ b. b ≡ record { name = codes "a"; version = 1; array = arc_value array } ∷ []) }
{
    let only = BaseArray {
        name: Name::of(String::from_str(alloc, "a")?),
        version: 1,
        array,
    };
    Ok(BaseArrays::of(vec![in alloc; only]?))
}

/// Black box for one node.
fn black_box(alloc: Global) -> Result<StrategyLists, NoMemory>
    ensures { IfOk result (λ l. l ≡ (strategy.BlackBox ∷ []) ∷ []) }
{
    let list = StrategyList::of(vec![in alloc; Strategy::BlackBox]?);
    Ok(StrategyLists::of(vec![in alloc; list]?))
}

/// The version of the flow `f` of one node on the first array of `a`, by black box and awaited.
fn version_of(alloc: Global, flow: Arc<Flow>, array: Arc<Array>) -> Result<HeldVersion, NoMemory>
    ensures name { IfOk result (λ v. v.flow_name ≡ codes "f") }
    ensures flow { IfOk result (λ v. v.flow ≡ arc_value flow) }
    ensures base { IfOk result
        (λ v. v.base ≡ record { name = codes "a"; version = 1; array = arc_value array } ∷ []) }
    ensures awaited { IfOk result (λ v. v.awaited ≡ true) }
    ensures lists { IfOk result (λ v. v.lists ≡ (strategy.BlackBox ∷ []) ∷ []) }
{
    let base = base_of(alloc, array)?;
    let lists = black_box(alloc)?;
    let flow_name = Name::of(String::from_str(alloc, "f")?);
    Ok(HeldVersion {
        flow_name,
        flow,
        base,
        lists,
        awaited: true,
    })
}

/// Whether nodes are a single one: for which, as for any, black box can be chosen.
fn is_one(nodes: &[Node]) -> bool
    ensures { result ≡ true
        → are_lists_for nodes.now ((strategy.BlackBox ∷ []) ∷ []) ≡ true }
{
    match nodes {
        [_] => true,
        _ => false,
    }
}

/// The shapes of base arrays.
fn base_shapes(alloc: Global, base: &[BaseArray]) -> Result<Vec<Shape>, NoMemory>
    ensures { IfOk result (λ v. v.items ≡ shapes_of base.now) }
{
    let mut shapes = Vec::new(alloc);
    for only in base {
        shapes.push(only.array.shape())?;
    }
    Ok(shapes)
}

/// How many cells some shapes have together.
fn cells_of(shapes: &[Shape]) -> u64
    requires { length shapes.now ≤ 32 }
    ensures { result ≡ cells_of shapes.now }
{
    let mut cells = 0;
    for shape in shapes {
        cells += u64::from(shape.size());
    }
    cells
}

/// How many cells the outputs of a version have, where its flow has one node and takes one base
/// array, and the shapes fit.
fn output_cells(alloc: Global, version: &HeldVersion) -> Result<u64, Fail>
    requires base { length version.now.base ≡ 1 }
    requires lists { version.now.lists ≡ (strategy.BlackBox ∷ []) ∷ [] }
    ensures count { OnOk result (length version.now.base ≡ version.now.flow.inputs) }
    ensures fits { OnOk result
        (result_err (output_shapes version.now.flow (shapes_of version.now.base)) ≡ None) }
    ensures lists { OnOk result (are_lists_for version.now.flow.nodes version.now.lists ≡ true) }
    ensures cells { IfOk result (λ n. n ≡ output_cells version.now) }
{
    let flow = &version.flow;
    if flow.check().is_err() || flow.inputs() != 1 || !is_one(flow.nodes()) {
        return Err(Fail::from("a flow of one node and one base array"));
    }
    let base = base_shapes(alloc, version.base.as_slice())?;
    match output_shapes(alloc, flow, &base)? {
        Ok(outputs) if outputs.len() <= 32 => Ok(cells_of(&outputs)),
        _ => Err(Fail::from("shapes that fit")),
    }
}

/// The flow of `f`.
fn flow_of(held: &Catalogue) -> Result<Arc<Flow>, Fail>
    ensures { IfOk result (λ f.
        option_map (λ w. w.graph) (flow_named held.now (codes "f")) ≡ Some (arc_value f)) }
{
    match held.flow("f") {
        Some(flow) => Ok(Arc::try_clone(flow)?),
        None => Err(Fail::from("the flow")),
    }
}

/// The first array of `a`.
fn array_of(held: &Catalogue) -> Result<Arc<Array>, Fail>
    ensures { IfOk result (λ a. array_version held.now (codes "a") 1 ≡ Some (arc_value a)) }
{
    match held.array("a", 1) {
        Some(array) => Ok(Arc::try_clone(array)?),
        None => Err(Fail::from("the array")),
    }
}

/// The version of `f` on the first array of `a`, as they are held.
fn held_version(alloc: Global, held: &Catalogue) -> Result<HeldVersion, Fail>
    ensures flow { IfOk result (λ v.
        option_map (λ w. w.graph) (flow_named held.now v.flow_name) ≡ Some v.flow) }
    ensures base { IfOk result
        (λ v. All (λ b. array_version held.now b.name b.version ≡ Some b.array) v.base) }
    ensures one { IfOk result (λ v. length v.base ≡ 1) }
    ensures awaited { IfOk result (λ v. v.awaited ≡ true) }
    ensures lists { IfOk result (λ v. v.lists ≡ (strategy.BlackBox ∷ []) ∷ []) }
{
    let flow = flow_of(held)?;
    let array = array_of(held)?;
    Ok(version_of(alloc, flow, array)?)
}

/// Adds a version of `f` on the first array of `a` under a number that is not held.
fn add(alloc: Global, held: &mut Catalogue, number: u32) -> Result<(), Fail> {
    let version = held_version(alloc, held)?;
    let cells = output_cells(alloc, &version)?;
    if number == 0 || held.version(number).is_some() || !held.has_room(cells) {
        return Err(Fail::from("a new number, and room"));
    }
    held.add_version(number, version)?;
    Ok(())
}

/// Whether a version is the one that is added.
fn is_added(version: Option<&HeldVersion>) -> bool {
    let Some(version) = version else {
        return false;
    };
    match (version.base.as_slice(), version.lists.as_slice()) {
        ([only], [list]) => {
            version.flow_name.as_str() == "f"
                && version.awaited
                && only.name.as_str() == "a"
                && only.version == 1
                && list.as_slice() == [Strategy::BlackBox].as_slice()
        }
        _ => false,
    }
}

/// Strategies are set, a version is started and awaited, and a cell outside is refused.
const RUN: [(&str, &str); 4] = [
    (
        r#"{"strategy":"f","node":0,"list":["blackbox"]}"#,
        "7 strategy f 0\n",
    ),
    (r#"{"start":"f","base":[["a",1]]}"#, "7 started 1\n"),
    (r#"{"await":1}"#, "7 done 1\n"),
    (
        r#"{"ask":1,"dir":"back","path":[[0,0]],"cells":[[1,1]]}"#,
        "7 refused 17\n",
    ),
];

/// Whether what is held is found, and nothing else.
fn finds(held: &Catalogue) -> bool {
    held.flow("f").is_some()
        && held.flow("a").is_none()
        && held.array("a", 1).is_some()
        && held.array("a", 2).is_none()
        && held.version(1).is_some()
        && held.version(2).is_none()
        && held.has_room(4_194_302)
        && !held.has_room(4_194_303)
}

/// The version behind number 7.
const BEHIND: [(&str, &str); 1] = [(r#"{"start":"f","base":[["a",1]]}"#, "7 started 8\n")];

/// The version behind the last number but one, and none behind it.
const LAST_NUMBERS: [(&str, &str); 2] = [
    (
        r#"{"start":"f","base":[["a",1]]}"#,
        "7 started 4294967295\n",
    ),
    (r#"{"start":"f","base":[["a",1]]}"#, "7 refused 14\n"),
];

/// Adds a version under a number, and says whether the next are those of these lines.
fn is_followed(
    alloc: Global,
    held: &mut Catalogue,
    number: u32,
    rows: &[(&str, &str)],
) -> Result<bool, Fail> {
    add(alloc, held, number)?;
    let is_held = is_added(held.version(number));
    let is_next = held.next_number() == u64::from(number) + 1;
    Ok(is_held && is_next && each_says(alloc, held, rows)?)
}

/// Whether a session is held, from its first array to the last number of a version: the next
/// number is behind the greatest.
fn is_held(alloc: Global, held: &mut Catalogue) -> Result<bool, Fail> {
    hold_flow(alloc, held)?;
    Ok(
        each_says(alloc, held, &RUN)?
            && finds(held)
            && is_followed(alloc, held, 7, &BEHIND)?
            && is_followed(alloc, held, 4_294_967_294, &LAST_NUMBERS)?,
    )
}

/// Whether a session is held by a new catalogue.
fn session_is_held(alloc: Global) -> Result<bool, Fail> {
    let mut held = Catalogue::new(alloc);
    is_held(alloc, &mut held)
}

#[test]
fn a_session_is_held(rt: HostRuntime) -> Result<(), Fail> {
    assert!(rt; session_is_held(rt.alloc())?);
    Ok(())
}

/// A refresh and a merge before the await of a version, and behind it. No cell is out of range of
/// an input that is not there.
const FURTHER: [(&str, &str); 17] = [
    (
        r#"{"refresh":1,"input":0,"set":[[0,0,7]]}"#,
        "7 refused 15\n",
    ),
    (r#"{"merge":1}"#, "7 refused 15\n"),
    (r#"{"merged":1}"#, "7 refused 15\n"),
    (r#"{"start":"f","base":[["a",1]]}"#, "7 started 1\n"),
    (
        r#"{"refresh":1,"input":0,"set":[[0,0,7]]}"#,
        "7 refused 22\n",
    ),
    (
        r#"{"refresh":1,"input":0,"set":[[0,1,7]]}"#,
        "7 refused 17\n",
    ),
    (
        r#"{"refresh":1,"input":1,"set":[[0,1,7]]}"#,
        "7 refused 22\n",
    ),
    (r#"{"merge":1}"#, "7 refused 22\n"),
    (r#"{"merged":1}"#, "7 refused 25\n"),
    (r#"{"await":1}"#, "7 done 1\n"),
    (
        r#"{"refresh":1,"input":0,"set":[[0,0,7],[1,0,0,7]]}"#,
        "7 refused 17\n",
    ),
    (
        r#"{"refresh":1,"input":1,"set":[[0,1,7]]}"#,
        "7 refused 23\n",
    ),
    (r#"{"merged":1}"#, "7 refused 25\n"),
    (r#"{"merge":1}"#, "7 merging 1\n"),
    (r#"{"merge":1}"#, "7 merging 1\n"),
    (r#"{"merged":1}"#, "7 done 0\n"),
    (r#"{"refresh":1,"input":0,"set":[]}"#, "7 done 0\n"),
];

/// Whether refreshes and merges are answered, and the merge of version 1 alone was asked.
fn refreshes_and_merges(alloc: Global, held: &mut Catalogue) -> Result<bool, Fail> {
    hold_flow(alloc, held)?;
    Ok(each_says(alloc, held, &FURTHER)? && held.merge_asked(1) && !held.merge_asked(2))
}

/// Whether refreshes and merges are answered by a new catalogue.
fn is_refreshed_and_merged(alloc: Global) -> Result<bool, Fail> {
    let mut held = Catalogue::new(alloc);
    refreshes_and_merges(alloc, &mut held)
}

#[test]
fn versions_are_refreshed_and_merged(rt: HostRuntime) -> Result<(), Fail> {
    assert!(rt; is_refreshed_and_merged(rt.alloc())?);
    Ok(())
}

/// The line of a plan of the flow on the first array of `m`.
fn plan_line(
    alloc: Global,
    flow: &str,
    units: u32,
    back: u32,
    forward: u32,
) -> Result<String, Fail> {
    let mut line = format!(in alloc; "{{\"plan\":\"{flow}\",\"base\":[[\"m\",1]],")?;
    write!(
        line,
        "\"units\":{units},\"back\":{back},\"forward\":{forward}}}"
    )?;
    Ok(line)
}

/// A flow, the units and weights of a plan of it, and the text by which it is answered.
type Plan = (&'static str, [u32; 3], &'static str);

/// Plans of the flow `one`, of one node that cleans 2 by 2 cells, for few units, and of `two`, of
/// two such nodes. The units are at most 65,536, and the flow is looked for first.
const PLANS: [Plan; 8] = [
    ("one", [0, 1, 0], "7 plan 16 0 blackbox\n"),
    ("one", [1, 1, 0], "7 plan 1 1 full_one_b\n"),
    ("one", [1, 0, 1], "7 plan 1 1 full_one_f\n"),
    ("one", [1, 1, 1], "7 plan 5 1 full_one_b\n"),
    ("one", [65_536, 1, 0], "7 plan 1 1 full_one_b\n"),
    ("one", [65_537, 1, 0], "7 refused 24\n"),
    ("none", [65_537, 1, 0], "7 refused 10\n"),
    ("two", [1, 1, 0], "7 plan 17 1 full_one_b blackbox\n"),
];

/// Whether a plan on the first array of `m` is answered by its text.
fn is_planned(alloc: Global, held: &mut Catalogue, plan: &Plan) -> Result<bool, Fail> {
    let [units, back, forward] = plan.1;
    let line = plan_line(alloc, plan.0, units, back, forward)?;
    says(alloc, held, line.as_bytes(), plan.2)
}

/// Whether each plan is answered by its text.
fn are_planned(alloc: Global, held: &mut Catalogue, plans: &[Plan]) -> Result<bool, Fail> {
    for plan in plans {
        if !is_planned(alloc, held, plan)? {
            return Ok(false);
        }
    }
    Ok(true)
}

/// Holds an array `m` of 2 by 2 cells, and the flows `one` and `two` of so many nodes.
fn hold_flows(alloc: Global, held: &mut Catalogue) -> Result<(), Fail> {
    let one = br#"{"flow":"one","inputs":1,"nodes":[{"op":"clean","t":10,"from":[{"i":0}]}]}"#;
    let two = br#"{"flow":"two","inputs":1,"nodes":[{"op":"clean","t":10,"from":[{"i":0}]},
        {"op":"clean","t":10,"from":[{"n":0}]}]}"#;
    let array = br#"{"array":"m","cells":[[1,2],[3,40]]}"#;
    take_each_time(alloc, held, 1, array)?;
    take_each_time(alloc, held, 1, one)?;
    take_each_time(alloc, held, 1, two)
}

/// Whether strategies are planned, and nothing is started.
fn plans_all(alloc: Global, held: &mut Catalogue) -> Result<bool, Fail> {
    hold_flows(alloc, held)?;
    Ok(are_planned(alloc, held, &PLANS)? && held.next_number() == 1)
}

/// Whether strategies are planned by a new catalogue.
fn are_all_planned(alloc: Global) -> Result<bool, Fail> {
    let mut held = Catalogue::new(alloc);
    plans_all(alloc, &mut held)
}

#[test]
fn strategies_are_planned(rt: HostRuntime) -> Result<(), Fail> {
    assert!(rt; are_all_planned(rt.alloc())?);
    Ok(())
}

/// A set of two cells of two layers.
fn two_cells(alloc: Global) -> Result<CellSet, Fail> {
    let shape = Shape::make_layers(2, 1, 2).ok_or("two layers")?;
    let cells = vec![in alloc; Cell { row: 1, col: 0 }, Cell { row: 0, col: 1 }]?;
    if !cells.iter().all(|cell| shape.holds(*cell)) {
        return Err(Fail::from("cells of the shape"));
    }
    Ok(CellSet::from_cells(alloc, shape, &cells)?)
}

/// Whether a reply to the line of a number has this text.
fn is_written(alloc: Global, number: u64, reply: &Reply, text: &str) -> Result<bool, NoMemory> {
    let written = reply_text(alloc, number, reply)?;
    Ok(written.as_slice() == text.as_bytes())
}

/// Whether the number of kinds of each store of version 7 is written so.
fn kinds_are_written(alloc: Global, kinds: &[u32], text: &str) -> Result<bool, NoMemory> {
    let kinds = kinds.to_vec(alloc)?;
    is_written(alloc, 4, &Reply::Merged { version: 7, kinds }, text)
}

/// An array of three cells, of which one is empty.
fn three_values(alloc: Global) -> Result<Arc<Array>, Fail> {
    let shape = Shape::make(1, 3).ok_or("1 by 3")?;
    let values = vec![in alloc; Some(-5), None, Some(0)]?;
    let array = Array::make(shape, values).ok_or("three values")?;
    Ok(Arc::new(alloc, array)?)
}

/// Whether cells of two layers are written.
fn cells_are_written(alloc: Global) -> Result<bool, Fail> {
    let cells = two_cells(alloc)?;
    Ok(is_written(alloc, 1, &Reply::Cells { cells }, "1 cells 2 0,0,1 1,0,0\n")?)
}

/// The answer of an ask that went by two strategies.
fn explained(alloc: Global) -> Result<Reply, NoMemory> {
    let used = StrategyList::of(vec![in alloc; Strategy::PayMany, Strategy::BlackBox]?);
    Ok(Reply::Explain { used, traced: 9 })
}

/// Whether two strategies are written.
fn strategies_are_written(alloc: Global) -> Result<bool, NoMemory> {
    let reply = explained(alloc)?;
    is_written(alloc, 2, &reply, "2 explain pay_many blackbox traced 9\n")
}

/// Whether three values are written, by the greatest number of a line.
fn values_are_written(alloc: Global) -> Result<bool, Fail> {
    let array = three_values(alloc)?;
    let text = "18446744073709551615 values 1 3 -5 - 0\n";
    Ok(is_written(alloc, u64::MAX, &Reply::Values { array }, text)?)
}

#[test]
fn answers_are_written(rt: HostRuntime) -> Result<(), Fail> {
    assert!(rt; cells_are_written(rt.alloc())?);
    assert!(rt; strategies_are_written(rt.alloc()) == Ok(true));
    assert!(rt; values_are_written(rt.alloc())?);
    Ok(())
}

/// Whether a reply to a refresh of a version has this number of cells.
fn cells_are_counted(alloc: Global, cells: u64, text: &str) -> Result<bool, NoMemory> {
    is_written(alloc, 3, &Reply::Refreshed { version: 7, cells }, text)
}

#[test]
fn numbers_are_written(rt: HostRuntime) {
    let alloc = rt.alloc();
    let text = "3 refreshed 7 cells 10000000000\n";
    assert!(rt; cells_are_counted(alloc, 10_000_000_000, text) == Ok(true));
    assert!(rt; kinds_are_written(alloc, &[], "4 merged 7\n") == Ok(true));
    let text = "4 merged 7 0 4294967295\n";
    assert!(rt; kinds_are_written(alloc, &[0, 4_294_967_295], text) == Ok(true));
}
