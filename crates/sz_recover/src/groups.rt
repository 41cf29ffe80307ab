//! What a group of a log does: the line that it has acts as that line does, a version is added, and
//! the log's format is raised.

ghost use Rattle.std.specs.Prelude.{◌≡◌, ◌++◌};
ghost use Rattle.sz_recover.specs.Terms.{List, [], Some, None, true, IfErr, OnOk, is_format};
ghost use Rattle.sz_recover.specs.Terms.{LogGroup, Kept, Acts, ActsAsVersion, IsBad, held_behind};
ghost use Rattle.sz_recover.specs.Terms.{is_of_kind, version_kind, IfBad, NoneIsLawful};

use std::alloc::Global;
use std::marker::Model;
use std::sync::Arc;
use std::thread::Threads;
use sz_bodies::{TakeFault, take_version_body};
use sz_catalogue::{Catalogue, HeldVersion};
use sz_script::laws::commands_are_right;
use sz_script::{Command, LineFault, read_line};
use sz_store::NodeStore;

/// A version that a log has, with its stores: for each node those of its list, where that has a
/// strategy that keeps one.
#[derive(Drop)]
pub struct KeptVersion {
    pub version: u32,
    pub nodes: Vec<Option<Arc<NodeStore>>>,
}

impl Model for KeptVersion {
    ghost use Rattle.sz_bodies.specs.Fitting.{lineages};
    ghost use Rattle.sz_recover.specs.Logs.{Kept};

    ghost Value = { Kept };

    ghost view = { λ k. record { number = k.version; stores = lineages k.nodes.items } };
}

/// The kind of the group that raises a log to format 2.
const UPGRADE_KIND: u8 = 5;

/// The kind of the groups that have a version, in a format.
pub fn version_kind(format: u8) -> u8
    ensures { result ≡ version_kind format }
{
    if format == 2 { 6 } else { 4 }
}

/// Takes a group of a kind with a body in a format over what is held, and keeps the stores of a
/// version. `Bad` exactly where the group is bad there.
pub(crate) fn act<R: Threads + Sync>(
    rt: &R,
    alloc: Global,
    catalogue: &mut Catalogue,
    kept: &mut Vec<KeptVersion>,
    format: &mut u8,
    kind: u8,
    body: &[u8],
) -> Result<(), TakeFault>
    requires { is_format format.old ≡ true }
    ensures ok { let e : LogGroup = record { kind = kind; body = body.now } in OnOk result (
        (more : List Kept) × Acts format.old catalogue.old e format.new catalogue.new more
        × (kept.new.items ≡ kept.old.items ++ more)) }
    ensures format { OnOk result (is_format format.new ≡ true) }
    ensures err { let e : LogGroup = record { kind = kind; body = body.now } in
        IfErr result (λ f. IfBad f (IsBad format.old catalogue.old e)) }
{
    let own = version_kind(*format);
    if kind == own {
        return act_as_version(rt, alloc, catalogue, kept, *format, body);
    }
    if kind == UPGRADE_KIND {
        return act_as_upgrade(format, body);
    }
    act_as_line(alloc, catalogue, kind, body)
}

/// Raises a log of format 1, where the group has no byte.
fn act_as_upgrade(format: &mut u8, body: &[u8]) -> Result<(), TakeFault>
    ensures ok { OnOk result ((format.old ≡ 1) × (format.new ≡ 2) × (body.now ≡ [])) }
    ensures err { IfErr result (λ f. IfBad f (format.old ≡ 1 → body.now ≡ [] → ⊥)) }
{
    if *format != 1 || !body.is_empty() {
        return Err(TakeFault::Bad);
    }
    *format = 2;
    Ok(())
}

/// Takes the line of a group of a kind.
fn act_as_line(
    alloc: Global,
    catalogue: &mut Catalogue,
    kind: u8,
    body: &[u8],
) -> Result<(), TakeFault>
    ensures ok { let e : LogGroup = record { kind = kind; body = body.now } in
        OnOk result (held_behind catalogue.old e ≡ Some catalogue.new) }
    ensures err { let e : LogGroup = record { kind = kind; body = body.now } in
        IfErr result (λ f. IfBad f (held_behind catalogue.old e ≡ None)) }
{
    commands_are_right();
    let command = match read_line(alloc, body) {
        Ok(command) => command,
        Err(LineFault::Refused(_)) => return Err(TakeFault::Bad),
        Err(LineFault::NoMemory) => return Err(TakeFault::NoMemory),
    };
    if !is_of_kind(kind, &command) {
        return Err(TakeFault::Bad);
    }
    match catalogue.judge(alloc, &command) {
        Ok(()) => {}
        Err(LineFault::Refused(_)) => return Err(TakeFault::Bad),
        Err(LineFault::NoMemory) => return Err(TakeFault::NoMemory),
    }
    let _reply = catalogue.accept(command)?;
    Ok(())
}

/// Whether a line of a command stands in groups of this kind.
fn is_of_kind(kind: u8, command: &Command) -> bool
    ensures { result ≡ is_of_kind kind command.now }
{
    match command {
        Command::Array { .. } => kind == 1,
        Command::Csv { .. } => kind == 1,
        Command::Layers { .. } => kind == 1,
        Command::Flow { .. } => kind == 2,
        Command::Strategy { .. } => kind == 3,
        _ => false,
    }
}

/// Adds the version of a body in a format, and keeps its stores.
fn act_as_version<R: Threads + Sync>(
    rt: &R,
    alloc: Global,
    catalogue: &mut Catalogue,
    kept: &mut Vec<KeptVersion>,
    format: u8,
    body: &[u8],
) -> Result<(), TakeFault>
    requires { is_format format ≡ true }
    ensures ok { let e : LogGroup = record { kind = version_kind format; body = body.now } in
        OnOk result ((more : List Kept)
        × ActsAsVersion format catalogue.old e catalogue.new more
        × (kept.new.items ≡ kept.old.items ++ more)) }
    ensures err { IfErr result (λ f. IfBad f (NoneIsLawful format catalogue.old body.now)) }
{
    let taken = take_version_body(rt, alloc, catalogue, body, format)?;
    let version = HeldVersion {
        flow_name: taken.flow_name,
        flow: taken.flow,
        base: taken.base,
        lists: taken.lists,
        awaited: true,
    };
    catalogue.add_version(taken.number, version)?;
    kept.push(KeptVersion {
        version: taken.number,
        nodes: taken.stores,
    })?;
    Ok(())
}
