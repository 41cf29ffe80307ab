//! A body worked out byte by byte, in either format: it is read, it is written again, and where one
//! of its conditions is broken, or it is read in the other format, it is bad.
ghost use Rattle.std.specs.Prelude.{◌≡◌, true, false, None, IfOk, OnOk};
ghost use Rattle.sz_script.specs.Right.{is_right};
ghost use Rattle.sz_catalogue.specs.Rules.{judged, has_no_version, version_of};
ghost use Rattle.sz_bodies.specs.Fitting.{Fit, lineages};
ghost use Rattle.sz_bodies.specs.Lawful.{CanBeAdded};

use std::alloc::Global;
use std::sync::Arc;
use std::test::Fail;
use std::thread::Threads;
use sz_bodies::{TakeFault, TakenVersion, take_version_body, version_body};
use sz_catalogue::{Catalogue, HeldVersion};
use sz_cells::NoMemory;
use sz_script::{Command, read_line};
use sz_spec::Strategy;
use sz_store::NodeStore;

/// Version 1 of the flow `f` on version 1 of the array `a`, of one cell: one node, which negates,
/// with the list of `full_one_b`, whose store has one region pair.
pub(crate) const BODY: [u8; 64] = [
    0, 0, 0, 1, 1, b'f', 0, 0, 0, 1, 1, b'a', 0, 0, 0, 1, 0, 0, 0, 1, 1, 2, 0, 0, 0, 2, 0, 0, 0, 0,
    1, 0, 0, 0, 0, 0, 0, 0, 0, 1, 0, 0, 0, 1, 0, 0, 0, 0, 0, 0, 0, 0, 0, 0, 0, 1, 0, 0, 0, 0, 0, 0,
    0, 1,
];

/// The same in format 2: each set has three bytes in place of twelve.
pub(crate) const SHORT_BODY: [u8; 46] = [
    0, 0, 0, 1, 1, b'f', 0, 0, 0, 1, 1, b'a', 0, 0, 0, 1, 0, 0, 0, 1, 1, 2, 0, 0, 0, 2, 0, 1, 0, 0,
    1, 1, 0, 0, 0, 0, 0, 1, 0, 0, 0, 0, 0, 0, 0, 1,
];

/// Takes a line that holds an array or a flow.
fn take(alloc: Global, held: &mut Catalogue, line: &[u8]) -> Result<(), Fail> {
    sz_script::laws::commands_are_right();
    let command = match read_line(alloc, line) {
        Ok(command) => command,
        Err(_) => return Err(Fail::from("no command")),
    };
    match held.judge(alloc, &command) {
        Ok(()) => {}
        Err(_) => return Err(Fail::from("refused")),
    }
    accept(held, command)
}

/// Takes a command that no rule refuses, where it holds an array or a flow.
fn accept(held: &mut Catalogue, command: Command) -> Result<(), Fail>
    requires right { is_right command ≡ true }
    requires judged { judged held.old command ≡ None }
{
    match command {
        Command::Array { name, array } => {
            let _reply = held.accept(Command::Array { name, array })?;
            Ok(())
        }
        Command::Flow { name, flow } => {
            let _reply = held.accept(Command::Flow { name, flow })?;
            Ok(())
        }
        _ => Err(Fail::from("another command")),
    }
}

/// Holds what the body names.
fn hold_both(alloc: Global, held: &mut Catalogue) -> Result<(), Fail> {
    take(alloc, held, br#"{"array":"a","cells":[[5]]}"#)?;
    let flow = br#"{"flow":"f","inputs":1,"nodes":[{"op":"neg","from":[{"i":0}]}]}"#;
    take(alloc, held, flow)
}

/// A catalogue that holds it.
fn holds_both(alloc: Global) -> Result<Catalogue, Fail> {
    let mut held = Catalogue::new(alloc);
    hold_both(alloc, &mut held)?;
    Ok(held)
}

/// What reads bodies: threads, memory, and the catalogue by which they are judged.
#[derive(Drop)]
struct Reader<'a, R> {
    rt: &'a R,
    alloc: Global,
    held: &'a Catalogue,
}

/// A reader by a catalogue.
fn body_reader<'a, R>(rt: &'a R, alloc: Global, held: &'a Catalogue) -> Reader<'a, R>
    ensures { result.held.now ≡ held.now }
{
    Reader { rt, alloc, held }
}

impl<'a, R: Threads + Sync> Reader<'a, R> {
    /// What a body says, in format 2 where it is short and else in format 1.
    fn taken(&self, body: &[u8], is_short: bool) -> Result<TakenVersion, TakeFault>
        ensures added { IfOk result (λ t. CanBeAdded self.now.held.now t.number t.version) }
        ensures fit { IfOk result (λ t. Fit t.version t.stores) }
    {
        if is_short {
            take_version_body(self.rt, self.alloc, self.held, body, 2)
        } else {
            take_version_body(self.rt, self.alloc, self.held, body, 1)
        }
    }

    /// The version that the body says, in the format of the short one or in the other.
    fn read(&self, is_short: bool) -> Result<TakenVersion, Fail>
        ensures added { IfOk result (λ t. CanBeAdded self.now.held.now t.number t.version) }
        ensures fit { IfOk result (λ t. Fit t.version t.stores) }
    {
        let body = if is_short { &SHORT_BODY[..] } else { &BODY[..] };
        match self.taken(body, is_short) {
            Ok(taken) => Ok(taken),
            Err(_) => Err(Fail::from("not read")),
        }
    }

    /// Whether a body is bad in its format.
    fn is_bad(&self, body: &[u8], is_short: bool) -> Result<bool, Fail> {
        match self.taken(body, is_short) {
            Ok(_) => Ok(false),
            Err(TakeFault::Bad) => Ok(true),
            Err(TakeFault::NoMemory) => Err(Fail::from("no memory")),
        }
    }

    /// Whether the body is bad with another byte at a place.
    fn breaks(&self, place: usize, byte: u8) -> Result<bool, Fail> {
        if place >= 64 {
            return Err(Fail::from("no such place"));
        }
        let mut body = BODY;
        body[place] = byte;
        self.is_bad(&body, false)
    }

    /// Whether it is bad with each of these bytes at its place.
    fn each_breaks(&self, rows: &[(usize, u8)]) -> Result<bool, Fail> {
        for row in rows {
            if !self.breaks(row.0, row.1)? {
                return Ok(false);
            }
        }
        Ok(true)
    }

    /// Whether it is bad with a byte more.
    fn breaks_with_more(&self) -> Result<bool, Fail> {
        let body = longer(self.alloc)?;
        self.is_bad(&body, false)
    }

    /// Whether a byte more, a byte fewer, and no byte, is bad.
    fn breaks_at_the_end(&self) -> Result<bool, Fail> {
        Ok(self.breaks_with_more()? && self.is_bad(&BODY[..63], false)? && self.is_bad(&[], false)?)
    }

    /// Whether the body is bad where a condition is broken. Version 9 in place of 1 is lawful.
    fn is_bad_where_broken(&self) -> Result<bool, Fail> {
        Ok(
            !self.breaks(3, 9)?
                && self.each_breaks(&BROKEN)?
                && self.each_breaks(&BROKEN_NODE)?
                && self.breaks_at_the_end()?,
        )
    }

    /// Whether the body is bad, and lawful with number 2.
    fn number_is_held(&self) -> Result<bool, Fail> {
        Ok(self.is_bad(&BODY, false)? && !self.breaks(3, 2)?)
    }
}

/// Whether a version is the one that the body says.
fn is_right(taken: &TakenVersion) -> bool {
    let [only] = taken.base.as_slice() else {
        return false;
    };
    let [list] = taken.lists.as_slice() else {
        return false;
    };
    let [Some(_)] = taken.stores.as_slice() else {
        return false;
    };
    taken.number == 1
        && taken.flow_name.as_str() == "f"
        && only.name.as_str() == "a"
        && only.version == 1
        && list.as_slice() == [Strategy::FullOneB].as_slice()
}

/// Adds a version that was read, and gives its stores.
fn add(held: &mut Catalogue, taken: TakenVersion) -> Result<Vec<Option<Arc<NodeStore>>>, NoMemory>
    requires added { CanBeAdded held.old taken.number taken.version }
    requires fit { Fit taken.version taken.stores }
    ensures held { OnOk result (has_no_version held.new taken.number ≡ false) }
    ensures fit { IfOk result
        (λ v. Fit (version_of held.new taken.number) (lineages v.items)) }
{
    let version = HeldVersion {
        flow_name: taken.flow_name,
        flow: taken.flow,
        base: taken.base,
        lists: taken.lists,
        awaited: true,
    };
    held.add_version(taken.number, version)?;
    Ok(taken.stores)
}

/// The bytes with which the body is bad: a number that no version can have, the name of a flow that
/// is not held and one that is no name, the name of an array that is not held, an array's version
/// that is not held, no base array, and too many nodes.
const BROKEN: [(usize, u8); 7] = [
    (3, 0),
    (5, b'g'),
    (5, 0x80),
    (11, b'b'),
    (15, 2),
    (9, 0),
    (19, 2),
];

/// Those of the node: no strategy, one that is none and one that is not the operator's, a set that
/// is not in the table, and a set with a cell outside the shape.
const BROKEN_NODE: [(usize, u8); 5] = [(20, 0), (21, 11), (21, 6), (63, 2), (38, 1)];

/// The body with a byte more.
fn longer(alloc: Global) -> Result<Vec<u8>, NoMemory> {
    let mut body = Vec::from_slice(alloc, &BODY)?;
    body.push(0)?;
    Ok(body)
}

#[test]
fn a_body_is_read(rt: HostRuntime) -> Result<(), Fail> {
    let held = holds_both(rt.alloc())?;
    let taken = body_reader(&rt, rt.alloc(), &held).read(false)?;
    assert!(rt; is_right(&taken));
    Ok(())
}

#[test]
fn a_body_with_a_broken_condition_is_bad(rt: HostRuntime) -> Result<(), Fail> {
    let held = holds_both(rt.alloc())?;
    assert!(rt; body_reader(&rt, rt.alloc(), &held).is_bad_where_broken()?);
    Ok(())
}

/// Whether a version that is held, with these stores, is written as the body, and in format 2 as
/// the short one.
fn is_written(
    alloc: Global,
    held: &Catalogue,
    number: u32,
    stores: &[Option<Arc<NodeStore>>],
) -> Result<bool, NoMemory>
    requires held { has_no_version held.now number ≡ false }
    requires fit { Fit (version_of held.now number) (lineages stores.now) }
{
    let long = version_body(alloc, held, number, stores, 1)?;
    let short = version_body(alloc, held, number, stores, 2)?;
    Ok(long.as_slice() == BODY.as_slice() && short.as_slice() == SHORT_BODY.as_slice())
}

/// Whether a version that was read is added, and written as both bodies.
fn is_added(alloc: Global, held: &mut Catalogue, taken: TakenVersion) -> Result<bool, NoMemory>
    requires added { CanBeAdded held.old taken.number taken.version }
    requires fit { Fit taken.version taken.stores }
{
    let number = taken.number;
    let stores = add(held, taken)?;
    is_written(alloc, held, number, &stores)
}

/// Whether the body, in either format, is read as the version that it says, added and written.
fn is_taken(
    rt: &(impl Threads + Sync),
    alloc: Global,
    held: &mut Catalogue,
    is_short: bool,
) -> Result<bool, Fail> {
    let taken = body_reader(rt, alloc, held).read(is_short)?;
    if !is_right(&taken) {
        return Ok(false);
    }
    Ok(is_added(alloc, held, taken)?)
}

/// Then its number is held.
#[test]
fn a_version_that_was_read_is_added_and_written(rt: HostRuntime) -> Result<(), Fail> {
    let alloc = rt.alloc();
    let mut held = holds_both(alloc)?;
    assert!(rt; is_taken(&rt, alloc, &mut held, false)?);
    assert!(rt; body_reader(&rt, alloc, &held).number_is_held()?);
    Ok(())
}

#[test]
fn a_body_of_format_2_is_read_added_and_written(rt: HostRuntime) -> Result<(), Fail> {
    let mut held = holds_both(rt.alloc())?;
    assert!(rt; is_taken(&rt, rt.alloc(), &mut held, true)?);
    Ok(())
}

/// So is the short one without its last byte.
#[test]
fn a_body_is_bad_in_the_other_format(rt: HostRuntime) -> Result<(), Fail> {
    let held = holds_both(rt.alloc())?;
    let reader = body_reader(&rt, rt.alloc(), &held);
    assert!(rt; reader.is_bad(&SHORT_BODY, false)?);
    assert!(rt; reader.is_bad(&BODY, true)?);
    assert!(rt; reader.is_bad(&SHORT_BODY[..45], true)?);
    Ok(())
}
