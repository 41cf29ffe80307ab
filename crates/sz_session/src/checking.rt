//! Mode check: the log of the station is opened, its stores are compared with what the operators of
//! its versions relate, and one line says what was found. Nothing is written to the disk.
ghost use Rattle.std.specs.Prelude.{◌≡◌, ◌++◌};
ghost use Rattle.sz_session.specs.Terms.{IfOk, OnOk, length, string_bytes, name_of_strategy};
ghost use Rattle.sz_session.specs.Terms.{word_text, IsMade, ChecksLog, AreCounted, check_line};
ghost use Rattle.sz_session.specs.Terms.{sound_line, unsound_line, node_words, TellsLine};
ghost use Rattle.sz_session.specs.Terms.{StopsChecking, Stood};

use crate::serving::Status;
use std::alloc::{AllocError, Global};
use std::thread::Threads;
use sz_cells::NoMemory;
use sz_outside::{Failed, Station};
use sz_recover::{Recovered, WrongStore, catalogue_of, unsound};
use sz_script::strategy_name;
use sz_spec::Strategy;

/// Opens the log, and says its line.
pub(crate) fn check_log<T: Station, R: Threads + Sync>(
    rt: &R,
    alloc: Global,
    station: &mut T,
) -> Status
    ensures ends { ChecksLog T.Station result station.old station.new }
    ensures counted { AreCounted T.Station result 0 0 station.old station.new }
    ensures stops { StopsChecking T.Station station.old station.new }
{
    match catalogue_of(rt, alloc, station) {
        Ok(log) => check_opened(rt, alloc, &log, station),
        Err(fault) => Status::from(fault),
    }
}

/// Says the line of a log that was opened.
fn check_opened<T: Station, R: Threads + Sync>(
    rt: &R,
    alloc: Global,
    log: &Recovered,
    station: &mut T,
) -> Status
    requires { IsMade (T.disk station.old) log.now.end.at log.now.format log.now.catalogue
        log.now.stores.items }
    ensures ends { ChecksLog T.Station result station.old station.new }
    ensures counted { AreCounted T.Station result 0 0 station.old station.new }
    ensures stops { StopsChecking T.Station station.old station.new }
    ensures quiet { Stood (T.disk_faults station.old) (T.disk_faults station.new) }
{
    let Ok(line) = line_of(rt, alloc, log) else {
        return Status::NoMemory;
    };
    match station.say(&line) {
        Ok(()) => Status::Done,
        Err(Failed) => Status::SayFault,
    }
}

/// The line of a log that was opened.
fn line_of<R: Threads + Sync>(rt: &R, alloc: Global, log: &Recovered) -> Result<Vec<u8>, NoMemory>
    ensures { IfOk result
        (λ line. TellsLine log.now.catalogue log.now.stores.items line.items) }
{
    let wrong = unsound(rt, alloc, log)?;
    Ok(line_text(alloc, log.stores.len(), wrong)?)
}

/// The line that says what was found in the stores of so many versions.
fn line_text(alloc: Global, count: usize, wrong: Option<WrongStore>) -> Result<Vec<u8>, AllocError>
    ensures { IfOk result (λ line. line.items ≡ check_line count wrong) }
{
    let mut text = String::new(alloc);
    match wrong {
        None => push_sound(&mut text, count)?,
        Some(found) => push_unsound(&mut text, found)?,
    }
    Ok(text.into_bytes())
}

/// Writes that none is wrong.
fn push_sound(text: &mut String, count: usize) -> Result<(), AllocError>
    ensures { OnOk result (string_bytes text.new
        ≡ string_bytes text.old ++ sound_line count) }
{
    write!(text, "sound {count}")?;
    text.push('\n')
}

/// Writes which one is wrong.
fn push_unsound(text: &mut String, wrong: WrongStore) -> Result<(), AllocError>
    ensures { OnOk result (string_bytes text.new
        ≡ string_bytes text.old ++ unsound_line wrong) }
{
    push_node(text, wrong)?;
    push_strategy(text, wrong.s)?;
    text.push('\n')
}

/// Writes at which node it is.
fn push_node(text: &mut String, wrong: WrongStore) -> Result<(), AllocError>
    ensures { OnOk result (string_bytes text.new ≡ string_bytes text.old ++ node_words wrong) }
{
    write!(
        text,
        "unsound version {} node {}",
        wrong.version, wrong.node
    )
}

/// Writes a blank and the word of a strategy.
fn push_strategy(text: &mut String, s: Strategy) -> Result<(), AllocError>
    ensures { OnOk result (string_bytes text.new
        ≡ string_bytes text.old ++ word_text (name_of_strategy s)) }
{
    let name = strategy_name(s);
    write!(text, " {name}")
}
