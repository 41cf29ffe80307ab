//! The modes, the command as `clap` has it, and what is read of its matches. A further mode is a
//! further line in each table here.
//!
//! The command is built once for each reading of words. What stands in its matches is read by the
//! names of its arguments, so a name that is written here stands in `command` too.

ghost use Rattle.std.specs.Prelude.{◌≡◌, ◌≢◌, ◌≤◌};
ghost use Rattle.sz_words.specs.Terms.{[], Err, IfOk, OnOk, false, map, option_map, pos};
ghost use Rattle.sz_words.specs.Terms.{string_bytes, app_of, found_of, first_of, one_of, rows_of};
ghost use Rattle.sz_words.specs.Terms.{rule_of, faults_of, matches_in, number_option, subzero};
ghost use Rattle.sz_words.specs.Terms.{fitting_mode, is_on_log, mode_named, HasNumbers, IsNumberIn};
ghost use Rattle.sz_words.specs.Terms.{number_of, makes_log};

use crate::WordsFault;
use clap::error::ErrorKind;
use clap::{Arg, ArgAction, ArgMatches, Command, value_parser};
use std::alloc::{AllocError, Global};

/// What the program is asked to do.
#[derive(Clone, Copy, Debug, PartialEq, Eq)]
pub enum JobMode {
    /// A session without a log.
    Play,
    /// Makes the empty log.
    Init,
    /// A session on a log.
    Run,
    /// Says whether a log is sound.
    Check,
    /// Raises a log of format 1 to format 2.
    Upgrade,
    /// The generated session, on memory.
    Load,
}

/// What clap finds in the words, refused exactly where clap refuses them for another cause than
/// memory.
pub(crate) fn matches_of<'a>(
    alloc: Global,
    words: &'a [String],
) -> Result<ArgMatches<'a>, WordsFault>
    ensures ok { OnOk result (faults_of (map string_bytes words.entry.now) ≡ []) }
    ensures usage { result ≡ Err WordsFault.Usage
        → faults_of (map string_bytes words.entry.now) ≢ [] }
    ensures rows { IfOk result
        (λ m. rows_of (found_of m) ≡ matches_in (map string_bytes words.entry.now)) }
    ensures numbers { IfOk result (λ m. HasNumbers (rows_of (found_of m))) }
{
    let command = command(alloc)?;
    match command.try_get_matches_from(words) {
        Ok(found) => Ok(found),
        Err(e) => {
            if e.kind() == ErrorKind::OutOfMemory {
                Err(WordsFault::NoMemory)
            } else {
                Err(WordsFault::Usage)
            }
        }
    }
}

fn command<'a>(alloc: Global) -> Result<Command<'a>, AllocError>
    ensures { IfOk result (λ c. app_of c ≡ subzero) }
{
    let mode = Arg::new(alloc, "MODE").required(true);
    let place = Arg::new(alloc, "PLACE");
    let workers = number_option(alloc, "workers", 1, 64, "4");
    let askers = number_option(alloc, "askers", 1, 64, "1");
    let seed = number_option(alloc, "seed", 0, 4294967295, "1");
    let side = number_option(alloc, "side", 1, 512, "64");
    Command::new(alloc, "subzero")
        .no_binary_name(true)
        .arg(mode)?
        .arg(place)?
        .arg(workers)?
        .arg(askers)?
        .arg(seed)?
        .arg(side)
}

fn number_option<'a>(
    alloc: Global,
    name: &'a str,
    least: u32,
    most: u32,
    default: &'a str,
) -> Arg<'a>
    requires { least ≤ most }
    ensures rule { rule_of result
        ≡ number_option name.entry.now (pos least) (pos most) default.entry.now }
    ensures local { result.global ≡ false }
{
    Arg::new(alloc, name)
        .long(name)
        .action(ArgAction::Set)
        .value_parser(value_parser!(u32).range(i64::from(least)..=i64::from(most)))
        .default_value(default)
}

/// The mode that MODE names, where PLACE is given exactly if the mode is one on a log.
pub(crate) fn fitting_mode(matches: &ArgMatches<'_>) -> Option<JobMode>
    ensures { result ≡ fitting_mode (rows_of (found_of matches.now)) }
{
    let mode = mode_named(text(matches, "MODE")?)?;
    let is_given = text(matches, "PLACE").is_some();
    if is_on_log(mode) == is_given {
        Some(mode)
    } else {
        None
    }
}

fn mode_named(name: &str) -> Option<JobMode>
    ensures { result ≡ mode_named name.now }
{
    match name {
        "play" => Some(JobMode::Play),
        "init" => Some(JobMode::Init),
        "run" => Some(JobMode::Run),
        "check" => Some(JobMode::Check),
        "upgrade" => Some(JobMode::Upgrade),
        "load" => Some(JobMode::Load),
        _ => None,
    }
}

fn is_on_log(mode: JobMode) -> bool
    ensures { result ≡ is_on_log mode }
{
    match mode {
        JobMode::Init | JobMode::Run | JobMode::Check | JobMode::Upgrade => true,
        JobMode::Play | JobMode::Load => false,
    }
}

/// The text of a positional, where it is given.
pub(crate) fn text<'a>(matches: &ArgMatches<'a>, name: &str) -> Option<&'a str>
    ensures { option_map (λ s. s.now) result ≡ first_of name.now (rows_of (found_of matches.now)) }
{
    matches.get_str(name)
}

/// The number of an option, which stands in the matches of words that clap takes.
pub(crate) fn number(matches: &ArgMatches<'_>, name: &str) -> u32
    requires { IsNumberIn 0 4294967295 (one_of name.now (rows_of (found_of matches.now))) }
    ensures { result ≡ number_of (one_of name.now (rows_of (found_of matches.now))) }
{
    matches.get_one::<u32>(name).unwrap()
}

/// Whether the file of the log is made where it is not there.
pub(crate) fn makes_log(mode: JobMode) -> bool
    ensures { result ≡ makes_log mode }
{
    match mode {
        JobMode::Init => true,
        _ => false,
    }
}
