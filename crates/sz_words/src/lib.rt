//! The words of SubZero's command line: which job they ask for.
//!
//! `subzero MODE [PLACE] [--workers N] [--askers N] [--seed N] [--side N]` is one command of
//! `clap`. This crate refuses exactly the words that `clap` refuses, those whose MODE is no mode,
//! and those whose PLACE does not fit the mode; and it reads the rest. An option that a mode does
//! not use is allowed.
//!
//! | Mode | PLACE |
//! |---|---|
//! | `play`, `load` | none |
//! | `init`, `run`, `check`, `upgrade` | the file of the log |
//!
//! | Option | Numbers | When it is not given |
//! |---|---|---|
//! | `--workers` | 1 to 64 | 4 |
//! | `--askers` | 1 to 64 | 1 |
//! | `--seed` | 0 to 4,294,967,295 | 1 |
//! | `--side` | 1 to 512 | 64 |
//!
//! [`read_words`] gives the job, and [`log_place`] the file of its log. The words are those after
//! the program's name. For `run log.bin --workers 8`:
//!
//! ```text
//! let job = read_words(alloc, words.as_slice())?;
//! // job.mode is JobMode::Run, job.workers is 8, job.askers is 1, job.seed is 1, job.side is 64
//! let place = log_place(alloc, words.as_slice())?;
//! // Some(LogPlace { path: "log.bin", make: false })
//! ```
#![tactic(auto)]

ghost use Rattle.std.specs.Prelude.{◌≡◌};
ghost use Rattle.sz_words.specs.Terms.{IfOk, OnOk, Err, None, Some, map, option_map, string_bytes};
ghost use Rattle.sz_words.specs.Terms.{matches_in, IsInRange, job_of, HasNumbers, place_of};
ghost use Rattle.sz_words.specs.Terms.{path_and_make};

mod arguments;

pub use arguments::JobMode;
use arguments::{fitting_mode, makes_log, matches_of, number, text};
use std::alloc::{AllocError, Global};

/// The job of the words after the program's name. The time grows with the length of the words.
pub fn read_words(alloc: Global, words: &[String]) -> Result<Job, WordsFault>
    ensures ok { IfOk result (λ job. job_of (map string_bytes words.now) ≡ Some job) }
    ensures usage { result ≡ Err WordsFault.Usage → job_of (map string_bytes words.now) ≡ None }
    ensures ranges { IfOk result IsInRange }

    // Each option has a numeral, its own or its default: no number is made up for one.
    ensures numerals { OnOk result (HasNumbers (matches_in (map string_bytes words.now))) }
{
    let matches = matches_of(alloc, words)?;
    let Some(mode) = fitting_mode(&matches) else {
        return Err(WordsFault::Usage);
    };
    Ok(Job {
        mode,
        workers: number(&matches, "workers"),
        askers: number(&matches, "askers"),
        seed: number(&matches, "seed"),
        side: number(&matches, "side"),
    })
}

/// The file of the log that the words name; `None` where they are refused or have no PLACE. It
/// costs what `read_words` does, and the path is a copy.
pub fn log_place(alloc: Global, words: &[String]) -> Result<Option<LogPlace>, NoMemory>
    ensures { IfOk result
        (λ place. option_map path_and_make place ≡ place_of (map string_bytes words.now)) }
{
    let matches = match matches_of(alloc, words) {
        Ok(matches) => matches,
        Err(WordsFault::Usage) => return Ok(None),
        Err(WordsFault::NoMemory) => return Err(NoMemory),
    };
    let Some(mode) = fitting_mode(&matches) else {
        return Ok(None);
    };
    let Some(place) = text(&matches, "PLACE") else {
        return Ok(None);
    };
    Ok(Some(LogPlace {
        path: String::from_str(alloc, place)?,
        make: makes_log(mode),
    }))
}

/// What the words ask for; an option that was not given has its default.
#[derive(Clone, Copy, Debug, PartialEq, Eq)]
pub struct Job {
    pub mode: JobMode,
    /// How many threads place pieces: 1 to 64.
    pub workers: u32,
    /// How many threads answer asks: 1 to 64.
    pub askers: u32,
    /// What the generated session is drawn from: any number of 32 bits.
    pub seed: u32,
    /// The side of the generated session's arrays, in cells: 1 to 512.
    pub side: u32,
}

/// The file of the log that the words name.
#[derive(Debug, Drop, PartialEq, Eq)]
pub struct LogPlace {
    /// PLACE as it was written, which may be the empty text.
    pub path: String,
    /// Whether the file is to be made where it is not there: exactly in mode init.
    pub make: bool,
}

/// Why there is no job.
#[derive(Clone, Copy, Debug, PartialEq, Eq)]
pub enum WordsFault {
    /// The words are refused.
    Usage,
    /// There was no memory for reading them.
    NoMemory,
}

impl From<AllocError> for WordsFault {
    ghost use Rattle.sz_words.specs.declared.WordsFault.TheVariants.{NoMemory};

    ghost from_gives = { λ _ fault. fault ≡ NoMemory };

    fn from(_: AllocError) -> Self {
        WordsFault::NoMemory
    }
}

/// There was no memory for what the call had to make.
#[derive(Clone, Copy, Debug, Drop, PartialEq, Eq)]
pub struct NoMemory;

impl From<AllocError> for NoMemory {
    fn from(_: AllocError) -> Self {
        NoMemory
    }
}
