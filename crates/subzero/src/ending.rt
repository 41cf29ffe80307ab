//! How the program ends: the line of a status on standard error, and its exit number.

ghost use Rattle.std.specs.Prelude.{◌≡◌};
ghost use Rattle.std.specs.Process.{exit_status};
ghost use Rattle.sz_session.specs.Statuses.{status_number};
ghost use Rattle.subzero.specs.Endings.{error_line, line_text};

use std::fmt::{self, Display};
use std::io::Eprint;
use std::process::ExitCode;
use sz_session::Status;

/// What is printed where the words are refused.
const USAGE: &str = "usage: subzero MODE [PLACE] [--workers N] [--askers N] [--seed N] [--side N]";

/// Prints the status's line, where it has one, and gives its number. That the line cannot be
/// printed changes nothing: the number still tells how the session ended.
pub(crate) fn end<E: Eprint>(rt: &E, status: Status) -> ExitCode
    ensures { exit_status result ≡ status_number status }
{
    let line = line_of(status);
    if !line.text.is_empty() {
        let _ = rt.eprintln(line);
    }
    ExitCode::from(status.number())
}

/// A line on standard error: its text, and the place that stands behind it where it tells one.
#[derive(Clone, Copy, Debug, PartialEq, Eq)]
pub(crate) struct ErrorLine {
    pub(crate) text: &'static str,
    pub(crate) place: Option<u64>,
}

impl Display for ErrorLine {
    ghost use Rattle.std.specs.Prelude.{Some};
    ghost use Rattle.subzero.specs.Endings.{line_text};

    ghost output = { λ line. Some (line_text line) };

    fn fmt<W: fmt::Write>(&self, f: &mut fmt::Formatter<W>) -> fmt::Result {
        let text = self.text;
        match self.place {
            None => write!(f, "{text}"),
            Some(place) => write!(f, "{text} {place}"),
        }
    }
}

/// The line of a status on standard error, which is empty for none.
pub(crate) fn line_of(status: Status) -> ErrorLine
    ensures { line_text result ≡ error_line status }
{
    let (text, place) = match status {
        Status::Done => ("", None),
        Status::Usage => (USAGE, None),
        Status::ReadFault => ("subzero: reading the session failed", None),
        Status::SayFault => ("subzero: writing a reply failed", None),
        Status::DiskFault => ("subzero: the log's file failed", None),
        Status::NotALog => ("subzero: not a log", None),
        Status::AlreadyALog => ("subzero: already a log", None),
        Status::BadLog { at } => ("subzero: bad log at", Some(at)),
        Status::NoMemory => ("subzero: out of memory", None),
        Status::InputLimit => ("subzero: the session is too long", None),
    };
    ErrorLine { text, place }
}
