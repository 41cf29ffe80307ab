//! The log that a session goes on beside.

ghost use Rattle.std.specs.Prelude.{◌≡◌, true};
ghost use Rattle.sz_formats.specs.Formats.{is_format};

use sz_log::LogEnd;

/// A log that is gone on from: where its first closed gate stands, and its format, 1 or 2.
#[derive(Clone, Copy, Drop)]
pub struct OpenLog {
    pub end: LogEnd,
    pub format: u8,
    pub ghost right: { is_format format ≡ true },
}
