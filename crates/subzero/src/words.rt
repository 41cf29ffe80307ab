//! The words of the command line, behind the program's name.

ghost use Rattle.std.specs.Prelude.{◌≡◌, ◌≢◌, ◌⊎◌, IfOk};
ghost use Rattle.std.specs.IoError.{error_kind};
ghost use Rattle.subzero.specs.Words.{words_in};

use std::alloc::{AllocError, Global};
use std::env::Args;
use std::io::{self, ErrorKind};
use sz_session::Status;

/// The words behind the program's name, in their order. Linear in their number.
pub(crate) fn words_of(alloc: Global, args: Args) -> Result<Vec<String>, AllocError>
    ensures { IfOk result (λ words. words.items ≡ words_in args) }
{
    let mut rest = args;
    let _ = rest.next();
    let mut words = Vec::new(alloc);
    while let Some(word) = rest.next() {
        words.push(word)?;
    }
    Ok(words)
}

/// The status where the words could not be read: a word that is no text is no word of a mode.
pub(crate) fn status_of_fault(fault: &io::Error) -> Status
    ensures memory { error_kind fault.now ≡ ErrorKind.OutOfMemory → result ≡ Status.NoMemory }
    ensures usage { error_kind fault.now ≢ ErrorKind.OutOfMemory → result ≡ Status.Usage }
    ensures either { (result ≡ Status.Usage) ⊎ (result ≡ Status.NoMemory) }
{
    if fault.kind() == ErrorKind::OutOfMemory {
        Status::NoMemory
    } else {
        Status::Usage
    }
}
