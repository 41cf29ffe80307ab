//! The file of the log that the words name, and the station over it.

ghost use Rattle.std.specs.Prelude.{◌≡◌, IfOk, option_map, true};
ghost use Rattle.std.specs.Fs.{new_options, with_read, with_write, with_create};
ghost use Rattle.std.specs.Path.{path_bytes};
ghost use Rattle.sz_words.specs.Place.{path_and_make};
ghost use Rattle.subzero.specs.Places.{folder_named};
ghost use Rattle.subzero.specs.Words.{place_named};

use crate::words::words_of;
use std::alloc::Global;
use std::env::Args;
use std::fs::{File, Files, OpenFile, OpenOptions};
use std::io::{self, ErrorKind};
use std::path::Path;
use sz_outside::FileStation;
use sz_words::{LogPlace, NoMemory, log_place};

/// Standard output, and the file that the words name. Over no file, so that each disk call fails,
/// where the words name none or it cannot be opened, but for want of memory.
pub(crate) fn station_for(
    rt: &HostRuntime,
    alloc: Global,
    args: io::Result<Args>,
) -> Result<FileStation, NoMemory> {
    let opened = match place_in(alloc, args)? {
        Some(place) => opened_at(rt, &place)?,
        None => None,
    };
    Ok(match opened {
        Some(file) => FileStation::over(rt, file),
        None => FileStation::closed(rt),
    })
}

/// The file that the words name, where they name one.
fn place_in(alloc: Global, args: io::Result<Args>) -> Result<Option<LogPlace>, NoMemory>
    ensures { IfOk result (λ place. option_map path_and_make place ≡ place_named args) }
{
    let args = match args {
        Ok(args) => args,
        Err(fault) if fault.kind() == ErrorKind::OutOfMemory => return Err(NoMemory),
        Err(_) => return Ok(None),
    };
    let words = words_of(alloc, args)?;
    log_place(alloc, &words)
}

/// The file at a place, where it can be opened.
fn opened_at<R: Files + Alloc>(rt: &R, place: &LogPlace) -> Result<Option<R::File>, NoMemory> {
    match open_at(rt, place) {
        Ok(file) => Ok(Some(file)),
        Err(fault) if fault.kind() == ErrorKind::OutOfMemory => Err(NoMemory),
        Err(_) => Ok(None),
    }
}

/// Opens the file for reading and writing as it is, and makes it where it is to be made and is not
/// there. Where it is to be made its folder is synced, so that a stop does not take its name; a
/// folder that cannot be opened or synced is a fault of the file.
pub(crate) fn open_at<R: Files + Alloc>(rt: &R, place: &LogPlace) -> io::Result<R::File> {
    let file = options_for(place.make).open(rt, place.path.as_str())?;
    if place.make {
        sync_folder_of(rt, Path::new(place.path.as_str()))?;
    }
    Ok(file)
}

/// For reading and writing, with what is there left as it is.
fn options_for(make: bool) -> OpenOptions
    ensures { result ≡ with_create (with_write (with_read new_options true) true) make }
{
    let mut options = OpenOptions::new();
    options.read(true).write(true).create(make);
    options
}

/// Syncs the folder in which a file stands; of a link, the folder of the file that it leads to.
fn sync_folder_of<R: Files + Alloc>(rt: &R, path: Path<'_>) -> io::Result<()> {
    if path.is_symlink(rt) {
        let target = path.canonicalize(rt)?;
        return sync_folder(rt, folder_of(target.as_path()));
    }
    sync_folder(rt, folder_of(path))
}

/// The folder that a path names its file in.
fn folder_of(path: Path<'_>) -> &str
    ensures { result.now ≡ folder_named (path_bytes path.entry) }
{
    match path.parent() {
        Some(folder) if !folder.as_str().is_empty() => folder.as_str(),
        _ => ".",
    }
}

/// Puts what a folder holds of names on the device.
fn sync_folder<R: Files>(rt: &R, folder: &str) -> io::Result<()> {
    File::open(rt, folder)?.sync_all()
}
