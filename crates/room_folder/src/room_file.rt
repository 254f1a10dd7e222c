//! A room's file by its path: opening, creating, locking, cutting and removing it.

ghost use Rattle.std.specs.Prelude.{◌≡◌, ◌++◌, IfOk, codes, string_bytes};

use base_types::{NoMemory, RoomName};
use command_fault::MAX_FILE_LEN;
use journal::Synced;
use log::{Log, warn};
use std::alloc::Global;
use std::fs::{File, OpenOptions, TryLockError};
use std::io::ErrorKind;
use std::os::unix::fs::MetadataExt;
use std::rt::Files;
use std::{fs, io};

/// Why a long file is not read.
const TOO_LONG: &str = "it has more than 1073741824 bytes";

/// How often a file is opened before it is given up that others remove it each time.
const MAX_ATTEMPTS: u32 = 10;

/// Why a file is not used that could not be locked where it lies.
const NOT_HELD: &str = "it is a link to no file, or it is removed again and again";

/// The file at a path, as an attempt to lock it found it.
#[derive(Drop)]
pub(crate) enum LockedFile {
    /// The file, of which no other open file has the lock until it is dropped.
    Here(File),
    /// Another open file has the lock, of this process or another.
    Elsewhere,
    /// There is no file, or by now it is another than the one that was opened.
    Gone,
}

/// The number of bytes of the file at a path, if there is one.
pub(crate) fn len_at<R: Files<File = File>>(rt: &R, path: &str) -> io::Result<Option<u64>> {
    match fs::metadata(rt, path) {
        Ok(about) => Ok(Some(about.len())),
        Err(why) if why.kind() == ErrorKind::NotFound => Ok(None),
        Err(why) => Err(why),
    }
}

/// The path of a room's file.
pub(crate) fn path_of(alloc: Global, dir: &str, name: &str) -> Result<String, NoMemory>
    ensures { IfOk result (λ path. string_bytes path
        ≡ dir.now ++ (codes "/" ++ (name.now ++ codes ".record"))) }
{
    Ok(format!(in alloc; "{dir}/{name}.record")?)
}

/// Opens a file for reading and appending, if there is one.
pub(crate) fn open_there<R: Files<File = File>>(rt: &R, path: &str) -> io::Result<Option<File>> {
    match OpenOptions::new().read(true).append(true).open(rt, path) {
        Ok(file) => {
            let about = file.metadata()?;
            if !about.is_file() {
                return Err(io::Error::new(ErrorKind::InvalidInput, "not a regular file"));
            }
            if about.len() > MAX_FILE_LEN as u64 {
                return Err(io::Error::new(ErrorKind::FileTooLarge, TOO_LONG));
            }
            Ok(Some(file))
        }
        Err(why) if why.kind() == ErrorKind::NotFound => Ok(None),
        Err(why) => Err(why),
    }
}

/// Creates a file for reading and appending, unless there is one or a link.
fn create_file<R: Files<File = File>>(rt: &R, path: &str) -> io::Result<Option<File>> {
    let mut options = OpenOptions::new();
    options.read(true).append(true).create_new(true);
    match options.open(rt, path) {
        Ok(file) => Ok(Some(file)),
        Err(why) if why.kind() == ErrorKind::AlreadyExists => Ok(None),
        Err(why) => Err(why),
    }
}

/// Whether a path still leads to this open file. It may have been removed, or another put in its
/// place.
fn is_at<R: Files<File = File>>(rt: &R, path: &str, file: &File) -> io::Result<bool> {
    let opened = file.metadata()?;
    match fs::metadata(rt, path) {
        Ok(there) => Ok(there.dev() == opened.dev() && there.ino() == opened.ino()),
        Err(why) if why.kind() == ErrorKind::NotFound => Ok(false),
        Err(why) => Err(why),
    }
}

/// Locks a file that was opened at this path.
fn lock_opened<R: Files<File = File>>(rt: &R, path: &str, file: File) -> io::Result<LockedFile> {
    match file.try_lock() {
        Ok(()) => {
            if is_at(rt, path, &file)? {
                Ok(LockedFile::Here(file))
            } else {
                Ok(LockedFile::Gone)
            }
        }
        Err(TryLockError::WouldBlock) => Ok(LockedFile::Elsewhere),
        Err(TryLockError::Error(why)) => Err(why),
    }
}

/// Opens the file at a path for reading and appending, if there is one, and locks it.
pub(crate) fn lock_file<R: Files<File = File>>(rt: &R, path: &str) -> io::Result<LockedFile> {
    match open_there(rt, path)? {
        Some(file) => lock_opened(rt, path, file),
        None => Ok(LockedFile::Gone),
    }
}

/// Opens the file at a path for reading and appending, or creates it, and locks it. Fails if the
/// path is a link to no file, or if others removed or replaced the file at each attempt.
pub(crate) fn lock_or_create<R: Files<File = File>>(rt: &R, path: &str) -> io::Result<LockedFile> {
    for _ in 0..MAX_ATTEMPTS {
        let locked = match create_file(rt, path)? {
            Some(file) => lock_opened(rt, path, file)?,
            None => lock_file(rt, path)?,
        };
        match locked {
            LockedFile::Gone => {}
            found => return Ok(found),
        }
    }
    Err(io::Error::new(ErrorKind::NotFound, NOT_HELD))
}

/// Cuts the file to its whole lines, or creates it, and syncs it.
pub(crate) fn cut_or_create<R: Files<File = File> + Log>(
    rt: &R,
    path: &str,
    file: Option<File>,
    behind: usize,
    whole: usize,
) -> io::Result<Synced<File>> {
    let file = match file {
        Some(file) => file,
        None => OpenOptions::new().append(true).create(true).open(rt, path)?,
    };
    if behind > 0 {
        file.set_len(whole as u64)?;
        warn!(rt; "{path}: {behind} bytes of a line that was not written to its end");
    }
    file.sync_all()?;
    Ok(Synced::new(file, whole as u64))
}

/// Opens an empty file at a path for reading and appending.
pub(crate) fn open_empty<R: Files<File = File>>(rt: &R, path: &str) -> io::Result<File> {
    let mut options = OpenOptions::new();
    options.read(true).append(true).create(true);
    let file = options.open(rt, path)?;
    file.set_len(0)?;
    Ok(file)
}
