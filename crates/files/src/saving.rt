// Saving: the file of a name has all of the bytes, or is as it was. A new file is written beside it and takes its name at the end. Where the
// name is a link, the file that it leads to is replaced, and the link stays. The new file has the old one's mode, and its owner and group
// where the system allows it.
ghost use Rattle.std.specs.Prelude.{◌≡◌};
ghost use Rattle.files.specs.Identities.{kept_mode};

use crate::identity::Identity;
use crate::{identity, paths, report};
use std::fs::{File, OpenOptions, Permissions};
use std::io::{Error, ErrorKind, Write};
use std::os::unix::fs::{PermissionsExt, fchown};
use std::path::PathBuf;
use std::{fs, process};

// The kernel follows no more.
const MOST_LINKS: usize = 40;

// The link's text, where the name is a link. A text that is not UTF-8 cannot be followed.
fn read_link(rt: &HostRuntime, name: &[u8]) -> Result<Option<PathBuf>, Error> {
    match fs::read_link(rt, paths::text(name)?) {
        Ok(link) => Ok(Some(link)),
        Err(error) if error.raw_os_error().is_some() => Ok(None),
        Err(error) if error.kind() == ErrorKind::InvalidFilename => Err(paths::no_text()),
        Err(error) => Err(error),
    }
}

// The name at the end of the links.
fn follow(rt: &HostRuntime, name: &[u8]) -> Result<Vec<u8>, Error> {
    let mut name = name.to_vec(rt.alloc())?;
    for _ in 0..MOST_LINKS {
        let Some(link) = read_link(rt, &name)? else {
            break;
        };
        name = paths::joined_path(rt.alloc(), &name, link.as_str().as_bytes())?;
    }
    Ok(name)
}

// Whether the old file may be written, which it is not: a new one takes its name.
fn may_write(rt: &HostRuntime, name: &[u8]) -> Result<(), Error> {
    let path = paths::text(name)?;
    OpenOptions::new().write(true).open(rt, path)?;
    Ok(())
}

// The name of a new file beside this one.
fn name_beside(rt: &HostRuntime, name: &[u8], letter: u8) -> Result<Vec<u8>, Error> {
    let short = paths::new_name(rt.alloc(), process::id(rt.process()), letter)?;
    Ok(paths::joined_path(rt.alloc(), name, &short)?)
}

// A file that is not there yet. The system narrows its mode, by the process's umask.
fn create_new(rt: &HostRuntime, name: &[u8]) -> Result<File, Error> {
    let path = paths::text(name)?;
    OpenOptions::new()
        .write(true)
        .create_new(true)
        .open(rt, path)
}

#[derive(Drop)]
struct New {
    file: File,
    name: Vec<u8>,
}

// What the system says of a file that is there.
const EXISTS: i32 = 17;

// Makes a file beside this one. Each name has another letter, so that a file which a killed command left stands in no way.
fn create_beside(rt: &HostRuntime, name: &[u8]) -> Result<New, Error> {
    for letter in b'a'..b'z' {
        let name = name_beside(rt, name, letter)?;
        match create_new(rt, &name) {
            Ok(file) => return Ok(New { file, name }),
            Err(error) if error.kind() == ErrorKind::AlreadyExists => {}
            Err(error) => return Err(error),
        }
    }
    Err(Error::from_raw_os_error(EXISTS))
}

// The owner and the group, or the group alone. Answers whether it was both.
fn give(file: &File, owner: u32, group: u32) -> bool {
    if fchown(file, Some(owner), Some(group)).is_ok() {
        return true;
    }
    let _ = fchown(file, None, Some(group));
    false
}

// The bits of a mode that a new file takes over. With another owner it takes none by which it would run as its owner.
fn kept_mode(mode: u32, is_given: bool) -> u32
    ensures { result ≡ kept_mode mode is_given }
{
    if is_given { mode % 4096 } else { mode % 512 }
}

// Makes a new file what the old one is.
fn take_after(file: &File, old: Option<Identity>) -> Result<(), Error> {
    let Some(old) = old else {
        return Ok(());
    };
    let is_given = give(file, old.owner, old.group);
    file.set_permissions(Permissions::from_mode(kept_mode(old.mode, is_given)))
}

// All of the bytes, as far as the disk.
fn fill(file: &mut File, bytes: &[u8]) -> Result<(), Error> {
    file.write_all(bytes)?;
    file.sync_all()
}

// Closes it whatever comes. What closing would say is lost: the bytes are on the disk.
fn fill_new(mut file: File, old: Option<Identity>, bytes: &[u8]) -> Result<(), Error> {
    take_after(&file, old)?;
    fill(&mut file, bytes)
}

fn rename(rt: &HostRuntime, from: &[u8], to: &[u8]) -> Result<(), Error> {
    let from = paths::text(from)?;
    let to = paths::text(to)?;
    fs::rename(rt, from, to)
}

fn remove(rt: &HostRuntime, name: &[u8]) -> Result<(), Error> {
    let path = paths::text(name)?;
    fs::remove_file(rt, path)
}

// The new file is removed where it was not written whole, or cannot take the name.
fn rename_after(
    rt: &HostRuntime,
    new: &[u8],
    name: &[u8],
    written: Result<(), Error>,
) -> Result<(), Error> {
    let renamed = written.and_then(|()| rename(rt, new, name));
    if renamed.is_err() {
        let _ = remove(rt, new);
    }
    renamed
}

// Replaces the file of a name that is no link.
fn replace(
    rt: &HostRuntime,
    name: &[u8],
    old: Option<Identity>,
    bytes: &[u8],
) -> Result<(), Error> {
    if old.is_some() {
        may_write(rt, name)?;
    }
    let new = create_beside(rt, name)?;
    let written = fill_new(new.file, old, bytes);
    rename_after(rt, &new.name, name, written)
}

// Writes to what is no regular file, as a pipe or a device.
fn write_straight(rt: &HostRuntime, name: &[u8], bytes: &[u8]) -> Result<(), Error> {
    let path = paths::text(name)?;
    let mut file = File::create(rt, path)?;
    file.write_all(bytes)
}

fn save_over(rt: &HostRuntime, name: &[u8], bytes: &[u8]) -> Result<(), Error> {
    let old = match identity::of_name(rt, name) {
        Ok(old) if identity::is_regular(old) => Some(old),
        Ok(_) => return write_straight(rt, name, bytes),
        Err(error) if error.kind() == ErrorKind::NotFound => None,
        Err(error) => return Err(error),
    };
    let followed = follow(rt, name)?;
    replace(rt, &followed, old, bytes)
}

// Where it failed, standard error says why.
fn is_done(rt: &HostRuntime, name: &[u8], done: Result<(), Error>) -> bool {
    match done {
        Ok(()) => true,
        Err(error) => {
            report::fail(rt, name, error);
            false
        }
    }
}

// Answers whether it was saved. Where it was not, standard error says why.
pub fn save(rt: &HostRuntime, name: &[u8], bytes: &[u8]) -> bool {
    is_done(rt, name, save_over(rt, name, bytes))
}

fn create(rt: &HostRuntime, name: &[u8], bytes: &[u8]) -> Result<(), Error> {
    let mut file = create_new(rt, name)?;
    let filled = fill(&mut file, bytes);
    if filled.is_err() {
        let _ = remove(rt, name);
    }
    filled
}

// The same, of a file that is not there yet. It is removed again where it cannot be written whole.
pub fn save_new(rt: &HostRuntime, name: &[u8], bytes: &[u8]) -> bool {
    is_done(rt, name, create(rt, name, bytes))
}

// Writes to standard output, and calls it so where it cannot be written to.
pub fn write_output(rt: &HostRuntime, bytes: &[u8]) -> bool {
    is_done(rt, b"standard output", rt.stdout().write_all(bytes))
}
