// Standard descriptors, and files read into a room.
ghost use Rattle.std.specs.Prelude.{◌≤◌, IfOk, length};

use crate::paths;
use std::fs::File;
use std::io;
use std::io::Read;
use std::os::fd::{AsRawFd, IntoRawFd};

// Standard input, and the last of the standard descriptors.

const INPUT: i32 = 0;

const ERRORS: i32 = 2;

// The lowest free number is taken, where it is a standard one: for reading, so that what is written there fails, and 0 for writing, so
// that what is read there fails. Answers whether there was one.
fn hold_one(rt: &HostRuntime) -> bool {
    let Ok(file) = File::open(rt, "/dev/null") else {
        return false;
    };
    let fd = file.as_raw_fd();
    if ERRORS < fd {
        return false;
    }
    if fd == INPUT {
        drop(file);
        return hold_input(rt);
    }
    hold(file);
    true
}

// A file that is given out as its number is not closed again.
fn hold(file: File) {
    file.into_raw_fd();
}

fn hold_input(rt: &HostRuntime) -> bool {
    File::create(rt, "/dev/null").map(hold).is_ok()
}

// Takes each standard descriptor that the caller closed, so that no file gets its number.
pub fn hold_standard(rt: &HostRuntime) {
    for _ in INPUT..=ERRORS {
        if !hold_one(rt) {
            return;
        }
    }
}

// What is read. A file is closed where it is dropped.
#[derive(Drop)]
pub enum Source {
    // Standard input.
    Standard,
    Named(File),
}

// `-` is standard input.
pub fn open_input(rt: &HostRuntime, name: &[u8]) -> io::Result<Source> {
    if paths::is_dash(name) {
        return Ok(Source::Standard);
    }
    let file = File::open(rt, paths::text(name)?)?;
    Ok(Source::Named(file))
}

// How many bytes stand at the start of the room: all of the input, or as many as the room takes.
pub fn load(rt: &HostRuntime, source: &mut Source, room: &mut [u8]) -> io::Result<usize>
    ensures { IfOk result (λ n. n ≤ length room.new) }
{
    match source {
        Source::Standard => load_all(&mut rt.stdin(), room),
        Source::Named(file) => load_all(file, room),
    }
}

fn load_all<R: Read>(from: &mut R, room: &mut [u8]) -> io::Result<usize>
    ensures { IfOk result (λ n. n ≤ length room.new) }
{
    let mut n = 0;
    while n < room.len() {
        let more = from.read(&mut room[n..])?;
        if more == 0 {
            break;
        }
        n += more;
    }
    Ok(n)
}
