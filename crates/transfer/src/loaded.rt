// Files that an argument names, read into their rooms.
use crate::named;
use files::identity::Identity;
use files::loading::Source;
use files::{identity, loading, report};

// A file at the start of its room.
#[derive(Clone, Copy)]
pub struct Input {
    pub length: usize,
    pub of: Option<Identity>,
}

// No file, which is an empty one.
pub fn none() -> Input {
    Input {
        length: 0,
        of: None,
    }
}

// A file that cannot be read is `None`: standard error has said why.

fn read_open(rt: &HostRuntime, mut source: Source, name: &[u8], room: &mut [u8]) -> Option<Input> {
    let of = identity::of_open(rt, &source);
    match loading::load(rt, &mut source, room) {
        Ok(length) => Some(Input { length, of }),
        Err(error) => {
            report::fail(rt, name, error);
            None
        }
    }
}

fn read_named(rt: &HostRuntime, name: &[u8], room: &mut [u8]) -> Option<Input> {
    match loading::open_input(rt, name) {
        Ok(source) => read_open(rt, source, name, room),
        Err(error) => {
            report::fail(rt, name, error);
            None
        }
    }
}

// The file that argument `i` names. One that is longer than the room fills it: the rooms are a byte longer than what is allowed, so
// that the question refuses it.
pub fn read(rt: &HostRuntime, i: usize, room: &mut [u8]) -> Option<Input> {
    let mut name = io::buffer();
    match named::name(rt, i, &mut name) {
        Ok(n) => read_named(rt, &name[..n], room),
        Err(error) => {
            report::fail(rt, b"argument", error);
            None
        }
    }
}

// The same, with as much of the room as is asked for.
pub fn read_most(rt: &HostRuntime, i: usize, room: &mut [u8], most: usize) -> Option<Input> {
    if room.len() < most {
        return read(rt, i, room);
    }
    read(rt, i, &mut room[0..most])
}
