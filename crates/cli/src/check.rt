// Messages checked under one table: one with all that can be said of it, or several, or those of a tape, with a line for each.
use crate::rooms;
use answers::context::Context;
use answers::outcome::Outcome;
use answers::{outcome, questions, refusal};
use inputs::arguments::PlainIndices;
use inputs::{arguments, command};
use printing::print::Page;
use printing::{letters, print};
use transfer::loaded::Input;
use transfer::{loaded, named};

// A message has at most 65536 bytes, and one byte more shows that it has not.
const ROOM: usize = 65537;

fn check_one(
    rt: &HostRuntime,
    page: &mut Page,
    context: Context,
    room: &mut [u8],
    scratch: &mut [u8],
) -> Outcome {
    let i = arguments::plain(rt, command::INPUT);
    let Some(read) = loaded::read_most(rt, i, room, ROOM) else {
        return refusal::fail(page);
    };
    let message = rows::part(room, 0, read.length);
    questions::check(page, context, message, scratch)
}

// The name of the file that argument `i` names.
fn print_name(rt: &HostRuntime, page: &mut Page, i: usize) {
    letters::print_text(page, arguments::read(rt, i, &mut io::buffer()));
    print::text(page, b": ");
}

// The line of the message that argument `i` names.
fn check_at(
    rt: &HostRuntime,
    page: &mut Page,
    i: usize,
    context: Context,
    room: &mut [u8],
    scratch: &mut [u8],
) -> Outcome {
    let read = loaded::read_most(rt, i, room, ROOM);
    print_name(rt, page, i);
    let Some(read) = read else {
        return refusal::fail(page);
    };
    let message = rows::part(room, 0, read.length);
    questions::check_briefly(page, context, message, scratch)
}

fn check_each(
    rt: &HostRuntime,
    page: &mut Page,
    context: Context,
    room: &mut [u8],
    scratch: &mut [u8],
) -> Outcome {
    let mut worst = Outcome::Answered;
    for i in PlainIndices::new(rt).skip(command::INPUT - 1) {
        let next = check_at(rt, page, i, context, room, scratch);
        worst = outcome::worse(worst, next);
    }
    worst
}

// A message has an answer for people, several have a line each.
pub fn check_messages(
    rt: &HostRuntime,
    page: &mut Page,
    context: Context,
    room: &mut [u8],
    scratch: &mut [u8],
) -> Outcome {
    if command::INPUT < arguments::count_plain(rt) {
        return check_each(rt, page, context, room, scratch);
    }
    check_one(rt, page, context, room, scratch)
}

// The most bytes of a file that a room of this length holds whole: one more shows that it may be longer.
fn most(room: usize) -> usize {
    if room == 0 {
        return 0;
    }
    room - 1
}

// Whether the room holds all of the file that argument `i` names, of which it was filled with so many bytes.
fn holds(rt: &HostRuntime, room: &[u8], i: usize, length: usize) -> bool {
    if room.len() <= length {
        named::complain_long(rt, i, most(room.len()));
        return false;
    }
    true
}

fn read_tape(rt: &HostRuntime, room: &mut [u8]) -> Option<Input> {
    let i = arguments::plain(rt, command::INPUT);
    let tape = loaded::read(rt, i, room)?;
    if !holds(rt, room, i, tape.length) {
        return None;
    }
    Some(tape)
}

pub fn check_tape(
    rt: &HostRuntime,
    page: &mut Page,
    context: Context,
    scratch: &mut [u8],
) -> Outcome {
    match rooms::tape(rt.alloc()) {
        Ok(mut room) => check_tape_in(rt, page, context, &mut room, scratch),
        Err(_) => rooms::fail(page),
    }
}

fn check_tape_in(
    rt: &HostRuntime,
    page: &mut Page,
    context: Context,
    room: &mut [u8],
    scratch: &mut [u8],
) -> Outcome {
    let Some(read) = read_tape(rt, room) else {
        return refusal::fail(page);
    };
    let tape = rows::part(room, 0, read.length);
    tapes::check_tape(page, context, tape, scratch)
}
