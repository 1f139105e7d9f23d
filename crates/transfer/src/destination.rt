// Where a message or a sheet that was written goes: to the file OUT, or to standard output.
ghost use Rattle.std.specs.Prelude.{◌≡◌};
ghost use Rattle.transfer.specs.Destinations.{spares_input, writes};

use crate::loaded::Input;
use crate::{loaded, named};
use answers::outcome::Outcome;
use answers::refusal;
use files::identity::Identity;
use files::{identity, report, saving};
use inputs::command::Question;
use inputs::{arguments, command, input};
use printing::print;
use printing::print::Page;
use std::io::{Error, ErrorKind};

// Whether the question writes a file.
#[tactic(auto, unfolding(crate::specs::Destinations::writes))]
pub fn writes(question: Question) -> bool
    ensures { result ≡ writes question }
{
    match question {
        Question::Read { .. } | Question::Show | Question::Dump => false,
        Question::Sheet | Question::Write | Question::Rewrite => true,
    }
}

// Whether OUT may not be the message or the sheet that is asked about. A message may be rewritten in its place.
#[tactic(auto, unfolding(crate::specs::Destinations::spares_input))]
fn spares_input(question: Question) -> bool
    ensures { result ≡ spares_input question }
{
    match question {
        Question::Read { .. } | Question::Show | Question::Dump | Question::Rewrite => false,
        Question::Sheet | Question::Write => true,
    }
}

// The file that argument `i` leads to.
fn identify(rt: &HostRuntime, i: usize) -> Result<Identity, Error> {
    let mut name = io::buffer();
    match named::name(rt, i, &mut name) {
        Ok(n) => identity::of_name(rt, &name[..n]),
        Err(error) => Err(error),
    }
}

// The same, where it does not matter why it cannot be told.
fn find(rt: &HostRuntime, i: usize) -> Option<Identity> {
    identify(rt, i).ok()
}

// `-` is standard output, and so is every name that leads to it: written beside an answer, the two would be mixed up.
pub fn is_output(rt: &HostRuntime) -> bool {
    let i = arguments::plain(rt, command::OUT);
    if input::is_standard(rt, i) {
        return true;
    }
    identity::is_same(find(rt, i), identity::of_output(rt))
}

// What OUT holds, at the start of the room: nothing where it is not there yet, or is no regular file, as standard output is none to read.
pub fn read_old(rt: &HostRuntime, room: &mut [u8]) -> Option<Input> {
    if is_output(rt) {
        return Some(loaded::none());
    }
    let i = arguments::plain(rt, command::OUT);
    match identify(rt, i) {
        Ok(out) => {
            if !identity::is_regular(out) {
                return Some(loaded::none());
            }
        }
        Err(error) => {
            if error.kind() == ErrorKind::NotFound {
                return Some(loaded::none());
            }
        }
    }
    loaded::read(rt, i, room)
}

// Whether OUT is this file. Standard error then says so.
fn is_spared(rt: &HostRuntime, out: Option<Identity>, of: Option<Identity>, reason: &[u8]) -> bool {
    if identity::is_same(out, of) {
        named::complain_of(rt, arguments::plain(rt, command::OUT), reason);
        return true;
    }
    false
}

fn is_table_or_store(
    rt: &HostRuntime,
    out: Option<Identity>,
    table: Option<Identity>,
    store: Option<Identity>,
) -> bool {
    is_spared(rt, out, table, b"is the table, which stays")
        || is_spared(rt, out, store, b"is the settings store, which stays")
}

fn is_read(rt: &HostRuntime, out: Option<Identity>, read: Option<Identity>) -> bool {
    is_spared(rt, out, read, b"is the file that is read, which stays")
}

// Whether OUT is one of the files that are read and must stay.
pub fn is_taken(
    rt: &HostRuntime,
    question: Question,
    table: Option<Identity>,
    store: Option<Identity>,
    read: Option<Identity>,
) -> bool {
    if !writes(question) {
        return false;
    }
    let out = find(rt, arguments::plain(rt, command::OUT));
    if is_table_or_store(rt, out, table, store) {
        return true;
    }
    if spares_input(question) {
        return is_read(rt, out, read);
    }
    false
}

// The same of a ledger, which is none of them.
pub fn is_input(
    rt: &HostRuntime,
    table: Option<Identity>,
    store: Option<Identity>,
    tape: Option<Identity>,
) -> bool {
    let out = find(rt, arguments::plain(rt, command::OUT));
    is_table_or_store(rt, out, table, store) || is_read(rt, out, tape)
}

// The line of an answer whose bytes are in OUT.
pub fn print_done(page: &mut Page, length: usize) -> Outcome {
    print::text(page, b"done ");
    print::number(page, length);
    print::end_line(page);
    Outcome::Answered
}

// The answer's line where the bytes were saved, or were not.
fn say_saved(page: &mut Page, is_saved: bool, length: usize) -> Outcome {
    if is_saved {
        return print_done(page, length);
    }
    refusal::fail(page)
}

fn save_at(rt: &HostRuntime, i: usize, bytes: &[u8]) -> bool {
    let mut name = io::buffer();
    match named::name(rt, i, &mut name) {
        Ok(n) => saving::save(rt, &name[..n], bytes),
        Err(error) => {
            report::fail(rt, b"argument", error);
            false
        }
    }
}

fn create_at(rt: &HostRuntime, i: usize, bytes: &[u8]) -> bool {
    let mut name = io::buffer();
    match named::name(rt, i, &mut name) {
        Ok(n) => saving::save_new(rt, &name[..n], bytes),
        Err(error) => {
            report::fail(rt, b"argument", error);
            false
        }
    }
}

// The file that argument `i` names becomes these bytes, or stays as it is.
pub fn replace(rt: &HostRuntime, page: &mut Page, i: usize, bytes: &[u8]) -> Outcome {
    let is_saved = save_at(rt, i, bytes);
    say_saved(page, is_saved, bytes.len())
}

// The same, where there is no such file yet.
pub fn create(rt: &HostRuntime, page: &mut Page, i: usize, bytes: &[u8]) -> Outcome {
    let is_saved = create_at(rt, i, bytes);
    say_saved(page, is_saved, bytes.len())
}

fn send(rt: &HostRuntime, page: &mut Page, bytes: &[u8]) -> Outcome {
    let is_sent = saving::write_output(rt, bytes);
    say_saved(page, is_sent, bytes.len())
}

// The first `length` bytes of the room go to OUT.
pub fn save(rt: &HostRuntime, page: &mut Page, room: &[u8], length: usize) -> Outcome {
    let bytes = rows::part(room, 0, length);
    if is_output(rt) {
        return send(rt, page, bytes);
    }
    replace(rt, page, arguments::plain(rt, command::OUT), bytes)
}
