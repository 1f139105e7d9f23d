// Runs the stored questions through the codec and the tape's reader and prints one answer a line, to be compared with
// what the second program answered. README.md describes the files. What is read of them and printed has no contract.
#![tactic(auto)]

mod held;
mod input;
mod print;
mod record;
mod room;

ghost use Rattle.std.specs.Prelude.{IfOk, ◌≡◌, ◌%◌, ◌^◌, length};
ghost use Rattle.opening.specs.Opening.{under};
ghost use Rattle.tape.specs.Tape.{tape_step};

use codec::{Ignored, Part};
use held::{Context, Held};
use input::Input;
use print::{Answer, Verdict, Words};
use record::Record;
use room::adler32;
use std::alloc::{AllocError, Global};
use std::fs::File;
use std::os::fd::AsRawFd;

// A file has fewer records than this.
const MOST: usize = 100000;

// No input of a question is longer.
const LONGEST: usize = 1048592;

const FILES: [&str; 10] = [
    "table.vec",
    "check.vec",
    "sheet.vec",
    "write.vec",
    "rewrite.vec",
    "number.vec",
    "bytes.vec",
    "store.vec",
    "settings.vec",
    "tape.vec",
];

// The lowest bytes of a record's number.

fn low_two(x: u64) -> u16
    ensures { result ≡ x % 2 ^ 16 }
{
    (x % 65536) as u16
}

fn low_one(x: u64) -> u8
    ensures { result ≡ x % 2 ^ 8 }
{
    (x % 256) as u8
}

fn answer_check(
    alloc: Global,
    context: Context,
    record: &Record,
    message: &[u8],
) -> Result<String, AllocError> {
    let mut scratch = room::lent(alloc, record.scratch)?;
    let checked = codec::check_message(
        context.table,
        context.store,
        context.customer,
        message,
        &mut scratch,
    );
    format!(in alloc; "{} {}", Verdict(checked.err()), adler32(&scratch))
}

fn answer_sheet(
    alloc: Global,
    context: Context,
    record: &Record,
    message: &[u8],
) -> Result<String, AllocError> {
    let mut scratch = room::lent(alloc, record.scratch)?;
    let mut sheet = room::lent(alloc, record.sheet)?;
    let written = codec::message_to_sheet(
        context.table,
        context.store,
        context.customer,
        message,
        &mut scratch,
        &mut sheet,
    );
    format!(in alloc;
        "{} {} {} {}",
        Verdict(written.err()),
        written.unwrap_or(0),
        adler32(&scratch),
        adler32(&sheet),
    )
}

fn answer_write(
    alloc: Global,
    context: Context,
    record: &Record,
    sheet: &[u8],
) -> Result<String, AllocError> {
    let mut output = room::lent(alloc, record.output)?;
    let written = codec::sheet_to_message(context.table, sheet, &mut output);
    format!(in alloc;
        "{} {} {}",
        Verdict(written.err()),
        written.unwrap_or(0),
        adler32(&output),
    )
}

fn answer_rewrite(
    alloc: Global,
    context: Context,
    record: &Record,
    message: &[u8],
) -> Result<String, AllocError> {
    let mut scratch = room::lent(alloc, record.scratch)?;
    let mut sheet = room::lent(alloc, record.sheet)?;
    let mut output = room::lent(alloc, record.output)?;
    let written = codec::rewrite(
        context.table,
        context.store,
        context.customer,
        message,
        &mut scratch,
        &mut sheet,
        &mut output,
    );
    format!(in alloc;
        "{} {} {} {} {}",
        Verdict(written.err()),
        written.unwrap_or(0),
        adler32(&scratch),
        adler32(&sheet),
        adler32(&output),
    )
}

fn answer_number(
    alloc: Global,
    context: Context,
    record: &Record,
    message: &[u8],
) -> Result<String, AllocError> {
    let mut scratch = room::lent(alloc, record.scratch)?;
    let number = codec::read_number(
        context.table,
        context.store,
        context.customer,
        message,
        &mut scratch,
        record.field as usize,
        record.item as usize,
    );
    format!(in alloc;
        "{} {} {}",
        Verdict(number.err()),
        Words(number.ok()),
        adler32(&scratch),
    )
}

// The part, its twin question, and where it lies.
fn answer_bytes(
    alloc: Global,
    context: Context,
    record: &Record,
    message: &[u8],
) -> Result<String, AllocError> {
    let Context {
        table,
        store,
        customer,
    } = context;
    let field = record.field as usize;
    let item = record.item as usize;
    let mut scratch = room::lent(alloc, record.scratch)?;
    let read = codec::read_bytes_verdict(
        table,
        store,
        customer,
        message,
        &mut scratch,
        field,
        item,
    );
    room::fill(&mut scratch);
    let Part { start, length } = codec::find_bytes(
        table,
        store,
        customer,
        message,
        &mut scratch,
        field,
        item,
    ).unwrap_or(Part {
        start: 0,
        length: 0,
    });
    room::fill(&mut scratch);
    let part = codec::read_bytes(table, store, customer, message, &mut scratch, field, item);
    format!(in alloc;
        "{} {start} {length} {} {}",
        Verdict(read.err()),
        adler32(part),
        adler32(&scratch),
    )
}

// The flags of a setting, all 0 on a refusal.
fn answer_settings(alloc: Global, record: &Record, store: &[u8]) -> Result<String, AllocError> {
    let settings = codec::read_settings(store, low_two(record.field), low_two(record.item));
    let Ignored {
        absent,
        pads,
        unused,
    } = settings.unwrap_or(Ignored {
        absent: false,
        pads: false,
        unused: false,
    });
    format!(in alloc;
        "{} {} {} {}",
        Verdict(settings.err()),
        u8::from(absent),
        u8::from(pads),
        u8::from(unused),
    )
}

// The store that is lent is the input itself.
fn answer_addition(alloc: Global, record: &Record, store: &mut [u8]) -> Result<String, AllocError> {
    let item = record.item;
    let added = codec::add_settings(
        store,
        low_two(record.field),
        low_two(item),
        low_one(item >> 16),
        low_one(item >> 24),
        low_one(item >> 32),
    );
    format!(in alloc; "{} {}", Verdict(added.err()), adler32(store))
}

// Writes the answer to one step, where it is asked for. Answers where the next one stands.
fn answer_step(
    alloc: Global,
    context: Context,
    tape: &[u8],
    at: usize,
    scratch: &mut [u8],
    asked: bool,
) -> Result<usize, AllocError>
    ensures { IfOk result (λ next. next ≡ (tape_step context.entry.table.now tape.now at (under context.entry.store.now context.entry.customer (length scratch.old))).next) }
{
    let Context {
        table,
        store,
        customer,
    } = context;
    let step = tape::step_at(table, store, customer, tape, at, scratch);
    let next = step.next;
    if asked {
        let part = tape::part_at(tape, at, step.answer);
        print::text(&format!(in alloc;
            "{}",
            Answer {
                step,
                part,
                scratch
            }
        )?);
    }
    Ok(next)
}

// All steps from a place on; the last finds that the tape has ended. The first ones may be left out. They are written as
// they come, since a tape may have as many as it has words; behind the last one comes the line's end.
fn answer_tape(
    alloc: Global,
    context: Context,
    record: &Record,
    tape: &[u8],
) -> Result<String, AllocError> {
    let mut scratch = room::lent(alloc, record.scratch)?;
    let mut at = record.field as usize;
    let mut left_out = record.item as usize;
    while at < tape.len() {
        let asked = left_out == 0;
        at = answer_step(alloc, context, tape, at, &mut scratch, asked)?;
        if asked {
            print::text("; ");
        } else {
            left_out -= 1;
        }
        room::fill(&mut scratch);
    }
    answer_step(alloc, context, tape, at, &mut scratch, true)?;
    Ok(String::new(alloc))
}

// The answer to a question, by its kind; empty where a buffer to lend is too long.
fn answer(
    alloc: Global,
    context: Context,
    record: &Record,
    input: &mut [u8],
) -> Result<String, AllocError> {
    if !record.is_lendable() {
        return Ok(String::new(alloc));
    }
    match record.kind {
        2 => answer_check(alloc, context, record, input),
        3 => answer_sheet(alloc, context, record, input),
        4 => answer_write(alloc, context, record, input),
        5 => answer_rewrite(alloc, context, record, input),
        6 => answer_number(alloc, context, record, input),
        7 => answer_bytes(alloc, context, record, input),
        9 => format!(in alloc; "{}", Verdict(codec::check_store(input).err())),
        10 => answer_settings(alloc, record, input),
        12 => answer_tape(alloc, context, record, input),
        _ => answer_addition(alloc, record, input),
    }
}

// The line for the table in force, none where it is longer than its room.
fn ask_table(alloc: Global, held: &Held) -> Result<(), AllocError> {
    if let Some(table) = held.table.get() {
        print::line(&format!(in alloc; "{}", Verdict(codec::check_table(table).err()))?);
    }
    Ok(())
}

// The line for any other question, none where the input, or what is in force, is longer than its room.
fn ask(alloc: Global, held: &Held, record: &Record, input: &mut Input) -> Result<(), AllocError> {
    let Some(context) = held.context() else {
        return Ok(());
    };
    let length = input.length;
    if input.room.len() < length {
        return Ok(());
    }
    print::line(&answer(alloc, context, record, &mut input.room[..length])?);
    Ok(())
}

fn answer_file(rt: &HostRuntime, name: &str) -> std::io::Result<()> {
    let alloc = rt.alloc();
    let file = File::open(rt, name)?;
    let fd = file.as_raw_fd();
    let mut held = Held::new(alloc)?;
    let mut input = Input::new(alloc, LONGEST)?;
    for _ in 0..MOST {
        let Some(record) = record::next(fd) else {
            break;
        };
        match record.kind {
            0 | 8 => held.hold(fd, &record),
            1 => {
                held.hold(fd, &record);
                ask_table(alloc, &held)?;
            }
            _ => {
                input.load(fd, &record);
                ask(alloc, &held, &record, &mut input)?;
            }
        }
    }
    Ok(())
}

fn main(rt: HostRuntime) -> std::io::Result<()> {
    for name in FILES {
        answer_file(&rt, name)?;
    }
    Ok(())
}
