// The command `blink`: the public questions, asked of files. What it asks of `codec` is stated there, and what comes of it is stated here; what
// it prints, loads and saves has no contract.
#![tactic(auto)]

mod check;
mod output;
mod rooms;
mod settings_store;

ghost use Rattle.std.specs.Prelude.{◌≡◌};
ghost use Rattle.cli.specs.Questions.{room_of, customer_of};

use answers::context::Context;
use answers::outcome::Outcome;
use answers::{outcome, questions, refusal};
use files::loading;
use inputs::command::{Command, Question};
use inputs::{arguments, command, help, options, request};
use printing::print;
use printing::print::Page;
use rooms::Rooms;
use transfer::loaded::Input;
use transfer::{destination, loaded, named};

// WORDS

fn print_help(page: &mut Page) -> Outcome {
    let text = help::text();
    print::text(page, &text);
    Outcome::Answered
}

fn print_version(page: &mut Page) -> Outcome {
    let text = help::version();
    print::text(page, &text);
    Outcome::Answered
}

fn print_faults(page: &mut Page) -> Outcome {
    let text = faults::list();
    print::text(page, &text);
    Outcome::Answered
}

fn print_fault(rt: &HostRuntime, page: &mut Page, number: u8) -> Outcome {
    if faults::copy_words(number, &mut [0u8; 0]) == 0 {
        named::complain_of(
            rt,
            arguments::plain(rt, command::NUMBER),
            b"no fault has this number",
        );
        return refusal::fail(page);
    }
    refusal::print_words(page, number);
    print::end_line(page);
    Outcome::Answered
}

// FILES

fn read_table(rt: &HostRuntime, room: &mut [u8]) -> Option<Input> {
    loaded::read(rt, arguments::plain(rt, command::TABLE), room)
}

// The store that the options name. None is an empty one, which has no settings.
fn read_store(rt: &HostRuntime, room: &mut [u8]) -> Option<Input> {
    let Some(i) = options::store(rt) else {
        return Some(loaded::none());
    };
    let store = loaded::read(rt, i, room)?;
    if !settings_store::fits(rt, i, store.length) {
        return None;
    }
    Some(store)
}

fn check_table(rt: &HostRuntime, page: &mut Page, room: &mut [u8]) -> Outcome {
    let Some(table) = read_table(rt, room) else {
        return refusal::fail(page);
    };
    questions::check_table(page, rows::part(room, 0, table.length))
}

fn list_table(rt: &HostRuntime, page: &mut Page, room: &mut [u8]) -> Outcome {
    let Some(table) = read_table(rt, room) else {
        return refusal::fail(page);
    };
    questions::list_table(page, rows::part(room, 0, table.length))
}

// Messages that are files, or those of a tape.
fn check_messages(
    rt: &HostRuntime,
    page: &mut Page,
    command: Command,
    customer: u16,
    tables: &mut [u8],
    stores: &mut [u8],
    messages: &mut [u8],
    scratch: &mut [u8],
) -> Outcome {
    let Some(table) = read_table(rt, tables) else {
        return refusal::fail(page);
    };
    let Some(store) = read_store(rt, stores) else {
        return refusal::fail(page);
    };
    let context = Context {
        table: rows::part(tables, 0, table.length),
        store: rows::part(stores, 0, store.length),
        customer,
    };
    match command {
        Command::Tape => check::check_tape(rt, page, context, scratch),
        _ => check::check_messages(rt, page, context, messages, scratch),
    }
}

// How much room the input takes: one byte more than a sheet or a message may have, so that a longer one is refused by its number.
#[tactic(auto, unfolding(crate::specs::Questions::room_of))]
fn room_of(question: Question) -> usize
    ensures { result ≡ room_of question }
{
    match question {
        Question::Read { .. }
        | Question::Show
        | Question::Dump
        | Question::Sheet
        | Question::Rewrite => 65537,
        Question::Write => 1048577,
    }
}

// Questions whose answer is text.
fn answer_in_text(
    page: &mut Page,
    question: Question,
    context: Context,
    message: &[u8],
    scratch: &mut [u8],
    sheet: &mut [u8],
    labels: &mut [u64],
) -> Outcome {
    match question {
        Question::Read { field, item } => {
            questions::read(page, context, message, scratch, field, item)
        }
        Question::Dump => questions::dump(page, context, message, scratch, labels),
        _ => questions::show(page, context, message, scratch, sheet),
    }
}

// Questions whose answer goes to OUT.
fn answer_in_bytes(
    rt: &HostRuntime,
    page: &mut Page,
    question: Question,
    context: Context,
    input: &[u8],
    scratch: &mut [u8],
    sheet: &mut [u8],
    output: &mut [u8],
) -> Outcome {
    match question {
        Question::Sheet => output::sheet(rt, page, context, input, scratch, sheet),
        Question::Write => output::write(rt, page, context.table, input, output),
        _ => output::rewrite(rt, page, context, input, scratch, sheet, output),
    }
}

fn answer_with(
    rt: &HostRuntime,
    page: &mut Page,
    question: Question,
    context: Context,
    input: &[u8],
    scratch: &mut [u8],
    sheet: &mut [u8],
    output: &mut [u8],
    labels: &mut [u64],
) -> Outcome {
    if destination::writes(question) {
        return answer_in_bytes(rt, page, question, context, input, scratch, sheet, output);
    }
    answer_in_text(page, question, context, input, scratch, sheet, labels)
}

// How long the files of a question are, which stand at the start of their rooms.
#[derive(Clone, Copy)]
struct Lengths {
    table: usize,
    store: usize,
    input: usize,
}

// Reads them all. Where one cannot be read, or would be written over, standard error says so.
fn read_all(
    rt: &HostRuntime,
    question: Question,
    tables: &mut [u8],
    stores: &mut [u8],
    messages: &mut [u8],
) -> Option<Lengths> {
    let table = read_table(rt, tables)?;
    let store = read_store(rt, stores)?;
    let input = loaded::read_most(
        rt,
        arguments::plain(rt, command::INPUT),
        messages,
        room_of(question),
    )?;
    if destination::is_taken(rt, question, table.of, store.of, input.of) {
        return None;
    }
    Some(Lengths {
        table: table.length,
        store: store.length,
        input: input.length,
    })
}

// The answer's lines are on standard error where standard output takes the bytes.
fn direct(rt: &HostRuntime, page: &mut Page, question: Question) {
    if destination::writes(question) {
        if destination::is_output(rt) {
            print::redirect(page);
        }
    }
}

// A question about one message or sheet.
fn ask(
    rt: &HostRuntime,
    page: &mut Page,
    question: Question,
    customer: u16,
    tables: &mut [u8],
    stores: &mut [u8],
    messages: &mut [u8],
    scratch: &mut [u8],
    sheet: &mut [u8],
    output: &mut [u8],
    labels: &mut [u64],
) -> Outcome {
    direct(rt, page, question);
    let Some(files) = read_all(rt, question, tables, stores, messages) else {
        return refusal::fail(page);
    };
    answer_with(
        rt,
        page,
        question,
        Context {
            table: rows::part(tables, 0, files.table),
            store: rows::part(stores, 0, files.store),
            customer,
        },
        rows::part(messages, 0, files.input),
        scratch,
        sheet,
        output,
        labels,
    )
}

// THE COMMAND

// With no options a message is asked about with no store, so that nothing is ignored.
#[tactic(auto, unfolding(crate::specs::Questions::customer_of))]
fn customer_of(options: Option<u16>) -> u16
    ensures { result ≡ customer_of options }
{
    options.unwrap_or(0)
}

// What needs no room.
fn run_words(rt: &HostRuntime, page: &mut Page, command: Command) -> Outcome {
    match command {
        Command::Help => print_help(page),
        Command::Version => print_version(page),
        Command::Faults => print_faults(page),
        Command::Fault { number } => print_fault(rt, page, number),
        _ => refusal::fail(page),
    }
}

// What needs the rooms of a table or a store alone.
fn run_alone(
    rt: &HostRuntime,
    page: &mut Page,
    command: Command,
    tables: &mut [u8],
    stores: &mut [u8],
) -> Outcome {
    match command {
        Command::CheckTable => check_table(rt, page, tables),
        Command::ListTable => list_table(rt, page, tables),
        Command::Store { question } => settings_store::ask(rt, page, question, stores),
        Command::NewStore { records } => settings_store::create(rt, page, records, stores),
        _ => run_words(rt, page, command),
    }
}

fn run(
    rt: &HostRuntime,
    page: &mut Page,
    tables: &mut [u8],
    stores: &mut [u8],
    messages: &mut [u8],
    scratch: &mut [u8],
    sheet: &mut [u8],
    output: &mut [u8],
    labels: &mut [u64],
) -> Outcome {
    let Ok(request) = request::read(rt) else {
        return refusal::fail(page);
    };
    let customer = customer_of(request.customer);
    let command = request.command;
    match command {
        Command::Message { question } => ask(
            rt, page, question, customer, tables, stores, messages, scratch, sheet, output, labels,
        ),
        Command::Check | Command::Tape => check_messages(
            rt, page, command, customer, tables, stores, messages, scratch,
        ),
        _ => run_alone(rt, page, command, tables, stores),
    }
}

// An answer that did not reach whoever asked is an error.
fn finish(page: &mut Page, outcome: Outcome) -> i32 {
    print::flush(page);
    if print::is_lost(page) {
        return outcome::status(Outcome::Failed);
    }
    outcome::status(outcome)
}

fn run_in(rt: &HostRuntime, rooms: &mut Rooms) -> i32 {
    let mut page = print::new_page(rt);
    let outcome = run(
        rt,
        &mut page,
        &mut rooms.tables,
        &mut rooms.stores,
        &mut rooms.messages,
        &mut rooms.scratch,
        &mut rooms.sheet,
        &mut rooms.output,
        &mut rooms.labels,
    );
    finish(&mut page, outcome)
}

// The whole command, by the arguments that the program was started with; the answer is its exit status.
pub fn blink_run(rt: &HostRuntime) -> i32 {
    loading::hold_standard(rt);
    match rooms::make(rt.alloc()) {
        Ok(mut rooms) => run_in(rt, &mut rooms),
        Err(_) => {
            rooms::complain();
            outcome::status(Outcome::Failed)
        }
    }
}
