// What the arguments ask for: `named` decides by the command's word and the plain arguments. Where it is nothing, `explain` says why.
ghost use Rattle.std.specs.Prelude.{◌≡◌, ◌≤◌, Some as OptionSome};
ghost use Rattle.inputs.specs.declared.command.Command.TheVariants.{Message};
ghost use Rattle.inputs.specs.Commands.{least_of, most_of, faults_of, check_of, read_of, asked_of, command_of};

use crate::complaints::Complained;
use crate::store_command::Ignored;
use crate::words::Word;
use crate::{arguments, complaints, numbers, store_command, words};

#[derive(Clone, Copy)]
pub enum Command {
    Help,
    Version,
    Faults,
    Fault { number: u8 },
    // The table alone.
    CheckTable,
    // One message or several: the plain arguments from INPUT on.
    Check,
    // Every message of a tape.
    Tape,
    ListTable,
    Message { question: Question },
    Store { question: StoreQuestion },
    NewStore { records: usize },
}

// On a table, and a message or a sheet.
#[derive(Clone, Copy)]
pub enum Question {
    Read { field: usize, item: usize },
    Show,
    Dump,
    Sheet,
    Write,
    Rewrite,
}

// On a settings store.
#[derive(Clone, Copy)]
pub enum StoreQuestion {
    List,
    Get {
        customer: u16,
        version: u16,
    },
    Add {
        customer: u16,
        version: u16,
        ignored: Ignored,
    },
}

// Which plain arguments are what.

const WORD: usize = 1;

pub const NUMBER: usize = 2;

pub const TABLE: usize = 2;

// The message, the sheet or the tape.
pub const INPUT: usize = 3;

pub const OUT: usize = 4;

const FIELD: usize = 4;

const ITEM: usize = 5;

// The number of the last plain argument that a command must have.
fn least(word: Word) -> usize
    ensures { (result ≡ least_of word) × (result ≤ 5) }
{
    match word {
        Word::Help | Word::Version | Word::Faults | Word::Other => WORD,
        Word::Check | Word::Table => TABLE,
        Word::Show | Word::Dump | Word::Tape => INPUT,
        Word::Read => FIELD,
        Word::Sheet | Word::Write | Word::Rewrite => OUT,
        Word::Settings => store_command::LISTED,
        Word::Get | Word::Add => store_command::VERSION,
        Word::New => store_command::RECORDS,
    }
}

// And of the last that it may have.
fn most(word: Word) -> usize
    ensures { result ≡ most_of word }
{
    match word {
        Word::Help | Word::Check | Word::Other => usize::MAX,
        Word::Version => WORD,
        Word::Faults => NUMBER,
        Word::Table => TABLE,
        Word::Show | Word::Dump | Word::Tape => INPUT,
        Word::Read => ITEM,
        Word::Sheet | Word::Write | Word::Rewrite => OUT,
        Word::Settings => store_command::LISTED,
        Word::Get => store_command::VERSION,
        Word::Add => store_command::LAST_FAULT,
        Word::New => store_command::RECORDS,
    }
}

fn about(question: Question) -> Option<Command>
    ensures { result ≡ OptionSome (Message question) }
{
    Some(Command::Message { question })
}

#[tactic(auto, unfolding(crate::specs::Commands::faults_of, crate::specs::Commands::fault_of))]
fn faults(last: usize, number: Option<usize>) -> Option<Command>
    ensures { result ≡ faults_of last number }
{
    if last < NUMBER {
        return Some(Command::Faults);
    }
    let number = u8::try_from(number?).ok()?;
    Some(Command::Fault { number })
}

#[tactic(auto, unfolding(crate::specs::Commands::check_of))]
fn check(last: usize) -> Command
    ensures { result ≡ check_of last }
{
    if last < INPUT {
        Command::CheckTable
    } else {
        Command::Check
    }
}

// The first item, where none is named.
#[tactic(auto, unfolding(crate::specs::Commands::read_of))]
fn read_field(last: usize, field: Option<usize>, item: Option<usize>) -> Option<Command>
    ensures { result ≡ read_of last field item }
{
    let field = field?;
    let item = if last < ITEM { 0 } else { item? };
    about(Question::Read { field, item })
}

// By the word, where the plain arguments are as many as it takes. The numbers are what plain arguments 2, 4 and 5 are.
fn asked(
    word: Word,
    last: usize,
    second: Option<usize>,
    fourth: Option<usize>,
    fifth: Option<usize>,
    ignored: Option<Ignored>,
) -> Option<Command>
    ensures { result ≡ asked_of word last second fourth fifth ignored }
{
    match word {
        Word::Help => Some(Command::Help),
        Word::Version => Some(Command::Version),
        Word::Faults => faults(last, second),
        Word::Check => Some(check(last)),
        Word::Read => read_field(last, fourth, fifth),
        Word::Show => about(Question::Show),
        Word::Dump => about(Question::Dump),
        Word::Tape => Some(Command::Tape),
        Word::Table => Some(Command::ListTable),
        Word::Sheet => about(Question::Sheet),
        Word::Write => about(Question::Write),
        Word::Rewrite => about(Question::Rewrite),
        Word::Settings => Some(store_command::list()),
        Word::Get => store_command::get(fourth, fifth),
        Word::Add => store_command::add(fourth, fifth, ignored),
        Word::New => store_command::create(fourth),
        Word::Other => None,
    }
}

// The same for any number of plain arguments.
#[tactic(auto, unfolding(crate::specs::Commands::command_of))]
fn named(
    word: Word,
    last: usize,
    second: Option<usize>,
    fourth: Option<usize>,
    fifth: Option<usize>,
    ignored: Option<Ignored>,
) -> Option<Command>
    ensures { result ≡ command_of word last second fourth fifth ignored }
{
    if last < least(word) || most(word) < last {
        return None;
    }
    asked(word, last, second, fourth, fifth, ignored)
}

// FROM THE ARGUMENTS

// The command that argument `i` names.
pub fn word_at(rt: &HostRuntime, i: usize) -> Word {
    words::word_of(arguments::read_whole(rt, i, &mut [0; 16]))
}

// `settings` may have a word of its own behind it.
fn read_word(rt: &HostRuntime) -> Word {
    match word_at(rt, arguments::plain(rt, WORD)) {
        Word::Settings => {
            let i = arguments::plain(rt, store_command::LISTED);
            words::store_word(arguments::read_whole(rt, i, &mut [0; 16]))
        }
        word => word,
    }
}

fn decimal(rt: &HostRuntime, number: usize) -> Option<usize> {
    numbers::decimal(rt, arguments::plain(rt, number))
}

// WHY THERE IS NO COMMAND

// What it is called: its word as it was written, or both words.
fn name<'a>(rt: &HostRuntime, word: Word, room: &'a mut [u8]) -> &'a [u8] {
    match word {
        Word::Get => b"settings get",
        Word::Add => b"settings add",
        Word::New => b"settings new",
        _ => arguments::read(rt, arguments::plain(rt, WORD), room),
    }
}

// Plain argument `number` is the first too many.
fn explain_extra(rt: &HostRuntime, word: Word, number: usize) -> Complained {
    let mut room = io::buffer();
    let argument = arguments::read(rt, arguments::plain(rt, number), &mut room);
    complaints::complain_extra(name(rt, word, &mut io::buffer()), argument)
}

// A plain argument's name in the help.
fn help_name(word: Word, number: usize) -> &'static [u8] {
    match (number, word) {
        (2, Word::Settings) => b"STORE",
        (2, _) => b"TABLE",
        (3, Word::Tape) => b"TAPE",
        (3, Word::Write) => b"SHEET",
        (3, Word::Get | Word::Add | Word::New) => b"STORE",
        (3, _) => b"MESSAGE",
        (4, Word::Read) => b"FIELD",
        (4, Word::Get | Word::Add) => b"CUSTOMER",
        (4, Word::New) => b"RECORDS",
        (4, _) => b"OUT",
        _ => b"VERSION",
    }
}

// Plain argument `number` is the first that is missing.
fn explain_missing(rt: &HostRuntime, word: Word, number: usize) -> Complained {
    if number == WORD {
        return complaints::complain_none(b"COMMAND");
    }
    complaints::complain_missing(name(rt, word, &mut io::buffer()), help_name(word, number))
}

fn explain_read(rt: &HostRuntime) -> Result<(), Complained> {
    numbers::number(rt, arguments::plain(rt, FIELD), b"FIELD")?;
    numbers::number(rt, arguments::plain(rt, ITEM), b"ITEM")?;
    Ok(())
}

fn explain_word(rt: &HostRuntime, word: Word) -> Complained {
    complaints::complain(name(rt, word, &mut io::buffer()), b"no such command")
}

// They are as many as the command takes, and one of them is wrong.
fn explain_value(rt: &HostRuntime, word: Word) -> Result<(), Complained> {
    match word {
        Word::Faults => Err(numbers::complain(
            rt,
            arguments::plain(rt, NUMBER),
            b"NUMBER",
            b"is not a number from 0 to 255",
        )),
        Word::Read => explain_read(rt),
        Word::Get => store_command::explain_get(rt),
        Word::Add => store_command::explain_add(rt),
        Word::New => Err(store_command::explain_new(rt)),
        _ => Err(explain_word(rt, word)),
    }
}

fn explain(rt: &HostRuntime, word: Word, last: usize) -> Result<(), Complained> {
    let least = least(word);
    if last < least {
        return Err(explain_missing(rt, word, last + 1));
    }
    let most = most(word);
    if most < last {
        return Err(explain_extra(rt, word, most + 1));
    }
    explain_value(rt, word)
}

pub fn read(rt: &HostRuntime) -> Result<Command, Complained> {
    let word = read_word(rt);
    let last = arguments::count_plain(rt);
    let command = named(
        word,
        last,
        decimal(rt, 2),
        decimal(rt, 4),
        decimal(rt, 5),
        store_command::read_ignored(rt, last),
    );
    match command {
        Some(command) => Ok(command),
        None => {
            explain(rt, word, last)?;
            Err(Complained)
        }
    }
}
