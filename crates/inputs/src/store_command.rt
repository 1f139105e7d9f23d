// What is asked of a settings store. Plain argument 2 is a word, or the store itself.
ghost use Rattle.std.specs.Prelude.{◌≡◌, Some as OptionSome};
ghost use Rattle.inputs.specs.declared.command.Command.TheVariants.{Store};
ghost use Rattle.inputs.specs.declared.command.StoreQuestion.TheVariants.{List};
ghost use Rattle.inputs.specs.Commands.{ignored_of, get_of, add_of, making_of};

use crate::command::{Command, StoreQuestion};
use crate::complaints::Complained;
use crate::{arguments, numbers};

// The faults to ignore: 1 for each that is.
#[derive(Clone, Copy)]
pub struct Ignored {
    pub absent: u8,
    pub pads: u8,
    pub unused: u8,
}

// Which plain arguments are what.

pub const LISTED: usize = 2;

pub const STORE: usize = 3;

const CUSTOMER: usize = 4;

pub const VERSION: usize = 5;

pub const RECORDS: usize = 4;

// The faults to ignore follow the version, three at most.

const FAULT: usize = 6;

pub const LAST_FAULT: usize = 8;

// A store of 65536 bytes has room for so many records.
const MOST: usize = 7281;

// DECISIONS

pub fn list() -> Command
    ensures { result ≡ Store List }
{
    Command::Store {
        question: StoreQuestion::List,
    }
}

pub fn get(customer: Option<usize>, version: Option<usize>) -> Option<Command>
    ensures { result ≡ get_of customer version }
{
    let customer = numbers::short_of(customer)?;
    let version = numbers::short_of(version)?;
    Some(Command::Store {
        question: StoreQuestion::Get { customer, version },
    })
}

pub fn add(
    customer: Option<usize>,
    version: Option<usize>,
    ignored: Option<Ignored>,
) -> Option<Command>
    ensures { result ≡ add_of customer version ignored }
{
    let ignored = ignored?;
    let customer = numbers::short_of(customer)?;
    let version = numbers::short_of(version)?;
    Some(Command::Store {
        question: StoreQuestion::Add {
            customer,
            version,
            ignored,
        },
    })
}

#[tactic(auto, unfolding(crate::specs::Commands::making))]
pub fn create(records: Option<usize>) -> Option<Command>
    ensures { result ≡ making_of records }
{
    let records = records?;
    if records < 1 || MOST < records {
        return None;
    }
    Some(Command::NewStore { records })
}

// Each of the arguments behind the version, of which `last` is the last, is one of the faults, and none comes twice.
#[tactic(auto, unfolding(crate::specs::Commands::ignored_of))]
fn ignored_of(last: usize, ignored: Ignored) -> Option<Ignored>
    ensures { result ≡ ignored_of last ignored }
{
    let Ignored {
        absent,
        pads,
        unused,
    } = ignored;
    let found = usize::from(absent) + usize::from(pads) + usize::from(unused);
    if VERSION + found == last {
        Some(ignored)
    } else {
        None
    }
}

// FROM THE ARGUMENTS

fn is_argument(rt: &HostRuntime, number: usize, word: &[u8]) -> bool {
    arguments::is_word(rt, arguments::plain(rt, number), word)
}

// 1 where one of the arguments is this fault.
fn flag(rt: &HostRuntime, fault: &[u8]) -> u8 {
    u8::from((FAULT..=LAST_FAULT).any(|number| is_argument(rt, number, fault)))
}

pub fn read_ignored(rt: &HostRuntime, last: usize) -> Option<Ignored> {
    let found = Ignored {
        absent: flag(rt, b"4"),
        pads: flag(rt, b"6"),
        unused: flag(rt, b"8"),
    };
    ignored_of(last, found)
}

// WHY THERE IS NO COMMAND

fn explain_shorts(rt: &HostRuntime) -> Result<(), Complained> {
    numbers::short(rt, arguments::plain(rt, CUSTOMER), b"CUSTOMER")?;
    numbers::short(rt, arguments::plain(rt, VERSION), b"VERSION")?;
    Ok(())
}

// Whether one of the arguments before is the same fault.
fn is_repeated(rt: &HostRuntime, number: usize, fault: &[u8]) -> bool {
    is_argument(rt, number, fault) && (FAULT..number).any(|n| is_argument(rt, n, fault))
}

fn explain_fault(rt: &HostRuntime, number: usize) -> Result<(), Complained> {
    let i = arguments::plain(rt, number);
    let faults = [b"4", b"6", b"8"];
    if !arguments::is_there(rt, i) {
        return Ok(());
    }
    if faults.iter().any(|fault| is_repeated(rt, number, *fault)) {
        return Err(numbers::complain(rt, i, b"FAULT", b"is given twice"));
    }
    if !faults.iter().any(|fault| arguments::is_word(rt, i, *fault)) {
        return Err(numbers::complain(rt, i, b"FAULT", b"is not 4, 6 or 8"));
    }
    Ok(())
}

// The first number that is wrong.
pub fn explain_get(rt: &HostRuntime) -> Result<(), Complained> {
    explain_shorts(rt)
}

// And then the first of the faults.
pub fn explain_add(rt: &HostRuntime) -> Result<(), Complained> {
    explain_shorts(rt)?;
    for number in FAULT..=LAST_FAULT {
        explain_fault(rt, number)?;
    }
    Ok(())
}

pub fn explain_new(rt: &HostRuntime) -> Complained {
    numbers::complain(
        rt,
        arguments::plain(rt, RECORDS),
        b"RECORDS",
        b"is not a number from 1 to 7281",
    )
}
