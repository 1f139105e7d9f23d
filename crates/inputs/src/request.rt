// All that the arguments say, with the one place that tests how they go together.
ghost use Rattle.std.specs.Prelude.{◌≡◌};
ghost use Rattle.inputs.specs.Commands.{takes_settings, takes_question, agree};

use crate::command::{Command, Question};
use crate::complaints::Complained;
use crate::words::Word;
use crate::{command, complaints, input, options};

#[derive(Clone, Copy)]
pub struct Request {
    pub command: Command,
    // Whom the options name, where they are given.
    pub customer: Option<u16>,
}

// A sheet has no byte to ignore.
fn takes_question(question: Question) -> bool
    ensures { result ≡ takes_question question }
{
    match question {
        Question::Read { .. }
        | Question::Show
        | Question::Dump
        | Question::Sheet
        | Question::Rewrite => true,
        Question::Write => false,
    }
}

fn takes_settings(command: Command) -> bool
    ensures { result ≡ takes_settings command }
{
    match command {
        Command::Check | Command::Tape => true,
        Command::Message { question } => takes_question(question),
        Command::Help
        | Command::Version
        | Command::Faults
        | Command::Fault { .. }
        | Command::CheckTable
        | Command::ListTable
        | Command::Store { .. }
        | Command::NewStore { .. } => false,
    }
}

// Whether the command takes the options, where they are given.
fn agree(command: Command, customer: Option<u16>) -> bool
    ensures { result ≡ agree command customer }
{
    customer.is_none() || takes_settings(command)
}

fn read_all(rt: &HostRuntime) -> Result<Request, Complained> {
    let customer = options::read(rt)?;
    let command = command::read(rt)?;
    if !agree(command, customer) {
        return Err(complaints::complain(
            b"--settings",
            b"only for check with messages, read, show, dump, tape, sheet and rewrite",
        ));
    }
    if input::is_asked_twice(rt, command) {
        return Err(complaints::complain(b"-", b"standard input is asked for twice"));
    }
    Ok(Request { command, customer })
}

// Help is given whatever follows.
pub fn read(rt: &HostRuntime) -> Result<Request, Complained> {
    if command::word_at(rt, 1) == Word::Help {
        return Ok(Request {
            command: Command::Help,
            customer: None,
        });
    }
    read_all(rt).map_err(|_| complaints::suggest_help())
}
