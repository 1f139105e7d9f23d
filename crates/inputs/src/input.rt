// Standard input, for which `-` stands in place of a file's name.
use crate::arguments::PlainIndices;
use crate::command::Command;
use crate::{arguments, options};

// Whether argument `i` is there, and is `-`.
pub fn is_standard(rt: &HostRuntime, i: usize) -> bool {
    arguments::is_word(rt, i, b"-")
}

// How many files the command reads, of those that plain arguments name from the table on.
fn inputs(command: Command) -> usize {
    match command {
        Command::Check => usize::MAX,
        Command::Tape | Command::Message { .. } => 2,
        Command::CheckTable | Command::ListTable => 1,
        _ => 0,
    }
}

// Whether more than one of them is standard input: the table, the messages, the sheet or the tape, and the settings of the options.
pub fn is_asked_twice(rt: &HostRuntime, command: Command) -> bool {
    let is_store = options::store(rt).is_some_and(|i| is_standard(rt, i));
    let others = PlainIndices::new(rt)
        .skip(1)
        .take(inputs(command))
        .filter(|i| is_standard(rt, *i))
        .count();
    others > 1 || others == 1 && is_store
}
