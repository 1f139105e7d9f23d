// The words of the command.
ghost use Rattle.std.specs.Prelude.{◌≡◌, ◌||◌};
ghost use Rattle.wire.specs.Bytes.{same};
ghost use Rattle.inputs.specs.Words.{is_option, is_help, is_version, word_of, file_word, plain_word, store_word};

// What a command is called. `settings` with a word behind it is Get, Add or New.
#[derive(Clone, Copy, PartialEq, Eq)]
pub enum Word {
    Help,
    Version,
    Faults,
    Check,
    Read,
    Show,
    Dump,
    Tape,
    Table,
    Sheet,
    Write,
    Rewrite,
    Settings,
    Get,
    Add,
    New,
    Other,
}

// Whether an argument is this word.
pub fn is_word(argument: &[u8], word: &[u8]) -> bool
    ensures { result ≡ same argument.now word.now }
{
    argument == word
}

// An option begins with two hyphens.
pub fn is_option(argument: &[u8]) -> bool
    ensures { result ≡ is_option argument.now }
{
    argument.starts_with(b"--")
}

pub fn is_either(argument: &[u8], first: &[u8], second: &[u8]) -> bool
    ensures { result ≡ (same argument.now first.now || same argument.now second.now) }
{
    is_word(argument, first) || is_word(argument, second)
}

#[tactic(auto, unfolding(crate::specs::Words::is_help))]
fn is_help(word: &[u8]) -> bool
    ensures { result ≡ is_help word.now }
{
    is_either(word, b"help", b"--help") || is_word(word, b"-h")
}

fn is_version(word: &[u8]) -> bool
    ensures { result ≡ is_version word.now }
{
    is_either(word, b"version", b"--version")
}

// By the command's word alone. Questions about messages come first.
// No `match` on byte strings: tried, and its last arm alone leaves a goal for each byte where a word may differ.
#[tactic(auto, unfolding(crate::specs::Words::word_of))]
pub fn word_of(word: &[u8]) -> Word
    ensures { result ≡ word_of word.now }
{
    if is_word(word, b"check") {
        Word::Check
    } else if is_word(word, b"read") {
        Word::Read
    } else if is_word(word, b"show") {
        Word::Show
    } else if is_word(word, b"dump") {
        Word::Dump
    } else if is_word(word, b"tape") {
        Word::Tape
    } else {
        file_word(word)
    }
}

// Those that write a file.
#[tactic(auto, unfolding(crate::specs::Words::file_word))]
fn file_word(word: &[u8]) -> Word
    ensures { result ≡ file_word word.now }
{
    if is_word(word, b"sheet") {
        Word::Sheet
    } else if is_word(word, b"write") {
        Word::Write
    } else if is_word(word, b"rewrite") {
        Word::Rewrite
    } else {
        plain_word(word)
    }
}

// Those with no message.
#[tactic(auto, unfolding(crate::specs::Words::plain_word))]
fn plain_word(word: &[u8]) -> Word
    ensures { result ≡ plain_word word.now }
{
    if is_word(word, b"table") {
        Word::Table
    } else if is_word(word, b"settings") {
        Word::Settings
    } else if is_word(word, b"faults") {
        Word::Faults
    } else if is_help(word) {
        Word::Help
    } else if is_version(word) {
        Word::Version
    } else {
        Word::Other
    }
}

// By the word behind `settings`. Any other is the store itself.
#[tactic(auto, unfolding(crate::specs::Words::store_word))]
pub fn store_word(second: &[u8]) -> Word
    ensures { result ≡ store_word second.now }
{
    if is_word(second, b"get") {
        Word::Get
    } else if is_word(second, b"add") {
        Word::Add
    } else if is_word(second, b"new") {
        Word::New
    } else {
        Word::Settings
    }
}
