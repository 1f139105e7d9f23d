// What standard error says. A line goes out by one write, so that lines of commands that run side by side do not mix.
ghost use Rattle.std.specs.Prelude.{◌≡◌};

// Standard error.
const ERRORS: i32 = 2;

// Room for an argument and what is said of it. What does not fit is left out.
const LINE: usize = 4608;

const PREFIX: &[u8; 7] = b"blink: ";

// The error of what is wrong where standard error has said why.
#[derive(Clone, Copy, Debug, PartialEq, Eq)]
pub struct Complained;

// `blink: ` and these words, in a line. A control character would break it.
// No `Display`, which writes text alone: an argument may be any bytes. No heap: that memory is missing is said here too.
fn say(words: &[&[u8]]) -> Complained {
    let mut line = [0u8; LINE];
    let mut end = PREFIX.len();
    line[..end].copy_from_slice(PREFIX);
    for word in words {
        let n = word.len().min(LINE - 1 - end);
        line[end..end + n].copy_from_slice(&word[..n]);
        end += n;
    }
    for byte in &mut line[..end] {
        if byte.is_ascii_control() {
            *byte = b'?';
        }
    }
    line[end] = b'\n';
    io::write_all(ERRORS, &line[..end + 1]);
    Complained
}

// What is wrong, and the reason.
pub fn complain(what: &[u8], reason: &[u8]) -> Complained {
    say(&[what, b": ", reason])
}

pub fn complain_none(name: &[u8]) -> Complained {
    say(&[name, b" is missing"])
}

// An argument of the command is missing.
pub fn complain_missing(command: &[u8], name: &[u8]) -> Complained {
    say(&[command, b": ", name, b" is missing"])
}

pub fn complain_extra(command: &[u8], argument: &[u8]) -> Complained {
    say(&[command, b": extra argument: ", argument])
}

// An argument that has this name in the help is none of what it may be.
pub fn complain_value(name: &[u8], argument: &[u8], reason: &[u8]) -> Complained {
    say(&[name, b": ", argument, b" ", reason])
}

// A file has more than its most bytes, which are a number as text.
pub fn complain_long(name: &[u8], most: &[u8]) -> Complained {
    say(&[name, b": longer than ", most, b" bytes"])
}

// The last line, where the arguments are wrong.
pub fn suggest_help() -> Complained {
    say(&[b"try blink help"])
}
