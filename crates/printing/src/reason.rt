// Why the system refused: its own words, on standard error.
ghost use Rattle.std.specs.Prelude.{◌≤◌, length};

use std::io;
use std::io::{Cursor, Write};
use std::rt::Stderr;

// Behind the system's words an error has its number, which is left out.
const NUMBER: [u8; 11] = *b" (os error ";

// How many bytes of an error's text are the system's words. Behind the text its room is zeros.
fn words_of(text: &[u8]) -> usize
    ensures { result ≤ length text.now }
{
    for i in 0..text.len() {
        if text[i] == 0 || text[i..].starts_with(&NUMBER) {
            return i;
        }
    }
    text.len()
}

fn write_line(errors: &mut Stderr, name: &[u8], words: &[u8]) -> io::Result<()> {
    errors.write_all(b"blink: ")?;
    errors.write_all(name)?;
    errors.write_all(b": ")?;
    errors.write_all(words)?;
    errors.write_all(b"\n")
}

// `blink: NAME: REASON`.
pub fn report(mut errors: Stderr, name: &[u8], why: io::Error) -> io::Result<()> {
    let mut room = Cursor::new([0u8; 256]);
    write!(room, "{why}")?;
    let text = room.into_inner();
    let n = words_of(&text);
    write_line(&mut errors, name, &text[..n])
}
