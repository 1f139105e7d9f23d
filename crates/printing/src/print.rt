// Text on its way to a descriptor. It is gathered in a page, and written where the page is full or the text is whole.
ghost use Rattle.std.specs.Prelude.{◌≤◌};

use crate::reason;
use std::fmt;
use std::fmt::{Display, Write};
use std::rt::{Stderr, Stdout};

// Where text goes.
#[derive(Clone, Copy)]
enum Target {
    Output(Stdout),
    Errors(Stderr),
}

impl Target {
    fn name(self) -> &'static [u8] {
        match self {
            Target::Output(_) => b"standard output",
            Target::Errors(_) => b"standard error",
        }
    }

    fn write_all(self, words: &[u8]) -> std::io::Result<()> {
        match self {
            Target::Output(mut output) => std::io::Write::write_all(&mut output, words),
            Target::Errors(mut errors) => std::io::Write::write_all(&mut errors, words),
        }
    }
}

// The most text that a page holds.
const ROOM: usize = 16384;

// The first `used` bytes are text that is still to be written.
#[derive(Drop)]
pub struct Page {
    target: Target,
    errors: Stderr,
    is_lost: bool,
    bytes: [u8; ROOM],
    used: usize,
    ghost within: { used ≤ 16384 },
}

// A page for standard output.
pub fn new_page(rt: &HostRuntime) -> Page {
    Page {
        target: Target::Output(rt.stdout()),
        errors: rt.stderr(),
        is_lost: false,
        bytes: [0; ROOM],
        used: 0,
    }
}

// What follows goes to standard error, and so does what the page holds.
pub fn redirect(page: &mut Page) {
    page.target = Target::Errors(page.errors);
}

// Whether some of the text could not be written.
pub fn is_lost(page: &Page) -> bool {
    page.is_lost
}

// Nothing is written after a loss: text with a hole in it looks whole.
fn note(page: &mut Page, sent: std::io::Result<()>) {
    if let Err(why) = sent {
        page.is_lost = true;
        let _ = reason::report(page.errors, page.target.name(), why);
    }
}

// Writes what the page holds.
pub fn flush(page: &mut Page) {
    if page.is_lost {
        return;
    }
    let sent = page.target.write_all(&page.bytes[..page.used]);
    page.used = 0;
    note(page, sent);
}

// Writes text that no page has room for.
fn pass(page: &mut Page, words: &[u8]) {
    if page.is_lost {
        return;
    }
    let sent = page.target.write_all(words);
    note(page, sent);
}

// Puts the text behind what the page holds, where there is room.
fn add(page: &mut Page, words: &[u8]) {
    let left = &mut page.bytes[page.used..];
    if left.len() < words.len() {
        return;
    }
    left[..words.len()].copy_from_slice(words);
    page.used += words.len();
}

pub fn text(page: &mut Page, words: &[u8]) {
    if ROOM - page.used < words.len() {
        flush(page);
    }
    if ROOM < words.len() {
        pass(page, words);
    } else {
        add(page, words);
    }
}

// A page notes a loss by itself, so that a `write!` to it has nothing to say.
impl Write for Page {
    fn write_str(&mut self, words: &str) -> fmt::Result {
        text(self, words.as_bytes());
        Ok(())
    }
}

pub fn space(page: &mut Page) {
    text(page, b" ");
}

pub fn end_line(page: &mut Page) {
    text(page, b"\n");
}

pub fn number<N: Display + Drop>(page: &mut Page, n: N) {
    let _ = write!(page, "{n}");
}

// In hex, with at least `width` digits. A text of control characters takes half as long again by `{n:x}`.
pub fn hex_number(page: &mut Page, n: u64, width: usize) {
    let mut digits = [0; 16];
    let k = io::hex(n, width, &mut digits);
    text(page, &digits[..k]);
}

const DIGITS: &[u8; 16] = b"0123456789abcdef";

// Two digits. By `{b:02x}` a dump takes up to twice as long, and a large binary four times.
pub fn hex_byte(page: &mut Page, b: u8) {
    let n = usize::from(b);
    text(page, &[DIGITS[n / 16], DIGITS[n % 16]]);
}

pub fn hex(page: &mut Page, bytes: &[u8]) {
    for b in bytes {
        hex_byte(page, *b);
    }
}

pub fn indent(page: &mut Page, depth: usize) {
    for _ in 0..depth {
        text(page, b"  ");
    }
}
