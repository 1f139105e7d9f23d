// A message as text, byte by byte: a line for each run of bytes that are one thing, and more where they are more than sixteen. The first
// says what they are.
//
// The labels are those that crate `layout` gives the message. A byte beyond them has none.
ghost use Rattle.std.specs.Prelude.{◌≡◌, ◌<◌, ◌≤◌, length, get_or};
ghost use Rattle.listing.specs.Fault.{has_no_room, at_fault};

use crate::names;
use layout::label;
use layout::label::{
    COUNT, EXTENSION, FLAG, INLINE_COUNT, ITEM_COUNT, OFFSET, SEQUENCE, SIZE, TEXT, TYPE_ID, VALUE,
};
use printing::print::Page;
use printing::{around, print, value};
use std::fmt::Write;

// RUNS

fn label_at(labels: &[u64], at: usize) -> u64
    ensures { result ≡ get_or labels.now at 0 }
{
    labels.get(at).copied().unwrap_or(0)
}

// A label's bit that begins a run.
const BEGINS: u64 = 0x20;

// Where the run ends that begins at `at`. Each byte that goes on with it has its label, but that none begins one.
fn run_end(labels: &[u64], at: usize, end: usize) -> usize
    requires { at < end }
    ensures { (at < result) × (result ≤ end) }
{
    let label = label_at(labels, at) & !BEGINS;
    (at + 1..end)
        .find(|i| label_at(labels, *i) != label)
        .unwrap_or(end)
}

// The bytes of a number that stands in a run by itself.
fn word_width(kind: usize) -> usize {
    match kind {
        TYPE_ID => 8,
        FLAG | INLINE_COUNT => 1,
        _ => 4,
    }
}

// Bytes that are one thing: their label, and the place of the first.
#[derive(Drop)]
struct Run<'a> {
    label: u64,
    bytes: &'a [u8],
    at: usize,
}

impl Run<'_> {
    // WHAT A RUN SAYS

    // A word that is cut short is no number.
    fn print_word(&self, page: &mut Page) {
        if self.bytes.len() == word_width(label::kind_of(self.label)) {
            print::space(page);
            print::number(page, rows::first_u64(self.bytes));
        }
    }

    // An offset counts from its own first byte.
    fn print_target(&self, page: &mut Page) {
        if self.bytes.len() == 4 {
            print::text(page, b" to ");
            print::number(page, self.at.saturating_add(rows::first_u32(self.bytes)));
        }
    }

    // A number has at most nine bytes. That of type 19, fixed, is bytes and no number.
    fn print_value(&self, page: &mut Page) {
        let number = label::type_of(self.label);
        if number == 19 {
            return;
        }
        let mut bytes = [0u8; 9];
        let n = self.bytes.len().min(9);
        bytes[..n].copy_from_slice(&self.bytes[..n]);
        print::space(page);
        if let Ok(x) = reading::number_at(&bytes, 0, number) {
            value::print_number(page, number, x);
        }
    }

    // A string that is not too long is shown once more.
    fn print_text(&self, page: &mut Page) {
        let number = label::type_of(self.label);
        if number == 17 && self.bytes.len() <= 64 {
            print::space(page);
            value::print_bytes(page, number, self.bytes);
        }
    }

    fn print_detail(&self, page: &mut Page) {
        match label::kind_of(self.label) {
            SIZE | TYPE_ID | FLAG | INLINE_COUNT | COUNT | ITEM_COUNT => self.print_word(page),
            EXTENSION | OFFSET | SEQUENCE => self.print_target(page),
            VALUE => self.print_value(page),
            TEXT => self.print_text(page),
            _ => {}
        }
    }

    // Whether it is an extension's offset that is 0.
    fn is_no_extension(&self) -> bool {
        label::kind_of(self.label) == EXTENSION
            && self.bytes.len() == 4
            && rows::first_u32(self.bytes) == 0
    }

    // What is in a group in another is indented by its level.
    fn print_what(&self, page: &mut Page) {
        print::indent(page, label::level_of(self.label) - 1);
        if self.label == 0 {
            print::text(page, b"not reached");
        } else if self.is_no_extension() {
            print::text(page, b"no extension");
        } else {
            names::print_name(page, self.label);
            self.print_detail(page);
        }
    }

    // LINES

    // The first `shown` bytes, sixteen on a line, with the one at `mark` in brackets; what they are goes by the whole run.
    fn print(&self, page: &mut Page, shown: usize, mark: Option<usize>) {
        let mut at = self.at;
        for (i, line) in rows::part(self.bytes, 0, shown).chunks(16).enumerate() {
            let marked = mark.and_then(|place| place.checked_sub(at));
            let _ = write!(page, "{at:7} ");
            around::print_bytes(page, line, marked);
            if i == 0 {
                print_column(page, line, marked);
                self.print_what(page);
            }
            print::end_line(page);
            at = at.saturating_add(16);
        }
    }
}

// Behind a line's bytes, the column of what they are. Each of sixteen bytes takes three columns, and a marked one two more.
fn print_column(page: &mut Page, line: &[u8], marked: Option<usize>) {
    for _ in line.len()..16 {
        print::text(page, b"   ");
    }
    if marked.is_some_and(|i| i < line.len()) {
        print::text(page, b" ");
    } else {
        print::text(page, b"   ");
    }
}

// The runs, up to the byte at `mark`, which stands in brackets. A mark behind them marks none.
pub fn print_runs(page: &mut Page, message: &[u8], labels: &[u64], mark: Option<usize>) {
    let length = message.len();
    let end = mark.map_or(length, |place| length.min(place.saturating_add(1)));
    let mut at = 0;
    while at < end {
        let next = run_end(labels, at, message.len());
        let run = Run {
            label: label_at(labels, at),
            bytes: &message[at..next],
            at,
        };
        run.print(page, end - at, mark);
        at = next;
    }
}

// WHERE IT IS REFUSED

// 13, 26 and 27: a value has no room where its offset leads.
fn has_no_room(number: u8) -> bool
    ensures { result ≡ has_no_room number }
{
    matches!(number, 13 | 26 | 27)
}

// The label of what is at fault.
#[tactic(auto, unfolding(crate::specs::Fault::at_fault))]
pub fn label_at_fault(labels: &[u64], number: u8, place: usize, stop: u64) -> u64
    ensures { result ≡ at_fault number stop (get_or labels.now place 0) }
{
    let label = label_at(labels, place);
    if stop == 0 {
        return label;
    }
    if has_no_room(number) || label == 0 {
        return stop;
    }
    label
}

// What the byte belongs to, and its group's level.
fn print_owner(page: &mut Page, label: u64) {
    names::print_name(page, label);
    let level = label::level_of(label);
    if 1 < level {
        let _ = write!(page, ", in a group of level {level}");
    }
}

pub fn print_fault(page: &mut Page, place: usize, label: u64) {
    if label == 0 {
        return;
    }
    let _ = write!(page, "the byte at {place} belongs to ");
    print_owner(page, label);
    print::end_line(page);
}

pub fn print_end(page: &mut Page, place: usize, label: u64) {
    let _ = write!(page, "the message ends at {place}");
    if label != 0 {
        print::text(page, b", in ");
        print_owner(page, label);
    }
    print::end_line(page);
}
