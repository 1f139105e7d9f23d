// The bytes around a place.
use crate::print;
use crate::print::Page;
use std::fmt::Write;

// Sixteen bytes in hex, the one at `place` in brackets.
pub fn print_around(page: &mut Page, bytes: &[u8], place: usize) {
    if bytes.len() < place {
        return;
    }
    let start = place.saturating_sub(8);
    print_line(page, rows::part(bytes, start, 16), start, place - start);
}

// Bytes from `start` on, of which one is marked, or the end.
fn print_line(page: &mut Page, bytes: &[u8], start: usize, marked: usize) {
    let _ = write!(page, "bytes from {start}:");
    print_bytes(page, bytes, Some(marked));
    if bytes.len() == marked {
        print::text(page, b" [end]");
    }
    print::end_line(page);
}

pub fn print_bytes(page: &mut Page, bytes: &[u8], marked: Option<usize>) {
    for (i, b) in bytes.iter().enumerate() {
        print::space(page);
        if marked == Some(i) {
            print::text(page, b"[");
            print::hex_byte(page, *b);
            print::text(page, b"]");
        } else {
            print::hex_byte(page, *b);
        }
    }
}
