// Listings for people: a table, a line for each record, and a message, byte by byte. The functions are proved safe; what they print has no
// contract.
#![tactic(auto)]

mod dump;
mod names;
mod tables;

use printing::print::Page;

// Of a table that is refused nothing is printed.
pub fn print_table(page: &mut Page, table: &[u8]) {
    let mut index = [0u16; 322];
    let Ok(()) = table::index_table(table, &mut index) else {
        return;
    };
    tables::print_records(page, table, &index);
}

// The labels are those that crate `layout` gives the message.
pub fn print_dump(page: &mut Page, message: &[u8], labels: &[u64]) {
    dump::print_runs(page, message, labels, None);
}

// A message that is refused, up to the byte at `place`, and what that byte belongs to. `stop` is what the layout's walk was at where it
// ended.
pub fn print_refused_dump(
    page: &mut Page,
    message: &[u8],
    labels: &[u64],
    number: u8,
    place: usize,
    stop: u64,
) {
    if place < message.len() {
        dump::print_runs(page, message, labels, Some(place));
        dump::print_fault(
            page,
            place,
            dump::label_at_fault(labels, number, place, stop),
        );
    } else {
        dump::print_runs(page, message, labels, None);
        dump::print_end(page, message.len(), stop);
    }
}
