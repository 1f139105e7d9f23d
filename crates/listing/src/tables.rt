// A table as text, one line for each record.
ghost use Rattle.schema.specs.FieldKinds.{Widths};

use printing::print::Page;
use printing::{print, value};
use std::fmt::Write;
use table::GW;

const EN: [u8; 2] = *b"EN";

const SY: [u8; 2] = *b"SY";

const FD: [u8; 2] = *b"FD";

// A record of the table.
type Row = [u8; 16];

// So many things of this name.
fn print_many(page: &mut Page, n: usize, name: &str) {
    let plural = if n == 1 { "" } else { "s" };
    let _ = write!(page, "{n} {name}{plural}");
}

// ENUMERATIONS

fn print_enumeration(page: &mut Page, row: &Row, number: usize) {
    let _ = write!(page, "enumeration {number}: ");
    print_many(page, schema::symbol_count(row, 0), "symbol");
}

// A symbol is a value of the type enumeration.
#[tactic(auto, unfolding(reading::specs::Number::number_width, schema::specs::Schema::member, schema::specs::Table::scalar_width))]
fn print_symbol(page: &mut Page, row: &Row) {
    print::text(page, b"  symbol ");
    if let Ok(n) = reading::number_at(row, 2, 20) {
        value::print_number(page, 20, n);
    }
}

// GROUPS

fn print_id(page: &mut Page, row: &Row) {
    if schema::has_id(row, 0) {
        print::text(page, b"id ");
        print::number(page, schema::type_id(row, 0));
    } else {
        print::text(page, b"no id");
    }
}

fn print_super(page: &mut Page, row: &Row) {
    let above = schema::super_number(row, 0);
    if 0 < above {
        print::text(page, b", super ");
        print::number(page, above - 1);
    }
}

// The width is the one that the record stores, or else the index has it.
fn print_width(page: &mut Page, row: &Row, index: &[u16], number: usize)
    requires { Widths index.now }
{
    if wire::has_mark(row, 0, GW) {
        print::text(page, b", stored width ");
        print::number(page, schema::stored_width(row, 0));
    } else {
        print::text(page, b", width ");
        print::number(page, schema::group_width(index, number));
    }
}

fn print_group(page: &mut Page, row: &Row, index: &[u16], number: usize)
    requires { Widths index.now }
{
    let _ = write!(page, "group {number}: ");
    print_id(page, row);
    print_super(page, row);
    print_width(page, row, index, number);
}

// FIELDS

fn print_flags(page: &mut Page, row: &Row) {
    if schema::is_optional(row, 0) {
        print::text(page, b"optional ");
    }
    if schema::is_sequence(row, 0) {
        print::text(page, b"sequence of ");
    }
}

// What the record says besides the type. A string or a binary of size 0 is of any length.
fn print_rest(page: &mut Page, row: &Row) {
    let size = usize::from(schema::field_size(row, 0));
    match schema::field_type(row, 0) {
        17 | 18 if 0 < size => {
            print::text(page, b", at most ");
            print_many(page, size, "byte");
        }
        19 => {
            print::text(page, b", ");
            print_many(page, size, "byte");
        }
        20..=22 => {
            print::space(page);
            print::number(page, schema::reference(row, 0));
        }
        _ => {}
    }
}

fn print_field(page: &mut Page, row: &Row, number: usize) {
    let _ = write!(page, "  field {number}: ");
    print_flags(page, row);
    value::print_type(page, schema::field_type(row, 0));
    print_rest(page, row);
}

// RECORDS

// The records of the table that `index` is the index of.
pub fn print_records(page: &mut Page, table: &[u8], index: &[u16])
    requires { Widths index.now }
{
    let mut enumerations = 0;
    let mut groups = 0;
    let mut fields = 0;
    for row in table.as_chunks::<16>().0 {
        match [row[0], row[1]] {
            EN => {
                print_enumeration(page, row, enumerations);
                enumerations += 1;
                groups = 0;
                fields = 0;
            }
            SY => print_symbol(page, row),
            FD => {
                print_field(page, row, fields);
                fields += 1;
            }
            _ => {
                print_group(page, row, index, groups);
                groups += 1;
                fields = 0;
            }
        }
        print::end_line(page);
    }
}
