// One field's value on one line: its type, and the value.
ghost use Rattle.std.specs.Prelude.{◌≡◌, length};
ghost use Rattle.opening.specs.Opening.{under};
ghost use Rattle.codec.specs.Answers.{bytes_verdict};
ghost use Rattle.answers.specs.Faults.{field_verdict};

use crate::context::Context;
use codec::{Fault, Number};
use printing::print::Page;
use printing::{print, value};

// Prints the value, or answers why there is none.
#[tactic(auto, unfolding(crate::specs::Faults::or_bytes))]
pub fn print_field(
    page: &mut Page,
    context: Context,
    message: &[u8],
    scratch: &mut [u8],
    field: usize,
    item: usize,
) -> Result<(), Fault>
    ensures { result ≡ field_verdict context.entry.table.now message.now (under context.entry.store.now context.entry.customer (length scratch.old)) field item }
{
    let Context {
        table,
        store,
        customer,
    } = context;
    match codec::read_number(table, store, customer, message, scratch, field, item) {
        Ok(n) => {
            print_number(page, rows::message_type(table, message, field), n);
            Ok(())
        }
        // The field is no number: "48 other kind".
        Err(Fault { number: 48, .. }) => print_bytes(page, context, message, scratch, field, item),
        Err(fault) => Err(fault),
    }
}

fn print_number(page: &mut Page, number: u8, n: Number) {
    value::print_type(page, number);
    print::space(page);
    value::print_number(page, number, n);
    print::end_line(page);
}

fn print_bytes(
    page: &mut Page,
    context: Context,
    message: &[u8],
    scratch: &mut [u8],
    field: usize,
    item: usize,
) -> Result<(), Fault>
    ensures { result ≡ bytes_verdict context.entry.table.now message.now (under context.entry.store.now context.entry.customer (length scratch.old)) field item }
{
    let Context {
        table,
        store,
        customer,
    } = context;
    let part = codec::find_bytes(table, store, customer, message, scratch, field, item)?;
    let number = rows::message_type(table, message, field);
    value::print_type(page, number);
    print::space(page);
    value::print_bytes(page, number, rows::part(message, part.start, part.length));
    print::end_line(page);
    Ok(())
}
