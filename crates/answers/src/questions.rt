// The questions about a table or a message that are answered in text.
ghost use Rattle.std.specs.Prelude.{◌≡◌, length};
ghost use Rattle.schema.specs.Table.{table_verdict};
ghost use Rattle.opening.specs.Opening.{under, message_verdict};
ghost use Rattle.answers.specs.Outcomes.{outcome_of};
ghost use Rattle.answers.specs.Faults.{field_verdict};

use crate::context::Context;
use crate::outcome::Outcome;
use crate::{field, refusal};
use codec::Fault;
use layout::walk;
use printing::print;
use printing::print::Page;

pub fn check_table(page: &mut Page, table: &[u8]) -> Outcome
    ensures { result ≡ outcome_of (table_verdict table.now) }
{
    refusal::say_alone(page, codec::check_table(table), table)
}

// The table as text.
pub fn list_table(page: &mut Page, table: &[u8]) -> Outcome
    ensures { result ≡ outcome_of (table_verdict table.now) }
{
    let verdict = codec::check_table(table);
    let outcome = refusal::say_alone(page, verdict, table);
    if verdict.is_ok() {
        listing::print_table(page, table);
    }
    outcome
}

pub fn check(page: &mut Page, context: Context, message: &[u8], scratch: &mut [u8]) -> Outcome
    ensures { result ≡ outcome_of (message_verdict context.entry.table.now message.now (under context.entry.store.now context.entry.customer (length scratch.old))) }
{
    let Context {
        table,
        store,
        customer,
    } = context;
    let verdict = codec::check_message(table, store, customer, message, scratch);
    refusal::say(page, verdict, table, store, message)
}

// The answer's line alone, for one of several messages.
pub fn check_briefly(
    page: &mut Page,
    context: Context,
    message: &[u8],
    scratch: &mut [u8],
) -> Outcome
    ensures { result ≡ outcome_of (message_verdict context.entry.table.now message.now (under context.entry.store.now context.entry.customer (length scratch.old))) }
{
    let Context {
        table,
        store,
        customer,
    } = context;
    let verdict = codec::check_message(table, store, customer, message, scratch);
    refusal::print_verdict(page, verdict)
}

#[tactic(auto, unfolding(crate::specs::Outcomes::outcome_of))]
pub fn read(
    page: &mut Page,
    context: Context,
    message: &[u8],
    scratch: &mut [u8],
    field: usize,
    item: usize,
) -> Outcome
    ensures { result ≡ outcome_of (field_verdict context.entry.table.now message.now (under context.entry.store.now context.entry.customer (length scratch.old)) field item) }
{
    match field::print_field(page, context, message, scratch, field, item) {
        Ok(()) => Outcome::Answered,
        Err(fault) => refusal::refuse(page, fault, context.table, context.store, message),
    }
}

pub fn show(
    page: &mut Page,
    context: Context,
    message: &[u8],
    scratch: &mut [u8],
    sheet: &mut [u8],
) -> Outcome {
    let Context {
        table,
        store,
        customer,
    } = context;
    match codec::message_to_sheet(table, store, customer, message, scratch, sheet) {
        Ok(length) => {
            print::text(page, b"accepted\n");
            showing::print_sheet(page, table, sheet, length);
            Outcome::Answered
        }
        Err(fault) => refusal::refuse(page, fault, table, store, message),
    }
}

// The message byte by byte. Of a refused one as far as the fault, where it has a place in the message.
pub fn dump(
    page: &mut Page,
    context: Context,
    message: &[u8],
    scratch: &mut [u8],
    labels: &mut [u64],
) -> Outcome
    ensures { result ≡ outcome_of (message_verdict context.entry.table.now message.now (under context.entry.store.now context.entry.customer (length scratch.old))) }
{
    let Context {
        table,
        store,
        customer,
    } = context;
    let verdict = codec::check_message(table, store, customer, message, scratch);
    let outcome = refusal::say(page, verdict, table, store, message);
    match verdict {
        Ok(()) => dump_whole(page, table, message, labels),
        Err(fault) => dump_up_to(page, fault, table, message, labels),
    }
    outcome
}

fn dump_whole(page: &mut Page, table: &[u8], message: &[u8], labels: &mut [u64]) {
    walk::lay_out(table, message, labels);
    listing::print_dump(page, message, labels);
}

// Of the table's, the scratch's, the store's and the message's size's faults no byte of the message is shown.
fn dump_up_to(page: &mut Page, fault: Fault, table: &[u8], message: &[u8], labels: &mut [u64]) {
    if matches!(fault.number, 20..=23 | 50) {
        return;
    }
    let stop = walk::lay_out(table, message, labels);
    listing::print_refused_dump(page, message, labels, fault.number, fault.place, stop);
}
