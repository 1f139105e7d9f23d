// The lines of a tape's messages, entered in a ledger, and the messages that make none.
#![tactic(auto)]

ghost use Rattle.std.specs.Prelude.{Ok, ◌≡◌, cond, length, eqb};
ghost use Rattle.table.specs.Index.{Checked};
ghost use Rattle.opening.specs.Opening.{under};
ghost use Rattle.tape.specs.Tape.{tape_answers};
ghost use Rattle.ledger.specs.Ledger.{call, lines};
ghost use Rattle.answers.specs.declared.outcome.Outcome.TheVariants.{Answered, Refused};
ghost use Rattle.ledgers.specs.Entries.{fill_of, entry_of, ledger_after, entry_outcome, turn_outcome, calls, Fills};

use answers::context::Context;
use answers::outcome::Outcome;
use answers::{outcome, refusal};
use printing::print::Page;
use schema::Fault;
use tape::Answer;
use tapes::Totals;

// How far a tape has filled the ledger, and what came of its messages: Failed where a line found no room.
#[derive(Clone, Copy, Debug, PartialEq, Eq)]
pub struct Filled {
    pub fill: usize,
    pub outcome: Outcome,
}

// ONE MESSAGE

// A message that the tape refuses makes no line.
#[tactic(auto, unfolding(crate::specs::Entries::entry_of, crate::specs::Entries::ledger_after))]
fn enter(
    context: Context,
    message: &[u8],
    answer: Answer,
    scratch: &mut [u8],
    id: u64,
    ledger: &mut [u8],
    fill: usize,
) -> Result<usize, Fault>
    ensures value { result ≡ entry_of answer (lines ledger.old fill) (call context.entry.table.now message.now (under context.entry.store.now context.entry.customer (length scratch.old)) id) }
    ensures ledger_after { ledger.new ≡ (ledger_after answer (lines ledger.old fill) (call context.entry.table.now message.now (under context.entry.store.now context.entry.customer (length scratch.old)) id)).bytes }
{
    let Context {
        table,
        store,
        customer,
    } = context;
    match answer {
        None => Ok(fill),
        Some(Ok(())) => ledger::add_line(
            table, store, customer, message, scratch, id, ledger, fill,
        ),
        Some(Err(fault)) => Err(fault),
    }
}

// The fill with one entry more.
#[tactic(auto, unfolding(crate::specs::Entries::fill_of))]
fn fill_of(fill: usize, entered: Result<usize, Fault>) -> usize
    ensures { result ≡ fill_of fill entered }
{
    entered.unwrap_or(fill)
}

#[tactic(auto, unfolding(crate::specs::Entries::entry_outcome))]
fn outcome_of(entered: Result<usize, Fault>) -> Outcome
    ensures { result ≡ entry_outcome entered }
{
    match entered {
        Ok(_) => Outcome::Answered,
        Err(Fault { number: 56, .. }) => Outcome::Failed,
        Err(_) => Outcome::Refused,
    }
}

#[tactic(auto, unfolding(crate::specs::Entries::turn_outcome))]
fn turn_outcome(answer: Answer, entered: Result<usize, Fault>) -> Outcome
    ensures { result ≡ turn_outcome answer entered }
{
    match answer {
        None => Outcome::Answered,
        Some(Ok(())) => outcome_of(entered),
        Some(Err(_)) => Outcome::Refused,
    }
}

// ALL OF THEM

// Under an accepted table, which is indexed once.
fn enter_under(
    context: Context,
    index: &[u16],
    tape: &[u8],
    scratch: &mut [u8],
    id: u64,
    ledger: &mut [u8],
    start: usize,
) -> Filled
    requires { Checked context.table.now index.now (Ok tt) }
    ensures { Fills (lines ledger.old start) (tape_answers context.entry.table.now tape.now (under context.entry.store.now context.entry.customer (length scratch.old))) (calls context.entry.table.now tape.now (under context.entry.store.now context.entry.customer (length scratch.old)) id) result ledger.new }
{
    let Context {
        table,
        store,
        customer,
    } = context;
    let mut worst = Outcome::Answered;
    let mut fill = start;
    let mut at = 0;
    // By places: `TapeReader` would index the table anew for each message.
    while at < tape.len() {
        let step = tape::step_under(table, index, store, customer, tape, at, scratch);
        let message = tape::part_at(tape, at, step.answer);
        let entered = enter(context, message, step.answer, scratch, id, ledger, fill);
        let outcome = turn_outcome(step.answer, entered);
        worst = outcome::worse(worst, outcome);
        fill = fill_of(fill, entered);
        at = step.next;
    }
    Filled {
        fill,
        outcome: worst,
    }
}

// A refused table makes no line, and is one refusal where there is a byte to read.
fn refuse_all(tape: &[u8], start: usize) -> Filled
    ensures { (result.fill ≡ start) × (result.outcome ≡ cond (eqb (length tape.now) 0) Answered Refused) }
{
    Filled {
        fill: start,
        outcome: if tape.is_empty() {
            Outcome::Answered
        } else {
            Outcome::Refused
        },
    }
}

// The lines of a tape's messages of the type `id`, behind the first `start` bytes of the ledger.
pub fn enter_tape(
    context: Context,
    tape: &[u8],
    scratch: &mut [u8],
    id: u64,
    ledger: &mut [u8],
    start: usize,
) -> Filled
    ensures { Fills (lines ledger.old start) (tape_answers context.entry.table.now tape.now (under context.entry.store.now context.entry.customer (length scratch.old))) (calls context.entry.table.now tape.now (under context.entry.store.now context.entry.customer (length scratch.old)) id) result ledger.new }
{
    let mut index = [0u16; 322];
    let Ok(()) = table::index_table(context.table, &mut index) else {
        return refuse_all(tape, start);
    };
    enter_under(context, &index, tape, scratch, id, ledger, start)
}

// WHAT IS PRINTED

// The line of the message at `at`, which was refused. A whole message is never refused by 22.
fn print_refused(page: &mut Page, tape: &[u8], at: usize, fault: Fault) {
    tapes::print_place(page, at);
    refusal::print_with_words(page, fault);
    if fault.number == 22 {
        tapes::print_cut(page, rows::rest(tape, at));
    }
}

// The line of the message at `at`, if it is refused; whether it is. It is asked with no room: 56 where it makes a line.
fn list_at(
    page: &mut Page,
    context: Context,
    tape: &[u8],
    at: usize,
    answer: Answer,
    scratch: &mut [u8],
    id: u64,
) -> bool {
    let message = tape::part_at(tape, at, answer);
    let room = &mut [0u8; 0];
    match enter(context, message, answer, scratch, id, room, 0) {
        Ok(_) | Err(Fault { number: 56, .. }) => false,
        Err(fault) => {
            print_refused(page, tape, at, fault);
            true
        }
    }
}

fn list_under(
    page: &mut Page,
    context: Context,
    index: &[u16],
    tape: &[u8],
    scratch: &mut [u8],
    id: u64,
)
    requires { Checked context.table.now index.now (Ok tt) }
{
    let Context {
        table,
        store,
        customer,
    } = context;
    let mut totals = Totals::default();
    let mut at = 0;
    // By places: `TapeReader` would index the table anew for each message.
    while at < tape.len() {
        let step = tape::step_under(table, index, store, customer, tape, at, scratch);
        totals.count(list_at(page, context, tape, at, step.answer, scratch, id));
        at = step.next;
    }
    totals.print(page, b" entered, ");
}

// A line for each message of a tape that makes none, and how many there are.
pub fn list_refused(page: &mut Page, context: Context, tape: &[u8], scratch: &mut [u8], id: u64) {
    let mut index = [0u16; 322];
    match table::index_table(context.table, &mut index) {
        Ok(()) => list_under(page, context, &index, tape, scratch, id),
        Err(_) => {
            tapes::refuse_table(page, context.table, context.store, tape, b" entered, ");
        }
    }
}
