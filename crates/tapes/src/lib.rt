// The messages of a tape: a line for each, with its place on the tape, and how many there are.
#![tactic(auto)]

ghost use Rattle.std.specs.Prelude.{Ok, true, false, ◌≡◌, ◌+◌, ◌-◌, ◌^◌, ◌≤◌, min, cond, length, eqb};
ghost use Rattle.table.specs.Index.{Checked};
ghost use Rattle.opening.specs.Opening.{under};
ghost use Rattle.tape.specs.Tape.{tape_answers};
ghost use Rattle.answers.specs.declared.outcome.Outcome.TheVariants.{Answered, Refused};
ghost use Rattle.tapes.specs.Outcomes.{answer_outcome, tape_outcome};

use answers::context::Context;
use answers::outcome::Outcome;
use answers::{outcome, refusal};
use printing::print;
use printing::print::Page;
use schema::Fault;
use tape::Step;

// WHAT IS PRINTED

fn print_left(page: &mut Page, left: usize) {
    print::number(page, left);
    if left == 1 {
        print::text(page, b" byte is left");
    } else {
        print::text(page, b" bytes are left");
    }
}

// What is left of a message that the tape's end cuts.
pub fn print_cut(page: &mut Page, rest: &[u8]) {
    print::text(page, b"the tape ends inside this message: ");
    print_left(page, rest.len());
    if rest.len() < 4 {
        print::text(page, b", too few for a size word\n");
        return;
    }
    print::text(page, b", and by its size word it has ");
    print::number(page, 4 + rows::first_u32(rest));
    print::end_line(page);
}

// A whole message is never refused by 22.
fn print_refused(page: &mut Page, fault: Fault, rest: &[u8]) {
    refusal::print_line(page, fault);
    if fault.number == 22 {
        print_cut(page, rest);
    }
}

fn print_accepted(page: &mut Page, length: usize) {
    print::text(page, b"accepted, ");
    print::number(page, length);
    print::text(page, b" bytes\n");
}

pub fn print_place(page: &mut Page, at: usize) {
    print::number(page, at);
    print::text(page, b": ");
}

// How many messages there are, and how many of them are refused.
#[derive(Clone, Copy, Debug, Default)]
pub struct Totals {
    passed: usize,
    refused: usize,
}

impl Totals {
    // One message more, where a `usize` has room for it.
    pub fn count(&mut self, is_refused: bool)
        ensures refused { is_refused ≡ true → (self.new.passed ≡ self.old.passed) × (self.new.refused ≡ min (self.old.refused + 1) (2 ^ 64 - 1)) }
        ensures passed { is_refused ≡ false → (self.new.refused ≡ self.old.refused) × (self.new.passed ≡ min (self.old.passed + 1) (2 ^ 64 - 1)) }
    {
        if is_refused {
            self.refused = self.refused.saturating_add(1);
        } else {
            self.passed = self.passed.saturating_add(1);
        }
    }

    // The last line, in which these words follow the number of those that passed.
    pub fn print(self, page: &mut Page, words: &[u8]) {
        let messages = self.passed.saturating_add(self.refused);
        print::number(page, messages);
        if messages == 1 {
            print::text(page, b" message: ");
        } else {
            print::text(page, b" messages: ");
        }
        print::number(page, self.passed);
        print::text(page, words);
        print::number(page, self.refused);
        print::text(page, b" refused\n");
    }
}

// ONE MESSAGE

// The line of the message at `at`.
#[tactic(auto, unfolding(crate::specs::Outcomes::answer_outcome))]
fn say(page: &mut Page, tape: &[u8], at: usize, step: Step) -> Outcome
    requires { at ≤ step.next }
    ensures { result ≡ answer_outcome step.answer }
{
    print_place(page, at);
    match step.answer {
        None => Outcome::Answered,
        Some(Ok(())) => {
            print_accepted(page, step.next - at);
            Outcome::Answered
        }
        Some(Err(fault)) => {
            print_refused(page, fault, rows::rest(tape, at));
            Outcome::Refused
        }
    }
}

// ALL OF THEM

// Under an accepted table, which is indexed once.
fn check_under(
    page: &mut Page,
    context: Context,
    index: &[u16],
    tape: &[u8],
    scratch: &mut [u8],
) -> Outcome
    requires { Checked context.table.now index.now (Ok tt) }
    ensures { result ≡ tape_outcome (tape_answers context.entry.table.now tape.now (under context.entry.store.now context.entry.customer (length scratch.old))) }
{
    let Context {
        table,
        store,
        customer,
    } = context;
    let mut worst = Outcome::Answered;
    let mut totals = Totals::default();
    let mut at = 0;
    // By places: `TapeReader` would index the table anew for each message.
    while at < tape.len() {
        let step = tape::step_under(table, index, store, customer, tape, at, scratch);
        let outcome = say(page, tape, at, step);
        worst = outcome::worse(worst, outcome);
        totals.count(outcome == Outcome::Refused);
        at = step.next;
    }
    totals.print(page, b" accepted, ");
    worst
}

// A refused table is one refusal where there is a byte to read, and none where there is not. The words are those of `Totals::print`.
pub fn refuse_table(
    page: &mut Page,
    table: &[u8],
    store: &[u8],
    tape: &[u8],
    words: &[u8],
) -> Outcome
    ensures { result ≡ cond (eqb (length tape.now) 0) Answered Refused }
{
    let mut totals = Totals::default();
    if tape.is_empty() {
        totals.print(page, words);
        return Outcome::Answered;
    }
    print_place(page, 0);
    let refused = Fault {
        number: 20,
        place: 0,
    };
    refusal::refuse(page, refused, table, store, tape);
    totals.count(true);
    totals.print(page, words);
    Outcome::Refused
}

// Every message of a tape, past those that are refused.
pub fn check_tape(page: &mut Page, context: Context, tape: &[u8], scratch: &mut [u8]) -> Outcome
    ensures { result ≡ tape_outcome (tape_answers context.entry.table.now tape.now (under context.entry.store.now context.entry.customer (length scratch.old))) }
{
    let mut index = [0u16; 322];
    let Ok(()) = table::index_table(context.table, &mut index) else {
        return refuse_table(page, context.table, context.store, tape, b" accepted, ");
    };
    check_under(page, context, &index, tape, scratch)
}
