// Refusals: a line for programs, and for people what it means and where it is.
ghost use Rattle.std.specs.Prelude.{◌≡◌, not};
ghost use Rattle.answers.specs.declared.outcome.Outcome.TheVariants.{Refused};
ghost use Rattle.answers.specs.Outcomes.{outcome_of};
ghost use Rattle.answers.specs.Faults.{placeless};

use crate::outcome::Outcome;
use codec::Fault;
use printing::print::Page;
use printing::{around, print};

// What the fault means; nothing where it has no words.
pub fn print_words(page: &mut Page, number: u8) {
    let mut words = [0u8; 256];
    let n = faults::copy_words(number, &mut words);
    print::text(page, rows::part(&words, 0, n));
}

fn print_refusal(page: &mut Page, fault: Fault) {
    print::text(page, b"refused ");
    print::number(page, usize::from(fault.number));
    print::text(page, b" at ");
    print::number(page, fault.place);
}

pub fn print_line(page: &mut Page, fault: Fault) {
    print_refusal(page, fault);
    print::end_line(page);
}

// With what it means, where a line is all that there is.
pub fn print_with_words(page: &mut Page, fault: Fault) {
    print_refusal(page, fault);
    print::text(page, b": ");
    print_words(page, fault.number);
    print::end_line(page);
}

// The line for programs.
#[tactic(auto, unfolding(crate::specs::Outcomes::outcome_of))]
pub fn print_verdict(page: &mut Page, verdict: Result<(), Fault>) -> Outcome
    ensures { result ≡ outcome_of verdict }
{
    match verdict {
        Ok(()) => {
            print::text(page, b"accepted\n");
            Outcome::Answered
        }
        Err(fault) => {
            print_line(page, fault);
            Outcome::Refused
        }
    }
}

// Whether the fault's place is a byte to look at.
#[tactic(auto, unfolding(crate::specs::Faults::placeless, crate::specs::Faults::between))]
fn has_place(number: u8) -> bool
    ensures { result ≡ not (placeless number) }
{
    !matches!(number, 20..=23 | 28..=30 | 42 | 46..=48 | 51 | 59)
}

fn print_fault(page: &mut Page, fault: Fault) {
    print_line(page, fault);
    print_words(page, fault.number);
    print::end_line(page);
}

// A refusal of these bytes.
pub fn explain(page: &mut Page, fault: Fault, bytes: &[u8]) -> Outcome
    ensures { result ≡ Refused }
{
    print_fault(page, fault);
    if has_place(fault.number) {
        around::print_around(page, bytes, fault.place);
    }
    Outcome::Refused
}

fn explain_table(page: &mut Page, fault: Fault, table: &[u8]) {
    print_fault(page, fault);
    if let Err(fault) = codec::check_table(table) {
        print::text(page, b"the table: ");
        explain(page, fault, table);
    }
}

fn explain_store(page: &mut Page, fault: Fault, store: &[u8]) {
    print_fault(page, fault);
    print::text(page, b"the store: ");
    around::print_around(page, store, fault.place);
}

// A refusal of the input. Where it is the table that is refused, also why; where it is the store, the bytes shown are the store's.
pub fn refuse(page: &mut Page, fault: Fault, table: &[u8], store: &[u8], input: &[u8]) -> Outcome
    ensures { result ≡ Refused }
{
    match fault.number {
        20 => explain_table(page, fault, table),
        50 => explain_store(page, fault, store),
        _ => {
            explain(page, fault, input);
        }
    }
    Outcome::Refused
}

// What is said of a message that was checked.
#[tactic(auto, unfolding(crate::specs::Outcomes::outcome_of))]
pub fn say(
    page: &mut Page,
    verdict: Result<(), Fault>,
    table: &[u8],
    store: &[u8],
    input: &[u8],
) -> Outcome
    ensures { result ≡ outcome_of verdict }
{
    match verdict {
        Ok(()) => print_verdict(page, verdict),
        Err(fault) => refuse(page, fault, table, store, input),
    }
}

// What is said of a table or a store that was checked.
#[tactic(auto, unfolding(crate::specs::Outcomes::outcome_of))]
pub fn say_alone(page: &mut Page, verdict: Result<(), Fault>, bytes: &[u8]) -> Outcome
    ensures { result ≡ outcome_of verdict }
{
    match verdict {
        Ok(()) => print_verdict(page, verdict),
        Err(fault) => explain(page, fault, bytes),
    }
}

// An error, of which standard error has the reason.
pub fn fail(page: &mut Page) -> Outcome {
    print::text(page, b"error\n");
    Outcome::Failed
}
