// A whole tape of messages, stored end to end, read one by one past those that are refused.
#![tactic(auto)]

ghost use Rattle.std.specs.Prelude.{IfSome, Ok, Err, Some, ◌≤◌, ◌≡◌, ℕ, ◌+◌, ◌<◌, List, length};
ghost use Rattle.table.specs.Index.{Checked};
ghost use Rattle.tape.specs.Tape.{end_of, step_to, tape_step, tape_scratch, handed, handed_from};
ghost use Rattle.tape.specs.Hands.{Hands};
ghost use Rattle.opening.specs.Opening.{Under, under, message_verdict, Opened};

use schema::Fault;

// What the reader says of the next message: `None` at the tape's end.
pub type Answer = Option<Result<(), Fault>>;

// An answer, and the place on the tape where the reader goes on.
#[derive(Clone, Copy, Debug)]
pub struct Step {
    pub answer: Answer,
    pub next: usize,
}

// The tape, and the place on it that the reader has come to. At or behind its end the tape has ended.
#[derive(Clone, Copy, Debug)]
pub struct TapeReader<'a> {
    pub tape: &'a [u8],
    pub at: usize,
}

// A message's own bytes, the empty part if it is refused, with its answer.
#[derive(Clone, Copy, Debug)]
pub struct TapeMessage<'a> {
    pub bytes: &'a [u8],
    pub answer: Answer,
}

// THE TAPE AND A PLACE

// Where the message at a place ends, by its size word; none where no message stands there whole.
fn end_of(tape: &[u8], at: usize) -> Option<usize>
    ensures value { result ≡ end_of tape.now at }
    ensures inside { IfSome result (λ end. (at ≤ end) × (end ≤ length tape.now)) }
{
    if tape.len() < at {
        return None;
    }
    let left = tape.len() - at;
    if left < 4 {
        return None;
    }
    let size = wire::read_u32(tape, at);
    if left - 4 < size {
        return None;
    }
    Some(at + (4 + size))
}

// A refusal that ends the tape.
fn last(fault: Fault, end: usize) -> Step
    ensures { result ≡ step_to (Some (Err fault)) end }
{
    Step {
        answer: Some(Err(fault)),
        next: end,
    }
}

// The step at a place before the tape's end, under an accepted table: for loops that have its index.
pub fn step_under(
    table: &[u8],
    index: &[u16],
    store: &[u8],
    customer: u16,
    tape: &[u8],
    at: usize,
    scratch: &mut [u8],
) -> Step
    requires { (Checked table.now index.now (Ok tt)) × (at < length tape.now) }
    ensures value { result ≡ tape_step table.now tape.now at (under store.now customer (length scratch.old)) }
    ensures scratch_after { scratch.new ≡ tape_scratch table.now store.now tape.now at scratch.old }
{
    let Some(next) = end_of(tape, at) else {
        let cut = Fault {
            number: 22,
            place: at,
        };
        return last(cut, tape.len());
    };
    let opened = opening::open_under(table, index, store, customer, &tape[at..next], scratch);
    Step {
        answer: Some(opened.and(Ok(()))),
        next,
    }
}

// The step at a place: what the message there is, and where the next one stands.
pub fn step_at(
    table: &[u8],
    store: &[u8],
    customer: u16,
    tape: &[u8],
    at: usize,
    scratch: &mut [u8],
) -> Step
    ensures value { result ≡ tape_step table.now tape.now at (under store.now customer (length scratch.old)) }
    ensures scratch_after { scratch.new ≡ tape_scratch table.now store.now tape.now at scratch.old }
{
    if tape.len() <= at {
        return Step {
            answer: None,
            next: at,
        };
    }
    let mut index = [0u16; 322];
    let Ok(()) = table::index_table(table, &mut index) else {
        let refused = Fault {
            number: 20,
            place: 0,
        };
        return last(refused, tape.len());
    };
    step_under(table, &index, store, customer, tape, at, scratch)
}

// The bytes of the message at a place; the empty part where none stands there whole.
fn message_at<'a>(tape: &'a [u8], at: usize) -> &'a [u8]
    ensures what { result.now ≡ handed tape.now at (Some (Ok tt)) }
    ensures block { result.ref_ptr.0 ≡ tape.entry.ref_ptr.0 }
    ensures offset { result.ref_ptr.1 ≡ tape.entry.ref_ptr.1 + handed_from tape.now at (Some (Ok tt)) }
{
    let Some(end) = end_of(tape, at) else {
        return &tape[0..0];
    };
    &tape[at..end]
}

// What is handed out with an answer: the message where it is accepted.
pub fn part_at<'a>(tape: &'a [u8], at: usize, answer: Answer) -> &'a [u8]
    ensures what { result.now ≡ handed tape.now at answer }
    ensures block { result.ref_ptr.0 ≡ tape.entry.ref_ptr.0 }
    ensures offset { result.ref_ptr.1 ≡ tape.entry.ref_ptr.1 + handed_from tape.now at answer }
{
    match answer {
        Some(Ok(())) => message_at(tape, at),
        Some(Err(_)) => &tape[0..0],
        None => &tape[0..0],
    }
}

// THE READER

impl<'a> TapeReader<'a> {
    // A reader at the tape's start.
    pub fn new(tape: &'a [u8]) -> Self
        ensures { (result.tape ≡ tape.entry) × (result.at ≡ 0) }
    {
        TapeReader { tape, at: 0 }
    }

    // Hands out the next message's own bytes, the empty part if it is refused, with its answer, and moves on.
    pub fn next_message(
        &mut self,
        table: &[u8],
        store: &[u8],
        customer: u16,
        scratch: &mut [u8],
    ) -> TapeMessage<'a>
        ensures { Hands (tape_step table.now self.old.tape.now self.old.at (under store.now customer (length scratch.old))) self.old result self.new × (scratch.new ≡ tape_scratch table.now store.now self.old.tape.now self.old.at scratch.old) }
    {
        let tape = self.tape;
        let at = self.at;
        let Step { answer, next } = step_at(table, store, customer, tape, at, scratch);
        self.at = next;
        TapeMessage {
            bytes: part_at(tape, at, answer),
            answer,
        }
    }
}
