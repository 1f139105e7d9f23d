// The questions on a settings store, asked and answered.
ghost use Rattle.std.specs.Prelude.{◌≡◌};
ghost use Rattle.settings.specs.Store.{store_verdict};
ghost use Rattle.answers.specs.Outcomes.{outcome_of};
ghost use Rattle.cli.specs.Questions.{store_at};

use answers::outcome::Outcome;
use answers::refusal;
use codec::Ignored;
use inputs::command::StoreQuestion;
use inputs::{arguments, store_command};
use printing::print::Page;
use printing::{print, store};
use transfer::{destination, loaded, named};

// A store that is a file has at most this many bytes.
const LONGEST: usize = 65536;

// Whether the store that argument `i` names has no more. No fault says this, so standard error does.
pub fn fits(rt: &HostRuntime, i: usize, length: usize) -> bool {
    if LONGEST < length {
        named::complain_long(rt, i, LONGEST);
        return false;
    }
    true
}

// Which plain argument names the store.
#[tactic(auto, unfolding(crate::specs::Questions::store_at))]
fn place(question: StoreQuestion) -> usize
    ensures { result ≡ store_at question }
{
    match question {
        StoreQuestion::List => store_command::LISTED,
        StoreQuestion::Get { .. } | StoreQuestion::Add { .. } => store_command::STORE,
    }
}

pub fn ask(rt: &HostRuntime, page: &mut Page, question: StoreQuestion, room: &mut [u8]) -> Outcome {
    let i = arguments::plain(rt, place(question));
    let Some(read) = loaded::read(rt, i, room) else {
        return refusal::fail(page);
    };
    let length = read.length;
    if !fits(rt, i, length) {
        return refusal::fail(page);
    }
    lend(rt, page, question, room, length)
}

// The store is the first `length` bytes of the room.
fn lend(
    rt: &HostRuntime,
    page: &mut Page,
    question: StoreQuestion,
    room: &mut [u8],
    length: usize,
) -> Outcome {
    if room.len() < length {
        return refusal::fail(page);
    }
    answer(rt, page, question, &mut room[0..length])
}

fn answer(rt: &HostRuntime, page: &mut Page, question: StoreQuestion, store: &mut [u8]) -> Outcome {
    match question {
        StoreQuestion::List => list(page, store),
        StoreQuestion::Get { customer, version } => get(page, store, customer, version),
        StoreQuestion::Add {
            customer,
            version,
            ignored,
        } => add(rt, page, store, customer, version, ignored),
    }
}

fn list(page: &mut Page, store: &[u8]) -> Outcome
    ensures { result ≡ outcome_of (store_verdict store.now) }
{
    let verdict = codec::check_store(store);
    let outcome = refusal::say_alone(page, verdict, store);
    if verdict.is_ok() {
        store::print_store(page, store);
    }
    outcome
}

fn get(page: &mut Page, store: &[u8], customer: u16, version: u16) -> Outcome {
    match codec::read_settings(store, customer, version) {
        Ok(ignored) => print_ignored(page, ignored),
        Err(fault) => refusal::explain(page, fault, store),
    }
}

fn print_ignored(page: &mut Page, ignored: Ignored) -> Outcome {
    store::print_ignored(page, ignored.absent, ignored.pads, ignored.unused);
    print::end_line(page);
    Outcome::Answered
}

// The file keeps its length, and on a refusal its bytes.
fn add(
    rt: &HostRuntime,
    page: &mut Page,
    store: &mut [u8],
    customer: u16,
    version: u16,
    ignored: store_command::Ignored,
) -> Outcome {
    let added = codec::add_settings(
        store,
        customer,
        version,
        ignored.absent,
        ignored.pads,
        ignored.unused,
    );
    match added {
        Ok(()) => destination::replace(rt, page, arguments::plain(rt, store_command::STORE), store),
        Err(fault) => refusal::explain(page, fault, store),
    }
}

// A store of zeros has all of its room free.
pub fn create(rt: &HostRuntime, page: &mut Page, records: usize, room: &mut [u8]) -> Outcome {
    if room.len() / 9 < records {
        return refusal::fail(page);
    }
    wire::fill(room, 0, 9 * records, 0);
    destination::create(
        rt,
        page,
        arguments::plain(rt, store_command::STORE),
        rows::part(room, 0, 9 * records),
    )
}
