// How many messages of a tape are accepted, exported so that `bench/` can time a loop that has the table's index. What the
// scratch holds afterwards is not stated.
#![tactic(auto)]

ghost use Rattle.std.specs.Prelude.{Ok, ◌≡◌, length};
ghost use Rattle.table.specs.Index.{Checked};
ghost use Rattle.opening.specs.Opening.{under};
ghost use Rattle.tape.specs.Tape.{tape_answers};
ghost use Rattle.tape_bench.specs.Count.{one, count_accepted};

use tape::{Answer, Step};

fn one_if_accepted(answer: Answer) -> usize
    ensures { result ≡ one answer }
{
    match answer {
        Some(Ok(())) => 1,
        Some(Err(_)) | None => 0,
    }
}

fn count_under(
    table: &[u8],
    index: &[u16],
    store: &[u8],
    customer: u16,
    tape: &[u8],
    scratch: &mut [u8],
) -> usize
    requires { Checked table.now index.now (Ok tt) }
    ensures { result ≡ count_accepted (tape_answers table.now tape.now (under store.now customer (length scratch.old))) }
{
    let mut accepted = 0;
    let mut at = 0;
    while at < tape.len() {
        let Step { answer, next } = tape::step_under(
            table, index, store, customer, tape, at, scratch,
        );
        accepted += one_if_accepted(answer);
        at = next;
    }
    accepted
}

#[unsafe(no_mangle)]
pub extern "C" fn tape_count_accepted(
    table: &[u8],
    store: &[u8],
    customer: u16,
    tape: &[u8],
    scratch: &mut [u8],
) -> usize
    ensures { result ≡ count_accepted (tape_answers table.now tape.now (under store.now customer (length scratch.old))) }
{
    let mut index = [0u16; 322];
    let Ok(()) = table::index_table(table, &mut index) else {
        return 0;
    };
    count_under(table, &index, store, customer, tape, scratch)
}
