// What every question about a message begins with: "20, 23, 21, 50, 22", and the walk.
#![tactic(auto)]

ghost use Rattle.std.specs.Prelude.{Ok, ◌≡◌, length, replicate};
ghost use Rattle.table.specs.Index.{Checked};
ghost use Rattle.opening.specs.Opening.{under, scratch_after, Opened};

use schema::Fault;

// Checks the table and the message; where both pass, the index is the table's.
pub fn open_message(
    table: &[u8],
    index: &mut [u16],
    store: &[u8],
    customer: u16,
    message: &[u8],
    scratch: &mut [u8],
) -> Result<usize, Fault>
    requires { index.old ≡ replicate 322 0 }
    ensures opened { Opened table.now message.now (under store.now customer (length scratch.old)) index.new result }
    ensures scratch_after { scratch.new ≡ scratch_after table.now store.now message.now scratch.old }
{
    let Ok(()) = table::index_table(table, index) else {
        return Err(Fault {
            number: 20,
            place: 0,
        });
    };
    open_under(table, index, store, customer, message, scratch)
}

// "23, 21, 50, 22", and the walk, under an accepted table.
pub fn open_under(
    table: &[u8],
    index: &[u16],
    store: &[u8],
    customer: u16,
    message: &[u8],
    scratch: &mut [u8],
) -> Result<usize, Fault>
    requires { Checked table.now index.now (Ok tt) }
    ensures opened { Opened table.now message.now (under store.now customer (length scratch.old)) index.now result }
    ensures scratch_after { scratch.new ≡ scratch_after table.now store.now message.now scratch.old }
{
    if 65536 < message.len() {
        return Err(Fault {
            number: 23,
            place: 0,
        });
    }
    if scratch.len() < message.len() {
        return Err(Fault {
            number: 21,
            place: 0,
        });
    }
    let ignored = store::find_settings(store, customer)?;
    message::check(table, index, message, ignored, scratch)
}
