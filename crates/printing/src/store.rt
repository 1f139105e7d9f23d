// A settings store as text, one line for each record.
//
// The store is one that passed, so records of nine bytes stand from its start on, and zeros behind them. Nothing here rests on it: where
// a record is not one, the text stops.
ghost use Rattle.std.specs.Prelude.{◌≡◌, ◌&&◌, ◌+◌, ◌*◌, ◌/◌, ◌≤◌, length, eqb};
ghost use Rattle.std.specs.Option.{option_map_or};
ghost use Rattle.settings.specs.Store.{customer_of, last_of, stands};

use crate::print;
use crate::print::Page;
use std::fmt::Write;

const CS: [u8; 2] = *b"CS";

#[tactic(auto, unfolding(settings::specs::Store::stands))]
fn is_record(store: &[u8], n: usize) -> bool
    requires { 9 * n + 9 ≤ length store.now }
    ensures { result ≡ stands store.now n }
{
    wire::has_mark(store, 9 * n, CS)
}

// Whether record n is one of this customer.
fn is_of(store: &[u8], n: usize, customer: usize) -> bool
    requires { 9 * n + 9 ≤ length store.now }
    ensures { result ≡ stands store.now n && eqb (customer_of store.now n) customer }
{
    is_record(store, n) && wire::read_u16(store, 9 * n + 2) == customer
}

// The customer's last record.
fn newest(store: &[u8], customer: usize) -> Option<usize>
    ensures { option_map_or (λ n. n + 1) result 0 ≡ last_of (λ n. stands store.now n && eqb (customer_of store.now n) customer) (length store.now / 9) }
{
    for n in (0..store.len() / 9).rev() {
        if is_of(store, n, customer) {
            return Some(n);
        }
    }
    None
}

// The faults that are ignored, by number.
pub fn print_ignored(page: &mut Page, absent: bool, pads: bool, unused: bool) {
    print::text(page, b"ignores");
    for (number, is_ignored) in [(4, absent), (6, pads), (8, unused)] {
        if is_ignored {
            let _ = write!(page, " {number}");
        }
    }
    if !absent && !pads && !unused {
        print::text(page, b" nothing");
    }
}

// The customer's newest record governs.
fn print_record(page: &mut Page, store: &[u8], n: usize)
    requires { 9 * n + 9 ≤ length store.now }
{
    let at = 9 * n;
    let customer = wire::read_u16(store, at + 2);
    let version = wire::read_u16(store, at + 4);
    let _ = write!(page, "customer {customer} version {version} ");
    print_ignored(
        page,
        store[at + 6] == 1,
        store[at + 7] == 1,
        store[at + 8] == 1,
    );
    if newest(store, customer) == Some(n) {
        print::text(page, b" (governs)");
    }
    print::end_line(page);
}

pub fn print_store(page: &mut Page, store: &[u8]) {
    for n in 0..store.len() / 9 {
        if !is_record(store, n) {
            return;
        }
        print_record(page, store, n);
    }
}
