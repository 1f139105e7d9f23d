// The settings store: a lent buffer of records of nine bytes, from its start on, and zeros behind them.
// A record is named by its number, from 0.
#![tactic(auto)]

ghost use Rattle.std.specs.Prelude.{Err, IfOk, ◌≡◌, ◌&&◌, [], ◌∷◌, ℕ, ◌+◌, ◌*◌, ◌≤◌, ◌<◌, ◌^◌, length, get_or, drop, eqb};
ghost use Rattle.wire.specs.Bytes.{splice, all_zero};
ghost use Rattle.schema.specs.Faults.{fault_at, need};
ghost use Rattle.settings.specs.Store.{customer_of, version_of, flag_of, flags_ok, ignoring, newest, versioned, above, follows, run, records, sound, ignored_of, ignored_by, record_of, store_verdict, setting_of, setting_at, add_verdict, store_after};
ghost use Rattle.store.specs.Check.{standing, rising_from, rising, named};

use schema::Fault;
use settings::Ignored;

const MARK: [u8; 2] = *b"CS";

// A record's flag bytes, each 0 or 1 where they are good.
#[derive(Clone, Copy)]
struct Flags {
    absent: u8,
    pads: u8,
    unused: u8,
}

// Whether a store passes.
pub fn check_store(store: &[u8]) -> Result<(), Fault>
    ensures { result ≡ store_verdict store.now }
{
    sound_records(store)?;
    Ok(())
}

// What governs a customer's messages: its newest version.
pub fn find_settings(store: &[u8], customer: u16) -> Result<Ignored, Fault>
    ensures { result ≡ setting_of store.now customer }
{
    let n = sound_records(store)?;
    let last = newest(store, n, usize::from(customer));
    Ok(ignored_by(store, last))
}

// One version of a customer's settings.
pub fn read_settings(store: &[u8], customer: u16, version: u16) -> Result<Ignored, Fault>
    ensures { result ≡ setting_at store.now customer version }
{
    let n = sound_records(store)?;
    let Some(found) = versioned(store, n, usize::from(customer), usize::from(version)) else {
        return Err(Fault {
            number: 59,
            place: 0,
        });
    };
    Ok(ignored_of(store, found))
}

// A new version, behind the last record. On a refusal the store stays as it was.
pub fn add_settings(
    store: &mut [u8],
    customer: u16,
    version: u16,
    absent: u8,
    pads: u8,
    unused: u8,
) -> Result<(), Fault>
    ensures value { result ≡ add_verdict store.old customer version absent pads unused }
    ensures store_after { store.new ≡ store_after store.old customer version absent pads unused }
{
    let flags = Flags {
        absent,
        pads,
        unused,
    };
    let n = sound_records(store)?;
    if !may_follow(store, n, customer, version, flags) {
        return Err(damaged(n));
    }
    if store.len() - 9 * n < 9 {
        return Err(Fault {
            number: 51,
            place: 0,
        });
    }
    write_record(store, 9 * n, customer, version, flags);
    Ok(())
}

// How many records a sound store holds: all is zero behind its good ones. Each question begins with it, so it is inlined:
// with a call a question of a small store takes a tenth longer.
#[inline(always)]
fn sound_records(store: &[u8]) -> Result<usize, Fault>
    ensures value { result ≡ need (sound store.now) (Err (fault_at 50 (9 * records store.now))) (Ok (records store.now)) }
    ensures room { IfOk result (λ n. 9 * n ≤ length store.now) }
{
    let count = count_records(store);
    if !is_sound(store, count) {
        return Err(damaged(count));
    }
    Ok(count)
}

// The store is at fault behind its good records, or would be.
fn damaged(n: usize) -> Fault
    requires { 9 * n < 2 ^ 64 }
    ensures { result ≡ fault_at 50 (9 * n) }
{
    Fault {
        number: 50,
        place: 9 * n,
    }
}

// HOW MANY RECORDS ARE GOOD

// In two phases, so that its time is linear in the store's length whatever the store holds.
fn count_records(store: &[u8]) -> usize
    ensures { (result ≡ records store.now) × (9 * result ≤ length store.now) }
{
    let n = count_standing(store);
    if n <= 8 {
        few_rising(store, n)
    } else {
        count_rising(store, n)
    }
}

// How many records stand from the start on, with good flags.
fn count_standing(store: &[u8]) -> usize
    ensures { (result ≡ run (standing store.now) (length store.now) 0) × (9 * result ≤ length store.now) }
{
    let most = store.len() / 9;
    for n in 0..most {
        if !is_standing(store, n) {
            return n;
        }
    }
    most
}

fn is_standing(store: &[u8], n: usize) -> bool
    requires { 9 * n + 9 ≤ length store.now }
    ensures { result ≡ standing store.now n }
{
    wire::has_mark(store, 9 * n, MARK) && flags_of(store, n).are_good()
}

fn flags_of(store: &[u8], n: usize) -> Flags
    requires { 9 * n + 9 ≤ length store.now }
    ensures { result ≡ record { absent = flag_of store.now n 0; pads = flag_of store.now n 1; unused = flag_of store.now n 2 } }
{
    Flags {
        absent: store[9 * n + 6],
        pads: store[9 * n + 7],
        unused: store[9 * n + 8],
    }
}

impl Flags {
    fn are_good(self) -> bool
        ensures { result ≡ flags_ok self.absent self.pads self.unused }
    {
        self.absent <= 1 && self.pads <= 1 && self.unused <= 1
    }

    fn ignored(self) -> Ignored
        ensures { result ≡ ignoring self.absent self.pads self.unused }
    {
        Ignored {
            absent: self.absent == 1,
            pads: self.pads == 1,
            unused: self.unused == 1,
        }
    }
}

// How many of the first n records rise, up to the first that does not. Each looks back over all before it: for a few records
// that takes less than slots do.
fn few_rising(store: &[u8], n: usize) -> usize
    requires { 9 * n ≤ length store.now }
    ensures { (result ≡ run (rising store.now) n 0) × (result ≤ n) }
{
    for k in 0..n {
        if !is_rising(store, k, k) {
            return k;
        }
    }
    n
}

// The same of more records, with as many slots as they want: few are cleared at once, and with a slot for every customer no
// look back takes more than one step. A fault among the first records is found before many slots are cleared.
// What calls itself is not inlined, nor are large arrays into it: so a small store pays for no large frame.
fn count_rising(store: &[u8], n: usize) -> usize
    requires { 9 * n ≤ length store.now }
    ensures { (result ≡ run (rising store.now) n 0) × (result ≤ n) }
{
    if n <= 256 {
        return rising_with::<1024>(store, n);
    }
    let first = n / 256;
    let k = count_rising(store, first);
    if k < first {
        return k;
    }
    rising_with::<65536>(store, n)
}

fn rising_with<const SLOTS: usize>(store: &[u8], n: usize) -> usize
    requires { (9 * n ≤ length store.now) × (0 < SLOTS) × (SLOTS ≤ 65536) }
    ensures { (result ≡ run (rising store.now) n 0) × (result ≤ n) }
{
    let mut slots = [0usize; SLOTS];
    rising_in(store, n, &mut slots)
}

// The same with these slots, all of them 0. A slot holds, by its number plus 1, the last record seen of the customers that
// share it: each is looked for from there on. Numbers, since an `Option` takes twice the memory.
fn rising_in(store: &[u8], n: usize, slots: &mut [usize]) -> usize
    requires { (9 * n ≤ length store.now) × (0 < length slots.old) × (length slots.old ≤ 65536) × ((i : ℕ) → get_or slots.old i 0 ≡ 0) }
    ensures { (result ≡ run (rising store.now) n 0) × (result ≤ n) }
{
    for k in 0..n {
        let slot = wire::read_u16(store, 9 * k + 2) % slots.len();
        if !is_rising(store, k, slots[slot]) {
            return k;
        }
        slots[slot] = k + 1;
    }
    n
}

// Whether record number k is above its customer's newest of the first `from` records.
fn is_rising(store: &[u8], k: usize, from: usize) -> bool
    requires { (9 * k + 9 ≤ length store.now) × (from ≤ k) }
    ensures { result ≡ rising_from store.now k from }
{
    let last = newest(store, from, wire::read_u16(store, 9 * k + 2));
    is_above(store, wire::read_u16(store, 9 * k + 4), last)
}

// Whether a version is above that of the record; any is above none.
fn is_above(store: &[u8], version: usize, last: Option<usize>) -> bool
    requires { 9 * named last ≤ length store.now }
    ensures { result ≡ above store.now version (named last) }
{
    match last {
        Some(n) => wire::read_u16(store, 9 * n + 4) < version,
        None => true,
    }
}

// Whether all is zero behind the first n records.
fn is_sound(store: &[u8], n: usize) -> bool
    requires { 9 * n ≤ length store.now }
    ensures { result ≡ all_zero (drop (9 * n) store.now) }
{
    let at = 9 * n;
    wire::all_zero(store, at, store.len() - at)
}

// FINDING A RECORD

// The customer's newest record of the first n.
fn newest(store: &[u8], n: usize, customer: usize) -> Option<usize>
    requires { 9 * n ≤ length store.now }
    ensures { (named result ≡ newest store.now customer n) × (named result ≤ n) }
{
    for k in (0..n).rev() {
        if wire::read_u16(store, 9 * k + 2) == customer {
            return Some(k);
        }
    }
    None
}

// The record of one version.
fn versioned(store: &[u8], n: usize, customer: usize, version: usize) -> Option<usize>
    requires { 9 * n ≤ length store.now }
    ensures { (named result ≡ versioned store.now customer version n) × (named result ≤ n) }
{
    for k in (0..n).rev() {
        if is_version(store, k, customer, version) {
            return Some(k);
        }
    }
    None
}

fn is_version(store: &[u8], n: usize, customer: usize, version: usize) -> bool
    requires { 9 * n + 9 ≤ length store.now }
    ensures { result ≡ eqb (customer_of store.now n) customer && eqb (version_of store.now n) version }
{
    wire::read_u16(store, 9 * n + 2) == customer && wire::read_u16(store, 9 * n + 4) == version
}

// WHAT IT SAYS

// By the customer's newest record; without one nothing is ignored.
fn ignored_by(store: &[u8], last: Option<usize>) -> Ignored
    requires { 9 * named last ≤ length store.now }
    ensures { result ≡ ignored_by store.now (named last) }
{
    match last {
        Some(n) => ignored_of(store, n),
        None => Ignored::default(),
    }
}

fn ignored_of(store: &[u8], n: usize) -> Ignored
    requires { 9 * n + 9 ≤ length store.now }
    ensures { result ≡ ignored_of store.now n }
{
    flags_of(store, n).ignored()
}

// AN ADDITION

// Whether this version with these flags may stand behind the first n records.
fn may_follow(store: &[u8], n: usize, customer: u16, version: u16, flags: Flags) -> bool
    requires { 9 * n ≤ length store.now }
    ensures { result ≡ follows store.now n customer version flags.absent flags.pads flags.unused }
{
    flags.are_good()
        && is_above(
            store,
            usize::from(version),
            newest(store, n, usize::from(customer)),
        )
}

fn write_record(store: &mut [u8], at: usize, customer: u16, version: u16, flags: Flags)
    requires { at + 9 ≤ length store.old }
    ensures { store.new ≡ splice 9 at (record_of customer version flags.absent flags.pads flags.unused) store.old }
{
    wire::write_mark(store, at, MARK);
    wire::write_u16(store, at + 2, usize::from(customer));
    wire::write_u16(store, at + 4, usize::from(version));
    write_flags(store, at + 6, flags);
}

fn write_flags(store: &mut [u8], at: usize, flags: Flags)
    requires { at + 3 ≤ length store.old }
    ensures { store.new ≡ splice 3 at (flags.absent ∷ (flags.pads ∷ (flags.unused ∷ []))) store.old }
{
    store[at] = flags.absent;
    store[at + 1] = flags.pads;
    store[at + 2] = flags.unused;
}
