// One ledger line for each message of the Blank group that nothing refuses.
//
// Of `codec` it sees what its public questions' contracts and its stated theorems say, and nothing else.
#![tactic(auto)]

ghost use Rattle.std.specs.Prelude.{◌≡◌, ◌+◌, ◌≤◌, length};
ghost use Rattle.wire.specs.Bytes.{bytes_of, splice};
ghost use Rattle.opening.specs.Opening.{under, scratch_after};
ghost use Rattle.ledger.specs.Ledger.{word_of, barcode_with, line_with, line_from, call, line_of, lines, enters, entered, Enters};

use codec::{Fault, Number};

const LB: [u8; 2] = *b"LB";

// The Blank group's fields, three bytes each (type, optional, sequence): a string, two u32, an enumeration and an
// optional string.
const BLANK: [u8; 15] = [17, 0, 0, 5, 0, 0, 5, 0, 0, 20, 0, 0, 17, 1, 0];

const OTHER_FIELDS: Fault = Fault {
    number: 54,
    place: 0,
};

const BAD_BARCODE: Fault = Fault {
    number: 55,
    place: 0,
};

const FULL: Fault = Fault {
    number: 56,
    place: 0,
};

// The line of a message of the Blank group, whose type id is `blank`, behind the first `fill` bytes of the ledger: the
// message's own faults, 54, 55, 56.
pub fn add_line(
    table: &[u8],
    store: &[u8],
    customer: u16,
    message: &[u8],
    scratch: &mut [u8],
    blank: u64,
    ledger: &mut [u8],
    fill: usize,
) -> Result<usize, Fault>
    ensures value { result ≡ enters (lines ledger.old fill) (line_of (call table.now message.now (under store.now customer (length scratch.old)) blank)) }
    ensures ledger_after { ledger.new ≡ (entered (lines ledger.old fill) (line_of (call table.now message.now (under store.now customer (length scratch.old)) blank))).bytes }
    ensures scratch_after { scratch.new ≡ scratch_after table.now store.now message.now scratch.old }
{
    let front = codec::read_front(table, store, customer, message, scratch, blank, &BLANK)?;
    let Some(front) = front else {
        return Err(OTHER_FIELDS);
    };
    let Ok(part) = front.first else {
        return Err(BAD_BARCODE);
    };
    enter(
        &message[part.start..part.start + part.length],
        word_of(front.second),
        word_of(front.third),
        word_of(front.fourth),
        ledger,
        fill,
    )
}

// The line with these values: 55, 56.
fn enter(
    barcode: &[u8],
    density: usize,
    speed: usize,
    grade: usize,
    ledger: &mut [u8],
    fill: usize,
) -> Result<usize, Fault>
    ensures { Enters (lines ledger.old fill) (line_from barcode.now (bytes_of 4 density) (bytes_of 4 speed) (bytes_of 4 grade)) result ledger.new }
{
    if barcode.len() < 1 {
        return Err(BAD_BARCODE);
    }
    if 40 < barcode.len() {
        return Err(BAD_BARCODE);
    }
    if ledger.len() < fill {
        return Err(FULL);
    }
    if ledger.len() - fill < 64 {
        return Err(FULL);
    }
    write_line(barcode, density, speed, grade, ledger, fill);
    Ok(fill + 64)
}

// WRITING

// A number whose low four bytes are the wire bytes of a u32 or an enumeration.
fn word_of(value: Result<Number, Fault>) -> usize
    ensures { result ≡ word_of value }
{
    let Ok(number) = value else {
        return 0;
    };
    match number {
        Number::Signed(x) => wire::i64_to_bits(x) as usize,
        Number::Unsigned(x) => x as usize,
        Number::Bool(_) => 0,
        Number::Decimal {
            exponent: _,
            mantissa: _,
        } => 0,
        Number::Float(_) => 0,
        Number::NanBits(_) => 0,
    }
}

// "mark `LB`, barcode count u8, barcode up to 40 bytes and zeros, density, speed and grade as wire bytes, zeros to 64"
fn write_line(
    barcode: &[u8],
    density: usize,
    speed: usize,
    grade: usize,
    ledger: &mut [u8],
    fill: usize,
)
    requires { (length barcode.now ≤ 40) × (fill + 64 ≤ length ledger.old) }
    ensures { ledger.new ≡ splice 64 fill (line_with barcode.now (bytes_of 4 density) (bytes_of 4 speed) (bytes_of 4 grade)) ledger.old }
{
    write_barcode(barcode, ledger, fill);
    wire::write_u32(ledger, fill + 43, density);
    wire::write_u32(ledger, fill + 47, speed);
    wire::write_u32(ledger, fill + 51, grade);
    wire::fill(ledger, fill + 55, 9, 0);
}

fn write_barcode(barcode: &[u8], ledger: &mut [u8], fill: usize)
    requires { (length barcode.now ≤ 40) × (fill + 64 ≤ length ledger.old) }
    ensures { ledger.new ≡ splice 43 fill (barcode_with barcode.now) ledger.old }
{
    let count = barcode.len();
    wire::write_mark(ledger, fill, LB);
    wire::fill(ledger, fill + 2, 1, count as u8);
    wire::copy(ledger, fill + 3, barcode, 0, count);
    wire::fill(ledger, fill + (3 + count), 40 - count, 0);
}
