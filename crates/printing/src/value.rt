// Values as text, the same wherever one is shown. A date, a time and a float are as people read them, with the number that they are
// beside them.
use crate::print::Page;
use crate::{letters, print};
use reading::Number;
use std::fmt::Write;

// NUMBERS

// A number by the type of its field.

fn print_signed(page: &mut Page, number: u8, x: i64) {
    let mut text = [0u8; 48];
    let n = match number {
        12 => values::date(x, &mut text),
        13 => values::millitime(x, &mut text),
        14 => values::nanotime(x, &mut text),
        _ => return print::number(page, x),
    };
    print::text(page, &text[..n]);
    let _ = write!(page, " ({x})");
}

fn print_unsigned(page: &mut Page, number: u8, x: u64) {
    let mut text = [0u8; 48];
    let n = match number {
        15 => values::time_of_day_milli(x, &mut text),
        16 => values::time_of_day_nano(x, &mut text),
        _ => return print::number(page, x),
    };
    print::text(page, &text[..n]);
    let _ = write!(page, " ({x})");
}

// The float of these bits.
fn print_bits(page: &mut Page, bits: u64) {
    let mut text = [0u8; 32];
    let n = floats::text(bits, &mut text);
    print::text(page, &text[..n]);
    print::text(page, b" (");
    print::hex_number(page, bits, 16);
    print::text(page, b")");
}

// A NaN does not come as a float.
fn print_float(page: &mut Page, x: f64) {
    if !x.is_nan() {
        print_bits(page, x.to_bits());
    }
}

// A number of a field of this type. A decimal is the pair of its mantissa and its exponent, so it is not reckoned out.
pub fn print_number(page: &mut Page, number: u8, n: Number) {
    match n {
        Number::Signed(x) => print_signed(page, number, x),
        Number::Unsigned(x) => print_unsigned(page, number, x),
        Number::Bool(x) => print::number(page, x),
        Number::Decimal { exponent, mantissa } => {
            let _ = write!(page, "{mantissa}e{exponent}");
        }
        Number::Float(x) => print_float(page, x),
        Number::NanBits(x) => print_bits(page, x),
    }
}

// TYPES

// The types' names, those of Blink's schema language where it has one.
fn type_name(number: u8) -> &'static [u8] {
    match number {
        1 => b"u8",
        2 => b"i8",
        3 => b"u16",
        4 => b"i16",
        5 => b"u32",
        6 => b"i32",
        7 => b"u64",
        0 | 8 => b"i64",
        9 => b"f64",
        10 => b"decimal",
        11 => b"bool",
        12 => b"date",
        13 => b"millitime",
        14 => b"nanotime",
        15 => b"timeOfDayMilli",
        16 => b"timeOfDayNano",
        17 => b"string",
        18 => b"binary",
        19 => b"fixed",
        20 => b"enumeration",
        21 => b"static group",
        22 => b"dynamic group",
        _ => b"object",
    }
}

pub fn print_type(page: &mut Page, number: u8) {
    print::text(page, type_name(number));
}

// BYTES

// The bytes of a field of this type: a string as text, all others in hex.
pub fn print_bytes(page: &mut Page, number: u8, bytes: &[u8]) {
    if number == 17 {
        letters::print_string(page, bytes);
    } else {
        print::hex(page, bytes);
    }
}
