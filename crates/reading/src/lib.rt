// Reading one field of an accepted message: find where its value lies, then read it there.
//
// Nothing is tested again. That each value lies inside the message is what its check has shown, under
// whatever setting: what is accepted is accepted where all that may be is ignored (`lax`).
#![tactic(auto)]

ghost use Rattle.std.specs.Prelude.{◌≡◌, true, [], ◌∷◌, ◌+◌, ◌-◌, ◌*◌, ◌<◌, ◌≤◌, length};
ghost use Rattle.wire.specs.Bytes.{part, le, signed};
ghost use Rattle.schema.specs.Schema.{member, fields_width};
ghost use Rattle.schema.specs.Table.{schema};
ghost use Rattle.schema.specs.Layout.{Layout, width_in};
ghost use Rattle.schema.specs.FieldKinds.{Widths};
ghost use Rattle.settings.specs.Store.{lax};
ghost use Rattle.reading.specs.Item.{Accepted, sequence_item, value_item, field_item, item_from, item_of, field_in, fields_in, Finds};
ghost use Rattle.reading.specs.Number.{number_width, float_of, decimal_of, number_of, number_at};
ghost use Rattle.reading.specs.declared.Number.TheVariants.{Unsigned, Signed};
ghost use Rattle.reading.specs.Part.{part_of, part_at, bytes_in, start_of, verdict_of};
ghost use Rattle.reading.specs.Laid.{Led, FieldLaid, Laid, ItemLaid};

use schema::{Fault, FieldKind};

// Where an item lies, and the row of its field, which is the place of the field's record in the table.
#[derive(Clone, Copy, Debug, PartialEq, Eq)]
pub struct Located {
    pub row: usize,
    pub place: usize,
}

// An item's bytes: where they start in the message and how many they are.
#[derive(Clone, Copy, Debug, PartialEq, Eq)]
pub struct Part {
    pub start: usize,
    pub length: usize,
}

// An item's number. A float's bits may be a NaN's, of which a float keeps no more than that it is one.
#[derive(Clone, Copy, Debug, PartialEq)]
pub enum Number {
    Signed(i64),
    Unsigned(u64),
    Bool(bool),
    Decimal { exponent: i8, mantissa: i64 },
    Float(f64),
    NanBits(u64),
}

// "28 no such field, 29 absent, 28 no such item, 48 other kind (each at place 0)"

const NO_SUCH: Fault = Fault {
    number: 28,
    place: 0,
};

const ABSENT: Fault = Fault {
    number: 29,
    place: 0,
};

const OTHER_KIND: Fault = Fault {
    number: 48,
    place: 0,
};

// WHERE AN ITEM LIES
// A group's fields have their records in the table from `row` on. The group's bytes are a message, or
// a dynamic group in one.

// Item `item` of the sequence whose offset stands at `at`.
fn locate_in_sequence(
    table: &[u8],
    index: &[u16],
    row: usize,
    group: &[u8],
    at: usize,
    item: usize,
) -> Result<Located, Fault>
    requires { (Widths index.now) × (row + 16 ≤ length table.now) × (Led group.now at) }
    ensures { Finds table.now result (sequence_item (width_in index.now) (field_in table.now row) group.now at item) }
{
    let start = at + wire::read_u32(group, at);
    if item < wire::read_u32(group, start) {
        let width = schema::kind_width(index, schema::kind_at(table, row));
        return Ok(Located {
            row,
            place: start + 4 + item * width,
        });
    }
    Err(NO_SUCH)
}

// Item `item` of the field whose value, or offset, stands at `at`.
fn locate_value(
    table: &[u8],
    index: &[u16],
    row: usize,
    group: &[u8],
    at: usize,
    item: usize,
) -> Result<Located, Fault>
    requires { (Widths index.now) × (row + 16 ≤ length table.now) × ((field_in table.now row).sequence ≡ true → Led group.now at) }
    ensures { Finds table.now result (value_item (width_in index.now) (field_in table.now row) group.now at item) }
{
    if schema::is_sequence(table, row) {
        return locate_in_sequence(table, index, row, group, at, item);
    }
    if item == 0 {
        return Ok(Located { row, place: at });
    }
    Err(NO_SUCH)
}

// Item `item` of the field at `at`. "29 absent, 28 no such item"
fn locate_item(
    table: &[u8],
    index: &[u16],
    row: usize,
    group: &[u8],
    at: usize,
    item: usize,
) -> Result<Located, Fault>
    requires { (Widths index.now) × (row + 16 ≤ length table.now) × (FieldLaid (width_in index.now) group.now (field_in table.now row) at) }
    ensures { Finds table.now result (field_item (width_in index.now) (field_in table.now row) group.now at item) }
{
    let mut place = at;
    if schema::is_optional(table, row) {
        if group[at] == 0 {
            return Err(ABSENT);
        }
        place += 1;
    }
    locate_value(table, index, row, group, place, item)
}

// How wide the first `count` fields are.
fn fields_width(table: &[u8], index: &[u16], row: usize, count: usize) -> usize
    requires { (Widths index.now) × (row + 16 * count ≤ length table.now) × (length table.now ≤ 65536) }
    ensures { result ≡ fields_width (width_in index.now) (fields_in table.now row count) }
{
    let mut width = 0;
    for i in 0..count {
        width += schema::field_width(table, index, row + 16 * i);
    }
    width
}

// Item `item` of field `field` of the `count` fields whose values start at `at`.
pub fn locate_from(
    table: &[u8],
    index: &[u16],
    row: usize,
    count: usize,
    group: &[u8],
    at: usize,
    field: usize,
    item: usize,
) -> Result<Located, Fault>
    requires { (Widths index.now) × (row + 16 * count ≤ length table.now) × (length table.now ≤ 65536) × (Laid (width_in index.now) group.now (fields_in table.now row count) at) }
    ensures { Finds table.now result (item_from (width_in index.now) (fields_in table.now row count) group.now at field item) }
{
    if count <= field {
        return Err(NO_SUCH);
    }
    let before = fields_width(table, index, row, field);
    locate_item(table, index, row + 16 * field, group, at + before, item)
}

// Item `item` of the message's field `field`.
pub fn locate(
    table: &[u8],
    index: &[u16],
    message: &[u8],
    field: usize,
    item: usize,
) -> Result<Located, Fault>
    requires { (Layout table.now index.now) × (Accepted lax table.now message.now) }
    ensures { Finds table.now result (item_of (schema table.now) message.now field item) }
{
    let group = schema::find(
        table,
        index,
        schema::group_total(index),
        wire::read_u64(message, 4),
    );
    let at = schema::group_place(index, group);
    locate_from(
        table,
        index,
        at + 16,
        schema::field_count(table, at),
        message,
        16,
        field,
        item,
    )
}

// THE NUMBER

fn unsigned_at(bytes: &[u8], at: usize, width: u8) -> Number
    requires { (at + width ≤ length bytes.now) × (member width (1 ∷ (2 ∷ (4 ∷ (8 ∷ [])))) ≡ true) }
    ensures { result ≡ Unsigned (le (part width at bytes.now)) }
{
    match width {
        1 => Number::Unsigned(wire::wide(bytes[at]) as u64),
        2 => Number::Unsigned(wire::read_u16(bytes, at) as u64),
        4 => Number::Unsigned(wire::read_u32(bytes, at) as u64),
        _ => Number::Unsigned(wire::read_u64(bytes, at)),
    }
}

fn signed_at(bytes: &[u8], at: usize, width: u8) -> Number
    requires { (at + width ≤ length bytes.now) × (member width (1 ∷ (2 ∷ (4 ∷ (8 ∷ [])))) ≡ true) }
    ensures { result ≡ Signed (signed (8 * width - 1) (le (part width at bytes.now))) }
{
    match width {
        1 => Number::Signed(wire::i8_from_bits(bytes[at]) as i64),
        2 => Number::Signed(wire::i16_from_bits(wire::read_u16(bytes, at) as u16) as i64),
        4 => Number::Signed(wire::i32_from_bits(wire::read_u32(bytes, at) as u32) as i64),
        _ => Number::Signed(wire::i64_from_bits(wire::read_u64(bytes, at))),
    }
}

// "10 decimal 9 (i8 exponent, i64 mantissa)"
fn decimal_at(bytes: &[u8], at: usize) -> Number
    requires { at + 9 ≤ length bytes.now }
    ensures { result ≡ decimal_of (part 9 at bytes.now) }
{
    Number::Decimal {
        exponent: wire::i8_from_bits(bytes[at]),
        mantissa: wire::i64_from_bits(wire::read_u64(bytes, at + 1)),
    }
}

fn float_at(bytes: &[u8], at: usize) -> Number
    requires { at + 8 ≤ length bytes.now }
    ensures { result ≡ float_of (le (part 8 at bytes.now)) }
{
    let bits = wire::read_u64(bytes, at);
    if wire::is_nan_bits(bits) {
        return Number::NanBits(bits);
    }
    Number::Float(wire::f64_from_bits(bits))
}

// The number at `at`, of this type of document 01. "48 other kind"
pub fn number_at(bytes: &[u8], at: usize, number: u8) -> Result<Number, Fault>
    requires { at + number_width number ≤ length bytes.now }
    ensures { result ≡ number_of number (part (number_width number) at bytes.now) }
{
    match number {
        1 => Ok(unsigned_at(bytes, at, 1)),
        2 => Ok(signed_at(bytes, at, 1)),
        3 => Ok(unsigned_at(bytes, at, 2)),
        4 => Ok(signed_at(bytes, at, 2)),
        5 => Ok(unsigned_at(bytes, at, 4)),
        6 => Ok(signed_at(bytes, at, 4)),
        7 => Ok(unsigned_at(bytes, at, 8)),
        8 => Ok(signed_at(bytes, at, 8)),
        9 => Ok(float_at(bytes, at)),
        10 => Ok(decimal_at(bytes, at)),
        11 => Ok(Number::Bool(bytes[at] == 1)),
        12 => Ok(signed_at(bytes, at, 4)),
        13 => Ok(signed_at(bytes, at, 8)),
        14 => Ok(signed_at(bytes, at, 8)),
        15 => Ok(unsigned_at(bytes, at, 4)),
        16 => Ok(unsigned_at(bytes, at, 8)),
        20 => Ok(signed_at(bytes, at, 4)),
        _ => Err(OTHER_KIND),
    }
}

// The number that item `item` of the message's field `field` is.
pub fn read_number(
    table: &[u8],
    index: &[u16],
    message: &[u8],
    field: usize,
    item: usize,
) -> Result<Number, Fault>
    requires { (Layout table.now index.now) × (Accepted lax table.now message.now) }
    ensures { result ≡ number_at message.now (item_of (schema table.now) message.now field item) }
{
    let found = locate(table, index, message, field, item)?;
    number_at(message, found.place, table[found.row + 2])
}

// THE BYTES

// The part of the item at `at`, whose field has its record at `row`.
pub fn part_at(table: &[u8], row: usize, bytes: &[u8], at: usize) -> Result<Part, Fault>
    requires { (row + 16 ≤ length table.now) × (ItemLaid bytes.now (field_in table.now row).kind at) }
    ensures { result ≡ part_of (field_in table.now row).type (field_in table.now row).kind bytes.now at }
{
    if table[row + 2] == 19 {
        return Ok(Part {
            start: at,
            length: wire::wide(table[row + 5]),
        });
    }
    let kind = schema::kind_at(table, row);
    match kind {
        FieldKind::Plain { width: _ } => Err(OTHER_KIND),
        FieldKind::Number { tested: _ } => Err(OTHER_KIND),
        FieldKind::Inline {
            utf8: _,
            capacity: _,
        } => Ok(Part {
            start: at + 1,
            length: wire::wide(bytes[at]),
        }),
        FieldKind::Indirect { utf8: _ } => {
            let start = at + wire::read_u32(bytes, at);
            Ok(Part {
                start: start + 4,
                length: wire::read_u32(bytes, start),
            })
        }
        FieldKind::Static { group: _ } => Err(OTHER_KIND),
        FieldKind::Dynamic { allowed: _ } => {
            let start = at + wire::read_u32(bytes, at);
            Ok(Part {
                start,
                length: 4 + wire::read_u32(bytes, start),
            })
        }
    }
}

// The part of item `item` of the message's field `field`.
pub fn find_part(
    table: &[u8],
    index: &[u16],
    message: &[u8],
    field: usize,
    item: usize,
) -> Result<Part, Fault>
    requires { (Layout table.now index.now) × (Accepted lax table.now message.now) }
    ensures { result ≡ part_at message.now (item_of (schema table.now) message.now field item) }
{
    let found = locate(table, index, message, field, item)?;
    part_at(table, found.row, message, found.place)
}

// "the exact part of the caller's message", or the empty part on refusal
pub fn read_bytes<'a>(
    table: &[u8],
    index: &[u16],
    message: &'a [u8],
    field: usize,
    item: usize,
) -> &'a [u8]
    requires { (Layout table.now index.now) × (Accepted lax table.now message.now) }
    ensures what { result.now ≡ bytes_in message.now (part_at message.now (item_of (schema table.now) message.now field item)) }
    ensures block { result.ref_ptr.0 ≡ message.entry.ref_ptr.0 }
    ensures offset { result.ref_ptr.1 ≡ message.entry.ref_ptr.1 + start_of (part_at message.now (item_of (schema table.now) message.now field item)) }
{
    let Ok(part) = find_part(table, index, message, field, item) else {
        return &message[0..0];
    };
    &message[part.start..part.start + part.length]
}

// Whether there are bytes to read, and if not, why: "a twin question gives the number".
pub fn read_bytes_verdict(
    table: &[u8],
    index: &[u16],
    message: &[u8],
    field: usize,
    item: usize,
) -> Result<(), Fault>
    requires { (Layout table.now index.now) × (Accepted lax table.now message.now) }
    ensures { result ≡ verdict_of (part_at message.now (item_of (schema table.now) message.now field item)) }
{
    find_part(table, index, message, field, item).and(Ok(()))
}
