// The schema table, and what every walk of a message looks up in it.
//
// `index` is what Layout.antt says of an accepted table: where its records stand, and how wide its
// groups are. Callers ask for a number of it by name, never by its position.
#![tactic(auto)]

ghost use Rattle.std.specs.Prelude.{◌≡◌, ℕ, ◌+◌, ◌*◌, ◌^◌, ◌<◌, ◌≤◌, ◌&&◌, List, [], length, take, drop, ◌==◌, slice_index, slice_index_or};
ghost use Rattle.wire.specs.Bytes.{part};
ghost use Rattle.schema.specs.Schema.{text_ok, member, find, known, allows, kind_width, value_width, field_width};
ghost use Rattle.schema.specs.Faults.{judged};
ghost use Rattle.schema.specs.Symbols.{rank, halve};
ghost use Rattle.schema.specs.Table.{scalar_width, symbol_count, symbol_value, type_id, id_flag, super_number, field_count, stored_width, field_type, field_size, reference, field_at, enums, schema};
ghost use Rattle.schema.specs.Layout.{group_place, group_total, enum_total, symbol_place, symbol_total, width_in, Placed, Layout};
ghost use Rattle.schema.specs.FieldKinds.{kind_from, text_kind, tested_kind, kind_fault, plain_width, Widths};

// A refusal: this number of document 01's, at this place.
#[derive(Clone, Copy, Debug, PartialEq, Eq)]
pub struct Fault {
    pub number: u8,
    pub place: usize,
}

// The numbers whose bytes are tested: a bool, a time of day in milliseconds or nanoseconds, and a
// symbol of enumeration number `list`.
#[derive(Clone, Copy, Debug, PartialEq, Eq)]
pub enum Tested {
    Flag,
    Millis,
    Nanos,
    Symbol { list: usize },
}

// The kind of a field or an item, as its record in the table says.
#[derive(Clone, Copy, Debug, PartialEq, Eq)]
pub enum FieldKind {
    Plain { width: u8 },
    Number { tested: Tested },
    Inline { utf8: bool, capacity: u8 },
    Indirect { utf8: bool },
    Static { group: usize },
    Dynamic { allowed: usize },
}

// Where the search for a symbol stands: `count` symbols from number `first` on are in question. `at` is
// the number of the one that equals the value, and as long as none was found, of no symbol: a number, as `Halving` says it.
#[derive(Clone, Copy)]
struct Search {
    at: usize,
    first: usize,
    count: usize,
}

// How much of a group is walked: a dynamic group whole, for the kind of number `allowed`; of a static
// group its fields, since it is a part of the group that holds it.
#[derive(Clone, Copy, Debug, PartialEq, Eq)]
pub enum Scope {
    Whole { allowed: usize },
    Fields { group: usize },
}

// THE INDEX

// Where group number `group` has its record.
pub fn group_place(index: &[u16], group: usize) -> usize
    requires { (length index.now ≡ 322) × (group < 64) }
    ensures { (result ≡ group_place index.now group) × (result < 65536) }
{
    usize::from(index[group])
}

// How many groups there are.
pub fn group_total(index: &[u16]) -> usize
    requires { length index.now ≡ 322 }
    ensures { (result ≡ group_total index.now) × (result < 65536) }
{
    usize::from(index[320])
}

// How many enumerations there are.
pub fn enum_total(index: &[u16]) -> usize
    requires { length index.now ≡ 322 }
    ensures { (result ≡ enum_total index.now) × (result < 65536) }
{
    usize::from(index[321])
}

// The width of a static group; a number past the last group is that of none.
pub fn group_width(index: &[u16], group: usize) -> usize
    requires { Widths index.now }
    ensures { (result ≡ width_in index.now group) × (result ≤ 4096) }
{
    if group < 64 {
        usize::from(index[64 + group])
    } else {
        0
    }
}

fn symbol_place(index: &[u16], list: usize) -> usize
    requires { (length index.now ≡ 322) × (list < 64) }
    ensures { (result ≡ symbol_place index.now list) × (result < 65536) }
{
    usize::from(index[128 + list])
}

fn symbol_total(index: &[u16], list: usize) -> usize
    requires { (length index.now ≡ 322) × (list < 64) }
    ensures { (result ≡ symbol_total index.now list) × (result < 65536) }
{
    usize::from(index[192 + list])
}

// AN ENUMERATION'S RECORDS

// How many symbols the enumeration has whose record stands at `at`.
pub fn symbol_count(table: &[u8], at: usize) -> usize
    requires { at + 16 ≤ length table.now }
    ensures { (result ≡ symbol_count (drop at table.now)) × (result < 2 ^ 16) }
{
    wire::read_u16(table, at + 2)
}

// The value of the symbol whose record stands at `at`, as unsigned.
pub fn symbol_value(table: &[u8], at: usize) -> u32
    requires { at + 16 ≤ length table.now }
    ensures { result ≡ symbol_value (drop at table.now) }
{
    wire::read_u32(table, at + 2) as u32
}

// A GROUP'S RECORD

pub fn type_id(table: &[u8], at: usize) -> u64
    requires { at + 16 ≤ length table.now }
    ensures { result ≡ type_id (drop at table.now) }
{
    wire::read_u64(table, at + 2)
}

pub fn has_id(table: &[u8], at: usize) -> bool
    requires { at + 16 ≤ length table.now }
    ensures { result ≡ (id_flag (drop at table.now) == 1) }
{
    table[at + 10] == 1
}

// "super group number plus 1, or 0", as the table has it
pub fn super_number(table: &[u8], at: usize) -> usize
    requires { at + 16 ≤ length table.now }
    ensures { (result ≡ super_number (drop at table.now)) × (result < 2 ^ 16) }
{
    wire::read_u16(table, at + 11)
}

// How many fields the group has whose record stands at `at`.
pub fn field_count(table: &[u8], at: usize) -> usize
    requires { at + 16 ≤ length table.now }
    ensures { (result ≡ field_count (drop at table.now)) × (result < 256) }
{
    usize::from(table[at + 13])
}

// The width that the group stores whose `GW` record stands at `at`.
pub fn stored_width(table: &[u8], at: usize) -> usize
    requires { at + 16 ≤ length table.now }
    ensures { (result ≡ stored_width (drop at table.now)) × (result < 2 ^ 16) }
{
    wire::read_u16(table, at + 14)
}

// Whether the group whose record stands at `at` has this id. Of most groups the id's own test says no.
fn is_named(table: &[u8], at: usize, id: u64) -> bool
    requires { at + 16 ≤ length table.now }
    ensures { result ≡ (id_flag (drop at table.now) == 1) && (type_id (drop at table.now) == id) }
{
    type_id(table, at) == id && has_id(table, at)
}

// The number of the group with this id among the first n; n where none of them has it, as `find` in specs says.
pub fn find(table: &[u8], index: &[u16], n: usize, id: u64) -> usize
    requires { (Placed table.now index.now n) × (length index.now ≡ 322) × (n ≤ 64) × (length table.now ≤ 65536) }
    ensures { (result ≡ find (take n (schema table.now)) id) × (result ≤ n) }
{
    for i in 0..n {
        if is_named(table, group_place(index, i), id) {
            return i;
        }
    }
    n
}

// Whether a group has this id.
pub fn is_known(table: &[u8], index: &[u16], id: u64) -> bool
    requires { Layout table.now index.now }
    ensures { result ≡ known (schema table.now) id }
{
    let total = group_total(index);
    find(table, index, total, id) < total
}

// Whether the group may stand for a dynamic field, whose kind has the number `allowed`: the named
// group and all below it, or any group where that number is 0.
pub fn allows(table: &[u8], index: &[u16], allowed: usize, group: usize) -> bool
    requires { (Layout table.now index.now) × (group < length (schema table.now)) }
    ensures { result ≡ allows (schema table.now) allowed group }
{
    let Some(named) = allowed.checked_sub(1) else {
        return true;
    };
    let mut above = group;
    while above != named {
        let number = super_number(table, group_place(index, above));
        let Some(next) = number.checked_sub(1) else {
            return false;
        };
        above = next;
    }
    true
}

// THE SEARCH FOR A SYMBOL

// A value's place among the i32, which rise from -2^31.
pub fn rank(value: u32) -> u32
    ensures { result ≡ rank value }
{
    value.wrapping_add(0x8000_0000)
}

// The value of symbol number i of enumeration number `list`, as unsigned.
fn symbol_at(table: &[u8], index: &[u16], list: usize, i: usize) -> u32
    requires { (Layout table.now index.now) × (list < 64) × (i < length (slice_index_or (enums table.now) list [])) }
    ensures { result ≡ slice_index (slice_index_or (enums table.now) list []) i }
{
    symbol_value(table, symbol_place(index, list) + 16 * i)
}

// One step: it looks at the symbol in the middle, and leaves the first half of the symbols or the last.
// Both choices go by one comparison and compile to moves, since branches here could not be predicted.
fn halve(table: &[u8], index: &[u16], list: usize, value: u32, search: Search) -> Search
    requires { (Layout table.now index.now) × (list < 64) × (0 < search.count) × (search.first + search.count ≤ length (slice_index_or (enums table.now) list [])) }
    ensures { result ≡ halve (slice_index_or (enums table.now) list []) value search }
{
    let half = search.count / 2;
    let middle = search.first + half;
    let symbol = symbol_at(table, index, list, middle);
    Search {
        at: if symbol == value { middle } else { search.at },
        first: if rank(symbol) < rank(value) {
            search.first + (search.count - half)
        } else {
            search.first
        },
        count: half,
    }
}

// Whether the value is a symbol of enumeration number `list`. Nine steps decide any list.
pub fn has_symbol(table: &[u8], index: &[u16], list: usize, value: u32) -> bool
    requires { (Layout table.now index.now) × (list < 64) }
    ensures { result ≡ member value (slice_index_or (enums table.now) list []) }
{
    let total = symbol_total(index, list);
    let mut search = Search {
        at: total,
        first: 0,
        count: total,
    };
    while 0 < search.count {
        search = halve(table, index, list, value, search);
    }
    search.at < total
}

// A FIELD'S RECORD

// The number of its type, in document 01: the table's byte, which callers hand on.
pub fn field_type(table: &[u8], at: usize) -> u8
    requires { at + 16 ≤ length table.now }
    ensures { result ≡ field_type (drop at table.now) }
{
    table[at + 2]
}

pub fn field_size(table: &[u8], at: usize) -> u8
    requires { at + 16 ≤ length table.now }
    ensures { result ≡ field_size (drop at table.now) }
{
    table[at + 5]
}

// The number of the enumeration or group that it names.
pub fn reference(table: &[u8], at: usize) -> usize
    requires { at + 16 ≤ length table.now }
    ensures { (result ≡ reference (drop at table.now)) × (result < 2 ^ 16) }
{
    wire::read_u16(table, at + 6)
}

fn scalar_width(number: u8) -> u8
    requires { number < 17 }
    ensures { result ≡ scalar_width number }
{
    match number {
        0 | 1 | 2 | 11 => 1,
        3 | 4 => 2,
        5 | 6 | 12 | 15 => 4,
        10 => 9,
        _ => 8,
    }
}

// A string's or binary's kind.
fn text_kind(utf8: bool, capacity: u8) -> FieldKind
    ensures { (es : List (List ℕ)) → kind_from es result ≡ text_kind utf8 capacity }
{
    if capacity == 0 {
        FieldKind::Indirect { utf8 }
    } else {
        FieldKind::Inline { utf8, capacity }
    }
}

// The kind of the field whose record stands at `at`.
pub fn kind_at(table: &[u8], at: usize) -> FieldKind
    requires { at + 16 ≤ length table.now }
    ensures { (es : List (List ℕ)) → kind_from es result ≡ (field_at es (drop at table.now)).kind }
{
    let number = field_type(table, at);
    let size = field_size(table, at);
    let to = reference(table, at);
    match number {
        11 => FieldKind::Number {
            tested: Tested::Flag,
        },
        15 => FieldKind::Number {
            tested: Tested::Millis,
        },
        16 => FieldKind::Number {
            tested: Tested::Nanos,
        },
        17 => text_kind(true, size),
        18 => text_kind(false, size),
        19 => FieldKind::Plain { width: size },
        20 => FieldKind::Number {
            tested: Tested::Symbol { list: to },
        },
        21 => FieldKind::Static { group: to },
        22 => FieldKind::Dynamic { allowed: to + 1 },
        _ if number < 17 => FieldKind::Plain {
            width: scalar_width(number),
        },
        _ => FieldKind::Dynamic { allowed: 0 },
    }
}

pub fn is_optional(table: &[u8], at: usize) -> bool
    requires { at + 16 ≤ length table.now }
    ensures { (es : List (List ℕ)) → result ≡ (field_at es (drop at table.now)).optional }
{
    table[at + 3] == 1
}

pub fn is_sequence(table: &[u8], at: usize) -> bool
    requires { at + 16 ≤ length table.now }
    ensures { (es : List (List ℕ)) → result ≡ (field_at es (drop at table.now)).sequence }
{
    table[at + 4] == 1
}

// The width of a required value of the types 1..14 without a test; 0 for every other field.
pub fn plain_width(table: &[u8], at: usize) -> usize
    requires { at + 16 ≤ length table.now }
    ensures { ((es : List (List ℕ)) → result ≡ plain_width (field_at es (drop at table.now))) × (result < 256) }
{
    let number = field_type(table, at);
    if is_optional(table, at) || is_sequence(table, at) || number == 11 || 15 <= number {
        return 0;
    }
    usize::from(scalar_width(number))
}

// WIDTHS

pub fn tested_width(tested: Tested) -> u8
    ensures { (es : List (List ℕ)) (sw : ℕ → ℕ) → result ≡ kind_width sw (tested_kind es tested) }
{
    match tested {
        Tested::Flag => 1,
        Tested::Millis => 4,
        Tested::Nanos => 8,
        Tested::Symbol { .. } => 4,
    }
}

// The width of an item of this kind.
pub fn kind_width(index: &[u16], kind: FieldKind) -> usize
    requires { Widths index.now }
    ensures { ((es : List (List ℕ)) → result ≡ kind_width (width_in index.now) (kind_from es kind)) × (result ≤ 4096) }
{
    match kind {
        FieldKind::Plain { width } => usize::from(width),
        FieldKind::Number { tested } => usize::from(tested_width(tested)),
        FieldKind::Inline { capacity, .. } => usize::from(capacity) + 1,
        FieldKind::Indirect { .. } => 4,
        FieldKind::Static { group } => group_width(index, group),
        FieldKind::Dynamic { .. } => 4,
    }
}

// The width of the field whose record stands at `at`, without its flag.
pub fn value_width(table: &[u8], index: &[u16], at: usize) -> usize
    requires { (Widths index.now) × (at + 16 ≤ length table.now) }
    ensures { ((es : List (List ℕ)) → result ≡ value_width (width_in index.now) (field_at es (drop at table.now))) × (result ≤ 4096) }
{
    if is_sequence(table, at) {
        4
    } else {
        kind_width(index, kind_at(table, at))
    }
}

pub fn field_width(table: &[u8], index: &[u16], at: usize) -> usize
    requires { (Widths index.now) × (at + 16 ≤ length table.now) }
    ensures { ((es : List (List ℕ)) → result ≡ field_width (width_in index.now) (field_at es (drop at table.now))) × (result ≤ 4097) }
{
    let width = value_width(table, index, at);
    if is_optional(table, at) {
        width + 1
    } else {
        width
    }
}

// TESTS

// Whether the `count` bytes at `at` may be a string's, or a binary's, which may be any.
pub fn is_text(utf8: bool, bytes: &[u8], at: usize, count: usize) -> bool
    requires { at + count ≤ length bytes.now }
    ensures { result ≡ text_ok utf8 (part count at bytes.now) }
{
    !utf8 || wire::is_utf8(&bytes[at..at + count])
}

// "10, 11, 12: no such symbol; bool or flag not 0, 1; 24 hours or more": whether the number that stands
// at `at` passes. A fault is told at `place`.
pub fn check_tested(
    table: &[u8],
    index: &[u16],
    tested: Tested,
    bytes: &[u8],
    at: usize,
    place: usize,
) -> Result<(), Fault>
    requires { (Layout table.now index.now) × (at + kind_width (width_in index.now) (tested_kind (enums table.now) tested) ≤ length bytes.now) }
    ensures { result ≡ judged (kind_fault (tested_kind (enums table.now) tested) (drop at bytes.now)) place }
{
    let (passes, number) = match tested {
        Tested::Flag => (bytes[at] < 2, 11),
        Tested::Millis => (wire::read_u32(bytes, at) < 86400000, 12),
        Tested::Nanos => (wire::read_u64(bytes, at) < 86400000000000, 12),
        Tested::Symbol { list } => (
            list < 64 && has_symbol(table, index, list, wire::read_u32(bytes, at) as u32),
            10,
        ),
    };
    if passes {
        Ok(())
    } else {
        Err(Fault { number, place })
    }
}
