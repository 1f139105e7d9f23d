// The schema table's check. A table that passes leaves its index behind, so that no walk reads its
// records in order again.
#![tactic(auto)]

ghost use Rattle.std.specs.Prelude.{Ok, Err, ◌≡◌, Bool, true, not, ◌&&◌, ◌||◌, cond, ◌+◌, ◌-◌, ◌*◌, ◌%◌, ◌<◌, ◌≤◌, ◌^◌, ℕ, length, take, drop, get_or, set, replicate, leb, ltb, eqb, List};
ghost use Rattle.wire.specs.Bytes.{part, all_zero};
ghost use Rattle.schema.specs.Symbols.{rank};
ghost use Rattle.schema.specs.Table.{SY as SymbolMark, GW as StoredWidthMark, marked, group_marked, id_flag, optional_flag, sequence_flag, is_due, is_enum, is_group, shape_verdict, enum_verdict, symbol_verdict, group_verdict, size_ok, reference_ok, field_verdict, record_verdict, records_verdict, any_id, enums, schema, table_verdict, symbol_value, field_count, type_id, field_type, field_size, reference, field_at, widths_verdict, begins_with, inherits, places, each_group, supers_verdict, stores_own, stored_verdict};
ghost use Rattle.schema.specs.Faults.{fault_at, need, also};
ghost use Rattle.schema.specs.Layout.{group_place, Placed};
ghost use Rattle.table.specs.Index.{due_of, Whole, Begun, Placing, Shaped, Taken, Decides, Checked};
ghost use Rattle.table.specs.Measure.{levels, levels_over, with_extent, Sound, Kept, Grown, AllMeasured, Sized, Judged};
ghost use Rattle.schema.specs.Schema.{known, super_of, value_width, field_width};

use schema::Fault;

const EN: [u8; 2] = *b"EN";

const SY: [u8; 2] = *b"SY";

pub const GR: [u8; 2] = *b"GR";

pub const GW: [u8; 2] = *b"GW";

const FD: [u8; 2] = *b"FD";

// What must hold, or the table is refused with this number at this place.
fn ensure(holds: bool, number: u8, place: usize) -> Result<(), Fault>
    ensures { result ≡ need holds (Err (fault_at number place)) (Ok tt) }
{
    if holds {
        Ok(())
    } else {
        Err(Fault { number, place })
    }
}

// 30

// One record at least, 4,096 at most, and no part of one.
fn is_whole(bytes: usize) -> bool
    ensures { result ≡ ltb 0 bytes && (leb bytes 65536 && eqb (bytes % 16) 0) }
{
    0 < bytes && bytes <= 65536 && bytes % 16 == 0
}

// 31

// How many enumerations and groups there were, how many records the last of them still has to come,
// and whether the groups store their widths.
#[derive(Clone, Copy)]
struct Shape {
    enumerations: usize,
    groups: usize,
    owed: usize,
    stored: bool,
}

// Whether the record at p is a group's, of either mark.
fn has_group_mark(table: &[u8], p: usize) -> bool
    requires { p + 16 ≤ length table.now }
    ensures { result ≡ group_marked (drop p table.now) }
{
    wire::has_mark(table, p, GR) || wire::has_mark(table, p, GW)
}

// "First the enumerations, then the groups"
fn is_enum(table: &[u8], p: usize, shape: Shape) -> bool
    requires { p + 16 ≤ length table.now }
    ensures { result ≡ is_enum (due_of shape) (drop p table.now) }
{
    shape.groups == 0 && wire::has_mark(table, p, EN)
}

// "A table has all `GR` or all `GW`": the first group says which.
fn is_group(table: &[u8], p: usize, shape: Shape) -> bool
    requires { p + 16 ≤ length table.now }
    ensures { result ≡ is_group (due_of shape) (drop p table.now) }
{
    if 0 < shape.groups {
        let mark = if shape.stored { GW } else { GR };
        return wire::has_mark(table, p, mark);
    }
    has_group_mark(table, p)
}

// Whether the record at p is one that may stand there.
fn is_due(table: &[u8], p: usize, shape: Shape) -> bool
    requires { p + 16 ≤ length table.now }
    ensures { result ≡ is_due (due_of shape) (drop p table.now) }
{
    if 0 < shape.owed {
        let mark = if shape.groups == 0 { SY } else { FD };
        return wire::has_mark(table, p, mark);
    }
    if is_enum(table, p, shape) {
        let count = schema::symbol_count(table, p);
        return shape.enumerations < 64 && (1..=256).contains(&count);
    }
    is_group(table, p, shape) && (shape.groups < 64 && schema::field_count(table, p) <= 64)
}

fn place_group(index: &mut [u16], g: usize, p: usize)
    requires { (g < length index.old) × (p < 65536) }
    ensures { index.new ≡ set index.old g p }
{
    index[g] = p as u16;
}

// The symbols stand from p on. Where p does not fit, no symbol does, and the table is refused.
fn place_symbols(index: &mut [u16], e: usize, p: usize, count: usize)
    requires { (e < 64) × (length index.old ≡ 322) × (count < 65536) }
    ensures { index.new ≡ set (set index.old (128 + e) (p % 65536)) (192 + e) count }
{
    index[128 + e] = (p % 65536) as u16;
    index[192 + e] = count as u16;
}

// What the record of number i, which is due, announces; its place goes into the index.
fn take_record(table: &[u8], index: &mut [u16], i: usize, shape: Shape) -> Shape
    requires { (Whole table.now) × (16 * i + 16 ≤ length table.now) × (Begun table.now index.old i shape.enumerations shape.groups shape.owed) × (is_due (due_of shape) (drop (16 * i) table.now) ≡ true) }
    ensures { Taken table.now index.new i shape result }
{
    let p = 16 * i;
    if 0 < shape.owed {
        return Shape {
            owed: shape.owed - 1,
            ..shape
        };
    }
    if is_enum(table, p, shape) {
        let count = schema::symbol_count(table, p);
        place_symbols(index, shape.enumerations, p + 16, count);
        return Shape {
            enumerations: shape.enumerations + 1,
            owed: count,
            ..shape
        };
    }
    place_group(index, shape.groups, p);
    Shape {
        groups: shape.groups + 1,
        owed: schema::field_count(table, p),
        stored: wire::has_mark(table, p, GW),
        ..shape
    }
}

fn check_shape(table: &[u8], index: &mut [u16]) -> Result<(), Fault>
    requires { (Whole table.now) × (index.old ≡ replicate 322 0) }
    ensures { Shaped (shape_verdict table.now) result table.now index.new }
{
    let records = table.len() / 16;
    let mut shape = Shape {
        enumerations: 0,
        groups: 0,
        owed: 0,
        stored: false,
    };
    for i in 0..records {
        ensure(is_due(table, 16 * i, shape), 31, 16 * i)?;
        shape = take_record(table, index, i, shape);
    }
    ensure(shape.owed == 0, 31, table.len())?;
    place_group(index, 320, shape.groups);
    place_group(index, 321, shape.enumerations);
    Ok(())
}

// 32, 33, 34

// Whether the record's last eight bytes are zero.
fn ends_zero(table: &[u8], p: usize) -> bool
    requires { p + 16 ≤ length table.now }
    ensures { result ≡ all_zero (part 8 8 (drop p table.now)) }
{
    wire::read_u64(table, p + 8) == 0
}

// Whether every byte that must be zero is.
fn enum_zeros(table: &[u8], p: usize) -> bool
    requires { p + 16 ≤ length table.now }
    ensures { result ≡ all_zero (part 12 4 (drop p table.now)) }
{
    wire::read_u32(table, p + 4) == 0 && ends_zero(table, p)
}

fn symbol_zeros(table: &[u8], p: usize) -> bool
    requires { p + 16 ≤ length table.now }
    ensures { result ≡ all_zero (part 10 6 (drop p table.now)) }
{
    wire::read_u16(table, p + 6) == 0 && ends_zero(table, p)
}

fn check_enum(table: &[u8], p: usize) -> Result<(), Fault>
    requires { p + 16 ≤ length table.now }
    ensures { result ≡ enum_verdict p (drop p table.now) }
{
    ensure(enum_zeros(table, p), 32, p)
}

// A symbol's place among the i32, which rise from -2^31.
fn symbol_rank(table: &[u8], p: usize) -> usize
    requires { p + 16 ≤ length table.now }
    ensures { (result ≡ rank (symbol_value (drop p table.now))) × (result < 2 ^ 32) }
{
    schema::rank(schema::symbol_value(table, p)) as usize
}

fn check_symbol(table: &[u8], p: usize, low: usize) -> Result<(), Fault>
    requires { p + 16 ≤ length table.now }
    ensures { result ≡ symbol_verdict low p (drop p table.now) }
{
    ensure(symbol_zeros(table, p), 32, p)?;
    ensure(low <= symbol_rank(table, p), 34, p)
}

// Whether the flag is 0 or 1, and the id 0 where the group has none.
fn id_zeros(table: &[u8], p: usize) -> bool
    requires { p + 16 ≤ length table.now }
    ensures { result ≡ ltb (id_flag (drop p table.now)) 2 && (eqb (id_flag (drop p table.now)) 1 || all_zero (part 8 2 (drop p table.now))) }
{
    table[p + 10] < 2 && (schema::has_id(table, p) || schema::type_id(table, p) == 0)
}

// In `GW` bytes 14-15 are the width.
fn width_zeros(table: &[u8], p: usize) -> bool
    requires { p + 16 ≤ length table.now }
    ensures { result ≡ marked StoredWidthMark (drop p table.now) || all_zero (part 2 14 (drop p table.now)) }
{
    wire::has_mark(table, p, GW) || wire::read_u16(table, p + 14) == 0
}

// "a must-be-zero byte isn't, or a flag is not 0 or 1"
fn group_zeros(table: &[u8], p: usize) -> bool
    requires { p + 16 ≤ length table.now }
    ensures { result ≡ ltb (id_flag (drop p table.now)) 2 && ((eqb (id_flag (drop p table.now)) 1 || all_zero (part 8 2 (drop p table.now))) && (marked StoredWidthMark (drop p table.now) || all_zero (part 2 14 (drop p table.now)))) }
{
    id_zeros(table, p) && width_zeros(table, p)
}

// Whether the group at p has no id, or one that none of the groups before it has.
fn is_new(table: &[u8], index: &[u16], p: usize, own: usize) -> bool
    requires { (p + 16 ≤ length table.now) × (Placed table.now index.now own) × (own ≤ length (schema table.now)) × (own ≤ 64) × (length index.now ≡ 322) × (length table.now ≤ 65536) }
    ensures { result ≡ not (eqb (id_flag (drop p table.now)) 1 && known (take own (schema table.now)) (type_id (drop p table.now))) }
{
    !schema::has_id(table, p) || own <= schema::find(table, index, own, schema::type_id(table, p))
}

fn check_group(table: &[u8], index: &[u16], p: usize, own: usize) -> Result<(), Fault>
    requires { (p + 16 ≤ length table.now) × (Placed table.now index.now own) × (own ≤ length (schema table.now)) × (own ≤ 64) × (length index.now ≡ 322) × (length table.now ≤ 65536) }
    ensures { result ≡ group_verdict (schema table.now) own p (drop p table.now) }
{
    ensure(group_zeros(table, p), 32, p)?;
    ensure(schema::super_number(table, p) <= own, 33, p)?;
    ensure(is_new(table, index, p, own), 34, p)
}

fn field_zeros(table: &[u8], p: usize) -> bool
    requires { p + 16 ≤ length table.now }
    ensures { result ≡ ltb (optional_flag (drop p table.now)) 2 && (ltb (sequence_flag (drop p table.now)) 2 && all_zero (part 8 8 (drop p table.now))) }
{
    table[p + 3] < 2 && table[p + 4] < 2 && ends_zero(table, p)
}

// "String and binary: size 1..255 is inline, size 0 is indirect. Fixed: size 1..255. Other types
// have size 0."
fn size_ok(ty: u8, size: u8) -> bool
    ensures { result ≡ size_ok ty size }
{
    match ty {
        17 | 18 => true,
        19 => 1 <= size,
        _ => size == 0,
    }
}

// "an enumeration for 20; a group for 21 (lower than the group's own number) and 22 (any); else 0"
fn reference_ok(ty: u8, to: usize, enumerations: usize, groups: usize, own: usize) -> bool
    ensures { result ≡ reference_ok enumerations groups own ty to }
{
    match ty {
        20 => to < enumerations,
        21 => to < own,
        22 => to < groups,
        _ => to == 0,
    }
}

// Whether the type is known, and the size and the reference are what it takes.
fn field_fits(table: &[u8], p: usize, enumerations: usize, groups: usize, own: usize) -> bool
    requires { p + 16 ≤ length table.now }
    ensures { result ≡ leb 1 (field_type (drop p table.now)) && (leb (field_type (drop p table.now)) 23 && (size_ok (field_type (drop p table.now)) (field_size (drop p table.now)) && reference_ok enumerations groups own (field_type (drop p table.now)) (reference (drop p table.now)))) }
{
    let ty = schema::field_type(table, p);
    (1..=23).contains(&ty)
        && size_ok(ty, schema::field_size(table, p))
        && reference_ok(ty, schema::reference(table, p), enumerations, groups, own)
}

fn check_field(
    table: &[u8],
    p: usize,
    enumerations: usize,
    groups: usize,
    own: usize,
) -> Result<(), Fault>
    requires { p + 16 ≤ length table.now }
    ensures { result ≡ field_verdict enumerations groups own p (drop p table.now) }
{
    ensure(field_zeros(table, p), 32, p)?;
    ensure(field_fits(table, p, enumerations, groups, own), 33, p)
}

// next: how many groups came before; low: the least rank that rises.
fn check_record(table: &[u8], index: &[u16], p: usize, next: usize, low: usize) -> Result<(), Fault>
    requires { (p + 16 ≤ length table.now) × (Placing table.now index.now) × (next ≤ length (schema table.now)) × (length table.now ≤ 65536) }
    ensures { result ≡ record_verdict (length (enums table.now)) (schema table.now) next low p (drop p table.now) }
{
    if wire::has_mark(table, p, FD) {
        return check_field(
            table,
            p,
            schema::enum_total(index),
            schema::group_total(index),
            next.saturating_sub(1),
        );
    }
    if wire::has_mark(table, p, SY) {
        return check_symbol(table, p, low);
    }
    if has_group_mark(table, p) {
        return check_group(table, index, p, next);
    }
    check_enum(table, p)
}

// The least rank that rises after the record at p.
fn rising(table: &[u8], p: usize) -> usize
    requires { p + 16 ≤ length table.now }
    ensures { result ≡ cond (marked SymbolMark (drop p table.now)) (rank (symbol_value (drop p table.now)) + 1) 0 }
{
    if wire::has_mark(table, p, SY) {
        symbol_rank(table, p) + 1
    } else {
        0
    }
}

// How many groups there were after the record at p.
fn groups_after(table: &[u8], p: usize, next: usize) -> usize
    requires { (p + 16 ≤ length table.now) × (next ≤ 64) }
    ensures { result ≡ cond (group_marked (drop p table.now)) (next + 1) next }
{
    next + usize::from(has_group_mark(table, p))
}

fn check_records(table: &[u8], index: &[u16]) -> Result<(), Fault>
    requires { (Whole table.now) × (Placing table.now index.now) }
    ensures { result ≡ records_verdict table.now }
{
    let records = table.len() / 16;
    let mut next = 0;
    let mut low = 0;
    for i in 0..records {
        let p = 16 * i;
        check_record(table, index, p, next, low)?;
        next = groups_after(table, p, next);
        low = rising(table, p);
    }
    Ok(())
}

fn any_id(table: &[u8], index: &[u16]) -> bool
    requires { Placing table.now index.now }
    ensures { result ≡ any_id (schema table.now) }
{
    (0..schema::group_total(index)).any(|g| schema::has_id(table, schema::group_place(index, g)))
}

// 35, 36, 37

// The first group that fails the test is refused with this number, at its record.
fn check_each<F: Fn(usize) -> bool>(
    table: &[u8],
    index: &[u16],
    number: u8,
    passes: F,
) -> Result<(), Fault>
    requires placing { Placing table.now index.now }
    requires callable { (g : ℕ) → g < length (schema table.now) → F.pre passes g }
    ensures { (test : ℕ → ℕ → Bool) → Decides table.now index.now (F.post passes) test → result ≡ each_group number test 0 (places table.now) }
{
    for g in 0..schema::group_total(index) {
        if !passes(g) {
            return Err(Fault {
                number,
                place: schema::group_place(index, g),
            });
        }
    }
    Ok(())
}

// 35

// A group's levels: its static depth plus one, 6 where it is out of bounds, and 0 as long as it is not
// measured.
fn group_levels(index: &[u16], g: usize) -> usize
    requires { (length index.now ≡ 322) × (g < 64) }
    ensures { (result ≡ levels index.now g) × (result < 65536) }
{
    usize::from(index[256 + g])
}

// The levels of a group that names group g; none may name one of width 0.
fn levels_over(index: &[u16], g: usize) -> usize
    requires { (length index.now ≡ 322) × (g < 64) }
    ensures { result ≡ levels_over (get_or index.now (64 + g) 0) (levels index.now g) }
{
    if index[64 + g] == 0 {
        return 6;
    }
    group_levels(index, g) + 1
}

// "A sequence has width 4", and else a static group's is `inner`.
fn value_width(table: &[u8], p: usize, inner: usize) -> usize
    requires { (p + 16 ≤ length table.now) × (field_type (drop p table.now) ≡ 21) × (inner ≤ 4096) }
    ensures { ((es : List (List ℕ)) → result ≡ value_width (λ _. inner) (field_at es (drop p table.now))) × (result ≤ 4096) }
{
    if schema::is_sequence(table, p) {
        4
    } else {
        inner
    }
}

// "an optional field has one flag byte more"
fn static_width(table: &[u8], p: usize, inner: usize) -> usize
    requires { (p + 16 ≤ length table.now) × (field_type (drop p table.now) ≡ 21) × (inner ≤ 4096) }
    ensures { ((es : List (List ℕ)) → result ≡ field_width (λ _. inner) (field_at es (drop p table.now))) × (result ≤ 4097) }
{
    value_width(table, p, inner) + usize::from(schema::is_optional(table, p))
}

fn place_extent(index: &mut [u16], g: usize, width: usize, levels: usize)
    requires { (length index.old ≡ 322) × (g < 64) × (width ≤ 4096) × (levels ≤ 6) }
    ensures { index.new ≡ with_extent index.old g width levels }
{
    index[64 + g] = width as u16;
    index[256 + g] = levels as u16;
}

// A group out of bounds has six levels, so that every group that names it has too many.
fn keep_extent(index: &mut [u16], g: usize, width: usize, levels: usize)
    requires { (length index.old ≡ 322) × (g < 64) × (levels ≤ 5) }
    ensures { index.new ≡ cond (leb width 4096) (with_extent index.old g width levels) (with_extent index.old g 0 6) }
{
    if width <= 4096 {
        place_extent(index, g, width, levels);
    } else {
        place_extent(index, g, 0, 6);
    }
}

// "a static subgroup's width is that of its own group": a referenced group that is not measured yet is
// measured, and kept in the index, so that no group is measured twice.
fn measure_group(table: &[u8], index: &mut [u16], g: usize)
    requires { (Placing table.now index.old) × (Kept table.now index.old) × (Sound (schema table.now)) × (g < length (schema table.now)) }
    ensures { (Grown table.now index.old index.new) × (0 < levels index.new g) }
{
    let start = schema::group_place(index, g);
    let first = start + 16;
    let count = schema::field_count(table, start);
    let mut width = 0;
    let mut levels: usize = 1;
    for i in 0..count {
        let p = first + 16 * i;
        if schema::field_type(table, p) != 21 {
            width += schema::field_width(table, index, p);
            continue;
        }
        let inner = schema::reference(table, p);
        if group_levels(index, inner) == 0 {
            // A copy: the parameter itself would be stored and loaded again at each call.
            let whole = table;
            measure_group(whole, index, inner);
        }
        // 35 refuses this group, or one before it, whatever its other fields are.
        let over = levels_over(index, inner);
        if 5 < over {
            place_extent(index, g, 0, 6);
            return;
        }
        width += static_width(table, p, schema::group_width(index, inner));
        levels = levels.max(over);
    }
    keep_extent(index, g, width, levels);
}

// From the highest group down, so that a static subgroup is measured where a field names it.
fn measure_groups(table: &[u8], index: &mut [u16])
    requires { (Placing table.now index.old) × (Kept table.now index.old) × (Sound (schema table.now)) }
    ensures { (Grown table.now index.old index.new) × (AllMeasured table.now index.new) }
{
    for g in (0..schema::group_total(index)).rev() {
        if group_levels(index, g) == 0 {
            measure_group(table, index, g);
        }
    }
}

fn check_widths(table: &[u8], index: &mut [u16]) -> Result<(), Fault>
    requires { (Placing table.now index.old) × (Kept table.now index.old) × (Sound (schema table.now)) }
    ensures { Judged (widths_verdict table.now) result table.now index.new }
{
    measure_groups(table, index);
    check_each(table, index, 35, |g| group_levels(index, g) <= 5)
}

// 36

// Whether the fields of the group whose record stands at p begin with those of the group at
// `above`, record for record.
fn begins_with(table: &[u8], p: usize, above: usize) -> bool
    requires { (p + 16 + 16 * field_count (drop p table.now) ≤ length table.now) × (above + 16 + 16 * field_count (drop above table.now) ≤ length table.now) }
    ensures { result ≡ begins_with (drop p table.now) (drop above table.now) }
{
    let count = schema::field_count(table, above);
    count <= schema::field_count(table, p)
        && wire::same(table, p + 16, table, above + 16, 16 * count)
}

// Whether group number g has no super, or begins with the fields of its super.
fn inherits(table: &[u8], index: &[u16], g: usize) -> bool
    requires { (Placing table.now index.now) × (g < length (schema table.now)) × (super_of (schema table.now) g ≤ g) }
    ensures { result ≡ inherits table.now (group_place index.now g) }
{
    let p = schema::group_place(index, g);
    let above = schema::super_number(table, p);
    above == 0 || begins_with(table, p, schema::group_place(index, above - 1))
}

fn check_supers(table: &[u8], index: &[u16]) -> Result<(), Fault>
    requires { (Placing table.now index.now) × ((g : ℕ) → super_of (schema table.now) g ≤ g) }
    ensures { result ≡ supers_verdict table.now }
{
    check_each(table, index, 36, |g| inherits(table, index, g))
}

// 37

// Whether group number g stores no width, or its own.
fn stores_own(table: &[u8], index: &[u16], g: usize) -> bool
    requires { (Placing table.now index.now) × (Sized table.now index.now) × (g < length (schema table.now)) }
    ensures { result ≡ stores_own table.now g (group_place index.now g) }
{
    let p = schema::group_place(index, g);
    !wire::has_mark(table, p, GW) || schema::stored_width(table, p) == schema::group_width(index, g)
}

fn check_stored(table: &[u8], index: &[u16]) -> Result<(), Fault>
    requires { (Placing table.now index.now) × (Sized table.now index.now) }
    ensures { result ≡ stored_verdict table.now }
{
    check_each(table, index, 37, |g| stores_own(table, index, g))
}

// 35 of every group, then 36 of every group, then 37.
fn check_groups(table: &[u8], index: &mut [u16]) -> Result<(), Fault>
    requires { (Placing table.now index.old) × (Kept table.now index.old) × (Sound (schema table.now)) × ((g : ℕ) → super_of (schema table.now) g ≤ g) }
    ensures { Judged (also (widths_verdict table.now) (also (supers_verdict table.now) (stored_verdict table.now))) result table.now index.new }
{
    check_widths(table, index)?;
    check_supers(table, index)?;
    check_stored(table, index)
}

// Whether a table is accepted, or its first fault.
pub fn check_table(table: &[u8]) -> Result<(), Fault>
    ensures { result ≡ table_verdict table.now }
{
    let mut index = [0u16; 322];
    index_table(table, &mut index)
}

// The same, and an accepted table's index.
pub fn index_table(table: &[u8], index: &mut [u16]) -> Result<(), Fault>
    requires { index.old ≡ replicate 322 0 }
    ensures { Checked table.now index.new result }
{
    let bytes = table.len();
    ensure(is_whole(bytes), 30, 0)?;
    check_shape(table, index)?;
    check_records(table, index)?;
    ensure(any_id(table, index), 34, bytes)?;
    check_groups(table, index)
}
