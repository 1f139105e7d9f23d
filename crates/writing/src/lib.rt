// The message of a sheet.
//
// The sheet was checked and makes a message that fits, so nothing is tested here: every bound comes
// from the writing that the caller has. A dynamic group is written into its own part of the output, so
// that places count from its first byte: `at` is where bytes in place go.
#![tactic(auto)]

ghost use Rattle.std.specs.Prelude.{◌≡◌, Bool, true, List, [], ◌∷◌, ◌++◌, ℕ, ◌+◌, ◌-◌, ◌*◌, ◌<◌, ◌≤◌, length, drop, replicate};
ghost use Rattle.wire.specs.Bytes.{part, splice, bytes_of, le};
ghost use Rattle.schema.specs.Schema.{kind_width, shallow_kind, shallow};
ghost use Rattle.schema.specs.Table.{field_at, enums, schema};
ghost use Rattle.schema.specs.Layout.{Layout};
ghost use Rattle.schema.specs.FieldKinds.{kind_from};
ghost use Rattle.message.specs.Check.{width_of};
ghost use Rattle.sheet.specs.Written.{wrote, items_w, sheet_w};
ghost use Rattle.sheet.specs.Writers.{static_of, plain_of, text_of, kind_of, item_of, value_of, field_of, nested_of, extension_of, extending_of};
ghost use Rattle.writing.specs.Write.{Fits, Stands, group_of, place_of, Scoped, open_of, head_of, HasHead, HasEnd, Ended};

use schema::{FieldKind, Scope};
use sheet::{NO, XT, XU};

// Where the sheet goes on, and the first free place of the data area.
#[derive(Clone, Copy)]
struct Ends {
    pos: usize,
    free: usize,
}

// VALUES

// n bytes of the sheet.
fn write_bytes(sheet: &[u8], pos: usize, n: usize, at: usize, out: &mut [u8]) -> usize
    requires { (pos + n ≤ length sheet.now) × (at + n ≤ length out.old) }
    ensures { (out.new ≡ splice n at (part n pos sheet.now) out.old) × (result ≡ pos + n) }
{
    wire::copy_value(out, at, sheet, pos, n);
    pos + n
}

// Text in place: its count takes four bytes in the sheet and one in the message, and behind it are
// zeros up to the capacity.
fn write_inline(sheet: &[u8], pos: usize, capacity: usize, at: usize, out: &mut [u8]) -> usize
    requires { (pos + 4 ≤ length sheet.now) × (pos + (4 + le (part 4 pos sheet.now)) ≤ length sheet.now) × (le (part 4 pos sheet.now) ≤ capacity) × (capacity < 256) × (at + (1 + capacity) ≤ length out.old) }
    ensures { (out.new ≡ splice (1 + capacity) at (le (part 4 pos sheet.now) ∷ (part (le (part 4 pos sheet.now)) (pos + 4) sheet.now ++ replicate (capacity - le (part 4 pos sheet.now)) 0)) out.old) × (result ≡ pos + (4 + le (part 4 pos sheet.now))) }
{
    let count = wire::read_u32(sheet, pos);
    out[at] = count as u8;
    wire::copy(out, at + 1, sheet, pos + 4, count);
    wire::fill(out, at + 1 + count, capacity - count, 0);
    pos + (4 + count)
}

// An offset at `at`, which counts from its own first byte and leads to the first free place.
fn write_offset(free: usize, at: usize, out: &mut [u8])
    requires { (at + 4 ≤ free) × (free ≤ length out.old) }
    ensures { out.new ≡ splice 4 at (bytes_of 4 (free - at)) out.old }
{
    wire::write_u32(out, at, free - at);
}

// A count and so many bytes behind an offset, as the sheet has them.
fn write_text(sheet: &[u8], ends: Ends, at: usize, out: &mut [u8]) -> Ends
    requires { (ends.pos + 4 ≤ length sheet.now) × (ends.pos + (4 + le (part 4 ends.pos sheet.now)) ≤ length sheet.now) × (at + 4 ≤ ends.free) × (ends.free + (4 + le (part 4 ends.pos sheet.now)) ≤ length out.old) }
    ensures { (out.new ≡ splice (4 + le (part 4 ends.pos sheet.now)) ends.free (part (4 + le (part 4 ends.pos sheet.now)) ends.pos sheet.now) (splice 4 at (bytes_of 4 (ends.free - at)) out.old)) × (result.pos ≡ ends.pos + (4 + le (part 4 ends.pos sheet.now))) × (result.free ≡ ends.free + (4 + le (part 4 ends.pos sheet.now))) }
{
    let size = 4 + wire::read_u32(sheet, ends.pos);
    write_offset(ends.free, at, out);
    wire::copy(out, ends.free, sheet, ends.pos, size);
    Ends {
        pos: ends.pos + size,
        free: ends.free + size,
    }
}

// So many texts in a row, each behind its mark.
fn write_texts(sheet: &[u8], total: usize, mut ends: Ends, at: usize, out: &mut [u8]) -> Ends
    requires { (utf8 : Bool) × Fits (items_w 4 (text_of utf8) total at ends.free (drop ends.pos sheet.now)) at ends.free out.old }
    ensures { (utf8 : Bool) → Fits (items_w 4 (text_of utf8) total at ends.free (drop ends.pos sheet.now)) at ends.free out.old → Stands (items_w 4 (text_of utf8) total at ends.free (drop ends.pos sheet.now)) at ends.free sheet.now out.old out.new result.pos result.free }
{
    let mut place = at;
    for _ in 0..total {
        ends.pos += 2;
        ends = write_text(sheet, ends, place, out);
        place += 4;
    }
    ends
}

// So many plain values in a row, each behind its mark.
fn write_plain(
    sheet: &[u8],
    pos: usize,
    width: usize,
    total: usize,
    at: usize,
    out: &mut [u8],
) -> usize
    requires { (free : ℕ) × Fits (items_w width (plain_of width) total at free (drop pos sheet.now)) at free out.old }
    ensures { (free : ℕ) → Fits (items_w width (plain_of width) total at free (drop pos sheet.now)) at free out.old → Stands (items_w width (plain_of width) total at free (drop pos sheet.now)) at free sheet.now out.old out.new result free }
{
    let mut place = at;
    let mut next = pos;
    for _ in 0..total {
        next = write_bytes(sheet, next + 2, width, place, out);
        place += width;
    }
    next
}

// GROUPS, FIELDS AND ITEMS

// A group that is opened: its number, the levels left below it, and where the sheet and the data area
// go on.
#[derive(Clone, Copy)]
struct Opened {
    group: usize,
    levels: usize,
    ends: Ends,
}

// A dynamic group begins with its type id, where the sheet goes on.
fn open_group(
    table: &[u8],
    index: &[u16],
    sheet: &[u8],
    levels: usize,
    scope: Scope,
    ends: Ends,
    out: &mut [u8],
) -> Opened
    requires { (Layout table.now index.now) × (HasHead levels scope ends.pos sheet.now out.old) }
    ensures { (result ≡ open_of table.now levels scope ends.pos ends.free sheet.now) × (out.new ≡ head_of scope ends.pos sheet.now out.old) }
{
    match scope {
        Scope::Whole { .. } => {
            let total = schema::group_total(index);
            let group = schema::find(table, index, total, wire::read_u64(sheet, ends.pos));
            let pos = write_bytes(sheet, ends.pos, 8, 4, out);
            let free = 16 + schema::group_width(index, group);
            Opened {
                group,
                levels: levels - 1,
                ends: Ends { pos, free },
            }
        }
        Scope::Fields { group } => Opened {
            group,
            levels,
            ends,
        },
    }
}

// A group. A dynamic one is written whole, at the start of `out`, with so many levels left for it and
// its fields from 16 on. One function writes both kinds, so that a level is one call: each call passes
// its slices through memory.
#[cycle(write)]
fn write_group(
    table: &[u8],
    index: &[u16],
    sheet: &[u8],
    levels: usize,
    depth: usize,
    scope: Scope,
    ends: Ends,
    at: usize,
    out: &mut [u8],
) -> Ends
    requires { (Layout table.now index.now) × (Scoped table.now depth scope at) × (Fits (group_of table.now levels depth scope at ends.free (drop ends.pos sheet.now)) (place_of scope at) (place_of scope ends.free) out.old) }
    ensures { Stands (group_of table.now levels depth scope at ends.free (drop ends.pos sheet.now)) (place_of scope at) (place_of scope ends.free) sheet.now out.old out.new result.pos result.free }
{
    let open = open_group(table, index, sheet, levels, scope, ends, out);
    let fields = write_fields(
        table,
        index,
        sheet,
        open.levels,
        depth,
        open.group,
        open.ends,
        at,
        out,
    );
    close_group(table, index, sheet, open.levels, scope, fields, out)
}

// A dynamic group ends with its extension, and then its size is known.
#[cycle(write)]
fn close_group(
    table: &[u8],
    index: &[u16],
    sheet: &[u8],
    levels: usize,
    scope: Scope,
    ends: Ends,
    out: &mut [u8],
) -> Ends
    requires { (Layout table.now index.now) × (HasEnd table.now levels scope ends.pos ends.free sheet.now out.old) }
    ensures { Ended table.now levels scope ends.pos ends.free sheet.now out.old out.new result.pos result.free }
{
    match scope {
        Scope::Whole { .. } => {
            let ends = write_extension(table, index, sheet, levels, ends, out);
            wire::write_u32(out, 0, ends.free - 4);
            Ends {
                pos: ends.pos + 2,
                ..ends
            }
        }
        Scope::Fields { .. } => ends,
    }
}

// The fields of a group whose static depth is below `depth`. Required plain values are written here,
// without a call.
#[cycle(write)]
fn write_fields(
    table: &[u8],
    index: &[u16],
    sheet: &[u8],
    levels: usize,
    depth: usize,
    group: usize,
    mut ends: Ends,
    at: usize,
    out: &mut [u8],
) -> Ends
    requires { (Layout table.now index.now) × (group < length (schema table.now)) × (shallow (schema table.now) depth group ≡ true) × (Fits (static_of table.now levels depth group at ends.free (drop ends.pos sheet.now)) at ends.free out.old) }
    ensures { Stands (static_of table.now levels depth group at ends.free (drop ends.pos sheet.now)) at ends.free sheet.now out.old out.new result.pos result.free }
{
    let start = schema::group_place(index, group);
    let total = schema::field_count(table, start);
    let deeper = depth - 1;
    let mut field = start + 16;
    let mut place = at;
    for _ in 0..total {
        let plain = schema::plain_width(table, field);
        if plain != 0 {
            ends.pos = write_bytes(sheet, ends.pos + 2, plain, place, out);
            place += plain;
        } else {
            let width = schema::field_width(table, index, field);
            ends = write_field(table, index, sheet, levels, deeper, field, ends, place, out);
            place += width;
        }
        field += 16;
    }
    ends
}

// The field whose record stands at `field` of the table.
#[cycle(write)]
fn write_field(
    table: &[u8],
    index: &[u16],
    sheet: &[u8],
    levels: usize,
    depth: usize,
    field: usize,
    ends: Ends,
    at: usize,
    out: &mut [u8],
) -> Ends
    requires { (Layout table.now index.now) × (field + 16 ≤ length table.now) × (shallow_kind (shallow (schema table.now) depth) (width_of table.now depth) (field_at (enums table.now) (drop field table.now)).kind ≡ true) × (Fits (field_of table.now levels depth field at ends.free (drop ends.pos sheet.now)) at ends.free out.old) }
    ensures { Stands (field_of table.now levels depth field at ends.free (drop ends.pos sheet.now)) at ends.free sheet.now out.old out.new result.pos result.free }
{
    let mut place = at;
    if schema::is_optional(table, field) {
        if wire::has_mark(sheet, ends.pos, NO) {
            let width = schema::field_width(table, index, field);
            wire::fill(out, at, width, 0);
            return Ends {
                pos: ends.pos + 2,
                ..ends
            };
        }
        out[at] = 1;
        place += 1;
    }
    write_value(table, index, sheet, levels, depth, field, ends, place, out)
}

// Its value, with the mark: the items of a sequence, or one.
#[cycle(write)]
fn write_value(
    table: &[u8],
    index: &[u16],
    sheet: &[u8],
    levels: usize,
    depth: usize,
    field: usize,
    ends: Ends,
    at: usize,
    out: &mut [u8],
) -> Ends
    requires { (Layout table.now index.now) × (field + 16 ≤ length table.now) × (shallow_kind (shallow (schema table.now) depth) (width_of table.now depth) (field_at (enums table.now) (drop field table.now)).kind ≡ true) × (Fits (value_of table.now levels depth field at ends.free (drop ends.pos sheet.now)) at ends.free out.old) }
    ensures { Stands (value_of table.now levels depth field at ends.free (drop ends.pos sheet.now)) at ends.free sheet.now out.old out.new result.pos result.free }
{
    let kind = schema::kind_at(table, field);
    let width = schema::kind_width(index, kind);
    // A single value is a row of one item, so that a level stays one call.
    let (total, items, ends) = if schema::is_sequence(table, field) {
        let total = wire::read_u32(sheet, ends.pos + 2);
        write_offset(ends.free, at, out);
        let pos = write_bytes(sheet, ends.pos + 2, 4, ends.free, out);
        let free = ends.free + (4 + total * width);
        (total, ends.free + 4, Ends { pos, free })
    } else {
        (1, at, ends)
    };
    write_items(
        table, index, sheet, levels, depth, kind, width, total, ends, items, out,
    )
}

// So many items, each of `width` bytes and behind its mark. What hangs on them follows in item order.
#[cycle(write)]
fn write_items(
    table: &[u8],
    index: &[u16],
    sheet: &[u8],
    levels: usize,
    depth: usize,
    kind: FieldKind,
    width: usize,
    total: usize,
    mut ends: Ends,
    at: usize,
    out: &mut [u8],
) -> Ends
    requires { (Layout table.now index.now) × (width ≡ kind_width (width_of table.now depth) (kind_from (enums table.now) kind)) × (shallow_kind (shallow (schema table.now) depth) (width_of table.now depth) (kind_from (enums table.now) kind) ≡ true) × (Fits (items_w width (item_of table.now levels depth kind) total at ends.free (drop ends.pos sheet.now)) at ends.free out.old) }
    ensures { Stands (items_w width (item_of table.now levels depth kind) total at ends.free (drop ends.pos sheet.now)) at ends.free sheet.now out.old out.new result.pos result.free }
{
    if let FieldKind::Plain { width: plain } = kind {
        let pos = write_plain(sheet, ends.pos, usize::from(plain), total, at, out);
        return Ends { pos, ..ends };
    }
    if let FieldKind::Indirect { .. } = kind {
        return write_texts(sheet, total, ends, at, out);
    }
    let mut place = at;
    for _ in 0..total {
        ends.pos += 2;
        ends = write_item(table, index, sheet, levels, depth, kind, ends, place, out);
        place += width;
    }
    ends
}

// A value of this kind, behind its mark.
#[cycle(write)]
fn write_item(
    table: &[u8],
    index: &[u16],
    sheet: &[u8],
    levels: usize,
    depth: usize,
    kind: FieldKind,
    ends: Ends,
    at: usize,
    out: &mut [u8],
) -> Ends
    requires { (Layout table.now index.now) × (shallow_kind (shallow (schema table.now) depth) (width_of table.now depth) (kind_from (enums table.now) kind) ≡ true) × (ends.pos ≤ length sheet.now) × (Fits (kind_of table.now levels depth kind at ends.free (drop ends.pos sheet.now)) at ends.free out.old) }
    ensures { Stands (kind_of table.now levels depth kind at ends.free (drop ends.pos sheet.now)) at ends.free sheet.now out.old out.new result.pos result.free }
{
    match kind {
        FieldKind::Plain { width } => {
            let pos = write_bytes(sheet, ends.pos, usize::from(width), at, out);
            Ends { pos, ..ends }
        }
        FieldKind::Number { tested } => {
            let width = usize::from(schema::tested_width(tested));
            let pos = write_bytes(sheet, ends.pos, width, at, out);
            Ends { pos, ..ends }
        }
        FieldKind::Inline { capacity, .. } => {
            let pos = write_inline(sheet, ends.pos, usize::from(capacity), at, out);
            Ends { pos, ..ends }
        }
        FieldKind::Indirect { .. } => write_text(sheet, ends, at, out),
        FieldKind::Static { group } => write_group(
            table,
            index,
            sheet,
            levels,
            depth,
            Scope::Fields { group },
            ends,
            at,
            out,
        ),
        FieldKind::Dynamic { allowed } => write_nested(
            table, index, sheet, levels, allowed, ends, at, out,
        ),
    }
}

// A dynamic group behind its offset.
#[cycle(write)]
fn write_nested(
    table: &[u8],
    index: &[u16],
    sheet: &[u8],
    levels: usize,
    allowed: usize,
    ends: Ends,
    at: usize,
    out: &mut [u8],
) -> Ends
    requires { (Layout table.now index.now) × (Fits (nested_of table.now levels allowed at ends.free (drop ends.pos sheet.now)) at ends.free out.old) }
    ensures { Stands (nested_of table.now levels allowed at ends.free (drop ends.pos sheet.now)) at ends.free sheet.now out.old out.new result.pos result.free }
{
    write_offset(ends.free, at, out);
    let group = write_group(
        table,
        index,
        sheet,
        levels,
        5,
        Scope::Whole { allowed },
        Ends { free: 0, ..ends },
        16,
        &mut out[ends.free..],
    );
    Ends {
        pos: group.pos,
        free: ends.free + group.free,
    }
}

// "the extension is last": its offset stands at 12, and is 0 where there is none.
#[cycle(write)]
fn write_extension(
    table: &[u8],
    index: &[u16],
    sheet: &[u8],
    levels: usize,
    ends: Ends,
    out: &mut [u8],
) -> Ends
    requires { (Layout table.now index.now) × (ends.pos + 2 ≤ length sheet.now) × (Fits (extension_of table.now levels 12 ends.free (drop ends.pos sheet.now)) 12 ends.free out.old) }
    ensures { Stands (extension_of table.now levels 12 ends.free (drop ends.pos sheet.now)) 12 ends.free sheet.now out.old out.new result.pos result.free }
{
    if !wire::has_mark(sheet, ends.pos, XT) {
        wire::write_u32(out, 12, 0);
        return ends;
    }
    let total = wire::read_u32(sheet, ends.pos + 2);
    write_offset(ends.free, 12, out);
    let pos = write_bytes(sheet, ends.pos + 2, 4, ends.free, out);
    let free = ends.free + (4 + total * 4);
    let items = ends.free + 4;
    write_groups(
        table,
        index,
        sheet,
        levels,
        total,
        Ends { pos, free },
        items,
        out,
    )
}

#[cycle(write)]
fn write_groups(
    table: &[u8],
    index: &[u16],
    sheet: &[u8],
    levels: usize,
    total: usize,
    mut ends: Ends,
    at: usize,
    out: &mut [u8],
) -> Ends
    requires { (Layout table.now index.now) × (Fits (items_w 4 (extending_of table.now levels) total at ends.free (drop ends.pos sheet.now)) at ends.free out.old) }
    ensures { Stands (items_w 4 (extending_of table.now levels) total at ends.free (drop ends.pos sheet.now)) at ends.free sheet.now out.old out.new result.pos result.free }
{
    let mut place = at;
    for _ in 0..total {
        ends = write_extending(table, index, sheet, levels, ends, place, out);
        place += 4;
    }
    ends
}

// A group of the extension; one of unknown type was kept as bytes.
#[cycle(write)]
fn write_extending(
    table: &[u8],
    index: &[u16],
    sheet: &[u8],
    levels: usize,
    ends: Ends,
    at: usize,
    out: &mut [u8],
) -> Ends
    requires { (Layout table.now index.now) × (Fits (extending_of table.now levels at ends.free (drop ends.pos sheet.now)) at ends.free out.old) }
    ensures { Stands (extending_of table.now levels at ends.free (drop ends.pos sheet.now)) at ends.free sheet.now out.old out.new result.pos result.free }
{
    let behind = Ends {
        pos: ends.pos + 2,
        ..ends
    };
    if wire::has_mark(sheet, ends.pos, XU) {
        return write_text(sheet, behind, at, out);
    }
    write_nested(table, index, sheet, levels, 0, behind, at, out)
}

// THE MESSAGE

// The message of an allowed sheet, at the start of `output`: its length. What lies behind it is what
// stood there.
pub fn write_message(table: &[u8], index: &[u16], sheet: &[u8], output: &mut [u8]) -> usize
    requires { (Layout table.now index.now) × ((X : List ℕ) × (sheet_w (schema table.now) sheet.now ≡ wrote X [] []) × (length X ≤ length output.old)) }
    ensures { (X : List ℕ) → sheet_w (schema table.now) sheet.now ≡ wrote X [] [] → (output.new ≡ splice (length X) 0 X output.old) × (result ≡ length X) }
{
    let ends = write_group(
        table,
        index,
        sheet,
        8,
        5,
        Scope::Whole { allowed: 0 },
        Ends { pos: 2, free: 0 },
        16,
        output,
    );
    ends.free
}
