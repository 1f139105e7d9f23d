// Sheets: a message's meaning, written out, and the message that a sheet makes.
//
// A sheet is written from a message that the check accepted, so nothing is tested here: every bound
// comes from the reading that the caller has. No byte that may be ignored is looked at, so it is said
// where all of them are (`lax`): what any setting accepts reads the same there. `pos` is where the next
// record begins in `out`.
#![tactic(auto)]

ghost use Rattle.std.specs.Prelude.{◌≡◌, true, List, ◌++◌, ℕ, ◌+◌, ◌-◌, ◌*◌, ◌<◌, ◌≤◌, length, drop};
ghost use Rattle.wire.specs.Bytes.{part, splice, bytes_of};
ghost use Rattle.schema.specs.Schema.{kind_width, value_width, field_width, shallow_kind, shallow};
ghost use Rattle.schema.specs.Table.{field_at, enums, schema};
ghost use Rattle.schema.specs.Layout.{Layout};
ghost use Rattle.schema.specs.FieldKinds.{kind_from, tested_kind};
ghost use Rattle.schema.specs.declared.FieldKind.TheVariants.{Number};
ghost use Rattle.message.specs.Sheet.{ST as StringMark, mark_bytes};
ghost use Rattle.settings.specs.Store.{lax};
ghost use Rattle.message.specs.Walk.{done, byte, word, items_r, walk};
ghost use Rattle.message.specs.Check.{width_of, static_of};
ghost use Rattle.message.specs.Scopes.{Lies};
ghost use Rattle.sheet.specs.Show.{passage, takes, head_of, id_of, number_of, end_of, group_of, plain_of, item_of, value_of, field_of, nested_of, extension_of, extending_of, Fits, Shown};

use schema::{FieldKind, Scope, Tested};

// "a two-byte mark before each record"
pub const VA: [u8; 2] = *b"VA";

pub const ST: [u8; 2] = *b"ST";

pub const SG: [u8; 2] = *b"SG";

pub const SQ: [u8; 2] = *b"SQ";

pub const GB: [u8; 2] = *b"GB";

pub const XT: [u8; 2] = *b"XT";

pub const XU: [u8; 2] = *b"XU";

pub const NO: [u8; 2] = *b"NO";

pub const GE: [u8; 2] = *b"GE";

// RECORDS

// A mark alone.
fn show_mark(mark: [u8; 2], out: &mut [u8], pos: usize) -> usize
    requires { pos + 2 ≤ length out.old }
    ensures { (out.new ≡ splice 2 pos mark out.old) × (result ≡ pos + 2) }
{
    wire::write_mark(out, pos, mark);
    pos + 2
}

// A mark and n bytes of the message.
fn show_bytes(mark: [u8; 2], bytes: &[u8], at: usize, n: usize, out: &mut [u8], pos: usize) -> usize
    requires { (at + n ≤ length bytes.now) × (pos + (2 + n) ≤ length out.old) }
    ensures { (out.new ≡ splice (2 + n) pos (mark ++ part n at bytes.now) out.old) × (result ≡ pos + (2 + n)) }
{
    wire::write_mark(out, pos, mark);
    wire::copy_value(out, pos + 2, bytes, at, n);
    pos + (2 + n)
}

// Inline text: its count takes one byte in the message, and four in the sheet.
fn show_inline(bytes: &[u8], at: usize, out: &mut [u8], pos: usize) -> usize
    requires { (at + 1 + byte at bytes.now ≤ length bytes.now) × (pos + (6 + byte at bytes.now) ≤ length out.old) }
    ensures { (out.new ≡ splice (6 + byte at bytes.now) pos (mark_bytes StringMark ++ (bytes_of 4 (byte at bytes.now) ++ part (byte at bytes.now) (at + 1) bytes.now)) out.old) × (result ≡ pos + (6 + byte at bytes.now)) }
{
    let count = usize::from(bytes[at]);
    wire::write_mark(out, pos, ST);
    wire::write_u32(out, pos + 2, count);
    wire::copy(out, pos + 6, bytes, at + 1, count);
    pos + (6 + count)
}

// So many plain values in a row, each its own record.
fn show_plain(
    bytes: &[u8],
    at: usize,
    width: usize,
    total: usize,
    out: &mut [u8],
    pos: usize,
) -> usize
    requires { (at + total * width ≤ length bytes.now) × (Fits (passage (items_r width (plain_of width) total) bytes.now at) pos out.old) }
    ensures { Shown (passage (items_r width (plain_of width) total) bytes.now at) pos out.old out.new result }
{
    let mut place = at;
    let mut next = pos;
    for _ in 0..total {
        next = show_bytes(VA, bytes, place, width, out, next);
        place += width;
    }
    next
}

// The same of numbers that the check has tested: a loop of its own, which need not look at the kind of each.
fn show_numbers(
    table: &[u8],
    bytes: &[u8],
    levels: usize,
    depth: usize,
    tested: Tested,
    width: usize,
    total: usize,
    at: usize,
    out: &mut [u8],
    pos: usize,
) -> usize
    requires { (at + total * width ≤ length bytes.now) × (width ≡ kind_width (width_of table.now depth) (tested_kind (enums table.now) tested)) × (Fits (passage (items_r width (item_of table.now levels depth (Number tested)) total) bytes.now at) pos out.old) }
    ensures { Shown (passage (items_r width (item_of table.now levels depth (Number tested)) total) bytes.now at) pos out.old out.new result }
{
    let mut place = at;
    let mut next = pos;
    for _ in 0..total {
        next = show_bytes(VA, bytes, place, width, out, next);
        place += width;
    }
    next
}

// GROUPS, FIELDS AND ITEMS

// A group that is opened: its number, the levels left below it, and where the sheet goes on.
#[derive(Clone, Copy)]
struct Opened {
    group: usize,
    levels: usize,
    pos: usize,
}

// What stands before the fields: a dynamic group begins with its type id.
fn open_group(
    table: &[u8],
    index: &[u16],
    bytes: &[u8],
    levels: usize,
    scope: Scope,
    out: &mut [u8],
    pos: usize,
) -> Opened
    requires { (Layout table.now index.now) × (takes scope ≤ levels) × (head_of scope ≤ length bytes.now) × (pos + length (id_of scope bytes.now) ≤ length out.old) }
    ensures { (result.group ≡ number_of table.now scope bytes.now) × (result.levels ≡ levels - takes scope) × (out.new ≡ splice (length (id_of scope bytes.now)) pos (id_of scope bytes.now) out.old) × (result.pos ≡ pos + length (id_of scope bytes.now)) }
{
    match scope {
        Scope::Whole { .. } => {
            let total = schema::group_total(index);
            let group = schema::find(table, index, total, wire::read_u64(bytes, 4));
            wire::copy_value(out, pos, bytes, 4, 8);
            Opened {
                group,
                levels: levels - 1,
                pos: pos + 8,
            }
        }
        Scope::Fields { group } => Opened { group, levels, pos },
    }
}

// A group whose fields stand at `at`. One function shows dynamic and static groups, so that a level is
// one call: each call passes its slices through memory.
#[cycle(show)]
fn show_group(
    table: &[u8],
    index: &[u16],
    bytes: &[u8],
    levels: usize,
    depth: usize,
    scope: Scope,
    at: usize,
    out: &mut [u8],
    pos: usize,
) -> usize
    requires { (Layout table.now index.now) × (length bytes.now ≤ 65536) × (Lies table.now depth scope bytes.now at) × (Fits (group_of table.now levels depth scope bytes.now at) pos out.old) }
    ensures { Shown (group_of table.now levels depth scope bytes.now at) pos out.old out.new result }
{
    let open = open_group(table, index, bytes, levels, scope, out, pos);
    let fields = show_fields(
        table,
        index,
        bytes,
        open.levels,
        depth,
        open.group,
        at,
        out,
        open.pos,
    );
    close_group(table, index, bytes, open.levels, scope, out, fields)
}

// What stands behind them: a dynamic group ends with its extension and a mark.
#[cycle(show)]
fn close_group(
    table: &[u8],
    index: &[u16],
    bytes: &[u8],
    levels: usize,
    scope: Scope,
    out: &mut [u8],
    pos: usize,
) -> usize
    requires { (Layout table.now index.now) × (length bytes.now ≤ 65536) × (head_of scope ≤ length bytes.now) × (Fits (end_of table.now levels scope bytes.now) pos out.old) }
    ensures { Shown (end_of table.now levels scope bytes.now) pos out.old out.new result }
{
    match scope {
        Scope::Whole { .. } => {
            let extension = show_extension(table, index, bytes, levels, out, pos);
            show_mark(GE, out, extension)
        }
        Scope::Fields { .. } => pos,
    }
}

// The fields of a group whose static depth is below `depth`. Required plain values are written here,
// without a call.
#[cycle(show)]
fn show_fields(
    table: &[u8],
    index: &[u16],
    bytes: &[u8],
    levels: usize,
    depth: usize,
    group: usize,
    at: usize,
    out: &mut [u8],
    pos: usize,
) -> usize
    requires { (Layout table.now index.now) × (length bytes.now ≤ 65536) × (at + width_of table.now depth group ≤ length bytes.now) × (group < length (schema table.now)) × (shallow (schema table.now) depth group ≡ true) × (Fits (passage (static_of lax table.now levels depth group) bytes.now at) pos out.old) }
    ensures { Shown (passage (static_of lax table.now levels depth group) bytes.now at) pos out.old out.new result }
{
    let start = schema::group_place(index, group);
    let total = schema::field_count(table, start);
    let deeper = depth - 1;
    let mut field = start + 16;
    let mut place = at;
    let mut next = pos;
    for _ in 0..total {
        let plain = schema::plain_width(table, field);
        if plain != 0 {
            next = show_bytes(VA, bytes, place, plain, out, next);
            place += plain;
        } else {
            let width = schema::field_width(table, index, field);
            next = show_field(table, index, bytes, levels, deeper, field, place, out, next);
            place += width;
        }
        field += 16;
    }
    next
}

// The field whose record stands at `field` of the table.
#[cycle(show)]
fn show_field(
    table: &[u8],
    index: &[u16],
    bytes: &[u8],
    levels: usize,
    depth: usize,
    field: usize,
    at: usize,
    out: &mut [u8],
    pos: usize,
) -> usize
    requires { (Layout table.now index.now) × (length bytes.now ≤ 65536) × (field + 16 ≤ length table.now) × (at + field_width (width_of table.now depth) (field_at (enums table.now) (drop field table.now)) ≤ length bytes.now) × (shallow_kind (shallow (schema table.now) depth) (width_of table.now depth) (field_at (enums table.now) (drop field table.now)).kind ≡ true) × (Fits (passage (field_of table.now levels depth field) bytes.now at) pos out.old) }
    ensures { Shown (passage (field_of table.now levels depth field) bytes.now at) pos out.old out.new result }
{
    let mut place = at;
    if schema::is_optional(table, field) {
        if bytes[at] != 1 {
            return show_mark(NO, out, pos);
        }
        place += 1;
    }
    show_value(table, index, bytes, levels, depth, field, place, out, pos)
}

#[cycle(show)]
fn show_value(
    table: &[u8],
    index: &[u16],
    bytes: &[u8],
    levels: usize,
    depth: usize,
    field: usize,
    at: usize,
    out: &mut [u8],
    pos: usize,
) -> usize
    requires { (Layout table.now index.now) × (length bytes.now ≤ 65536) × (field + 16 ≤ length table.now) × (at + value_width (width_of table.now depth) (field_at (enums table.now) (drop field table.now)) ≤ length bytes.now) × (shallow_kind (shallow (schema table.now) depth) (width_of table.now depth) (field_at (enums table.now) (drop field table.now)).kind ≡ true) × (Fits (passage (value_of table.now levels depth field) bytes.now at) pos out.old) }
    ensures { Shown (passage (value_of table.now levels depth field) bytes.now at) pos out.old out.new result }
{
    let kind = schema::kind_at(table, field);
    let width = schema::kind_width(index, kind);
    // A single value is a row of one item, so that a level stays one call.
    let (total, start, next) = if schema::is_sequence(table, field) {
        let place = at + wire::read_u32(bytes, at);
        let total = wire::read_u32(bytes, place);
        let next = show_bytes(SQ, bytes, place, 4, out, pos);
        (total, place + 4, next)
    } else {
        (1, at, pos)
    };
    show_items(
        table, index, bytes, levels, depth, kind, width, total, start, out, next,
    )
}

// So many items, each of `width` bytes.
#[cycle(show)]
fn show_items(
    table: &[u8],
    index: &[u16],
    bytes: &[u8],
    levels: usize,
    depth: usize,
    kind: FieldKind,
    width: usize,
    total: usize,
    at: usize,
    out: &mut [u8],
    pos: usize,
) -> usize
    requires { (Layout table.now index.now) × (length bytes.now ≤ 65536) × (at + total * width ≤ length bytes.now) × (width ≡ kind_width (width_of table.now depth) (kind_from (enums table.now) kind)) × (shallow_kind (shallow (schema table.now) depth) (width_of table.now depth) (kind_from (enums table.now) kind) ≡ true) × (Fits (passage (items_r width (item_of table.now levels depth kind) total) bytes.now at) pos out.old) }
    ensures { Shown (passage (items_r width (item_of table.now levels depth kind) total) bytes.now at) pos out.old out.new result }
{
    if let FieldKind::Plain { width: plain } = kind {
        return show_plain(bytes, at, usize::from(plain), total, out, pos);
    }
    if let FieldKind::Number { tested } = kind {
        return show_numbers(
            table, bytes, levels, depth, tested, width, total, at, out, pos,
        );
    }
    let mut place = at;
    let mut next = pos;
    for _ in 0..total {
        next = show_item(table, index, bytes, levels, depth, kind, place, out, next);
        place += width;
    }
    next
}

#[cycle(show)]
fn show_item(
    table: &[u8],
    index: &[u16],
    bytes: &[u8],
    levels: usize,
    depth: usize,
    kind: FieldKind,
    at: usize,
    out: &mut [u8],
    pos: usize,
) -> usize
    requires { (Layout table.now index.now) × (length bytes.now ≤ 65536) × (at + kind_width (width_of table.now depth) (kind_from (enums table.now) kind) ≤ length bytes.now) × (shallow_kind (shallow (schema table.now) depth) (width_of table.now depth) (kind_from (enums table.now) kind) ≡ true) × (Fits (passage (item_of table.now levels depth kind) bytes.now at) pos out.old) }
    ensures { Shown (passage (item_of table.now levels depth kind) bytes.now at) pos out.old out.new result }
{
    match kind {
        FieldKind::Plain { width } => show_bytes(VA, bytes, at, usize::from(width), out, pos),
        FieldKind::Number { tested } => {
            let width = usize::from(schema::tested_width(tested));
            show_bytes(VA, bytes, at, width, out, pos)
        }
        FieldKind::Inline { .. } => show_inline(bytes, at, out, pos),
        FieldKind::Indirect { .. } => {
            let place = at + wire::read_u32(bytes, at);
            let count = wire::read_u32(bytes, place);
            show_bytes(ST, bytes, place, 4 + count, out, pos)
        }
        FieldKind::Static { group } => {
            let next = show_mark(SG, out, pos);
            show_group(
                table,
                index,
                bytes,
                levels,
                depth,
                Scope::Fields { group },
                at,
                out,
                next,
            )
        }
        FieldKind::Dynamic { allowed } => {
            let place = at + wire::read_u32(bytes, at);
            show_nested(table, index, bytes, levels, allowed, place, out, pos)
        }
    }
}

// The dynamic group at `place`, which is its size word and so many bytes behind it.
#[cycle(show)]
fn show_nested(
    table: &[u8],
    index: &[u16],
    bytes: &[u8],
    levels: usize,
    allowed: usize,
    place: usize,
    out: &mut [u8],
    pos: usize,
) -> usize
    requires { (Layout table.now index.now) × (length bytes.now ≤ 65536) × (place + (4 + word place bytes.now) ≤ length bytes.now) × (Fits (passage (nested_of table.now levels allowed (word place bytes.now)) bytes.now place) pos out.old) }
    ensures { Shown (passage (nested_of table.now levels allowed (word place bytes.now)) bytes.now place) pos out.old out.new result }
{
    let end = place + (4 + wire::read_u32(bytes, place));
    let next = show_mark(GB, out, pos);
    show_group(
        table,
        index,
        &bytes[place..end],
        levels,
        5,
        Scope::Whole { allowed },
        16,
        out,
        next,
    )
}

// "An extension is a sequence of any groups", and one of no groups means the same as none.
#[cycle(show)]
fn show_extension(
    table: &[u8],
    index: &[u16],
    bytes: &[u8],
    levels: usize,
    out: &mut [u8],
    pos: usize,
) -> usize
    requires { (Layout table.now index.now) × (length bytes.now ≤ 65536) × (16 ≤ length bytes.now) × (Fits (passage (extension_of table.now levels) bytes.now 12) pos out.old) }
    ensures { Shown (passage (extension_of table.now levels) bytes.now 12) pos out.old out.new result }
{
    let offset = wire::read_u32(bytes, 12);
    if offset == 0 {
        return pos;
    }
    let place = 12 + offset;
    let count = wire::read_u32(bytes, place);
    if count == 0 {
        return pos;
    }
    let next = show_bytes(XT, bytes, place, 4, out, pos);
    show_groups(table, index, bytes, levels, count, place + 4, out, next)
}

#[cycle(show)]
fn show_groups(
    table: &[u8],
    index: &[u16],
    bytes: &[u8],
    levels: usize,
    total: usize,
    at: usize,
    out: &mut [u8],
    pos: usize,
) -> usize
    requires { (Layout table.now index.now) × (length bytes.now ≤ 65536) × (at + total * 4 ≤ length bytes.now) × (Fits (passage (items_r 4 (extending_of table.now levels) total) bytes.now at) pos out.old) }
    ensures { Shown (passage (items_r 4 (extending_of table.now levels) total) bytes.now at) pos out.old out.new result }
{
    let mut place = at;
    let mut next = pos;
    for _ in 0..total {
        next = show_extending(table, index, bytes, levels, place, out, next);
        place += 4;
    }
    next
}

// A group of the extension; one of unknown type is kept as bytes.
#[cycle(show)]
fn show_extending(
    table: &[u8],
    index: &[u16],
    bytes: &[u8],
    levels: usize,
    at: usize,
    out: &mut [u8],
    pos: usize,
) -> usize
    requires { (Layout table.now index.now) × (length bytes.now ≤ 65536) × (at + 4 ≤ length bytes.now) × (Fits (passage (extending_of table.now levels) bytes.now at) pos out.old) }
    ensures { Shown (passage (extending_of table.now levels) bytes.now at) pos out.old out.new result }
{
    let place = at + wire::read_u32(bytes, at);
    if schema::is_known(table, index, wire::read_u64(bytes, place + 4)) {
        return show_nested(table, index, bytes, levels, 0, place, out, pos);
    }
    let count = wire::read_u32(bytes, place);
    show_bytes(XU, bytes, place, 4 + count, out, pos)
}

// THE MESSAGE

// The sheet of an accepted message, at the start of `sheet`: its length. What lies behind it is what
// stood there.
pub fn write_sheet(table: &[u8], index: &[u16], message: &[u8], sheet: &mut [u8]) -> usize
    requires { (Layout table.now index.now) × (length message.now ≤ 65536) × ((s : List ℕ) × (m : List ℕ) × (walk lax (schema table.now) message.now ≡ done s m) × (length s ≤ length sheet.old)) }
    ensures { (s m : List ℕ) → walk lax (schema table.now) message.now ≡ done s m → (sheet.new ≡ splice (length s) 0 s sheet.old) × (result ≡ length s) }
{
    let next = show_mark(GB, sheet, 0);
    show_group(
        table,
        index,
        message,
        8,
        5,
        Scope::Whole { allowed: 0 },
        16,
        sheet,
        next,
    )
}
