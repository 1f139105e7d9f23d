// From a sheet to its message, first pass: the sheet's first fault, or how long the message is.
//
// The sheet is read record by record, in document 01's order, and nothing is written. How many bytes
// a group's fields take is known from the table, so only what goes into data areas is counted. `place`
// is where the next record begins in the sheet, and functions count on from `before`.
#![tactic(auto)]

ghost use Rattle.std.specs.Prelude.{◌≡◌, true, ◌&&◌, List, ℕ, ◌+◌, ◌<◌, ◌≤◌, ◌^◌, length, drop, OnOk, MatchResult, Err};
ghost use Rattle.wire.specs.Bytes.{part, le, same};
ghost use Rattle.schema.specs.Faults.{judged};
ghost use Rattle.schema.specs.Schema.{inline, kind_width, shallow_kind, shallow};
ghost use Rattle.schema.specs.Table.{field_at, enums, schema};
ghost use Rattle.schema.specs.Layout.{Layout};
ghost use Rattle.schema.specs.FieldKinds.{kind_from, tested_kind};
ghost use Rattle.schema.specs.declared.Scope.TheVariants.{Whole};
ghost use Rattle.message.specs.Sheet.{ST as StringMark, XU as UnknownMark, NO as AbsentMark, mark_bytes};
ghost use Rattle.message.specs.Check.{width_of};
ghost use Rattle.sheet.specs.Written.{InnerW, Writer, indirect_w, items_w, extending_b, sheet_w};
ghost use Rattle.sheet.specs.Writers.{item_w, static_of, plain_of, item_of, field_of, extending_of, text_of, extension_of};
ghost use Rattle.parsing.specs.Count.{capped};
ghost use Rattle.parsing.specs.Parse.{parsed_of, Finds, record_fault, counted_fault, end_w, group_of, close_of, Ready, Within, Opens};

use schema::Fault;
use sheet::{GB, GE, NO, SG, SQ, ST, VA, XT, XU};

// What a step finds where no fault is: where the next record begins, and how many bytes there are so far.
#[derive(Clone, Copy)]
struct Step {
    next: usize,
    length: usize,
}

// The count, some bytes further. A message of more than 65,536 bytes is refused however long it is, so
// the count stops above.
#[tactic(auto, unfolding(crate::specs::Count::capped))]
fn longer(length: usize, by: usize) -> usize
    requires { length + by < 2 ^ 64 }
    ensures { (result ≡ capped (length + by)) × (result ≤ 65537) }
{
    (length + by).min(65537)
}

// RECORDS

// Whether the next record has this mark.
fn stands(sheet: &[u8], place: usize, mark: [u8; 2]) -> bool
    requires { (place ≤ length sheet.now) × (length sheet.now ≤ 1048576) }
    ensures { result ≡ same (part 2 place sheet.now) mark }
{
    place + 2 <= sheet.len() && wire::has_mark(sheet, place, mark)
}

// "40 on the mark, 41, 40 on the rest": a record of this mark and n bytes.
fn check_record(sheet: &[u8], place: usize, mark: [u8; 2], n: usize) -> Result<(), Fault>
    requires { (place ≤ length sheet.now) × (length sheet.now ≤ 1048576) × (n < 256) }
    ensures answer { result ≡ judged (record_fault mark n (drop place sheet.now)) place }
    ensures inside { OnOk result (place + (2 + n) ≤ length sheet.now) }
{
    if sheet.len() < place + 2 {
        return Err(Fault { number: 40, place });
    }
    if !wire::has_mark(sheet, place, mark) {
        return Err(Fault { number: 41, place });
    }
    if sheet.len() < place + (2 + n) {
        return Err(Fault { number: 40, place });
    }
    Ok(())
}

// The same of a record of this mark, a count and so many bytes: the count.
fn check_counted(sheet: &[u8], place: usize, mark: [u8; 2]) -> Result<usize, Fault>
    requires { (place ≤ length sheet.now) × (length sheet.now ≤ 1048576) }
    ensures { MatchResult result (λ n. (counted_fault mark (drop place sheet.now) ≡ 0) × (n ≡ le (part 4 (place + 2) sheet.now)) × (place + (6 + n) ≤ length sheet.now)) (λ f. Err f ≡ judged (counted_fault mark (drop place sheet.now)) place) }
{
    check_record(sheet, place, mark, 4)?;
    let count = wire::read_u32(sheet, place + 2);
    if sheet.len() < place + (6 + count) {
        return Err(Fault { number: 40, place });
    }
    Ok(count)
}

// VALUES THAT HOLD NO OTHER

fn check_plain(sheet: &[u8], width: usize, place: usize, before: usize) -> Result<Step, Fault>
    requires { (Ready sheet.now place before) × (width < 256) }
    ensures { Finds sheet.now before (plain_of width) place result }
{
    check_record(sheet, place, VA, width)?;
    Ok(Step {
        next: place + (2 + width),
        length: before,
    })
}

// "10, 11, 12: no such symbol; bool or flag not 0, 1; 24 hours or more"
fn check_number(
    table: &[u8],
    index: &[u16],
    sheet: &[u8],
    tested: schema::Tested,
    place: usize,
    before: usize,
) -> Result<Step, Fault>
    requires { (Layout table.now index.now) × (Ready sheet.now place before) }
    ensures { (I : InnerW) (S : ℕ → Writer) → Finds sheet.now before (item_w I S (tested_kind (enums table.now) tested)) place result }
{
    let width = usize::from(schema::tested_width(tested));
    check_record(sheet, place, VA, width)?;
    schema::check_tested(table, index, tested, sheet, place + 2, place)?;
    Ok(Step {
        next: place + (2 + width),
        length: before,
    })
}

// "Inline text: 7, 9": it takes its capacity in place, whatever its count.
fn check_inline(
    sheet: &[u8],
    utf8: bool,
    capacity: u8,
    place: usize,
    before: usize,
) -> Result<Step, Fault>
    requires { Ready sheet.now place before }
    ensures { (I : InnerW) (S : ℕ → Writer) → Finds sheet.now before (item_w I S (inline utf8 capacity)) place result }
{
    let count = check_counted(sheet, place, ST)?;
    if usize::from(capacity) < count {
        return Err(Fault { number: 7, place });
    }
    if !schema::is_text(utf8, sheet, place + 6, count) {
        return Err(Fault { number: 9, place });
    }
    Ok(Step {
        next: place + (6 + count),
        length: before,
    })
}

// Indirect text: its count and its bytes go into the data area.
fn check_text(sheet: &[u8], utf8: bool, place: usize, before: usize) -> Result<Step, Fault>
    requires { Ready sheet.now place before }
    ensures { Finds sheet.now before (text_of utf8) place result }
{
    let count = check_counted(sheet, place, ST)?;
    if !schema::is_text(utf8, sheet, place + 6, count) {
        return Err(Fault { number: 9, place });
    }
    Ok(Step {
        next: place + (6 + count),
        length: longer(before, 4 + count),
    })
}

// "`XU` size u32 and that many bytes is a group of unknown type": "1, 45".
fn check_kept(
    table: &[u8],
    index: &[u16],
    sheet: &[u8],
    place: usize,
    before: usize,
) -> Result<Step, Fault>
    requires { (Layout table.now index.now) × (Ready sheet.now place before) × (same (part 2 place sheet.now) (mark_bytes UnknownMark) ≡ true) }
    ensures { (I : InnerW) → Finds sheet.now before (indirect_w (extending_b (schema table.now) I)) place result }
{
    let count = check_counted(sheet, place, XU)?;
    if count < 12 {
        return Err(Fault { number: 1, place });
    }
    if schema::is_known(table, index, wire::read_u64(sheet, place + 6)) {
        return Err(Fault { number: 45, place });
    }
    Ok(Step {
        next: place + (6 + count),
        length: longer(before, 4 + count),
    })
}

// So many plain values in a row, each its own record.
fn check_plains(
    sheet: &[u8],
    width: usize,
    total: usize,
    place: usize,
    before: usize,
) -> Result<Step, Fault>
    requires { (Ready sheet.now place before) × (width < 256) }
    ensures { Finds sheet.now before (items_w width (plain_of width) total) place result }
{
    let mut next = place;
    for _ in 0..total {
        check_record(sheet, next, VA, width)?;
        next += 2 + width;
    }
    Ok(Step {
        next,
        length: before,
    })
}

// So many indirect texts in a row, each its own record.
fn check_texts(
    sheet: &[u8],
    utf8: bool,
    total: usize,
    place: usize,
    before: usize,
) -> Result<Step, Fault>
    requires { Ready sheet.now place before }
    ensures { Finds sheet.now before (items_w 4 (text_of utf8) total) place result }
{
    let mut step = Step {
        next: place,
        length: before,
    };
    for _ in 0..total {
        step = check_text(sheet, utf8, step.next, step.length)?;
    }
    Ok(step)
}

// "`NO` is an absent field": whether it stands for the field whose record is at `field`.
fn is_absent(table: &[u8], sheet: &[u8], field: usize, place: usize) -> bool
    requires { (field + 16 ≤ length table.now) × (place ≤ length sheet.now) × (length sheet.now ≤ 1048576) }
    ensures { (es : List (List ℕ)) → result ≡ (field_at es (drop field table.now)).optional && same (part 2 place sheet.now) AbsentMark }
{
    schema::is_optional(table, field) && stands(sheet, place, NO)
}

// "`GE` closes it"
fn check_end(sheet: &[u8], place: usize, before: usize) -> Result<Step, Fault>
    requires { Ready sheet.now place before }
    ensures { Finds sheet.now before end_w place result }
{
    check_record(sheet, place, GE, 0)?;
    Ok(Step {
        next: place + 2,
        length: before,
    })
}

// GROUPS, FIELDS AND ITEMS

// A group that is opened: its number, the levels left below it, where its fields begin in the sheet,
// and the count before them.
#[derive(Clone, Copy)]
struct Opened {
    group: usize,
    levels: usize,
    place: usize,
    length: usize,
}

// "`GB` type id u64 opens a group": "2, 25, 24". `levels` are left for it, and `allowed` is the number
// of the dynamic kind that names it. Its head and its fields take 16 bytes and its width.
fn open_dynamic(
    table: &[u8],
    index: &[u16],
    sheet: &[u8],
    levels: usize,
    allowed: usize,
    place: usize,
    before: usize,
) -> Result<Opened, Fault>
    requires { (Layout table.now index.now) × (Ready sheet.now place before) }
    ensures { Opens table.now sheet.now levels 5 (Whole allowed) place before result }
{
    check_record(sheet, place, GB, 8)?;
    let total = schema::group_total(index);
    let group = schema::find(table, index, total, wire::read_u64(sheet, place + 2));
    if total <= group {
        return Err(Fault { number: 2, place });
    }
    if !schema::allows(table, index, allowed, group) {
        return Err(Fault { number: 25, place });
    }
    if levels == 0 {
        return Err(Fault { number: 24, place });
    }
    Ok(Opened {
        group,
        levels: levels - 1,
        place: place + 10,
        length: longer(before, 16 + schema::group_width(index, group)),
    })
}

// A static group has no head: its fields come at once.
fn open_group(
    table: &[u8],
    index: &[u16],
    sheet: &[u8],
    levels: usize,
    scope: schema::Scope,
    place: usize,
    before: usize,
) -> Result<Opened, Fault>
    requires { (Layout table.now index.now) × (Ready sheet.now place before) }
    ensures { (depth : ℕ) → Within table.now depth scope → Opens table.now sheet.now levels depth scope place before result }
{
    match scope {
        schema::Scope::Whole { allowed } => open_dynamic(
            table, index, sheet, levels, allowed, place, before,
        ),
        schema::Scope::Fields { group } => Ok(Opened {
            group,
            levels,
            place,
            length: before,
        }),
    }
}

// A group, whole or its fields alone. One function checks both, and calls `check_fields` in one place
// only, so that a level costs one call.
#[cycle(parse)]
fn check_group(
    table: &[u8],
    index: &[u16],
    sheet: &[u8],
    levels: usize,
    depth: usize,
    scope: schema::Scope,
    place: usize,
    before: usize,
) -> Result<Step, Fault>
    requires { (Layout table.now index.now) × (Ready sheet.now place before) × (Within table.now depth scope) }
    ensures { Finds sheet.now before (group_of table.now levels depth scope) place result }
{
    let open = open_group(table, index, sheet, levels, scope, place, before)?;
    let fields = check_fields(
        table,
        index,
        sheet,
        open.levels,
        depth,
        open.group,
        open.place,
        open.length,
    )?;
    close_group(
        table,
        index,
        sheet,
        open.levels,
        scope,
        fields.next,
        fields.length,
    )
}

// What stands behind the fields: of a dynamic group its extension and its end. "`SG` opens a static
// group and no record closes it".
#[cycle(parse)]
fn close_group(
    table: &[u8],
    index: &[u16],
    sheet: &[u8],
    levels: usize,
    scope: schema::Scope,
    place: usize,
    before: usize,
) -> Result<Step, Fault>
    requires { (Layout table.now index.now) × (Ready sheet.now place before) }
    ensures { Finds sheet.now before (close_of table.now levels scope) place result }
{
    match scope {
        schema::Scope::Whole { .. } => {
            let extension = check_extension(table, index, sheet, levels, place, before)?;
            check_end(sheet, extension.next, extension.length)
        }
        schema::Scope::Fields { .. } => Ok(Step {
            next: place,
            length: before,
        }),
    }
}

// The fields of a group whose static depth is below `depth`. Required plain values are checked here,
// without a look at their kind.
#[cycle(parse)]
fn check_fields(
    table: &[u8],
    index: &[u16],
    sheet: &[u8],
    levels: usize,
    depth: usize,
    group: usize,
    place: usize,
    before: usize,
) -> Result<Step, Fault>
    requires { (Layout table.now index.now) × (Ready sheet.now place before) × (group < length (schema table.now)) × (shallow (schema table.now) depth group ≡ true) }
    ensures { Finds sheet.now before (static_of table.now levels depth group) place result }
{
    let start = schema::group_place(index, group);
    let total = schema::field_count(table, start);
    let deeper = depth - 1;
    let mut field = start + 16;
    let mut step = Step {
        next: place,
        length: before,
    };
    for _ in 0..total {
        let plain = schema::plain_width(table, field);
        step = if plain != 0 {
            check_plain(sheet, plain, step.next, step.length)?
        } else {
            check_field(
                table,
                index,
                sheet,
                levels,
                deeper,
                field,
                step.next,
                step.length,
            )?
        };
        field += 16;
    }
    Ok(step)
}

// The field whose record stands at `field` of the table: absent, "`SQ` count u32, then the items", or
// one value. That is checked as one item, so that `check_items` is called in one place only, where it
// is compiled without a call; a dynamic group needs no loop of one turn.
#[cycle(parse)]
fn check_field(
    table: &[u8],
    index: &[u16],
    sheet: &[u8],
    levels: usize,
    depth: usize,
    field: usize,
    place: usize,
    before: usize,
) -> Result<Step, Fault>
    requires { (Layout table.now index.now) × (Ready sheet.now place before) × (field + 16 ≤ length table.now) × (shallow_kind (shallow (schema table.now) depth) (width_of table.now depth) (field_at (enums table.now) (drop field table.now)).kind ≡ true) }
    ensures { Finds sheet.now before (field_of table.now levels depth field) place result }
{
    if is_absent(table, sheet, field, place) {
        return Ok(Step {
            next: place + 2,
            length: before,
        });
    }
    let kind = schema::kind_at(table, field);
    let width = schema::kind_width(index, kind);
    let mut total = 1;
    let mut start = place;
    let mut length = before;
    if schema::is_sequence(table, field) {
        check_record(sheet, place, SQ, 4)?;
        total = wire::read_u32(sheet, place + 2);
        start = place + 6;
        length = longer(before, 4 + total * width);
    } else if let schema::FieldKind::Dynamic { allowed } = kind {
        return check_group(
            table,
            index,
            sheet,
            levels,
            5,
            schema::Scope::Whole { allowed },
            place,
            before,
        );
    }
    check_items(
        table, index, sheet, levels, depth, kind, width, total, start, length,
    )
}

// So many items, each of `width` bytes in place. A count with no items behind it ends at the first
// that is missing.
#[cycle(parse)]
fn check_items(
    table: &[u8],
    index: &[u16],
    sheet: &[u8],
    levels: usize,
    depth: usize,
    kind: schema::FieldKind,
    width: usize,
    total: usize,
    place: usize,
    before: usize,
) -> Result<Step, Fault>
    requires { (Layout table.now index.now) × (Ready sheet.now place before) × (width ≡ kind_width (width_of table.now depth) (kind_from (enums table.now) kind)) × (shallow_kind (shallow (schema table.now) depth) (width_of table.now depth) (kind_from (enums table.now) kind) ≡ true) }
    ensures { Finds sheet.now before (items_w width (item_of table.now levels depth kind) total) place result }
{
    if let schema::FieldKind::Plain { width: plain } = kind {
        return check_plains(sheet, usize::from(plain), total, place, before);
    }
    if let schema::FieldKind::Indirect { utf8 } = kind {
        return check_texts(sheet, utf8, total, place, before);
    }
    let mut step = Step {
        next: place,
        length: before,
    };
    for _ in 0..total {
        step = check_item(
            table,
            index,
            sheet,
            levels,
            depth,
            kind,
            step.next,
            step.length,
        )?;
    }
    Ok(step)
}

#[cycle(parse)]
fn check_item(
    table: &[u8],
    index: &[u16],
    sheet: &[u8],
    levels: usize,
    depth: usize,
    kind: schema::FieldKind,
    place: usize,
    before: usize,
) -> Result<Step, Fault>
    requires { (Layout table.now index.now) × (Ready sheet.now place before) × (shallow_kind (shallow (schema table.now) depth) (width_of table.now depth) (kind_from (enums table.now) kind) ≡ true) }
    ensures { Finds sheet.now before (item_of table.now levels depth kind) place result }
{
    match kind {
        schema::FieldKind::Plain { width } => check_plain(sheet, usize::from(width), place, before),
        schema::FieldKind::Number { tested } => check_number(
            table, index, sheet, tested, place, before,
        ),
        schema::FieldKind::Inline { utf8, capacity } => check_inline(
            sheet, utf8, capacity, place, before,
        ),
        schema::FieldKind::Indirect { utf8 } => check_text(sheet, utf8, place, before),
        schema::FieldKind::Static { group } => {
            check_record(sheet, place, SG, 0)?;
            check_group(
                table,
                index,
                sheet,
                levels,
                depth,
                schema::Scope::Fields { group },
                place + 2,
                before,
            )
        }
        schema::FieldKind::Dynamic { allowed } => check_group(
            table,
            index,
            sheet,
            levels,
            5,
            schema::Scope::Whole { allowed },
            place,
            before,
        ),
    }
}

// "the extension is last"; where no `XT` stands there is none.
#[cycle(parse)]
fn check_extension(
    table: &[u8],
    index: &[u16],
    sheet: &[u8],
    levels: usize,
    place: usize,
    before: usize,
) -> Result<Step, Fault>
    requires { (Layout table.now index.now) × (Ready sheet.now place before) }
    ensures { Finds sheet.now before (extension_of table.now levels) place result }
{
    if !stands(sheet, place, XT) {
        return Ok(Step {
            next: place,
            length: before,
        });
    }
    check_record(sheet, place, XT, 4)?;
    let count = wire::read_u32(sheet, place + 2);
    if count == 0 {
        return Err(Fault { number: 44, place });
    }
    let body = longer(before, 4 + count * 4);
    check_groups(table, index, sheet, levels, count, place + 6, body)
}

#[cycle(parse)]
fn check_groups(
    table: &[u8],
    index: &[u16],
    sheet: &[u8],
    levels: usize,
    total: usize,
    place: usize,
    before: usize,
) -> Result<Step, Fault>
    requires { (Layout table.now index.now) × (Ready sheet.now place before) }
    ensures { Finds sheet.now before (items_w 4 (extending_of table.now levels) total) place result }
{
    let mut step = Step {
        next: place,
        length: before,
    };
    for _ in 0..total {
        step = check_extending(table, index, sheet, levels, step.next, step.length)?;
    }
    Ok(step)
}

// A group of the extension; one of unknown type is kept as bytes.
#[cycle(parse)]
fn check_extending(
    table: &[u8],
    index: &[u16],
    sheet: &[u8],
    levels: usize,
    place: usize,
    before: usize,
) -> Result<Step, Fault>
    requires { (Layout table.now index.now) × (Ready sheet.now place before) }
    ensures { Finds sheet.now before (extending_of table.now levels) place result }
{
    if stands(sheet, place, XU) {
        return check_kept(table, index, sheet, place, before);
    }
    check_group(
        table,
        index,
        sheet,
        levels,
        5,
        schema::Scope::Whole { allowed: 0 },
        place,
        before,
    )
}

// THE SHEET

// "42, then record by record", and "43: bytes after the last `GE`, place the first of them".
pub fn check_sheet(table: &[u8], index: &[u16], sheet: &[u8]) -> Result<usize, Fault>
    requires { Layout table.now index.now }
    ensures { result ≡ parsed_of (sheet_w (schema table.now) sheet.now) }
{
    if 1048576 < sheet.len() {
        return Err(Fault {
            number: 42,
            place: 0,
        });
    }
    let group = check_group(
        table,
        index,
        sheet,
        8,
        5,
        schema::Scope::Whole { allowed: 0 },
        0,
        0,
    )?;
    if group.next < sheet.len() {
        return Err(Fault {
            number: 43,
            place: group.next,
        });
    }
    Ok(group.length)
}
