// A message under its schema: whether it is one, and how long its sheet is.
//
// The check walks a message once, in the order of document 01, and keeps which bytes of a group are
// taken by where the packed ones end and, for others, in the scratch that the caller lends. `index` is
// that of crate `schema`. Functions count the sheet's length on from `before`, what comes before them.
#![tactic(auto)]

mod failure;

ghost use Rattle.std.specs.Prelude.{IfOk, ◌≡◌, ℕ, ◌+◌, ◌-◌, ◌*◌, ◌%◌, ◌^◌, ◌<◌, ◌≤◌, min, max, true, not, ◌&&◌, ◌||◌, List, [], length, drop, replicate, if◌then◌else◌, ◌==◌, ◌≢◌};
ghost use Rattle.wire.specs.Bytes.{part, splice, all_zero};
ghost use Rattle.schema.specs.Faults.{need};
ghost use Rattle.schema.specs.Schema.{inline, kind_width, value_width, field_width, shallow_kind, shallow};
ghost use Rattle.schema.specs.Table.{field_at, enums, schema};
ghost use Rattle.schema.specs.Layout.{width_in, Layout};
ghost use Rattle.schema.specs.FieldKinds.{kind_from, tested_kind, Widths};
ghost use Rattle.schema.specs.declared.Scope.TheVariants.{Whole};
ghost use Rattle.settings.specs.declared.Ignored.{Ignored};
ghost use Rattle.message.specs.Occupancy.{free, occupy, pads_zero, pads_before};
ghost use Rattle.message.specs.Sheet.{Mark, ST};
ghost use Rattle.message.specs.Walk.{lost, found, Reader, Inner, byte, here, marked_r, optional_r, indirect_r, text_r, inner_r, locate, items_r, field_r, extending_r, extension_r, extension_in, body_r, walk};
ghost use Rattle.message.specs.Count.{count, and_then, counted};
ghost use Rattle.message.specs.Check.{levels_in, ignored_in, packed, scattered, occupancy_of, closing, count_by, count_of, after, place_by, Claims, Lands, within, item_r, marked_value_r, inner_of, width_of, static_of, Ready};
ghost use Rattle.message.specs.declared.Frame.{Frame};
ghost use Rattle.message.specs.Scopes.{group_of, behind_of, left_of, Lies, Opens};

use failure::Failure;
use schema::{Fault, FieldKind, Scope, Tested};
use settings::Ignored;

// Which bytes of a data area are taken, as one number, since a struct would pass through memory at each
// call: where the packed values end, and, once a value did not stand straight behind the others, this
// added. Then more bytes are taken in the scratch. No message is so long.
const SCATTERED: usize = 131072;

// What a walk has found: how long the sheet is so far, in 64 bits, and what is taken. No sheet is so long
// that this wraps, which is shown of the whole message; the walk need not know.
#[derive(Clone, Copy)]
struct Step {
    length: usize,
    taken: usize,
}

// Where an offset leads: a value's place and its count or size word, and what is taken with it.
#[derive(Clone, Copy)]
struct Found {
    place: usize,
    count: usize,
    taken: usize,
}

// What holds in the whole of a dynamic group: where it starts in the message, where its data area
// starts in its own bytes, and in one number how many levels are left below it and which faults are
// ignored. With a level and three flags for that number a nested group took 5 in 100 more instructions.
#[derive(Clone, Copy)]
struct Frame {
    base: usize,
    area: usize,
    rules: usize,
}

// The rules of a message where this is ignored: eight levels, and 16, 32 and 64 for 4, 6 and 8.
fn rules_of(ignored: Ignored) -> usize
    ensures { (levels_in result ≡ 8) × (ignored_in result ≡ ignored) }
{
    8 + 16 * usize::from(ignored.absent)
        + 32 * usize::from(ignored.pads)
        + 64 * usize::from(ignored.unused)
}

fn levels_left(rules: usize) -> usize
    ensures { result ≡ levels_in rules }
{
    rules % 16
}

fn ignores_absent(rules: usize) -> bool
    ensures { result ≡ (ignored_in rules).absent }
{
    rules / 16 % 2 == 1
}

fn ignores_pads(rules: usize) -> bool
    ensures { result ≡ (ignored_in rules).pads }
{
    2 <= rules / 16 % 4
}

fn ignores_unused(rules: usize) -> bool
    ensures { result ≡ (ignored_in rules).unused }
{
    4 <= rules / 16
}

// Whether the n bytes from `at` on, which hold no value, are as they must be: zero, unless that is ignored.
fn is_blank(ignored: bool, bytes: &[u8], at: usize, n: usize) -> bool
    requires { at + n ≤ length bytes.now }
    ensures { result ≡ ignored || all_zero (part n at bytes.now) }
{
    ignored || wire::all_zero(bytes, at, n)
}

// THE DATA AREA

fn packed_end(taken: usize) -> usize
    ensures { result ≡ packed taken }
{
    taken % SCATTERED
}

// "Offset: 5, 26 for the count or size word, 26 or 13 for the rest, 27": what is found is taken.
fn locate(
    bytes: &[u8],
    occupied: &mut [u8],
    frame: Frame,
    taken: usize,
    at: usize,
    past: u8,
    width: usize,
) -> Result<Found, Failure>
    requires { (length occupied.old ≡ length bytes.now) × (frame.base + length bytes.now ≤ 65536) × (frame.area ≤ length bytes.now) × (at + 4 ≤ length bytes.now) × (width ≤ 4096) }
    ensures { (place_by (λ s. occupancy_of frame.area s occupied.new) result ≡ locate past width (within bytes.now frame) at (occupancy_of frame.area taken occupied.old)) × IfOk result (Lands (λ s. occupancy_of frame.area s occupied.new) width bytes.now) }
{
    let place = at + wire::read_u32(bytes, at);
    if place < frame.area || bytes.len() <= place {
        return Err(Failure {
            number: 5,
            place: frame.base + at,
        });
    }
    if bytes.len() < place + 4 {
        return Err(Failure {
            number: 26,
            place: frame.base + place,
        });
    }
    let count = wire::read_u32(bytes, place);
    let size = 4 + count * width;
    if bytes.len() < place + size {
        return Err(Failure {
            number: usize::from(past),
            place: frame.base + place,
        });
    }
    claim(occupied, frame, taken, place, count, size)
}

// "27: byte already taken", or the value of `size` bytes at `place` is taken.
fn claim(
    occupied: &mut [u8],
    frame: Frame,
    taken: usize,
    place: usize,
    count: usize,
    size: usize,
) -> Result<Found, Failure>
    requires { (frame.area ≤ place) × (1 ≤ size) × (place + size ≤ length occupied.old) × (frame.base + length occupied.old ≤ 65536) }
    ensures { (place_by (λ s. occupancy_of frame.area s occupied.new) result ≡ need (free place size (occupancy_of frame.area taken occupied.old)) (lost 27 (frame.base + place)) (found place count (occupy place size (occupancy_of frame.area taken occupied.old)))) × IfOk result (Claims (λ s. occupancy_of frame.area s occupied.new) place count size) }
{
    if place < packed_end(taken) {
        return Err(Failure {
            number: 27,
            place: frame.base + place,
        });
    }
    if SCATTERED <= taken {
        if !wire::all_zero(occupied, place, size) {
            return Err(Failure {
                number: 27,
                place: frame.base + place,
            });
        }
        occupy(occupied, place, size);
        return Ok(Found {
            place,
            count,
            taken,
        });
    }
    if place == taken {
        return Ok(Found {
            place,
            count,
            taken: place + size,
        });
    }
    occupied.fill(0);
    occupy(occupied, place, size);
    Ok(Found {
        place,
        count,
        taken: taken + SCATTERED,
    })
}

// The `size` bytes at `place` are taken.
fn occupy(occupied: &mut [u8], place: usize, size: usize)
    requires { place + size ≤ length occupied.old }
    ensures { occupied.new ≡ occupy place size occupied.old }
{
    occupied[place..place + size].fill(1);
}

// What a nested group left in the scratch gives way to the occupancy of its own bytes.
fn retake(occupied: &mut [u8], taken: usize, place: usize, size: usize)
    requires { place + size ≤ length occupied.old }
    ensures { occupied.new ≡ (if scattered taken then occupy place size occupied.old else occupied.old) }
{
    if SCATTERED <= taken {
        occupy(occupied, place, size);
    }
}

// PADS

// A byte that a value took, or a pad byte that is zero.
fn is_clean(taken: u8, byte: u8) -> bool
    ensures { result ≡ not (taken == 0) || (byte == 0) }
{
    taken != 0 || byte == 0
}

// Whether every pad byte from `at` on is zero. The loop has no early exit, so that it becomes vector
// code.
fn pads_zero(occupied: &[u8], bytes: &[u8], at: usize) -> bool
    requires { length occupied.now ≡ length bytes.now }
    ensures { result ≡ pads_zero (drop at occupied.now) (drop at bytes.now) }
{
    let mut zero = true;
    for i in at..bytes.len() {
        zero &= is_clean(occupied[i], bytes[i]);
    }
    zero
}

// How many bytes from `at` on stand before the first pad byte that is not zero.
fn pads_before(occupied: &[u8], bytes: &[u8], at: usize) -> usize
    requires { (length occupied.now ≡ length bytes.now) × (at ≤ length bytes.now) }
    ensures { (result ≡ pads_before (drop at occupied.now) (drop at bytes.now)) × (at + result ≤ length bytes.now) }
{
    for i in at..bytes.len() {
        if !is_clean(occupied[i], bytes[i]) {
            return i - at;
        }
    }
    bytes.len() - at
}

// "6", as a test of what no value took, unless it is ignored.
fn are_pads_blank(ignored: bool, occupied: &[u8], bytes: &[u8], area: usize, taken: usize) -> bool
    requires { (length occupied.now ≡ length bytes.now) × (area ≤ length bytes.now) }
    ensures { result ≡ ignored || pads_zero (drop area (occupancy_of area taken occupied.now)) (drop area bytes.now) }
{
    ignored || are_pads_zero(occupied, bytes, area, taken)
}

fn are_pads_zero(occupied: &[u8], bytes: &[u8], area: usize, taken: usize) -> bool
    requires { (length occupied.now ≡ length bytes.now) × (area ≤ length bytes.now) }
    ensures { result ≡ pads_zero (drop area (occupancy_of area taken occupied.now)) (drop area bytes.now) }
{
    let start = area.max(packed_end(taken));
    if SCATTERED <= taken {
        return pads_zero(occupied, bytes, start);
    }
    bytes.len() < start || wire::all_zero(bytes, start, bytes.len() - start)
}

// "6", as the place in the data area. The occupancy that was not kept is written for it.
fn bad_pad(occupied: &mut [u8], bytes: &[u8], area: usize, taken: usize) -> usize
    requires { (length occupied.old ≡ length bytes.now) × (area ≤ length bytes.now) }
    ensures { (result ≡ pads_before (drop area (occupancy_of area taken occupied.old)) (drop area bytes.now)) × (area + result ≤ length bytes.now) }
{
    write_occupancy(occupied, area, taken);
    pads_before(occupied, bytes, area)
}

fn write_occupancy(occupied: &mut [u8], area: usize, taken: usize)
    requires { area ≤ length occupied.old }
    ensures { occupied.new ≡ occupancy_of area taken occupied.old }
{
    if taken < SCATTERED {
        occupied.fill(0);
    }
    let end = occupied.len().min(packed_end(taken));
    if area < end {
        occupy(occupied, area, end - area);
    }
}

// "6", and the group's end.
fn check_pads(
    bytes: &[u8],
    occupied: &mut [u8],
    frame: Frame,
    taken: usize,
    before: usize,
) -> Result<Step, Failure>
    requires { (length occupied.old ≡ length bytes.now) × (frame.base + length bytes.now ≤ 65536) × (frame.area ≤ length bytes.now) }
    ensures { count_by (λ _. []) result ≡ after before (closing (within bytes.now frame) (occupancy_of frame.area taken occupied.old)) }
{
    if are_pads_blank(
        ignores_pads(frame.rules),
        occupied,
        bytes,
        frame.area,
        taken,
    ) {
        return Ok(Step {
            length: before.wrapping_add(2),
            taken,
        });
    }
    Err(Failure {
        number: 6,
        place: frame.base + frame.area + bad_pad(occupied, bytes, frame.area, taken),
    })
}

// VALUES THAT HOLD NO OTHER

// "10, 11, 12: no such symbol; bool or flag not 0, 1; 24 hours or more"
fn check_number(
    table: &[u8],
    index: &[u16],
    bytes: &[u8],
    base: usize,
    tested: Tested,
    at: usize,
    taken: usize,
    before: usize,
) -> Result<Step, Failure>
    requires { (Layout table.now index.now) × (at + kind_width (width_in index.now) (tested_kind (enums table.now) tested) ≤ length bytes.now) × (base + length bytes.now ≤ 65536) }
    ensures { (x : Ignored) (I : Inner) (S : ℕ → Reader) (area : ℕ) (F : ℕ → List ℕ) → count_by F result ≡ after before (count (item_r I S (tested_kind (enums table.now) tested) (here x bytes.now base area) at (F taken))) }
{
    schema::check_tested(table, index, tested, bytes, at, base + at)?;
    let width = usize::from(schema::tested_width(tested));
    Ok(Step {
        length: before.wrapping_add(2 + width),
        taken,
    })
}

// So many numbers in a row, each with its test.
fn check_numbers(
    table: &[u8],
    index: &[u16],
    bytes: &[u8],
    base: usize,
    tested: Tested,
    total: usize,
    at: usize,
    taken: usize,
    before: usize,
) -> Result<Step, Failure>
    requires { (Layout table.now index.now) × (at + total * kind_width (width_in index.now) (tested_kind (enums table.now) tested) ≤ length bytes.now) × (base + length bytes.now ≤ 65536) }
    ensures { (x : Ignored) (I : Inner) (S : ℕ → Reader) (area : ℕ) (F : ℕ → List ℕ) → count_by F result ≡ after before (count (items_r (kind_width (width_in index.now) (tested_kind (enums table.now) tested)) (item_r I S (tested_kind (enums table.now) tested)) total (here x bytes.now base area) at (F taken))) }
{
    let width = usize::from(schema::tested_width(tested));
    let mut place = at;
    let mut step = Step {
        length: before,
        taken,
    };
    for _ in 0..total {
        step = check_number(
            table,
            index,
            bytes,
            base,
            tested,
            place,
            step.taken,
            step.length,
        )?;
        place += width;
    }
    Ok(step)
}

// "Inline text: 7, 8, 9."
fn check_inline(
    bytes: &[u8],
    frame: Frame,
    utf8: bool,
    capacity: u8,
    at: usize,
    taken: usize,
    before: usize,
) -> Result<Step, Failure>
    requires { (at + (capacity + 1) ≤ length bytes.now) × (frame.base + length bytes.now ≤ 65536) }
    ensures { (I : Inner) (S : ℕ → Reader) (F : ℕ → List ℕ) → count_by F result ≡ after before (count (item_r I S (inline utf8 capacity) (within bytes.now frame) at (F taken))) }
{
    let room = usize::from(capacity);
    let count = usize::from(bytes[at]);
    if room < count {
        return Err(Failure {
            number: 7,
            place: frame.base + at,
        });
    }
    let end = at + 1 + count;
    if !is_blank(ignores_unused(frame.rules), bytes, end, room - count) {
        return Err(Failure {
            number: 8,
            place: frame.base + end + wire::count_zeros(bytes, end, room - count),
        });
    }
    if !schema::is_text(utf8, bytes, at + 1, count) {
        return Err(Failure {
            number: 9,
            place: frame.base + (at + 1),
        });
    }
    Ok(Step {
        length: before.wrapping_add(6 + count),
        taken,
    })
}

// "Indirect string: u32 count and bytes." Compiled into its callers, for the reason at `check_value`.
#[inline]
fn check_text(
    bytes: &[u8],
    occupied: &mut [u8],
    frame: Frame,
    utf8: bool,
    at: usize,
    taken: usize,
    before: usize,
) -> Result<Step, Failure>
    requires { (length occupied.old ≡ length bytes.now) × (frame.base + length bytes.now ≤ 65536) × (frame.area ≤ length bytes.now) × (at + 4 ≤ length bytes.now) }
    ensures { count_by (λ s. occupancy_of frame.area s occupied.new) result ≡ after before (count (marked_r ST (indirect_r 26 1 (text_r utf8)) (within bytes.now frame) at (occupancy_of frame.area taken occupied.old))) }
{
    let found = locate(bytes, occupied, frame, taken, at, 26, 1)?;
    let text = found.place + 4;
    if !schema::is_text(utf8, bytes, text, found.count) {
        return Err(Failure {
            number: 9,
            place: frame.base + text,
        });
    }
    Ok(Step {
        length: before.wrapping_add(6 + found.count),
        taken: found.taken,
    })
}

fn check_texts(
    bytes: &[u8],
    occupied: &mut [u8],
    frame: Frame,
    utf8: bool,
    total: usize,
    at: usize,
    taken: usize,
    before: usize,
) -> Result<Step, Failure>
    requires { (length occupied.old ≡ length bytes.now) × (frame.base + length bytes.now ≤ 65536) × (frame.area ≤ length bytes.now) × (at + total * 4 ≤ length bytes.now) }
    ensures { count_by (λ s. occupancy_of frame.area s occupied.new) result ≡ after before (count (items_r 4 (marked_r ST (indirect_r 26 1 (text_r utf8))) total (within bytes.now frame) at (occupancy_of frame.area taken occupied.old))) }
{
    let mut place = at;
    let mut step = Step {
        length: before,
        taken,
    };
    for _ in 0..total {
        step = check_text(bytes, occupied, frame, utf8, place, step.taken, step.length)?;
        place += 4;
    }
    Ok(step)
}

// An optional field whose flag is not 1: "11 on its flag, 4", or absent.
fn check_absent(
    bytes: &[u8],
    frame: Frame,
    at: usize,
    width: usize,
    taken: usize,
    before: usize,
) -> Result<Step, Failure>
    requires { (byte at bytes.now ≢ 1) × (at + (width + 1) ≤ length bytes.now) × (frame.base + length bytes.now ≤ 65536) }
    ensures { (k : Mark) (R : Reader) (F : ℕ → List ℕ) → count_by F result ≡ after before (count (optional_r k width R (within bytes.now frame) at (F taken))) }
{
    if bytes[at] != 0 {
        return Err(Failure {
            number: 11,
            place: frame.base + at,
        });
    }
    if is_blank(ignores_absent(frame.rules), bytes, at + 1, width) {
        return Ok(Step {
            length: before.wrapping_add(2),
            taken,
        });
    }
    Err(Failure {
        number: 4,
        place: frame.base + (at + 1) + wire::count_zeros(bytes, at + 1, width),
    })
}

// Whether a field has a flag that is not 1.
fn is_unset(optional: bool, bytes: &[u8], at: usize) -> bool
    requires { optional ≡ true → at < length bytes.now }
    ensures { result ≡ optional && not (byte at bytes.now == 1) }
{
    optional && bytes[at] != 1
}

// Whether the extension's offset, which stands at 12, is zero or leads into the data area. As one
// expression with `||` and `&&` it took a nested group 2 in 100 more instructions.
fn extension_inside(bytes: &[u8], area: usize) -> bool
    requires { 16 ≤ length bytes.now }
    ensures { (x : Ignored) (base : ℕ) → result ≡ extension_in (here x bytes.now base area) 12 }
{
    let offset = wire::read_u32(bytes, 12);
    if offset == 0 {
        return true;
    }
    if 12 + offset < area {
        return false;
    }
    12 + offset < bytes.len()
}

// GROUPS, FIELDS AND ITEMS

// A group that is begun: its number, its frame, what is taken and counted so far.
#[derive(Clone, Copy)]
struct Begun {
    group: usize,
    frame: Frame,
    taken: usize,
    length: usize,
}

// A group: of a dynamic one `bytes` are the whole, and `outer` says where it starts and how many levels
// are left for it. One function checks both scopes, so that a level is one call: each call passes its
// slices through memory.
#[cycle(walk)]
fn check_group(
    table: &[u8],
    index: &[u16],
    bytes: &[u8],
    occupied: &mut [u8],
    outer: Frame,
    depth: usize,
    scope: Scope,
    at: usize,
    taken: usize,
    before: usize,
) -> Result<Step, Failure>
    requires { (Ready table.now index.now bytes.now occupied.old outer) × (Lies table.now depth scope bytes.now at) }
    ensures { count_by (λ s. left_of scope outer.area s occupied.new) result ≡ after before (count (group_of table.now (levels_in outer.rules) depth scope (within bytes.now outer) at (occupancy_of outer.area taken occupied.old))) }
{
    let begun = open_group(table, index, bytes, outer, scope, taken, before)?;
    let fields = check_fields(
        table,
        index,
        bytes,
        occupied,
        begun.frame,
        depth,
        begun.group,
        at,
        begun.taken,
        begun.length,
    )?;
    close_group(
        table,
        index,
        bytes,
        occupied,
        begun.frame,
        scope,
        fields.taken,
        fields.length,
    )
}

// What stands before a group's fields: of a dynamic one its head.
fn open_group(
    table: &[u8],
    index: &[u16],
    bytes: &[u8],
    frame: Frame,
    scope: Scope,
    taken: usize,
    before: usize,
) -> Result<Begun, Failure>
    requires { (Layout table.now index.now) × (frame.base + length bytes.now ≤ 65536) }
    ensures { (m : List ℕ) (d at : ℕ) → Ready table.now index.now bytes.now m frame → Lies table.now d scope bytes.now at → Opens table.now index.now bytes.now m frame d scope at before (count (group_of table.now (levels_in frame.rules) d scope (within bytes.now frame) at (occupancy_of frame.area taken m))) result }
{
    match scope {
        Scope::Whole { allowed } => open_dynamic(table, index, bytes, frame, allowed, before),
        Scope::Fields { group } => Ok(Begun {
            group,
            frame,
            taken,
            length: before,
        }),
    }
}

// "Group: 1, 2, 25, 24": the head of the dynamic group that `bytes` are, with `levels` left for it.
// `allowed` is the number of the dynamic kind that names it.
fn open_dynamic(
    table: &[u8],
    index: &[u16],
    bytes: &[u8],
    frame: Frame,
    allowed: usize,
    before: usize,
) -> Result<Begun, Failure>
    requires { (Layout table.now index.now) × (frame.base + length bytes.now ≤ 65536) }
    ensures { (m : List ℕ) (o : Frame) → length m ≡ length bytes.now → (levels_in o.rules) ≡ (levels_in frame.rules) → Opens table.now index.now bytes.now m o 5 (Whole allowed) 16 before (count (inner_of (ignored_in frame.rules) table.now (levels_in frame.rules) allowed frame.base bytes.now)) result }
{
    if bytes.len() < 16 {
        return Err(Failure {
            number: 1,
            place: frame.base,
        });
    }
    let total = schema::group_total(index);
    let group = schema::find(table, index, total, wire::read_u64(bytes, 4));
    if total <= group {
        return Err(Failure {
            number: 2,
            place: frame.base,
        });
    }
    if !schema::allows(table, index, allowed, group) {
        return Err(Failure {
            number: 25,
            place: frame.base,
        });
    }
    if levels_left(frame.rules) == 0 {
        return Err(Failure {
            number: 24,
            place: frame.base,
        });
    }
    open_area(index, bytes, frame, group, before)
}

// "14, 3": a group in the frame `outer` that has a frame of its own, a level deeper.
fn open_area(
    index: &[u16],
    bytes: &[u8],
    outer: Frame,
    group: usize,
    before: usize,
) -> Result<Begun, Failure>
    requires { (Widths index.now) × (16 ≤ length bytes.now) × (outer.base + length bytes.now ≤ 65536) × (1 ≤ (levels_in outer.rules)) }
    ensures { (t m : List ℕ) (o : Frame) (allowed : ℕ) → Layout t index.now → group < length (schema t) → length m ≡ length bytes.now → (levels_in o.rules) ≡ (levels_in outer.rules) → Opens t index.now bytes.now m o 5 (Whole allowed) 16 before (count (body_r (ignored_in outer.rules) (schema t) (inner_of (ignored_in outer.rules) t ((levels_in outer.rules) - 1)) group outer.base bytes.now)) result }
{
    let area = 16 + schema::group_width(index, group);
    if bytes.len() < area {
        return Err(Failure {
            number: 14,
            place: outer.base,
        });
    }
    if !extension_inside(bytes, area) {
        return Err(Failure {
            number: 3,
            place: outer.base + 12,
        });
    }
    let frame = Frame {
        area,
        rules: outer.rules - 1,
        ..outer
    };
    Ok(Begun {
        group,
        frame,
        taken: area,
        length: before.wrapping_add(8),
    })
}

// What stands behind a group's fields: of a dynamic one "extension, 6".
#[cycle(walk)]
fn close_group(
    table: &[u8],
    index: &[u16],
    bytes: &[u8],
    occupied: &mut [u8],
    frame: Frame,
    scope: Scope,
    taken: usize,
    before: usize,
) -> Result<Step, Failure>
    requires { (Ready table.now index.now bytes.now occupied.old frame) × ((allowed : ℕ) → scope ≡ Whole allowed → 16 ≤ length bytes.now) }
    ensures { count_by (λ s. left_of scope frame.area s occupied.new) result ≡ after before (behind_of table.now (levels_in frame.rules) scope (within bytes.now frame) (occupancy_of frame.area taken occupied.old)) }
{
    match scope {
        Scope::Whole { .. } => {
            if wire::read_u32(bytes, 12) != 0 {
                return check_rest(table, index, bytes, occupied, frame, taken, before);
            }
            // Where the values fill the data area there is no pad.
            if taken == bytes.len() {
                return Ok(Step {
                    length: before.wrapping_add(2),
                    taken,
                });
            }
            check_pads(bytes, occupied, frame, taken, before)
        }
        Scope::Fields { .. } => Ok(Step {
            length: before,
            taken,
        }),
    }
}

// "extension, 6"
#[cycle(walk)]
fn check_rest(
    table: &[u8],
    index: &[u16],
    bytes: &[u8],
    occupied: &mut [u8],
    frame: Frame,
    taken: usize,
    before: usize,
) -> Result<Step, Failure>
    requires { (Ready table.now index.now bytes.now occupied.old frame) × (16 ≤ length bytes.now) }
    ensures { count_by (λ _. []) result ≡ after before (and_then (count (extension_r (schema table.now) (inner_of (ignored_in frame.rules) table.now (levels_in frame.rules)) (within bytes.now frame) 12 (occupancy_of frame.area taken occupied.old))) (closing (within bytes.now frame))) }
{
    let extension = check_extension(table, index, bytes, occupied, frame, taken, before)?;
    check_pads(bytes, occupied, frame, extension.taken, extension.length)
}

// The fields of a group whose static depth is below `depth`. Those that need no test are passed over
// here, without a call.
#[cycle(walk)]
fn check_fields(
    table: &[u8],
    index: &[u16],
    bytes: &[u8],
    occupied: &mut [u8],
    frame: Frame,
    depth: usize,
    group: usize,
    at: usize,
    taken: usize,
    before: usize,
) -> Result<Step, Failure>
    requires { (Ready table.now index.now bytes.now occupied.old frame) × (at + width_of table.now depth group ≤ length bytes.now) × (group < length (schema table.now)) × (shallow (schema table.now) depth group ≡ true) }
    ensures { count_by (λ s. occupancy_of frame.area s occupied.new) result ≡ after before (count (static_of (ignored_in frame.rules) table.now (levels_in frame.rules) depth group (within bytes.now frame) at (occupancy_of frame.area taken occupied.old))) }
{
    let start = schema::group_place(index, group);
    let total = schema::field_count(table, start);
    let mut field = start + 16;
    let mut place = at;
    let mut step = Step {
        length: before,
        taken,
    };
    for _ in 0..total {
        let plain = schema::plain_width(table, field);
        if plain != 0 {
            step.length = step.length.wrapping_add(2 + plain);
            place += plain;
            field += 16;
            continue;
        }
        let width = schema::field_width(table, index, field);
        step = check_field(
            table,
            index,
            bytes,
            occupied,
            frame,
            depth - 1,
            field,
            place,
            step.taken,
            step.length,
        )?;
        place += width;
        field += 16;
    }
    Ok(step)
}

// "Field: 11 on its flag, 4, then its value": the field whose record stands at `field` of the table.
#[cycle(walk)]
fn check_field(
    table: &[u8],
    index: &[u16],
    bytes: &[u8],
    occupied: &mut [u8],
    frame: Frame,
    depth: usize,
    field: usize,
    at: usize,
    taken: usize,
    before: usize,
) -> Result<Step, Failure>
    requires { (Ready table.now index.now bytes.now occupied.old frame) × (field + 16 ≤ length table.now) × (at + field_width (width_of table.now depth) (field_at (enums table.now) (drop field table.now)) ≤ length bytes.now) × (shallow_kind (shallow (schema table.now) depth) (width_of table.now depth) (field_at (enums table.now) (drop field table.now)).kind ≡ true) }
    ensures { count_by (λ s. occupancy_of frame.area s occupied.new) result ≡ after before (count (field_r (inner_of (ignored_in frame.rules) table.now (levels_in frame.rules)) (width_of table.now depth) (static_of (ignored_in frame.rules) table.now (levels_in frame.rules) depth) (field_at (enums table.now) (drop field table.now)) (within bytes.now frame) at (occupancy_of frame.area taken occupied.old))) }
{
    let optional = schema::is_optional(table, field);
    if is_unset(optional, bytes, at) {
        let width = schema::value_width(table, index, field);
        return check_absent(bytes, frame, at, width, taken, before);
    }
    let start = at + usize::from(optional);
    check_value(
        table, index, bytes, occupied, frame, depth, field, start, taken, before,
    )
}

// A value that is no sequence is one item. So `check_items` is called in one place, and `check_item` is
// compiled into its one caller: each call that is left passes its slices through memory.
#[cycle(walk)]
fn check_value(
    table: &[u8],
    index: &[u16],
    bytes: &[u8],
    occupied: &mut [u8],
    frame: Frame,
    depth: usize,
    field: usize,
    at: usize,
    taken: usize,
    before: usize,
) -> Result<Step, Failure>
    requires { (Ready table.now index.now bytes.now occupied.old frame) × (field + 16 ≤ length table.now) × (at + value_width (width_of table.now depth) (field_at (enums table.now) (drop field table.now)) ≤ length bytes.now) × (shallow_kind (shallow (schema table.now) depth) (width_of table.now depth) (field_at (enums table.now) (drop field table.now)).kind ≡ true) }
    ensures { count_by (λ s. occupancy_of frame.area s occupied.new) result ≡ after before (count (marked_value_r (inner_of (ignored_in frame.rules) table.now (levels_in frame.rules)) (width_of table.now depth) (static_of (ignored_in frame.rules) table.now (levels_in frame.rules) depth) (field_at (enums table.now) (drop field table.now)) (within bytes.now frame) at (occupancy_of frame.area taken occupied.old))) }
{
    let kind = schema::kind_at(table, field);
    let width = schema::kind_width(index, kind);
    let mut total = 1;
    let mut start = at;
    let mut step = Step {
        length: before,
        taken,
    };
    if schema::is_sequence(table, field) {
        let found = locate(bytes, occupied, frame, taken, at, 13, width)?;
        total = found.count;
        start = found.place + 4;
        step = Step {
            length: before.wrapping_add(6),
            taken: found.taken,
        };
    }
    check_items(
        table,
        index,
        bytes,
        occupied,
        frame,
        depth,
        kind,
        width,
        total,
        start,
        step.taken,
        step.length,
    )
}

// So many items, each of `width` bytes. Plain values need no test, and are only counted; strings, and
// numbers with a test, of which there may be thousands, have loops of their own. As one `match` these kinds
// were told apart by a jump through a table, as in `check_item`: deep groups among statics took a tenth
// more time.
#[cycle(walk)]
fn check_items(
    table: &[u8],
    index: &[u16],
    bytes: &[u8],
    occupied: &mut [u8],
    frame: Frame,
    depth: usize,
    kind: FieldKind,
    width: usize,
    total: usize,
    at: usize,
    taken: usize,
    before: usize,
) -> Result<Step, Failure>
    requires { (Ready table.now index.now bytes.now occupied.old frame) × (at + total * width ≤ length bytes.now) × (total < 2 ^ 32) × (width ≤ 4096) × (width ≡ kind_width (width_of table.now depth) (kind_from (enums table.now) kind)) × (shallow_kind (shallow (schema table.now) depth) (width_of table.now depth) (kind_from (enums table.now) kind) ≡ true) }
    ensures { count_by (λ s. occupancy_of frame.area s occupied.new) result ≡ after before (count (items_r width (item_r (inner_of (ignored_in frame.rules) table.now (levels_in frame.rules)) (static_of (ignored_in frame.rules) table.now (levels_in frame.rules) depth) (kind_from (enums table.now) kind)) total (within bytes.now frame) at (occupancy_of frame.area taken occupied.old))) }
{
    if let FieldKind::Plain { width: plain } = kind {
        let length = before.wrapping_add(total * (2 + usize::from(plain)));
        return Ok(Step { length, taken });
    }
    if let FieldKind::Indirect { utf8 } = kind {
        return check_texts(bytes, occupied, frame, utf8, total, at, taken, before);
    }
    if let FieldKind::Number { tested } = kind {
        return check_numbers(
            table, index, bytes, frame.base, tested, total, at, taken, before,
        );
    }
    let mut place = at;
    let mut step = Step {
        length: before,
        taken,
    };
    for _ in 0..total {
        step = check_item(
            table,
            index,
            bytes,
            occupied,
            frame,
            depth,
            kind,
            place,
            step.taken,
            step.length,
        )?;
        place += width;
    }
    Ok(step)
}

#[cycle(walk)]
fn check_item(
    table: &[u8],
    index: &[u16],
    bytes: &[u8],
    occupied: &mut [u8],
    frame: Frame,
    depth: usize,
    kind: FieldKind,
    at: usize,
    taken: usize,
    before: usize,
) -> Result<Step, Failure>
    requires { (Ready table.now index.now bytes.now occupied.old frame) × (at + kind_width (width_of table.now depth) (kind_from (enums table.now) kind) ≤ length bytes.now) × (shallow_kind (shallow (schema table.now) depth) (width_of table.now depth) (kind_from (enums table.now) kind) ≡ true) }
    ensures { count_by (λ s. occupancy_of frame.area s occupied.new) result ≡ after before (count (item_r (inner_of (ignored_in frame.rules) table.now (levels_in frame.rules)) (static_of (ignored_in frame.rules) table.now (levels_in frame.rules) depth) (kind_from (enums table.now) kind) (within bytes.now frame) at (occupancy_of frame.area taken occupied.old))) }
{
    match kind {
        FieldKind::Plain { width } => Ok(Step {
            length: before.wrapping_add(2 + usize::from(width)),
            taken,
        }),
        FieldKind::Number { tested } => check_number(
            table, index, bytes, frame.base, tested, at, taken, before,
        ),
        FieldKind::Inline { utf8, capacity } => check_inline(
            bytes, frame, utf8, capacity, at, taken, before,
        ),
        FieldKind::Indirect { utf8 } => check_text(bytes, occupied, frame, utf8, at, taken, before),
        FieldKind::Static { group } => check_group(
            table,
            index,
            bytes,
            occupied,
            frame,
            depth,
            Scope::Fields { group },
            at,
            taken,
            before.wrapping_add(2),
        ),
        FieldKind::Dynamic { allowed } => check_dynamic(
            table,
            index,
            bytes,
            occupied,
            frame,
            allowed,
            at,
            taken,
            before.wrapping_add(2),
        ),
    }
}

#[cycle(walk)]
fn check_dynamic(
    table: &[u8],
    index: &[u16],
    bytes: &[u8],
    occupied: &mut [u8],
    frame: Frame,
    allowed: usize,
    at: usize,
    taken: usize,
    before: usize,
) -> Result<Step, Failure>
    requires { (Ready table.now index.now bytes.now occupied.old frame) × (at + 4 ≤ length bytes.now) }
    ensures { count_by (λ s. occupancy_of frame.area s occupied.new) result ≡ after before (count (indirect_r 26 1 (inner_r (inner_of (ignored_in frame.rules) table.now (levels_in frame.rules)) allowed) (within bytes.now frame) at (occupancy_of frame.area taken occupied.old))) }
{
    let found = locate(bytes, occupied, frame, taken, at, 26, 1)?;
    check_nested(
        table,
        index,
        bytes,
        occupied,
        frame,
        allowed,
        found.place,
        4 + found.count,
        found.taken,
        before,
    )
}

// The dynamic group of `size` bytes at `start`, which are taken: it has their part of the scratch for
// its own. Compiled into its callers, as `check_text` is.
#[cycle(walk)]
#[inline]
fn check_nested(
    table: &[u8],
    index: &[u16],
    bytes: &[u8],
    occupied: &mut [u8],
    frame: Frame,
    allowed: usize,
    start: usize,
    size: usize,
    taken: usize,
    before: usize,
) -> Result<Step, Failure>
    requires { (Ready table.now index.now bytes.now occupied.old frame) × (start + size ≤ length bytes.now) × (occupy start size (occupancy_of frame.area taken occupied.old) ≡ occupancy_of frame.area taken occupied.old) }
    ensures { count_by (λ s. occupancy_of frame.area s occupied.new) result ≡ after before (and_then (count (inner_of (ignored_in frame.rules) table.now (levels_in frame.rules) allowed (frame.base + start) (part size start bytes.now))) (λ _. counted 0 (occupancy_of frame.area taken occupied.old))) }
{
    let end = start + size;
    let inner = Frame {
        base: frame.base + start,
        area: 0,
        ..frame
    };
    let group = check_group(
        table,
        index,
        &bytes[start..end],
        &mut occupied[start..end],
        inner,
        5,
        Scope::Whole { allowed },
        16,
        0,
        before,
    )?;
    retake(occupied, taken, start, size);
    Ok(Step {
        length: group.length,
        taken,
    })
}

// "An extension is a sequence of any groups", and one of no groups means the same as none.
#[cycle(walk)]
fn check_extension(
    table: &[u8],
    index: &[u16],
    bytes: &[u8],
    occupied: &mut [u8],
    frame: Frame,
    taken: usize,
    before: usize,
) -> Result<Step, Failure>
    requires { (Ready table.now index.now bytes.now occupied.old frame) × (16 ≤ length bytes.now) }
    ensures { count_by (λ s. occupancy_of frame.area s occupied.new) result ≡ after before (count (extension_r (schema table.now) (inner_of (ignored_in frame.rules) table.now (levels_in frame.rules)) (within bytes.now frame) 12 (occupancy_of frame.area taken occupied.old))) }
{
    if wire::read_u32(bytes, 12) == 0 {
        return Ok(Step {
            length: before,
            taken,
        });
    }
    let found = locate(bytes, occupied, frame, taken, 12, 13, 4)?;
    if found.count == 0 {
        return Ok(Step {
            length: before,
            taken: found.taken,
        });
    }
    check_groups(
        table,
        index,
        bytes,
        occupied,
        frame,
        found.count,
        found.place + 4,
        found.taken,
        before.wrapping_add(6),
    )
}

#[cycle(walk)]
fn check_groups(
    table: &[u8],
    index: &[u16],
    bytes: &[u8],
    occupied: &mut [u8],
    frame: Frame,
    total: usize,
    at: usize,
    taken: usize,
    before: usize,
) -> Result<Step, Failure>
    requires { (Ready table.now index.now bytes.now occupied.old frame) × (at + total * 4 ≤ length bytes.now) }
    ensures { count_by (λ s. occupancy_of frame.area s occupied.new) result ≡ after before (count (items_r 4 (indirect_r 26 1 (extending_r (schema table.now) (inner_of (ignored_in frame.rules) table.now (levels_in frame.rules)))) total (within bytes.now frame) at (occupancy_of frame.area taken occupied.old))) }
{
    let mut place = at;
    let mut step = Step {
        length: before,
        taken,
    };
    for _ in 0..total {
        step = check_extending(
            table,
            index,
            bytes,
            occupied,
            frame,
            place,
            step.taken,
            step.length,
        )?;
        place += 4;
    }
    Ok(step)
}

// A group of the extension; one of unknown type is kept as bytes.
#[cycle(walk)]
fn check_extending(
    table: &[u8],
    index: &[u16],
    bytes: &[u8],
    occupied: &mut [u8],
    frame: Frame,
    at: usize,
    taken: usize,
    before: usize,
) -> Result<Step, Failure>
    requires { (Ready table.now index.now bytes.now occupied.old frame) × (at + 4 ≤ length bytes.now) }
    ensures { count_by (λ s. occupancy_of frame.area s occupied.new) result ≡ after before (count (indirect_r 26 1 (extending_r (schema table.now) (inner_of (ignored_in frame.rules) table.now (levels_in frame.rules))) (within bytes.now frame) at (occupancy_of frame.area taken occupied.old))) }
{
    let found = locate(bytes, occupied, frame, taken, at, 26, 1)?;
    if found.count < 12 {
        return Err(Failure {
            number: 1,
            place: frame.base + found.place,
        });
    }
    if schema::is_known(table, index, wire::read_u64(bytes, found.place + 4)) {
        return check_nested(
            table,
            index,
            bytes,
            occupied,
            frame,
            0,
            found.place,
            4 + found.count,
            found.taken,
            before.wrapping_add(2),
        );
    }
    Ok(Step {
        length: before.wrapping_add(6 + found.count),
        taken: found.taken,
    })
}

// THE MESSAGE

// "22, then the group". The scratch's first bytes, as many as the message has, are zero afterwards.
pub fn check(
    table: &[u8],
    index: &[u16],
    message: &[u8],
    ignored: Ignored,
    scratch: &mut [u8],
) -> Result<usize, Fault>
    requires { (Layout table.now index.now) × (length message.now ≤ length scratch.old) × (length message.now ≤ 65536) }
    ensures result_value { count_of result [] ≡ after 0 (count (walk ignored (schema table.now) message.now)) }
    ensures scratch_after { scratch.new ≡ splice (length message.now) 0 (replicate (length message.now) 0) scratch.old }
{
    let n = message.len();
    let answer = check_sized(table, index, message, ignored, &mut scratch[..n]);
    scratch[..n].fill(0);
    answer
}

fn check_sized(
    table: &[u8],
    index: &[u16],
    message: &[u8],
    ignored: Ignored,
    occupied: &mut [u8],
) -> Result<usize, Fault>
    requires { (Layout table.now index.now) × (length occupied.old ≡ length message.now) × (length message.now ≤ 65536) }
    ensures { count_of result [] ≡ after 0 (count (walk ignored (schema table.now) message.now)) }
{
    if message.len() < 4 || message.len() != 4 + wire::read_u32(message, 0) {
        return Err(Fault {
            number: 22,
            place: 0,
        });
    }
    let frame = Frame {
        base: 0,
        area: 0,
        rules: rules_of(ignored),
    };
    let group = check_group(
        table,
        index,
        message,
        occupied,
        frame,
        5,
        Scope::Whole { allowed: 0 },
        16,
        0,
        2,
    )?;
    Ok(group.length)
}
