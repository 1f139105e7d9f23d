// The walk. Where it meets an obstacle, its error is the label of what it was at.
//
// A message's bytes tell nothing that is believed: each place is tested where it is used.
ghost use Rattle.std.specs.Prelude.{◌≡◌, ◌+◌, ◌<◌, ◌≤◌, ◌^◌, IfOk, IfSome, length};
ghost use Rattle.schema.specs.Layout.{Layout};

use crate::label::{
    ABSENT, COUNT, EXTENDING, EXTENSION, FLAG, GROUP, INLINE_COUNT, ITEM_COUNT, ITEMS, OFFSET, PAD,
    SEQUENCE, SIZE, Spot, TEXT, TYPE_ID, UNUSED, VALUE,
};
use crate::{label, marks};
use schema::FieldKind;

// VALUES THAT HOLD NO OTHER

// "Inline text: 7": its count byte, its bytes and those that it does not use.
fn lay_inline(
    bytes: &[u8],
    labels: &mut [u64],
    spot: Spot,
    at: usize,
    capacity: u8,
) -> Result<(), u64>
    requires { at ≤ 65540 }
{
    let room = usize::from(capacity);
    let count = usize::from(marks::byte_at(bytes, at));
    let word = spot.label(INLINE_COUNT);
    marks::put(labels, at, 1, word);
    marks::put(labels, at + 1, count.min(room), spot.label(TEXT));
    if room < count {
        return Err(word);
    }
    let unused = spot.label(UNUSED);
    marks::put(labels, at + 1 + count, room - count, unused);
    Ok(())
}

// The flag of an optional field that is not 1, and, where it is 0, the absent field's bytes.
fn lay_absent(
    bytes: &[u8],
    labels: &mut [u64],
    spot: Spot,
    at: usize,
    width: usize,
) -> Result<(), u64>
    requires { at ≤ 65540 }
{
    if marks::byte_at(bytes, at) != 0 {
        return Err(spot.label(FLAG));
    }
    marks::put(labels, at + 1, width, spot.label(ABSENT));
    Ok(())
}

// The kinds of what is behind an offset: the offset, the count or size word, and the rest.
#[derive(Clone, Copy)]
struct Behind {
    offset: usize,
    word: usize,
    rest: usize,
}

const BEHIND_TEXT: Behind = Behind {
    offset: OFFSET,
    word: COUNT,
    rest: TEXT,
};

const BEHIND_GROUP: Behind = Behind {
    offset: OFFSET,
    word: SIZE,
    rest: GROUP,
};

const BEHIND_SEQUENCE: Behind = Behind {
    offset: SEQUENCE,
    word: ITEM_COUNT,
    rest: ITEMS,
};

const BEHIND_EXTENSION: Behind = Behind {
    offset: EXTENSION,
    word: ITEM_COUNT,
    rest: ITEMS,
};

// Where an offset leads: a value's place, and its count or size word.
#[derive(Clone, Copy)]
struct Found {
    place: usize,
    count: usize,
}

// "Offset: 5, 26 for the count or size word, 26 or 13 for the rest, 27": the offset at `at`, and the value that it leads to, a word and so
// many times `width` bytes. Of a value that does not fit the free bytes have its label.
fn locate(
    bytes: &[u8],
    labels: &mut [u64],
    spot: Spot,
    at: usize,
    behind: Behind,
    width: usize,
) -> Result<Found, u64>
    requires { (length bytes.now ≤ 65536) × (at ≤ 65540) × (width ≤ 4096) }
    ensures { IfOk result (λ found. (found.place ≤ 65536) × (found.count < 2 ^ 32)) }
{
    let from = spot.label(behind.offset);
    marks::put(labels, at, 4, from);
    let place = at + marks::word_at(bytes, at);
    if place < spot.area || bytes.len() <= place {
        return Err(from);
    }
    let to = spot.label(behind.word);
    let count = marks::word_at(bytes, place);
    let size = 4 + count * width;
    let free = marks::count_free(labels, place, size);
    marks::put_value(labels, place, free, to, spot.label(behind.rest));
    if free < size {
        return Err(to);
    }
    Ok(Found { place, count })
}

// "Indirect string: u32 count and bytes."
fn lay_text(bytes: &[u8], labels: &mut [u64], spot: Spot, at: usize) -> Result<(), u64>
    requires { (length bytes.now ≤ 65536) × (at ≤ 65540) }
{
    locate(bytes, labels, spot, at, BEHIND_TEXT, 1)?;
    Ok(())
}

// GROUPS, FIELDS AND ITEMS

// The bytes of a group, and the accepted table, with its index, that says what they are.
#[derive(Clone, Copy)]
struct Group<'a> {
    table: &'a [u8],
    index: &'a [u16],
    bytes: &'a [u8],
    ghost layout: { Layout table.now index.now },
    ghost small: { length bytes.now ≤ 65536 },
}

// A group's number in the table, and where its data area starts.
#[derive(Clone, Copy)]
struct Head {
    number: usize,
    area: usize,
}

// Where a group's fields have their records in the table, and how many they are.
#[derive(Clone, Copy)]
struct Fields {
    start: usize,
    total: usize,
}

impl Group<'_> {
    // Whether the extension's offset is zero or leads into the data area.
    fn is_extension_inside(&self, area: usize) -> bool {
        let offset = marks::word_at(self.bytes, 12);
        offset == 0 || (area..self.bytes.len()).contains(&(12 + offset))
    }

    // "14, 3", of group `number`, in which `inner` is.
    fn lay_area(
        &self,
        labels: &mut [u64],
        outer: Spot,
        inner: Spot,
        number: usize,
    ) -> Result<Head, u64> {
        let area = 16 + schema::group_width(self.index, number);
        let extension = inner.label(EXTENSION);
        marks::put(labels, 12, 4, extension);
        if self.bytes.len() < area {
            return Err(outer.label(SIZE));
        }
        if !self.is_extension_inside(area) {
            return Err(extension);
        }
        marks::clear(labels, 16);
        Ok(Head { number, area })
    }

    // "1, 2, 25, 14, 3".
    fn lay_head(
        &self,
        labels: &mut [u64],
        outer: Spot,
        inner: Spot,
        allowed: usize,
    ) -> Result<Head, u64> {
        if self.bytes.len() < 16 {
            return Err(outer.label(SIZE));
        }
        let id = inner.label(TYPE_ID);
        marks::put(labels, 4, 8, id);
        let total = schema::group_total(self.index);
        let number = schema::find(self.table, self.index, total, wire::read_u64(self.bytes, 4));
        if total <= number || !schema::allows(self.table, self.index, allowed, number) {
            return Err(id);
        }
        self.lay_area(labels, outer, inner, number)
    }

    // Whether the group is one of an extension and of unknown type: "kept as bytes, not opened".
    fn is_kept(&self, spot: Spot) -> bool {
        spot.owner == EXTENDING
            && 16 <= self.bytes.len()
            && !schema::is_known(self.table, self.index, wire::read_u64(self.bytes, 4))
    }

    fn fields_of(&self, number: usize) -> Option<Fields>
        ensures { IfSome result (λ fields. (fields.start ≤ 65552) × (fields.total < 256)) }
    {
        if 64 <= number {
            return None;
        }
        let place = schema::group_place(self.index, number);
        if self.table.len() < place + 16 {
            return None;
        }
        Some(Fields {
            start: place + 16,
            total: schema::field_count(self.table, place),
        })
    }

    // The group in what is at `outer`; `allowed` is the number of the dynamic kind that names it. "24": no level is left.
    #[cycle(lay)]
    fn lay_group(&self, labels: &mut [u64], outer: Spot, allowed: usize) -> Result<(), u64>
        requires { length labels.old ≡ length self.now.bytes.now }
    {
        let Some(levels) = outer.levels.checked_sub(1) else {
            return Err(outer.label(SIZE));
        };
        let head = self.lay_head(labels, outer, Spot::in_group(0, levels), allowed)?;
        let spot = Spot::in_group(head.area, levels);
        self.lay_fields(labels, spot, 5, head.number, 16)?;
        self.lay_extension(labels, spot)?;
        marks::put_rest(labels, 16, spot.label(PAD));
        Ok(())
    }

    // "An extension is a sequence of any groups"
    #[cycle(lay)]
    fn lay_extension(&self, labels: &mut [u64], spot: Spot) -> Result<(), u64>
        requires { length labels.old ≡ length self.now.bytes.now }
    {
        if marks::word_at(self.bytes, 12) == 0 {
            return Ok(());
        }
        let found = locate(self.bytes, labels, spot, 12, BEHIND_EXTENSION, 4)?;
        let item = Spot {
            owner: EXTENDING,
            ..spot
        };
        self.lay_items(labels, item, 0, FieldKind::Dynamic { allowed: 0 }, 4, found)
    }

    // The fields of group `number` from `at` on; `depth` is what is left of the static depth.
    #[cycle(lay)]
    fn lay_fields(
        &self,
        labels: &mut [u64],
        spot: Spot,
        depth: usize,
        number: usize,
        at: usize,
    ) -> Result<(), u64>
        requires { (length labels.old ≡ length self.now.bytes.now) × (depth ≤ 5) × (at ≤ 65540) }
    {
        let here = spot.label(VALUE);
        if depth == 0 {
            return Err(here);
        }
        let Some(fields) = self.fields_of(number) else {
            return Ok(());
        };
        let mut place = at;
        for i in 0..fields.total {
            let field = fields.start + 16 * i;
            if self.table.len() < field + 16 {
                return Err(here);
            }
            let end = place + schema::field_width(self.table, self.index, field);
            if self.bytes.len() < end {
                return Err(here);
            }
            let inner = Spot {
                number: usize::from(schema::field_type(self.table, field)),
                path: label::step(spot.path, 5 - depth, i),
                ..spot
            };
            self.lay_field(labels, inner, depth - 1, field, place)?;
            place = end;
        }
        Ok(())
    }

    // The field whose record stands at `field` of the table: its flag, and its value.
    #[cycle(lay)]
    fn lay_field(
        &self,
        labels: &mut [u64],
        spot: Spot,
        depth: usize,
        field: usize,
        at: usize,
    ) -> Result<(), u64>
        requires { (length labels.old ≡ length self.now.bytes.now) × (field + 16 ≤ length self.now.table.now) × (depth ≤ 5) × (at ≤ 65536) }
    {
        if !schema::is_optional(self.table, field) {
            return self.lay_value(labels, spot, depth, field, at);
        }
        marks::put(labels, at, 1, spot.label(FLAG));
        if marks::byte_at(self.bytes, at) == 1 {
            return self.lay_value(labels, spot, depth, field, at + 1);
        }
        let width = schema::value_width(self.table, self.index, field);
        lay_absent(self.bytes, labels, spot, at, width)
    }

    // A value is a sequence, or one item.
    #[cycle(lay)]
    fn lay_value(
        &self,
        labels: &mut [u64],
        spot: Spot,
        depth: usize,
        field: usize,
        at: usize,
    ) -> Result<(), u64>
        requires { (length labels.old ≡ length self.now.bytes.now) × (field + 16 ≤ length self.now.table.now) × (depth ≤ 5) × (at ≤ 65540) }
    {
        let kind = schema::kind_at(self.table, field);
        if !schema::is_sequence(self.table, field) {
            return self.lay_item(labels, spot, depth, kind, at);
        }
        let width = schema::kind_width(self.index, kind);
        let found = locate(self.bytes, labels, spot, at, BEHIND_SEQUENCE, width)?;
        let item = Spot {
            owner: 5 - depth,
            ..spot
        };
        self.lay_items(labels, item, depth, kind, width, found)
    }

    // The items of a sequence that was found, each of `width` bytes.
    #[cycle(lay)]
    fn lay_items(
        &self,
        labels: &mut [u64],
        spot: Spot,
        depth: usize,
        kind: FieldKind,
        width: usize,
        found: Found,
    ) -> Result<(), u64>
        requires { (length labels.old ≡ length self.now.bytes.now) × (depth ≤ 5) × (width ≤ 4096) × (found.place ≤ 65536) }
    {
        let mut place = found.place + 4;
        for i in 0..found.count {
            let item = Spot { item: i, ..spot };
            let end = place + width;
            if self.bytes.len() < end {
                return Err(item.label(ITEMS));
            }
            self.lay_item(labels, item, depth, kind, place)?;
            place = end;
        }
        Ok(())
    }

    #[cycle(lay)]
    fn lay_item(
        &self,
        labels: &mut [u64],
        spot: Spot,
        depth: usize,
        kind: FieldKind,
        at: usize,
    ) -> Result<(), u64>
        requires { (length labels.old ≡ length self.now.bytes.now) × (depth ≤ 5) × (at ≤ 65540) }
    {
        match kind {
            FieldKind::Plain { width } => {
                marks::put(labels, at, usize::from(width), spot.label(VALUE));
                Ok(())
            }
            FieldKind::Number { tested } => {
                let width = schema::tested_width(tested);
                marks::put(labels, at, usize::from(width), spot.label(VALUE));
                Ok(())
            }
            FieldKind::Inline { utf8: _, capacity } => {
                lay_inline(self.bytes, labels, spot, at, capacity)
            }
            FieldKind::Indirect { utf8: _ } => lay_text(self.bytes, labels, spot, at),
            FieldKind::Static { group } => self.lay_fields(labels, spot, depth, group, at),
            FieldKind::Dynamic { allowed } => self.lay_dynamic(labels, spot, allowed, at),
        }
    }

    // A group in another has a part of its bytes and labels for its own.
    #[cycle(lay)]
    fn lay_dynamic(
        &self,
        labels: &mut [u64],
        spot: Spot,
        allowed: usize,
        at: usize,
    ) -> Result<(), u64>
        requires { (length labels.old ≡ length self.now.bytes.now) × (at ≤ 65540) }
    {
        let found = locate(self.bytes, labels, spot, at, BEHIND_GROUP, 1)?;
        let start = found.place;
        let end = start + 4 + found.count;
        if self.bytes.len() < end {
            return Err(spot.label(SIZE));
        }
        let inner = Group {
            table: self.table,
            index: self.index,
            bytes: &self.bytes[start..end],
        };
        if inner.is_kept(spot) {
            marks::put(labels, start + 4, 8, spot.label(TYPE_ID));
            return Ok(());
        }
        inner.lay_group(&mut labels[start..end], spot, allowed)
    }
}

// THE MESSAGE

// The message's group is what its size word counts, as far as the message goes.
fn lay_message(table: &[u8], index: &[u16], message: &[u8], labels: &mut [u64]) -> Result<(), u64>
    requires layout { Layout table.now index.now }
    requires same { length labels.old ≡ length message.now }
    requires small { length message.now ≤ 65536 }
{
    labels.fill(0);
    let spot = Spot::in_group(0, 8);
    let size = spot.label(SIZE);
    marks::put(labels, 0, 4, size);
    let whole = 4 + marks::word_at(message, 0);
    let end = whole.min(message.len());
    let group = Group {
        table,
        index,
        bytes: &message[..end],
    };
    let walked = group.lay_group(&mut labels[..end], spot, 0);
    if whole == message.len() {
        walked
    } else {
        Err(size)
    }
}

// The labels of a message's bytes, as many as the message has; 0 stands for a byte that the walk did not come to. The walk goes on
// to the first obstacle that keeps it from knowing what follows, and answers the label of what it was at, or 0 where there was none. Where the
// labels are fewer than the bytes, the message is longer than 65,536 bytes or the table is refused, nothing is done.
pub fn lay_out(table: &[u8], message: &[u8], labels: &mut [u64]) -> u64 {
    let n = message.len();
    if 65536 < n || labels.len() < n {
        return 0;
    }
    let mut index = [0u16; 322];
    let Ok(()) = table::index_table(table, &mut index) else {
        return 0;
    };
    // `at_fault` of crate `listing` takes 0 for no obstacle.
    lay_message(table, &index, message, &mut labels[..n])
        .err()
        .unwrap_or(0)
}
