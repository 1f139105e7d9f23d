// A sheet as indented text, one line for each record.
//
// The sheet is that of an accepted message, so each record is the one that is due. Nothing here rests on it: where a record is not
// one, the text stops.
#![tactic(auto)]

ghost use Rattle.std.specs.Prelude.{◌≡◌, ◌+◌, ◌<◌, slice_set};
ghost use Rattle.wire.specs.Bytes.{part, le};
ghost use Rattle.showing.specs.Show.{kind_of, value_length, record_length, opened, extension_of, frame_at, is_done, next_field, advanced, in_sequence, after, closed, pushed, entered, stepped};

use printing::print::Page;
use printing::{print, value};
use sheet::{GB, GE, NO, SG, SQ, ST, VA, XT, XU};
use std::fmt::Write;

// RECORDS

#[derive(Clone, Copy)]
enum Record {
    Group,
    End,
    Value,
    Bytes,
    Sequence,
    Static,
    Absent,
    Extension,
    Unknown,
}

impl Record {
    #[tactic(auto, unfolding(crate::specs::Show::kind_of, message::specs::Sheet::mark_bytes, wire::specs::Bytes::same))]
    fn of_mark(mark: [u8; 2]) -> Option<Record>
        ensures { result ≡ kind_of mark }
    {
        match mark {
            GB => Some(Record::Group),
            GE => Some(Record::End),
            VA => Some(Record::Value),
            ST => Some(Record::Bytes),
            SQ => Some(Record::Sequence),
            SG => Some(Record::Static),
            NO => Some(Record::Absent),
            XT => Some(Record::Extension),
            XU => Some(Record::Unknown),
            _ => None,
        }
    }
}

// The scalars' widths, by their types.
const WIDTHS: [u8; 17] = [1, 1, 1, 2, 2, 4, 4, 8, 8, 8, 9, 1, 4, 8, 8, 4, 8];

// How many bytes a value of this field has.
#[tactic(auto, unfolding(crate::specs::Show::value_length, schema::specs::Table::scalar_width))]
fn value_length(field: &[u8]) -> usize
    ensures { (result ≡ value_length field.now) × (result < 256) }
{
    match rows::field_type(field) {
        19 => usize::from(rows::field_size(field)),
        number => usize::from(WIDTHS.get(usize::from(number)).copied().unwrap_or(4)),
    }
}

// FRAMES

// A group that is open: where its record stands in the table, how many fields it has and the next one's number; in a sequence, how many
// items there are and the next one's number. A static group or an extension is embedded: it has no record that closes it.
#[derive(Clone, Copy, Default)]
struct Frame {
    group: usize,
    fields: usize,
    field: usize,
    items: usize,
    item: usize,
    embedded: bool,
}

// A group has at most 64 fields, so that number 64 stands for its extension.
const EXTENSION: usize = 64;

impl Frame {
    fn opened(group: usize, fields: usize, embedded: bool) -> Frame
        ensures { result ≡ opened group fields embedded }
    {
        Frame {
            group,
            fields,
            embedded,
            ..Frame::default()
        }
    }

    // That of an extension: a sequence of so many groups, and no record closes it.
    fn extension(count: usize) -> Frame
        ensures { result ≡ extension_of count }
    {
        Frame {
            fields: EXTENSION + 1,
            field: EXTENSION,
            items: count,
            embedded: true,
            ..Frame::default()
        }
    }

    // Whether no record closes the group, and nothing of it is left.
    fn is_done(self) -> bool
        ensures { result ≡ is_done self }
    {
        self.embedded && self.fields <= self.field
    }

    // The frame after the field.
    #[tactic(auto, unfolding(crate::specs::Show::next_field))]
    fn next_field(self) -> Frame
        ensures { result ≡ next_field self }
    {
        if self.fields <= self.field {
            return self;
        }
        Frame {
            field: self.field + 1,
            items: 0,
            item: 0,
            ..self
        }
    }

    // The frame after one more item, or after the field.
    #[tactic(auto, unfolding(crate::specs::Show::advanced))]
    fn advanced(self) -> Frame
        ensures { result ≡ advanced self }
    {
        if self.items.saturating_sub(1) <= self.item {
            return self.next_field();
        }
        Frame {
            item: self.item + 1,
            ..self
        }
    }

    // The frame at the start of a sequence.
    #[tactic(auto, unfolding(crate::specs::Show::in_sequence))]
    fn in_sequence(self, count: usize) -> Frame
        ensures { result ≡ in_sequence self count }
    {
        if count == 0 {
            return self.advanced();
        }
        Frame {
            items: count,
            item: 0,
            ..self
        }
    }
}

// LINES

// A record in its place: the sheet from the record on, the record of its field in the table, and the frame of the innermost of `depth`
// groups.
#[derive(Drop)]
struct Line<'a> {
    kind: Record,
    left: &'a [u8],
    field: &'a [u8],
    frame: Frame,
    depth: usize,
}

impl<'a> Line<'a> {
    // The type id, or the count, that stands behind the mark, and so many bytes behind the count.

    fn type_id(&self) -> u64
        ensures { result ≡ le (part 8 2 self.now.left.now) }
    {
        rows::first_u64(rows::rest(self.left, 2))
    }

    fn count(&self) -> usize
        ensures { (result ≡ le (part 4 2 self.now.left.now)) × (result < 4294967296) }
    {
        rows::first_u32(rows::rest(self.left, 2))
    }

    fn bytes(&self) -> &'a [u8] {
        rows::part(self.left, 6, self.count())
    }

    // How long the record is.
    #[tactic(auto, unfolding(crate::specs::Show::record_length))]
    fn length(&self) -> usize
        ensures value { result ≡ record_length self.now.left.now self.now.field.now self.now.kind }
        ensures some { 0 < result }
    {
        match self.kind {
            Record::Group => 10,
            Record::End | Record::Static | Record::Absent => 2,
            Record::Value => 2 + value_length(self.field),
            Record::Bytes | Record::Unknown => 6 + self.count(),
            Record::Sequence | Record::Extension => 6,
        }
    }

    // The frame after the record.
    #[tactic(auto, unfolding(crate::specs::Show::after))]
    fn frame_after(&self) -> Frame
        ensures { result ≡ after self.now.left.now self.now.kind self.now.frame }
    {
        match self.kind {
            Record::End | Record::Extension => self.frame,
            Record::Sequence => self.frame.in_sequence(self.count()),
            _ => self.frame.advanced(),
        }
    }

    // The field's number, and the item's in a sequence.
    fn print_label(&self, page: &mut Page) {
        print::indent(page, self.depth);
        let Frame {
            fields,
            field,
            items,
            item,
            ..
        } = self.frame;
        if fields <= field || field == EXTENSION {
            return;
        }
        print::number(page, field);
        if 0 < items {
            let _ = write!(page, "[{item}]");
        }
        print::space(page);
    }

    // The start of the line of a field or an item.
    fn print_start(&self, page: &mut Page) {
        self.print_label(page);
        value::print_type(page, rows::field_type(self.field));
        print::space(page);
    }

    // The value after the mark. That of type 19, fixed, is bytes and no number.
    #[tactic(auto, using(printing::proofs::Widths::at_most_nine))]
    fn print_value(&self, page: &mut Page) {
        self.print_start(page);
        let number = rows::field_type(self.field);
        if number == 19 {
            print::hex(page, rows::part(self.left, 2, value_length(self.field)));
            return;
        }
        let Some(bytes) = self.left.get(2..11) else {
            return;
        };
        if let Ok(n) = reading::number_at(bytes, 0, number) {
            value::print_number(page, number, n);
        }
    }

    // What closes a group has no line.
    fn print(&self, page: &mut Page) {
        match self.kind {
            Record::Group => {
                self.print_label(page);
                print::text(page, b"group ");
                print::number(page, self.type_id());
            }
            Record::End => return,
            Record::Value => self.print_value(page),
            Record::Bytes => {
                self.print_start(page);
                value::print_bytes(page, rows::field_type(self.field), self.bytes());
            }
            Record::Sequence => {
                self.print_start(page);
                print::text(page, b"sequence of ");
                print::number(page, self.count());
            }
            Record::Static => {
                self.print_label(page);
                value::print_type(page, 21);
            }
            Record::Absent => {
                self.print_start(page);
                print::text(page, b"absent");
            }
            Record::Extension => {
                print::indent(page, self.depth);
                print::text(page, b"extension of ");
                print::number(page, self.count());
            }
            Record::Unknown => {
                self.print_label(page);
                print::text(page, b"unknown group ");
                print::hex(page, self.bytes());
            }
        }
        print::end_line(page);
    }
}

// OPEN GROUPS

// Eight levels of groups, each with static groups up to four deep.
const DEEPEST: usize = 40;

// A frame for no group, for the open groups, and for one that a record opens.
const FRAMES: usize = DEEPEST + 2;

// How many groups are open, and the frames of each.
#[derive(Drop)]
struct Open {
    depth: usize,
    frames: [Frame; FRAMES],
}

impl Open {
    // The innermost group's.
    fn top(&self) -> Frame
        ensures { result ≡ frame_at self.now.frames self.now.depth }
    {
        self.frames.get(self.depth).copied().unwrap_or_default()
    }

    fn set_top(&mut self, frame: Frame)
        requires { self.old.depth < 42 }
        ensures { self.new ≡ record self.old { frames = slice_set self.old.frames self.old.depth frame } }
    {
        self.frames[self.depth] = frame;
    }

    fn push(&mut self, frame: Frame)
        requires { self.old.depth < 41 }
        ensures { self.new ≡ pushed frame self.old }
    {
        self.depth += 1;
        self.frames[self.depth] = frame;
    }

    // Opens the group whose record stands at `group`.
    fn enter(&mut self, table: &[u8], group: usize, embedded: bool)
        requires { self.old.depth < 41 }
        ensures { self.new ≡ entered table.now group embedded self.old }
    {
        let fields = rows::field_count(rows::rest(table, group));
        self.push(Frame::opened(group, fields, embedded));
    }

    // Closes the static groups with no field left, and the extensions with no group left.
    fn close(&mut self)
        ensures { self.new ≡ record self.old { depth = closed self.old.frames self.old.depth } }
    {
        while 0 < self.depth && self.top().is_done() {
            self.depth -= 1;
        }
    }

    // Opens or closes a group, as the record does.
    #[tactic(auto, unfolding(crate::specs::Show::stepped))]
    fn step(&mut self, table: &[u8], line: &Line<'_>)
        requires { self.old.depth < 41 }
        ensures { self.new ≡ stepped table.now line.now.left.now line.now.field.now line.now.kind self.old }
    {
        match line.kind {
            Record::Group => {
                self.enter(table, rows::group_named(table, line.type_id()), false);
            }
            Record::Static => self.enter(table, rows::field_group(table, line.field), true),
            Record::Extension => self.push(Frame::extension(line.count())),
            Record::End => self.depth = self.depth.saturating_sub(1),
            _ => {}
        }
    }
}

// THE SHEET

// The sheet is the first `length` bytes of the room.
pub fn print_sheet(page: &mut Page, table: &[u8], room: &[u8], length: usize) {
    if room.len() < length {
        return;
    }
    let mut open = Open {
        depth: 0,
        frames: [Frame::default(); FRAMES],
    };
    let mut at = 0;
    while at < length {
        open.close();
        if DEEPEST < open.depth {
            return;
        }
        let left = &room[at..];
        let [first, second, ..] = left else {
            return;
        };
        let Some(kind) = Record::of_mark([*first, *second]) else {
            return;
        };
        let frame = open.top();
        let line = Line {
            kind,
            left,
            field: rows::field_record(table, frame.group, frame.field),
            frame,
            depth: open.depth,
        };
        let n = line.length();
        if length - at < n {
            return;
        }
        line.print(page);
        open.set_top(line.frame_after());
        open.step(table, &line);
        at += n;
    }
}
