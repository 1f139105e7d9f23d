// Labels: what a byte is, as one number, and 0 where the walk did not come.
//
// From the low end on: the kind (of 32), whether the byte begins a run (2), the field's type (32), the level (8), whose item it is (8), the
// item's number (65536), and the path (2^31). The path has the numbers of the fields that lead to the field through static groups, each
// plus one, in base 65; the group's own field comes first, and 0 ends it.
ghost use Rattle.std.specs.Prelude.{◌≡◌, ◌+◌, ◌*◌, ◌%◌, ◌<◌, ◌≤◌};
ghost use Rattle.layout.specs.Label.{kind_of, begins_of, type_of, level_of, owner_of, item_of, unit, number_of, above};

// THE KINDS

// Numbers: a kind is a digit of a label and is read back as one, for which an enum would need a table of the sixteen.

// A group's size word, its type id, and the offset of its extension. The size word of a group in another has the path to the field that
// holds it, and the level of that field.
pub const SIZE: usize = 1;

pub const TYPE_ID: usize = 2;

pub const EXTENSION: usize = 3;

// The flag of an optional field, and the bytes of one that is absent.
pub const FLAG: usize = 4;

pub const ABSENT: usize = 5;

// A value in place.
pub const VALUE: usize = 6;

// The count byte of an inline text, and the bytes that it does not use.
pub const INLINE_COUNT: usize = 7;

pub const UNUSED: usize = 8;

// The offset of a text or a group.
pub const OFFSET: usize = 9;

// A text's count word, and the bytes of a text, inline or not.
pub const COUNT: usize = 10;

pub const TEXT: usize = 11;

// The offset of a sequence, its count word, and items that the walk did not come to. Those of an extension are the same, but that the
// offset is `EXTENSION`.
pub const SEQUENCE: usize = 12;

pub const ITEM_COUNT: usize = 13;

pub const ITEMS: usize = 14;

// What follows the size word of a group that is not opened.
pub const GROUP: usize = 15;

pub const PAD: usize = 16;

// WHAT A LABEL SAYS

pub fn kind_of(label: u64) -> usize
    ensures { result ≡ kind_of label }
{
    (label % 32) as usize
}

// Whether a run begins with the byte. One does too where what the label says else changes.
pub fn begins(label: u64) -> bool
    ensures { result ≡ begins_of label }
{
    label / 32 % 2 == 1
}

// The number of the field's type, or 0.
pub fn type_of(label: u64) -> u8
    ensures { result ≡ type_of label }
{
    (label / 64 % 32) as u8
}

// The level of the group, from 1 for the message to 8.
pub fn level_of(label: u64) -> usize
    ensures { result ≡ level_of label }
{
    (label / 2048 % 8) as usize + 1
}

// Whose item it is: that of the field with this place on the path, from 1 on, or the extension's. 0 where it is no item. Of a sequence
// in a sequence it is the inner one's.
pub fn owner_of(label: u64) -> usize
    ensures { result ≡ owner_of label }
{
    (label / 16384 % 8) as usize
}

// The owner of the groups of an extension.
pub const EXTENDING: usize = 6;

// The item's number.
pub fn item_of(label: u64) -> usize
    ensures { result ≡ item_of label }
{
    (label / 131072 % 65536) as usize
}

// What a number at place k of a path counts.
fn unit(k: usize) -> usize
    ensures { (result ≡ unit k) × (0 < result) × (result ≤ 1160290625) }
{
    65usize.pow(k.min(5) as u32)
}

// The number of the field with place k on the path, from 0 on, plus one. 0 where the path is not so long.
pub fn field_of(label: u64, k: usize) -> usize
    ensures { result ≡ number_of label k }
{
    (label / 8589934592) as usize / unit(k) % 65
}

// LABELS MADE

// Where a walk is: where the group's data area starts, how many levels are left below the group, and what a label says besides its kind.
#[derive(Clone, Copy)]
pub struct Spot {
    pub area: usize,
    pub levels: usize,
    pub number: usize,
    pub owner: usize,
    pub item: usize,
    pub path: usize,
}

impl Spot {
    ghost use Rattle.layout.specs.Label.{packed};

    // That of a group with no field yet.
    pub fn in_group(area: usize, levels: usize) -> Spot
        ensures { result.levels ≡ levels }
    {
        Spot {
            area,
            levels,
            number: 0,
            owner: 0,
            item: 0,
            path: 0,
        }
    }

    // The label of a byte that begins no run.
    pub fn label(self, kind: usize) -> u64
        ensures { result ≡ packed kind self }
    {
        let about = kind % 32 + 64 * (self.number % 32) + 2048 * levels_above(self.levels);
        let item = 16384 * (self.owner % 8) + 131072 * (self.item % 65536);
        (about + item + 8589934592 * (self.path % 2147483648)) as u64
    }
}

// How many levels are above the group. The message itself lies in none, with all eight left.
fn levels_above(levels: usize) -> usize
    ensures { (result ≡ above levels) × (result < 8) }
{
    7usize.saturating_sub(levels)
}

// A path that is `steps` long with one more number.
pub fn step(path: usize, steps: usize, number: usize) -> usize
    ensures { result ≡ path % 2147483648 + unit steps * (number % 64 + 1) }
{
    path % 2147483648 + unit(steps) * (number % 64 + 1)
}
