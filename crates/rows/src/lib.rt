// Bytes, and records of an accepted table, found with no index. Each question has an answer at every place: past the end there are no
// bytes, and the bytes that a number lacks are zeros.
#![tactic(auto)]

ghost use Rattle.std.specs.Prelude.{◌≡◌, ℕ, ◌&&◌, ◌+◌, ◌*◌, ◌<◌, ◌^◌, take, drop, get_or, eqb};
ghost use Rattle.wire.specs.Bytes.{part, le, same};
ghost use Rattle.schema.specs.Table.{group_marked, type_id, id_flag, field_count, field_type, field_size, reference};
ghost use Rattle.rows.specs.Rows.{place_of, place_named};

use table::{GR, GW};

// BYTES

// What is left at `at`.
pub fn rest(s: &[u8], at: usize) -> &[u8]
    ensures { result.now ≡ drop at s.now }
{
    &s[at.min(s.len())..]
}

// The n bytes at `at`, or as many as there are.
pub fn part(s: &[u8], at: usize, n: usize) -> &[u8]
    ensures { result.now ≡ part n at s.now }
{
    let left = rest(s, at);
    &left[..n.min(left.len())]
}

pub fn byte_at(s: &[u8], at: usize) -> u8
    ensures { result ≡ get_or s.now at 0 }
{
    s.get(at).copied().unwrap_or(0)
}

// The first N bytes.
fn first<const N: usize>(s: &[u8]) -> [u8; N]
    ensures { (k : ℕ) → k < N → get_or result k 0 ≡ get_or s.now k 0 }
{
    let mut bytes = [0; N];
    let n = s.len().min(N);
    bytes[..n].copy_from_slice(&s[..n]);
    bytes
}

// The number of the first two, four or eight bytes.

fn first_u16(s: &[u8]) -> usize
    ensures { result ≡ le (take 2 s.now) }
{
    usize::from(u16::from_le_bytes(first(s)))
}

pub fn first_u32(s: &[u8]) -> usize
    ensures { (result ≡ le (take 4 s.now)) × (result < 2 ^ 32) }
{
    u32::from_le_bytes(first(s)) as usize
}

pub fn first_u64(s: &[u8]) -> u64
    ensures { result ≡ le (take 8 s.now) }
{
    u64::from_le_bytes(first(s))
}

// Whether a mark stands first.
pub fn has_mark(s: &[u8], mark: [u8; 2]) -> bool
    ensures { result ≡ same (take 2 s.now) mark }
{
    s.starts_with(&mark)
}

// A GROUP'S RECORD

// Whether the table's next record is that of a group; and of the group with this type id.

fn is_group(row: &[u8]) -> bool
    ensures { result ≡ group_marked row.now }
{
    has_mark(row, GR) || has_mark(row, GW)
}

fn is_named(row: &[u8], id: u64) -> bool
    ensures { result ≡ group_marked row.now && (eqb (id_flag row.now) 1 && eqb (type_id row.now) id) }
{
    is_group(row) && byte_at(row, 10) == 1 && first_u64(rest(row, 2)) == id
}

// The place of the record of the group with this type id, or the end of the table.
pub fn group_named(table: &[u8], id: u64) -> usize
    ensures { result ≡ place_named table.now id }
{
    (0..table.len() / 16)
        .map(|i| 16 * i)
        .find(|at| is_named(rest(table, *at), id))
        .unwrap_or(table.len())
}

// The place of the record of group `number`, or the end of the table.
fn group_numbered(table: &[u8], number: usize) -> usize
    ensures { result ≡ place_of table.now number }
{
    (0..table.len() / 16)
        .map(|i| 16 * i)
        .filter(|at| is_group(rest(table, *at)))
        .nth(number)
        .unwrap_or(table.len())
}

// How many fields the group has.
pub fn field_count(row: &[u8]) -> usize
    ensures { result ≡ field_count row.now }
{
    usize::from(byte_at(row, 13))
}

// A FIELD'S RECORD

// That of field `field` of the group whose record stands at `group`.
pub fn field_record(table: &[u8], group: usize, field: usize) -> &[u8]
    ensures { result.now ≡ drop (16 + 16 * field) (drop group table.now) }
{
    rest(
        rest(table, group),
        field.saturating_add(1).saturating_mul(16),
    )
}

pub fn field_type(row: &[u8]) -> u8
    ensures { result ≡ field_type row.now }
{
    byte_at(row, 2)
}

pub fn field_size(row: &[u8]) -> u8
    ensures { result ≡ field_size row.now }
{
    byte_at(row, 5)
}

// The place of the record of the group that the field names.
pub fn field_group(table: &[u8], row: &[u8]) -> usize
    ensures { result ≡ place_of table.now (reference row.now) }
{
    group_numbered(table, first_u16(rest(row, 6)))
}

// The type of a field of the message's group.
pub fn message_type(table: &[u8], message: &[u8], field: usize) -> u8
    ensures { result ≡ field_type (drop (16 + 16 * field) (drop (place_named table.now (le (part 8 4 message.now))) table.now)) }
{
    field_type(field_record(
        table,
        group_named(table, first_u64(rest(message, 4))),
        field,
    ))
}
