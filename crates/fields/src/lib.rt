// What a group's fields are, for callers that must know it before they read them.
#![tactic(auto)]

ghost use Rattle.std.specs.Prelude.{if◌then◌else◌, Ok, ◌≡◌, cond, ◌&&◌, List, ℕ, ◌+◌, ◌*◌, ◌≤◌, length, drop, get_or, eqb};
ghost use Rattle.wire.specs.Bytes.{same};
ghost use Rattle.schema.specs.Faults.{fault_at};
ghost use Rattle.schema.specs.Table.{schema, field_at, fields_at};
ghost use Rattle.schema.specs.Schema.{find, known};
ghost use Rattle.schema.specs.Layout.{group_place, Layout};
ghost use Rattle.fields.specs.Fields.{size_of, shape_of, shape_under, field_shape, signature_of, has_under, has_fields};

use schema::Fault;

// A field: the number of its type, whether it is optional, whether it is a sequence, and its record's size.
#[derive(Clone, Copy, Debug, PartialEq, Eq)]
pub struct FieldShape {
    pub number: u8,
    pub optional: bool,
    pub sequence: bool,
    pub size: u8,
}

// ONE FIELD

// Field `field` of the group with this type id: 20, 2, 28.
pub fn field_shape(table: &[u8], id: u64, field: usize) -> Result<FieldShape, Fault>
    ensures { result ≡ field_shape table.now id field }
{
    let mut index = [0u16; 322];
    if table::index_table(table, &mut index).is_err() {
        return Err(refusal(20));
    }
    shape_under(table, &index, id, field)
}

fn refusal(number: u8) -> Fault
    ensures { result ≡ fault_at number 0 }
{
    Fault { number, place: 0 }
}

// The same under an accepted table.
fn shape_under(table: &[u8], index: &[u16], id: u64, field: usize) -> Result<FieldShape, Fault>
    requires { Layout table.now index.now }
    ensures { result ≡ shape_under (schema table.now) id field }
{
    let Some(at) = group_record(table, index, id) else {
        return Err(refusal(2));
    };
    if schema::field_count(table, at) <= field {
        return Err(refusal(28));
    }
    Ok(shape_at(table, at + 16 + 16 * field))
}

// Where the group with this type id has its record.
fn group_record(table: &[u8], index: &[u16], id: u64) -> Option<usize>
    requires { Layout table.now index.now }
    ensures { result ≡ (if known (schema table.now) id then Some (group_place index.now (find (schema table.now) id)) else None) }
{
    let total = schema::group_total(index);
    let group = schema::find(table, index, total, id);
    if group < total {
        Some(schema::group_place(index, group))
    } else {
        None
    }
}

// The field whose record stands at `row`.
fn shape_at(table: &[u8], row: usize) -> FieldShape
    requires { row + 16 ≤ length table.now }
    ensures { (es : List (List ℕ)) → Ok result ≡ shape_of (field_at es (drop row table.now)) }
{
    FieldShape {
        number: schema::field_type(table, row),
        optional: schema::is_optional(table, row),
        sequence: schema::is_sequence(table, row),
        size: size_at(table, row),
    }
}

// Only strings and binaries have a size.
fn size_at(table: &[u8], row: usize) -> u8
    requires { row + 16 ≤ length table.now }
    ensures { (es : List (List ℕ)) → result ≡ size_of (field_at es (drop row table.now)).type (field_at es (drop row table.now)).kind }
{
    match schema::field_type(table, row) {
        17 | 18 | 19 => schema::field_size(table, row),
        _ => 0,
    }
}

// ALL FIELDS

// Whether the group with this type id has the fields of this signature, and no other.
pub fn has_fields(table: &[u8], id: u64, signature: &[u8]) -> bool
    ensures { result ≡ has_fields table.now id signature.now }
{
    let mut index = [0u16; 322];
    table::index_table(table, &mut index).is_ok() && has_fields_under(table, &index, id, signature)
}

// The same under an accepted table.
pub fn has_fields_under(table: &[u8], index: &[u16], id: u64, signature: &[u8]) -> bool
    requires { Layout table.now index.now }
    ensures { result ≡ has_under (schema table.now) id signature.now }
{
    let Some(at) = group_record(table, index, id) else {
        return false;
    };
    have_signature(table, at + 16, schema::field_count(table, at), signature)
}

// Whether the `count` fields whose records stand from `row` on have this signature.
fn have_signature(table: &[u8], row: usize, count: usize, signature: &[u8]) -> bool
    requires { (row + 16 * count ≤ length table.now) × (length table.now ≤ 65536) }
    ensures { (es : List (List ℕ)) → result ≡ same (signature_of (fields_at es count (drop row table.now))) signature.now }
{
    if signature.len() != 3 * count {
        return false;
    }
    for i in 0..count {
        if !has_signature(table, row + 16 * i, signature, 3 * i) {
            return false;
        }
    }
    true
}

// Whether the field whose record stands at `row` is the one that the signature's bytes at `at` name.
fn has_signature(table: &[u8], row: usize, signature: &[u8], at: usize) -> bool
    requires { (row + 16 ≤ length table.now) × (at + 3 ≤ length signature.now) }
    ensures { (es : List (List ℕ)) → result ≡ eqb (field_at es (drop row table.now)).type (get_or signature.now at 0) && (eqb (cond (field_at es (drop row table.now)).optional 1 0) (get_or signature.now (at + 1) 0) && eqb (cond (field_at es (drop row table.now)).sequence 1 0) (get_or signature.now (at + 2) 0)) }
{
    let number = schema::field_type(table, row) == signature[at];
    let optional = u8::from(schema::is_optional(table, row)) == signature[at + 1];
    let sequence = u8::from(schema::is_sequence(table, row)) == signature[at + 2];
    number && optional && sequence
}
