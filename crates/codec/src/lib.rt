// The public questions. Any bytes may arrive, so none has a `requires`.
#![tactic(auto)]

ghost use Rattle.std.specs.Prelude.{Ok, Err, ◌≡◌, ◌+◌, length};
ghost use Rattle.schema.specs.Table.{schema, table_verdict};
ghost use Rattle.schema.specs.Layout.{Layout};
ghost use Rattle.fields.specs.Fields.{field_shape, has_fields};
ghost use Rattle.settings.specs.Store.{lax, store_verdict, setting_at, add_verdict, store_after};
ghost use Rattle.sheet.specs.Written.{written};
ghost use Rattle.sheet.specs.Rewritten.{onward};
ghost use Rattle.reading.specs.Item.{Accepted};
ghost use Rattle.reading.specs.Part.{bytes_in, start_of};
ghost use Rattle.opening.specs.Opening.{Under, under, message_verdict, scratch_after, Known};
ghost use Rattle.codec.specs.Answers.{written_of, room_after, Writes, to_sheet, to_message, Allowed, Within, rooms, rewriting, number_answer, part_answer, bytes_verdict, message_type, front_answer, front_in};

pub use fields::FieldShape;
pub use reading::{Number, Part};
pub use schema::Fault;
pub use settings::Ignored;

// A message's first field as bytes and the next three as numbers, each with why there is none.
#[derive(Clone, Copy, Debug)]
pub struct Front {
    pub first: Result<Part, Fault>,
    pub second: Result<Number, Fault>,
    pub third: Result<Number, Fault>,
    pub fourth: Result<Number, Fault>,
}

// Whether a schema table is accepted: faults 30 to 37, in their order.
pub fn check_table(table: &[u8]) -> Result<(), Fault>
    ensures { result ≡ table_verdict table.now }
{
    table::check_table(table)
}

// Field `field` of the group with this type id: 20, 2, 28.
pub fn field_shape(table: &[u8], id: u64, field: usize) -> Result<FieldShape, Fault>
    ensures { result ≡ field_shape table.now id field }
{
    fields::field_shape(table, id, field)
}

// Whether the group with this type id has the fields of this signature, and no other.
pub fn has_fields(table: &[u8], id: u64, signature: &[u8]) -> bool
    ensures { result ≡ has_fields table.now id signature.now }
{
    fields::has_fields(table, id, signature)
}

// Whether a settings store passes: 50.
pub fn check_store(store: &[u8]) -> Result<(), Fault>
    ensures { result ≡ store_verdict store.now }
{
    store::check_store(store)
}

// One version of a customer's settings: 50, 59.
pub fn read_settings(store: &[u8], customer: u16, version: u16) -> Result<Ignored, Fault>
    ensures { result ≡ setting_at store.now customer version }
{
    store::read_settings(store, customer, version)
}

// A new version of a customer's settings, behind the last record: 50, 51.
pub fn add_settings(
    store: &mut [u8],
    customer: u16,
    version: u16,
    absent: u8,
    pads: u8,
    unused: u8,
) -> Result<(), Fault>
    ensures value { result ≡ add_verdict store.old customer version absent pads unused }
    ensures store_after { store.new ≡ store_after store.old customer version absent pads unused }
{
    store::add_settings(store, customer, version, absent, pads, unused)
}

// Whether a message is accepted under a schema table, with scratch as working room.
pub fn check_message(
    table: &[u8],
    store: &[u8],
    customer: u16,
    message: &[u8],
    scratch: &mut [u8],
) -> Result<(), Fault>
    ensures value { result ≡ message_verdict table.now message.now (under store.now customer (length scratch.old)) }
    ensures scratch_after { scratch.new ≡ scratch_after table.now store.now message.now scratch.old }
{
    opening::open_message(table, &mut [0u16; 322], store, customer, message, scratch).and(Ok(()))
}

// The sheet of a message, at the start of the room `sheet`.
pub fn message_to_sheet(
    table: &[u8],
    store: &[u8],
    customer: u16,
    message: &[u8],
    scratch: &mut [u8],
    sheet: &mut [u8],
) -> Result<usize, Fault>
    ensures value { result ≡ written_of (to_sheet table.now message.now (under store.now customer (length scratch.old)) (length sheet.old)) }
    ensures scratch_after { scratch.new ≡ scratch_after table.now store.now message.now scratch.old }
    ensures sheet_after { sheet.new ≡ room_after (to_sheet table.now message.now (under store.now customer (length scratch.old)) (length sheet.old)) sheet.old }
{
    let mut index = [0u16; 322];
    let length = opening::open_message(table, &mut index, store, customer, message, scratch)?;
    sheet_of(table, &index, message, length, sheet)
}

// The message of a sheet, at the start of `output`.
pub fn sheet_to_message(table: &[u8], sheet: &[u8], output: &mut [u8]) -> Result<usize, Fault>
    ensures value { result ≡ written_of (to_message table.now sheet.now (length output.old)) }
    ensures output_after { output.new ≡ room_after (to_message table.now sheet.now (length output.old)) output.old }
{
    let mut index = [0u16; 322];
    let Ok(()) = table::index_table(table, &mut index) else {
        return Err(Fault {
            number: 20,
            place: 0,
        });
    };
    message_of(table, &index, sheet, output)
}

// A message with the same sheet, as short as can be, at the start of `output`. The sheet goes into the room `sheet`.
pub fn rewrite(
    table: &[u8],
    store: &[u8],
    customer: u16,
    message: &[u8],
    scratch: &mut [u8],
    sheet: &mut [u8],
    output: &mut [u8],
) -> Result<usize, Fault>
    ensures value { result ≡ written_of (rewriting table.now message.now store.now customer (rooms scratch.old sheet.old output.old)) }
    ensures scratch_after { scratch.new ≡ scratch_after table.now store.now message.now scratch.old }
    ensures sheet_after { sheet.new ≡ room_after (to_sheet table.now message.now (under store.now customer (length scratch.old)) (length sheet.old)) sheet.old }
    ensures output_after { output.new ≡ room_after (rewriting table.now message.now store.now customer (rooms scratch.old sheet.old output.old)) output.old }
{
    let mut index = [0u16; 322];
    let length = opening::open_message(table, &mut index, store, customer, message, scratch)?;
    rewrite_under(table, &index, message, length, sheet, output)
}

// Item `item` of the field `field` of the message's group, as a number.
pub fn read_number(
    table: &[u8],
    store: &[u8],
    customer: u16,
    message: &[u8],
    scratch: &mut [u8],
    field: usize,
    item: usize,
) -> Result<Number, Fault>
    ensures value { result ≡ number_answer table.now message.now (under store.now customer (length scratch.old)) field item }
    ensures scratch_after { scratch.new ≡ scratch_after table.now store.now message.now scratch.old }
{
    let mut index = [0u16; 322];
    opening::open_message(table, &mut index, store, customer, message, scratch)?;
    reading::read_number(table, &index, message, field, item)
}

// The bytes of item `item` of the field `field`: a part of the message itself, empty on any refusal.
pub fn read_bytes<'a>(
    table: &[u8],
    store: &[u8],
    customer: u16,
    message: &'a [u8],
    scratch: &mut [u8],
    field: usize,
    item: usize,
) -> &'a [u8]
    ensures what { result.now ≡ bytes_in message.now (part_answer table.now message.now (under store.now customer (length scratch.old)) field item) }
    ensures block { result.ref_ptr.0 ≡ message.entry.ref_ptr.0 }
    ensures offset { result.ref_ptr.1 ≡ message.entry.ref_ptr.1 + start_of (part_answer table.now message.now (under store.now customer (length scratch.old)) field item) }
    ensures scratch_after { scratch.new ≡ scratch_after table.now store.now message.now scratch.old }
{
    let mut index = [0u16; 322];
    let Ok(_) = opening::open_message(table, &mut index, store, customer, message, scratch) else {
        return &message[0..0];
    };
    reading::read_bytes(table, &index, message, field, item)
}

// Whether `read_bytes` hands out a part, and if not, why.
pub fn read_bytes_verdict(
    table: &[u8],
    store: &[u8],
    customer: u16,
    message: &[u8],
    scratch: &mut [u8],
    field: usize,
    item: usize,
) -> Result<(), Fault>
    ensures value { result ≡ bytes_verdict table.now message.now (under store.now customer (length scratch.old)) field item }
    ensures scratch_after { scratch.new ≡ scratch_after table.now store.now message.now scratch.old }
{
    let mut index = [0u16; 322];
    opening::open_message(table, &mut index, store, customer, message, scratch)?;
    reading::read_bytes_verdict(table, &index, message, field, item)
}

// Where in the message the part of `read_bytes` lies, for callers to whom no part can be lent.
pub fn find_bytes(
    table: &[u8],
    store: &[u8],
    customer: u16,
    message: &[u8],
    scratch: &mut [u8],
    field: usize,
    item: usize,
) -> Result<Part, Fault>
    ensures value { result ≡ part_answer table.now message.now (under store.now customer (length scratch.old)) field item }
    ensures scratch_after { scratch.new ≡ scratch_after table.now store.now message.now scratch.old }
{
    let mut index = [0u16; 322];
    opening::open_message(table, &mut index, store, customer, message, scratch)?;
    reading::find_part(table, &index, message, field, item)
}

// The type id of a message.
pub fn message_type(
    table: &[u8],
    store: &[u8],
    customer: u16,
    message: &[u8],
    scratch: &mut [u8],
) -> Result<u64, Fault>
    ensures value { result ≡ message_type table.now message.now (under store.now customer (length scratch.old)) }
    ensures scratch_after { scratch.new ≡ scratch_after table.now store.now message.now scratch.old }
{
    opening::open_message(table, &mut [0u16; 322], store, customer, message, scratch)?;
    Ok(wire::read_u64(message, 4))
}

// The first four fields of a message of this type id, whose group has the fields of this signature, from one opening.
pub fn read_front(
    table: &[u8],
    store: &[u8],
    customer: u16,
    message: &[u8],
    scratch: &mut [u8],
    id: u64,
    signature: &[u8],
) -> Result<Option<Front>, Fault>
    ensures value { result ≡ front_answer table.now message.now (under store.now customer (length scratch.old)) id signature.now }
    ensures scratch_after { scratch.new ≡ scratch_after table.now store.now message.now scratch.old }
{
    let mut index = [0u16; 322];
    opening::open_message(table, &mut index, store, customer, message, scratch)?;
    Ok(front_of(table, &index, message, id, signature))
}

// The first four fields of an accepted message.
fn front_of(table: &[u8], index: &[u16], message: &[u8], id: u64, signature: &[u8]) -> Option<Front>
    requires { (Layout table.now index.now) × (Accepted lax table.now message.now) }
    ensures { Ok result ≡ front_in (schema table.now) message.now id signature.now }
{
    if wire::read_u64(message, 4) != id {
        return None;
    }
    if !fields::has_fields_under(table, index, id, signature) {
        return None;
    }
    Some(Front {
        first: reading::find_part(table, index, message, 0, 0),
        second: reading::read_number(table, index, message, 1, 0),
        third: reading::read_number(table, index, message, 2, 0),
        fourth: reading::read_number(table, index, message, 3, 0),
    })
}

// The sheet, of `size` bytes, of an accepted message: 46 where it does not fit the room.
fn sheet_of(
    table: &[u8],
    index: &[u16],
    message: &[u8],
    size: usize,
    sheet: &mut [u8],
) -> Result<usize, Fault>
    requires { (u : Under) × Known table.now message.now u index.now size }
    ensures { (u : Under) → Known table.now message.now u index.now size → Writes (to_sheet table.now message.now u (length sheet.old)) result sheet.old sheet.new }
{
    if sheet.len() < size {
        return Err(Fault {
            number: 46,
            place: 0,
        });
    }
    Ok(sheet::write_sheet(table, index, message, sheet))
}

// The message of a sheet, under an accepted table.
fn message_of(table: &[u8], index: &[u16], sheet: &[u8], output: &mut [u8]) -> Result<usize, Fault>
    requires { (table_verdict table.now ≡ Ok tt) × (Layout table.now index.now) }
    ensures { Writes (written (schema table.now) (length output.old) sheet.now) result output.old output.new }
{
    let length = parsing::check_sheet(table, index, sheet)?;
    fit_message(table, index, sheet, length, output)
}

// The message of an allowed sheet, of `size` bytes: 47 where it does not fit the output, or is too long.
fn fit_message(
    table: &[u8],
    index: &[u16],
    sheet: &[u8],
    size: usize,
    output: &mut [u8],
) -> Result<usize, Fault>
    requires { (Layout table.now index.now) × (Allowed (schema table.now) sheet.now size) }
    ensures { Writes (written (schema table.now) (length output.old) sheet.now) result output.old output.new }
{
    if output.len() < size || 65536 < size {
        return Err(Fault {
            number: 47,
            place: 0,
        });
    }
    Ok(writing::write_message(table, index, sheet, output))
}

// "Rewriting checks the message, then 46, then 47": what follows the message's faults.
fn rewrite_under(
    table: &[u8],
    index: &[u16],
    message: &[u8],
    size: usize,
    sheet: &mut [u8],
    output: &mut [u8],
) -> Result<usize, Fault>
    requires { (u : Under) × Known table.now message.now u index.now size }
    ensures { (u : Under) → Known table.now message.now u index.now size → (Writes (onward (schema table.now) (length output.old) (to_sheet table.now message.now u (length sheet.old))) result output.old output.new) × (sheet.new ≡ room_after (to_sheet table.now message.now u (length sheet.old)) sheet.old) }
{
    let length = sheet_of(table, index, message, size, sheet)?;
    shorten(table, index, message.len(), &sheet[0..length], output)
}

// The message of an accepted message's sheet. Of all messages with that sheet it is a shortest one, so that an output as
// long as the message that there was, of `most` bytes, needs no count.
fn shorten(
    table: &[u8],
    index: &[u16],
    most: usize,
    sheet: &[u8],
    output: &mut [u8],
) -> Result<usize, Fault>
    requires { (table_verdict table.now ≡ Ok tt) × (Layout table.now index.now) × (Within (schema table.now) sheet.now most) }
    ensures { Writes (written (schema table.now) (length output.old) sheet.now) result output.old output.new }
{
    if output.len() < most {
        return message_of(table, index, sheet, output);
    }
    Ok(writing::write_message(table, index, sheet, output))
}
