// The public questions for C and Rust. A slice passes as a pointer and a length, an answer as a struct of numbers by
// value; include/blink_native.h declares them.
#![tactic(auto)]

ghost use Rattle.std.specs.Prelude.{◌≡◌, ◌≤◌, length};
ghost use Rattle.schema.specs.Table.{table_verdict};
ghost use Rattle.fields.specs.Fields.{field_shape};
ghost use Rattle.settings.specs.Store.{store_verdict, setting_at, add_verdict, store_after};
ghost use Rattle.opening.specs.Opening.{under, message_verdict, scratch_after};
ghost use Rattle.tape.specs.Tape.{tape_step, tape_scratch};
ghost use Rattle.codec.specs.Answers.{written_of, room_after, to_sheet, to_message, rewriting, rooms, number_answer, part_answer};
ghost use Rattle.ledger.specs.Ledger.{lines, call, line_of, enters, entered};
ghost use Rattle.faults.specs.Words.{fitted};
ghost use Rattle.blink_native.specs.Boundary.{exported, exported_written, exported_number, exported_span, exported_settings, exported_step, exported_shape, answered, NoNan, fault_words, version};

use codec::{Fault, FieldShape, Ignored, Number, Part};

// number 0: accepted.
#[repr(C)]
#[derive(Clone, Copy)]
pub struct BlinkVerdict {
    pub number: u32,
    pub place: u64,
}

// number 0: so many bytes were written.
#[repr(C)]
#[derive(Clone, Copy)]
pub struct BlinkWritten {
    pub number: u32,
    pub place: u64,
    pub length: u64,
}

// kind 0: refused; 1 signed, 2 unsigned, 3 bool, 4 decimal, 5 float, 6 NaN.
// bits: two's complement, a decimal's mantissa, or a float's pattern.
#[repr(C)]
#[derive(Clone, Copy)]
pub struct BlinkNumber {
    pub number: u32,
    pub place: u64,
    pub kind: u32,
    pub exponent: i32,
    pub bits: u64,
}

// number 0: the bytes lie there in the message.
#[repr(C)]
#[derive(Clone, Copy)]
pub struct BlinkPart {
    pub number: u32,
    pub place: u64,
    pub offset: u64,
    pub length: u64,
}

// number 0: absent, pads and unused are 1 where 4, 6 and 8 are ignored, else 0.
#[repr(C)]
#[derive(Clone, Copy)]
pub struct BlinkSettings {
    pub number: u32,
    pub place: u64,
    pub absent: u32,
    pub pads: u32,
    pub unused: u32,
}

// ended 1: no bytes are left. Else number 0: the message lies there on the tape. next: where the next one starts.
#[repr(C)]
#[derive(Clone, Copy)]
pub struct BlinkStep {
    pub number: u32,
    pub place: u64,
    pub ended: u32,
    pub offset: u64,
    pub length: u64,
    pub next: u64,
}

// number 0: a field's type, its flags as 1 or 0, and its size byte.
#[repr(C)]
#[derive(Clone, Copy)]
pub struct BlinkShape {
    pub number: u32,
    pub place: u64,
    pub kind: u32,
    pub optional: u32,
    pub sequence: u32,
    pub size: u32,
}

impl From<Result<(), Fault>> for BlinkVerdict {
    ghost from_gives = { λ v b. b ≡ exported v };

    fn from(v: Result<(), Fault>) -> Self {
        match v {
            Ok(()) => BlinkVerdict {
                number: 0,
                place: 0,
            },
            Err(fault) => BlinkVerdict {
                number: fault.number as u32,
                place: fault.place as u64,
            },
        }
    }
}

impl From<Result<usize, Fault>> for BlinkWritten {
    ghost from_gives = { λ w b. b ≡ exported_written w };

    fn from(w: Result<usize, Fault>) -> Self {
        match w {
            Ok(length) => BlinkWritten {
                number: 0,
                place: 0,
                length: length as u64,
            },
            Err(fault) => BlinkWritten {
                number: fault.number as u32,
                place: fault.place as u64,
                length: 0,
            },
        }
    }
}

impl From<Result<Part, Fault>> for BlinkPart {
    ghost from_gives = { λ p b. b ≡ exported_span p };

    fn from(p: Result<Part, Fault>) -> Self {
        match p {
            Ok(part) => BlinkPart {
                number: 0,
                place: 0,
                offset: part.start as u64,
                length: part.length as u64,
            },
            Err(fault) => BlinkPart {
                number: fault.number as u32,
                place: fault.place as u64,
                offset: 0,
                length: 0,
            },
        }
    }
}

impl From<Result<Ignored, Fault>> for BlinkSettings {
    ghost from_gives = { λ s b. b ≡ exported_settings s };

    fn from(s: Result<Ignored, Fault>) -> Self {
        match s {
            Ok(ignored) => BlinkSettings {
                number: 0,
                place: 0,
                absent: ignored.absent as u32,
                pads: ignored.pads as u32,
                unused: ignored.unused as u32,
            },
            Err(fault) => BlinkSettings {
                number: fault.number as u32,
                place: fault.place as u64,
                absent: 0,
                pads: 0,
                unused: 0,
            },
        }
    }
}

impl From<Result<FieldShape, Fault>> for BlinkShape {
    ghost from_gives = { λ s b. b ≡ exported_shape s };

    fn from(s: Result<FieldShape, Fault>) -> Self {
        match s {
            Ok(shape) => BlinkShape {
                number: 0,
                place: 0,
                kind: shape.number as u32,
                optional: shape.optional as u32,
                sequence: shape.sequence as u32,
                size: shape.size as u32,
            },
            Err(fault) => BlinkShape {
                number: fault.number as u32,
                place: fault.place as u64,
                kind: 0,
                optional: 0,
                sequence: 0,
                size: 0,
            },
        }
    }
}

fn export_step(at: usize, step: tape::Step) -> BlinkStep
    requires { at ≤ step.next }
    ensures { result ≡ exported_step at step }
{
    let next = step.next;
    let Some(verdict) = step.answer else {
        return BlinkStep {
            number: 0,
            place: 0,
            ended: 1,
            offset: 0,
            length: 0,
            next: next as u64,
        };
    };
    match verdict {
        Ok(()) => BlinkStep {
            number: 0,
            place: 0,
            ended: 0,
            offset: at as u64,
            length: (next - at) as u64,
            next: next as u64,
        },
        Err(fault) => BlinkStep {
            number: fault.number as u32,
            place: fault.place as u64,
            ended: 0,
            offset: 0,
            length: 0,
            next: next as u64,
        },
    }
}

fn answer(kind: u32, exponent: i32, bits: u64) -> BlinkNumber
    ensures { result ≡ answered kind exponent bits }
{
    BlinkNumber {
        number: 0,
        place: 0,
        kind,
        exponent,
        bits,
    }
}

// No `From`: a NaN would have no bits here.
fn export_number(n: Result<Number, Fault>) -> BlinkNumber
    requires { NoNan n }
    ensures { result ≡ exported_number n }
{
    let number = match n {
        Ok(number) => number,
        Err(fault) => {
            return BlinkNumber {
                number: fault.number as u32,
                place: fault.place as u64,
                kind: 0,
                exponent: 0,
                bits: 0,
            };
        }
    };
    match number {
        Number::Signed(x) => answer(1, 0, wire::i64_to_bits(x)),
        Number::Unsigned(x) => answer(2, 0, x),
        Number::Bool(x) => answer(3, 0, x as u64),
        Number::Decimal { exponent, mantissa } => {
            answer(4, exponent as i32, wire::i64_to_bits(mantissa))
        }
        Number::Float(x) => answer(5, 0, f64::to_bits(x)),
        Number::NanBits(x) => answer(6, 0, x),
    }
}

// 0.3.0.
#[unsafe(no_mangle)]
pub extern "C" fn blink_version() -> u32
    ensures { result ≡ version 0 3 0 }
{
    0x00_03_00
}

// What a fault's number means: how long the words are, and as many of them as fit. 0 where no fault has the number.
#[unsafe(no_mangle)]
pub extern "C" fn blink_fault_words(number: u32, room: &mut [u8]) -> usize
    ensures value { result ≡ length (fault_words number) }
    ensures room_after { room.new ≡ fitted (fault_words number) room.old }
{
    if 256 <= number {
        return 0;
    }
    faults::copy_words(number as u8, room)
}

#[unsafe(no_mangle)]
pub extern "C" fn blink_check_table(table: &[u8]) -> BlinkVerdict
    ensures { result ≡ exported (table_verdict table.now) }
{
    BlinkVerdict::from(codec::check_table(table))
}

#[unsafe(no_mangle)]
pub extern "C" fn blink_check_store(store: &[u8]) -> BlinkVerdict
    ensures { result ≡ exported (store_verdict store.now) }
{
    BlinkVerdict::from(codec::check_store(store))
}

#[unsafe(no_mangle)]
pub extern "C" fn blink_add_settings(
    store: &mut [u8],
    customer: u16,
    version: u16,
    absent: u8,
    pads: u8,
    unused: u8,
) -> BlinkVerdict
    ensures value { result ≡ exported (add_verdict store.old customer version absent pads unused) }
    ensures store_after { store.new ≡ store_after store.old customer version absent pads unused }
{
    BlinkVerdict::from(codec::add_settings(store, customer, version, absent, pads, unused))
}

#[unsafe(no_mangle)]
pub extern "C" fn blink_read_settings(store: &[u8], customer: u16, version: u16) -> BlinkSettings
    ensures { result ≡ exported_settings (setting_at store.now customer version) }
{
    BlinkSettings::from(codec::read_settings(store, customer, version))
}

#[unsafe(no_mangle)]
pub extern "C" fn blink_check_message(
    table: &[u8],
    store: &[u8],
    customer: u16,
    message: &[u8],
    scratch: &mut [u8],
) -> BlinkVerdict
    ensures value { result ≡ exported (message_verdict table.now message.now (under store.now customer (length scratch.old))) }
    ensures scratch_after { scratch.new ≡ scratch_after table.now store.now message.now scratch.old }
{
    BlinkVerdict::from(codec::check_message(table, store, customer, message, scratch))
}

#[unsafe(no_mangle)]
pub extern "C" fn blink_next_message(
    table: &[u8],
    store: &[u8],
    customer: u16,
    tape: &[u8],
    at: u64,
    scratch: &mut [u8],
) -> BlinkStep
    ensures value { result ≡ exported_step at (tape_step table.now tape.now at (under store.now customer (length scratch.old))) }
    ensures scratch_after { scratch.new ≡ tape_scratch table.now store.now tape.now at scratch.old }
{
    let at = at as usize;
    export_step(at, tape::step_at(table, store, customer, tape, at, scratch))
}

#[unsafe(no_mangle)]
pub extern "C" fn blink_message_to_sheet(
    table: &[u8],
    store: &[u8],
    customer: u16,
    message: &[u8],
    scratch: &mut [u8],
    sheet: &mut [u8],
) -> BlinkWritten
    ensures value { result ≡ exported_written (written_of (to_sheet table.now message.now (under store.now customer (length scratch.old)) (length sheet.old))) }
    ensures scratch_after { scratch.new ≡ scratch_after table.now store.now message.now scratch.old }
    ensures sheet_after { sheet.new ≡ room_after (to_sheet table.now message.now (under store.now customer (length scratch.old)) (length sheet.old)) sheet.old }
{
    BlinkWritten::from(codec::message_to_sheet(table, store, customer, message, scratch, sheet))
}

#[unsafe(no_mangle)]
pub extern "C" fn blink_sheet_to_message(
    table: &[u8],
    sheet: &[u8],
    output: &mut [u8],
) -> BlinkWritten
    ensures value { result ≡ exported_written (written_of (to_message table.now sheet.now (length output.old))) }
    ensures output_after { output.new ≡ room_after (to_message table.now sheet.now (length output.old)) output.old }
{
    BlinkWritten::from(codec::sheet_to_message(table, sheet, output))
}

#[unsafe(no_mangle)]
pub extern "C" fn blink_rewrite(
    table: &[u8],
    store: &[u8],
    customer: u16,
    message: &[u8],
    scratch: &mut [u8],
    sheet: &mut [u8],
    output: &mut [u8],
) -> BlinkWritten
    ensures value { result ≡ exported_written (written_of (rewriting table.now message.now store.now customer (rooms scratch.old sheet.old output.old))) }
    ensures scratch_after { scratch.new ≡ scratch_after table.now store.now message.now scratch.old }
    ensures sheet_after { sheet.new ≡ room_after (to_sheet table.now message.now (under store.now customer (length scratch.old)) (length sheet.old)) sheet.old }
    ensures output_after { output.new ≡ room_after (rewriting table.now message.now store.now customer (rooms scratch.old sheet.old output.old)) output.old }
{
    BlinkWritten::from(codec::rewrite(table, store, customer, message, scratch, sheet, output))
}

#[unsafe(no_mangle)]
pub extern "C" fn blink_read_number(
    table: &[u8],
    store: &[u8],
    customer: u16,
    message: &[u8],
    scratch: &mut [u8],
    field: u64,
    item: u64,
) -> BlinkNumber
    ensures value { result ≡ exported_number (number_answer table.now message.now (under store.now customer (length scratch.old)) field item) }
    ensures scratch_after { scratch.new ≡ scratch_after table.now store.now message.now scratch.old }
{
    let n = codec::read_number(
        table,
        store,
        customer,
        message,
        scratch,
        field as usize,
        item as usize,
    );
    export_number(n)
}

#[unsafe(no_mangle)]
pub extern "C" fn blink_read_bytes(
    table: &[u8],
    store: &[u8],
    customer: u16,
    message: &[u8],
    scratch: &mut [u8],
    field: u64,
    item: u64,
) -> BlinkPart
    ensures value { result ≡ exported_span (part_answer table.now message.now (under store.now customer (length scratch.old)) field item) }
    ensures scratch_after { scratch.new ≡ scratch_after table.now store.now message.now scratch.old }
{
    let s = codec::find_bytes(
        table,
        store,
        customer,
        message,
        scratch,
        field as usize,
        item as usize,
    );
    BlinkPart::from(s)
}

#[unsafe(no_mangle)]
pub extern "C" fn blink_field_shape(table: &[u8], id: u64, field: u64) -> BlinkShape
    ensures { result ≡ exported_shape (field_shape table.now id field) }
{
    BlinkShape::from(codec::field_shape(table, id, field as usize))
}

#[unsafe(no_mangle)]
pub extern "C" fn blink_add_line(
    table: &[u8],
    store: &[u8],
    customer: u16,
    message: &[u8],
    scratch: &mut [u8],
    id: u64,
    ledger: &mut [u8],
    fill: u64,
) -> BlinkWritten
    ensures value { result ≡ exported_written (enters (lines ledger.old fill) (line_of (call table.now message.now (under store.now customer (length scratch.old)) id))) }
    ensures ledger_after { ledger.new ≡ (entered (lines ledger.old fill) (line_of (call table.now message.now (under store.now customer (length scratch.old)) id))).bytes }
    ensures scratch_after { scratch.new ≡ scratch_after table.now store.now message.now scratch.old }
{
    let entered = ledger::add_line(
        table,
        store,
        customer,
        message,
        scratch,
        id,
        ledger,
        fill as usize,
    );
    BlinkWritten::from(entered)
}
