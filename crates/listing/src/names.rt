// What bytes of a message are, in words, by their label.
use layout::label;
use layout::label::{
    ABSENT, COUNT, EXTENDING, EXTENSION, FLAG, GROUP, INLINE_COUNT, ITEM_COUNT, ITEMS, OFFSET, PAD,
    SEQUENCE, SIZE, TEXT, TYPE_ID, UNUSED, VALUE,
};
use printing::print::Page;
use printing::{print, value};
use std::fmt::Write;

// WHOSE THEY ARE

fn print_item(page: &mut Page, label: u64) {
    let item = label::item_of(label);
    let _ = write!(page, "[{item}]");
}

// The numbers of the fields on the path, with dots between them. An item stands behind the field that it is one of.
fn print_path(page: &mut Page, label: u64) {
    for k in 0..5 {
        let number = label::field_of(label, k);
        if number == 0 {
            return;
        }
        if 0 < k {
            print::text(page, b".");
        }
        print::number(page, number - 1);
        if label::owner_of(label) == k + 1 {
            print_item(page, label);
        }
    }
}

// Whether they are of a sequence as a whole.
fn is_of_sequence(kind: usize) -> bool {
    matches!(kind, SEQUENCE | ITEM_COUNT | ITEMS)
}

fn print_field(page: &mut Page, label: u64) {
    print::text(page, b"field ");
    print_path(page, label);
    print::space(page);
    if is_of_sequence(label::kind_of(label)) {
        print::text(page, b"sequence of ");
    }
    value::print_type(page, label::type_of(label));
}

// A sequence of no field is an extension.
fn is_of_extension(label: u64) -> bool {
    let kind = label::kind_of(label);
    label::owner_of(label) == EXTENDING || kind == EXTENSION || is_of_sequence(kind)
}

fn print_extension(page: &mut Page, label: u64) {
    print::text(page, b"extension");
    if label::owner_of(label) == EXTENDING {
        print_item(page, label);
    }
}

// WHAT OF IT THEY ARE

// A value in place has no word of its own.
fn kind_name(label: u64) -> &'static [u8] {
    match label::kind_of(label) {
        SIZE => b"size",
        TYPE_ID => b"type id",
        COUNT | ITEM_COUNT | INLINE_COUNT => b"count",
        TEXT if label::type_of(label) == 17 => b"text",
        TEXT => b"bytes",
        ITEMS => b"items",
        GROUP => b"contents",
        PAD => b"pad",
        FLAG => b"flag",
        ABSENT => b"absent",
        UNUSED => b"unused",
        OFFSET | SEQUENCE | EXTENSION => b"offset",
        _ => b"",
    }
}

// What bytes with this label are. A group's own have no field.
pub fn print_name(page: &mut Page, label: u64) {
    let has_field = label::field_of(label, 0) != 0;
    if has_field {
        print_field(page, label);
    } else if is_of_extension(label) {
        print_extension(page, label);
    }
    if (has_field || is_of_extension(label)) && label::kind_of(label) != VALUE {
        print::text(page, b", ");
    }
    print::text(page, kind_name(label));
}
