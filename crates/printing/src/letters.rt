// Text for people. What cannot be seen, or changes how other letters look, is shown by its number, so that no two texts look alike.
ghost use Rattle.std.specs.Prelude.{◌<◌, length};

use crate::print;
use crate::print::Page;
use values::{Kind, Piece};

fn print_code(page: &mut Page, mark: &[u8], code: u32) {
    print::text(page, mark);
    print::hex_number(page, u64::from(code), 1);
    print::text(page, b"}");
}

// A character that is not printed as it is, by its bytes; one that is shown as a number, or a byte that begins none, by its code.
fn print_marked(page: &mut Page, bytes: &[u8], piece: Piece) {
    match piece.kind {
        Kind::Plain => print::text(page, bytes),
        Kind::Quoted => {
            print::text(page, b"\\");
            print::text(page, bytes);
        }
        Kind::Numbered => print_code(page, b"\\u{", piece.code),
        Kind::Broken => print_code(page, b"\\x{", piece.code),
    }
}

// All that is printed as it is from the start on, or else the character that stands there. Answers what is left.
fn print_first<'a>(page: &mut Page, text: &'a [u8]) -> &'a [u8]
    requires { 0 < length text.now }
    ensures { length result.now < length text.now }
{
    let plain = values::plain_run(text, 0);
    if 0 < plain {
        print::text(page, &text[..plain]);
        return &text[plain..];
    }
    let piece = values::piece_at(text, 0);
    print_marked(page, &text[..piece.length], piece);
    &text[piece.length..]
}

pub fn print_text(page: &mut Page, text: &[u8]) {
    let mut left = text;
    while !left.is_empty() {
        left = print_first(page, left);
    }
}

// Between quotes.
pub fn print_string(page: &mut Page, text: &[u8]) {
    print::text(page, b"\"");
    print_text(page, text);
    print::text(page, b"\"");
}
