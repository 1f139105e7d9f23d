// What stands in a text, character by character, for a reader who must not be misled.
ghost use Rattle.std.specs.Prelude.{◌≡◌, ◌+◌, ◌<◌, ◌≤◌, max, length, get_or};
ghost use Rattle.values.specs.Characters.{is_shown, kind_of, follows, two, three, four, is_two, is_three, is_four, whole, piece_of, piece_at, Stays, plain_run};

// How a character is printed.
#[derive(Clone, Copy)]
pub enum Kind {
    // As it is.
    Plain,
    // With a backslash before it.
    Quoted,
    // As its number: it can not be seen, or changes how others look.
    Numbered,
    // A byte that begins no character, as its number.
    Broken,
}

// The `length` bytes of a text that are a character, with its code point, or one broken byte. Behind the text's end the
// length is 0, and no `None`: `piece_at` and `plain_from` of specs/ state it so.
#[derive(Clone, Copy)]
pub struct Piece {
    pub length: usize,
    pub code: u32,
    pub kind: Kind,
}

// Whether a byte goes on with a character.
#[tactic(auto, unfolding(crate::specs::Characters::follows))]
fn follows(c: u32) -> bool
    ensures { result ≡ follows c }
{
    (0x80..0xc0).contains(&c)
}

// Their codes: six bits of each byte that follows.

#[tactic(auto, unfolding(crate::specs::Characters::two))]
fn two(b: u32, c: u32) -> u32
    ensures { result ≡ two b c }
{
    64 * (b % 32) + c % 64
}

#[tactic(auto, unfolding(crate::specs::Characters::three))]
fn three(b: u32, c: u32, d: u32) -> u32
    ensures { result ≡ three b c d }
{
    4096 * (b % 16) + 64 * (c % 64) + d % 64
}

#[tactic(auto, unfolding(crate::specs::Characters::four))]
fn four(b: u32, c: u32, d: u32, e: u32) -> u32
    ensures { result ≡ four b c d e }
{
    262144 * (b % 8) + 4096 * (c % 64) + 64 * (d % 64) + e % 64
}

// Whether bytes are a character of two, three or four bytes: one with a code that fewer bytes have is none.

#[tactic(auto, unfolding(crate::specs::Characters::is_two))]
fn is_two(b: u32, c: u32) -> bool
    ensures { result ≡ is_two b c }
{
    (0xc2..0xe0).contains(&b) && follows(c)
}

#[tactic(auto, unfolding(crate::specs::Characters::is_three))]
fn is_three(b: u32, c: u32, d: u32) -> bool
    ensures { result ≡ is_three b c d }
{
    (0xe0..0xf0).contains(&b) && follows(c) && follows(d) && 0x800 <= three(b, c, d)
}

#[tactic(auto, unfolding(crate::specs::Characters::is_four))]
fn is_four(b: u32, c: u32, d: u32, e: u32) -> bool
    ensures { result ≡ is_four b c d e }
{
    (0xf0..0xf8).contains(&b)
        && follows(c)
        && follows(d)
        && follows(e)
        && (0x10000..=0x10ffff).contains(&four(b, c, d, e))
}

// Whether a character is shown as its number.
#[tactic(auto, unfolding(crate::specs::Characters::is_shown, crate::specs::Characters::shown, crate::specs::Characters::is_in, crate::specs::Characters::has))]
fn is_shown(n: u32) -> bool
    ensures { result ≡ is_shown n }
{
    matches!(
        n,
        0..=0x1f
            | 0x7f..=0x9f
            | 0xad
            | 0x61c
            | 0x180e
            | 0x200b..=0x200f
            | 0x2028..=0x202e
            | 0x2060..=0x206f
            | 0xd800..=0xdfff
            | 0xfeff
            | 0xfff9..=0xfffb
            | 0xe0000..=0xe007f
    )
}

#[tactic(auto, unfolding(crate::specs::Characters::kind_of))]
fn kind_of(code: u32) -> Kind
    ensures { result ≡ kind_of code }
{
    match code {
        0x22 | 0x5c => Kind::Quoted,
        _ if is_shown(code) => Kind::Numbered,
        _ => Kind::Plain,
    }
}

#[tactic(auto, unfolding(crate::specs::Characters::whole))]
fn whole(length: usize, code: u32) -> Piece
    ensures { result ≡ whole length code }
{
    Piece {
        length,
        code,
        kind: kind_of(code),
    }
}

// What begins with the byte b, with the three that follow it.
#[tactic(auto, unfolding(crate::specs::Characters::piece_of))]
fn piece_of(b: u32, c: u32, d: u32, e: u32) -> Piece
    ensures { result ≡ piece_of b c d e }
{
    if b < 0x80 {
        return whole(1, b);
    }
    if is_two(b, c) {
        return whole(2, two(b, c));
    }
    if is_three(b, c, d) {
        return whole(3, three(b, c, d));
    }
    if is_four(b, c, d, e) {
        return whole(4, four(b, c, d, e));
    }
    Piece {
        length: 1,
        code: b,
        kind: Kind::Broken,
    }
}

// A byte of a text, or 0 behind the text's end: a 0 goes on with nothing.
fn byte_at(text: &[u8], at: usize) -> u32
    ensures { result ≡ get_or text.now at 0 }
{
    text.get(at).copied().map_or(0, u32::from)
}

// What stands at `at`. Nothing stands behind the text's end.
pub fn piece_at(text: &[u8], at: usize) -> Piece
    ensures value { result ≡ piece_at text.now at }
    ensures stays { Stays text.now at result.length }
{
    if text.len() <= at {
        return Piece {
            length: 0,
            code: 0,
            kind: Kind::Broken,
        };
    }
    let rest = &text[at..];
    piece_of(
        byte_at(rest, 0),
        byte_at(rest, 1),
        byte_at(rest, 2),
        byte_at(rest, 3),
    )
}

// How many bytes from `at` on are characters that are printed as they are.
pub fn plain_run(text: &[u8], at: usize) -> usize
    ensures value { result ≡ plain_run text.now at }
    ensures result_bound { at + result ≤ max at (length text.now) }
{
    let mut end = at;
    while let Piece {
        length,
        kind: Kind::Plain,
        ..
    } = piece_at(text, end)
    {
        end += length;
    }
    end - at
}
