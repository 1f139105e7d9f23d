// Numbers, marks and bytes of a slice, and the UTF-8 test: what every walk of a message is made of.
//
// Nothing here knows of a schema. A function with a `requires` is no public question of the codec:
// its callers have shown that the bytes are there.
#![tactic(auto)]

ghost use Rattle.std.specs.Prelude.{◌≡◌, true, false, ℕ, ◌+◌, ◌<◌, ◌≤◌, ◌^◌, length, get_or, replicate, drop, MatchOption};
ghost use Rattle.std.specs.Float.Ieee.{of_bits, nan_bits};
ghost use Rattle.std.specs.Float.{binary64};
ghost use Rattle.wire.specs.Bytes.{part, splice, le, bytes_of, signed, pattern, same, all_zero, zeros};
ghost use Rattle.wire.specs.Utf8.{utf8, begins, lowest, highest};
ghost use Rattle.wire.specs.Scan.{Form, all_ascii, next};

// A byte, made wide. The bound stands in the contract so that callers' sums need no proof. The crates
// above use it too.
pub fn wide(x: u8) -> usize
    ensures { (result ≡ x) × (result < 256) }
{
    usize::from(x)
}

// The little-endian numbers of two, four and eight bytes at an index, each one load.

fn read<const N: usize>(s: &[u8], at: usize) -> u64
    requires { (N ≤ 8) × (at + N ≤ length s.now) }
    ensures { (result ≡ le (part N at s.now)) × (result < 256 ^ N) }
{
    let mut bytes = [0; 8];
    bytes[..N].copy_from_slice(&s[at..at + N]);
    u64::from_le_bytes(bytes)
}

pub fn read_u16(s: &[u8], at: usize) -> usize
    requires { at + 2 ≤ length s.now }
    ensures { (result ≡ le (part 2 at s.now)) × (result < 2 ^ 16) }
{
    read::<2>(s, at) as usize
}

pub fn read_u32(s: &[u8], at: usize) -> usize
    requires { at + 4 ≤ length s.now }
    ensures { (result ≡ le (part 4 at s.now)) × (result < 2 ^ 32) }
{
    read::<4>(s, at) as usize
}

pub fn read_u64(s: &[u8], at: usize) -> u64
    requires { at + 8 ≤ length s.now }
    ensures { result ≡ le (part 8 at s.now) }
{
    read::<8>(s, at)
}

// Their writers. What is above the width is cut off.

fn write<const N: usize>(out: &mut [u8], at: usize, value: u64)
    requires { (N ≤ 8) × (at + N ≤ length out.old) }
    ensures { out.new ≡ splice N at (bytes_of N value) out.old }
{
    let bytes = value.to_le_bytes();
    out[at..at + N].copy_from_slice(&bytes[..N]);
}

pub fn write_u16(out: &mut [u8], at: usize, value: usize)
    requires { at + 2 ≤ length out.old }
    ensures { out.new ≡ splice 2 at (bytes_of 2 value) out.old }
{
    write::<2>(out, at, value as u64);
}

pub fn write_u32(out: &mut [u8], at: usize, value: usize)
    requires { at + 4 ≤ length out.old }
    ensures { out.new ≡ splice 4 at (bytes_of 4 value) out.old }
{
    write::<4>(out, at, value as u64);
}

pub fn write_u64(out: &mut [u8], at: usize, value: u64)
    requires { at + 8 ≤ length out.old }
    ensures { out.new ≡ splice 8 at (bytes_of 8 value) out.old }
{
    write::<8>(out, at, value);
}

// Signed numbers from their bits, in two's complement.

pub fn i8_from_bits(bits: u8) -> i8
    ensures { result ≡ signed 7 bits }
{
    bits.cast_signed()
}

pub fn i16_from_bits(bits: u16) -> i16
    ensures { result ≡ signed 15 bits }
{
    bits.cast_signed()
}

pub fn i32_from_bits(bits: u32) -> i32
    ensures { result ≡ signed 31 bits }
{
    bits.cast_signed()
}

pub fn i64_from_bits(bits: u64) -> i64
    ensures { result ≡ signed 63 bits }
{
    bits.cast_signed()
}

// And back to its bits.
pub fn i64_to_bits(x: i64) -> u64
    ensures { result ≡ pattern 63 x }
{
    x.cast_unsigned()
}

// Whether the bits are those of a NaN: without their sign they are above an infinity's.
// `f64::from_bits` asks for bits that are no NaN's, so `is_nan` cannot tell.
pub fn is_nan_bits(bits: u64) -> bool
    ensures { result ≡ nan_bits binary64 bits }
{
    0x7ff0_0000_0000_0000 < bits & 0x7fff_ffff_ffff_ffff
}

// The float of its bits, exact but for a NaN's: the logic has one NaN, and every NaN's bits give it.
pub fn f64_from_bits(bits: u64) -> f64
    ensures { result ≡ of_bits binary64 bits }
{
    if is_nan_bits(bits) {
        f64::NAN
    } else {
        f64::from_bits(bits)
    }
}

// Two-byte marks.

// A byte at a time, so that what the first one says holds on: by `==` on arrays the check of a table's symbols takes half as
// many instructions more.
pub fn has_mark(s: &[u8], at: usize, mark: [u8; 2]) -> bool
    requires { at + 2 ≤ length s.now }
    ensures { result ≡ same (part 2 at s.now) mark }
{
    s[at] == mark[0] && s[at + 1] == mark[1]
}

pub fn write_mark(out: &mut [u8], at: usize, mark: [u8; 2])
    requires { at + 2 ≤ length out.old }
    ensures { out.new ≡ splice 2 at mark out.old }
{
    out[at..at + 2].copy_from_slice(&mark);
}

// Whether the n bytes from `at` on are zero. The loop has no early exit, as `all` has, so that it becomes vector code: `all`
// takes 18 times as long over 4 KiB.
pub fn all_zero(s: &[u8], at: usize, n: usize) -> bool
    requires { at + n ≤ length s.now }
    ensures { result ≡ all_zero (part n at s.now) }
{
    let mut zero = true;
    for b in &s[at..at + n] {
        zero &= *b == 0;
    }
    zero
}

// Whether the n bytes of `a` from `at` on are those of `b` from `from` on.
pub fn same(a: &[u8], at: usize, b: &[u8], from: usize, n: usize) -> bool
    requires { (at + n ≤ length a.now) × (from + n ≤ length b.now) }
    ensures { result ≡ same (part n at a.now) (part n from b.now) }
{
    &a[at..at + n] == &b[from..from + n]
}

// How many of the n bytes from `at` on are zero before the first that is not.
pub fn count_zeros(s: &[u8], at: usize, n: usize) -> usize
    requires { at + n ≤ length s.now }
    ensures { (result ≡ zeros (part n at s.now)) × (result ≤ n) }
{
    s[at..at + n].iter().position(|b| *b != 0).unwrap_or(n)
}

pub fn fill(out: &mut [u8], at: usize, n: usize, value: u8)
    requires { at + n ≤ length out.old }
    ensures { out.new ≡ splice n at (replicate n value) out.old }
{
    out[at..at + n].fill(value);
}

// COPIES

// The n bytes of `s` from `from` on go to `at`. Blocks are copied from the last to the first: mostly a check has just read
// all of them in order, and the last are still in the cache. `copy_from_slice` of as many bytes as are only known at run time
// would be a call of `memmove`, which whoever links the library would have to bring, and so would a loop that moves as much
// in a turn as it goes on. It is not inlined, so that the loops that copy values stay small.
#[inline(never)]
pub fn copy(out: &mut [u8], at: usize, s: &[u8], from: usize, n: usize)
    requires { (from + n ≤ length s.now) × (at + n ≤ length out.old) }
    ensures { out.new ≡ splice n at (part n from s.now) out.old }
{
    let mut left = n;
    while 64 <= left {
        left -= 64;
        copy_64(out, at + left, s, from + left);
    }
    copy_words(out, at, s, from, left);
}

fn copy_32(out: &mut [u8], at: usize, s: &[u8], from: usize)
    requires { (from + 32 ≤ length s.now) × (at + 32 ≤ length out.old) }
    ensures { out.new ≡ splice 32 at (part 32 from s.now) out.old }
{
    copy_bytes::<16>(out, at, s, from);
    copy_bytes::<16>(out, at + 16, s, from + 16);
}

fn copy_64(out: &mut [u8], at: usize, s: &[u8], from: usize)
    requires { (from + 64 ≤ length s.now) × (at + 64 ≤ length out.old) }
    ensures { out.new ≡ splice 64 at (part 64 from s.now) out.old }
{
    copy_32(out, at, s, from);
    copy_32(out, at + 32, s, from + 32);
}

// Two words at a time, and the last one.
fn copy_words(out: &mut [u8], at: usize, s: &[u8], from: usize, n: usize)
    requires { (from + n ≤ length s.now) × (at + n ≤ length out.old) }
    ensures { out.new ≡ splice n at (part n from s.now) out.old }
{
    let mut i = 0;
    while 16 <= n - i {
        copy_two(out, at + i, s, from + i);
        i += 16;
    }
    copy_word(out, at + i, s, from + i, n - i);
}

fn copy_two(out: &mut [u8], at: usize, s: &[u8], from: usize)
    requires { (from + 16 ≤ length s.now) × (at + 16 ≤ length out.old) }
    ensures { out.new ≡ splice 16 at (part 16 from s.now) out.old }
{
    copy_bytes::<8>(out, at, s, from);
    copy_bytes::<8>(out, at + 8, s, from + 8);
}

// Fewer than sixteen bytes.
fn copy_word(out: &mut [u8], at: usize, s: &[u8], from: usize, n: usize)
    requires { (n < 16) × (from + n ≤ length s.now) × (at + n ≤ length out.old) }
    ensures { out.new ≡ splice n at (part n from s.now) out.old }
{
    if n < 8 {
        copy_rest(out, at, s, from, n);
        return;
    }
    copy_bytes::<8>(out, at, s, from);
    copy_rest(out, at + 8, s, from + 8, n - 8);
}

// Fewer than eight bytes.
fn copy_rest(out: &mut [u8], at: usize, s: &[u8], from: usize, n: usize)
    requires { (n < 8) × (from + n ≤ length s.now) × (at + n ≤ length out.old) }
    ensures { out.new ≡ splice n at (part n from s.now) out.old }
{
    let mut i = 0;
    if 4 <= n {
        copy_bytes::<4>(out, at, s, from);
        i = 4;
    }
    if 2 <= n - i {
        copy_bytes::<2>(out, at + i, s, from + i);
        i += 2;
    }
    if i < n {
        out[at + i] = s[from + i];
    }
}

// The same of a value in place: most have the width of a number.
pub fn copy_value(out: &mut [u8], at: usize, s: &[u8], from: usize, n: usize)
    requires { (from + n ≤ length s.now) × (at + n ≤ length out.old) }
    ensures { out.new ≡ splice n at (part n from s.now) out.old }
{
    match n {
        8 => copy_bytes::<8>(out, at, s, from),
        4 => copy_bytes::<4>(out, at, s, from),
        2 => copy_bytes::<2>(out, at, s, from),
        1 => copy_bytes::<1>(out, at, s, from),
        _ => copy(out, at, s, from, n),
    }
}

// All are read before one is written, so that they are moved at once.
fn copy_bytes<const N: usize>(out: &mut [u8], at: usize, s: &[u8], from: usize)
    requires { (from + N ≤ length s.now) × (at + N ≤ length out.old) }
    ensures { out.new ≡ splice N at (part N from s.now) out.old }
{
    let mut bytes = [0; N];
    bytes.copy_from_slice(&s[from..from + N]);
    out[at..at + N].copy_from_slice(&bytes);
}

// UTF-8

// Whether a text is UTF-8. The scan goes form by form and stops at the first that is broken; it begins behind
// the blocks of ASCII that stand first, so that a long text of ASCII is hardly scanned.
pub fn is_utf8(text: &[u8]) -> bool
    ensures { result ≡ utf8 text.now }
{
    let rest = skip_ascii(text);
    let mut i = 0;
    // Document 01 asks for this form: a loop left by `break` with its answer.
    loop {
        if rest.len() <= i {
            break true;
        }
        let Some(n) = form_width(rest, i) else {
            break false;
        };
        i += n;
    }
}

// The bytes that are tested for ASCII at a time where a text begins. A shorter text is scanned at once.
const BLOCK: usize = 128;

// What stands behind the blocks of ASCII that stand first.
fn skip_ascii(text: &[u8]) -> &[u8]
    ensures { utf8 text.now ≡ utf8 result.now }
{
    let mut rest = text;
    while let Some((block, behind)) = rest.split_first_chunk::<BLOCK>() {
        if !all_ascii(block) {
            break;
        }
        rest = behind;
    }
    rest
}

// Whether all are ASCII. The loop has no early exit, so that it becomes vector code: `is_ascii` takes four to six times as long.
fn all_ascii(s: &[u8]) -> bool
    ensures { result ≡ all_ascii s.now }
{
    let mut ascii = true;
    for b in s {
        ascii &= *b < 0x80;
    }
    ascii
}

// The width of the form at `at`, unless it is broken. A run of ASCII counts as one form.
fn form_width(s: &[u8], at: usize) -> Option<usize>
    requires { at < length s.now }
    ensures { MatchOption result (utf8 (drop at s.now) ≡ false) (Form s.now at) }
{
    ascii_width(s, at).or_else(|| multibyte_width(s, at))
}

// The same where no ASCII stands.
fn multibyte_width(s: &[u8], at: usize) -> Option<usize>
    requires { (at < length s.now) × (0x80 ≤ get_or s.now at 0) }
    ensures { MatchOption result (utf8 (drop at s.now) ≡ false) (Form s.now at) }
{
    let b = s[at];
    if !begins(b) {
        return None;
    }
    if !continues(s, at + 1, lowest(b), highest(b)) {
        return None;
    }
    if b < 0xe0 {
        return Some(2);
    }
    if !continues(s, at + 2, 0x80, 0xbf) {
        return None;
    }
    if b < 0xf0 {
        return Some(3);
    }
    if !continues(s, at + 3, 0x80, 0xbf) {
        return None;
    }
    Some(4)
}

// How many bytes of ASCII stand at `at`, as far as one look tells: 32, eight, one or none.
fn ascii_width(s: &[u8], at: usize) -> Option<usize>
    requires { at < length s.now }
    ensures { MatchOption result (0x80 ≤ get_or s.now at 0) (Form s.now at) }
{
    if 0x80 <= s[at] {
        return None;
    }
    if s.len() - at < 8 {
        return Some(1);
    }
    if !has_eight(s, at) {
        return Some(1);
    }
    if s.len() - at < 32 {
        return Some(8);
    }
    if has_eight(s, at + 8) & has_eight(s, at + 16) & has_eight(s, at + 24) {
        return Some(32);
    }
    Some(8)
}

// Whether the eight bytes from `at` on are ASCII: none has its high bit.
fn has_eight(s: &[u8], at: usize) -> bool
    requires { (at + 8 ≤ length s.now) × ((i : ℕ) → get_or s.now i 0 < 256) }
    ensures { result ≡ true → Form s.now at 8 }
{
    read_u64(s, at) & 0x8080_8080_8080_8080 == 0
}

// Whether a byte stands at `at`, and between two bounds.
fn continues(s: &[u8], at: usize, low: u8, high: u8) -> bool
    ensures { result ≡ next s.now at low high }
{
    s.get(at).is_some_and(|b| low <= *b && *b <= high)
}

#[tactic(auto, unfolding(crate::specs::Utf8::begins))]
fn begins(b: u8) -> bool
    ensures { result ≡ begins b }
{
    b < 0x80 || 0xc2 <= b && b <= 0xf4
}

#[tactic(auto, unfolding(crate::specs::Utf8::lowest))]
fn lowest(b: u8) -> u8
    ensures { result ≡ lowest b }
{
    match b {
        0xe0 => 0xa0,
        0xf0 => 0x90,
        _ => 0x80,
    }
}

#[tactic(auto, unfolding(crate::specs::Utf8::highest))]
fn highest(b: u8) -> u8
    ensures { result ≡ highest b }
{
    match b {
        0xf4 => 0x8f,
        _ => 0xbf,
    }
}
