// The shortest decimal of a float, by long division (Steele and White). The float is r / s, the
// numbers that round to it reach from r - m to r + plus * m over s, and the digits of r / s are
// made one by one until the decimal so far, or the next one up, is among them. Where a number
// outgrows its room, there is none, and the answer is 0.
ghost use Rattle.std.specs.Prelude.{◌≡◌, ◌+◌, ◌*◌, ◌<◌, ◌≤◌, ◌^◌, length, IfSome, OnSome};
ghost use Rattle.floats.specs.Limbs.{value, up_to};
ghost use Rattle.floats.specs.Shortest.{NextDigit, Settled};

use crate::limbs::{below, mix, subtract, times};

// A decimal: digits * 10 ^ (scale - 400).
#[derive(Clone, Copy, Default)]
pub struct Decimal {
    pub digits: u64,
    pub scale: usize,
}

// The digits after the point, and how many.
#[derive(Clone, Copy)]
struct Found {
    digits: u64,
    places: usize,
}

// What rounds to a float: whether the ends do, and how much further up than down.
#[derive(Clone, Copy)]
struct Gap {
    closed: bool,
    plus: u32,
}

// The exponent of a float's lowest bit, counted from that of the least float, 2 ^ -1074.
fn power(field: usize) -> usize
    ensures { result ≤ field }
{
    field.saturating_sub(1)
}

// 400 + the least number of digits before the point that a float may have: the logarithm of its
// highest bit, 78913 / 2 ^ 18 being that of 2.
fn least_scale(field: usize) -> usize
    requires { field < 2048 }
    ensures { (77 ≤ result) × (result < 710) }
{
    if field == 0 {
        77
    } else {
        (78913 * field + 24129601) / 262144 + 1
    }
}

// How many limbs the numbers of a float need.
fn limbs(power: usize) -> usize
    requires { power < 2048 }
    ensures { (4 ≤ result) × (result ≤ 40) }
{
    power.abs_diff(1074) / 32 + 4
}

fn within(a: &[u32], b: &[u32], closed: bool) -> bool
    requires { length b.now ≡ length a.now }
    ensures { result ≡ up_to closed (value a.now) (value b.now) }
{
    if closed { !below(b, a) } else { below(a, b) }
}

// Whether r + plus * m reaches s.
fn reaches(r: &[u32], s: &[u32], m: &[u32], t: &mut [u32], gap: Gap) -> bool
    requires { (length s.now ≡ length r.now) × (length m.now ≡ length r.now) × (length t.old ≡ length r.now) }
    ensures { result ≡ up_to gap.closed (value s.now) (value r.now + gap.plus * value m.now) }
{
    let over = mix(t, r, m, gap.plus);
    over != 0 || within(s, t, gap.closed)
}

// r = the rest of r / s. Answers the quotient, where it is a digit.
fn divide(r: &mut [u32], s: &[u32]) -> Option<u64>
    requires { length s.now ≡ length r.old }
    ensures { IfSome result (λ d. (d < 10) × (value r.old ≡ d * value s.now + value r.new) × (value r.new < value s.now)) }
{
    for digit in 0..10 {
        if below(r, s) {
            return Some(digit);
        }
        subtract(r, s);
    }
    None
}

// a = k * a, or nothing where that goes over.
fn grow(a: &mut [u32], k: u32) -> Option<()>
    ensures { OnSome result (value a.new ≡ k * value a.old) }
{
    (times(a, k) == 0).then_some(())
}

// The next digit of r / s.
fn next(r: &mut [u32], s: &[u32], m: &mut [u32]) -> Option<u64>
    requires { (length s.now ≡ length r.old) × (length m.old ≡ length r.old) }
    ensures { IfSome result (λ d. (d < 10) × NextDigit (value r.old) (value s.now) (value m.old) d (value r.new) (value m.new)) }
{
    grow(r, 10)?;
    grow(m, 10)?;
    divide(r, s)
}

// The digits of r / s so far, or one more: where both are among the numbers that round to the
// float, the nearer one, and half way between them the even one.
fn rounded(r: &[u32], s: &[u32], t: &mut [u32], low: bool, digits: u64) -> u64
    requires { (length s.now ≡ length r.now) × (length t.old ≡ length r.now) × (digits < 10 ^ 17) }
{
    let half = Gap {
        closed: digits % 2 == 1,
        plus: 1,
    };
    if low && !reaches(r, s, r, t, half) {
        digits
    } else {
        digits + 1
    }
}

// The digits after the point of r / s, which is below 1.
fn generate(r: &mut [u32], s: &[u32], m: &mut [u32], t: &mut [u32], gap: Gap) -> Option<Found>
    requires { (length s.now ≡ length r.old) × (length m.old ≡ length r.old) × (length t.old ≡ length r.old) }
    ensures { IfSome result (λ f. f.places ≤ 17) }
{
    let mut digits = 0;
    for places in 1..18 {
        digits = 10 * digits + next(r, s, m)?;
        let low = within(r, m, gap.closed);
        if reaches(r, s, m, t, gap) {
            let digits = rounded(r, s, t, low, digits);
            return Some(Found { digits, places });
        }
        if low {
            return Some(Found { digits, places });
        }
    }
    None
}

// s times ten until r + plus * m stays below it. Answers the scale, counted on from the least.
fn settle(
    r: &[u32],
    s: &mut [u32],
    m: &[u32],
    t: &mut [u32],
    gap: Gap,
    least: usize,
) -> Option<usize>
    requires { (length s.old ≡ length r.now) × (length m.now ≡ length r.now) × (length t.old ≡ length r.now) }
    ensures { IfSome result (λ k. (k < 800) × Settled gap.closed gap.plus (value r.now) (value s.old) (value m.now) (value s.new) least k) }
{
    for scale in least..800 {
        if !reaches(r, s, m, t, gap) {
            return Some(scale);
        }
        grow(s, 10)?;
    }
    None
}

// a = base ^ n * a.
fn raise(a: &mut [u32], base: u32, n: usize) -> Option<()>
    ensures { OnSome result (value a.new ≡ base ^ n * value a.old) }
{
    for _ in 0..n {
        grow(a, base)?;
    }
    Some(())
}

fn tens(a: &mut [u32], n: usize) -> Option<()> {
    raise(a, 1000000000, n / 9)?;
    raise(a, 10, n % 9)
}

fn twos(a: &mut [u32], n: usize) -> Option<()> {
    raise(a, 1073741824, n / 30)?;
    raise(a, 2, n % 30)
}

// A number below 2 ^ 64 in a room of zeros.
fn put(a: &mut [u32], n: u64)
    requires { 2 ≤ length a.old }
    ensures { value a.old ≡ 0 → value a.new ≡ n }
{
    a[0] = (n % 4294967296) as u32;
    a[1] = (n / 4294967296) as u32;
}

// r / s = top / bottom * 2 ^ (power - 1074), and m, in rooms of zeros.
fn load(
    r: &mut [u32],
    s: &mut [u32],
    m: &mut [u32],
    top: u64,
    bottom: u64,
    power: usize,
) -> Option<()>
    requires { (2 ≤ length r.old) × (2 ≤ length s.old) × (2 ≤ length m.old) }
{
    put(r, top);
    put(s, bottom);
    put(m, 1);
    if power < 1074 {
        return twos(s, 1074 - power);
    }
    twos(r, power - 1074)?;
    twos(m, power - 1074)
}

// r / s divided by 10 ^ (scale - 400).
fn scaled(r: &mut [u32], s: &mut [u32], m: &mut [u32], scale: usize) -> Option<()> {
    if 400 < scale {
        return tens(s, scale - 400);
    }
    tens(r, 400 - scale)?;
    tens(m, 400 - scale)
}

// The decimal of r / s * 10 ^ (scale - 400).
fn finish(
    r: &mut [u32],
    s: &mut [u32],
    m: &mut [u32],
    t: &mut [u32],
    gap: Gap,
    least: usize,
) -> Option<Decimal>
    requires { (length s.old ≡ length r.old) × (length m.old ≡ length r.old) × (length t.old ≡ length r.old) }
    ensures { IfSome result (λ d. d.scale < 800) }
{
    let scale = settle(r, s, m, t, gap, least)?;
    let found = generate(r, s, m, t, gap)?;
    Some(Decimal {
        digits: found.digits,
        scale: scale.checked_sub(found.places)?,
    })
}

// A float that is not 0, top / bottom in units of its lowest bit, in four rooms of zeros.
fn solve(
    r: &mut [u32],
    s: &mut [u32],
    m: &mut [u32],
    t: &mut [u32],
    top: u64,
    bottom: u64,
    field: usize,
    gap: Gap,
) -> Option<Decimal>
    requires { (length s.old ≡ length r.old) × (length m.old ≡ length r.old) × (length t.old ≡ length r.old) × (2 ≤ length r.old) × (field < 2048) }
    ensures { IfSome result (λ d. d.scale < 800) }
{
    let least = least_scale(field);
    load(r, s, m, top, bottom, power(field))?;
    scaled(r, s, m, least)?;
    finish(r, s, m, t, gap, least)
}

// The whole number whose bits these are, in units of its lowest bit.
fn mantissa(field: usize, fraction: u64) -> u64
    requires { fraction < 4503599627370496 }
    ensures { result < 9007199254740992 }
{
    if field == 0 {
        fraction
    } else {
        fraction + 4503599627370496
    }
}

// The decimal of a float that is finite, not 0 and has no sign. Below a power of two the floats lie
// twice as close.
fn decimal_of(bits: u64) -> Option<Decimal>
    ensures { IfSome result (λ d. d.scale < 800) }
{
    let field = (bits / 4503599627370496 % 2048) as usize;
    let fraction = bits % 4503599627370496;
    let n = mantissa(field, fraction);
    let k = limbs(power(field));
    let mut r = [0; 40];
    let mut s = [0; 40];
    let mut m = [0; 40];
    let mut t = [0; 40];
    let plus = if fraction == 0 && 1 < field { 2 } else { 1 };
    let unit = 2 * u64::from(plus);
    let gap = Gap {
        closed: n % 2 == 0,
        plus,
    };
    solve(
        &mut r[..k],
        &mut s[..k],
        &mut m[..k],
        &mut t[..k],
        unit * n,
        unit,
        field,
        gap,
    )
}

// The shortest decimal that reads back as the float of these bits, which is finite, not 0 and has
// no sign.
pub fn shortest(bits: u64) -> Decimal
    ensures { result.scale < 800 }
{
    decimal_of(bits).unwrap_or_default()
}
