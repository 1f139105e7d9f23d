// Digits and marks, put into the room for a text. Each function answers where the next goes.
// The room and the place in it are no struct: `Wrote` of specs/ states them apart, and the callers' rooms are `[u8; 48]`.
ghost use Rattle.std.specs.Prelude.{◌≡◌, [], ◌∷◌, ◌+◌, ◌*◌, ◌<◌, ◌≤◌, ◌^◌, length};
ghost use Rattle.io.specs.Digits.{last_digits as Digits·digits};
ghost use Rattle.values.specs.Spelling.{Wrote, places};

pub fn mark(out: &mut [u8], at: usize, byte: u8) -> usize
    requires { at < length out.old }
    ensures { Wrote out.old out.new at 1 (byte ∷ []) result }
{
    out[at] = byte;
    at + 1
}

// The last k digits of n.
pub fn digits(out: &mut [u8], at: usize, k: usize, n: u64) -> usize
    requires { at + k ≤ length out.old }
    ensures { Wrote out.old out.new at k (Digits·digits 10 k n) result }
{
    let mut rest = n;
    for i in (0..k).rev() {
        out[at + i] = b'0' + (rest % 10) as u8;
        rest /= 10;
    }
    at + k
}

// How many digits n has, or `least` where that is more.
fn places(n: u64, least: usize) -> usize
    requires { (0 < least) × (least ≤ 20) }
    ensures { (result ≡ places least n) × (result ≤ 20) }
{
    let count = n.max(1).ilog10() as usize + 1;
    count.max(least)
}

// n with zeros in front up to `least` digits.
pub fn padded(out: &mut [u8], at: usize, least: usize, n: u64) -> usize
    requires { (at + places least n ≤ length out.old) × (0 < least) × (least ≤ 20) }
    ensures { Wrote out.old out.new at (places least n) (Digits·digits 10 (places least n) n) result }
{
    digits(out, at, places(n, least), n)
}
