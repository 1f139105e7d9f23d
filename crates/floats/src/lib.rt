// An f64 as text: the shortest decimal that reads back as the same f64, the nearest of these, as
// Python's `repr` has it. Whole numbers have no point, and an exponent has no `+` and no leading zero.
#![tactic(auto)]

ghost use Rattle.std.specs.Prelude.{◌≡◌, ◌+◌, ◌<◌, ◌≤◌, length};
ghost use Rattle.io.specs.Counts.{IsPrefixLen};

use shortest::shortest;

mod limbs;
mod shortest;

// Room for the longest text: a sign, 17 digits, a point and an exponent.
pub type Text = [u8; 32];

// A text as it is written.
#[derive(Drop)]
struct Buffer {
    bytes: Text,
    len: usize,
    ghost inside: { len ≤ length bytes },
}

impl Buffer {
    // One byte more, where there is room.
    fn push(&mut self, byte: u8) {
        if self.len < self.bytes.len() {
            self.bytes[self.len] = byte;
            self.len += 1;
        }
    }

    fn extend(&mut self, bytes: &[u8]) {
        for byte in bytes {
            self.push(*byte);
        }
    }

    fn zeros(&mut self, n: usize) {
        for _ in 0..n {
            self.push(b'0');
        }
    }

    fn sign(&mut self, minus: bool) {
        if minus {
            self.push(b'-');
        }
    }

    // A point and the digits after it, where there are any.
    fn fraction(&mut self, digits: &[u8]) {
        if !digits.is_empty() {
            self.push(b'.');
            self.extend(digits);
        }
    }

    // Digits with the point where its place, less 400, has it.
    fn positional(&mut self, digits: &[u8], point: usize) {
        if point <= 400 {
            self.extend(b"0.");
            self.zeros(400 - point);
            self.extend(digits);
            return;
        }
        let whole = point - 400;
        let (front, back) = digits.split_at(whole.min(digits.len()));
        self.extend(front);
        self.zeros(whole - front.len());
        self.fraction(back);
    }

    // The exponent says how far the first digit, which stands before the point, is from there.
    fn scientific(&mut self, digits: &[u8], point: usize) {
        let Some((first, others)) = digits.split_first() else {
            return;
        };
        self.push(*first);
        self.fraction(others);
        self.push(b'e');
        self.sign(point <= 400);
        let mut exponent = [0; 20];
        let n = io::decimal(point.abs_diff(401) as u64, &mut exponent);
        self.extend(&exponent[..n]);
    }

    fn decimal(&mut self, digits: &[u8], scale: usize)
        requires { scale < 800 }
    {
        let point = scale + digits.len();
        if 396 < point && point <= 416 {
            self.positional(digits, point);
        } else {
            self.scientific(digits, point);
        }
    }

    // A float that is finite and not 0, without its sign.
    fn finite(&mut self, bits: u64) {
        let shown = shortest(bits);
        let mut digits = [0; 20];
        let n = io::decimal(shown.digits, &mut digits);
        self.decimal(&digits[..n], shown.scale);
    }

    fn float(&mut self, bits: u64) {
        let size = bits % 0x8000_0000_0000_0000;
        if 0x7ff0_0000_0000_0000 < size {
            self.extend(b"nan");
            return;
        }
        self.sign(size < bits);
        match size {
            0 => self.push(b'0'),
            0x7ff0_0000_0000_0000 => self.extend(b"inf"),
            _ => self.finite(size),
        }
    }
}

// Puts the text of the f64 with these bits at the start of out, and answers its length.
pub fn text(bits: u64, out: &mut Text) -> usize
    ensures { IsPrefixLen result out.new }
{
    let mut buffer = Buffer {
        bytes: *out,
        len: 0,
    };
    buffer.float(bits);
    *out = buffer.bytes;
    buffer.len
}
