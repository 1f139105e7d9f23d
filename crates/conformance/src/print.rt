// Answers as text.
use crate::room::adler32;
use codec::{Fault, Number};
use std::fmt;
use tape::Step;

const STDOUT_FILENO: i32 = 1;

pub fn text(text: &str) {
    io::write_all(STDOUT_FILENO, text.as_bytes());
}

pub fn line(line: &str) {
    text(line);
    text("\n");
}

// A fault's number and place, both 0 where nothing is refused.
#[derive(Clone, Copy)]
pub struct Verdict(pub Option<Fault>);

impl fmt::Display for Verdict {
    fn fmt<W: fmt::Write>(&self, f: &mut fmt::Formatter<W>) -> fmt::Result {
        match self.0 {
            None => f.write_str("0 0"),
            Some(Fault { number, place }) => write!(f, "{number} {place}"),
        }
    }
}

// What kind of number it is and its value, or that it is refused.
#[derive(Clone, Copy)]
pub struct Words(pub Option<Number>);

impl fmt::Display for Words {
    fn fmt<W: fmt::Write>(&self, f: &mut fmt::Formatter<W>) -> fmt::Result {
        match self.0 {
            None => f.write_str("refused"),
            Some(Number::Signed(x)) => write!(f, "signed {x}"),
            Some(Number::Unsigned(x)) => write!(f, "unsigned {x}"),
            Some(Number::Bool(x)) => write!(f, "bool {}", u8::from(x)),
            Some(Number::Decimal { exponent, mantissa }) => {
                write!(f, "decimal {exponent} {mantissa}")
            }
            Some(Number::Float(x)) => write_float(f, x),
            Some(Number::NanBits(bits)) => write!(f, "float {bits}"),
        }
    }
}

// A NaN is answered by its bits, so none comes here.
fn write_float<W: fmt::Write>(f: &mut fmt::Formatter<W>, x: f64) -> fmt::Result {
    if x.is_nan() {
        return Ok(());
    }
    write!(f, "float {}", x.to_bits())
}

// A step of a tape's reader: its answer, where it goes on, what it hands out, and the scratch.
#[derive(Clone, Copy)]
pub struct Answer<'a> {
    pub step: Step,
    pub part: &'a [u8],
    pub scratch: &'a [u8],
}

impl<'a> fmt::Display for Answer<'a> {
    fn fmt<W: fmt::Write>(&self, f: &mut fmt::Formatter<W>) -> fmt::Result {
        match self.step.answer {
            None => f.write_str("ended")?,
            Some(answer) => write!(f, "{}", Verdict(answer.err()))?,
        }
        let next = self.step.next;
        let length = self.part.len();
        write!(
            f,
            " {next} {length} {} {}",
            adler32(self.part),
            adler32(self.scratch)
        )
    }
}
