// Arguments that are numbers.
ghost use Rattle.std.specs.Prelude.{◌≡◌};
ghost use Rattle.inputs.specs.Numbers.{decimal_of, short_of};

use crate::complaints::Complained;
use crate::{arguments, complaints};

// Argument `i` as a decimal number.
pub fn decimal(rt: &HostRuntime, i: usize) -> Option<usize> {
    decimal_of(arguments::read_whole(rt, i, &mut io::buffer()))
}

fn decimal_of(digits: &[u8]) -> Option<usize>
    ensures { result ≡ decimal_of digits.now }
{
    let Ok(text) = str::from_utf8(digits) else {
        return None;
    };
    // `parse` takes a sign too.
    if digits.starts_with(b"+") {
        return None;
    }
    text.parse().ok()
}

// A number of at most 65535.
#[tactic(auto, unfolding(crate::specs::Numbers::short_of))]
pub fn short_of(n: Option<usize>) -> Option<u16>
    ensures { result ≡ short_of n }
{
    u16::try_from(n?).ok()
}

// WHERE AN ARGUMENT IS NO SUCH NUMBER
// Standard error says so, by the argument's name in the help and the reason.

pub fn complain(rt: &HostRuntime, i: usize, name: &[u8], reason: &[u8]) -> Complained {
    complaints::complain_value(name, arguments::read(rt, i, &mut io::buffer()), reason)
}

pub fn number(rt: &HostRuntime, i: usize, name: &[u8]) -> Result<usize, Complained> {
    decimal(rt, i).ok_or_else(|| {
        complain(
            rt,
            i,
            name,
            b"is not a number from 0 to 18446744073709551615",
        )
    })
}

pub fn short(rt: &HostRuntime, i: usize, name: &[u8]) -> Result<u16, Complained> {
    short_of(decimal(rt, i)).ok_or_else(|| complain(
        rt,
        i,
        name,
        b"is not a number from 0 to 65535",
    ))
}
