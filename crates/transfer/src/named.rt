// Arguments that are named to the user.
ghost use Rattle.std.specs.Io.{WritesAtMost};

use inputs::{arguments, complaints};
use std::env::FillError;
use std::io::Error;
use std::rt::Env;

// What the system says of an argument that is missing, and of a name that is too long.

const INVALID: i32 = 22;

const TOO_LONG: i32 = 36;

// Argument `i` as a file's name, whole, at the start of the room.
pub fn name(rt: &HostRuntime, i: usize, room: &mut [u8]) -> Result<usize, Error>
    ensures { WritesAtMost result room.new }
{
    match rt.arg(i, room) {
        Ok(n) => Ok(n),
        Err(FillError::NotPresent) => Err(Error::from_raw_os_error(INVALID)),
        Err(FillError::TooLong) => Err(Error::from_raw_os_error(TOO_LONG)),
    }
}

// Says of argument `i`, as it was written, what is wrong with it.
pub fn complain_of(rt: &HostRuntime, i: usize, reason: &[u8]) {
    complaints::complain(arguments::read(rt, i, &mut io::buffer()), reason);
}

// Says of the file that argument `i` names that it has more bytes than these.
pub fn complain_long(rt: &HostRuntime, i: usize, most: usize) {
    let mut digits = [0u8; 20];
    let k = io::decimal(most as u64, &mut digits);
    complaints::complain_long(arguments::read(rt, i, &mut io::buffer()), &digits[..k]);
}
