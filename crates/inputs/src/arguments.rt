// The command's arguments. An option takes the argument behind it as its value, and the two may stand anywhere. The others are plain, and
// are counted with no regard to the options: the command's word is plain argument 1.
//
// `options` refuses an option whose value is missing or is an option. So an argument is plain if neither it nor the one before it is an
// option.
ghost use Rattle.std.specs.Prelude.{◌≡◌, ◌<◌, ◌≤◌, ◌-◌, true, length, IfSome};
ghost use Rattle.std.specs.Iterator.{at_most};

use crate::words;
use std::env::FillError;
use std::rt::Env;

// Whether there is an argument `i`.
pub fn is_there(rt: &HostRuntime, i: usize) -> bool
    ensures { result ≡ true → i < 18446744073709551615 }
{
    i < usize::MAX && !matches!(rt.arg(i, &mut []), Err(FillError::NotPresent))
}

// Argument `i`, in the room; of a longer one, as much as fits, and of one that is missing, nothing.
pub fn read<'a>(rt: &HostRuntime, i: usize, room: &'a mut [u8]) -> &'a [u8]
    ensures { length result.now ≤ length room.old }
{
    match rt.arg(i, room) {
        Ok(n) => &room[..n],
        Err(FillError::TooLong) => room,
        Err(FillError::NotPresent) => &[],
    }
}

// The same; of one that is longer than the room, nothing.
pub fn read_whole<'a>(rt: &HostRuntime, i: usize, room: &'a mut [u8]) -> &'a [u8]
    ensures { length result.now ≤ length room.old }
{
    match rt.arg(i, room) {
        Ok(n) => &room[..n],
        Err(_) => &[],
    }
}

// No word of the command has more letters.
pub fn is_word(rt: &HostRuntime, i: usize, word: &[u8]) -> bool {
    words::is_word(read_whole(rt, i, &mut [0; 16]), word)
}

fn has_hyphens(rt: &HostRuntime, i: usize) -> bool {
    words::is_option(read(rt, i, &mut [0; 2]))
}

// Two commands look like options.
fn is_command(rt: &HostRuntime, i: usize) -> bool {
    is_word(rt, i, b"--help") || is_word(rt, i, b"--version")
}

// The program's name is none, whatever it is.
pub fn is_option(rt: &HostRuntime, i: usize) -> bool {
    match i {
        0 => false,
        1 => has_hyphens(rt, 1) && !is_command(rt, 1),
        _ => has_hyphens(rt, i),
    }
}

fn is_plain(rt: &HostRuntime, i: usize) -> bool {
    i > 0 && !is_option(rt, i) && !is_option(rt, i - 1)
}

// Which arguments are plain, in their order.
#[derive(Drop)]
pub struct PlainIndices<'a> {
    rt: &'a HostRuntime,
    // The first that has not been looked at.
    next: usize,
}

impl<'a> PlainIndices<'a> {
    pub fn new(rt: &'a HostRuntime) -> PlainIndices<'a>
        ensures { result.next ≡ 1 }
    {
        PlainIndices { rt, next: 1 }
    }
}

impl Iterator for PlainIndices<'_> {
    type Item = usize;

    ghost next_gives = { λ s r t. IfSome r (λ i. (s.next ≤ i) × (i < t.next)) };

    ghost remaining = { λ s. at_most (18446744073709551615 - s.next) };

    fn next(&mut self) -> Option<usize> {
        while is_there(self.rt, self.next) {
            let i = self.next;
            self.next += 1;
            if is_plain(self.rt, i) {
                return Some(i);
            }
        }
        None
    }
}

// Which argument is plain argument `number`, counted from 1; where there are fewer, a place with no argument.
// No `Option`: whoever reads an argument answers for one that is missing, so that a second refusal here would only be carried along.
pub fn plain(rt: &HostRuntime, number: usize) -> usize {
    PlainIndices::new(rt)
        .nth(number.saturating_sub(1))
        .unwrap_or(usize::MAX)
}

// How many are plain: the number of the last one.
pub fn count_plain(rt: &HostRuntime) -> usize {
    PlainIndices::new(rt).count()
}

// Which argument is the value of this option, where it is given.
pub fn value_of(rt: &HostRuntime, option: &[u8]) -> Option<usize> {
    for i in 1..usize::MAX {
        if !is_there(rt, i) {
            break;
        }
        if is_word(rt, i, option) {
            return Some(i + 1);
        }
    }
    None
}

// Whether argument `i` is there as an option's value.
pub fn is_value(rt: &HostRuntime, i: usize) -> bool {
    is_there(rt, i) && !is_option(rt, i)
}
