// Names of files, as bytes.
ghost use Rattle.std.specs.Prelude.{◌≡◌, ◌≢◌, ℕ, ◌<◌, ◌≤◌, ◌++◌, EachIndex, IfOk, IfSome, IsNone, length, slice_index, take};
ghost use Rattle.std.specs.Fmt.{decimal};
ghost use Rattle.io.specs.Counts.{IsPrefixLen};
ghost use Rattle.files.specs.Paths.{Ended, is_dash, is_path, ended_of, directory_in, is_rooted, start_of, joined, fitting, short_name};

use std::alloc::{AllocError, Global};
use std::io::Error;

const PATH_MAX: usize = 4096;

const LAST: usize = PATH_MAX - 1;

const SLASH: u8 = b'/';

// Whether a name stands for standard input or output.
pub fn is_dash(name: &[u8]) -> bool
    ensures { result ≡ is_dash name.now }
{
    name.len() == 1 && name[0] == b'-'
}

// Whether C can be handed all of a name.
pub fn is_path(name: &[u8]) -> bool
    ensures { result ≡ is_path name.now }
{
    name.len() < PATH_MAX && !name.contains(&0)
}

// What the system says of too long a name, and of bytes that are no text.

const TOO_LONG: i32 = 36;

const NO_TEXT: i32 = 84;

// A name as the library takes it. One that is not UTF-8 cannot be asked for.
pub fn text(name: &[u8]) -> Result<&str, Error> {
    if PATH_MAX <= name.len() {
        return Err(Error::from_raw_os_error(TOO_LONG));
    }
    std::str::from_utf8(name).map_err(|_| no_text())
}

pub fn no_text() -> Error {
    Error::from_raw_os_error(NO_TEXT)
}

// As much of a name as leaves room for a 0, and then zeros.
pub fn ended(name: &[u8]) -> [u8; PATH_MAX]
    ensures value { result ≡ ended_of name.now }
    ensures ended { Ended result }
{
    let n = name.len().min(LAST);
    let mut path = [0u8; PATH_MAX];
    path[..n].copy_from_slice(&name[..n]);
    path
}

// Where the last slash of a name is.
fn last_slash(name: &[u8]) -> Option<usize>
    ensures none { IsNone result → EachIndex name.now (λ k. slice_index name.now k ≢ 47) }
    ensures slash { IfSome result (λ i. slice_index name.now i ≡ 47) }
    ensures last { IfSome result (λ i. (k : ℕ) → i < k → k < length name.now → slice_index name.now k ≢ 47) }
    ensures within { IfSome result (λ i. i < length name.now) }
{
    name.iter().rposition(|b| *b == SLASH)
}

// How many bytes of a name are its directory, with the slash at its end. `Path::parent` would leave out a slash that the name has twice
// or at its end.
pub fn directory(name: &[u8]) -> usize
    ensures { (result ≡ directory_in name.now (length name.now)) × (result ≤ length name.now) }
{
    match last_slash(name) {
        Some(i) => i + 1,
        None => 0,
    }
}

fn is_rooted(name: &[u8]) -> bool
    ensures { result ≡ is_rooted name.now }
{
    matches!(name, [SLASH, ..])
}

// Where a target goes in the name that it is seen from: to the start where it counts from the root, else behind the directory.
fn start(name: &[u8], target: &[u8]) -> usize
    ensures { (result ≡ start_of name.now target.now) × (result ≤ length name.now) }
{
    if is_rooted(target) {
        return 0;
    }
    directory(name)
}

// The name of a target that is seen from this one, as the text of a link is, or the name of a file beside it.
pub fn joined_path(alloc: Global, name: &[u8], target: &[u8]) -> Result<Vec<u8>, AllocError>
    ensures { IfOk result (λ path. path.items ≡ joined name.now target.now) }
{
    let at = start(name, target);
    let mut path = name[..at].to_vec(alloc)?;
    path.extend_from_slice(target)?;
    Ok(path)
}

// The name of a new file, of the process's number and a letter.
pub fn new_name(alloc: Global, process: u32, letter: u8) -> Result<Vec<u8>, AllocError>
    ensures { IfOk result (λ name. name.items ≡ short_name (decimal process) letter) }
{
    let mut name = format!(in alloc; ".blink-{process}")?.into_bytes();
    name.push(letter)?;
    name.extend_from_slice(b".new")?;
    Ok(name)
}

// IN A LENT ROOM

// These are public and cannot fail, so they stay, and those above that allocate stand beside them.

// The room's first n bytes and the text behind them. Where it does not fit, the whole room is taken for it, and a room of 4096 bytes is
// then refused as too long a name.
pub fn append(room: &mut [u8], n: usize, text: &[u8]) -> usize
    requires { n ≤ length room.old }
    ensures { (take result room.new ≡ fitting (take n room.old ++ text.now) room.old) × (IsPrefixLen result room.new) }
{
    if room.len() - n < text.len() {
        return room.len();
    }
    room[n..n + text.len()].copy_from_slice(text);
    n + text.len()
}

// The name of n bytes becomes that of a target which is seen from it, as the text of a link is, or the name of a file beside it.
pub fn join(room: &mut [u8], n: usize, target: &[u8]) -> usize
    requires { n ≤ length room.old }
    ensures { (take result room.new ≡ fitting (joined (take n room.old) target.now) room.old) × (IsPrefixLen result room.new) }
{
    let at = start(&room[..n], target);
    append(room, at, target)
}

// The name of a new file, of the process's number and a letter. A number has at most 20 digits.
pub fn short_name(room: &mut [u8; 64], number: &[u8], letter: u8) -> usize
    ensures { (take result room.new ≡ short_name number.now letter) × (IsPrefixLen result room.new) }
{
    if 20 < number.len() {
        return 0;
    }
    let behind = append(room, 0, b".blink-");
    let behind = append(room, behind, number);
    append(room, behind, &[letter, b'.', b'n', b'e', b'w'])
}
