// The faults' words: the list of them, and one fault's words out of it.
#![tactic(auto)]

ghost use Rattle.std.specs.Prelude.{◌≡◌, ◌+◌, ◌≤◌, length, drop};
ghost use Rattle.wire.specs.Bytes.{part, same};
ghost use Rattle.faults.specs.Words.{heading, line, words_of, fitted, faults};

const LENGTH: usize = 2418;

// What each means, in plain words, as include/faults.txt has them for all.
const FAULTS: [u8; LENGTH] =
    *b" 1 a group's size is under 12: too short for its type id and its extension offset
 2 no group of the table has this type id
 3 the extension offset leads outside the group's data area
 4 a byte of an absent field is not zero
 5 an offset leads outside the group's data area
 6 a byte of the data area that belongs to no value is not zero
 7 the count of an inline string or binary is over its capacity
 8 an unused byte of an inline string or binary is not zero
 9 a string is not valid UTF-8
10 the enumeration has no symbol of this value
11 a bool or a presence flag is neither 0 nor 1
12 a time of day is 24 hours or more
13 the items of a sequence run past the data area
14 a group's size is too small for its fields
20 the table is refused
21 the scratch is shorter than the message
22 the message is under 4 bytes long, or its length is not 4 plus its size
23 the message is longer than 65536 bytes
24 a group lies deeper than level 8
25 a group of this type is not allowed here
26 a value runs past the data area
27 a value lies on a byte that another value has taken
28 there is no such field, or no such item in it
29 the field is absent
30 the table is empty, longer than 65536 bytes, or not made of records of 16 bytes
31 a mark is not the one due, GR and GW are mixed, a record is missing, a count is out of range, or a 65th enumeration or group
32 a byte that must be zero is not, or a flag is neither 0 nor 1
33 a type, size, reference or super group is out of range
34 symbols do not rise, a type id comes twice, or no group has one
35 a group is wider than 4096 bytes, its static groups nest deeper than 4, or a static group has no width
36 a group's fields do not begin with those of its super group
37 the width that a group stores is not its own
40 the sheet ends inside a record
41 a record's mark is not the one due
42 the sheet is longer than 1048576 bytes
43 bytes follow the end of the message's group
44 an extension record says that it has no groups
45 a group kept as unknown has a type id of the table
46 the sheet is longer than its room
47 the message is longer than its room or than 65536 bytes
48 the field is of another kind: no number, or no bytes
50 the settings store is damaged, has a flag that is neither 0 nor 1 or a version that does not rise, or the addition would make it so
51 the settings store has no room for another record
59 the customer has no settings of that version
";

// All lines.
pub fn list() -> [u8; LENGTH]
    ensures { result ≡ faults }
{
    FAULTS
}

// What its line begins with: two digits, the first a space below 10, and a space.
fn heading(number: u8) -> [u8; 3]
    ensures { result ≡ heading number }
{
    if number < 10 {
        return [b' ', 48 + number % 10, b' '];
    }
    [48 + number / 10, 48 + number % 10, b' ']
}

// Whether that stands at `at`.
fn has_heading(text: &[u8], at: usize, number: u8) -> bool
    requires { at ≤ length text.now }
    ensures { result ≡ same (part 3 at text.now) (heading number) }
{
    if text.len() - at < 3 {
        return false;
    }
    let due = heading(number);
    wire::same(text, at, &due, 0, 3)
}

// Where the words of this number begin, or where the text ends if it has none.
fn find_words(text: &[u8], number: u8) -> usize
    ensures { (result ≤ length text.now) × (words_of number text.now ≡ line (drop result text.now)) }
{
    let mut first = true;
    for i in 0..text.len() {
        if first & has_heading(text, i, number) {
            return i + 3;
        }
        first = text[i] == b'\n';
    }
    text.len()
}

// How long the line at `at` is, without its end.
fn line_length(text: &[u8], at: usize) -> usize
    requires { at ≤ length text.now }
    ensures { (at + result ≤ length text.now) × (line (drop at text.now) ≡ part result at text.now) }
{
    for n in 0..text.len() - at {
        if text[at + n] == b'\n' {
            return n;
        }
    }
    text.len() - at
}

// One number's words out of a text of such lines, at the start of the room as far as they fit. Answers how long they are.
fn copy_line(text: &[u8], number: u8, room: &mut [u8]) -> usize
    ensures value { result ≡ length (words_of number text.now) }
    ensures room_after { room.new ≡ fitted (words_of number text.now) room.old }
{
    let at = find_words(text, number);
    let n = line_length(text, at);
    if n < room.len() {
        wire::copy(room, 0, text, at, n);
        return n;
    }
    let fits = room.len();
    wire::copy(room, 0, text, at, fits);
    n
}

// The words of this fault. 0 where no fault has the number: the room is untouched then.
pub fn copy_words(number: u8, room: &mut [u8]) -> usize
    ensures value { result ≡ length (words_of number faults) }
    ensures room_after { room.new ≡ fitted (words_of number faults) room.old }
{
    let text = FAULTS;
    copy_line(&text, number, room)
}
