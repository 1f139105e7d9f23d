// What the command is for, and which it is. The bytes only: whoever prints them knows where to.
ghost use Rattle.std.specs.Prelude.{◌≡◌, length};

pub fn text() -> [u8; 1954]
    ensures { 1954 ≡ length result }
{
    *b"blink check TABLE [MESSAGE..]          whether a table or messages are accepted
blink read TABLE MESSAGE FIELD [ITEM]  a field's value; both count from 0
blink show TABLE MESSAGE               every field, as indented text
blink dump TABLE MESSAGE               the message byte by byte
blink tape TABLE TAPE                  each message of a tape, and how many
blink table TABLE                      the table as text
blink sheet TABLE MESSAGE OUT          writes the message's sheet
blink write TABLE SHEET OUT            writes the message that a sheet describes
blink rewrite TABLE MESSAGE OUT        writes the message in its one form
blink faults [NUMBER]                  what the faults' numbers mean
blink help                             this text; also --help and -h
blink version                          also --version

blink settings STORE                   every record of a settings store
blink settings get STORE CUSTOMER VERSION
                                       what a version of the settings ignores
blink settings add STORE CUSTOMER VERSION [FAULT..]
                                       adds one that ignores these of 4, 6 and 8
blink settings new STORE RECORDS       makes a store with room for so many

Options, anywhere, for check with messages, read, show, dump, tape, sheet and
rewrite:
--settings STORE --customer N          ignores what customer N's settings say

A file named - is standard input, once at most. As OUT it is standard output,
and the answer is on standard error. OUT is written whole or left as it was.

The first line of an answer is for programs: accepted, refused NUMBER at PLACE,
done LENGTH, a field's type and value, ignores FAULTS, or error. With several
messages each has a line, NAME: accepted and so on; on a tape PLACE: accepted,
LENGTH bytes and so on. Standard error says what an error is. Exit status: 0
accepted, done or answered, 1 refused, 2 error.

More is in the manual: man blink.
"
}

pub fn version() -> [u8; 12]
    ensures { 12 ≡ length result }
{
    *b"blink 0.3.0\n"
}
