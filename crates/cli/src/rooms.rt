// The rooms that the command works in. They are on the heap, so that the stack stays small. That of a tape, which is large, is made where it
// is needed.
use answers::outcome::Outcome;
use answers::refusal;
use inputs::complaints;
use printing::print::Page;
use std::alloc::{AllocError, Global};

// For a table or a settings store: one byte more than it may have, so that a longer one is seen.
const SHORT: usize = 65537;

// The same for a message or a sheet.
const LONG: usize = 1048577;

// For a message that is written, and for scratch.
const MESSAGE: usize = 65536;

// For a sheet that is written, eleven times as long.
const SHEET: usize = 720896;

// For a tape of 64 MiB, and one byte more.
const TAPE: usize = 67108865;

#[derive(Drop)]
pub struct Rooms {
    pub tables: Vec<u8>,
    pub stores: Vec<u8>,
    pub messages: Vec<u8>,
    pub scratch: Vec<u8>,
    pub sheet: Vec<u8>,
    pub output: Vec<u8>,
    // For what each byte of a message is.
    pub labels: Vec<u64>,
}

pub fn make(alloc: Global) -> Result<Rooms, AllocError> {
    Ok(Rooms {
        tables: Vec::from_elem(alloc, 0u8, SHORT)?,
        stores: Vec::from_elem(alloc, 0u8, SHORT)?,
        messages: Vec::from_elem(alloc, 0u8, LONG)?,
        scratch: Vec::from_elem(alloc, 0u8, MESSAGE)?,
        sheet: Vec::from_elem(alloc, 0u8, SHEET)?,
        output: Vec::from_elem(alloc, 0u8, MESSAGE)?,
        labels: Vec::from_elem(alloc, 0u64, MESSAGE)?,
    })
}

pub fn tape(alloc: Global) -> Result<Vec<u8>, AllocError> {
    Vec::from_elem(alloc, 0u8, TAPE)
}

// WHERE THERE IS NO MEMORY FOR THEM

pub fn complain() {
    complaints::complain(b"memory", b"not enough for what is asked");
}

pub fn fail(page: &mut Page) -> Outcome {
    complain();
    refusal::fail(page)
}
