// Where the inputs of records are put.
ghost use Rattle.std.specs.Prelude.{◌≡◌, drop};
ghost use Rattle.conformance.specs.Vectors.{behind};

use crate::record::Record;
use std::alloc::{AllocError, Global};

// A room, and how long the last record says that its input is, which may be longer. Behind a shorter input, and where
// none was read, the room holds what it held.
#[derive(Drop)]
pub struct Input {
    pub room: Vec<u8>,
    pub length: usize,
}

impl Input {
    // No input yet, and zeros to the room's end.
    pub fn new(alloc: Global, room: usize) -> Result<Self, AllocError> {
        Ok(Input {
            room: vec![in alloc; 0; room]?,
            length: 0,
        })
    }

    // Reads a record's input.
    pub fn load(&mut self, fd: i32, header: &Record)
        ensures long { self.new.length ≡ header.now.length }
        ensures zeros { drop header.now.stored self.new.room.items ≡ behind header.now.stored header.now.length self.old.room.items }
    {
        self.length = header.length;
        load(fd, &mut self.room, header.stored, header.length);
    }

    // The input, `None` where it is longer than the room.
    pub fn get(&self) -> Option<&[u8]> {
        self.room.get(..self.length)
    }
}

// Puts an input at the start of `room`: the stored bytes, which no contract knows, then zeros. Reads nothing where it
// is longer than the room, or where more is stored than it is long.
fn load(fd: i32, room: &mut [u8], stored: usize, length: usize)
    ensures { drop stored room.new ≡ behind stored length room.old }
{
    if room.len() < length {
        return;
    }
    if length < stored {
        return;
    }
    wire::fill(room, 0, length, 0);
    io::read_full(fd, &mut room[..stored]);
}
