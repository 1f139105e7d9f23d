// What is in force between two records of a file.
ghost use Rattle.std.specs.Prelude.{◌≡◌};
ghost use Rattle.conformance.specs.Vectors.{in_force, held_after};

use crate::input::Input;
use crate::record::Record;
use std::alloc::{AllocError, Global};

// No table and no store in force is longer.
const LONGEST: usize = 65568;

// The table and the settings store in force, and whose messages are asked about.
#[derive(Drop)]
pub struct Held {
    pub table: Input,
    pub store: Input,
    pub customer: u16,
}

impl Held {
    // At a file's start both are empty, and the customer is 0.
    pub fn new(alloc: Global) -> Result<Self, AllocError> {
        Ok(Held {
            table: Input::new(alloc, LONGEST)?,
            store: Input::new(alloc, LONGEST)?,
            customer: 0,
        })
    }

    // Reads the input of a record that puts it in force.
    pub fn hold(&mut self, fd: i32, header: &Record)
        ensures { in_force self.new ≡ held_after header.now (in_force self.old) }
    {
        match header.kind {
            0 | 1 => self.table.load(fd, header),
            8 => {
                self.store.load(fd, header);
                self.customer = crate::low_two(header.field);
            }
            _ => {}
        }
    }

    // What a message is checked under, `None` where the table or the store is longer than its room.
    pub fn context(&self) -> Option<Context<'_>> {
        Some(Context {
            table: self.table.get()?,
            store: self.store.get()?,
            customer: self.customer,
        })
    }
}

#[derive(Clone, Copy)]
pub struct Context<'a> {
    pub table: &'a [u8],
    pub store: &'a [u8],
    pub customer: u16,
}
