// The records of a file of questions: a header of 40 bytes, then what is stored of the input.
ghost use Rattle.std.specs.Prelude.{◌≡◌};
ghost use Rattle.conformance.specs.Vectors.{record_of, writes, lendable};

// The longest buffers that are lent.

const SCRATCH: usize = 65600;

const SHEET: usize = 786432;

const OUTPUT: usize = 65600;

#[derive(Clone, Copy)]
pub struct Record {
    // A number, as `record_of` and `held_after` of specs/Vectors.antt have it.
    pub kind: usize,
    pub length: usize,
    pub stored: usize,
    pub scratch: usize,
    pub sheet: usize,
    pub output: usize,
    pub field: u64,
    pub item: u64,
}

impl Record {
    // Whether it writes a sheet or a message.
    fn is_writing(&self) -> bool
        ensures { result ≡ writes self.now.kind }
    {
        3 <= self.kind && self.kind <= 5
    }

    // Whether no buffer that it lends is longer than README.md says.
    pub fn is_lendable(&self) -> bool
        ensures { result ≡ lendable self.now }
    {
        self.scratch <= SCRATCH
            && (!self.is_writing() || self.sheet <= SHEET && self.output <= OUTPUT)
    }
}

// The next record's header, `None` at the end of the file.
pub fn next(fd: i32) -> Option<Record> {
    let mut header = [0u8; 40];
    if io::read_full(fd, &mut header) < 40 {
        return None;
    }
    Some(parse(&header))
}

fn parse(header: &[u8; 40]) -> Record
    ensures { result ≡ record_of header.now }
{
    Record {
        kind: wire::read_u32(header, 0),
        length: wire::read_u32(header, 4),
        stored: wire::read_u32(header, 8),
        scratch: wire::read_u32(header, 12),
        sheet: wire::read_u32(header, 16),
        output: wire::read_u32(header, 20),
        field: wire::read_u64(header, 24),
        item: wire::read_u64(header, 32),
    }
}
