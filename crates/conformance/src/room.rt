// Lent buffers: filled with a pattern before a question, and summed up after it.
ghost use Rattle.std.specs.Prelude.{IfOk, ◌≡◌, length};
ghost use Rattle.conformance.specs.Room.{filled, adler};

use std::alloc::{AllocError, Global};

// A buffer of this length, filled.
pub fn lent(alloc: Global, length: usize) -> Result<Vec<u8>, AllocError>
    ensures { IfOk result (λ room. room.items ≡ filled 0 length) }
{
    let mut room = vec![in alloc; 0; length]?;
    fill(&mut room);
    Ok(room)
}

// Byte i is 2 + i % 251, so that neither a zero nor a mark of 1 goes unnoticed.
pub fn fill(room: &mut [u8])
    ensures { room.new ≡ filled 0 (length room.old) }
{
    for (i, byte) in room.iter_mut().enumerate() {
        *byte = (2 + i % 251) as u8;
    }
}

// The Adler-32 checksum (RFC 1950).
pub fn adler32(room: &[u8]) -> usize
    ensures { result ≡ adler room.now }
{
    let mut a: usize = 1;
    let mut b: usize = 0;
    for byte in room {
        a = (a + usize::from(*byte)) % 65521;
        b = (b + a) % 65521;
    }
    65536 * b + a
}
