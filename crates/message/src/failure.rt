// How the walk fails.

ghost use Rattle.std.specs.Prelude.{◌≡◌, ◌≤◌};
ghost use Rattle.schema.specs.Faults.{fault_at};

use schema::Fault;

// A fault whose number fills a word. That of a `Fault` is one byte of a word that an `Ok` fills, and each
// `?` would take this word apart and put it together again: statics took a third more time.
#[derive(Clone, Copy)]
pub struct Failure {
    pub number: usize,
    pub place: usize,
    ghost in_range: { number ≤ 255 },
}

impl From<Fault> for Failure {
    ghost from_gives = { λ fault failure. (failure.number ≡ fault.number) × (failure.place ≡ fault.place) };

    fn from(fault: Fault) -> Self {
        Failure {
            number: usize::from(fault.number),
            place: fault.place,
        }
    }
}

impl From<Failure> for Fault {
    ghost from_gives = { λ failure fault. fault ≡ fault_at failure.number failure.place };

    fn from(failure: Failure) -> Self {
        Fault {
            number: failure.number as u8,
            place: failure.place,
        }
    }
}
