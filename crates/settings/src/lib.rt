// What a customer's settings are: which of the faults 4, 6 and 8 are ignored in its messages. Small, since all that reads messages rests on it;
// crate `store` finds them.
#![tactic(auto)]

// Which faults are ignored: a byte that is not zero in an absent field (4), a pad (6), an unused inline byte (8).
#[derive(Clone, Copy, Debug, Default, PartialEq, Eq)]
pub struct Ignored {
    pub absent: bool,
    pub pads: bool,
    pub unused: bool,
}
