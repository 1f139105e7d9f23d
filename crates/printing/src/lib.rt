// Bytes, values and settings stores as text. The functions are proved safe, and what they look up is stated; what they print has no
// contract.
#![tactic(auto)]

pub mod around;
pub mod letters;
pub mod print;
mod reason;
pub mod store;
pub mod value;
