// What the command answers: for programs a line and an exit status, for people what they mean. What comes of a question is stated; what is
// printed has no contract.
#![tactic(auto)]

pub mod context;
pub mod field;
pub mod outcome;
pub mod questions;
pub mod refusal;
