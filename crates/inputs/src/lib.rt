// What the command is asked: its arguments, its options, the numbers among them, and what standard error says where they are wrong. What is
// worked out of words and numbers has its definition in specs/. No contract knows what the system hands in: a function that asks it is
// proved safe.
#![tactic(auto)]

pub mod arguments;
pub mod command;
pub mod complaints;
pub mod help;
pub mod input;
pub mod numbers;
pub mod options;
pub mod request;
pub mod store_command;
pub mod words;
