// The files that arguments name: read into their rooms, and written. The functions are proved safe; no contract knows what a file holds.
#![tactic(auto)]

pub mod destination;
pub mod loaded;
pub mod named;
