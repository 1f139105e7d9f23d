// What each byte of a message is, whether or not the message is accepted: a walk in document 01's order that gives each byte a label, as
// far as it gets.
//
// The functions are proved safe. They say nothing of where a label goes; what a label says has its definition in specs/.
#![tactic(auto)]

pub mod label;
pub mod marks;
pub mod walk;
