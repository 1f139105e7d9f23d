// Files as the command uses them: which file a name or a descriptor leads to, loading, and saving whole or not at all. What is worked out
// of bytes and numbers has its definition in specs/. No contract knows what the system answers: a function that asks it is proved safe.
#![tactic(auto)]

pub mod identity;
pub mod loading;
pub mod paths;
pub mod report;
pub mod saving;
