#![tactic(auto)]

// What an accepted message means: the constraints that it meets, the values that it has and the sheet that lists them. There is no code here, only
// definitions and what the walk of crate `message` is shown to do.
