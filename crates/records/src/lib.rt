// One record of the task file (document 01, "The task file"; 02, requests 1, 2 and 6): what it says, and what its first fault is after
// the records before it. Reading a whole file stands in `taskfile`.

#![tactic(auto)]

pub mod fault;
pub mod kinds;
pub mod parts;
pub mod record;
pub mod seen;
