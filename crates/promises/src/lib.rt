// What the whole tool promises, in one place: the bench sheet as one table, one result for each call, and the user's demands.
// Statements and proofs; the two pieces of code are tests, which are proved like everything and called by nobody.

#![tactic(auto)]

mod replay;
mod sittings;
