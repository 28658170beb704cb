// The text of a listing, line by line, placed into lent room (document 01, "The listing").

#![tactic(auto)]

mod fields;
pub mod lines;
