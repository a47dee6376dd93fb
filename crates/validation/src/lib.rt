// Questions that change nothing: the month and the counts of a book (2), the fields of a message (6), and what a message asks of a
// well-formed book (7 to 16).
#![tactic(auto)]

pub mod fields;
pub mod limits;
pub mod questions;
