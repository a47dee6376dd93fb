// What is written into the tables: by an opening, and by an accepted message.
#![tactic(auto)]

pub mod messages;
pub mod opening;
