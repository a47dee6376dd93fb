// The file and the printed lines of document 01, "File and program".
#![tactic(auto)]

pub mod fields;
pub mod output;
pub mod reader;
