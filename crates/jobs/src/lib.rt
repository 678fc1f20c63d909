// The lines of a job, read: rows of forms, and the commands over them.
#![tactic(auto)]

pub mod command;
pub mod fields;
pub mod row;
