// Tests over the library's crates, one file for each subject.
#![tactic(auto)]

pub mod checks;
pub mod counting;
pub mod own;
pub mod writing;
