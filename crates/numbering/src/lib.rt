// Which numbers and letters the registers of a signature get: what is decided before the operands are walked, and the counts
// that give each register its rank as the operands are walked.
#![tactic(auto)]

pub mod decide;
pub mod number;
pub mod plan;
pub mod rank;
