// Texts of bytes: a bounded writer over lent bytes, texts as values that it prints, and numbers read back from their texts.
#![tactic(auto)]

pub mod pieces;
pub mod reading;
pub mod render;
pub mod writer;
