// The signature of a form: its mnemonic and its operands, with the numbers and letters that tell its registers apart.
#![tactic(auto)]

mod operand;
mod print;
mod setting;
mod walk;

pub use print::{SignatureText, print_signature};
