// The opcode string of an instruction form: its parts in the order in which they are read.
#![tactic(auto)]

mod format;
mod formatter;
mod legacy;
mod modrm;
mod op_code;
mod operands;
mod rest;
mod vector;
mod words;

pub use format::{OpcodeString, print_opcode};
