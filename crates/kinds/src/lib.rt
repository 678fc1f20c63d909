// The operand kinds: their numbers, how each is printed, and its part in the opcode string.
#![tactic(auto)]

mod counter;
mod kind;
mod named;
mod role;
mod rows;
mod table;

pub use counter::Counter;
pub use kind::{OperandKind, UnknownKind};
pub use table::{Bank, Class, Register, Role, Suffix, Width, Word};
