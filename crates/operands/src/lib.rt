// How one operand of a signature is spelled: its register with number or letter, its memory, or its fixed word.
#![tactic(auto)]

mod memory;
mod names;
mod operand;
mod setting;

pub use operand::Operand;
pub use setting::{MemoryBits, Setting};
