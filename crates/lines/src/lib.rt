// The two texts of a row, whole: what is printed of it where it passes the checks.
#![tactic(auto)]

mod check;
mod texts;

pub use check::checked;
pub use forms::entry::Entry;
pub use texts::{OPCODE_BYTES, SIGNATURE_BYTES, opcode_text, signature_text};
