// A naming is a form's name that has passed the checks of its row. It owns its mnemonic, the first `used` bytes of `text`.
ghost use Rattle.std.specs.Prelude.{◌≤◌, take};
ghost use Rattle.forms.specs.Names.{NamePasses};

use crate::codes::NamingOption;
use crate::form::Memory;

pub mod make;

/// A form's name that has passed checks 10 and 11; there is no other way to have one.
#[derive(Clone, Copy, Debug, PartialEq, Eq)]
pub struct Naming {
    // Bytes and their length, and no `ArrayString`: that has a model, and a struct that holds one is not copied where it is
    // passed by value and used again.
    text: [u8; 32],
    used: usize,
    option: NamingOption,
    memory: Memory,
    broadcast: Memory,
    ghost inside: { used ≤ 32 },
    ghost passed: { NamePasses (take used text) memory broadcast },
}
