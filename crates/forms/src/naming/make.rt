// How a naming is made, and what it hands out.
ghost use Rattle.std.specs.Prelude.{◌≡◌, ◌≤◌, length, take};
ghost use Rattle.forms.specs.Names.{memories_from, named};
ghost use Rattle.forms.specs.Made.{name_in, name_got};

use super::Naming;
use crate::check::mnemonic_wrong;
use crate::codes::NamingOption;
use crate::fault::RowFault;
use crate::form::Memory;
use crate::row::NamingRow;

// The bytes at the front of 32.
fn padded(bytes: &[u8]) -> [u8; 32]
    requires { length bytes.now ≤ 32 }
    ensures { take (length bytes.now) result ≡ bytes.now }
{
    let mut text = [0; 32];
    text[0..bytes.len()].copy_from_slice(bytes);
    text
}

// The memory without broadcast, and that with it: a step of its own, as specs/Names says it.
fn memories(row: &NamingRow) -> Result<(Memory, Memory), RowFault>
    ensures { result ≡ memories_from row.now }
{
    let memory = Memory::try_from(row.memory)?;
    let broadcast = Memory::try_from(row.broadcast)?;
    Ok((memory, broadcast))
}

impl Naming {
    /// The naming of a row, or the first check, of 10 and 11, that the row fails.
    pub fn from_row(row: &NamingRow) -> Result<Naming, RowFault>
        ensures { name_got result ≡ named row.now }
    {
        if mnemonic_wrong(row.mnemonic) {
            return Err(RowFault::Mnemonic);
        }
        let option = NamingOption::try_from(row.option)?;
        let (memory, broadcast) = memories(row)?;
        Ok(Naming {
            text: padded(row.mnemonic),
            used: row.mnemonic.len(),
            option,
            memory,
            broadcast,
        })
    }

    /// The mnemonic: 1 to 32 letters, digits or `_`.
    pub fn mnemonic(&self) -> &[u8]
        ensures { result.now ≡ (name_in self.now).mnemonic }
    {
        &self.text[0..self.used]
    }

    /// How the operands are numbered and walked.
    pub fn option(&self) -> NamingOption
        ensures { result ≡ (name_in self.now).option }
    {
        self.option
    }

    // At most 512 is promised here and is no fact in `Memory`: its fields are public, and who builds one would owe it.
    /// The memory operand without broadcast.
    pub fn memory(&self) -> Memory
        ensures value { result ≡ (name_in self.now).memory }
        ensures small { result.size ≤ 512 }
    {
        self.memory
    }

    /// The memory operand with broadcast.
    pub fn broadcast(&self) -> Memory
        ensures value { result ≡ (name_in self.now).broadcast }
        ensures small { result.size ≤ 512 }
    {
        self.broadcast
    }
}

// `from_row` by std's trait, for code that is generic over conversions.
impl<'a> TryFrom<&NamingRow<'a>> for Naming {
    type Error = RowFault;

    ghost try_from_gives = { λ row r. name_got r ≡ named row.now };

    fn try_from(row: &NamingRow<'a>) -> Result<Naming, RowFault> {
        Naming::from_row(row)
    }
}
