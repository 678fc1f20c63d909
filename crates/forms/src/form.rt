// A form in types of its own.
ghost use Rattle.std.specs.Prelude.{◌≡◌, ◌<◌};
ghost use Rattle.forms.specs.Checks.{bit, memory_outside};
ghost use Rattle.forms.specs.Forms.{flags_of};
ghost use Rattle.forms.specs.Names.{memory_from};

use crate::codes::{Encoding, LengthKind, MemoryLabel, Prefix, Size, Table, Tag, VectorLength};
use crate::fault::RowFault;
use crate::row::MemoryRow;
use kinds::OperandKind;

/// The flag bits 0 to 10, in their order.
#[derive(Clone, Copy, Debug, PartialEq, Eq)]
pub struct Flags {
    pub lig: bool,
    pub w: bool,
    pub wig: bool,
    pub fwait: bool,
    pub modrm: bool,
    pub broadcast: bool,
    pub rounding: bool,
    pub sae: bool,
    pub mask: bool,
    pub zeroing: bool,
    pub fpu: bool,
}

// By division, as specs/Checks says it.
fn bit(weight: u16, flags: u16) -> bool
    requires { 0 < weight }
    ensures { result ≡ bit weight flags }
{
    flags / weight % 2 == 1
}

impl From<u16> for Flags {
    ghost from_gives = { λ bits flags. flags ≡ flags_of bits };

    fn from(bits: u16) -> Flags {
        Flags {
            lig: bit(1, bits),
            w: bit(2, bits),
            wig: bit(4, bits),
            fwait: bit(8, bits),
            modrm: bit(16, bits),
            broadcast: bit(32, bits),
            rounding: bit(64, bits),
            sae: bit(128, bits),
            mask: bit(256, bits),
            zeroing: bit(512, bits),
            fpu: bit(1024, bits),
        }
    }
}

/// `wide` says that the opcode has two bytes; group and rm are the fields of ModRM that the form fixes. The first `count`
/// of the kinds are the operands.
#[derive(Clone, Copy, Debug, PartialEq, Eq)]
pub struct Form {
    pub encoding: Encoding,
    pub table: Table,
    pub prefix: Prefix,
    // A number of 16 bits in every form, and no enum: `wide` says only whether its high byte is printed too.
    pub opcode: u16,
    pub wide: bool,
    pub address: Size,
    pub operand: Size,
    pub length: VectorLength,
    pub lkind: LengthKind,
    pub flags: Flags,
    pub group: Option<u8>,
    pub rm: Option<u8>,
    // An array with a count: a form is `Copy` and takes no heap, and the kit's `ArrayVec` is not `Copy`.
    pub kinds: [OperandKind; 5],
    pub count: u8,
    pub tag: Tag,
}

/// A memory operand's label and its size in bytes; one that is made of a row has at most 512.
#[derive(Clone, Copy, Debug, PartialEq, Eq)]
pub struct Memory {
    pub label: MemoryLabel,
    pub size: u32,
}

impl TryFrom<MemoryRow> for Memory {
    type Error = RowFault;

    ghost try_from_gives = { λ row r. r ≡ memory_from row };

    fn try_from(row: MemoryRow) -> Result<Memory, RowFault> {
        let label = MemoryLabel::try_from(row.label)?;
        if row.size > 512 {
            return Err(RowFault::NamingCode);
        }
        Ok(Memory {
            label,
            size: row.size,
        })
    }
}
