// One operand, as a piece.
ghost use Rattle.operands.specs.Operands.{operand_text};

use crate::memory::{GprMemText, MemoryText, SizeText, bits};
use crate::names::{bank_name, register_name, word_name};
use crate::setting::Setting;
use forms::codes::Tag;
use kinds::Class;
use text::pieces;
use text::pieces::{Byte, Decimal, Piece, Text};
use text::writer::{WriteFault, Writer};

/// `label` is the number or letter right after the register's name.
#[derive(Clone, Copy, Debug, PartialEq, Eq)]
pub struct Operand {
    pub setting: Setting,
    pub class: Class,
    // A number or an ASCII letter, and no enum of both: the class says which it is, and such an enum could say the other.
    pub label: Option<u8>,
}

impl Piece for Operand {
    ghost spelled = { λ x. operand_text x.setting x.class x.label };

    fn print(self, w: &mut Writer) -> Result<(), WriteFault> {
        let number = self.label.map(|n| Decimal(u32::from(n)));
        let memory = MemoryText(self.setting);
        match self.class {
            Class::Missing | Class::Hidden | Class::Strings => w.text(b""),
            Class::Gpr(width) => pieces!(
                Text(b"r"),
                Decimal(bits(width)),
                self.label.map(Byte)
            ).print(w),
            Class::GprMem(width) => GprMemText {
                setting: self.setting,
                width,
            }
            .print(w),
            Class::Vec(bank) => pieces!(bank_name(bank), number).print(w),
            Class::VecMem(bank) => pieces!(bank_name(bank), number, Text(b"/"), memory).print(w),
            Class::VecPlus3(bank) => pieces!(bank_name(bank), number, Text(b"+3")).print(w),
            Class::Mask => pieces!(Text(b"k"), number).print(w),
            Class::MaskMem => pieces!(Text(b"k"), number, Text(b"/"), memory).print(w),
            Class::MaskPlus1 => pieces!(Text(b"k"), number, Text(b"+1")).print(w),
            Class::Tile => pieces!(Text(b"tmm"), number).print(w),
            Class::Bound => pieces!(Text(b"bnd"), number).print(w),
            Class::BoundMem => pieces!(Text(b"bnd"), number, Text(b"/"), memory).print(w),
            Class::Mem => memory.print(w),
            Class::MemOffs => pieces!(
                Text(b"moffs"),
                SizeText {
                    setting: self.setting,
                    memory: self.setting.memory,
                }
            )
            .print(w),
            Class::Word(word) => word_name(word).print(w),
            Class::Fixed(register) => register_name(register).print(w),
            Class::St0 => {
                if self.setting.tag == Tag::BareSt {
                    w.text(b"ST")
                } else {
                    w.text(b"ST(0)")
                }
            }
            Class::Sti => w.text(b"ST(i)"),
        }
    }
}
