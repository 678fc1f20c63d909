// The few operand kinds that a rule names.
ghost use Rattle.std.specs.Prelude.{◌≡◌};
ghost use Rattle.kinds.specs.Kinds.{is_absent, is_seg_rdi, is_imm8, is_mask_first, hides_all};

use crate::kind::OperandKind;

impl OperandKind {
    /// There is no operand.
    pub fn is_absent(self) -> bool
        ensures { result ≡ is_absent self }
    {
        self == OperandKind::Absent
    }

    /// The memory at rDI that a masked store implies.
    pub fn is_seg_rdi(self) -> bool
        ensures { result ≡ is_seg_rdi self }
    {
        self == OperandKind::SegRdi
    }

    /// A plain immediate byte.
    pub fn is_imm8(self) -> bool
        ensures { result ≡ is_imm8 self }
    {
        self == OperandKind::Imm8
    }

    /// A mask or a pair of masks in the reg field: as operand 0 it has vectors numbered by their place.
    pub fn is_mask_first(self) -> bool
        ensures { result ≡ is_mask_first self }
    {
        matches!(self, OperandKind::KReg | OperandKind::Kp1Reg)
    }

    /// An operand of a string instruction or of xlat: beside it no operand is printed.
    pub fn hides_all(self) -> bool
        ensures { result ≡ hides_all self }
    {
        matches!(
            self,
            OperandKind::SegRsi | OperandKind::EsRdi | OperandKind::SegRbxAl
        )
    }
}
