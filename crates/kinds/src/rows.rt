// The table of the operand kinds: a row for each kind, at the kind's number.
ghost use Rattle.std.specs.Prelude.{◌≡◌, map};
ghost use Rattle.kinds.specs.Kinds.{kinds};
ghost use Rattle.kinds.specs.Rows.{row_of, class_of, suffix_of, role_of};

use crate::kind::OperandKind;
use crate::table::Width::{W8, W16, W32, W64};
use crate::table::{Bank, Class, Register, Role, Suffix, Word};

/// A kind and what it prints.
#[derive(Clone, Copy)]
pub(crate) struct Row {
    pub(crate) kind: OperandKind,
    pub(crate) class: Class,
    pub(crate) suffix: Suffix,
    pub(crate) role: Role,
}

macro_rules! row {
    ($kind:ident, $class:expr, $suffix:ident, $role:expr) => {
        Row {
            kind: OperandKind::$kind,
            class: $class,
            suffix: Suffix::$suffix,
            role: $role,
        }
    };
}

static ROWS: [Row; 109] = [
    row!(R32Reg, Class::Gpr(W32), Plain, Role::ModRm),
    row!(R32RegMem, Class::Gpr(W32), Plain, Role::ModRm),
    row!(R32Rm, Class::Gpr(W32), Plain, Role::ModRm),
    row!(R32Opcode, Class::Gpr(W32), Plain, Role::OpcodeReg(W32)),
    row!(R32Vvvv, Class::Gpr(W32), Plain, Role::Plain),
    row!(R64Reg, Class::Gpr(W64), Plain, Role::ModRm),
    row!(R64RegMem, Class::Gpr(W64), Plain, Role::ModRm),
    row!(R64Rm, Class::Gpr(W64), Plain, Role::ModRm),
    row!(R64Opcode, Class::Gpr(W64), Plain, Role::OpcodeReg(W64)),
    row!(R64Vvvv, Class::Gpr(W64), Plain, Role::Plain),
    row!(BndOrMemMpx, Class::BoundMem, Plain, Role::ModRm),
    row!(BndReg, Class::Bound, Plain, Role::ModRm),
    row!(Absent, Class::Missing, Plain, Role::Plain),
    row!(Farbr2x2, Class::Word(Word::Ptr1616), Cd, Role::Plain),
    row!(Farbr4x2, Class::Word(Word::Ptr1632), Cp, Role::Plain),
    row!(MemOffs, Class::MemOffs, Mo, Role::Moffs),
    row!(Mem, Class::Mem, Plain, Role::Mem),
    row!(MemMpx, Class::Mem, Plain, Role::Mem),
    row!(MemMib, Class::Word(Word::Mib), Plain, Role::Mem),
    row!(MemVsib32x, Class::Word(Word::Vm32x), Plain, Role::Vsib),
    row!(MemVsib64x, Class::Word(Word::Vm64x), Plain, Role::Vsib),
    row!(MemVsib32y, Class::Word(Word::Vm32y), Plain, Role::Vsib),
    row!(MemVsib64y, Class::Word(Word::Vm64y), Plain, Role::Vsib),
    row!(MemVsib32z, Class::Word(Word::Vm32z), Plain, Role::Vsib),
    row!(MemVsib64z, Class::Word(Word::Vm64z), Plain, Role::Vsib),
    row!(R8OrMem, Class::GprMem(W8), Plain, Role::ModRm),
    row!(R16OrMem, Class::GprMem(W16), Plain, Role::ModRm),
    row!(R32OrMem, Class::GprMem(W32), Plain, Role::ModRm),
    row!(R32OrMemMpx, Class::GprMem(W32), Plain, Role::ModRm),
    row!(R64OrMem, Class::GprMem(W64), Plain, Role::ModRm),
    row!(R64OrMemMpx, Class::GprMem(W64), Plain, Role::ModRm),
    row!(MmOrMem, Class::VecMem(Bank::Mm), Plain, Role::ModRm),
    row!(XmmOrMem, Class::VecMem(Bank::Xmm), Plain, Role::ModRm),
    row!(YmmOrMem, Class::VecMem(Bank::Ymm), Plain, Role::ModRm),
    row!(ZmmOrMem, Class::VecMem(Bank::Zmm), Plain, Role::ModRm),
    row!(KOrMem, Class::MaskMem, Plain, Role::ModRm),
    row!(R8Reg, Class::Gpr(W8), Plain, Role::ModRm),
    row!(R8Opcode, Class::Gpr(W8), Plain, Role::OpcodeReg(W8)),
    row!(R16Reg, Class::Gpr(W16), Plain, Role::ModRm),
    row!(R16RegMem, Class::Gpr(W16), Plain, Role::ModRm),
    row!(R16Rm, Class::Gpr(W16), Plain, Role::ModRm),
    row!(R16Opcode, Class::Gpr(W16), Plain, Role::OpcodeReg(W16)),
    row!(SegReg, Class::Word(Word::Sreg), Plain, Role::ModRm),
    row!(KReg, Class::Mask, Plain, Role::ModRm),
    row!(Kp1Reg, Class::MaskPlus1, Plain, Role::ModRm),
    row!(KRm, Class::Mask, Plain, Role::ModRm),
    row!(KVvvv, Class::Mask, Plain, Role::Plain),
    row!(MmReg, Class::Vec(Bank::Mm), Plain, Role::ModRm),
    row!(MmRm, Class::Vec(Bank::Mm), Plain, Role::ModRm),
    row!(XmmReg, Class::Vec(Bank::Xmm), Plain, Role::ModRm),
    row!(XmmRm, Class::Vec(Bank::Xmm), Plain, Role::ModRm),
    row!(XmmVvvv, Class::Vec(Bank::Xmm), Plain, Role::Plain),
    row!(Xmmp3Vvvv, Class::VecPlus3(Bank::Xmm), Plain, Role::Plain),
    row!(XmmIs4, Class::Vec(Bank::Xmm), Is4, Role::Plain),
    row!(XmmIs5, Class::Vec(Bank::Xmm), Is5, Role::Plain),
    row!(YmmReg, Class::Vec(Bank::Ymm), Plain, Role::ModRm),
    row!(YmmRm, Class::Vec(Bank::Ymm), Plain, Role::ModRm),
    row!(YmmVvvv, Class::Vec(Bank::Ymm), Plain, Role::Plain),
    row!(YmmIs4, Class::Vec(Bank::Ymm), Is4, Role::Plain),
    row!(YmmIs5, Class::Vec(Bank::Ymm), Is5, Role::Plain),
    row!(ZmmReg, Class::Vec(Bank::Zmm), Plain, Role::ModRm),
    row!(ZmmRm, Class::Vec(Bank::Zmm), Plain, Role::ModRm),
    row!(ZmmVvvv, Class::Vec(Bank::Zmm), Plain, Role::Plain),
    row!(Zmmp3Vvvv, Class::VecPlus3(Bank::Zmm), Plain, Role::Plain),
    row!(CrReg, Class::Word(Word::Cr), Plain, Role::ModRm),
    row!(DrReg, Class::Word(Word::Dr), Plain, Role::ModRm),
    row!(TrReg, Class::Word(Word::Tr), Plain, Role::ModRm),
    row!(Es, Class::Fixed(Register::Es), Plain, Role::Plain),
    row!(Cs, Class::Fixed(Register::Cs), Plain, Role::Plain),
    row!(Ss, Class::Fixed(Register::Ss), Plain, Role::Plain),
    row!(Ds, Class::Fixed(Register::Ds), Plain, Role::Plain),
    row!(Fs, Class::Fixed(Register::Fs), Plain, Role::Plain),
    row!(Gs, Class::Fixed(Register::Gs), Plain, Role::Plain),
    row!(Al, Class::Fixed(Register::Al), Plain, Role::Plain),
    row!(Cl, Class::Fixed(Register::Cl), Plain, Role::Plain),
    row!(Ax, Class::Fixed(Register::Ax), Plain, Role::Plain),
    row!(Dx, Class::Fixed(Register::Dx), Plain, Role::Plain),
    row!(Eax, Class::Fixed(Register::Eax), Plain, Role::Plain),
    row!(Rax, Class::Fixed(Register::Rax), Plain, Role::Plain),
    row!(St0, Class::St0, Plain, Role::Plain),
    row!(StiOpcode, Class::Sti, Plain, Role::Sti),
    row!(Imm4M2z, Class::Word(Word::Imm4), Plain, Role::Plain),
    row!(Imm8, Class::Word(Word::Imm8), Ib, Role::Plain),
    row!(Imm8Const1, Class::Word(Word::One), Plain, Role::Plain),
    row!(Imm8sex16, Class::Word(Word::Imm8), Ib, Role::Plain),
    row!(Imm8sex32, Class::Word(Word::Imm8), Ib, Role::Plain),
    row!(Imm8sex64, Class::Word(Word::Imm8), Ib, Role::Plain),
    row!(Imm16, Class::Word(Word::Imm16), Iw, Role::Plain),
    row!(Imm32, Class::Word(Word::Imm32), Id, Role::Plain),
    row!(Imm32sex64, Class::Word(Word::Imm32), Id, Role::Plain),
    row!(Imm64, Class::Word(Word::Imm64), Io, Role::Plain),
    row!(SegRdi, Class::Hidden, Plain, Role::Plain),
    row!(Br16x1, Class::Word(Word::Rel8), Cb, Role::Plain),
    row!(Br32x1, Class::Word(Word::Rel8), Cb, Role::Plain),
    row!(Br64x1, Class::Word(Word::Rel8), Cb, Role::Plain),
    row!(Br16x2, Class::Word(Word::Rel16), Cw, Role::Plain),
    row!(Br32x4, Class::Word(Word::Rel32), Cd, Role::Plain),
    row!(Br64x4, Class::Word(Word::Rel32), Cd, Role::Plain),
    row!(Xbegin2, Class::Word(Word::Rel16), Cw, Role::Plain),
    row!(Xbegin4, Class::Word(Word::Rel32), Cd, Role::Plain),
    row!(Brdisp2, Class::Word(Word::Disp16), Cw, Role::Plain),
    row!(Brdisp4, Class::Word(Word::Disp32), Cd, Role::Plain),
    row!(Sibmem, Class::Word(Word::Sibmem), Plain, Role::Sibmem),
    row!(TmmReg, Class::Tile, Plain, Role::ModRm),
    row!(TmmRm, Class::Tile, Plain, Role::ModRm),
    row!(TmmVvvv, Class::Tile, Plain, Role::Plain),
    row!(SegRsi, Class::Strings, Plain, Role::Plain),
    row!(EsRdi, Class::Strings, Plain, Role::Plain),
    row!(SegRbxAl, Class::Strings, Plain, Role::Plain),
];

// The table is the rule at each kind in turn.
#[tactic(auto, unfolding(crate::specs::Rows::class_of, crate::specs::Rows::suffix_of, crate::specs::Rows::role_of))]
pub(crate) fn rows() -> &'static [Row; 109]
    ensures { result.now ≡ map row_of kinds }
{
    &ROWS
}

impl OperandKind {
    // The kind's row of the table.
    fn row(self) -> Row
        ensures { result ≡ row_of self }
    {
        rows()[self.place()]
    }

    /// How the operand is printed in a signature.
    pub fn class(self) -> Class
        ensures { result ≡ class_of self }
    {
        self.row().class
    }

    /// What the operand adds at the end of an opcode string.
    pub fn suffix(self) -> Suffix
        ensures { result ≡ suffix_of self }
    {
        self.row().suffix
    }

    /// The operand's part in the opcode string.
    pub fn role(self) -> Role
        ensures { result ≡ role_of self }
    {
        self.row().role
    }
}
