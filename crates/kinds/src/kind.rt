// The operand kinds, numbered from 0 in the order in which they stand here.
ghost use Rattle.std.specs.Prelude.{◌≡◌, ◌++◌, Some, codes, decimal};
ghost use Rattle.std.specs.Option.{ok_or};
ghost use Rattle.kinds.specs.Kinds.{kind_at, place_of};

use crate::rows::rows;
use std::error::Error;
use std::fmt;

/// How an operand is encoded and what it may be. Absent stands where there is no operand.
#[derive(Clone, Copy, Debug, PartialEq, Eq)]
pub enum OperandKind {
    R32Reg,
    R32RegMem,
    R32Rm,
    R32Opcode,
    R32Vvvv,
    R64Reg,
    R64RegMem,
    R64Rm,
    R64Opcode,
    R64Vvvv,
    BndOrMemMpx,
    BndReg,
    Absent,
    Farbr2x2,
    Farbr4x2,
    MemOffs,
    Mem,
    MemMpx,
    MemMib,
    MemVsib32x,
    MemVsib64x,
    MemVsib32y,
    MemVsib64y,
    MemVsib32z,
    MemVsib64z,
    R8OrMem,
    R16OrMem,
    R32OrMem,
    R32OrMemMpx,
    R64OrMem,
    R64OrMemMpx,
    MmOrMem,
    XmmOrMem,
    YmmOrMem,
    ZmmOrMem,
    KOrMem,
    R8Reg,
    R8Opcode,
    R16Reg,
    R16RegMem,
    R16Rm,
    R16Opcode,
    SegReg,
    KReg,
    Kp1Reg,
    KRm,
    KVvvv,
    MmReg,
    MmRm,
    XmmReg,
    XmmRm,
    XmmVvvv,
    Xmmp3Vvvv,
    XmmIs4,
    XmmIs5,
    YmmReg,
    YmmRm,
    YmmVvvv,
    YmmIs4,
    YmmIs5,
    ZmmReg,
    ZmmRm,
    ZmmVvvv,
    Zmmp3Vvvv,
    CrReg,
    DrReg,
    TrReg,
    Es,
    Cs,
    Ss,
    Ds,
    Fs,
    Gs,
    Al,
    Cl,
    Ax,
    Dx,
    Eax,
    Rax,
    St0,
    StiOpcode,
    Imm4M2z,
    Imm8,
    Imm8Const1,
    Imm8sex16,
    Imm8sex32,
    Imm8sex64,
    Imm16,
    Imm32,
    Imm32sex64,
    Imm64,
    SegRdi,
    Br16x1,
    Br32x1,
    Br64x1,
    Br16x2,
    Br32x4,
    Br64x4,
    Xbegin2,
    Xbegin4,
    Brdisp2,
    Brdisp4,
    Sibmem,
    TmmReg,
    TmmRm,
    TmmVvvv,
    SegRsi,
    EsRdi,
    SegRbxAl,
}

/// A number that is no operand kind's.
#[derive(Clone, Copy, Debug, PartialEq, Eq)]
pub struct UnknownKind(pub u32);

impl OperandKind {
    // The kind's place in the table.
    pub(crate) fn place(self) -> usize
        ensures { result ≡ place_of self }
    {
        self as usize
    }
}

impl From<OperandKind> for u32 {
    ghost from_gives = { λ kind code. kind_at code ≡ Some kind };

    #[tactic(auto, using(crate::proofs::Numbers::has_place))]
    fn from(kind: OperandKind) -> u32 {
        kind as u32
    }
}

impl TryFrom<u32> for OperandKind {
    type Error = UnknownKind;

    ghost try_from_gives = { λ code r. r ≡ ok_or (kind_at code) (record { 0 = code }) };

    #[tactic(auto, using(crate::proofs::Numbers::kind_read, crate::proofs::Numbers::none_past))]
    fn try_from(code: u32) -> Result<OperandKind, UnknownKind> {
        match rows().get(code as usize) {
            Some(row) => Ok(row.kind),
            None => Err(UnknownKind(code)),
        }
    }
}

impl fmt::Display for UnknownKind {
    ghost output = { λ fault. Some (codes "no operand kind has number " ++ decimal fault.0) };

    fn fmt<W: fmt::Write>(&self, f: &mut fmt::Formatter<W>) -> fmt::Result {
        write!(f, "no operand kind has number {}", self.0)
    }
}

impl Error for UnknownKind {}
