// What the codes of a row stand for, each set in the order of its numbers, from 0; a size stands for its bits.
ghost use Rattle.std.specs.Prelude.{◌≡◌};
ghost use Rattle.forms.specs.Forms.{decoded, encoding_from, tables, prefixes, length_kinds, lengths, size_from, tags};
ghost use Rattle.forms.specs.Names.{options, labels};
ghost use Rattle.forms.specs.declared.fault.RowFault.{RowFault};

use crate::fault::RowFault;

/// How the opcode is encoded. Code 5, MVEX, is a code too; no description has it.
#[derive(Clone, Copy, Debug, PartialEq, Eq)]
pub enum Encoding {
    Legacy,
    Vex,
    Evex,
    Xop,
    D3now,
}

impl TryFrom<u32> for Encoding {
    type Error = RowFault;

    ghost try_from_gives = { λ code r. r ≡ encoding_from code };

    fn try_from(code: u32) -> Result<Encoding, RowFault> {
        match code {
            0 => Ok(Encoding::Legacy),
            1 => Ok(Encoding::Vex),
            2 => Ok(Encoding::Evex),
            3 => Ok(Encoding::Xop),
            4 => Ok(Encoding::D3now),
            5 => Err(RowFault::Mvex),
            _ => Err(RowFault::CodeOutside),
        }
    }
}

/// The opcode table; Map8 to Map10 are the tables of XOP.
#[derive(Clone, Copy, Debug, PartialEq, Eq)]
pub enum Table {
    Normal,
    T0f,
    T0f38,
    T0f3a,
    Map5,
    Map6,
    Map8,
    Map9,
    Map10,
}

impl TryFrom<u32> for Table {
    type Error = RowFault;

    ghost try_from_gives = { λ code r. r ≡ decoded tables RowFault.CodeOutside code };

    fn try_from(code: u32) -> Result<Table, RowFault> {
        match code {
            0 => Ok(Table::Normal),
            1 => Ok(Table::T0f),
            2 => Ok(Table::T0f38),
            3 => Ok(Table::T0f3a),
            4 => Ok(Table::Map5),
            5 => Ok(Table::Map6),
            6 => Ok(Table::Map8),
            7 => Ok(Table::Map9),
            8 => Ok(Table::Map10),
            _ => Err(RowFault::CodeOutside),
        }
    }
}

/// The mandatory prefix; Pnp says that none of 66, F3 and F2 may stand there.
#[derive(Clone, Copy, Debug, PartialEq, Eq)]
pub enum Prefix {
    Absent,
    Pnp,
    P66,
    Pf3,
    Pf2,
}

impl TryFrom<u32> for Prefix {
    type Error = RowFault;

    ghost try_from_gives = { λ code r. r ≡ decoded prefixes RowFault.CodeOutside code };

    fn try_from(code: u32) -> Result<Prefix, RowFault> {
        match code {
            0 => Ok(Prefix::Absent),
            1 => Ok(Prefix::Pnp),
            2 => Ok(Prefix::P66),
            3 => Ok(Prefix::Pf3),
            4 => Ok(Prefix::Pf2),
            _ => Err(RowFault::CodeOutside),
        }
    }
}

/// How the vector length is spelled: as 128, 256, 512, as L0, L1, L2, or as LZ.
#[derive(Clone, Copy, Debug, PartialEq, Eq)]
pub enum LengthKind {
    Absent,
    L128,
    L0,
    Lz,
}

impl TryFrom<u32> for LengthKind {
    type Error = RowFault;

    ghost try_from_gives = { λ code r. r ≡ decoded length_kinds RowFault.CodeOutside code };

    fn try_from(code: u32) -> Result<LengthKind, RowFault> {
        match code {
            0 => Ok(LengthKind::Absent),
            1 => Ok(LengthKind::L128),
            2 => Ok(LengthKind::L0),
            3 => Ok(LengthKind::Lz),
            _ => Err(RowFault::CodeOutside),
        }
    }
}

/// The vector length, numbers 0 to 2.
#[derive(Clone, Copy, Debug, PartialEq, Eq)]
pub enum VectorLength {
    V128,
    V256,
    V512,
}

impl TryFrom<u32> for VectorLength {
    type Error = RowFault;

    ghost try_from_gives = { λ code r. r ≡ decoded lengths RowFault.VectorLength code };

    fn try_from(code: u32) -> Result<VectorLength, RowFault> {
        match code {
            0 => Ok(VectorLength::V128),
            1 => Ok(VectorLength::V256),
            2 => Ok(VectorLength::V512),
            _ => Err(RowFault::VectorLength),
        }
    }
}

/// An address or operand size that the form fixes, in bits.
#[derive(Clone, Copy, Debug, PartialEq, Eq)]
pub enum Size {
    Absent,
    S16,
    S32,
    S64,
}

impl TryFrom<u32> for Size {
    type Error = RowFault;

    ghost try_from_gives = { λ bits r. r ≡ size_from bits };

    fn try_from(bits: u32) -> Result<Size, RowFault> {
        match bits {
            0 => Ok(Size::Absent),
            16 => Ok(Size::S16),
            32 => Ok(Size::S32),
            64 => Ok(Size::S64),
            _ => Err(RowFault::FixedSize),
        }
    }
}

/// What is special about a form: the six entries that are no instructions, forms with a memory or register spelling of
/// their own, and the groups of operands that are implied.
#[derive(Clone, Copy, Debug, PartialEq, Eq)]
pub enum Tag {
    Plain,
    Invalid,
    DeclareByte,
    DeclareWord,
    DeclareDword,
    DeclareQword,
    ZeroBytes,
    TwoByte,
    DescriptorTable,
    BareSt,
    ImpliedEdxEax,
    ImpliedXmm0,
    ImpliedXmm0To7,
    ImpliedEaxXmm0,
    ImpliedXmm0To2And4To6,
    ImpliedXmm0To6,
    ImpliedEax,
}

impl TryFrom<u32> for Tag {
    type Error = RowFault;

    ghost try_from_gives = { λ code r. r ≡ decoded tags RowFault.CodeOutside code };

    fn try_from(code: u32) -> Result<Tag, RowFault> {
        match code {
            0 => Ok(Tag::Plain),
            1 => Ok(Tag::Invalid),
            2 => Ok(Tag::DeclareByte),
            3 => Ok(Tag::DeclareWord),
            4 => Ok(Tag::DeclareDword),
            5 => Ok(Tag::DeclareQword),
            6 => Ok(Tag::ZeroBytes),
            7 => Ok(Tag::TwoByte),
            8 => Ok(Tag::DescriptorTable),
            9 => Ok(Tag::BareSt),
            10 => Ok(Tag::ImpliedEdxEax),
            11 => Ok(Tag::ImpliedXmm0),
            12 => Ok(Tag::ImpliedXmm0To7),
            13 => Ok(Tag::ImpliedEaxXmm0),
            14 => Ok(Tag::ImpliedXmm0To2And4To6),
            15 => Ok(Tag::ImpliedXmm0To6),
            16 => Ok(Tag::ImpliedEax),
            _ => Err(RowFault::CodeOutside),
        }
    }
}

/// How the operands of a signature are numbered and walked.
#[derive(Clone, Copy, Debug, PartialEq, Eq)]
pub enum NamingOption {
    Plain,
    OpMaskIsK1OrNoGprSuffix,
    IncVecIndex,
    NoVecIndex,
    SwapVecIndex12,
    SkipOp0,
    VecIndexSameAsOpIndex,
}

impl TryFrom<u32> for NamingOption {
    type Error = RowFault;

    ghost try_from_gives = { λ code r. r ≡ decoded options RowFault.NamingCode code };

    fn try_from(code: u32) -> Result<NamingOption, RowFault> {
        match code {
            0 => Ok(NamingOption::Plain),
            1 => Ok(NamingOption::OpMaskIsK1OrNoGprSuffix),
            2 => Ok(NamingOption::IncVecIndex),
            3 => Ok(NamingOption::NoVecIndex),
            4 => Ok(NamingOption::SwapVecIndex12),
            5 => Ok(NamingOption::SkipOp0),
            6 => Ok(NamingOption::VecIndexSameAsOpIndex),
            _ => Err(RowFault::NamingCode),
        }
    }
}

/// What a memory holds, where its size alone does not say it.
#[derive(Clone, Copy, Debug, PartialEq, Eq)]
pub enum MemoryLabel {
    Plain,
    Int,
    Float,
    Bcd,
    Bound16,
    Bound32,
    FpuEnv14,
    FpuEnv28,
    FpuState94,
    FpuState108,
    Fxsave,
    Xsave,
    SegPtr16,
    SegPtr32,
    SegPtr64,
    Fword6,
    Fword10,
}

impl TryFrom<u32> for MemoryLabel {
    type Error = RowFault;

    ghost try_from_gives = { λ code r. r ≡ decoded labels RowFault.NamingCode code };

    fn try_from(code: u32) -> Result<MemoryLabel, RowFault> {
        match code {
            0 => Ok(MemoryLabel::Plain),
            1 => Ok(MemoryLabel::Int),
            2 => Ok(MemoryLabel::Float),
            3 => Ok(MemoryLabel::Bcd),
            4 => Ok(MemoryLabel::Bound16),
            5 => Ok(MemoryLabel::Bound32),
            6 => Ok(MemoryLabel::FpuEnv14),
            7 => Ok(MemoryLabel::FpuEnv28),
            8 => Ok(MemoryLabel::FpuState94),
            9 => Ok(MemoryLabel::FpuState108),
            10 => Ok(MemoryLabel::Fxsave),
            11 => Ok(MemoryLabel::Xsave),
            12 => Ok(MemoryLabel::SegPtr16),
            13 => Ok(MemoryLabel::SegPtr32),
            14 => Ok(MemoryLabel::SegPtr64),
            15 => Ok(MemoryLabel::Fword6),
            16 => Ok(MemoryLabel::Fword10),
            _ => Err(RowFault::NamingCode),
        }
    }
}
