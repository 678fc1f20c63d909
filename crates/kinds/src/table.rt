// What the table says of an operand kind: its class in a signature, and its suffix and its part in the opcode string.

/// The size of a general register.
#[derive(Clone, Copy, Debug, PartialEq, Eq)]
pub enum Width {
    W8,
    W16,
    W32,
    W64,
}

/// The registers that share the count of vectors.
#[derive(Clone, Copy, Debug, PartialEq, Eq)]
pub enum Bank {
    Mm,
    Xmm,
    Ymm,
    Zmm,
}

/// A register that the opcode fixes.
#[derive(Clone, Copy, Debug, PartialEq, Eq)]
pub enum Register {
    Es,
    Cs,
    Ss,
    Ds,
    Fs,
    Gs,
    Al,
    Cl,
    Ax,
    Dx,
    Eax,
    Rax,
}

/// An operand that prints as a fixed word.
#[derive(Clone, Copy, Debug, PartialEq, Eq)]
pub enum Word {
    Ptr1616,
    Ptr1632,
    Mib,
    Vm32x,
    Vm64x,
    Vm32y,
    Vm64y,
    Vm32z,
    Vm64z,
    Sreg,
    Cr,
    Dr,
    Tr,
    Imm4,
    Imm8,
    One,
    Imm16,
    Imm32,
    Imm64,
    Rel8,
    Rel16,
    Rel32,
    Disp16,
    Disp32,
    Sibmem,
}

/// How an operand is printed in a signature. Missing is no operand, Hidden is one that leaves no text,
/// and Strings is one of a string instruction or of xlat, which print no operand at all.
#[derive(Clone, Copy, Debug, PartialEq, Eq)]
pub enum Class {
    Missing,
    Hidden,
    Strings,
    Gpr(Width),
    GprMem(Width),
    Vec(Bank),
    VecMem(Bank),
    VecPlus3(Bank),
    Mask,
    MaskMem,
    MaskPlus1,
    Tile,
    Bound,
    BoundMem,
    Mem,
    MemOffs,
    Word(Word),
    Fixed(Register),
    St0,
    Sti,
}

/// What an operand adds at the end of an opcode string.
#[derive(Clone, Copy, Debug, PartialEq, Eq)]
pub enum Suffix {
    Plain,
    Cb,
    Cw,
    Cd,
    Cp,
    Ib,
    Iw,
    Id,
    Io,
    Is4,
    Is5,
    Mo,
}

/// The part that an operand has in the opcode string.
#[derive(Clone, Copy, Debug, PartialEq, Eq)]
pub enum Role {
    /// None.
    Plain,
    /// A register, or a register or memory, that the ModRM byte holds.
    ModRm,
    /// Memory by the ModRM byte.
    Mem,
    /// Memory by an offset after the opcode, with no ModRM byte.
    Moffs,
    /// Memory by the ModRM byte, with a vector of indices.
    Vsib,
    /// Memory by the ModRM byte, with a SIB byte.
    Sibmem,
    /// A register in the low bits of the opcode.
    OpcodeReg(Width),
    /// A register of the FPU stack in the low bits of the opcode.
    Sti,
}
