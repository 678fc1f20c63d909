// What the part of an operand in the opcode string asks for.
ghost use Rattle.std.specs.Prelude.{◌≡◌};
ghost use Rattle.kinds.specs.Roles.{brings_modrm, is_memory, is_vsib, fixes_rm, is_sti, opcode_register};

use crate::table::{Role, Width};

impl Role {
    /// The encoding has a ModRM byte.
    pub fn brings_modrm(self) -> bool
        ensures { result ≡ brings_modrm self }
    {
        matches!(self, Role::ModRm | Role::Mem | Role::Vsib | Role::Sibmem)
    }

    /// The operand is memory and nothing else.
    pub fn is_memory(self) -> bool
        ensures { result ≡ is_memory self }
    {
        matches!(self, Role::Mem | Role::Moffs | Role::Vsib | Role::Sibmem)
    }

    /// The memory has a vector of indices.
    pub fn is_vsib(self) -> bool
        ensures { result ≡ is_vsib self }
    {
        self == Role::Vsib
    }

    /// The rm field of the ModRM byte is 4, which says that a SIB byte follows.
    pub fn fixes_rm(self) -> bool
        ensures { result ≡ fixes_rm self }
    {
        matches!(self, Role::Vsib | Role::Sibmem)
    }

    /// The width of the register in the low bits of the opcode, if there is one.
    pub fn opcode_register(self) -> Option<Width>
        ensures { result ≡ opcode_register self }
    {
        match self {
            Role::OpcodeReg(width) => Some(width),
            _ => None,
        }
    }

    /// The low bits of the opcode name a register of the FPU stack.
    pub fn is_sti(self) -> bool
        ensures { result ≡ is_sti self }
    {
        self == Role::Sti
    }
}
