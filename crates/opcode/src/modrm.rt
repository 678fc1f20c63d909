// The ModRM part: field by field where the form asks for that, else in brief.
ghost use Rattle.std.specs.Prelude.{◌≡◌};
ghost use Rattle.opcode.specs.Rest.{bits_text, mod_text, info_text};

use crate::formatter::OpCodeFormatter;
use forms::codes::Encoding;
use kinds::Role;
use text::pieces;
use text::pieces::{Decimal, Piece, Text, When};
use text::writer::{WriteFault, Writer};

fn mod_field(memory: bool) -> Text<'static>
    ensures { result.0.now ≡ mod_text memory }
{
    if memory {
        Text(b" !(11):")
    } else {
        Text(b" 11:")
    }
}

// Three binary digits, or the field's name where nothing fixes them.
#[derive(Clone, Copy)]
struct Bits(&'static [u8], Option<u8>);

impl Piece for Bits {
    ghost spelled = { λ x. bits_text x.0.now x.1 };

    fn print(self, w: &mut Writer) -> Result<(), WriteFault> {
        match self.1 {
            None => w.text(self.0),
            Some(n) => w.text(&[b'0' + (n >> 2 & 1), b'0' + (n >> 1 & 1), b'0' + (n & 1)]),
        }
    }
}

// What is said of the ModRM byte: whether it names memory alone, and its reg and rm fields where they are fixed.
#[derive(Clone, Copy)]
struct ModRmInfo {
    memory: bool,
    rrr: Option<u8>,
    bbb: Option<u8>,
}

impl Piece for ModRmInfo {
    ghost spelled = { λ x. info_text x.memory x.rrr x.bbb };

    fn print(self, w: &mut Writer) -> Result<(), WriteFault> {
        pieces!(
            mod_field(self.memory),
            Bits(b"rrr", self.rrr),
            Text(b":"),
            Bits(b"bbb", self.bbb)
        )
        .print(w)
    }
}

impl OpCodeFormatter<'_> {
    ghost use Rattle.kinds.specs.Roles.{is_memory};
    ghost use Rattle.text.specs.Wrote.{Wrote};
    ghost use Rattle.opcode.specs.Operands.{has};
    ghost use Rattle.opcode.specs.Rest.{has_mod_rm, has_vsib, rm_field, modrm_text};

    // Beside an operand EVEX, XOP and 3DNow! always have a ModRM byte.
    fn has_mod_rm(&self) -> bool
        ensures { result ≡ has_mod_rm self.now.form.encoding self.now.operands.now }
    {
        !self.operands.is_empty()
            && (matches!(
                self.form.encoding,
                Encoding::Evex | Encoding::Xop | Encoding::D3now
            ) || self.has(Role::brings_modrm))
    }

    // Only EVEX says that the memory has a vector of indices.
    fn has_vsib(&self) -> bool
        ensures { result ≡ has_vsib self.now.form.encoding self.now.operands.now }
    {
        self.form.encoding == Encoding::Evex && self.has(Role::is_vsib)
    }

    // Memory with a SIB byte has 4 in the rm field.
    fn get_modrm_info(&self) -> ModRmInfo
        ensures memory { result.memory ≡ has is_memory self.now.operands.now }
        ensures rrr { result.rrr ≡ self.now.form.group }
        ensures bbb { result.bbb ≡ rm_field self.now.form self.now.operands.now }
    {
        ModRmInfo {
            memory: self.has(Role::is_memory),
            rrr: self.form.group,
            bbb: if self.has(Role::fixes_rm) {
                Some(4)
            } else {
                self.form.rm
            },
        }
    }

    // The fields of the ModRM byte, or in brief: the group or r, and that it has a vector of indices.
    pub fn append_modrm(&self, w: &mut Writer) -> Result<(), WriteFault>
        ensures { Wrote w.old (modrm_text self.now.form self.now.operands.now) w.new result }
    {
        if self.form.flags.modrm {
            return self.get_modrm_info().print(w);
        }
        let vsib = self.has_vsib();
        let indices = When(vsib, Text(b" /vsib"));
        match self.form.group {
            Some(group) => pieces!(Text(b" /"), Decimal(u32::from(group)), indices).print(w),
            None => pieces!(When(!vsib && self.has_mod_rm(), Text(b" /r")), indices).print(w),
        }
    }
}
