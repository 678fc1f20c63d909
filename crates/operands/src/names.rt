// The names of registers and of fixed operands.
ghost use Rattle.std.specs.Prelude.{◌≡◌};
ghost use Rattle.operands.specs.Operands.{bank_text, word_text, register_text};

use kinds::{Bank, Register, Word};
use text::pieces::Text;

pub(crate) fn bank_name(bank: Bank) -> Text<'static>
    ensures { result.0.now ≡ bank_text bank }
{
    match bank {
        Bank::Mm => Text(b"mm"),
        Bank::Xmm => Text(b"xmm"),
        Bank::Ymm => Text(b"ymm"),
        Bank::Zmm => Text(b"zmm"),
    }
}

pub(crate) fn word_name(word: Word) -> Text<'static>
    ensures { result.0.now ≡ word_text word }
{
    match word {
        Word::Ptr1616 => Text(b"ptr16:16"),
        Word::Ptr1632 => Text(b"ptr16:32"),
        Word::Mib => Text(b"mib"),
        Word::Vm32x => Text(b"vm32x"),
        Word::Vm64x => Text(b"vm64x"),
        Word::Vm32y => Text(b"vm32y"),
        Word::Vm64y => Text(b"vm64y"),
        Word::Vm32z => Text(b"vm32z"),
        Word::Vm64z => Text(b"vm64z"),
        Word::Sreg => Text(b"Sreg"),
        Word::Cr => Text(b"cr"),
        Word::Dr => Text(b"dr"),
        Word::Tr => Text(b"tr"),
        Word::Imm4 => Text(b"imm4"),
        Word::Imm8 => Text(b"imm8"),
        Word::One => Text(b"1"),
        Word::Imm16 => Text(b"imm16"),
        Word::Imm32 => Text(b"imm32"),
        Word::Imm64 => Text(b"imm64"),
        Word::Rel8 => Text(b"rel8"),
        Word::Rel16 => Text(b"rel16"),
        Word::Rel32 => Text(b"rel32"),
        Word::Disp16 => Text(b"disp16"),
        Word::Disp32 => Text(b"disp32"),
        Word::Sibmem => Text(b"sibmem"),
    }
}

pub(crate) fn register_name(register: Register) -> Text<'static>
    ensures { result.0.now ≡ register_text register }
{
    match register {
        Register::Es => Text(b"ES"),
        Register::Cs => Text(b"CS"),
        Register::Ss => Text(b"SS"),
        Register::Ds => Text(b"DS"),
        Register::Fs => Text(b"FS"),
        Register::Gs => Text(b"GS"),
        Register::Al => Text(b"AL"),
        Register::Cl => Text(b"CL"),
        Register::Ax => Text(b"AX"),
        Register::Dx => Text(b"DX"),
        Register::Eax => Text(b"EAX"),
        Register::Rax => Text(b"RAX"),
    }
}
