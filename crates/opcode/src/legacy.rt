// The opcode string of a legacy form: the parts of its head in the order in which they are read.
ghost use Rattle.std.specs.Prelude.{◌≡◌, Some};
ghost use Rattle.text.specs.Texts.{when};
ghost use Rattle.opcode.specs.Heads.{address_text, operand_text, rex_text, register_text};

use crate::formatter::OpCodeFormatter;
use crate::op_code::OpCode;
use crate::words::{append_table, mandatory_prefix, spaced};
use forms::codes::Size;
use kinds::{Role, Width};
use text::pieces;
use text::pieces::{Piece, Text, When};
use text::writer::{WriteFault, Writer};

fn address_size(size: Size) -> Text<'static>
    ensures { result.0.now ≡ address_text size }
{
    match size {
        Size::Absent => Text(b""),
        Size::S16 => Text(b"a16 "),
        Size::S32 => Text(b"a32 "),
        Size::S64 => Text(b"a64 "),
    }
}

// A size of 64 is REX.W, which stands right before the opcode.
fn operand_size(size: Size) -> Text<'static>
    ensures { result.0.now ≡ operand_text size }
{
    match size {
        Size::Absent | Size::S64 => Text(b""),
        Size::S16 => Text(b"o16 "),
        Size::S32 => Text(b"o32 "),
    }
}

// REX.W, after the mandatory prefix.
fn rex_w(size: Size) -> When<Text<'static>>
    ensures { when result.0 result.1.0.now ≡ rex_text size }
{
    When(size == Size::S64, Text(b"o64 "))
}

// The register in the low bits of the opcode, by its width.
fn op_code_bits(width: Width) -> Text<'static>
    ensures { result.0.now ≡ register_text (Some width) }
{
    match width {
        Width::W8 => Text(b"+rb"),
        Width::W16 => Text(b"+rw"),
        Width::W32 => Text(b"+rd"),
        Width::W64 => Text(b"+ro"),
    }
}

impl OpCodeFormatter<'_> {
    ghost use Rattle.text.specs.Wrote.{Wrote};
    ghost use Rattle.opcode.specs.Heads.{legacy_head};
    ghost use Rattle.opcode.specs.OpcodeText.{legacy_text};

    fn legacy_head(&self, w: &mut Writer) -> Result<(), WriteFault>
        ensures { Wrote w.old (legacy_head self.now.form self.now.operands.now) w.new result }
    {
        let form = &self.form;
        let (first, second) = append_table(form.table);
        pieces!(
            When(form.flags.fwait, Text(b"9B ")),
            address_size(form.address),
            operand_size(form.operand),
            spaced(mandatory_prefix(form.prefix)),
            rex_w(form.operand),
            spaced(first),
            spaced(second),
            OpCode(form),
            self.get_op_code_bits_operand().map(op_code_bits),
            When(self.has(Role::is_sti), Text(b"+i"))
        )
        .print(w)
    }

    // 3DNow! has no rest, so each of the others adds it to a head of its own.
    pub fn format_legacy(&self, w: &mut Writer) -> Result<(), WriteFault>
        ensures { Wrote w.old (legacy_text self.now.form self.now.operands.now) w.new result }
    {
        self.legacy_head(w)?;
        self.append_rest(w)
    }
}
