// The opcode string of a description, by its tag and its encoding.
ghost use Rattle.std.specs.Prelude.{◌≤◌, length};
ghost use Rattle.text.specs.Sized.{Line};
ghost use Rattle.text.specs.Wrote.{Wrote};
ghost use Rattle.forms.specs.Made.{form_in};
ghost use Rattle.opcode.specs.OpcodeText.{opcode_text};

use crate::formatter::OpCodeFormatter;
use crate::op_code::OpCode;
use forms::codes::Encoding;
use forms::description::Description;
use text::pieces;
use text::pieces::{Piece, Text};
use text::writer::{WriteFault, Writer};

impl OpCodeFormatter<'_> {
    ghost use Rattle.text.specs.Wrote.{Wrote};
    ghost use Rattle.opcode.specs.OpcodeText.{d3now_text, text_with};

    // The opcode comes after the ModRM byte, and nothing after it.
    fn format_3dnow(&self, w: &mut Writer) -> Result<(), WriteFault>
        ensures { Wrote w.old (d3now_text self.now.form) w.new result }
    {
        pieces!(Text(b"0F 0F /r "), OpCode(&self.form)).print(w)
    }

    // An entry that is no instruction has a text of its own, whatever else it holds.
    fn format(&self, w: &mut Writer) -> Result<(), WriteFault>
        ensures { Wrote w.old (text_with self.now.form self.now.operands.now) w.new result }
    {
        if let Some(text) = self.form.tag.pseudo_text(b"<zero_bytes>") {
            return w.text(text);
        }
        match self.form.encoding {
            Encoding::Legacy => self.format_legacy(w),
            Encoding::Vex => self.format_vec_encoding(w, b"VEX"),
            Encoding::Evex => self.format_vec_encoding(w, b"EVEX"),
            Encoding::Xop => self.format_vec_encoding(w, b"XOP"),
            Encoding::D3now => self.format_3dnow(w),
        }
    }
}

/// Prints the opcode string, a line of 1 to 96 bytes. A fault comes where it does not fit, and its first bytes take what
/// places are left.
#[tactic(auto, using(crate::proofs::Lines::opcode_line, crate::proofs::Lines::opcode_some), unfolding(crate::specs::OpcodeText::opcode_text))]
pub fn print_opcode(w: &mut Writer, description: &Description) -> Result<(), WriteFault>
    ensures text { Wrote w.old (opcode_text (form_in description.now)) w.new result }
    ensures line { Line 96 (opcode_text (form_in description.now)) }
    ensures some { 1 ≤ length (opcode_text (form_in description.now)) }
{
    OpCodeFormatter::new(description).format(w)
}

/// The opcode string as a piece.
#[derive(Clone, Copy, Debug, PartialEq, Eq)]
pub struct OpcodeString<'a>(pub &'a Description);

impl Piece for OpcodeString<'_> {
    ghost spelled = { λ x. opcode_text (form_in x.0.now) };

    fn print(self, w: &mut Writer) -> Result<(), WriteFault> {
        print_opcode(w, self.0)
    }
}
