// The opcode's bytes.
ghost use Rattle.opcode.specs.Heads.{op_code_text};

use forms::form::Form;
use text::pieces;
use text::pieces::{Hex, Piece, Text, When};
use text::writer::{WriteFault, Writer};

// A form's opcode: a wide one has two bytes, with a space between.
#[derive(Clone, Copy)]
pub(crate) struct OpCode<'a>(pub &'a Form);

impl Piece for OpCode<'_> {
    ghost spelled = { λ x. op_code_text x.0.now.opcode x.0.now.wide };

    fn print(self, w: &mut Writer) -> Result<(), WriteFault> {
        let OpCode(form) = self;
        let [high, low] = form.opcode.to_be_bytes();
        pieces!(When(form.wide, pieces!(Hex(high), Text(b" "))), Hex(low)).print(w)
    }
}
