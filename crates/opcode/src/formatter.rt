// What an opcode string is made from: a form and its counted operands. Each part of the string is a method.
use forms::description::Description;
use forms::form::Form;
use kinds::OperandKind;

// No ghost field says that the operands are those counted in the form: the texts are defined over a form and its operands,
// so a clause would name both all the same.
#[derive(Clone, Copy)]
pub(crate) struct OpCodeFormatter<'a> {
    pub form: Form,
    pub operands: &'a [OperandKind],
}

impl<'a> OpCodeFormatter<'a> {
    ghost use Rattle.std.specs.Prelude.{◌≡◌};
    ghost use Rattle.forms.specs.Forms.{counted};
    ghost use Rattle.forms.specs.Made.{form_in};

    pub fn new(description: &'a Description) -> OpCodeFormatter<'a>
        ensures form { result.form ≡ form_in description.now }
        ensures operands { result.operands.now ≡ counted (form_in description.now) }
    {
        OpCodeFormatter {
            form: description.form(),
            operands: description.operands(),
        }
    }
}
