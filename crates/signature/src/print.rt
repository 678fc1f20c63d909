// The whole signature.
ghost use Rattle.std.specs.Prelude.{◌≡◌, ◌≤◌, length};
ghost use Rattle.forms.specs.Made.{form_in, name_in};
ghost use Rattle.text.specs.Sized.{Line};
ghost use Rattle.text.specs.Wrote.{Wrote};
ghost use Rattle.signature.specs.Signature.{signature_text, NumbersDiffer};

use crate::setting::{setting_of, start_of, walked};
use crate::walk::print_operands;
use forms::description::Description;
use forms::naming::Naming;
use text::pieces;
use text::pieces::{Piece, Text, Upper, When};
use text::writer::{WriteFault, Writer};

// The first clause of `print_signature`, which is of what is written; the others are of the text alone. A form and a name are two
// arguments, since a source lends them from two lists.
fn print_text(w: &mut Writer, description: &Description, naming: &Naming) -> Result<(), WriteFault>
    ensures { Wrote w.old (signature_text (form_in description.now) (name_in naming.now)) w.new result }
{
    let setting = setting_of(description, naming);
    if let Some(text) = setting.tag.pseudo_text(b"ZERO_BYTES") {
        return w.text(text);
    }
    let option = naming.option();
    // The space by the length, as specs/Signature has it.
    let kinds = walked(description, option);
    pieces!(Upper(naming.mnemonic()), When(kinds.len() > 0, Text(b" "))).print(w)?;
    print_operands(w, setting, start_of(option), kinds)
}

/// Prints the signature of a form under a name: a line of 1 to 256 bytes, in which the numbers of a class of registers differ
/// and letters run without a gap. A fault comes where it does not fit, and its first bytes take what places are left.
pub fn print_signature(
    w: &mut Writer,
    description: &Description,
    naming: &Naming,
) -> Result<(), WriteFault>
    ensures wrote { Wrote w.old (signature_text (form_in description.now) (name_in naming.now)) w.new result }
    ensures differ { NumbersDiffer (form_in description.now) (name_in naming.now) }
    ensures line { Line 256 (signature_text (form_in description.now) (name_in naming.now)) }
    ensures some { 1 ≤ length (signature_text (form_in description.now) (name_in naming.now)) }
{
    print_text(w, description, naming)
}

/// The signature as a piece.
#[derive(Clone, Copy, Debug, PartialEq, Eq)]
pub struct SignatureText<'a> {
    pub description: &'a Description,
    pub naming: &'a Naming,
}

impl Piece for SignatureText<'_> {
    ghost spelled = { λ x. signature_text (form_in x.description.now) (name_in x.naming.now) };

    fn print(self, w: &mut Writer) -> Result<(), WriteFault> {
        print_signature(w, self.description, self.naming)
    }
}
