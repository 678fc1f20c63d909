// The opcode string of a VEX, EVEX or XOP form: the parts of its head in the order in which they are read.
ghost use Rattle.std.specs.Prelude.{◌≡◌};
ghost use Rattle.std.specs.Option.{option_copied};
ghost use Rattle.opcode.specs.Heads.{dotted, vector_length, dotted_prefix, w_text};

use crate::formatter::OpCodeFormatter;
use crate::op_code::OpCode;
use crate::words::{append_table, dotted, mandatory_prefix};
use forms::codes::{LengthKind, Prefix, VectorLength};
use forms::form::{Flags, Form};
use text::pieces;
use text::pieces::{Piece, Text};
use text::writer::{WriteFault, Writer};

fn vector_length(form: &Form) -> Text<'static>
    ensures { result.0.now ≡ vector_length form.now }
{
    if form.flags.lig {
        return Text(b"LIG");
    }
    match (form.lkind, form.length) {
        (LengthKind::Absent, _) => Text(b""),
        (LengthKind::L128, VectorLength::V128) => Text(b"128"),
        (LengthKind::L128, VectorLength::V256) => Text(b"256"),
        (LengthKind::L128, VectorLength::V512) => Text(b"512"),
        (LengthKind::L0, VectorLength::V128) => Text(b"L0"),
        (LengthKind::L0, VectorLength::V256) => Text(b"L1"),
        (LengthKind::L0, VectorLength::V512) => Text(b"L2"),
        (LengthKind::Lz, _) => Text(b"LZ"),
    }
}

// NP is left out.
fn dotted_prefix(prefix: Prefix) -> Option<&'static [u8]>
    ensures { dotted (option_copied result) ≡ dotted_prefix prefix }
{
    if prefix == Prefix::Pnp {
        None
    } else {
        mandatory_prefix(prefix)
    }
}

fn w_bit(flags: Flags) -> Text<'static>
    ensures { result.0.now ≡ w_text flags }
{
    if flags.wig {
        Text(b".WIG")
    } else if flags.w {
        Text(b".W1")
    } else {
        Text(b".W0")
    }
}

impl OpCodeFormatter<'_> {
    ghost use Rattle.text.specs.Wrote.{Wrote};
    ghost use Rattle.opcode.specs.Heads.{vec_head};
    ghost use Rattle.opcode.specs.OpcodeText.{vec_text};

    // The encoding's name comes first.
    fn vec_head(&self, w: &mut Writer, name: &'static [u8]) -> Result<(), WriteFault>
        ensures { Wrote w.old (vec_head name.now self.now.form) w.new result }
    {
        let form = &self.form;
        let (first, second) = append_table(form.table);
        pieces!(
            Text(name),
            Text(b"."),
            vector_length(form),
            dotted(dotted_prefix(form.prefix)),
            dotted(first),
            second.map(Text),
            w_bit(form.flags),
            Text(b" "),
            OpCode(form)
        )
        .print(w)
    }

    pub fn format_vec_encoding(&self, w: &mut Writer, name: &'static [u8]) -> Result<(), WriteFault>
        ensures { Wrote w.old (vec_text name.now self.now.form self.now.operands.now) w.new result }
    {
        self.vec_head(w, name)?;
        self.append_rest(w)
    }
}
