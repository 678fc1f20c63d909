// What stands after the head: the ModRM part, and the suffixes of the operands.
ghost use Rattle.std.specs.Prelude.{◌≡◌};
ghost use Rattle.opcode.specs.Rest.{suffix_text, is_last};

use crate::formatter::OpCodeFormatter;
use kinds::Suffix;
use text::pieces::{Piece, Text};
use text::writer::{WriteFault, Writer};

fn append_suffix(suffix: Suffix) -> Text<'static>
    ensures { result.0.now ≡ suffix_text suffix }
{
    match suffix {
        Suffix::Plain => Text(b""),
        Suffix::Cb => Text(b" cb"),
        Suffix::Cw => Text(b" cw"),
        Suffix::Cd => Text(b" cd"),
        Suffix::Cp => Text(b" cp"),
        Suffix::Ib => Text(b" ib"),
        Suffix::Iw => Text(b" iw"),
        Suffix::Id => Text(b" id"),
        Suffix::Io => Text(b" io"),
        Suffix::Is4 => Text(b" /is4"),
        Suffix::Is5 => Text(b" /is5"),
        Suffix::Mo => Text(b" mo"),
    }
}

fn is_last(suffix: Suffix) -> bool
    ensures { result ≡ is_last suffix }
{
    suffix == Suffix::Is5
}

impl OpCodeFormatter<'_> {
    ghost use Rattle.text.specs.Wrote.{Wrote};
    ghost use Rattle.opcode.specs.Rest.{suffixes_text, rest_text};

    // In the order of the operands; the immediate after an /is5 is not shown.
    fn append_suffixes(&self, w: &mut Writer) -> Result<(), WriteFault>
        ensures { Wrote w.old (suffixes_text self.now.operands.now) w.new result }
    {
        for kind in self.operands {
            let suffix = kind.suffix();
            append_suffix(suffix).print(w)?;
            if is_last(suffix) {
                break;
            }
        }
        Ok(())
    }

    pub fn append_rest(&self, w: &mut Writer) -> Result<(), WriteFault>
        ensures { Wrote w.old (rest_text self.now.form self.now.operands.now) w.new result }
    {
        self.append_modrm(w)?;
        self.append_suffixes(w)
    }
}
