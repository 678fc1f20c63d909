// The operands of a signature, walked in their order.
ghost use Rattle.std.specs.Prelude.{◌≡◌, ◌+◌, ◌≤◌, false, [], length};
ghost use Rattle.signature.specs.Pieces.{implied_text, spelled};
ghost use Rattle.signature.specs.Walk.{walk};
ghost use Rattle.text.specs.Wrote.{Wrote};

use crate::operand::Walk;
use forms::codes::Tag;
use kinds::OperandKind;
use numbering::rank::Rank;
use operands::Setting;
use text::pieces::{Piece, Text};
use text::writer::{WriteFault, Writer};

// The operands that a form's tag implies.
fn implied(tag: Tag) -> Text<'static>
    ensures { result.0.now ≡ implied_text tag }
{
    match tag {
        Tag::ImpliedEdxEax => Text(b", <edx>, <eax>"),
        Tag::ImpliedXmm0 => Text(b", <XMM0>"),
        Tag::ImpliedXmm0To7 => Text(b", <XMM0-7>"),
        Tag::ImpliedEaxXmm0 => Text(b", <EAX>, <XMM0>"),
        Tag::ImpliedXmm0To2And4To6 => Text(b", <XMM0-2>, <XMM4-6>"),
        Tag::ImpliedXmm0To6 => Text(b", <XMM0-6>"),
        Tag::ImpliedEax => Text(b", <EAX>"),
        _ => Text(b""),
    }
}

// The operands from the place `first` on, and those that are implied.
pub(crate) fn print_operands(
    w: &mut Writer,
    setting: Setting,
    first: usize,
    kinds: &[OperandKind],
) -> Result<(), WriteFault>
    requires { first + length kinds.now ≤ 5 }
    ensures { Wrote w.old (spelled setting (walk setting [] false first kinds.now)) w.new result }
{
    let mut walk = Walk::new(setting);
    // An operand's place decides what follows it, and may be its number.
    for (i, kind) in kinds.iter().enumerate() {
        walk.print_operand(w, Rank::after(first + i), *kind)?;
    }
    implied(setting.tag).print(w)
}
