// What a description and a naming give to the signature.
ghost use Rattle.std.specs.Prelude.{◌≡◌, ◌≤◌};
ghost use Rattle.std.specs.List.{list_any};
ghost use Rattle.kinds.specs.Kinds.{hides_all};
ghost use Rattle.forms.specs.Made.{form_in, name_in};
ghost use Rattle.signature.specs.Settings.{ends_in_imm8, last_of, in_bits, setting_of, start_of, walked};

use forms::codes::{Encoding, NamingOption};
use forms::description::Description;
use forms::form::Memory;
use forms::naming::Naming;
use kinds::OperandKind;
use numbering::plan::Plan;
use operands::{MemoryBits, Setting};

fn ends_in_imm8(operands: &[OperandKind]) -> bool
    ensures { result ≡ ends_in_imm8 operands.now }
{
    operands.last().is_some_and(|kind| kind.is_imm8())
}

// How many operands stand before {sae} and {er}.
fn last_of(description: &Description) -> usize
    ensures { result ≡ last_of (form_in description.now) }
{
    let operands = description.operands();
    if description.form().encoding != Encoding::Legacy && ends_in_imm8(operands) {
        operands.len() - 1
    } else {
        operands.len()
    }
}

fn in_bits(memory: Memory) -> MemoryBits
    requires { memory.size ≤ 512 }
    ensures { result ≡ in_bits memory }
{
    MemoryBits {
        label: memory.label,
        bits: memory.size * 8,
    }
}

pub(crate) fn setting_of(description: &Description, naming: &Naming) -> Setting
    ensures { result ≡ setting_of (form_in description.now) (name_in naming.now) }
{
    let form = description.form();
    Setting {
        tag: form.tag,
        flags: form.flags,
        memory: in_bits(naming.memory()),
        element: in_bits(naming.broadcast()),
        last: last_of(description),
        plan: Plan::of(description, naming.option()),
    }
}

// The first place that is walked.
pub(crate) fn start_of(option: NamingOption) -> usize
    ensures { result ≡ start_of option }
{
    if option == NamingOption::SkipOp0 {
        1
    } else {
        0
    }
}

fn hides_all(operands: &[OperandKind]) -> bool
    ensures { result ≡ list_any hides_all operands.now }
{
    operands.iter().any(|kind| kind.hides_all())
}

// The operands that are walked.
pub(crate) fn walked<'a>(description: &'a Description, option: NamingOption) -> &'a [OperandKind]
    ensures { result.now ≡ walked (form_in description.now) option }
{
    let operands = description.operands();
    if hides_all(operands) {
        &[]
    } else {
        &operands[start_of(option).min(operands.len())..]
    }
}
