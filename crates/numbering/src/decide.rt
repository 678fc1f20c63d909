// The plan of a form's signature, from counts over all of its operands, printed or not.
ghost use Rattle.std.specs.Prelude.{◌≡◌};
ghost use Rattle.forms.specs.Made.{form_in};
ghost use Rattle.numbering.specs.Plans.{several, mask_first, vector_rule, swaps_masks, plan_of};

use crate::plan::{Plan, VectorRule};
use forms::codes::NamingOption;
use forms::description::Description;
use kinds::{Counter, OperandKind};

// Whether at least two of the kinds, gone over in their order, move the count on.
fn several(kinds: &[OperandKind], counter: Counter) -> bool
    ensures { result ≡ several counter kinds.now }
{
    kinds
        .iter()
        .filter(|kind| kind.class().counter() == counter)
        .count()
        >= 2
}

fn mask_first(operands: &[OperandKind]) -> bool
    ensures { result ≡ mask_first operands.now }
{
    match operands {
        [first, _, _, ..] => first.is_mask_first(),
        _ => false,
    }
}

fn vector_rule(option: NamingOption, first: bool) -> VectorRule
    ensures { result ≡ vector_rule option first }
{
    match (option, first) {
        (NamingOption::NoVecIndex, _) => VectorRule::Unnumbered,
        (NamingOption::VecIndexSameAsOpIndex, _) | (_, true) => VectorRule::ByPlace,
        (NamingOption::IncVecIndex, false) => VectorRule::From2,
        (NamingOption::SwapVecIndex12, false) => VectorRule::Swapped,
        _ => VectorRule::From1,
    }
}

fn swaps_masks(option: NamingOption) -> bool
    ensures { result ≡ swaps_masks option }
{
    option == NamingOption::OpMaskIsK1OrNoGprSuffix
}

impl Plan {
    /// What is decided for a form under an option.
    pub fn of(description: &Description, option: NamingOption) -> Plan
        ensures { result ≡ plan_of (form_in description.now) option }
    {
        let operands = description.operands();
        let swaps = swaps_masks(option);
        Plan {
            vectors: vector_rule(option, mask_first(operands)),
            swaps,
            bounds: several(operands, Counter::Bound),
            letters32: several(operands, Counter::Letter32) && !swaps,
            letters64: several(operands, Counter::Letter64) && !swaps,
        }
    }
}
