// What the checks ask of a row's operand kinds.
ghost use Rattle.std.specs.Prelude.{◌≡◌, Bool, drop, nat_lt};
ghost use Rattle.std.specs.List.{list_any};
ghost use Rattle.kinds.specs.Kinds.{is_seg_rdi};
ghost use Rattle.forms.specs.Operands.{is_general_register_or_memory, kind_of, kinds_of};

use crate::row::FormRow;
use kinds::OperandKind;

// Whether one of the items passes the test, which computes some predicate p.
pub(crate) fn any<T: Copy, F: Fn(T) -> bool>(items: &[T], test: F) -> bool
    requires { F.IsAlwaysCallable test }
    ensures { (p : T → Bool) → ((item : T) (b : Bool) → F.post test item b → b ≡ p item) → result ≡ list_any p items.now }
{
    items.iter().any(|item| test(*item))
}

// Whether seg_rDI stands elsewhere than at operand 0. A chain with a `skip`, as `any` of a part of the array leaves the goal of
// check 4 open.
pub(crate) fn seg_rdi_misplaced(kinds: &[OperandKind]) -> bool
    ensures { result ≡ list_any is_seg_rdi (drop 1 kinds.now) }
{
    kinds.iter().skip(1).any(|kind| kind.is_seg_rdi())
}

// By name, as check 9 lists them: it asks for kinds, and not for how they are printed.
pub(crate) fn is_general_register_or_memory(kind: OperandKind) -> bool
    ensures { result ≡ is_general_register_or_memory kind }
{
    matches!(
        kind,
        OperandKind::R8OrMem
            | OperandKind::R16OrMem
            | OperandKind::R32OrMem
            | OperandKind::R32OrMemMpx
            | OperandKind::R64OrMem
            | OperandKind::R64OrMemMpx
    )
}

// Whether a number is no kind's.
#[tactic(auto, using(crate::proofs::Meanings::unknown_past))]
fn is_unknown(code: u32) -> bool
    ensures { result ≡ nat_lt 108 code }
{
    OperandKind::try_from(code).is_err()
}

// A function of its own: beside the other codes of check 1 a call of `any` leaves that check's goal open.
pub(crate) fn any_unknown(codes: &[u32]) -> bool
    ensures { result ≡ list_any (nat_lt 108) codes.now }
{
    any(codes, is_unknown)
}

fn kind_of(code: u32) -> OperandKind
    ensures { result ≡ kind_of code }
{
    OperandKind::try_from(code).unwrap_or(OperandKind::Absent)
}

// The five kinds of a row; a number that is no kind's stands for none.
pub(crate) fn kinds_of(row: &FormRow) -> [OperandKind; 5]
    ensures { result ≡ kinds_of row.now.kinds }
{
    row.kinds.map(kind_of)
}
