// A row that has passed its checks, turned into types.
ghost use Rattle.std.specs.Prelude.{◌≡◌, false};
ghost use Rattle.forms.specs.Checks.{index_outside, no_size};
ghost use Rattle.forms.specs.Forms.{index_of, size_of, typed, InSets};

use crate::codes::{Encoding, LengthKind, Prefix, Size, Table, Tag, VectorLength};
use crate::form::{Flags, Form};
use crate::operands::kinds_of;
use crate::row::FormRow;

// Check 7 asks whether an index is one, and this which; a `Result` of an `Option` for both would be opened by `is_err` there
// and by `unwrap` here.
fn index_of(index: i32) -> Option<u8>
    requires { index_outside index ≡ false }
    ensures { result ≡ index_of index }
{
    u8::try_from(index).ok()
}

// The sizes that the form fixes: of its address, and of its operand. Apart from `typed`, where each `unwrap` makes the goals
// of those after it longer.
#[tactic(auto, using(crate::proofs::Meanings::size_within))]
fn fixed_sizes(row: &FormRow) -> (Size, Size)
    requires address { no_size row.now.address ≡ false }
    requires operand { no_size row.now.operand ≡ false }
    ensures { result ≡ (size_of row.now.address, size_of row.now.operand) }
{
    let address = Size::try_from(row.address).unwrap();
    let operand = Size::try_from(row.operand).unwrap();
    (address, operand)
}

pub(crate) fn typed(row: &FormRow) -> Form
    requires { InSets row.now }
    ensures { result ≡ typed row.now }
{
    let (address, operand) = fixed_sizes(row);
    Form {
        encoding: Encoding::try_from(row.encoding).unwrap(),
        table: Table::try_from(row.table).unwrap(),
        prefix: Prefix::try_from(row.prefix).unwrap(),
        opcode: row.opcode,
        wide: row.bytes == 2,
        address,
        operand,
        length: VectorLength::try_from(row.length).unwrap(),
        lkind: LengthKind::try_from(row.lkind).unwrap(),
        flags: Flags::from(row.flags),
        group: index_of(row.group),
        rm: index_of(row.rm),
        kinds: kinds_of(row),
        count: row.count as u8,
        tag: Tag::try_from(row.tag).unwrap(),
    }
}
