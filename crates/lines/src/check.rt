// A row and its naming, checked together.
ghost use Rattle.std.specs.Prelude.{◌≡◌};
ghost use Rattle.lines.specs.Checked.{both_got, both_of};

use forms::description::Description;
use forms::entry::Entry;
use forms::fault::RowFault;
use forms::naming::Naming;
use forms::row::{FormRow, NamingRow};

/// What a row and its naming stand for, or the first check that fails, of 1 to 11.
pub fn checked(row: &FormRow, naming: &NamingRow) -> Result<Entry, RowFault>
    ensures { both_got result ≡ both_of row.now naming.now }
{
    let description = Description::from_row(row)?;
    let naming = Naming::from_row(naming)?;
    Ok(Entry {
        description,
        naming,
    })
}
