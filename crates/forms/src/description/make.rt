// How a description is made, and what it hands out.
ghost use Rattle.std.specs.Prelude.{◌≡◌, ◌≤◌};
ghost use Rattle.forms.specs.Forms.{counted, described};
ghost use Rattle.forms.specs.Made.{form_in, form_got};

use super::Description;
use crate::fault::RowFault;
use crate::form::Form;
use crate::row::FormRow;
use crate::typed::typed;
use kinds::OperandKind;

impl Description {
    /// The description of a row, or the first check, of 1 to 9, that the row fails.
    pub fn from_row(row: &FormRow) -> Result<Description, RowFault>
        ensures { form_got result ≡ described row.now }
    {
        // `typed` decodes again what the checks have passed; see `FormRow::check` for why the two are apart.
        match row.check() {
            Some(fault) => Err(fault),
            None => Ok(Description { form: typed(row) }),
        }
    }

    /// The form itself.
    pub fn form(&self) -> Form
        ensures value { result ≡ form_in self.now }
        ensures few { result.count ≤ 5 }
    {
        self.form
    }

    /// The operands in their order: the counted kinds.
    pub fn operands(&self) -> &[OperandKind]
        ensures { result.now ≡ counted (form_in self.now) }
    {
        &self.form.kinds[0..self.form.count as usize]
    }
}

// `from_row` by std's trait, for code that is generic over conversions.
impl TryFrom<&FormRow> for Description {
    type Error = RowFault;

    ghost try_from_gives = { λ row r. form_got r ≡ described row.now };

    fn try_from(row: &FormRow) -> Result<Description, RowFault> {
        Description::from_row(row)
    }
}
