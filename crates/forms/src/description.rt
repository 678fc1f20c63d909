// A description is a form that has passed the checks of its row.
ghost use Rattle.forms.specs.Passed.{Passed};

use crate::form::Form;

pub mod make;

/// A form that has passed checks 1 to 9; there is no other way to have one.
#[derive(Clone, Copy, Debug, PartialEq, Eq)]
pub struct Description {
    form: Form,
    ghost passed: { Passed form },
}
