// A form and its name, both checked.
use crate::description::Description;
use crate::naming::Naming;

/// A form and its name.
#[derive(Clone, Copy, Debug, PartialEq, Eq)]
pub struct Entry {
    pub description: Description,
    pub naming: Naming,
}
