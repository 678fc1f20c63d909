// Which count an operand moves on as it is printed.
ghost use Rattle.std.specs.Prelude.{◌≡◌};
ghost use Rattle.kinds.specs.Counters.{counter_of};

use crate::table::{Class, Width};

/// The counts that run along a signature. Letter32 and Letter64 count the plain registers of a width.
#[derive(Clone, Copy, Debug, PartialEq, Eq)]
pub enum Counter {
    Uncounted,
    Vector,
    Mask,
    Tile,
    Bound,
    Letter32,
    Letter64,
}

impl Class {
    /// The count that an operand of this class moves on.
    pub fn counter(self) -> Counter
        ensures { result ≡ counter_of self }
    {
        match self {
            Class::Vec(_) | Class::VecMem(_) | Class::VecPlus3(_) => Counter::Vector,
            Class::Mask | Class::MaskMem | Class::MaskPlus1 => Counter::Mask,
            Class::Tile => Counter::Tile,
            Class::Bound | Class::BoundMem => Counter::Bound,
            Class::Gpr(Width::W32) => Counter::Letter32,
            Class::Gpr(Width::W64) => Counter::Letter64,
            _ => Counter::Uncounted,
        }
    }
}
