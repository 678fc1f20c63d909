// What a signature decides before its operands are walked.

/// How vectors are numbered: not at all, by their place, from 1, from 2, or 2, 1, 3, 4, 5.
#[derive(Clone, Copy, Debug, PartialEq, Eq)]
pub enum VectorRule {
    Unnumbered,
    ByPlace,
    From1,
    From2,
    Swapped,
}

/// `swaps`: masks are numbered 2, 1, 3 in place of 1, 2, 3. `bounds`: bound registers have numbers. `letters32` and
/// `letters64`: general registers of that width have letters.
#[derive(Clone, Copy, Debug, PartialEq, Eq)]
pub struct Plan {
    pub vectors: VectorRule,
    pub swaps: bool,
    pub bounds: bool,
    pub letters32: bool,
    pub letters64: bool,
}
