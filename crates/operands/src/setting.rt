// What the operands of one signature are printed from.
use forms::codes::{MemoryLabel, Tag};
use forms::form::Flags;
use numbering::plan::Plan;

/// A memory's label, and its size in bits.
// A type apart from `Memory` of forms, whose size is in bytes: so no size in bytes is printed as one in bits.
#[derive(Clone, Copy, Debug, PartialEq, Eq)]
pub struct MemoryBits {
    pub label: MemoryLabel,
    pub bits: u32,
}

/// `memory` and `element` are the normal and the broadcast memory; `last` is how many operands stand before {sae} and {er},
/// the one that they follow included.
#[derive(Clone, Copy, Debug, PartialEq, Eq)]
pub struct Setting {
    pub tag: Tag,
    pub flags: Flags,
    pub memory: MemoryBits,
    pub element: MemoryBits,
    pub last: usize,
    pub plan: Plan,
}
