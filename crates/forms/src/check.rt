// The checks of rows, in the order of their numbers.
ghost use Rattle.std.specs.Prelude.{◌≡◌, not, ◌&&◌, ◌||◌, ◌==◌, nat_le, nat_lt};
ghost use Rattle.forms.specs.Checks.{codes_outside, operands_wrong, no_size, opcode_wrong, index_outside, length_wrong, broadcast_wrong, operands_fault, numbers_fault, form_fault, mnemonic_wrong, in_set, all_in_set, memory_outside, naming_fault, pair_fault};
ghost use Rattle.forms.specs.Operands.{kinds_of};

use crate::codes::{Encoding, LengthKind, NamingOption, Prefix, Size, Table, Tag, VectorLength};
use crate::fault::RowFault;
use crate::form::{Flags, Memory};
use crate::operands::{
    any, any_unknown, is_general_register_or_memory, kinds_of, seg_rdi_misplaced,
};
use crate::row::{FormRow, MemoryRow, NamingRow};
use kinds::OperandKind;

// Past the code of MVEX, which check 2 refuses.
fn is_outside(encoding: u32) -> bool
    ensures { result ≡ nat_lt 5 encoding }
{
    Encoding::try_from(encoding) == Err(RowFault::CodeOutside)
}

#[tactic(auto, using(crate::proofs::Meanings::table_outside, crate::proofs::Meanings::prefix_outside, crate::proofs::Meanings::length_kind_outside, crate::proofs::Meanings::tag_outside, crate::proofs::Meanings::any_of_five))]
fn codes_outside(row: &FormRow) -> bool
    ensures { result ≡ codes_outside row.now }
{
    if is_outside(row.encoding) || row.flags > 2047 {
        return true;
    }
    let table = Table::try_from(row.table).is_err();
    let prefix = Prefix::try_from(row.prefix).is_err();
    let lkind = LengthKind::try_from(row.lkind).is_err();
    let tag = Tag::try_from(row.tag).is_err();
    table || prefix || lkind || tag || any_unknown(&row.kinds)
}

fn operands_wrong(kinds: &[OperandKind; 5], count: u32) -> bool
    ensures { result ≡ operands_wrong kinds.now count }
{
    match kinds.split_at_checked(count as usize) {
        Some((counted, rest)) => any(counted, OperandKind::is_absent)
            || any(rest, |kind| !kind.is_absent()),
        None => true,
    }
}

// This test and its like (`no_length`, `is_outside`, `is_unknown`) are a function for each word of specs/Checks.
fn no_size(bits: u32) -> bool
    ensures { result ≡ no_size bits }
{
    Size::try_from(bits).is_err()
}

fn opcode_wrong(opcode: u16, bytes: u32) -> bool
    ensures { result ≡ opcode_wrong opcode bytes }
{
    (bytes != 1 && bytes != 2) || (bytes == 1 && opcode > 255)
}

fn index_outside(index: i32) -> bool
    ensures { result ≡ index_outside index }
{
    index < -1 || index > 7
}

fn is_vector(encoding: u32) -> bool
    ensures { result ≡ (nat_le 1 encoding && nat_le encoding 3) }
{
    matches!(
        Encoding::try_from(encoding),
        Ok(Encoding::Vex | Encoding::Evex | Encoding::Xop)
    )
}

// Without LIG a length is spelled, and LZ spells no other length than 0.
fn is_misspelled(lkind: u32, length: u32) -> bool
    ensures { result ≡ (lkind == 0 || (lkind == 3 && not (length == 0))) }
{
    match LengthKind::try_from(lkind) {
        Ok(LengthKind::Absent) => true,
        Ok(LengthKind::Lz) => length != 0,
        _ => false,
    }
}

#[tactic(auto, using(crate::proofs::Meanings::length_outside))]
fn no_length(length: u32) -> bool
    ensures { result ≡ nat_lt 2 length }
{
    VectorLength::try_from(length).is_err()
}

fn length_wrong(row: &FormRow) -> bool
    ensures { result ≡ length_wrong row.now }
{
    let lig = Flags::from(row.flags).lig;
    no_length(row.length)
        || (is_vector(row.encoding) && !lig && is_misspelled(row.lkind, row.length))
}

fn broadcast_wrong(kinds: &[OperandKind; 5], flags: u16) -> bool
    ensures { result ≡ broadcast_wrong kinds.now flags }
{
    Flags::from(flags).broadcast && any(kinds, is_general_register_or_memory)
}

// Checks 1 to 4, one `if` each in their order.
fn operands_fault(row: &FormRow, kinds: &[OperandKind; 5]) -> Option<RowFault>
    ensures { result ≡ operands_fault row.now kinds.now }
{
    if codes_outside(row) {
        return Some(RowFault::CodeOutside);
    }
    if Encoding::try_from(row.encoding) == Err(RowFault::Mvex) {
        return Some(RowFault::Mvex);
    }
    if operands_wrong(kinds, row.count) {
        return Some(RowFault::OperandCount);
    }
    if seg_rdi_misplaced(kinds) {
        return Some(RowFault::SegRdiPlace);
    }
    None
}

// Checks 5 to 9.
fn numbers_fault(row: &FormRow, kinds: &[OperandKind; 5]) -> Option<RowFault>
    ensures { result ≡ numbers_fault row.now kinds.now }
{
    if no_size(row.address) || no_size(row.operand) {
        return Some(RowFault::FixedSize);
    }
    if opcode_wrong(row.opcode, row.bytes) {
        return Some(RowFault::OpcodeLength);
    }
    if index_outside(row.group) || index_outside(row.rm) {
        return Some(RowFault::GroupIndex);
    }
    if length_wrong(row) {
        return Some(RowFault::VectorLength);
    }
    if broadcast_wrong(kinds, row.flags) {
        return Some(RowFault::Broadcast);
    }
    None
}

impl FormRow {
    // A row is judged first and turned into types after, and not by one chain of `?`: check 1 looks at all codes before check 2
    // looks at one, and a vector length is refused after sizes, opcode and indices, so a chain would carry half a form from
    // check to check.
    /// The first check that the row fails, of 1 to 9.
    pub fn check(&self) -> Option<RowFault>
        ensures { result ≡ form_fault self.now }
    {
        let kinds = kinds_of(self);
        operands_fault(self, &kinds).or_else(|| numbers_fault(self, &kinds))
    }
}

fn in_set(b: u8) -> bool
    ensures { result ≡ in_set b }
{
    b.is_ascii_alphanumeric() || b == b'_'
}

fn all_in_set(text: &[u8]) -> bool
    ensures { result ≡ all_in_set text.now }
{
    text.iter().all(|b| in_set(*b))
}

pub(crate) fn mnemonic_wrong(text: &[u8]) -> bool
    ensures { result ≡ mnemonic_wrong text.now }
{
    text.is_empty() || text.len() > 32 || !all_in_set(text)
}

// Whether check 11 refuses a memory: its label or its size.
fn memory_outside(memory: MemoryRow) -> bool
    ensures { result ≡ memory_outside memory }
{
    Memory::try_from(memory).is_err()
}

#[tactic(auto, using(crate::proofs::Meanings::option_outside))]
fn no_option(option: u32) -> bool
    ensures { result ≡ nat_lt 6 option }
{
    NamingOption::try_from(option).is_err()
}

impl NamingRow<'_> {
    // A row is judged without the naming that it stands for, as a form's row is: a shelf checks all its rows.
    /// The first check that the row fails, of 10 and 11.
    pub fn check(&self) -> Option<RowFault>
        ensures { result ≡ naming_fault self.now }
    {
        if mnemonic_wrong(self.mnemonic) {
            return Some(RowFault::Mnemonic);
        }
        if no_option(self.option) || memory_outside(self.memory) || memory_outside(self.broadcast) {
            return Some(RowFault::NamingCode);
        }
        None
    }
}

/// The first check that a form's row and its naming's fail: those of the form, 1 to 9, then those of the naming, 10 and 11.
// Two arguments here and wherever rows are read: they are lent as two slices, of which one may be longer, and no slice of pairs
// stands anywhere.
#[tactic(auto, unfolding(crate::specs::Checks::pair_fault))]
pub fn check_pair(row: &FormRow, naming: &NamingRow) -> Option<RowFault>
    ensures { result ≡ pair_fault row.now naming.now }
{
    match row.check() {
        Some(fault) => Some(fault),
        None => naming.check(),
    }
}
