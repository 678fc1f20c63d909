// Plain rows, as they are typed or stored: any number may stand in them.

use kinds::OperandKind;

/// The code of the kind that stands where there is no operand.
pub const NO_OPERAND: u32 = OperandKind::Absent as u32;

/// One form. The first `count` of the five operand kinds are its operands; `bytes` is the opcode's length.
#[derive(Clone, Copy, Debug, PartialEq, Eq)]
pub struct FormRow {
    pub encoding: u32,
    pub table: u32,
    pub prefix: u32,
    pub opcode: u16,
    pub bytes: u32,
    pub address: u32,
    pub operand: u32,
    pub length: u32,
    pub lkind: u32,
    pub flags: u16,
    pub group: i32,
    pub rm: i32,
    pub kinds: [u32; 5],
    pub count: u32,
    pub tag: u32,
}

/// A memory operand's label and its size in bytes.
#[derive(Clone, Copy, Debug, PartialEq, Eq)]
pub struct MemoryRow {
    pub label: u32,
    pub size: u32,
}

/// How a form is named: its mnemonic, the numbering option, and its memory, normal and broadcast.
#[derive(Clone, Copy, Debug, PartialEq, Eq)]
pub struct NamingRow<'a> {
    pub mnemonic: &'a [u8],
    pub option: u32,
    pub memory: MemoryRow,
    pub broadcast: MemoryRow,
}
