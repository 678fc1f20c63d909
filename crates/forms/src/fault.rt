// Why a row is refused.
ghost use Rattle.std.specs.Prelude.{◌≡◌, Some};
ghost use Rattle.forms.specs.Faults.{fault_number};
ghost use Rattle.forms.specs.Reasons.{reason_of};

use std::error::Error;
use std::fmt;

/// The check that a row fails, 1 to 11 in their order.
#[derive(Clone, Copy, Debug, PartialEq, Eq)]
pub enum RowFault {
    /// 1: a code, or a flag bit above 10, is outside its set.
    CodeOutside,
    /// 2: the encoding is MVEX.
    Mvex,
    /// 3: more than five operands, no kind among the counted, or a kind after them.
    OperandCount,
    /// 4: seg_rDI elsewhere than at operand 0.
    SegRdiPlace,
    /// 5: an address or operand size is none of 0, 16, 32, 64.
    FixedSize,
    /// 6: the opcode has neither one nor two bytes, or one byte and is above 255.
    OpcodeLength,
    /// 7: a group or rm index is outside -1 to 7.
    GroupIndex,
    /// 8: the vector length is above 2, is missing, or is not 0 beside LZ.
    VectorLength,
    /// 9: broadcast beside a general register or memory.
    Broadcast,
    /// 10: the mnemonic is empty, too long, or has another byte than a letter, a digit or `_`.
    Mnemonic,
    /// 11: an option, a label or a memory size is outside its set.
    NamingCode,
}

impl RowFault {
    /// The refusal's number; a table beside the refusals, as the documents have it.
    pub fn number(self) -> u32
        ensures { result ≡ fault_number self }
    {
        match self {
            RowFault::CodeOutside => 1,
            RowFault::Mvex => 2,
            RowFault::OperandCount => 3,
            RowFault::SegRdiPlace => 4,
            RowFault::FixedSize => 5,
            RowFault::OpcodeLength => 6,
            RowFault::GroupIndex => 7,
            RowFault::VectorLength => 8,
            RowFault::Broadcast => 9,
            RowFault::Mnemonic => 10,
            RowFault::NamingCode => 11,
        }
    }

    /// Why the row is refused, in words.
    pub fn reason(self) -> &'static str
        ensures { result.now ≡ reason_of self }
    {
        match self {
            RowFault::CodeOutside => "a code or a flag bit is outside its set",
            RowFault::Mvex => "the encoding is MVEX",
            RowFault::OperandCount => "the operand count and the operand kinds disagree",
            RowFault::SegRdiPlace => "seg_rDI stands elsewhere than at operand 0",
            RowFault::FixedSize => "an address or operand size is none of 0, 16, 32 and 64",
            RowFault::OpcodeLength => "the opcode does not have the length that is given",
            RowFault::GroupIndex => "a group or rm index is outside -1 to 7",
            RowFault::VectorLength => "the vector length is above 2, missing, or not 0 beside LZ",
            RowFault::Broadcast => "broadcast stands beside a general register or memory",
            RowFault::Mnemonic =>
                "the mnemonic is empty, too long, or has a byte that is no letter, digit or _",
            RowFault::NamingCode => "an option, a memory label or a memory size is outside its set",
        }
    }
}

impl fmt::Display for RowFault {
    ghost output = { λ fault. Some (reason_of fault) };

    fn fmt<W: fmt::Write>(&self, f: &mut fmt::Formatter<W>) -> fmt::Result {
        f.write_str(self.reason())
    }
}

impl Error for RowFault {}
