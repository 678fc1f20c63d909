// The six pseudo entries that stand before all others: one that is invalid, four that declare data, and the empty one.
ghost use Rattle.std.specs.Prelude.{◌≡◌, ◌+◌, ◌<◌, Ok, codes, slice_index_or};
ghost use Rattle.forms.specs.Forms.{described, tag_of};
ghost use Rattle.sources.specs.Front.{pseudo_form, pseudo_name, front_forms, front_names};
ghost use Rattle.sources.specs.Lengths.{front_short};

use crate::fault::SourceFault;
use crate::source::{NamingSource, Source};
use forms::codes::Tag;
use forms::description::Description;
use forms::naming::Naming;
use forms::row::{FormRow, MemoryRow, NO_OPERAND, NamingRow};

/// The source of the six.
#[derive(Clone, Copy, Debug, PartialEq, Eq)]
pub struct FrontMatter;

const NO_MEMORY: MemoryRow = MemoryRow { label: 0, size: 0 };

// The tag and the mnemonic of each, in their order.
static ENTRIES: [(Tag, &[u8]); 6] = [
    (Tag::Invalid, b"INVALID"),
    (Tag::DeclareByte, b"DeclareByte"),
    (Tag::DeclareWord, b"DeclareWord"),
    (Tag::DeclareDword, b"DeclareDword"),
    (Tag::DeclareQword, b"DeclareQword"),
    (Tag::ZeroBytes, b"Zero_bytes"),
];

// The row of a form with a tag, by its code as a row has it, an opcode of one byte, no operands, and all else 0. Each field is
// written out: a row has no default, since 0 is a value like others in each field.
fn pseudo_row(tag: u32) -> FormRow
    requires { tag < 7 }
    ensures { described result ≡ Ok (pseudo_form (tag_of tag)) }
{
    FormRow {
        encoding: 0,
        table: 0,
        prefix: 0,
        opcode: 0,
        bytes: 1,
        address: 0,
        operand: 0,
        length: 0,
        lkind: 0,
        flags: 0,
        group: 0,
        rm: 0,
        kinds: [NO_OPERAND; 5],
        count: 0,
        tag,
    }
}

// The code of the tag and the mnemonic of an entry. Its number is held to the count before, as in every source.
fn entry(n: u32) -> (u32, &'static [u8])
    requires { n < 6 }
    ensures tag { result.0 ≡ n + 1 }
    ensures mnemonic { result.1.now ≡ (slice_index_or front_names n (pseudo_name (codes "INVALID"))).mnemonic }
{
    let (tag, mnemonic) = ENTRIES[n as usize];
    (tag as u32, mnemonic)
}

impl Source for FrontMatter {
    ghost list = { λ _. front_forms };

    ghost short = { λ _. front_short };

    fn count(&self) -> u32 {
        ENTRIES.len() as u32
    }

    fn fetch(&self, n: u32) -> Result<Description, SourceFault> {
        if n >= self.count() {
            return Err(SourceFault::NoEntry);
        }
        let (tag, _) = entry(n);
        Ok(Description::from_row(&pseudo_row(tag))?)
    }
}

impl NamingSource for FrontMatter {
    ghost names = { λ _. front_names };

    fn naming_count(&self) -> u32 {
        ENTRIES.len() as u32
    }

    fn fetch_naming(&self, n: u32) -> Result<Naming, SourceFault> {
        if n >= self.naming_count() {
            return Err(SourceFault::NoEntry);
        }
        let (_, mnemonic) = entry(n);
        let row = NamingRow {
            mnemonic,
            option: 0,
            memory: NO_MEMORY,
            broadcast: NO_MEMORY,
        };
        Ok(Naming::from_row(&row)?)
    }
}
