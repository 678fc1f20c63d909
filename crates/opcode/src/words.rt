// The words of a head that legacy forms set apart by spaces, and VEX, EVEX and XOP forms by dots.
ghost use Rattle.std.specs.Prelude.{◌≡◌, ◌++◌, []};
ghost use Rattle.std.specs.Option.{option_copied, option_map_or};
ghost use Rattle.opcode.specs.Heads.{spaced, dotted, prefix_word, table_words};

use forms::codes::{Prefix, Table};
use text::pieces;
use text::pieces::Text;

// A word and a space, or nothing.
pub(crate) fn spaced(word: Option<&'static [u8]>) -> Option<(Text<'static>, Text<'static>)>
    ensures { option_map_or (λ p. p.0.0.now ++ p.1.0.now) result [] ≡ spaced (option_copied word.entry) }
{
    Some(pieces!(Text(word?), Text(b" ")))
}

// A dot and a word, or nothing.
pub(crate) fn dotted(word: Option<&'static [u8]>) -> Option<(Text<'static>, Text<'static>)>
    ensures { option_map_or (λ p. p.0.0.now ++ p.1.0.now) result [] ≡ dotted (option_copied word.entry) }
{
    Some(pieces!(Text(b"."), Text(word?)))
}

// The prefix byte in hexadecimal, or NP where there may be none.
pub(crate) fn mandatory_prefix(prefix: Prefix) -> Option<&'static [u8]>
    ensures { option_copied result ≡ prefix_word prefix }
{
    match prefix {
        Prefix::Absent => None,
        Prefix::Pnp => Some(b"NP"),
        Prefix::P66 => Some(b"66"),
        Prefix::Pf3 => Some(b"F3"),
        Prefix::Pf2 => Some(b"F2"),
    }
}

// The table's name, or its one or two bytes in hexadecimal.
// Two options, of which no table has the second alone: each head sets each word apart in its own way, and would take an
// option of a word and maybe another apart again.
pub(crate) fn append_table(table: Table) -> (Option<&'static [u8]>, Option<&'static [u8]>)
    ensures { (option_copied result.0, option_copied result.1) ≡ table_words table }
{
    match table {
        Table::Normal => (None, None),
        Table::T0f => (Some(b"0F"), None),
        Table::T0f38 => (Some(b"0F"), Some(b"38")),
        Table::T0f3a => (Some(b"0F"), Some(b"3A")),
        Table::Map5 => (Some(b"MAP5"), None),
        Table::Map6 => (Some(b"MAP6"), None),
        Table::Map8 => (Some(b"X8"), None),
        Table::Map9 => (Some(b"X9"), None),
        Table::Map10 => (Some(b"XA"), None),
    }
}
