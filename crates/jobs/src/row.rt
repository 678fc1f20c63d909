// A row's line, read field by field.
ghost use Rattle.std.specs.Prelude.{◌≡◌, ◌≤◌, length};
ghost use Rattle.std.specs.Option.{option_map};
ghost use Rattle.jobs.specs.Fields.{texts_in};
ghost use Rattle.jobs.specs.Rows.{code_of, five_kinds, form_of, index, kinds_of, memory_of, name_row, naming_of, number, row_in, row_of, rows_seen};

use crate::fields::stretches;
use forms::row::{FormRow, MemoryRow, NO_OPERAND, NamingRow};
use text::reading::{read_decimal, read_hex2, read_hex4, read_index};

/// How many fields a row has.
pub(crate) const FIELDS: usize = 18;

// Fields are read by the words of specs/Rows: with `read_decimal` and `read_index` in `read_form`, the check finds no proof
// of so many fields.
#[tactic(auto, unfolding(crate::specs::Rows::number))]
fn number(text: &[u8]) -> Option<u32>
    ensures { result ≡ number text.now }
{
    read_decimal(text)
}

#[tactic(auto, unfolding(crate::specs::Rows::index))]
fn index(text: &[u8]) -> Option<i32>
    ensures { result ≡ index text.now }
{
    read_index(text)
}

// The code and its length, two fields of a row, where any numbers may stand.
#[tactic(auto, unfolding(crate::specs::Rows::code_of))]
fn read_code(text: &[u8]) -> Option<(u16, u32)>
    ensures { result ≡ code_of text.now }
{
    if text.len() == 2 {
        Some((u16::from(read_hex2(text)?), 1))
    } else {
        Some((read_hex4(text)?, 2))
    }
}

// The kinds of the numbers, and after them no operand. By place, as `kind_at` of specs/Rows says it.
fn five_kinds(listed: &[&[u8]]) -> Option<[u32; 5]>
    requires { length listed.now ≤ 5 }
    ensures { result ≡ five_kinds (texts_in listed.now) }
{
    let mut kinds = [NO_OPERAND; 5];
    for (place, text) in listed.iter().enumerate() {
        kinds[place] = read_decimal(text)?;
    }
    Some(kinds)
}

// The kinds and how many of them are listed, two fields of a row, where any numbers may stand.
#[tactic(auto, unfolding(crate::specs::Rows::kinds_of))]
fn read_kinds(text: &[u8]) -> Option<([u32; 5], u32)>
    ensures { result ≡ kinds_of text.now }
{
    if text == b"-".as_slice() {
        return Some(([NO_OPERAND; 5], 0));
    }
    let listed = stretches::<5>(text, b',')?;
    Some((five_kinds(listed.as_slice())?, listed.len() as u32))
}

fn read_memory(text: &[u8]) -> Option<MemoryRow>
    ensures { result ≡ memory_of text.now }
{
    let parts = stretches::<2>(text, b':')?;
    let [label, size] = parts.as_slice() else {
        return None;
    };
    Some(MemoryRow {
        label: read_decimal(label)?,
        size: read_decimal(size)?,
    })
}

// The fields come as a slice, as `stretches` gives them for every line; `read_fields` has counted them, so no `else` is reached.
#[tactic(auto, using(crate::proofs::TextsIn::field_is))]
fn read_form(fields: &[&[u8]]) -> Option<FormRow>
    requires { length fields.now ≡ 18 }
    ensures { result ≡ form_of (texts_in fields.now) }
{
    let [
        _,
        encoding,
        table,
        prefix,
        code,
        address,
        operand,
        length,
        lkind,
        flags,
        group,
        rm,
        kinds,
        tag,
        ..
    ] = fields
    else {
        return None;
    };
    let (opcode, bytes) = read_code(code)?;
    let (kinds, count) = read_kinds(kinds)?;
    Some(FormRow {
        encoding: number(encoding)?,
        table: number(table)?,
        prefix: number(prefix)?,
        opcode,
        bytes,
        address: number(address)?,
        operand: number(operand)?,
        length: number(length)?,
        lkind: number(lkind)?,
        flags: read_hex4(flags)?,
        group: index(group)?,
        rm: index(rm)?,
        kinds,
        count,
        tag: number(tag)?,
    })
}

fn read_naming<'a>(fields: &[&'a [u8]]) -> Option<NamingRow<'a>>
    requires { length fields.now ≡ 18 }
    ensures { option_map name_row result ≡ naming_of (texts_in fields.now) }
{
    let [.., mnemonic, option, memory, broadcast] = fields else {
        return None;
    };
    if mnemonic.is_empty() {
        return None;
    }
    Some(NamingRow {
        mnemonic,
        option: number(option)?,
        memory: read_memory(memory)?,
        broadcast: read_memory(broadcast)?,
    })
}

// The row of a line with these fields.
pub(crate) fn read_fields<'a>(fields: &[&'a [u8]]) -> Option<(FormRow, NamingRow<'a>)>
    ensures { option_map rows_seen result ≡ row_in (texts_in fields.now) }
{
    if fields.len() != FIELDS || fields[0] != b"row".as_slice() {
        return None;
    }
    Some((read_form(fields)?, read_naming(fields)?))
}

/// The row that a line spells. No line spells an empty mnemonic: two spaces after each other make no row.
pub fn read_row<'a>(line: &'a [u8]) -> Option<(FormRow, NamingRow<'a>)>
    ensures { option_map rows_seen result ≡ row_of line.now }
{
    read_fields(stretches::<FIELDS>(line, b' ')?.as_slice())
}
