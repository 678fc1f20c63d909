// One row, held to its two stored texts.
ghost use Rattle.std.specs.Prelude.{◌≡◌, ◌++◌, ◌↔◌, IsTrue};

use forms::row::{FormRow, NamingRow};
use lines::{OPCODE_BYTES, SIGNATURE_BYTES, checked, opcode_text, signature_text};
use std::io;
use std::io::Write;

// Whether a line is the label and then the text.
fn says(line: &[u8], label: &[u8], text: &[u8]) -> bool
    ensures { IsTrue result ↔ (line.now ≡ label.now ++ text.now) }
{
    match line.strip_prefix(label) {
        Some(rest) => rest == text,
        None => false,
    }
}

// Whether the texts of row `k` are other than the stored ones; a line then says ours, or why there are none.
pub(crate) fn differs<W: Write>(
    out: &mut W,
    k: u64,
    row: &FormRow,
    naming: &NamingRow,
    op: &[u8],
    sig: &[u8],
) -> io::Result<bool> {
    match checked(row, naming) {
        Ok(entry) => {
            let mut opcode = [0; OPCODE_BYTES];
            let mut signature = [0; SIGNATURE_BYTES];
            let opcode = opcode_text(&mut opcode, &entry.description);
            let signature = signature_text(&mut signature, &entry.description, &entry.naming);
            if says(op, b"op=", opcode) && says(sig, b"sig=", signature) {
                return Ok(false);
            }
            write!(out, "{k} op=")?;
            out.write_all(opcode)?;
            out.write_all(b" sig=")?;
            out.write_all(signature)?;
            out.write_all(b"\n")?;
        }
        Err(fault) => {
            // As `texts` of the program `archive` says it; a function of both would be longer than the line.
            let number = fault.number();
            writeln!(out, "{k} refused {number}: {fault}")?;
        }
    }
    Ok(true)
}
