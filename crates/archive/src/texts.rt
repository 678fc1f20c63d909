// The two texts of a form, as the commands `texts` and `entries` print them.
use crate::check::refused;
use crate::job::Job;
use forms::entry::Entry;
use forms::row::{FormRow, NamingRow};
use lines::{OPCODE_BYTES, SIGNATURE_BYTES, checked, opcode_text, signature_text};
use sources::entries::Entries;
use sources::source::NamingSource;
use std::io;
use std::io::Write;

// `K op=TEXT` and `K sig=TEXT`
fn print_texts<W: Write>(out: &mut W, k: usize, entry: &Entry) -> io::Result<()> {
    let mut opcode = [0; OPCODE_BYTES];
    let mut signature = [0; SIGNATURE_BYTES];
    write!(out, "{k} op=")?;
    out.write_all(opcode_text(&mut opcode, &entry.description))?;
    write!(out, "\n{k} sig=")?;
    out.write_all(signature_text(&mut signature, &entry.description, &entry.naming))?;
    out.write_all(b"\n")
}

// The texts of a row, or why it has none.
fn print_row<W: Write>(out: &mut W, k: usize, row: &FormRow, naming: &NamingRow) -> io::Result<()> {
    match checked(row, naming) {
        Ok(entry) => print_texts(out, k, &entry),
        Err(fault) => refused(out, k, fault),
    }
}

// The command `texts`.
pub(crate) fn texts<W: Write>(job: &Job, out: &mut W) -> io::Result<()> {
    for (k, (row, naming)) in job.rows.iter().zip(&job.namings).enumerate() {
        print_row(out, k, row, naming)?;
    }
    Ok(())
}

// The texts of each entry of a source.
pub(crate) fn entries<S: NamingSource, W: Write>(source: &S, out: &mut W) -> io::Result<()> {
    for (k, entry) in Entries::of(source).enumerate() {
        print_texts(out, k, &entry)?;
    }
    Ok(())
}
