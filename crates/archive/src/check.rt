// The command `check`: what came of each row, and of each segment.
use crate::job::{Job, Segment};
use forms::check::check_pair;
use forms::fault::RowFault;
use sources::shelf::{Shelf, first_refused};
use sources::source::Source;
use std::io;
use std::io::Write;

// `K refused N: REASON`. The program `reference` says this too: one line of its own is shorter than a call across crates.
pub(crate) fn refused<W: Write>(out: &mut W, k: usize, fault: RowFault) -> io::Result<()> {
    let number = fault.number();
    writeln!(out, "{k} refused {number}: {fault}")
}

fn check_rows<W: Write>(job: &Job, out: &mut W) -> io::Result<()> {
    let (rows, namings) = (job.rows.as_slice(), job.namings.as_slice());
    // Counted as the answers are printed, so that each row is checked once.
    let mut failed: usize = 0;
    for (k, (row, naming)) in rows.iter().zip(namings).enumerate() {
        match check_pair(row, naming) {
            Some(fault) => {
                refused(out, k, fault)?;
                failed += 1;
            }
            None => writeln!(out, "{k} accepted")?,
        }
    }
    let count = rows.len();
    let accepted = count - failed;
    writeln!(out, "{count} rows, {accepted} accepted, {failed} refused")
}

fn check_segment<W: Write>(job: &Job, segment: &Segment, out: &mut W) -> io::Result<()> {
    let (rows, namings) = job.parts(segment);
    if let Some((place, fault)) = first_refused(rows, namings) {
        let number = fault.number();
        let k = segment.places.start.saturating_add(place);
        return writeln!(out, ": refused {number} at row {k}");
    }
    let shelf = Shelf::new(rows, namings);
    match shelf.check() {
        Ok(()) => {
            let count = shelf.count();
            writeln!(out, ": accepted, {count} entries")
        }
        Err(fault) => {
            let number = fault.number();
            writeln!(out, ": refused {number}")
        }
    }
}

pub(crate) fn check<W: Write>(job: &Job, out: &mut W) -> io::Result<()> {
    check_rows(job, out)?;
    for segment in &job.segments {
        out.write_all(b"segment ")?;
        out.write_all(segment.name)?;
        check_segment(job, segment, out)?;
    }
    Ok(())
}
