// Rows in the caller's memory, as a source.
ghost use Rattle.std.specs.Prelude.{◌≡◌, length};
ghost use Rattle.std.specs.Iterator.Adapters.{enumerate_source, enumerate_count, zip_first, zip_second};
ghost use Rattle.std.specs.Slice.Iter.{iter_rest};
ghost use Rattle.sources.specs.Shelves.{pairs, first_refused, check_shelf, shelf_forms, shelf_names};
ghost use Rattle.sources.specs.Lengths.{shelf_short};

use crate::fault::SourceFault;
use crate::source::{MOST, NamingSource, Source};
use forms::check::check_pair;
use forms::description::Description;
use forms::fault::RowFault;
use forms::naming::Naming;
use forms::row::{FormRow, NamingRow};
use std::iter::{Enumerate, Zip};
use std::slice::Iter;

/// The rows of forms and those of their names; the two at one place are a pair. Two slices, since the caller's lists may
/// differ in length.
#[derive(Clone, Copy, Debug, PartialEq, Eq)]
pub struct Shelf<'r, 'n, 't> {
    rows: &'r [FormRow],
    namings: &'n [NamingRow<'t>],
    // How many entries there are, none where the check refuses: a number, since a source's clauses speak of its list alone.
    count: u32,
    ghost counted: { count ≡ length (shelf_forms rows.now namings.now) },
}

// How many rows have a partner.
fn pairs(rows: &[FormRow], namings: &[NamingRow]) -> usize
    ensures { result ≡ pairs rows.now namings.now }
{
    rows.len().min(namings.len())
}

// The first of the pairs that fails a check, with its place. A loop: what std states of `find_map` is about a run of the
// iterator, and no lemma leads from one to these pairs.
fn first_failing<'r, 't>(
    placed: Enumerate<Zip<Iter<'r, FormRow>, Iter<'r, NamingRow<'t>>>>,
) -> Option<(usize, RowFault)>
    requires { enumerate_count placed ≡ 0 }
    ensures { result ≡ first_refused (iter_rest (zip_first (enumerate_source placed.entry))) (iter_rest (zip_second (enumerate_source placed.entry))) }
{
    for (place, (row, naming)) in placed {
        if let Some(fault) = check_pair(row, naming) {
            return Some((place, fault));
        }
    }
    None
}

/// The place and the fault of the first pair of rows that fails a check.
pub fn first_refused(rows: &[FormRow], namings: &[NamingRow]) -> Option<(usize, RowFault)>
    ensures { result ≡ first_refused rows.now namings.now }
{
    first_failing(rows.iter().zip(namings).enumerate())
}

fn check_shelf(rows: &[FormRow], namings: &[NamingRow]) -> Result<(), SourceFault>
    ensures { result ≡ check_shelf rows.now namings.now }
{
    if let Some((_, fault)) = first_refused(rows, namings) {
        return Err(SourceFault::Row(fault));
    }
    if pairs(rows, namings) > MOST as usize {
        return Err(SourceFault::TooManyEntries);
    }
    Ok(())
}

impl<'r, 'n, 't> Shelf<'r, 'n, 't> {
    ghost use Rattle.std.specs.Prelude.{◌≡◌};
    ghost use Rattle.sources.specs.Shelves.{check_shelf};
    ghost use Rattle.sources.specs.Shelved.{rows_of, namings_of};

    /// The shelf of the rows, as many as have a partner; one that fails its check has no entries.
    pub fn new(rows: &'r [FormRow], namings: &'n [NamingRow<'t>]) -> Shelf<'r, 'n, 't>
        ensures rows { rows_of result ≡ rows.now }
        ensures namings { namings_of result ≡ namings.now }
    {
        let count = match check_shelf(rows, namings) {
            Ok(()) => pairs(rows, namings) as u32,
            Err(_) => 0,
        };
        Shelf {
            rows,
            namings,
            count,
        }
    }

    /// The first check, of 1 to 11, that the first failing pair of rows fails; then 13 where there are too many.
    pub fn check(&self) -> Result<(), SourceFault>
        ensures { result ≡ check_shelf (rows_of self.now) (namings_of self.now) }
    {
        check_shelf(self.rows, self.namings)
    }
}

impl Source for Shelf<'_, '_, '_> {
    ghost list = { λ s. shelf_forms s.rows.now s.namings.now };

    ghost short = { λ s. shelf_short s.rows.now s.namings.now };

    fn count(&self) -> u32 {
        self.count
    }

    // By the count and not by `get`: a refused shelf has rows, but no entries.
    fn fetch(&self, n: u32) -> Result<Description, SourceFault> {
        if n >= self.count {
            return Err(SourceFault::NoEntry);
        }
        Ok(Description::from_row(&self.rows[n as usize])?)
    }
}

impl NamingSource for Shelf<'_, '_, '_> {
    ghost names = { λ s. shelf_names s.rows.now s.namings.now };

    fn naming_count(&self) -> u32 {
        self.count
    }

    fn fetch_naming(&self, n: u32) -> Result<Naming, SourceFault> {
        if n >= self.count {
            return Err(SourceFault::NoEntry);
        }
        Ok(Naming::from_row(&self.namings[n as usize])?)
    }
}
