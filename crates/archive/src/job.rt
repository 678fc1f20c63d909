// What a job has said so far: its rows, in segments, and how its archive is opened.
use forms::row::{FormRow, NamingRow};
use jobs::command::Opening;
use sources::shelf::Shelf;
use std::alloc::{AllocError, Global};
use std::ops::Range;

pub const MOST_SEGMENTS: usize = 4;

/// A name, and the places of its rows among all of the job.
#[derive(Drop)]
pub struct Segment<'a> {
    pub name: &'a [u8],
    pub places: Range<usize>,
}

// Rows and namings stand in two vectors, since a shelf borrows two slices: lent memory.
#[derive(Drop)]
pub struct Job<'a> {
    pub rows: Vec<FormRow>,
    pub namings: Vec<NamingRow<'a>>,
    pub segments: Vec<Segment<'a>>,
    pub opening: Opening,
}

// The items at these places, where they are there.
fn part<T>(items: &[T], places: Range<usize>) -> &[T] {
    items.get(places).unwrap_or(&[])
}

impl<'a> Job<'a> {
    pub(crate) fn new(heap: Global) -> Job<'a> {
        Job {
            rows: Vec::new(heap),
            namings: Vec::new(heap),
            segments: Vec::new(heap),
            opening: Opening::default(),
        }
    }

    // A row belongs to the last segment; before the first, it starts the segment `main`.
    pub(crate) fn add(&mut self, form: FormRow, naming: NamingRow<'a>) -> Result<(), AllocError> {
        if self.segments.is_empty() {
            self.start(b"main")?;
        }
        self.rows.push(form)?;
        self.namings.push(naming)?;
        let end = self.rows.len();
        if let Some(segment) = self.segments.last_mut() {
            segment.places.end = end;
        }
        Ok(())
    }

    pub(crate) fn start(&mut self, name: &'a [u8]) -> Result<(), AllocError> {
        let end = self.rows.len();
        self.segments.push(Segment {
            name,
            places: end..end,
        })?;
        Ok(())
    }

    // The rows and the namings from one place up to another.
    fn between<'s>(&'s self, start: usize, end: usize) -> (&'s [FormRow], &'s [NamingRow<'a>]) {
        (
            part(self.rows.as_slice(), start..end),
            part(self.namings.as_slice(), start..end),
        )
    }

    // The rows and the namings of a segment.
    pub(crate) fn parts<'s>(&'s self, segment: &Segment) -> (&'s [FormRow], &'s [NamingRow<'a>]) {
        let Range { start, end } = segment.places;
        self.between(start, end)
    }

    // Where the rows of the segment with this number start and end, if there is one; else none.
    fn bounds(&self, n: usize) -> (usize, usize) {
        match self.segments.get(n) {
            Some(segment) => (segment.places.start, segment.places.end),
            None => (0, 0),
        }
    }

    // The shelf of the segment with this number, empty where there is none.
    pub(crate) fn shelf<'s>(&'s self, n: usize) -> Shelf<'s, 's, 'a> {
        let (start, end) = self.bounds(n);
        let (rows, namings) = self.between(start, end);
        Shelf::new(rows, namings)
    }
}
