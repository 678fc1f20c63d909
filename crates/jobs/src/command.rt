// What a line of a job can say. The reading is in `read`, whose contracts cite a file that names this type.
use forms::row::{FormRow, NamingRow};

pub mod read;

/// Which part of an archive is opened: with the front matter or without it, from one entry up to another or whole.
#[derive(Clone, Copy, Debug, Default, PartialEq, Eq)]
pub struct Opening {
    pub front: bool,
    // Two numbers, since std's `Range` is not `Copy`, and a command is.
    pub window: Option<(u32, u32)>,
}

/// What a line of a job asks for, or the row that it spells.
#[derive(Clone, Copy, Debug, PartialEq, Eq)]
pub enum Command<'a> {
    /// A blank line, or one that begins with `#`.
    Nothing,
    /// The next row of the last segment.
    Row(FormRow, NamingRow<'a>),
    /// What came of each row.
    Check,
    /// The two texts of each row.
    Texts,
    /// Rows from here on belong to a segment of this name.
    Segment(&'a [u8]),
    /// The archive of the segments.
    Open(Opening),
    /// The two texts of each entry of the archive.
    Entries,
    /// None of these.
    Unknown,
}
