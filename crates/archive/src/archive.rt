// The archive of a job: the segments in order, after the front matter or without it, seen through a window.
use crate::job::{Job, MOST_SEGMENTS};
use crate::texts;
use jobs::command::Opening;
use sources::fault::SourceFault;
use sources::front::FrontMatter;
use sources::joined::Joined;
use sources::joined_all::JoinedAll;
use sources::shelf::Shelf;
use sources::source::Source;
use sources::window::Window;
use std::io;
use std::io::Write;

type Archive<'a, 't> = Window<Joined<Window<FrontMatter>, JoinedAll<'a, Shelf<'a, 'a, 't>>>>;

// The shelves of the segments, empty where there is no segment: an array, so that opening an archive asks for no memory.
fn shelves<'a, 't>(job: &'a Job<'t>) -> [Shelf<'a, 'a, 't>; MOST_SEGMENTS] {
    [job.shelf(0), job.shelf(1), job.shelf(2), job.shelf(3)]
}

fn assemble<'a, 't>(opening: Opening, shelves: &'a [Shelf<'a, 'a, 't>]) -> Archive<'a, 't> {
    let front = FrontMatter;
    let to = if opening.front { front.count() } else { 0 };
    let source = Joined {
        first: Window {
            source: front,
            from: 0,
            to,
        },
        second: JoinedAll { sources: shelves },
    };
    let (from, to) = opening.window.unwrap_or((0, source.count()));
    Window { source, from, to }
}

// The first check that fails, from the inside out.
fn check(archive: &Archive) -> Result<(), SourceFault> {
    let all = &archive.source.second;
    for shelf in all.sources {
        shelf.check()?;
    }
    all.check()?;
    archive.source.check()?;
    archive.check()
}

// Another line than a row's refusal: an archive has no row to name.
fn refused<W: Write>(out: &mut W, fault: SourceFault) -> io::Result<()> {
    let number = fault.number();
    writeln!(out, "archive: refused {number}")
}

// The command `open`: how many entries the archive has.
pub(crate) fn open<W: Write>(job: &Job, out: &mut W) -> io::Result<()> {
    let shelves = shelves(job);
    let archive = assemble(job.opening, &shelves);
    match check(&archive) {
        Ok(()) => {
            let count = archive.count();
            writeln!(out, "archive: {count} entries")
        }
        Err(fault) => refused(out, fault),
    }
}

// The command `entries`: the texts of each entry. A refused archive has none. `open` has the same frame: a function that
// takes the act would hand its closure an archive that borrows shelves made inside of it, which is no plainer.
pub(crate) fn entries<W: Write>(job: &Job, out: &mut W) -> io::Result<()> {
    let shelves = shelves(job);
    let archive = assemble(job.opening, &shelves);
    match check(&archive) {
        Ok(()) => texts::entries(&archive, out),
        Err(fault) => refused(out, fault),
    }
}
