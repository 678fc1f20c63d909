// Some entries of another source, next to each other.
ghost use Rattle.std.specs.Prelude.{◌≡◌, length};
ghost use Rattle.sources.specs.Places.{window_count, window_place};
ghost use Rattle.sources.specs.Sources.{cut, check_window};
ghost use Rattle.sources.specs.Lengths.{cut_short};

use crate::fault::SourceFault;
use crate::source::{NamingSource, Source};
use forms::description::Description;
use forms::naming::Naming;

/// The entries from `from` up to, without, `to`.
// Two numbers, since std's `Range` is not `Copy`, and a window is.
#[derive(Clone, Copy, Debug, PartialEq, Eq, Drop)]
pub struct Window<S> {
    pub source: S,
    pub from: u32,
    pub to: u32,
}

impl<S: Source> Window<S> {
    /// 12 where the window starts after its end or ends above the count: it then has no entries.
    pub fn check(&self) -> Result<(), SourceFault>
        ensures { result ≡ check_window (length (S.Source.list self.now.source)) self.now.from self.now.to }
    {
        if self.from <= self.to && self.to <= self.source.count() {
            Ok(())
        } else {
            Err(SourceFault::WindowBounds)
        }
    }
}

impl<S> Window<S> {
    // How many entries the window has over a source of so many. The count is handed in: a source may take long to count, and its
    // names are counted apart.
    fn width(&self, count: u32) -> u32
        ensures { result ≡ window_count count self.now.from self.now.to }
    {
        if self.from <= self.to && self.to <= count {
            self.to - self.from
        } else {
            0
        }
    }

    // The number that entry n has in the source below, which has so many.
    fn place(&self, count: u32, n: u32) -> Result<u32, SourceFault>
        ensures { result ≡ window_place count self.now.from self.now.to n }
    {
        if n < self.width(count) {
            Ok(self.from + n)
        } else {
            Err(SourceFault::NoEntry)
        }
    }
}

impl<S: Source> Source for Window<S> {
    ghost list = { λ w. cut (S.Source.list w.source) w.from w.to };

    ghost short = { λ w. cut_short (S.Source.list w.source) w.from w.to (S.Source.short w.source) };

    fn count(&self) -> u32 {
        self.width(self.source.count())
    }

    fn fetch(&self, n: u32) -> Result<Description, SourceFault> {
        self.source.fetch(self.place(self.source.count(), n)?)
    }
}

impl<S: NamingSource> NamingSource for Window<S> {
    ghost names = { λ w. cut (S.NamingSource.names w.source) w.from w.to };

    fn naming_count(&self) -> u32 {
        self.width(self.source.naming_count())
    }

    fn fetch_naming(&self, n: u32) -> Result<Naming, SourceFault> {
        self.source
            .fetch_naming(self.place(self.source.naming_count(), n)?)
    }
}
