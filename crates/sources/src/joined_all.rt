// The entries of several sources of one type, one source after another.
ghost use Rattle.std.specs.Prelude.{◌≡◌, length};
ghost use Rattle.std.specs.Result.{result_map_both};
ghost use Rattle.sources.specs.JoinedAll.{chained_all, entries, place_of, total_of};
ghost use Rattle.sources.specs.Lengths.{chained_all_short};
ghost use Rattle.sources.specs.Sources.{check_total};

use crate::fault::SourceFault;
use crate::source::{MOST, NamingSource, Source};
use forms::description::Description;
use forms::naming::Naming;

/// The lists of the sources, in their order.
#[derive(Clone, Copy, Debug, PartialEq, Eq, Drop)]
pub struct JoinedAll<'a, S> {
    pub sources: &'a [S],
}

// An entry, by its source and its number there.
#[derive(Clone, Copy)]
struct Place<'a, S> {
    source: &'a S,
    entry: u32,
}

impl<'a, S: Source> JoinedAll<'a, S> {
    /// 13 where there are too many entries: it then has none. The sources' own checks are the caller's to make.
    pub fn check(&self) -> Result<(), SourceFault>
        ensures { result ≡ check_total (entries S.Source.list self.now.sources.now) }
    {
        self.total()?;
        Ok(())
    }

    // How many entries the sources have together. It stops at the first one too many: the sum of all may fit no number.
    fn total(&self) -> Result<u32, SourceFault>
        ensures { result ≡ total_of (entries S.Source.list self.now.sources.now) }
    {
        let mut total = 0;
        for source in self.sources {
            total += source.count();
            if total > MOST {
                return Err(SourceFault::TooManyEntries);
            }
        }
        Ok(total)
    }

    // Where entry n stands. The number that is left goes down from source to source, which no search by a test says.
    fn place(&self, n: u32) -> Result<Place<'a, S>, SourceFault>
        ensures { result_map_both (λ p. (p.source.now, p.entry)) (λ f. f) result ≡ place_of S.Source.list self.now.sources.now n }
    {
        if n >= self.count() {
            return Err(SourceFault::NoEntry);
        }
        let mut entry = n;
        for source in self.sources {
            let count = source.count();
            if entry < count {
                return Ok(Place { source, entry });
            }
            entry -= count;
        }
        Err(SourceFault::NoEntry)
    }
}

impl<S: Source> Source for JoinedAll<'_, S> {
    ghost list = { λ j. chained_all S.Source.list j.sources.now };

    ghost short = { λ j. chained_all_short S.Source.list j.sources.now };

    fn count(&self) -> u32 {
        self.total().unwrap_or(0)
    }

    fn fetch(&self, n: u32) -> Result<Description, SourceFault> {
        let Place { source, entry } = self.place(n)?;
        source.fetch(entry)
    }
}

impl<'a, S: NamingSource> JoinedAll<'a, S> {
    // How many entries the sources have together, by the count of each that speaks of its names too.
    fn naming_total(&self) -> Result<u32, SourceFault>
        ensures named { result ≡ total_of (entries S.NamingSource.names self.now.sources.now) }
        ensures listed { result ≡ total_of (entries S.Source.list self.now.sources.now) }
    {
        let mut names = 0;
        for source in self.sources {
            names += source.naming_count();
            if names > MOST {
                return Err(SourceFault::TooManyEntries);
            }
        }
        Ok(names)
    }

    // Where the name of entry n stands.
    fn naming_place(&self, n: u32) -> Result<Place<'a, S>, SourceFault>
        ensures place { result_map_both (λ p. (p.source.now, p.entry)) (λ f. f) result ≡ place_of S.NamingSource.names self.now.sources.now n }
        ensures even { length (chained_all S.NamingSource.names self.now.sources.now) ≡ length (chained_all S.Source.list self.now.sources.now) }
    {
        if n >= self.naming_count() {
            return Err(SourceFault::NoEntry);
        }
        let mut name = n;
        for source in self.sources {
            let count = source.naming_count();
            if name < count {
                return Ok(Place {
                    source,
                    entry: name,
                });
            }
            name -= count;
        }
        Err(SourceFault::NoEntry)
    }
}

impl<S: NamingSource> NamingSource for JoinedAll<'_, S> {
    ghost names = { λ j. chained_all S.NamingSource.names j.sources.now };

    fn naming_count(&self) -> u32 {
        self.naming_total().unwrap_or(0)
    }

    fn fetch_naming(&self, n: u32) -> Result<Naming, SourceFault> {
        let Place { source, entry } = self.naming_place(n)?;
        source.fetch_naming(entry)
    }
}
