// The entries of one source, and then those of another.
ghost use Rattle.std.specs.Prelude.{◌≡◌, ◌≤◌, ◌+◌, length};
ghost use Rattle.sources.specs.JoinedAll.{total_of};
ghost use Rattle.sources.specs.Places.{joined_place};
ghost use Rattle.sources.specs.Sources.{most, chained, check_joined};
ghost use Rattle.sources.specs.Lengths.{chained_short};

use crate::fault::SourceFault;
use crate::source::{MOST, NamingSource, Source};
use forms::description::Description;
use forms::naming::Naming;

/// The list of `first`, and then that of `second`.
#[derive(Clone, Copy, Debug, PartialEq, Eq, Drop)]
pub struct Joined<A, B> {
    pub first: A,
    pub second: B,
}

impl<A: Source, B: Source> Joined<A, B> {
    /// 13 where there are too many entries: it then has none.
    pub fn check(&self) -> Result<(), SourceFault>
        ensures { result ≡ check_joined (length (A.Source.list self.now.first)) (length (B.Source.list self.now.second)) }
    {
        total(self.first.count(), self.second.count())?;
        Ok(())
    }
}

// An entry by its number in the first source or in the second; the two differ in type, so that no reference can stand for
// either.
#[derive(Clone, Copy)]
pub(crate) enum Side {
    First(u32),
    Second(u32),
}

// How many entries two sources of so many have together.
fn total(first: u32, second: u32) -> Result<u32, SourceFault>
    requires { (first ≤ most) × (second ≤ most) }
    ensures { result ≡ total_of (first + second) }
{
    let total = first + second;
    if total > MOST {
        return Err(SourceFault::TooManyEntries);
    }
    Ok(total)
}

// Where entry n of the two stands. Their counts are handed in, since a source may take long to count.
fn place(first: u32, second: u32, n: u32) -> Result<Side, SourceFault>
    requires { (first ≤ most) × (second ≤ most) }
    ensures { result ≡ joined_place first second n }
{
    if n >= total(first, second).unwrap_or(0) {
        Err(SourceFault::NoEntry)
    } else if n < first {
        Ok(Side::First(n))
    } else {
        Ok(Side::Second(n - first))
    }
}

impl<A: Source, B: Source> Source for Joined<A, B> {
    ghost list = { λ j. chained (A.Source.list j.first) (B.Source.list j.second) };

    ghost short = { λ j. chained_short (A.Source.list j.first) (B.Source.list j.second) };

    fn count(&self) -> u32 {
        total(self.first.count(), self.second.count()).unwrap_or(0)
    }

    fn fetch(&self, n: u32) -> Result<Description, SourceFault> {
        match place(self.first.count(), self.second.count(), n)? {
            Side::First(k) => self.first.fetch(k),
            Side::Second(k) => self.second.fetch(k),
        }
    }
}

impl<A: NamingSource, B: NamingSource> NamingSource for Joined<A, B> {
    ghost names = { λ j. chained (A.NamingSource.names j.first) (B.NamingSource.names j.second) };

    fn naming_count(&self) -> u32 {
        total(self.first.naming_count(), self.second.naming_count()).unwrap_or(0)
    }

    fn fetch_naming(&self, n: u32) -> Result<Naming, SourceFault> {
        match place(self.first.naming_count(), self.second.naming_count(), n)? {
            Side::First(k) => self.first.fetch_naming(k),
            Side::Second(k) => self.second.fetch_naming(k),
        }
    }
}
