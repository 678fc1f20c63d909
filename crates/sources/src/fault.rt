// The refusals of sources.
ghost use Rattle.std.specs.Prelude.{◌≡◌, Some};
ghost use Rattle.sources.specs.Faults.{number_of, text_of};
ghost use Rattle.sources.specs.declared.fault.SourceFault.TheVariants.{Row};

use forms::fault::RowFault;
use std::error::Error;
use std::fmt;

/// Why a source is refused, or does not give an entry.
#[derive(Clone, Copy, Debug, PartialEq, Eq)]
pub enum SourceFault {
    /// 1 to 11: a row fails this check.
    Row(RowFault),
    /// 12: a window starts after its end, or ends above the count.
    WindowBounds,
    /// 13: more entries than a source may have.
    TooManyEntries,
    /// 14: the number is not below the count.
    NoEntry,
}

impl From<RowFault> for SourceFault {
    ghost from_gives = { λ e r. r ≡ Row e };

    fn from(e: RowFault) -> SourceFault {
        SourceFault::Row(e)
    }
}

impl SourceFault {
    /// The refusal's number.
    pub fn number(self) -> u32
        ensures { result ≡ number_of self }
    {
        match self {
            SourceFault::Row(fault) => fault.number(),
            SourceFault::WindowBounds => 12,
            SourceFault::TooManyEntries => 13,
            SourceFault::NoEntry => 14,
        }
    }

    /// Why a source is refused, or gives no entry, in words; a row's fault says its own.
    pub fn reason(self) -> &'static str
        ensures { result.now ≡ text_of self }
    {
        match self {
            SourceFault::Row(fault) => fault.reason(),
            SourceFault::WindowBounds => "the window starts after its end or ends above the count",
            SourceFault::TooManyEntries => "there are more entries than a source may have",
            SourceFault::NoEntry => "there is no entry with this number",
        }
    }
}

impl fmt::Display for SourceFault {
    ghost output = { λ fault. Some (text_of fault) };

    fn fmt<W: fmt::Write>(&self, f: &mut fmt::Formatter<W>) -> fmt::Result {
        f.write_str(self.reason())
    }
}

impl Error for SourceFault {}
