// A source that is not of this library, and the count of a source that is known by its trait alone.
ghost use Rattle.std.specs.Prelude.{◌≡◌, length};

use forms::description::Description;
use forms::naming::Naming;
use sources::fault::SourceFault;
use sources::source::{NamingSource, Source};

/// Two forms and their names: as many names as forms, by the types of the fields alone.
#[derive(Clone, Copy, Debug, PartialEq, Eq)]
pub struct Two {
    pub descriptions: [Description; 2],
    pub namings: [Naming; 2],
}

impl Source for Two {
    ghost use Rattle.forms.specs.Made.{form_in};
    ghost use Rattle.tests.specs.Two.{two_of, two_short};

    ghost list = { λ t. two_of form_in t.descriptions };

    ghost short = { λ t. two_short form_in t.descriptions };

    fn count(&self) -> u32 {
        2
    }

    fn fetch(&self, n: u32) -> Result<Description, SourceFault> {
        if n >= 2 {
            return Err(SourceFault::NoEntry);
        }
        Ok(self.descriptions[n as usize])
    }
}

impl NamingSource for Two {
    ghost use Rattle.forms.specs.Made.{name_in};
    ghost use Rattle.tests.specs.Two.{two_of};

    ghost names = { λ t. two_of name_in t.namings };

    fn naming_count(&self) -> u32 {
        2
    }

    fn fetch_naming(&self, n: u32) -> Result<Naming, SourceFault> {
        if n >= 2 {
            return Err(SourceFault::NoEntry);
        }
        Ok(self.namings[n as usize])
    }
}

/// How many entries a source has, as many names as forms.
pub fn how_many(source: &dyn NamingSource) -> u32
    ensures named { result ≡ length (names source.now) }
    ensures listed { result ≡ length (list source.now) }
{
    source.naming_count()
}

#[cfg(test)]
mod tests {
    use super::*;
    use sources::front::FrontMatter;
    use sources::window::Window;

    #[test]
    fn a_source_of_two_arrays(rt: HostRuntime) {
        let (Ok(byte), Ok(zeros)) = (FrontMatter.entry(1), FrontMatter.entry(5)) else {
            panic!(rt);
        };
        let two = Two {
            descriptions: [byte.description, zeros.description],
            namings: [byte.naming, zeros.naming],
        };
        assert_eq!(rt; (two.count(), how_many(&two)), (2, 2));
        assert_eq!(rt; (two.entry(0), two.entry(1)), (Ok(byte), Ok(zeros)));
        assert_eq!(rt; two.fetch(2), Err(SourceFault::NoEntry));
        assert_eq!(rt; two.fetch_naming(2), Err(SourceFault::NoEntry));
        let last = Window {
            source: &two,
            from: 1,
            to: 2,
        };
        assert_eq!(rt; (last.naming_count(), last.entry(0)), (1, Ok(zeros)));
        assert_eq!(rt; how_many(&FrontMatter), 6);
    }
}
