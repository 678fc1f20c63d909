// A source that is lent is a source.
use crate::fault::SourceFault;
use crate::source::{NamingSource, Source};
use forms::description::Description;
use forms::naming::Naming;

impl<S: Source> Source for &S {
    ghost list = { λ s. S.Source.list s.now };

    ghost short = { λ s. S.Source.short s.now };

    fn count(&self) -> u32 {
        (**self).count()
    }

    fn fetch(&self, n: u32) -> Result<Description, SourceFault> {
        (**self).fetch(n)
    }
}

impl<S: NamingSource> NamingSource for &S {
    ghost names = { λ s. S.NamingSource.names s.now };

    fn naming_count(&self) -> u32 {
        (**self).naming_count()
    }

    fn fetch_naming(&self, n: u32) -> Result<Naming, SourceFault> {
        (**self).fetch_naming(n)
    }
}
