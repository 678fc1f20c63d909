// The entries of a naming source, one after another.
ghost use Rattle.std.specs.Prelude.{◌≡◌, ◌≤◌, length, zip};
ghost use Rattle.std.specs.Iterator.{YieldsFirstBy, item_count};
ghost use Rattle.sources.specs.Entries.{entry_in};
ghost use Rattle.sources.specs.Sources.{most};

use crate::source::NamingSource;
use forms::entry::Entry;
use std::marker::Model;

/// The entries of a source from the next one on, each a form and its name.
#[derive(Drop)]
pub struct Entries<'a, S: NamingSource> {
    source: &'a S,
    next: u32,
}

impl<'a, S: NamingSource> Model for Entries<'a, S> {
    ghost use Rattle.std.specs.Prelude.{List, drop, zip};
    ghost use Rattle.forms.specs.Names.{Name};
    ghost use Rattle.forms.specs.declared.form.Form.{Form};

    ghost Value = { List (Form × Name) };

    ghost view = { λ e. drop e.next (zip (S.Source.list e.source.now) (S.NamingSource.names e.source.now)) };
}

impl<'a, S: NamingSource> Entries<'a, S> {
    /// The entries of a source, in their order.
    #[tactic(auto, using(crate::proofs::Fetched::zip_short))]
    pub fn of(source: &'a S) -> Entries<'a, S>
        ensures all { result ≡ zip (S.Source.list source.now) (S.NamingSource.names source.now) }
        ensures short { length result ≤ most }
    {
        Entries { source, next: 0 }
    }
}

impl<'a, S: NamingSource> Iterator for Entries<'a, S> {
    type Item = Entry;

    ghost next_gives = { YieldsFirstBy entry_in (λ left. left) };

    ghost remaining = { item_count (λ left. left) };

    #[tactic(auto, using(crate::proofs::Fetched::fetched_rest, crate::proofs::Fetched::fetched_end, crate::proofs::Fetched::zip_below))]
    fn next(&mut self) -> Option<Entry> {
        let Ok(entry) = self.source.entry(self.next) else {
            return None;
        };
        self.next += 1;
        Some(entry)
    }
}
