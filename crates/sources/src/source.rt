// A source is a list of forms that is fetched by number.
ghost use Rattle.std.specs.Prelude.{◌≡◌, ◌≤◌, List, length, is_ok, nat_lt, zip};
ghost use Rattle.forms.specs.Made.{form_got, name_got};
ghost use Rattle.forms.specs.Names.{Name};
ghost use Rattle.forms.specs.declared.form.Form.{Form};
ghost use Rattle.sources.specs.Entries.{both, entry_got};
ghost use Rattle.sources.specs.Sources.{fetched, most};

use crate::fault::SourceFault;
use forms::description::Description;
use forms::entry::Entry;
use forms::naming::Naming;

/// No source has more entries.
pub const MOST: u32 = 65536;

// An entry of its form and its name, where there are both.
fn entry_of(
    description: Result<Description, SourceFault>,
    naming: Result<Naming, SourceFault>,
) -> Result<Entry, SourceFault>
    ensures { entry_got result ≡ both (form_got description) (name_got naming) }
{
    Ok(Entry {
        description: description?,
        naming: naming?,
    })
}

/// What is fetched by its number, from 0.
pub trait Source {
    ghost list: { Self → List Form };

    ghost short: { (s : Self) → length (list s) ≤ most };

    /// How many entries there are.
    fn count(&self) -> u32
        ensures { result ≡ length (list self.now) };

    /// The form of an entry; 14 exactly where its number is not below the count.
    fn fetch(&self, n: u32) -> Result<Description, SourceFault>
        ensures { form_got result ≡ fetched (list self.now) n };
}

/// A source whose entries are named: a second list, as long as the first. The two lists are fetched apart, since a naming
/// source stands above a source, and whoever asks for forms alone needs no names.
pub trait NamingSource: Source {
    ghost names: { Self → List Name };

    // A method and no law: a law is owed at every value of a ghost type, a method's clauses at the sources that there are.
    /// The count of both lists.
    fn naming_count(&self) -> u32
        ensures named { result ≡ length (names self.now) }
        ensures listed { result ≡ length (Self.Source.list self.now) };

    /// The name of an entry; there is one exactly where there is a form.
    fn fetch_naming(&self, n: u32) -> Result<Naming, SourceFault>
        ensures got { name_got result ≡ fetched (names self.now) n }
        ensures within { is_ok result ≡ nat_lt n (length (Self.Source.list self.now)) };

    /// An entry: its form and its name; 14 exactly where its number is not below the count.
    #[tactic(auto, using(crate::proofs::Fetched::zip_both))]
    final fn entry(&self, n: u32) -> Result<Entry, SourceFault>
        ensures { entry_got result ≡ fetched (zip (Self.Source.list self.now) (names self.now)) n }
    {
        entry_of(self.fetch(n), self.fetch_naming(n))
    }
}
