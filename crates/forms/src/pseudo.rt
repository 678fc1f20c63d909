// The entries that are no instructions, by their tags.
ghost use Rattle.std.specs.Prelude.{◌≡◌};
ghost use Rattle.std.specs.Option.{option_copied};
ghost use Rattle.forms.specs.Pseudo.{pseudo_text};

use crate::codes::Tag;

impl Tag {
    /// The text of an entry that is no instruction, whatever else it holds; `zero_bytes` is that of the entry without bytes.
    pub fn pseudo_text(self, zero_bytes: &'static [u8]) -> Option<&'static [u8]>
        ensures { option_copied result ≡ pseudo_text zero_bytes.now self }
    {
        match self {
            Tag::Invalid => Some(b"<invalid>"),
            Tag::DeclareByte => Some(b"<db>"),
            Tag::DeclareWord => Some(b"<dw>"),
            Tag::DeclareDword => Some(b"<dd>"),
            Tag::DeclareQword => Some(b"<dq>"),
            Tag::ZeroBytes => Some(zero_bytes),
            _ => None,
        }
    }
}
