// Texts as values: what is printed is a `Piece`, and pieces put together are a piece again.
ghost use Rattle.std.specs.Prelude.{ℕ, List, [], ◌∷◌, ◌++◌};
ghost use Rattle.std.specs.List.{flat_map};
ghost use Rattle.std.specs.Option.{option_map_or};
ghost use Rattle.text.specs.Texts.{decimal_text, hex_text, upper_text, when};
ghost use Rattle.text.specs.Wrote.{Wrote};

use crate::writer::{WriteFault, Writer};

/// What can be printed; `spelled` is its text.
pub trait Piece: Drop {
    ghost spelled: { Self → List ℕ };

    /// Writes the text. A fault comes where it does not fit, and its first bytes take what places are left.
    fn print(self, w: &mut Writer) -> Result<(), WriteFault>
        ensures { Wrote w.old (spelled self) w.new result };
}

/// A text, as it stands.
#[derive(Clone, Copy, Debug, PartialEq, Eq)]
pub struct Text<'a>(pub &'a [u8]);

/// A byte, as it stands.
#[derive(Clone, Copy, Debug, PartialEq, Eq)]
pub struct Byte(pub u8);

/// A byte as two upper-case hexadecimal digits.
#[derive(Clone, Copy, Debug, PartialEq, Eq)]
pub struct Hex(pub u8);

/// A number in its shortest decimal spelling.
#[derive(Clone, Copy, Debug, PartialEq, Eq)]
pub struct Decimal(pub u32);

/// A text in upper case.
#[derive(Clone, Copy, Debug, PartialEq, Eq)]
pub struct Upper<'a>(pub &'a [u8]);

/// The piece where the flag is set, else nothing.
// In place of `flag.then_some(piece)`: its text is `when flag`, the word in which the texts are defined, with no option between.
#[derive(Debug, PartialEq, Eq, Drop)]
pub struct When<P>(pub bool, pub P);

/// Pieces, one after another.
#[macro_export]
macro_rules! pieces {
    ($a:expr $(,)?) => { $a };
    ($a:expr, $($rest:expr),+ $(,)?) => { ($a, $crate::pieces!($($rest),+)) };
}

impl Piece for Text<'_> {
    ghost spelled = { λ x. x.0.now };

    fn print(self, w: &mut Writer) -> Result<(), WriteFault> {
        w.text(self.0)
    }
}

impl Piece for Byte {
    ghost spelled = { λ x. x.0 ∷ [] };

    fn print(self, w: &mut Writer) -> Result<(), WriteFault> {
        w.byte(self.0)
    }
}

impl Piece for Hex {
    ghost spelled = { λ x. hex_text x.0 };

    fn print(self, w: &mut Writer) -> Result<(), WriteFault> {
        w.hex_byte(self.0)
    }
}

impl Piece for Decimal {
    ghost spelled = { λ x. decimal_text x.0 };

    fn print(self, w: &mut Writer) -> Result<(), WriteFault> {
        w.decimal(self.0)
    }
}

impl Piece for Upper<'_> {
    ghost spelled = { λ x. upper_text x.0.now };

    fn print(self, w: &mut Writer) -> Result<(), WriteFault> {
        w.upper(self.0)
    }
}

impl<P: Piece> Piece for When<P> {
    ghost spelled = { λ x. when x.0 (P.Piece.spelled x.1) };

    fn print(self, w: &mut Writer) -> Result<(), WriteFault> {
        let When(flag, piece) = self;
        flag.then_some(piece).print(w)
    }
}

/// The piece where there is one, else nothing.
impl<P: Piece> Piece for Option<P> {
    ghost spelled = { λ x. option_map_or P.Piece.spelled x [] };

    #[tactic(auto, using(crate::proofs::Writes::nothing_as))]
    fn print(self, w: &mut Writer) -> Result<(), WriteFault> {
        match self {
            Some(piece) => piece.print(w),
            None => Ok(()),
        }
    }
}

// `print` of a slice, with a clause on the items alone: the loop keeps what is left of them.
fn print_each<P: Piece + Copy>(w: &mut Writer, items: &[P]) -> Result<(), WriteFault>
    ensures { Wrote w.old (flat_map P.Piece.spelled items.now) w.new result }
{
    for piece in items {
        piece.print(w)?;
    }
    Ok(())
}

// `print` of a pair that is taken apart, so that its clause speaks of the two pieces.
fn print_both<A: Piece, B: Piece>(w: &mut Writer, a: A, b: B) -> Result<(), WriteFault>
    ensures { Wrote w.old (A.Piece.spelled a ++ B.Piece.spelled b) w.new result }
{
    a.print(w)?;
    b.print(w)
}

/// The pieces of a slice, one after another.
impl<P: Piece + Copy> Piece for &[P] {
    ghost spelled = { λ x. flat_map P.Piece.spelled x.now };

    fn print(self, w: &mut Writer) -> Result<(), WriteFault> {
        print_each(w, self)
    }
}

/// The first piece and then the second.
impl<A: Piece, B: Piece> Piece for (A, B) {
    ghost spelled = { λ x. A.Piece.spelled x.0 ++ B.Piece.spelled x.1 };

    fn print(self, w: &mut Writer) -> Result<(), WriteFault> {
        let (a, b) = self;
        print_both(w, a, b)
    }
}
