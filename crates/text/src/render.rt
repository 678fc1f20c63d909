// A piece printed at the front of lent bytes.
ghost use Rattle.std.specs.Prelude.{◌≡◌, length};
ghost use Rattle.text.specs.Wrote.{overlay, rendered};

use crate::pieces::Piece;
use crate::writer::{WriteFault, Writer};

/// How many bytes the text took, or the position of the first that had no place.
pub fn render<P: Piece>(out: &mut [u8], piece: P) -> Result<usize, WriteFault>
    ensures answer { result ≡ rendered (length out.old) (P.Piece.spelled piece) }
    ensures bytes { out.new ≡ overlay out.old 0 (P.Piece.spelled piece) }
{
    let mut w = Writer::new(out);
    piece.print(&mut w)?;
    Ok(w.written())
}
