// A text printed into a room that is large enough for every text of its kind: fixed memory that the caller lends, since
// texts are printed without a heap.
ghost use Rattle.std.specs.Prelude.{◌≡◌, ◌≤◌, length};
ghost use Rattle.forms.specs.Made.{form_in, name_in};
ghost use Rattle.opcode.specs.OpcodeText.{opcode_text};
ghost use Rattle.signature.specs.Signature.{signature_text};

use forms::description::Description;
use forms::naming::Naming;
use opcode::OpcodeString;
use signature::SignatureText;
use text::pieces::Piece;
use text::render::render;

/// No opcode string is longer.
pub const OPCODE_BYTES: usize = 96;

/// No signature is longer.
pub const SIGNATURE_BYTES: usize = 256;

// The text of a piece that has place in the room, at its front.
#[tactic(auto, using(crate::proofs::Printed::rendered_text))]
fn printed<'a, P: Piece, const N: usize>(room: &'a mut [u8; N], piece: P) -> &'a [u8]
    requires { length (P.Piece.spelled piece) ≤ N }
    ensures { result.now ≡ P.Piece.spelled piece }
{
    match render(room, piece) {
        Ok(count) => &room[..count],
        Err(_) => unreachable!(),
    }
}

/// The opcode string, at the front of the room.
#[tactic(auto, using(opcode::proofs::Lines::opcode_line))]
pub fn opcode_text<'a>(room: &'a mut [u8; OPCODE_BYTES], description: &Description) -> &'a [u8]
    ensures { result.now ≡ opcode_text (form_in description.now) }
{
    printed(room, OpcodeString(description))
}

/// The signature, at the front of the room.
#[tactic(auto, using(crate::proofs::Printed::signature_line))]
pub fn signature_text<'a>(
    room: &'a mut [u8; SIGNATURE_BYTES],
    description: &Description,
    naming: &Naming,
) -> &'a [u8]
    ensures { result.now ≡ signature_text (form_in description.now) (name_in naming.now) }
{
    printed(
        room,
        SignatureText {
            description,
            naming,
        },
    )
}
