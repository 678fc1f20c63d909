// One operand of a signature with what stands before and after it.
ghost use Rattle.std.specs.Prelude.{◌≡◌, ◌+◌, ◌==◌, false, not, [], ◌∷◌, ◌++◌, codes, if◌then◌else◌, Some, None};
ghost use Rattle.kinds.specs.Kinds.{is_seg_rdi};
ghost use Rattle.numbering.specs.Counts.{start, moved_on, moved_by, next_label, next_mask};
ghost use Rattle.signature.specs.Masks.{mask_text};
ghost use Rattle.signature.specs.Pieces.{spelled};
ghost use Rattle.signature.specs.Walk.{last_at, masked_at, names, next_pieces};
ghost use Rattle.text.specs.Texts.{when};
ghost use Rattle.text.specs.Wrote.{Wrote};

use kinds::{Counter, OperandKind};
use numbering::number::Numbering;
use numbering::rank::Rank;
use operands::{Operand, Setting};
use text::pieces;
use text::pieces::{Decimal, Piece, Text, When};
use text::writer::{WriteFault, Writer};

/// The mask that follows operand 0, by its number, and {z} after it where it is zeroing.
#[derive(Clone, Copy)]
struct Mask {
    number: u8,
    zeroing: bool,
}

impl Piece for Mask {
    ghost spelled = { λ x. mask_text x.number ++ when x.zeroing (codes "{z}") };

    fn print(self, w: &mut Writer) -> Result<(), WriteFault> {
        let mask = pieces!(Text(b" {k"), Decimal(u32::from(self.number)), Text(b"}"));
        pieces!(mask, When(self.zeroing, Text(b"{z}"))).print(w)
    }
}

// The mask follows the operand at this place.
fn masked_at(setting: &Setting, place: Rank) -> bool
    ensures { result ≡ masked_at setting.now place }
{
    setting.flags.mask && place.number() == 1
}

// {sae} and {er} follow the operand at this place.
fn last_at(setting: &Setting, place: Rank) -> bool
    ensures { result ≡ last_at setting.now place }
{
    usize::from(place.number()) == setting.last
}

// The operands as they are walked: what they are printed from, the registers named so far, and whether an operand stands
// before the next one.
#[derive(Clone, Copy)]
pub(crate) struct Walk {
    setting: Setting,
    numbering: Numbering,
    follows: bool,
}

impl Walk {
    pub(crate) fn new(setting: Setting) -> Walk
        ensures { result ≡ record { setting = setting; numbering = start setting.plan; follows = false } }
    {
        Walk {
            setting,
            numbering: Numbering::new(setting.plan),
            follows: false,
        }
    }

    // The operand's number or letter, and then the mask after it, if there is one.
    fn next_labels(
        &mut self,
        counter: Counter,
        place: Rank,
        masked: bool,
    ) -> (Option<u8>, Option<Mask>)
        ensures label { result.0 ≡ next_label self.old.numbering counter place }
        ensures mask { result.1 ≡ (if masked then Some (record { number = next_mask (moved_on counter self.old.numbering); zeroing = self.old.setting.flags.zeroing }) else None) }
        ensures moved { self.new ≡ record self.old {
          numbering = moved_by (counter ∷ (if masked then Counter.Mask ∷ [] else [])) self.old.numbering;
        } }
    {
        let label = self.numbering.next(counter, place);
        // No `then`: a closure that moves the count on would leave its new value unknown.
        let mask = if masked {
            Some(Mask {
                number: self.numbering.next_mask(),
                zeroing: self.setting.flags.zeroing,
            })
        } else {
            None
        };
        (label, mask)
    }

    // Names the operand's register, and then the mask after it, if there is one, and prints them.
    pub(crate) fn print_operand(
        &mut self,
        w: &mut Writer,
        place: Rank,
        kind: OperandKind,
    ) -> Result<(), WriteFault>
        ensures wrote { Wrote w.old (spelled self.old.setting (next_pieces self.old.setting self.old.numbering self.old.follows place kind)) w.new result }
        ensures moved { self.new ≡ record self.old {
          numbering = moved_by (names self.old.setting place kind) self.old.numbering;
          follows = not (is_seg_rdi kind);
        } }
    {
        let Walk {
            setting,
            follows,
            ..
        } = *self;
        let class = kind.class();
        let masked = masked_at(&setting, place);
        let last = last_at(&setting, place);
        let (label, mask) = self.next_labels(class.counter(), place, masked);
        self.follows = !kind.is_seg_rdi();
        pieces!(
            When(follows, Text(b", ")),
            Operand {
                setting,
                class,
                label
            },
            mask,
            When(
                last,
                pieces!(
                    When(setting.flags.sae, Text(b"{sae}")),
                    When(setting.flags.rounding, Text(b"{er}"))
                )
            )
        )
        .print(w)
    }
}
