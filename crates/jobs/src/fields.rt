// A text cut at a byte: the fields of a line, the numbers of a list.
ghost use Rattle.std.specs.Prelude.{◌≡◌, ◌+◌, [], ◌∷◌, ◌==◌, length, position};
ghost use Rattle.std.specs.Option.{option_map};
ghost use Rattle.jobs.specs.Fields.{split, split_rest, split_up_to, texts_in};

use arrayvec::ArrayVec;

// The first place of a byte. A loop: every line of a job is cut by it, and std's `position` takes twice the time.
#[tactic(auto, using(std::proofs::lemmas::Grind::common_steps))]
fn place_of(at: u8, text: &[u8]) -> Option<usize>
    ensures { result ≡ position (λ b. b == at) text.now }
{
    for (place, b) in text.iter().enumerate() {
        if *b == at {
            return Some(place);
        }
    }
    None
}

/// The text up to the first byte `at`, and what follows that byte, if it is there. A pair and no option of one: where the byte
/// is missing the whole text is the answer, as it is for the last line of a text.
pub fn cut<'a>(text: &'a [u8], at: u8) -> (&'a [u8], Option<&'a [u8]>)
    ensures { split at text.now ≡ result.0.now ∷ split_rest at result.1 }
{
    match place_of(at, text) {
        Some(place) => (&text[..place], Some(&text[place + 1..])),
        None => (text, None),
    }
}

// The stretches between the bytes `at`, if there are at most `MOST`. By `cut`, whose clause says what is left after each
// stretch: a loop over std's `split` would have to say that again.
#[tactic(auto, using(std::proofs::lemmas::Grind::common_steps))]
pub(crate) fn stretches<'a, const MOST: usize>(
    text: &'a [u8],
    at: u8,
) -> Option<ArrayVec<&'a [u8], MOST>>
    ensures { option_map (λ v. texts_in v.items) result ≡ split_up_to MOST at text.now }
{
    let mut found = ArrayVec::new();
    let mut rest = Some(text);
    while let Some(left) = rest {
        let (stretch, after) = cut(left, at);
        found.try_push(stretch).ok()?;
        rest = after;
    }
    Some(found)
}
