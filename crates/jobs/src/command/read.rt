// A line of a job, read.
ghost use Rattle.std.specs.Prelude.{◌≡◌, ◌<◌, ◌||◌, codes, length};
ghost use Rattle.std.specs.Str.{bytes_eq};
ghost use Rattle.jobs.specs.Commands.{blank, command_in, command_of, open_of, opened_at, passed_over, said, window_of};
ghost use Rattle.jobs.specs.Fields.{fields, texts_in};

use super::{Command, Opening};
use crate::fields::{cut, stretches};
use crate::row::{FIELDS, read_fields};
use text::reading::read_decimal;

fn blank(line: &[u8]) -> bool
    ensures { result ≡ blank line.now }
{
    line.iter().all(|b| *b == b' ')
}

fn passed_over(line: &[u8]) -> bool
    ensures { result ≡ passed_over line.now }
{
    blank(line) || line.starts_with(b"#")
}

#[tactic(auto, unfolding(crate::specs::Commands::window_of))]
fn read_window(from: &[u8], to: &[u8]) -> Option<(u32, u32)>
    ensures { result ≡ window_of from.now to.now }
{
    Some((read_decimal(from)?, read_decimal(to)?))
}

// An archive opened from the first number up to the second, where both are numbers. `Unknown` is what a line says that
// fits no command, so the readers of its parts answer it too.
fn opened<'a>(front: bool, from: &[u8], to: &[u8]) -> Command<'a>
    ensures { said result ≡ opened_at front (window_of from.now to.now) }
{
    match read_window(from, to) {
        Some(window) => Command::Open(Opening {
            front,
            window: Some(window),
        }),
        None => Command::Unknown,
    }
}

// The words of the line are `open` and what follows it.
fn read_open<'a>(words: &[&[u8]]) -> Command<'a>
    ensures { said result ≡ open_of (texts_in words.now) }
{
    match words {
        [_] => Command::Open(Opening::default()),
        [_, front] if *front == b"front".as_slice() => Command::Open(Opening {
            front: true,
            window: None,
        }),
        [_, from, to] => opened(false, from, to),
        [_, front, from, to] if *front == b"front".as_slice() => opened(true, from, to),
        _ => Command::Unknown,
    }
}

#[tactic(auto, unfolding(crate::specs::Commands::command_in))]
fn read_words<'a>(words: &[&'a [u8]]) -> Command<'a>
    requires { 1 < length words.now }
    ensures { said result ≡ command_in (texts_in words.now) }
{
    match words {
        [word, ..] if *word == b"row".as_slice() => match read_fields(words) {
            Some((form, naming)) => Command::Row(form, naming),
            None => Command::Unknown,
        },
        [word, ..] if *word == b"open".as_slice() => read_open(words),
        [word, name] if *word == b"segment".as_slice() && !name.is_empty() => Command::Segment(
            name,
        ),
        _ => Command::Unknown,
    }
}

// Whether other words follow this one in a line.
fn leads(word: &[u8]) -> bool
    ensures { result ≡ (bytes_eq word.now (codes "row") || (bytes_eq word.now (codes "open") || bytes_eq word.now (codes "segment"))) }
{
    word == b"row".as_slice() || word == b"open".as_slice() || word == b"segment".as_slice()
}

// A line of more words than one, by all of them.
#[tactic(auto, using(crate::proofs::ManyFields::many_fields))]
fn read_all<'a>(line: &'a [u8]) -> Command<'a>
    requires { 1 < length (fields line.now) }
    ensures { said result ≡ command_in (fields line.now) }
{
    match stretches::<FIELDS>(line, b' ') {
        Some(words) => read_words(words.as_slice()),
        None => Command::Unknown,
    }
}

// By the first word before the others are looked for: what follows a word that is none of these may be long.
// Words are compared by `==`, as specs/Commands compares them: of byte-string patterns the check learns the single bytes,
// and finds no proof for the arms after the second.
#[tactic(auto, using(crate::proofs::FirstWord::first_word, crate::proofs::FirstWord::some_left, crate::proofs::FirstWord::word_alone, crate::proofs::FirstWord::open_alone), unfolding(crate::specs::Commands::word_of))]
fn read_line<'a>(line: &'a [u8]) -> Command<'a>
    ensures { said result ≡ command_in (fields line.now) }
{
    let (word, rest) = cut(line, b' ');
    if rest.is_some() {
        if leads(word) {
            return read_all(line);
        }
        return Command::Unknown;
    }
    if word == b"open".as_slice() {
        return Command::Open(Opening::default());
    }
    if word == b"check".as_slice() {
        return Command::Check;
    }
    if word == b"texts".as_slice() {
        return Command::Texts;
    }
    if word == b"entries".as_slice() {
        return Command::Entries;
    }
    Command::Unknown
}

/// What a line says.
pub fn read_command<'a>(line: &'a [u8]) -> Command<'a>
    ensures { said result ≡ command_of line.now }
{
    if passed_over(line) {
        return Command::Nothing;
    }
    read_line(line)
}
