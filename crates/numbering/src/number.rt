// The number or letter of the next register: one method for each class, which moves its count on.
ghost use Rattle.std.specs.Prelude.{◌≡◌, ◌+◌, if◌then◌else◌, Some, None};
ghost use Rattle.numbering.specs.Counts.{next_label, next_mask, start, moved_on};
ghost use Rattle.numbering.specs.Numbers.{vector_number, letter};

use crate::plan::{Plan, VectorRule};
use crate::rank::Rank;
use kinds::Counter;

/// The ranks of the next registers: how many of each class have been named.
#[derive(Clone, Copy, Debug, PartialEq, Eq)]
pub struct Counts {
    pub vectors: Rank,
    pub masks: Rank,
    pub tiles: Rank,
    pub bounds: Rank,
    pub letters32: Rank,
    pub letters64: Rank,
}

/// What gives the registers of a signature their numbers and letters, in the order in which they are named.
// Both are one byte, and no enum tells them apart: the counter says which it is, and a text prints it right after the
// register's name.
#[derive(Clone, Copy, Debug, PartialEq, Eq)]
pub struct Numbering {
    pub plan: Plan,
    pub counts: Counts,
}

impl Numbering {
    /// Before the first register.
    pub fn new(plan: Plan) -> Numbering
        ensures { result ≡ start plan }
    {
        let none = Rank::after(0);
        Numbering {
            plan,
            counts: Counts {
                vectors: none,
                masks: none,
                tiles: none,
                bounds: none,
                letters32: none,
                letters64: none,
            },
        }
    }

    /// The number of a vector, if vectors have numbers. `place` is its operand's.
    pub fn next_vector(&mut self, place: Rank) -> Option<u8>
        ensures value { result ≡ vector_number self.old.plan.vectors self.old.counts.vectors place }
        ensures moved { self.new ≡ moved_on Counter.Vector self.old }
    {
        let rank = self.counts.vectors.next();
        match self.plan.vectors {
            VectorRule::Unnumbered => None,
            VectorRule::ByPlace => Some(place.number()),
            VectorRule::From1 => Some(rank.number()),
            VectorRule::From2 => Some(rank.number() + 1),
            VectorRule::Swapped => Some(rank.swapped()),
        }
    }

    /// The number of a mask.
    pub fn next_mask(&mut self) -> u8
        ensures value { result ≡ next_mask self.old }
        ensures moved { self.new ≡ moved_on Counter.Mask self.old }
    {
        let rank = self.counts.masks.next();
        if self.plan.swaps {
            rank.swapped()
        } else {
            rank.number()
        }
    }

    /// The number of a tile.
    pub fn next_tile(&mut self) -> u8
        ensures value { result ≡ self.old.counts.tiles + 1 }
        ensures moved { self.new ≡ moved_on Counter.Tile self.old }
    {
        self.counts.tiles.next().number()
    }

    /// The number of a bound register, if bound registers have numbers.
    pub fn next_bound(&mut self) -> Option<u8>
        ensures value { result ≡ (if self.old.plan.bounds then Some (self.old.counts.bounds + 1) else None) }
        ensures moved { self.new ≡ moved_on Counter.Bound self.old }
    {
        let rank = self.counts.bounds.next();
        self.plan.bounds.then_some(rank.number())
    }

    /// The letter of a general register of 32 bits, if those have letters.
    pub fn next_letter32(&mut self) -> Option<u8>
        ensures value { result ≡ letter self.old.plan.letters32 self.old.counts.letters32 }
        ensures moved { self.new ≡ moved_on Counter.Letter32 self.old }
    {
        let rank = self.counts.letters32.next();
        self.plan.letters32.then_some(rank.letter())
    }

    /// The letter of a general register of 64 bits, if those have letters.
    pub fn next_letter64(&mut self) -> Option<u8>
        ensures value { result ≡ letter self.old.plan.letters64 self.old.counts.letters64 }
        ensures moved { self.new ≡ moved_on Counter.Letter64 self.old }
    {
        let rank = self.counts.letters64.next();
        self.plan.letters64.then_some(rank.letter())
    }

    /// What stands right after the name of a register of this class. `place` is its operand's.
    // Each counter has a method of its own; the walk of the operands asks for the one that a kind's class names.
    pub fn next(&mut self, counter: Counter, place: Rank) -> Option<u8>
        ensures value { result ≡ next_label self.old counter place }
        ensures moved { self.new ≡ moved_on counter self.old }
    {
        match counter {
            Counter::Uncounted => None,
            Counter::Vector => self.next_vector(place),
            Counter::Mask => Some(self.next_mask()),
            Counter::Tile => Some(self.next_tile()),
            Counter::Bound => self.next_bound(),
            Counter::Letter32 => self.next_letter32(),
            Counter::Letter64 => self.next_letter64(),
        }
    }
}
