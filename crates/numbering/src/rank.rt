// The rank that a register's number or letter goes by.
ghost use Rattle.std.specs.Prelude.{◌≡◌, ◌+◌, ◌≤◌, min};
ghost use Rattle.numbering.specs.Numbers.{next_rank, swapped};

use std::marker::Model;

/// How many stand before one in a signature: registers of its class, or operands. A signature has at most five operands and
/// a mask, so a rank is at most 6, and stops there.
#[derive(Clone, Copy, Debug, PartialEq, Eq)]
pub struct Rank {
    before: u8,
}

impl Model for Rank {
    ghost use Rattle.std.specs.Prelude.{ℕ, ◌≤◌};

    ghost Value = { ℕ };

    ghost view = { λ r. r.before };

    ghost invariant = { λ r. r.before ≤ 6 };

    ghost inverse = { λ n. record { before = n } };
}

impl Rank {
    /// The rank of one that so many stand before; it stops at six.
    pub fn after(before: usize) -> Rank
        ensures { result ≡ min before 6 }
    {
        Rank {
            before: before.min(6) as u8,
        }
    }

    // The rank of the next one, which moves the count on.
    pub(crate) fn next(&mut self) -> Rank
        ensures value { result ≡ self.old }
        ensures moved { self.new ≡ next_rank self.old }
    {
        let rank = *self;
        *self = Rank::after(usize::from(rank.before) + 1);
        rank
    }

    /// 1 for the first, 2 for the next.
    pub fn number(self) -> u8
        ensures value { result ≡ self + 1 }
        ensures few { result ≤ 7 }
    {
        self.before + 1
    }

    // 2, 1, 3, 4, 5: the first two numbers change places.
    pub(crate) fn swapped(self) -> u8
        ensures { result ≡ swapped self }
    {
        match self.before {
            0 => 2,
            1 => 1,
            more => more + 1,
        }
    }

    pub(crate) fn letter(self) -> u8
        ensures { result ≡ 97 + self }
    {
        b'a' + self.before
    }
}
