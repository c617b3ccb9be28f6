ghost use Rattle.std.specs.Prelude.{◌≡◌, ◌+◌, ◌<◌, ◌≤◌, cond, [], length};
ghost use Rattle.sizes.specs.declared.TheConstants.{PAGE_LINES};
ghost use Rattle.overlay_bits.specs.Lines.{AreLines, IsFirst, IsLeastFrom, has_line, lines_between, rank_of, with_line, with_lines, without_line, without_lines};

use crate::iter::BitsIter;
use std::marker::Model;

/// A set of lines of a page: of numbers below 64.
#[derive(Clone, Copy, Debug, PartialEq, Eq)]
pub struct Bits {
    word: u64,
}

impl Model for Bits {
    ghost use Rattle.std.specs.Prelude.{ℕ, List, ◌^◌, ◌<◌};
    ghost use Rattle.overlay_bits.specs.Kept.{lines_of_word, word_back, word_of};

    ghost Value = { List ℕ };

    ghost view = { λ b. lines_of_word b.word };

    ghost invariant = { λ b. b.word < 2 ^ 64 };

    ghost inverse = { λ lines. record { word = word_of lines } };

    ghost inverse_ok = { λ b h i. record { word = word_back b.word h i } };
}

impl Bits {
    /// The empty set.
    pub fn empty() -> Bits
        ensures { result ≡ [] }
    {
        Bits { word: 0 }
    }

    /// The lines from `first` to below `end`: at most 64.
    pub fn range(first: u8, end: u8) -> Bits
        requires order { first ≤ end }
        requires inside { end ≤ PAGE_LINES }
        ensures lines { result ≡ lines_between first end }
        ensures are { AreLines result }
    {
        if first == end {
            return Bits::empty();
        }
        let below_end = u64::MAX >> (64 - end);
        Bits {
            word: below_end & (u64::MAX << first),
        }
    }

    /// Whether a line, below 64, is a member. Costs a few instructions.
    pub fn has(self, line: u8) -> bool
        requires { line < PAGE_LINES }
        ensures has { result ≡ has_line self line }
        ensures are { AreLines self }
    {
        (self.word >> line) & 1 == 1
    }

    /// The set with a line, below 64. Costs a few instructions.
    pub fn with(self, line: u8) -> Bits
        requires { line < PAGE_LINES }
        ensures lines { result ≡ with_line self line }
        ensures count { length result ≡ length self + cond (has_line self line) 0 1 }
        ensures before { AreLines self }
        ensures are { AreLines result }
    {
        Bits {
            word: self.word | (1u64 << line),
        }
    }

    /// The set without a line, below 64. Costs a few instructions.
    pub fn without(self, line: u8) -> Bits
        requires { line < PAGE_LINES }
        ensures lines { result ≡ without_line self line }
        ensures count { length result + cond (has_line self line) 1 0 ≡ length self }
        ensures before { AreLines self }
        ensures are { AreLines result }
    {
        Bits {
            word: self.word & !(1u64 << line),
        }
    }

    /// The lines that are members of one of two sets. Costs an instruction.
    pub fn union(self, other: Bits) -> Bits
        ensures lines { result ≡ with_lines self other }
        ensures before { AreLines self × AreLines other }
        ensures are { AreLines result }
    {
        Bits {
            word: self.word | other.word,
        }
    }

    /// The members that another set lacks. Costs a few instructions.
    pub fn minus(self, other: Bits) -> Bits
        ensures lines { result ≡ without_lines self other }
        ensures before { AreLines self }
        ensures are { AreLines result }
    {
        Bits {
            word: self.word & !other.word,
        }
    }

    /// How many members there are: at most 64. Costs an instruction.
    pub fn len(self) -> u32
        ensures count { result ≡ length self }
        ensures are { AreLines self }
    {
        self.word.count_ones()
    }

    /// How many members are below a line, which is below 64. Costs a few instructions.
    pub fn rank(self, line: u8) -> u32
        requires { line < PAGE_LINES }
        ensures rank { result ≡ rank_of self line }
        ensures are { AreLines self }
    {
        (self.word & ((1u64 << line) - 1)).count_ones()
    }

    /// The least member not below a line, which is at most 64. None exactly where there is none. Costs a few instructions.
    #[inline]
    pub fn least_from(self, line: u8) -> Option<u8>
        requires { line ≤ PAGE_LINES }
        ensures { IsLeastFrom self line result }
    {
        self.minus(Bits::range(0, line)).first()
    }

    /// The members, ascending. Costs a few instructions for each of them.
    pub fn iter(self) -> BitsIter
        ensures lines { result ≡ self }
        ensures are { AreLines self }
    {
        let _ = &self.word;
        BitsIter { rest: self }
    }

    // The least member. None exactly where there is none.
    pub(crate) fn first(self) -> Option<u8>
        ensures first { IsFirst self result }
    {
        if self.word == 0 {
            return None;
        }
        Some(self.word.trailing_zeros() as u8)
    }
}
