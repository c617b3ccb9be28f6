ghost use Rattle.std.specs.Prelude.{◌≡◌, ℕ, ◌≤◌, IfOk, true, false};
ghost use Rattle.sizes.specs.declared.TheConstants.{LAST_SPACE};
ghost use Rattle.free_numbers.specs.Numbers.{IsLeast, IsPut, is_in, is_number};

use crate::sets::{least_in, put_in, take_out};
use crate::{MARK_SETS, NUMBER_SETS, SET_NUMBERS};
use overlay_bits::Bits;
use std::alloc::{AllocError, Global};
use std::marker::Model;

/// Which numbers of spaces are free. Takes memory in `new` alone.
#[derive(Drop)]
pub struct FreeNumbers {
    sets: Vec<Bits>,
    // which of those have a number
    marks: Vec<Bits>,
    // one set: which of these have one
    top: Vec<Bits>,
}

impl Model for FreeNumbers {
    ghost use Rattle.std.specs.Prelude.{ℕ, List};
    ghost use Rattle.std.specs.Coded.{coded_list, coded_ℕ};

    ghost Value = { List (List ℕ) };

    ghost coded = { coded_list (coded_list coded_ℕ) };

    ghost use Rattle.free_numbers.specs.Kept.{AreKept};

    ghost view = { λ n. n.sets.items };

    ghost invariant = { λ n. AreKept n.sets.items n.marks.items n.top.items };
}

impl FreeNumbers {
    /// All numbers of spaces, 1 to 32,767, or the want of memory.
    pub fn new(alloc: Global) -> Result<FreeNumbers, AllocError>
        ensures { IfOk result (λ numbers. (k : ℕ) → is_in numbers k ≡ is_number k) }
    {
        let all = Bits::range(0, SET_NUMBERS as u8);
        let mut numbers = FreeNumbers {
            sets: vec![in alloc; all; NUMBER_SETS as usize]?,
            marks: vec![in alloc; all; MARK_SETS as usize]?,
            top: vec![in alloc; Bits::range(0, MARK_SETS as u8); 1]?,
        };
        numbers.take(0);
        Ok(numbers)
    }

    /// The least free number. None exactly where none is free. Costs some thirty instructions, however many are.
    pub fn least(&self) -> Option<u16>
        ensures { IsLeast (is_in self.now) result }
    {
        if self.top[0].len() == 0 {
            return None;
        }
        let mark = least_in(&self.top, 0);
        let at = least_in(&self.marks, mark);
        Some(least_in(&self.sets, at))
    }

    /// Takes a number that is free. Costs a few instructions.
    pub fn take(&mut self, number: u16)
        requires low { number ≤ LAST_SPACE }
        requires free { is_in self.old number ≡ true }
        ensures { IsPut self.old number false self.new }
    {
        if take_out(&mut self.sets, number) {
            let at = number / SET_NUMBERS;
            if take_out(&mut self.marks, at) {
                take_out(&mut self.top, at / SET_NUMBERS);
            }
        }
    }

    /// Gives a number back. Costs a few instructions.
    pub fn give_back(&mut self, number: u16)
        requires { number ≤ LAST_SPACE }
        ensures { IsPut self.old number true self.new }
    {
        let at = number / SET_NUMBERS;
        put_in(&mut self.sets, number);
        put_in(&mut self.marks, at);
        put_in(&mut self.top, at / SET_NUMBERS);
    }
}
