//! Numbers in sets of 64, side by side.

ghost use Rattle.std.specs.Prelude.{◌≡◌, ℕ, ◌*◌, ◌/◌, ◌<◌, ◌≤◌, true, false, IsTrue, length, nat_eq, not, cond};
ghost use Rattle.overlay_bits.specs.Lines.{AreLines};
ghost use Rattle.free_numbers.specs.declared.TheConstants.{NUMBER_SETS, SET_NUMBERS};
ghost use Rattle.free_numbers.specs.Numbers.{IsLeastMember, IsPut, has_member, is_in, set_at};

use crate::{NUMBER_SETS, SET_NUMBERS};
use overlay_bits::Bits;

/// The least number of a set that has one.
#[inline]
pub(crate) fn least_in(sets: &[Bits], at: u16) -> u16
    requires there { at < length sets.now }
    requires few { length sets.now ≤ NUMBER_SETS }
    requires some { has_member (set_at sets.now at) ≡ true }
    ensures { IsLeastMember sets.now at result }
{
    match sets[at as usize].least_from(0) {
        Some(place) => SET_NUMBERS * at + u16::from(place),
        None => unreachable!(),
    }
}

/// Puts a number in its set.
#[inline]
pub(crate) fn put_in(sets: &mut Vec<Bits>, number: u16)
    requires { number / SET_NUMBERS < length sets.old.items }
    ensures put { IsPut sets.old.items number true sets.new.items }
    ensures some { has_member (set_at sets.new.items (number / SET_NUMBERS)) ≡ true }
{
    let at = (number / SET_NUMBERS) as usize;
    sets[at] = sets[at].with((number % SET_NUMBERS) as u8);
}

/// Takes a number out of its set. Answers whether that has none left.
#[inline]
pub(crate) fn take_out(sets: &mut Vec<Bits>, number: u16) -> bool
    requires { number / SET_NUMBERS < length sets.old.items }
    ensures put { IsPut sets.old.items number false sets.new.items }
    ensures left { has_member (set_at sets.new.items (number / SET_NUMBERS)) ≡ not result }
{
    let at = (number / SET_NUMBERS) as usize;
    let left = sets[at].without((number % SET_NUMBERS) as u8);
    sets[at] = left;
    left.len() == 0
}
