//! A new space with the pages of another one.

ghost use Rattle.std.specs.Prelude.{◌≡◌, ◌<◌, ◌≤◌, true, false, OnOk};
ghost use Rattle.sizes.specs.declared.TheConstants.{LAST_SPACE};
ghost use Rattle.overlay_memory.specs.View.{NoneAwaits, state_of, translations_of};
ghost use Rattle.space_maps.specs.Spaces.{holds_space, space_in};
ghost use Rattle.translation_cache.specs.Translations.{flushed};
ghost use Rattle.fork_checkpoint.specs.Copied.{Copies};

use crate::sharing::fill_space;
use crate::units::units_copied;
use overlay_memory::{OverlayMemory, SpaceError};

/// Makes a space of a number from 1 to 32,767 that isn't there, with the pages of a space that is there, isn't speculating, and of
/// which no page awaits: it shares each frame, and has a copy of each overlay in a segment of its own. Full exactly where the units
/// after it would exceed the limit, which is found before anything is shared; then nothing is changed. After want of memory the new
/// space is gone. Costs a step for each page, and a copy of each own line.
pub fn fork_space(mem: &mut OverlayMemory, from: u16, to: u16) -> Result<(), SpaceError>
    requires there { holds_space (state_of mem.old) from ≡ true }
    requires none_awaits { NoneAwaits (state_of mem.old) from }
    requires unmarked { (space_in (state_of mem.old) from).speculating ≡ false }
    requires some { 0 < to }
    requires last { to ≤ LAST_SPACE }
    requires absent { holds_space (state_of mem.old) to ≡ false }
    ensures copies { Copies mem.old mem.new from to result }
    ensures translations { translations_of mem.new ≡ translations_of mem.old }
    ensures unseen { OnOk result
        (flushed to (translations_of mem.old) ≡ translations_of mem.old) }
{
    let units = mem.units();
    let needed = units_copied(mem, from, units);
    if let Some(shortage) = mem.shortage(needed) {
        return Err(SpaceError::Full(shortage.needed, shortage.limit));
    }
    match mem.add_space(to) {
        Ok(()) => match fill_space(mem, from, to) {
            Ok(()) => Ok(()),
            Err(_) => Err(SpaceError::Memory),
        },
        Err(_) => Err(SpaceError::Memory),
    }
}
