//! The pages of a space in the place of those that another one had.

ghost use Rattle.std.specs.Prelude.{◌≡◌, ◌≢◌, OnErr, OnOk, true, false};
ghost use Rattle.overlay_memory.specs.View.{NoneAwaits, state_of, translations_of};
ghost use Rattle.space_maps.specs.Spaces.{holds_space, space_in};
ghost use Rattle.translation_cache.specs.Translations.{flushed};
ghost use Rattle.fork_checkpoint.specs.Copied.{Copies};

use crate::sharing::refill_space;
use crate::units::units_restored;
use overlay_memory::{OverlayMemory, SpaceError};

/// Gives the pages of space `into` up, and gives it those of another one, as a fork does: it shares each frame, and has a copy of
/// each overlay in a segment of its own. Both are there, neither is speculating, and no page of either awaits. Space `into` keeps
/// its number. Full exactly where the units after it would exceed the limit, which is found before anything is given up; after that,
/// and after want of memory, nothing is changed. Costs some look-ups for each page that is given up, a step for each page that is
/// shared, and a copy of each own line.
pub fn restore_space(mem: &mut OverlayMemory, saved: u16, into: u16) -> Result<(), SpaceError>
    requires differ { saved ≢ into }
    requires saved_there { holds_space (state_of mem.old) saved ≡ true }
    requires none_of_saved_awaits { NoneAwaits (state_of mem.old) saved }
    requires saved_unmarked { (space_in (state_of mem.old) saved).speculating ≡ false }
    requires there { holds_space (state_of mem.old) into ≡ true }
    requires none_awaits { NoneAwaits (state_of mem.old) into }
    requires unmarked { (space_in (state_of mem.old) into).speculating ≡ false }
    ensures copies { Copies mem.old mem.new saved into result }
    ensures translations { OnOk result
        (translations_of mem.new ≡ flushed into (translations_of mem.old)) }
    ensures kept { OnErr result (translations_of mem.new ≡ translations_of mem.old) }
{
    let needed = units_restored(mem, saved, into);
    if let Some(shortage) = mem.shortage(needed) {
        return Err(SpaceError::Full(shortage.needed, shortage.limit));
    }
    match refill_space(mem, saved, into) {
        Ok(()) => Ok(()),
        Err(_) => Err(SpaceError::Memory),
    }
}
