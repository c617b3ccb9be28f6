//! Start, commit and discard.

ghost use Rattle.std.specs.Prelude.{◌≡◌, OnOk, true};
ghost use Rattle.ledger.specs.LargeLaws.{NoneLarge};
ghost use Rattle.overlay_pages.specs.State.{books};
ghost use Rattle.overlay_memory.specs.View.{NoneAwaits, state_of, translations_of};
ghost use Rattle.space_maps.specs.Spaces.{holds_space};
ghost use Rattle.translation_cache.specs.Translations.{flushed};
ghost use Rattle.speculation.specs.Speculated.{Commits, Discards, Starts};

use crate::discarding::discard_all;
use crate::error::SpeculationError;
use overlay_memory::OverlayMemory;
use promotion::{commit_pages, settle};

/// Settles each page of a space, of which no page awaits, and marks the space as speculating: from then on its stores change no
/// base. Speculating exactly where it is marked, else Full exactly where the units after it would exceed the limit; NotSpeculating
/// never. After an error everything is as before, and else the space has no translations any more. Takes no memory. Costs a few
/// look-ups for each page with own lines, a copy of each own line, and a page for each new frame.
pub fn start(mem: &mut OverlayMemory, space: u16) -> Result<(), SpeculationError>
    requires there { holds_space (state_of mem.old) space ≡ true }
    requires none_awaits { NoneAwaits (state_of mem.old) space }
    ensures starts { Starts mem.old mem.new space result }
    ensures translations { OnOk result
        (translations_of mem.new ≡ flushed space (translations_of mem.old)) }
{
    if mem.is_speculating(space) {
        return Err(SpeculationError::Speculating);
    }
    match settle(mem, space) {
        Ok(()) => {
            mem.set_speculating(space, true);
            Ok(())
        }
        Err(short) => Err(SpeculationError::Full(short.needed, short.limit)),
    }
}

/// The own lines of each page that is alone go into its frame, each other page with 32 own lines or more gets a new frame with its
/// lines, the others keep their overlays as ordinary ones, and the mark is taken away. No page of the space awaits. NotSpeculating
/// exactly where the space isn't marked; then everything is as before. Else the space has no translations any more, and each of its
/// pages at most 31 own lines. Never full. Takes no memory. Costs a few look-ups for each page with own lines, a copy of each own line
/// of those that are alone, and a page for each new frame.
pub fn commit(mem: &mut OverlayMemory, space: u16) -> Result<(), SpeculationError>
    requires there { holds_space (state_of mem.old) space ≡ true }
    requires none_awaits { NoneAwaits (state_of mem.old) space }
    ensures commits { Commits mem.old mem.new space result }
    ensures small { NoneLarge (books (state_of mem.new)) space }
    ensures translations { OnOk result
        (translations_of mem.new ≡ flushed space (translations_of mem.old)) }
{
    if !mem.is_speculating(space) {
        return Err(SpeculationError::NotSpeculating);
    }
    commit_pages(mem, space);
    mem.set_speculating(space, false);
    Ok(())
}

/// Every overlay of a space is given up, so that its base is what processes see, and the mark is taken away. NotSpeculating exactly
/// where the space isn't marked; then everything is as before. Else the space has no translations any more. Never full. Takes no
/// memory. Costs a few look-ups for each page with own lines.
pub fn discard(mem: &mut OverlayMemory, space: u16) -> Result<(), SpeculationError>
    requires there { holds_space (state_of mem.old) space ≡ true }
    ensures discards { Discards mem.old mem.new space result }
    ensures translations { OnOk result
        (translations_of mem.new ≡ flushed space (translations_of mem.old)) }
{
    if !mem.is_speculating(space) {
        return Err(SpeculationError::NotSpeculating);
    }
    discard_all(mem, space);
    mem.set_speculating(space, false);
    Ok(())
}
