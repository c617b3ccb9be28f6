ghost use Rattle.std.specs.Prelude.{◌≡◌, ◌<◌, ◌^◌, false, true, IsSome, OnOk};
ghost use Rattle.overlay_memory.specs.Translated.{KeepsOtherTranslations};
ghost use Rattle.overlay_memory.specs.View.{NoneAwaits, state_of, translations_of};
ghost use Rattle.space_maps.specs.Spaces.{holds_space, page_in, space_in};
ghost use Rattle.translation_cache.specs.Translations.{flushed};
ghost use Rattle.promotion.specs.Promoted.{Promotes, PromotesAll, SettlesPage};

use crate::error::PromoteError;
use crate::settling::settle;
use overlay_memory::{OverlayMemory, Shortage, class_of};
use sizes::{FRAME_UNITS, PAGE_BYTES};

// Settles a page that is there.
fn settle_page(mem: &mut OverlayMemory, space: u16, page: u64) -> Result<(), Shortage>
    requires there { IsSome (page_in (state_of mem.old) space page) }
    requires none_awaits { NoneAwaits (state_of mem.old) space }
    ensures settles { SettlesPage mem.old mem.new space page result }
    ensures lists { KeepsOtherTranslations space mem.old mem.new }
{
    let own = mem.lines_of(space, page).len();
    let units = mem.units();
    if own == 0 {
        return Ok(());
    }
    if mem.is_alone(space, page) {
        mem.commit_page(space, page);
        return Ok(());
    }
    let needed = units + FRAME_UNITS - class_of(own);
    if let Some(shortage) = mem.shortage(needed) {
        return Err(shortage);
    }
    mem.copy_commit_page(space, page);
    Ok(())
}

/// Settles a page: one without own lines stays; the own lines of one that is alone go into its frame; any other gets a new frame
/// with its lines. The space is there, and no page of it awaits; the page is below 2^52. Speculating exactly where the space is,
/// else Unmapped with the page's address exactly where it isn't there, else Full exactly where the units after it would exceed the
/// limit. After an error everything is as before, and else the space has no translations any more. Takes no memory. Costs a copy of
/// the page.
pub fn promote(mem: &mut OverlayMemory, space: u16, page: u64) -> Result<(), PromoteError>
    requires there { holds_space (state_of mem.old) space ≡ true }
    requires none_awaits { NoneAwaits (state_of mem.old) space }
    requires low { page < 2 ^ 52 }
    ensures promotes { Promotes mem.old mem.new space page result }
    ensures translations { OnOk result
        (translations_of mem.new ≡ flushed space (translations_of mem.old)) }
{
    if mem.is_speculating(space) {
        return Err(PromoteError::Speculating);
    }
    if !mem.has_page(space, page) {
        return Err(PromoteError::Unmapped(page * PAGE_BYTES as u64));
    }
    match settle_page(mem, space, page) {
        Ok(()) => {
            mem.forget_translations(space);
            Ok(())
        }
        Err(shortage) => Err(PromoteError::Full(shortage.needed, shortage.limit)),
    }
}

/// Settles each page of a space. The space is there, and no page of it awaits. Speculating exactly where the space is, else Full
/// exactly where the units after it would exceed the limit; Unmapped never. After an error everything is as before, and else the
/// space has no translations any more. No state on the way needs more units than the greater of those before and those after. Takes
/// no memory. Costs a few look-ups for each page with own lines, a copy of each own line, and a page for each new frame.
pub fn promote_all(mem: &mut OverlayMemory, space: u16) -> Result<(), PromoteError>
    requires there { holds_space (state_of mem.old) space ≡ true }
    requires none_awaits { NoneAwaits (state_of mem.old) space }
    ensures promotes { PromotesAll mem.old mem.new space result }
    ensures translations { OnOk result
        (translations_of mem.new ≡ flushed space (translations_of mem.old)) }
{
    if mem.is_speculating(space) {
        return Err(PromoteError::Speculating);
    }
    match settle(mem, space) {
        Ok(()) => {
            mem.forget_translations(space);
            Ok(())
        }
        Err(shortage) => Err(PromoteError::Full(shortage.needed, shortage.limit)),
    }
}
