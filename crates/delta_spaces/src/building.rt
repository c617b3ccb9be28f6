//! A space that is made of a base and a delta.

ghost use Rattle.std.specs.Prelude.{◌≡◌, ◌≢◌, ◌<◌, ◌≤◌, false, length, true, OnOk};
ghost use Rattle.sizes.specs.declared.TheConstants.{LAST_SPACE, MOST_SPACE_PAGES};
ghost use Rattle.ledger.specs.LargeLaws.{NoneLarge};
ghost use Rattle.overlay_pages.specs.Changes.{limit_of};
ghost use Rattle.overlay_pages.specs.State.{books};
ghost use Rattle.overlay_memory.specs.View.{NoneAwaits, state_of, translations_of};
ghost use Rattle.space_maps.specs.Spaces.{bare_space, holds_space, space_in};
ghost use Rattle.translation_cache.specs.Translations.{flushed};
ghost use Rattle.delta_image.specs.Fine.{Ascend, IsPlain};
ghost use Rattle.delta_spaces.specs.Built.{BeginsSpace, Builds, FillsNew, built_units};

use crate::filling::{map_pages, put_pages, share_pages};
use crate::fitting::fit_table;
use crate::units::units_built;
use delta_image::{Delta, DeltaPage};
use overlay_memory::{OverlayMemory, SpaceError};
use std::alloc::AllocError;

/// Gives a space that was just made the pages of the base that the pages of a delta name, with their permissions. After want of memory
/// nothing is changed.
fn begin_space(
    mem: &mut OverlayMemory,
    base: u16,
    to: u16,
    pages: &[DeltaPage],
) -> Result<(), AllocError>
    requires differ { base ≢ to }
    requires there { holds_space (state_of mem.old) base ≡ true }
    requires none_awaits { NoneAwaits (state_of mem.old) base }
    requires unmarked { (space_in (state_of mem.old) base).speculating ≡ false }
    requires space { holds_space (state_of mem.old) to ≡ true }
    requires bare { space_in (state_of mem.old) to ≡ bare_space }
    requires pages { Ascend IsPlain 0 pages.now }
    requires fits { built_units (state_of mem.old) base pages.now ≤ limit_of (state_of mem.old) }
    ensures begins { BeginsSpace (state_of mem.old) (state_of mem.new) base to pages.now result }
    ensures translations { translations_of mem.new ≡ translations_of mem.old }
{
    let _here = mem.has_space(base);
    match mem.copy_table(base, to) {
        Ok(mut table) => {
            fit_table(&mut table, pages);
            mem.adopt_table(to, table);
            share_pages(mem, base, to, pages);
            Ok(())
        }
        Err(_) => Err(AllocError),
    }
}

/// Gives a space that was just made the pages of a delta over a base, with their lines. The units after it are there. After want of
/// memory the new space is gone.
fn fill_space(
    mem: &mut OverlayMemory,
    base: u16,
    to: u16,
    pages: &[DeltaPage],
) -> Result<(), AllocError>
    requires differ { base ≢ to }
    requires there { holds_space (state_of mem.old) base ≡ true }
    requires none_awaits { NoneAwaits (state_of mem.old) base }
    requires unmarked { (space_in (state_of mem.old) base).speculating ≡ false }
    requires small { NoneLarge (books (state_of mem.old)) base }
    requires space { holds_space (state_of mem.old) to ≡ true }
    requires bare { space_in (state_of mem.old) to ≡ bare_space }
    requires few { length pages.now ≤ MOST_SPACE_PAGES }
    requires pages { Ascend IsPlain 0 pages.now }
    requires fits { built_units (state_of mem.old) base pages.now ≤ limit_of (state_of mem.old) }
    requires unseen { flushed to (translations_of mem.old) ≡ translations_of mem.old }
    ensures fills { FillsNew (state_of mem.old) (state_of mem.new) base to pages.now result }
    ensures translations { translations_of mem.new ≡ translations_of mem.old }
{
    match begin_space(mem, base, to, pages) {
        Ok(()) => match map_pages(mem, base, to, pages) {
            Ok(()) => {
                put_pages(mem, to, pages);
                Ok(())
            }
            Err(_) => {
                mem.drop_space(to);
                Err(AllocError)
            }
        },
        Err(_) => {
            mem.drop_space(to);
            Err(AllocError)
        }
    }
}

/// Makes a space of a number from 1 to 32,767 that isn't there, with the pages of a delta over a base that is there, isn't
/// speculating, and of which no page awaits: each page that the base has shares its frame, and has a copy of its own lines; each
/// other one is zero; and then the given lines are put in. The delta is as for `encode`. Full exactly where the units after it would
/// exceed the limit, which is found before anything is changed; after that, and after want of memory, everything is as before. Costs
/// some look-ups for each page of both, and a copy of each own line and of each line that is given.
pub fn build(mem: &mut OverlayMemory, base: u16, to: u16, d: &Delta) -> Result<(), SpaceError>
    requires there { holds_space (state_of mem.old) base ≡ true }
    requires none_awaits { NoneAwaits (state_of mem.old) base }
    requires unmarked { (space_in (state_of mem.old) base).speculating ≡ false }
    requires some { 0 < to }
    requires last { to ≤ LAST_SPACE }
    requires absent { holds_space (state_of mem.old) to ≡ false }
    requires few { length d.now.pages ≤ MOST_SPACE_PAGES }
    requires pages { Ascend IsPlain 0 d.now.pages }
    ensures builds { Builds mem.old mem.new base to d.now result }
    ensures translations { translations_of mem.new ≡ translations_of mem.old }
    ensures unseen { OnOk result
        (flushed to (translations_of mem.old) ≡ translations_of mem.old) }
{
    let _small = mem.is_speculating(base);
    let pages = d.pages.as_slice();
    let needed = units_built(mem, base, pages);
    if let Some(shortage) = mem.shortage(needed) {
        return Err(SpaceError::Full(shortage.needed, shortage.limit));
    }
    match mem.add_space(to) {
        Ok(()) => match fill_space(mem, base, to, pages) {
            Ok(()) => Ok(()),
            Err(_) => Err(SpaceError::Memory),
        },
        Err(_) => Err(SpaceError::Memory),
    }
}
