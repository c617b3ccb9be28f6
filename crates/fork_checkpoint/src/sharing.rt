//! The pages of a space are shared with another one.

ghost use Rattle.std.specs.Prelude.{◌≡◌, ◌≢◌, OnErr, OnOk, true, false};
ghost use Rattle.std.specs.FinMap as map;
ghost use Rattle.ledger.specs.Events.{Copy};
ghost use Rattle.overlay_memory.specs.View.{NoneAwaits, state_of, translations_of};
ghost use Rattle.overlay_memory.specs.Room.{FitsAfter};
ghost use Rattle.space_maps.specs.Spaces.{bare_space, holds_space, space_in};
ghost use Rattle.translation_cache.specs.Translations.{flushed};
ghost use Rattle.fork_checkpoint.specs.Copied.{ArePagesLow, AwaitsAll, CanHave, FillsSpace, RefillsSpace, with_copy};

use overlay_memory::OverlayMemory;
use page_table::PageTable;
use sizes::PAGE_END;
use std::alloc::AllocError;

// Each page is shared with the space in which it awaits, the least first: those without own lines as far as the next one that has
// some, and then that one. The units become no fewer with each page, and those after the last one are there.
fn share_all(mem: &mut OverlayMemory, from: u16, to: u16)
    requires differ { from ≢ to }
    requires there { holds_space (state_of mem.old) from ≡ true }
    requires unmarked { (space_in (state_of mem.old) from).speculating ≡ false }
    requires space { holds_space (state_of mem.old) to ≡ true }
    requires empty { (space_in (state_of mem.old) to).pages ≡ map.empty }
    requires awaits { AwaitsAll (state_of mem.old) from to }
    requires low { ArePagesLow (state_of mem.old) from }
    requires fits { FitsAfter (Copy from to) (state_of mem.old) }
    ensures shared { state_of mem.new ≡ with_copy (state_of mem.old) from to }
    ensures translations { translations_of mem.new ≡ translations_of mem.old }
{
    let mut at = 0;
    'sharing: while let Some(page) = mem.next_overlaid(from, at) {
        mem.share_bare(from, to, page);
        mem.share_page(from, to, page);
        at = page + 1;
    }
    mem.share_bare(from, to, PAGE_END);
}

// A space without a page gets those of another one, whose entries the table has.
fn share_table(mem: &mut OverlayMemory, from: u16, to: u16, table: PageTable)
    requires ready { CanHave (state_of mem.old) from to table.pages }
    ensures shared { state_of mem.new ≡ with_copy (state_of mem.old) from to }
    ensures translations { translations_of mem.new ≡ translations_of mem.old }
{
    mem.adopt_table(to, table);
    share_all(mem, from, to);
}

/// Gives a space that was just made the pages of another one, of which none awaits. The units after it are there. After want of
/// memory the new space is gone. Costs a step for each page, and a copy of each own line.
pub(crate) fn fill_space(mem: &mut OverlayMemory, from: u16, to: u16) -> Result<(), AllocError>
    requires differ { from ≢ to }
    requires there { holds_space (state_of mem.old) from ≡ true }
    requires unmarked { (space_in (state_of mem.old) from).speculating ≡ false }
    requires none_awaits { NoneAwaits (state_of mem.old) from }
    requires space { holds_space (state_of mem.old) to ≡ true }
    requires bare { space_in (state_of mem.old) to ≡ bare_space }
    requires low { ArePagesLow (state_of mem.old) from }
    requires fits { FitsAfter (Copy from to) (state_of mem.old) }
    ensures fills { FillsSpace (state_of mem.old) (state_of mem.new) from to result }
    ensures translations { translations_of mem.new ≡ translations_of mem.old }
{
    match mem.copy_table(from, to) {
        Ok(table) => {
            share_table(mem, from, to, table);
            Ok(())
        }
        Err(_) => {
            mem.drop_space(to);
            Err(AllocError)
        }
    }
}

/// Gives a space the pages of another one in the place of its own; no page of either awaits. The units after it are there. The table
/// is all the memory that it takes, so it is copied first: after want of memory everything is as before. Costs a step for each page
/// of both, and a copy of each own line.
pub(crate) fn refill_space(mem: &mut OverlayMemory, from: u16, to: u16) -> Result<(), AllocError>
    requires differ { from ≢ to }
    requires from_there { holds_space (state_of mem.old) from ≡ true }
    requires from_unmarked { (space_in (state_of mem.old) from).speculating ≡ false }
    requires none_of_from_awaits { NoneAwaits (state_of mem.old) from }
    requires there { holds_space (state_of mem.old) to ≡ true }
    requires none_awaits { NoneAwaits (state_of mem.old) to }
    requires low { ArePagesLow (state_of mem.old) from }
    requires fits { FitsAfter (Copy from to) (state_of mem.old) }
    ensures refills { RefillsSpace (state_of mem.old) (state_of mem.new) from to result }
    ensures translations { OnOk result
        (translations_of mem.new ≡ flushed to (translations_of mem.old)) }
    ensures kept { OnErr result (translations_of mem.new ≡ translations_of mem.old) }
{
    match mem.copy_table(from, to) {
        Ok(table) => {
            mem.clear_space(to);
            share_table(mem, from, to, table);
            Ok(())
        }
        Err(_) => Err(AllocError),
    }
}
