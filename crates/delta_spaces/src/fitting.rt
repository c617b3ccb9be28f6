//! A table of the base's pages, for a space that is made of it.

ghost use Rattle.std.specs.Prelude.{◌≡◌, ◌<◌, ℕ, IsSome};
ghost use Rattle.std.specs.FinMap as map;
ghost use Rattle.sizes.specs.declared.TheConstants.{PAGE_END};
ghost use Rattle.delta_image.specs.Fine.{Ascend, IsPlain};
ghost use Rattle.delta_spaces.specs.Built.{awaits_at};
ghost use Rattle.delta_spaces.specs.Fitted.{IsCutOut, IsFitted, IsNextBelow};

use delta_image::DeltaPage;
use page_table::{PageEntry, PageTable};
use sizes::PAGE_END;

/// The least page from one on and below another one. None exactly where there is none. Costs nothing where there are no numbers between.
fn next_below(table: &PageTable, at: u64, until: u64) -> Option<u64>
    ensures { IsNextBelow table.now.pages at until result }
{
    if at >= until {
        return None;
    }
    match table.next_from(at) {
        Some((page, _)) => { if page < until { Some(page) } else { None } }
        None => None,
    }
}

/// Takes out the pages from one on and below another one. Costs some look-ups for each of them.
fn cut_pages(table: &mut PageTable, from: u64, until: u64)
    ensures { IsCutOut table.old.pages table.new.pages from until }
{
    let mut at = from;
    'cutting: while let Some(page) = next_below(table, at, until) {
        table.unmap(page, 1);
        at = page + 1;
    }
}

/// Gives a page, where it is there, the delta's permissions; its frame stays. An entry that has them is left as it stands.
fn fit_page(table: &mut PageTable, page: &DeltaPage)
    ensures { IsFitted table.old.pages table.new.pages page.now.page page.now.perms }
{
    match table.get(page.page) {
        Some(entry) => {
            let perms = page.perms;
            let frame = entry.frame;
            if entry.perms != perms {
                table.set(page.page, PageEntry { perms, frame });
            }
        }
        None => {}
    }
}

/// Takes out the pages that a delta lacks, and gives the others its permissions. Takes no memory. Costs some look-ups for each page of
/// both.
pub(crate) fn fit_table(table: &mut PageTable, pages: &[DeltaPage])
    requires low { (page : ℕ) → IsSome (map.get table.old.pages page) → page < PAGE_END }
    requires pages { Ascend IsPlain 0 pages.now }
    ensures { (page : ℕ) → map.get table.new.pages page ≡ awaits_at table.old.pages pages.now page }
{
    let mut at = 0;
    'fitting: for page in pages {
        cut_pages(table, at, page.page);
        fit_page(table, page);
        at = page.page + 1;
    }
    cut_pages(table, at, PAGE_END);
}
