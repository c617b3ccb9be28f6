//! Parts of a run of pages.

ghost use Rattle.std.specs.Prelude.{◌≡◌, ℕ, ◌<◌, ◌≤◌};
ghost use Rattle.page_table.specs.Run.{entry_at};
ghost use Rattle.space_ledger.specs.Space.{IsRunBelow, IsStartOf};

use page_table::PageRun;

/// The pages of a run that are below one, if there are any.
pub(crate) fn cut(run: PageRun, until: u64) -> Option<PageRun>
    requires { 0 < run.n }
    ensures { IsRunBelow run until result }
{
    if until <= run.page {
        return None;
    }
    let left = until - run.page;
    if u64::from(run.n) <= left {
        return Some(run);
    }
    Some(PageRun {
        page: run.page,
        n: left as u32,
        entry: run.entry,
        rising: run.rising,
    })
}

/// How many pages of a run, from one on, are on the zero frame: all, where it begins with that page, or none.
pub(crate) fn zeros_in(run: &PageRun, page: u64, zero: u32) -> u32
    ensures start { 0 < result → run.now.page ≡ page }
    ensures few { result ≤ run.now.n }
    ensures zeros { (i : ℕ) → i < result → (entry_at run.now i).frame ≡ zero }
{
    if run.page == page && !run.rising && run.entry.frame == zero {
        run.n
    } else {
        0
    }
}

/// The first `n` pages of a run that begins with a page: none where it doesn't.
pub(crate) fn start_of(run: &PageRun, page: u64, n: u32) -> Option<PageRun>
    ensures { IsStartOf run.now page n result }
{
    if run.page != page || n == 0 {
        return None;
    }
    Some(PageRun {
        page,
        n,
        entry: run.entry,
        rising: run.rising,
    })
}
