ghost use Rattle.std.specs.Prelude.{◌≡◌, ℕ, ◌+◌, ◌≤◌, IsTrue, OnOk};
ghost use Rattle.sizes.specs.declared.TheConstants.{PAGE_END};
ghost use Rattle.space_ledger.specs.Calls.{ArePagesFree};
ghost use Rattle.overlay_memory.specs.View.{NoneAwaits};

use ovl_io::Perms;
use space_ledger::{SpaceLedger, class_of};
use std::process::Abort;
use std::test::Fail;

// Whether none of the n pages from `from` on is there.
fn is_free(ledger: &SpaceLedger, space: u16, from: u64, n: u32) -> bool
    requires { from + n ≤ PAGE_END }
    ensures { IsTrue result → ArePagesFree ledger.now space from n }
{
    match ledger.next_page(space, from) {
        Some(found) => from + u64::from(n) <= found,
        None => true,
    }
}

// Maps 16 pages of space 1, of which no page awaits, on the zero frame.
fn map_zeros(rt: &impl Abort, ledger: &mut SpaceLedger) -> Result<(), Fail>
    requires { (q : ℕ) → NoneAwaits ledger.old q }
    ensures { OnOk result ((q : ℕ) → NoneAwaits ledger.new q) }
{
    assert!(rt; ledger.has_space(1));
    assert!(rt; ledger.pages(1) < 1000 && is_free(ledger, 1, 100, 16));
    ledger.map_zero(1, 100, 16, Perms::W)?;
    Ok(())
}

// They are there, and a copy of the table has as many.
fn assert_zeros(rt: &impl Abort, ledger: &SpaceLedger) -> Result<(), Fail>
    requires { (q : ℕ) → NoneAwaits ledger.now q }
{
    assert!(rt; ledger.has_space(1));
    assert_eq!(rt; ledger.zeros_from(1, 100), 16);
    assert!(rt; matches!(ledger.bare_run(1, 104, 7), Some(run) if run.page == 104 && run.n == 7));
    assert_eq!(rt; ledger.copy_table(1)?.len(), 16);
    Ok(())
}

#[test]
fn what_takes_memory_is_done_where_there_is_memory(rt: HostRuntime) -> Result<(), Fail> {
    let mut ledger = SpaceLedger::new(rt.alloc(), 8, 0)?;
    assert!(rt; !ledger.has_space(1));
    ledger.add_space(1)?;
    map_zeros(&rt, &mut ledger)?;
    assert_zeros(&rt, &ledger)
}

#[test]
fn units_of_a_segment_by_its_lines(rt: HostRuntime) -> Result<(), Fail> {
    for (lines, units) in [(0u32, 0u32), (1, 1), (3, 1), (4, 2), (7, 2), (8, 4)] {
        assert_eq!(rt; class_of(lines), units);
    }
    for (lines, units) in [(15u32, 4u32), (16, 8), (31, 8), (32, 16), (64, 16)] {
        assert_eq!(rt; class_of(lines), units);
    }
    Ok(())
}
