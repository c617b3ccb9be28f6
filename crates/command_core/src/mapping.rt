//! Pages of a process that are mapped, and that are given up.

ghost use Rattle.std.specs.Prelude.{◌≡◌, ◌≤◌, ◌+◌, ◌*◌, IsTrue, Some, true};
ghost use Rattle.delta_image.specs.Fine.{are_perms};
ghost use Rattle.std.specs.FinMap.{empty, get};
ghost use Rattle.sizes.specs.declared.TheConstants.{PAGE_BYTES, PAGE_END};
ghost use Rattle.overlay_memory.specs.View.{state_of};
ghost use Rattle.space_maps.specs.Spaces.{holds_space, space_in};
ghost use Rattle.machine_core.specs.Machine.{has_space, spaces_of};
ghost use Rattle.command_core.specs.Changes.{CanBeTold};
ghost use Rattle.command_core.specs.Mapping.{FindsGap, FindsMapped, RefusesMap, RefusesUnmap};
ghost use Rattle.command_core.specs.ProcessChanges.{ChangesProcess};
ghost use Rattle.command_core.specs.Refusals.{lie_outside};

use crate::process_changes::ProcessChange;
use machine_core::{Machine, Process};
use overlay_memory::OverlayMemory;
use ovl_io::Perms;
use report_text::{Answer, Code};
use sizes::{ADDRESS_END, MOST_SPACE_PAGES, PAGE_BYTES};

/// Whether `n` pages from an address on aren't whole pages of user addresses.
fn lie_outside(address: u64, n: u32) -> bool
    ensures { result ≡ lie_outside address n }
{
    if address > ADDRESS_END {
        return true;
    }
    address % PAGE_BYTES as u64 != 0 || address + PAGE_BYTES as u64 * u64::from(n) > ADDRESS_END
}

/// The address at which a page begins, of one that isn't above the last.
fn address_of(page: u64) -> u64
    requires { page ≤ PAGE_END }
    ensures { result ≡ PAGE_BYTES * page }
{
    PAGE_BYTES as u64 * page
}

/// The lowest of the `n` pages from one on that is there.
fn first_present(memory: &OverlayMemory, p: u16, page: u64, n: u32) -> Option<u64>
    requires low { page + n ≤ PAGE_END }
    ensures { FindsMapped (state_of memory.now) p page n result }
{
    match memory.next_page(p, page) {
        Some(found) => {
            if found < page + u64::from(n) {
                Some(found)
            } else {
                None
            }
        }
        None => None,
    }
}

/// The lowest of the `n` pages from one on that isn't there.
fn first_gap(memory: &OverlayMemory, p: u16, page: u64, n: u32) -> Option<u64>
    requires none_awaits { (space_in (state_of memory.now) p).awaiting ≡ empty }
    requires low { page + n ≤ PAGE_END }
    ensures { FindsGap (state_of memory.now) p page n result }
{
    match memory.first_absent(p, page, n) {
        Some(found) => Some(found),
        None => None,
    }
}

/// Why `n` pages from an address on aren't mapped in space `p`.
fn map_refusal(memory: &OverlayMemory, p: u16, address: u64, n: u32) -> Option<Code>
    ensures { RefusesMap (state_of memory.now) p address n result }
{
    if memory.is_speculating(p) {
        return Some(Code::Speculating);
    }
    if lie_outside(address, n) {
        return Some(Code::Outside);
    }
    if u64::from(memory.pages(p)) + u64::from(n) > u64::from(MOST_SPACE_PAGES) {
        return Some(Code::Outside);
    }
    match first_present(memory, p, address / PAGE_BYTES as u64, n) {
        Some(found) => Some(Code::Mapped(address_of(found))),
        None => None,
    }
}

/// Why `n` pages from an address on aren't given up in space `p`, of which no page awaits.
fn unmap_refusal(memory: &OverlayMemory, p: u16, address: u64, n: u32) -> Option<Code>
    requires none_awaits { (space_in (state_of memory.now) p).awaiting ≡ empty }
    ensures { RefusesUnmap (state_of memory.now) p address n result }
{
    if memory.is_speculating(p) {
        return Some(Code::Speculating);
    }
    if lie_outside(address, n) {
        return Some(Code::Outside);
    }
    match first_gap(memory, p, address / PAGE_BYTES as u64, n) {
        Some(found) => Some(Code::Unmapped(address_of(found))),
        None => None,
    }
}

/// Maps `n` zero pages from an address of process `p` on, with these permissions. After want of memory everything is as before.
pub(crate) fn map_pages(
    machine: &mut Machine,
    p: u16,
    process: Process,
    address: u64,
    n: u32,
    perms: Perms,
) -> Answer
    requires there { get machine.old.processes p ≡ Some process }
    requires space { has_space machine.old p ≡ true }
    requires none_awaits { (space_in (spaces_of machine.old) p).awaiting ≡ empty }
    requires fine { IsTrue (are_perms perms.0) }
    ensures done { ChangesProcess p (ProcessChange.Map address n perms) process
        machine.old result machine.new }
    ensures told { CanBeTold result }
{
    match map_refusal(machine.memory(), p, address, n) {
        Some(code) => return Answer::Refused(code),
        None => {}
    }
    match machine
        .memory_mut()
        .map_zero(p, address / PAGE_BYTES as u64, n, perms)
    {
        Ok(()) => Answer::Done,
        Err(_) => Answer::Memory,
    }
}

/// Gives up the `n` pages from an address of process `p` on.
pub(crate) fn unmap_pages(
    machine: &mut Machine,
    p: u16,
    process: Process,
    address: u64,
    n: u32,
) -> Answer
    requires there { get machine.old.processes p ≡ Some process }
    requires space { has_space machine.old p ≡ true }
    requires none_awaits { (space_in (spaces_of machine.old) p).awaiting ≡ empty }
    ensures done { ChangesProcess p (ProcessChange.Unmap address n) process
        machine.old result machine.new }
    ensures told { CanBeTold result }
{
    match unmap_refusal(machine.memory(), p, address, n) {
        Some(code) => return Answer::Refused(code),
        None => {}
    }
    machine
        .memory_mut()
        .unmap(p, address / PAGE_BYTES as u64, n);
    Answer::Done
}
