//! The way from a page to its slot, by the links of a table, and new nodes.

ghost use Rattle.std.specs.Prelude.{◌≡◌, ◌+◌, ◌-◌, ◌*◌, ◌/◌, ◌%◌, ◌^◌, ◌<◌, ◌≤◌, OnOk};
ghost use Rattle.std.specs.FinMap as map;
ghost use Rattle.sizes.specs.declared.TheConstants.{TABLE_SLOTS};
ghost use Rattle.page_table.specs.Nodes.{node_at, slot, page_slot};
ghost use Rattle.page_table.specs.Kept.{HasChild, HasLeaf, HaveLeaves, IsNextChild, IsTree, IsUpper};

use crate::links::LinkMap;
use crate::nodes::Nodes;
use sizes::TABLE_SLOTS;
use std::alloc::AllocError;

/// Page numbers are below this: they have four digits.
pub(crate) const TABLE_END: u64 = TABLE_SLOTS * TABLE_SLOTS * TABLE_SLOTS * TABLE_SLOTS;

/// The child of a node at a digit.
#[inline]
pub(crate) fn child_in(links: &LinkMap, node: u32, digit: u64) -> Option<u32>
    requires { digit < TABLE_SLOTS }
    ensures { result ≡ map.get links.now.children (slot node digit) }
{
    links.get(TABLE_SLOTS * u64::from(node) + digit)
}

/// The first child of a node from a digit on, with its digit.
#[inline]
pub(crate) fn child_from(links: &LinkMap, node: u32, digit: u64) -> Option<(u64, u32)>
    requires { digit ≤ TABLE_SLOTS }
    ensures { IsNextChild links.now.children node digit result }
{
    let base = TABLE_SLOTS * u64::from(node);
    match links.next_from(base + digit) {
        Some((slot, child)) => {
            if slot < base + TABLE_SLOTS {
                Some((slot - base, child))
            } else {
                None
            }
        }
        None => None,
    }
}

/// The leaf that holds the pages with the same first three digits, by those digits.
pub(crate) fn leaf_in(links: &LinkMap, above: u64) -> Option<u32>
    ensures { result ≡ node_at links.now.children 3 above }
{
    let first = child_in(links, 0, above / TABLE_SLOTS / TABLE_SLOTS % TABLE_SLOTS)?;
    let second = child_in(links, first, above / TABLE_SLOTS % TABLE_SLOTS)?;
    child_in(links, second, above % TABLE_SLOTS)
}

/// The slot of a page.
#[inline]
pub(crate) fn slot_in(links: &LinkMap, page: u64) -> Option<u64>
    ensures { result ≡ page_slot links.now.children page }
{
    if page >= TABLE_END {
        return None;
    }
    match leaf_in(links, page / TABLE_SLOTS) {
        Some(leaf) => Some(TABLE_SLOTS * u64::from(leaf) + page % TABLE_SLOTS),
        None => None,
    }
}

// The child of a node at a digit, which is made where there is none. There is room for its link.
fn make_child(links: &mut LinkMap, nodes: &mut Nodes, node: u32, digit: u64, runs: usize) -> u32
    requires tree { IsTree links.old.children }
    requires node { node < map.len links.old.children + 1 }
    requires digit { digit < TABLE_SLOTS }
    requires upper { IsUpper links.old.children node }
    requires room { 0 < links.old.room }
    ensures made { HasChild links.old.children node digit links.new.children result }
    ensures room { links.old.room ≤ links.new.room + 1 }
{
    let slot = TABLE_SLOTS * u64::from(node) + digit;
    match links.get(slot) {
        Some(child) => child,
        None => {
            let child = links.len() as u32 + 1;
            links.insert(slot, child);
            nodes.add(runs);
            child
        }
    }
}

// Makes the nodes of a path that aren't there yet. There is room for three links.
fn make_leaf(links: &mut LinkMap, nodes: &mut Nodes, above: u64, runs: usize)
    requires tree { IsTree links.old.children }
    requires room { 3 ≤ links.old.room }
    ensures made { HasLeaf links.old.children above links.new.children }
    ensures room { links.old.room ≤ links.new.room + 3 }
{
    let first = make_child(
        links,
        nodes,
        0,
        above / TABLE_SLOTS / TABLE_SLOTS % TABLE_SLOTS,
        runs,
    );
    let second = make_child(links, nodes, first, above / TABLE_SLOTS % TABLE_SLOTS, runs);
    make_child(links, nodes, second, above % TABLE_SLOTS, runs);
}

/// Room for the links to the paths of leaves that lie one after the other: three each.
pub(crate) fn reserve_leaves(links: &mut LinkMap, from: u64, to: u64) -> Result<(), AllocError>
    requires order { from ≤ to }
    requires low { to ≤ 2 ^ 27 }
    ensures children { links.new.children ≡ links.old.children }
    ensures room { OnOk result (3 * (to - from) ≤ links.new.room) }
{
    links.reserve(3 * (to - from) as usize)?;
    Ok(())
}

/// Makes the nodes of the paths to leaves that lie one after the other. There is room for three links each.
pub(crate) fn make_leaves(links: &mut LinkMap, nodes: &mut Nodes, from: u64, to: u64, runs: usize)
    requires tree { IsTree links.old.children }
    requires order { from ≤ to }
    requires room { 3 * (to - from) ≤ links.old.room }
    ensures { HaveLeaves links.old.children from to links.new.children }
{
    'making: for above in from..to {
        make_leaf(links, nodes, above, runs);
    }
    links.settle();
}
