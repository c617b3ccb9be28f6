//! The segments by unit.
ghost use Rattle.std.specs.Prelude.{◌≡◌, ◌+◌, ◌^◌, ◌<◌, ◌≤◌, ◌⊎◌, None, length, slice_index_or, slice_set};
ghost use Rattle.segment_store.specs.Store.{with_copy_at, with_lines_at, with_one_more};
ghost use Rattle.segment_store.specs.Changes.{MovesSegments};

use crate::segment::Segment;
use filled_list::Filled;
use overlay_address::OverlayPage;
use overlay_bits::Bits;

/// By unit, the segment that starts there. Those behind the last unit at which one ever started aren't written.
pub(crate) type Slots = Filled<Option<Segment>>;

/// The segment that starts at a unit.
#[inline]
pub(crate) fn at(slots: &Slots, unit: u32) -> Option<Segment>
    ensures { result ≡ slice_index_or slots.now unit None }
{
    if (unit as usize) < slots.len() {
        slots.at(unit as usize)
    } else {
        None
    }
}

/// Puts a segment at a unit, or none.
#[inline]
pub(crate) fn put(slots: &mut Slots, unit: u32, segment: Option<Segment>)
    requires { unit < length slots.old }
    ensures { slots.new ≡ slice_set slots.old unit segment }
{
    slots.set(unit as usize, segment);
}

/// Adds a line to the set of the segment at a unit.
#[inline]
pub(crate) fn add_line(slots: &mut Slots, unit: u32, line: u8)
    requires line { line < 64 }
    requires there { unit < length slots.old }
    ensures added { slots.new ≡ with_one_more slots.old unit line }
{
    match at(slots, unit) {
        Some(segment) => set_lines(slots, unit, segment.bits.with(line)),
        None => {}
    }
}

/// Gives the segment at a unit this set of lines.
#[inline]
pub(crate) fn set_lines(slots: &mut Slots, unit: u32, bits: Bits)
    requires there { unit < length slots.old }
    ensures set { slots.new ≡ with_lines_at slots.old unit bits }
{
    match at(slots, unit) {
        Some(segment) => put(
            slots,
            unit,
            Some(Segment {
                owner: segment.owner,
                order: segment.order,
                bits,
            }),
        ),
        None => {}
    }
}

/// Puts the segment at a unit, which has to be there, at another one too, for another owner.
#[inline]
pub(crate) fn copy(slots: &mut Slots, from: u32, to: u32, owner: OverlayPage)
    requires { to < length slots.old }
    ensures { slots.new ≡ with_copy_at slots.old from to owner }
{
    match at(slots, from) {
        Some(segment) => put(
            slots,
            to,
            Some(Segment {
                owner,
                order: segment.order,
                bits: segment.bits,
            }),
        ),
        None => put(slots, to, None),
    }
}

/// Lets the segments that start at the `count` units from `from` on go to those from `to` on.
pub(crate) fn carry(slots: &mut Slots, from: u32, to: u32, count: u32)
    requires source { from + count ≤ length slots.old }
    requires target { to + count ≤ length slots.old }
    requires apart { (from + count ≤ to) ⊎ (to + count ≤ from) }
    ensures { MovesSegments from to count slots.old slots.new }
{
    'carrying: for i in 0..count as usize {
        let slot = slots.at(from as usize + i);
        slots.set(to as usize + i, slot);
        slots.set(from as usize + i, None);
    }
}
