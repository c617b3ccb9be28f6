ghost use Rattle.std.specs.Prelude.{◌≡◌, ◌<◌, ◌≤◌, ◌+◌, length, get_or};
ghost use Rattle.overlay_mapping_table.specs.Gaps.{no_gap, seen_slots, AreFilled, IsGapIn, IsShifted, IsWrittenAt};

use filled_list::Filled;

// A stretch of elements, from `at` to `end`, that are written `len` places further on than their numbers say. So nothing
// is written for the `len` elements behind it.
#[derive(Clone, Copy, Debug)]
pub(crate) struct Gap {
    pub at: usize,
    pub end: usize,
    pub len: usize,
}

impl Gap {
    pub fn none() -> Gap
        ensures { result ≡ no_gap }
    {
        Gap {
            at: 0,
            end: 0,
            len: 0,
        }
    }
}

// An element of a list with a gap. Those that nothing is written for have one value.
#[inline(always)]
pub(crate) fn read<T: Copy>(items: &Filled<T>, rest: T, gap: Gap, i: usize) -> T
    requires inside { i < length items.now }
    requires gap { IsGapIn (length items.now) gap }
    ensures { result ≡ get_or (seen_slots items.now rest gap) i result }
{
    let _n = items.len();
    if i < gap.at {
        return items.at(i);
    }
    if i < gap.end {
        return items.at(i + gap.len);
    }
    if i < gap.end + gap.len {
        return rest;
    }
    items.at(i)
}

// Where an element is written that something is written for.
#[inline(always)]
pub(crate) fn spot(gap: Gap, n: usize, i: usize) -> usize
    requires inside { i < n }
    requires gap { IsGapIn n gap }
    requires full { i < gap.end + gap.len → i < gap.end }
    ensures same { IsWrittenAt gap i result }
    ensures below { result < n }
{
    if gap.at <= i && i < gap.end {
        return i + gap.len;
    }
    i
}

// Moves the gap to another place.
pub(crate) fn shift<T: Copy>(items: &mut Filled<T>, at: usize, to: usize, len: usize)
    requires some { 0 < len }
    requires from { at + len ≤ length items.old }
    requires to { to + len ≤ length items.old }
    ensures { IsShifted items.old items.new at to len }
{
    let _n = items.len();
    if to < at {
        items.copy(to, to + len, at - to);
    } else if at < to {
        items.copy(at + len, at, to - at);
    }
}

// Closes the gap: what is seen is what is written then.
#[inline(never)]
pub(crate) fn close<T: Copy>(items: &mut Filled<T>, rest: T, gap: Gap)
    requires { IsGapIn (length items.old) gap }
    ensures { items.new ≡ seen_slots items.old rest gap }
{
    if gap.len > 0 {
        shift(items, gap.at, gap.end, gap.len);
        fill(items, rest, gap.end, gap.len);
    }
}

// Writes one value so many times.
fn fill<T: Copy>(items: &mut Filled<T>, rest: T, from: usize, n: usize)
    requires { from + n ≤ length items.old }
    ensures { AreFilled items.old items.new rest from n }
{
    let _n = items.len();
    'filling: for k in 0..n {
        items.set(from + k, rest);
    }
}
