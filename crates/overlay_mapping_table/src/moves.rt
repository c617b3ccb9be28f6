ghost use Rattle.std.specs.Prelude.{◌≡◌, ◌<◌, ◌≤◌, ◌+◌, length, get_or};
ghost use Rattle.overlay_mapping_table.specs.Rows.{nothing};
ghost use Rattle.overlay_mapping_table.specs.Gaps.{seen_slots, ShowNone, AreDown, AreUp, IsGapIn};

use crate::entry::Entry;
use crate::gaps::{Gap, close, read, shift};
use filled_list::Filled;
use overlay_bits::Bits;
use unit_map::Block;

// What stands beside no name.
pub(crate) fn nothing() -> Entry
    ensures { result ≡ nothing }
{
    Entry {
        bits: Bits::empty(),
        block: Block { unit: 0, order: 0 },
    }
}

// How many places a gap gets at most, and how many rows must move for it to get more than one.
const ROOM: usize = 256;

const MANY: usize = 64;

// How many places behind the rows that move up a gap may take: no name stands there.
pub(crate) fn room_from(names: &Filled<u64>, gap: Gap, from: usize, end: usize) -> usize
    requires gap { IsGapIn (length names.now) gap }
    requires order { from < end }
    requires end { end < length names.now }
    ensures some { 0 < result }
    ensures inside { end + result ≤ length names.now }
    ensures bare { ShowNone (seen_slots names.now 0 gap) end result }
{
    let is_there = gap.len > 0 && gap.end == end;
    if is_there || end - from < MANY {
        return 1;
    }
    let most = ROOM.min(names.len() - end);
    let mut room = 1;
    'looking: while room < most {
        if read(names, 0, gap, end + room) != 0 {
            return room;
        }
        room += 1;
    }
    room
}

// Moves the names and entries up to another place up by one. Where the gap isn't there, it is closed, and opened there
// with so many places from that one on. Answers where it is then.
pub(crate) fn move_up(
    names: &mut Filled<u64>,
    entries: &mut Filled<Entry>,
    gap: Gap,
    from: usize,
    end: usize,
    room: usize,
) -> Gap
    requires gap { IsGapIn (length names.old) gap }
    requires beside { length entries.old ≡ length names.old }
    requires order { from < end }
    requires some { 0 < room }
    requires room { end + room ≤ length names.old }
    ensures gap { IsGapIn (length names.old) result }
    ensures names { AreUp (seen_slots names.old 0 gap) (seen_slots names.new 0 result) 0 from end room }
    ensures bare { get_or (seen_slots names.new 0 result) from 0 ≡ 0 }
    ensures entries { AreUp (seen_slots entries.old nothing gap) (seen_slots entries.new nothing result) nothing from end room }
{
    let _n = names.len();
    if gap.len > 0 && gap.end == end {
        shift(names, gap.at, from, gap.len);
        shift(entries, gap.at, from, gap.len);
        names.set(from, 0);
        return Gap {
            at: from + 1,
            end: end + 1,
            len: gap.len - 1,
        };
    }
    close(names, 0, gap);
    close(entries, nothing(), gap);
    names.copy(from, from + room, end - from);
    entries.copy(from, from + room, end - from);
    names.set(from, 0);
    Gap {
        at: from + 1,
        end: end + 1,
        len: room - 1,
    }
}

// Moves the names and entries behind a place, up to the last one, down by one. Where the gap isn't there, it is closed,
// and opened there: then nothing else moves. Answers where it is then.
pub(crate) fn move_down(
    names: &mut Filled<u64>,
    entries: &mut Filled<Entry>,
    gap: Gap,
    to: usize,
    last: usize,
) -> Gap
    requires gap { IsGapIn (length names.old) gap }
    requires beside { length entries.old ≡ length names.old }
    requires order { to < last }
    requires last { last < length names.old }
    ensures gap { IsGapIn (length names.old) result }
    ensures names { AreDown (seen_slots names.old 0 gap) (seen_slots names.new 0 result) 0 to last }
    ensures entries { AreDown (seen_slots entries.old nothing gap) (seen_slots entries.new nothing result) nothing to last }
{
    let _n = names.len();
    if gap.len > 0 && gap.end == last + 1 {
        shift(names, gap.at, to, gap.len);
        shift(entries, gap.at, to, gap.len);
        return Gap {
            at: to,
            end: last,
            len: gap.len + 1,
        };
    }
    close(names, 0, gap);
    close(entries, nothing(), gap);
    Gap {
        at: to,
        end: last,
        len: 1,
    }
}

// Closes the gap where nothing is written for an element.
#[inline(always)]
pub(crate) fn settle(
    names: &mut Filled<u64>,
    entries: &mut Filled<Entry>,
    gap: Gap,
    i: usize,
) -> Gap
    requires gap { IsGapIn (length names.old) gap }
    requires beside { length entries.old ≡ length names.old }
    ensures gap { IsGapIn (length names.old) result }
    ensures names { seen_slots names.new 0 result ≡ seen_slots names.old 0 gap }
    ensures entries { seen_slots entries.new nothing result ≡ seen_slots entries.old nothing gap }
    ensures full { i < result.end + result.len → i < result.end }
{
    let _n = names.len();
    if i < gap.end || gap.end + gap.len <= i {
        return gap;
    }
    close(names, 0, gap);
    close(entries, nothing(), gap);
    Gap::none()
}
