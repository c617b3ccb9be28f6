//! Numbers behind some room, that make room for one more, or close the gap that one leaves: those before it move, or those behind it.

ghost use Rattle.std.specs.Prelude.{◌≡◌, ◌+◌, ◌-◌, ◌<◌, ◌≤◌, length, drop};
ghost use Rattle.std.specs.List.{insert, remove};
ghost use Rattle.std.specs.Vec.{vec_capacity};

/// Puts a number at a place: those before it move down into the room.
fn put_before(numbers: &mut [u16], from: usize, at: usize, p: u16)
    requires some { 0 < from }
    requires within { from + at ≤ length numbers.old }
    ensures put { drop (from - 1) numbers.new ≡ insert (drop from numbers.old) at p }
    ensures count { length numbers.new ≡ length numbers.old }
{
    numbers.copy_within(from..from + at, from - 1);
    numbers[from - 1 + at] = p;
}

/// Gives up the room before the numbers: all of them move down.
fn close_room(numbers: &mut Vec<u16>, from: usize)
    requires within { from ≤ length numbers.old.items }
    ensures closed { numbers.new.items ≡ drop from numbers.old.items }
    ensures room { vec_capacity numbers.new ≡ vec_capacity numbers.old }
{
    let count = numbers.len() - from;
    numbers.copy_within(from..from + count, 0);
    numbers.truncate(count);
}

/// Has room behind the last number, and answers where the first one stands then.
fn open_end(numbers: &mut Vec<u16>, from: usize) -> usize
    requires within { from ≤ length numbers.old.items }
    requires room { length numbers.old.items < vec_capacity numbers.old + from }
    ensures same { drop result numbers.new.items ≡ drop from numbers.old.items }
    ensures within { result ≤ length numbers.new.items }
    ensures count { length numbers.new.items - result ≡ length numbers.old.items - from }
    ensures opened { length numbers.new.items < vec_capacity numbers.new }
    ensures room { vec_capacity numbers.new ≡ vec_capacity numbers.old }
{
    if numbers.len() < numbers.capacity() {
        return from;
    }
    close_room(numbers, from);
    0
}

/// Puts a number at a place: those behind it move up. Answers where the first one stands then.
fn put_behind(numbers: &mut Vec<u16>, from: usize, at: usize, p: u16) -> usize
    requires within { from + at ≤ length numbers.old.items }
    requires room { length numbers.old.items < vec_capacity numbers.old + from }
    ensures put { drop result numbers.new.items ≡ insert (drop from numbers.old.items) at p }
    ensures within { result ≤ length numbers.new.items }
    ensures room { vec_capacity numbers.old ≤ vec_capacity numbers.new }
{
    let start = open_end(numbers, from);
    match numbers.insert(start + at, p) {
        Ok(()) => start,
        Err(_) => unreachable!(),
    }
}

/// Takes out the number at a place: those before it move up.
fn take_before(numbers: &mut [u16], from: usize, at: usize)
    requires within { from + at < length numbers.old }
    ensures taken { drop (from + 1) numbers.new ≡ remove (drop from numbers.old) at }
    ensures count { length numbers.new ≡ length numbers.old }
{
    numbers.copy_within(from..from + at, from + 1);
}

/// Takes out the number at a place: those behind it move down.
fn take_behind(numbers: &mut Vec<u16>, from: usize, at: usize)
    requires within { from + at < length numbers.old.items }
    ensures taken { drop from numbers.new.items ≡ remove (drop from numbers.old.items) at }
    ensures count { length numbers.new.items + 1 ≡ length numbers.old.items }
    ensures room { vec_capacity numbers.new ≡ vec_capacity numbers.old }
{
    let _ = numbers.remove(from + at);
}

/// Puts a number at a place: those before it move down, or those behind it up. Answers where the first one stands then.
pub(crate) fn put_at(numbers: &mut Vec<u16>, from: usize, at: usize, p: u16) -> usize
    requires within { from + at ≤ length numbers.old.items }
    requires room { length numbers.old.items < vec_capacity numbers.old + from }
    ensures put { drop result numbers.new.items ≡ insert (drop from numbers.old.items) at p }
    ensures within { result ≤ length numbers.new.items }
    ensures room { vec_capacity numbers.old ≤ vec_capacity numbers.new }
{
    if from > 0 && at <= numbers.len() - from - at {
        put_before(numbers.as_mut_slice(), from, at, p);
        from - 1
    } else {
        put_behind(numbers, from, at, p)
    }
}

/// Takes out the number at a place: those before it move up, or those behind it down. Answers where the first one stands then.
pub(crate) fn take_at(numbers: &mut Vec<u16>, from: usize, at: usize) -> usize
    requires within { from + at < length numbers.old.items }
    ensures taken { drop result numbers.new.items ≡ remove (drop from numbers.old.items) at }
    ensures within { result ≤ length numbers.new.items }
    ensures room { vec_capacity numbers.new ≡ vec_capacity numbers.old }
{
    if at < numbers.len() - from - at {
        take_before(numbers.as_mut_slice(), from, at);
        from + 1
    } else {
        take_behind(numbers, from, at);
        from
    }
}
