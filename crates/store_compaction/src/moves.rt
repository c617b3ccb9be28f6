ghost use Rattle.std.specs.Prelude.{◌≡◌, ◌+◌, ◌^◌, ◌<◌, ◌≤◌, IfSome, None};
ghost use Rattle.unit_map.specs.Pieces.{ArePieces, AreBlocksApart, AreSettled, count, free_blocks, free_units, units_in};
ghost use Rattle.unit_map.specs.Changes.{HasRoom, IsFull, CanMove, Relocates, KeepsOutside, MovesInside, OnlyMoves};
ghost use Rattle.store_compaction.specs.Runs.{HasPair};
ghost use Rattle.store_compaction.specs.Next.{IsPairMove, IsPairMoveOf, IsRoomMove, RunsShort};

use unit_map::UnitMap;

/// The blocks inside the block of 2^order units at `from` go to the free block of that order, 0 to 3, at `to`.
#[derive(Clone, Copy, Debug, Default, PartialEq, Eq)]
pub struct Move {
    pub from: u32,
    pub to: u32,
    pub order: u8,
}

/// A move on the way to a map in which no two free blocks below a frame are equal in size. None exactly where the
/// map is so.
/// Costs a few steps for each order that it asks, on each of at most five levels: one of bytes and four of marks.
pub fn next_move(map: &UnitMap) -> Option<Move>
    ensures none { result ≡ None → AreSettled map.now }
    ensures some { IfSome result (IsPairMove map.now) }
    ensures pieces { ArePieces map.now }
{
    // the least order first
    'asking: for order in 0..4u8 {
        match move_of(map, order) {
            None => {}
            Some(m) => return Some(m),
        }
    }
    None
}

/// A move on the way to room for a block of an order from 0 to 4. At least 2^order units have to be free. None
/// exactly where there is room.
///
/// Where there is no room, two free blocks below this order are equal in size, so that there is a move. That holds
/// after any moves too, and no more moves can be made than there are free blocks here. So at most that many make
/// the room.
/// Costs a few steps for each order that it asks, on each of at most five levels: one of bytes and four of marks.
pub fn room_for(map: &UnitMap, order: u8) -> Option<Move>
    requires order { order ≤ 4 }
    requires enough { 2 ^ order ≤ free_units map.now }
    ensures none { result ≡ None → HasRoom map.now order }
    ensures some { IfSome result (IsRoomMove map.now order) }
    ensures packing { IsFull map.now order → HasPair map.now order }
    ensures run { RunsShort map.now order }
    ensures pieces { ArePieces map.now }
{
    if map.has_room(order) {
        return None;
    }
    // the greatest order first
    let mut below = order;
    'asking: while below > 0 {
        below -= 1;
        match move_of(map, below) {
            None => {}
            Some(m) => return Some(m),
        }
    }
    None
}

/// Makes a move. The order is below 4, and the block at `to` and the other half of the block at `from` are two different
/// free blocks of it, as holds of what `next_move` and `room_for` answer. Free units stay, free blocks become fewer.
/// Takes no memory.
pub fn apply(map: &mut UnitMap, m: Move)
    requires { CanMove map.old m.from m.to m.order }
    ensures relocates { Relocates map.old m.from m.to m.order map.new }
    ensures inside { MovesInside map.old m.from m.to m.order map.new }
    ensures outside { KeepsOutside map.old m.from m.order map.new }
    ensures only { OnlyMoves map.old m.from m.to m.order map.new }
    ensures pieces { ArePieces map.new }
    ensures free { free_units map.new ≡ free_units map.old }
    ensures fewer { free_blocks map.new < free_blocks map.old }
    ensures units { units_in map.new ≡ units_in map.old }
    ensures within { m.from + 2 ^ m.order ≤ units_in map.old }
    ensures apart { AreBlocksApart m.from m.order m.to m.order }
{
    map.relocate(m.from, m.to, m.order);
}

/// The move of an order from 0 to 3 that empties the other half of the upper of two free blocks into the lower one. None exactly
/// where fewer than two free blocks have the order.
/// Costs a few steps on each of at most five levels: one of bytes and four of marks.
pub fn move_of(map: &UnitMap, order: u8) -> Option<Move>
    requires { order < 4 }
    ensures none { result ≡ None → count order map.now < 2 }
    ensures some { IfSome result (IsPairMoveOf map.now order) }
    ensures pieces { ArePieces map.now }
{
    match map.two_free(order) {
        None => None,
        Some((lower, upper)) => Some(Move {
            from: upper.buddy().unit,
            to: lower.unit,
            order,
        }),
    }
}
