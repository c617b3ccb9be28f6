//! The line of pointers of a segment below order 4.
ghost use Rattle.std.specs.Prelude.{◌≡◌, ◌+◌, ◌*◌, ◌/◌, ◌%◌, ◌^◌, ◌<◌, ◌≤◌, ◌-◌, ℕ, [], length};
ghost use Rattle.segment_store.specs.Pointers.{ArePointers, capacity_of, slot_of, free_word, free_bit, bytes_number, HasTaken, HasWritten, IsLowestFree};

// What bytes 2 and 3 of a word count.
const BYTE_2: u32 = 1 << 16;

const BYTE_3: u32 = 1 << 24;

/// The slot of a line; 0 where the line is absent.
pub(crate) fn slot(pointers: &[u8; 64], line: u8) -> u8
    requires { line < 64 }
    ensures { result ≡ slot_of pointers.now line }
{
    let low = 5 * line as usize;
    let pair = u16::from(pointers[low / 8]) + 256 * u16::from(pointers[low / 8 + 1]);
    ((pair >> (low % 8)) % 32) as u8
}

/// The free slots, a bit each.
pub(crate) fn free(pointers: &[u8; 64]) -> u32
    ensures { result ≡ free_word pointers.now }
{
    u32::from_le_bytes([pointers[40], pointers[41], pointers[42], pointers[43]])
}

/// Writes the slot of a line.
pub(crate) fn set_slot(pointers: &mut [u8; 64], line: u8, slot: u8)
    requires line { line < 64 }
    requires slot { slot < 32 }
    ensures written { HasWritten (5 * line) 5 slot (bytes_number pointers.old) (bytes_number pointers.new) }
    ensures bytes { length pointers.new ≡ length pointers.old }
{
    let bit = 5 * line as usize;
    let at = bit / 8;
    let pair = u16::from(pointers[at]) + 256 * u16::from(pointers[at + 1]);
    let changed = put_field(pair, (bit % 8) as u16, slot);
    pointers[at] = (changed % 256) as u8;
    pointers[at + 1] = (changed / 256) as u8;
}

// Five bits of a pair of bytes.
fn put_field(pair: u16, shift: u16, value: u8) -> u16
    requires shift { shift < 8 }
    requires value { value < 32 }
    ensures { result + pair / 2 ^ shift % 32 * 2 ^ shift ≡ pair + value * 2 ^ shift }
{
    let old = (pair >> shift) % 32;
    pair - (old << shift) + (u16::from(value) << shift)
}

/// Marks a free slot as taken.
pub(crate) fn take(pointers: &mut [u8; 64], slot: u8)
    requires slot { slot < 32 }
    requires free { free_bit pointers.old slot ≡ 1 }
    ensures written { HasWritten (320 + slot) 1 0 (bytes_number pointers.old) (bytes_number pointers.new) }
    ensures bytes { length pointers.new ≡ length pointers.old }
{
    let at = 40 + (slot / 8) as usize;
    let byte = u16::from(pointers[at]) - (1u16 << (slot % 8));
    pointers[at] = byte as u8;
}

/// Gives a line the lowest free slot, and answers it.
pub(crate) fn insert(pointers: &mut [u8; 64], line: u8) -> u8
    requires line { line < 64 }
    requires some { 0 < free_word pointers.old }
    ensures lowest { IsLowestFree pointers.old result }
    ensures taken { HasTaken line result pointers.old pointers.new }
{
    let slot = free(pointers).trailing_zeros() as u8;
    set_slot(pointers, line, slot);
    take(pointers, slot);
    slot
}

/// The line of pointers of an empty segment of an order below 4.
pub(crate) fn empty(order: u8) -> [u8; 64]
    requires { order < 4 }
    ensures { ArePointers (capacity_of order) [] result }
{
    let word = all_free(order);
    let mut pointers = [0; 64];
    pointers[40] = (word % 256) as u8;
    pointers[41] = (word / 256 % 256) as u8;
    pointers[42] = (word / BYTE_2 % 256) as u8;
    pointers[43] = (word / BYTE_3) as u8;
    pointers
}

// A bit for each slot of a segment of an order.
fn all_free(order: u8) -> u32
    requires { order < 4 }
    ensures { result ≡ 2 ^ (capacity_of order + 1) - 2 }
{
    (u32::MAX >> (32 - (4u32 << order))) - 1
}
