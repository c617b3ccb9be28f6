//! How many free blocks there are of each order.
ghost use Rattle.std.specs.Prelude.{◌≡◌, ◌+◌, ◌-◌, ◌^◌, ◌<◌, ◌≤◌, ℕ, [], ◌∷◌, get_or, length};
ghost use Rattle.unit_map.specs.Pieces.{free_at};
ghost use Rattle.unit_map.specs.Changes.{split as parts};
ghost use Rattle.unit_map.specs.Counted.{GoAlong};

/// By order, how many free blocks there are.
pub type Counts = [u32; 5];

/// A free block of the order `from` is split as far as an order: the lowest part is taken, and the others are free.
pub fn split(counts: &mut Counts, from: u8, order: u8)
    requires orders { (order ≤ from) × (from ≤ 4) }
    requires some { 0 < get_or counts.old from 0 }
    requires few { (k : ℕ) → k ≤ 4 → get_or counts.old k 0 < 2 ^ 31 }
    ensures { (unit : ℕ) → GoAlong counts.old (free_at unit from ∷ []) counts.new (parts unit order (from - order)) }
{
    counts[from as usize] -= 1;
    'splitting: for below in order..from {
        counts[below as usize] += 1;
    }
}

/// Two free blocks of an order become one of the next.
pub fn join(counts: &mut Counts, order: u8)
    requires low { order < 4 }
    requires two { 2 ≤ get_or counts.old order 0 }
    requires few { get_or counts.old (order + 1) 0 < 2 ^ 31 }
    ensures { (unit upper : ℕ) → GoAlong counts.old (free_at unit order ∷ free_at upper order ∷ []) counts.new (free_at unit (order + 1) ∷ []) }
{
    counts[order as usize] -= 2;
    counts[order as usize + 1] += 1;
}
