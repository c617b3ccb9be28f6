//! Room for lines in one piece of raw memory. The first lines are made, and nothing has touched the room behind them.
//!
//! Only functions of this module use a raw pointer, and each of those is proved by hand.
ghost use Rattle.std.specs.Prelude.{◌≡◌, ◌+◌, ◌-◌, ◌<◌, ◌≤◌, ℕ, List, [], ◌∷◌, ◌++◌, length, replicate, IfOk};
ghost use Rattle.std.specs.Borrow.{sem};
ghost use denote.RawPtr.{Ptr};
ghost use Rattle.sizes.specs.declared.TheConstants.{MOST_REGION_LINES};
ghost use Rattle.line_store.specs.Lines.{line_of, made_up_to};
ghost use Rattle.line_store.specs.Memory.{lines_own, lines_lent, lease_owns};

use std::alloc::{AllocError, Allocator};
use std::marker::{Model, PhantomData};
use std::slice;

// The largest alignment that `Global` gives.
const ALIGN: usize = 16;

/// Room for lines, of which the first `made` are made. It may never be dropped by a derive, which would lose the
/// memory without a proof that fails: it ends by `free` alone.
pub(crate) struct Lines {
    pub(crate) at: *mut [u8; 64],
    made: usize,
    pub(crate) ghost items: { List (List ℕ) },
    pub(crate) ghost room: { ℕ },
    ghost fits: { (made ≡ length items) × (made ≤ room) × (room ≤ MOST_REGION_LINES) },
}

impl Model for Lines {
    ghost also_owns = { λ l. lines_own l.at l.made l.items l.room };

    ghost also_shares = { λ l _ κ. lines_lent l.at l.made l.items κ };
}

/// The right to give the memory back to `alloc`. It takes no space. It may never be dropped by a derive either: it
/// ends by `Lines::free` alone.
pub(crate) struct Lease<A: Allocator> {
    mark: PhantomData<A>,
    pub(crate) ghost alloc: { A },
    pub(crate) ghost at: { Ptr },
    pub(crate) ghost room: { ℕ },
}

impl<A: Allocator> Model for Lease<A> {
    ghost also_owns = { λ l. lease_owns (A.dealloc_token l.alloc) l.at l.room };
}

impl Lines {
    ghost use Rattle.line_store.specs.Lends.{lends_item, lends_items};

    /// Room for `room` lines, of which none is made.
    pub(crate) fn new<A: Allocator>(alloc: &A, room: usize) -> Result<(Lines, Lease<A>), AllocError>
        requires { room ≤ MOST_REGION_LINES }
        ensures { IfOk result (λ r. (r.0.items ≡ []) × (r.0.room ≡ room)
            × (r.1.alloc ≡ alloc.now) × (r.1.at ≡ r.0.at) × (r.1.room ≡ room)) }
    {
        match alloc.allocate(64 * room, ALIGN) {
            Ok(block) => {
                let at = block as *mut [u8; 64];
                let mark = PhantomData;
                Ok((Lines { at, made: 0 }, Lease { mark }))
            }
            Err(refused) => Err(refused),
        }
    }

    /// Gives the memory back, with what lies in it.
    pub(crate) fn free<A: Allocator>(self, room: usize, lease: Lease<A>, alloc: &A)
        requires { (lease.alloc ≡ alloc.now) × (lease.at ≡ self.at) × (lease.room ≡ room)
            × (self.room ≡ room) }
    {
        let Lines { at, made: _ } = self;
        let Lease { mark: _ } = lease;
        unsafe { alloc.deallocate(at as *mut u8, 64 * room, ALIGN) }
    }

    /// Lends the lines that are made.
    pub(crate) fn as_slice(&self) -> &[[u8; 64]]
        ensures { result.now ≡ self.now.items }
    {
        unsafe { slice::from_raw_parts(self.at, self.made) }
    }

    /// Lends the lines that are made, for writing.
    pub(crate) fn as_mut_slice(&mut self) -> &mut [[u8; 64]]
        ensures* writes_back { sem 𝓛 (lends_items self.entry result) }
        ensures value { result.now ≡ self.old.items }
    {
        unsafe { slice::from_raw_parts_mut(self.at, self.made) }
    }

    /// Lends line `at`, which has to be made, for writing.
    pub(crate) fn line_mut(&mut self, at: usize) -> &mut [u8; 64]
        requires made { at < length self.old.items }
        ensures* writes_back { sem 𝓛 (lends_item self.entry at result) }
        ensures value { result.now ≡ line_of self.old.items at }
    {
        unsafe { &mut *self.at.add(at) }
    }

    /// Makes one more line, for which there has to be room.
    pub(crate) fn push(&mut self, line: [u8; 64])
        requires room { length self.old.items < self.old.room }
        ensures items { self.new.items ≡ self.old.items ++ line ∷ [] }
        ensures piece { (self.new.at ≡ self.old.at) × (self.new.room ≡ self.old.room) }
    {
        unsafe {
            self.at.add(self.made).write(line);
        }
        self.made += 1;
    }

    /// Makes four more lines, for which there has to be room. What is made is written down once.
    pub(crate) fn push_four(&mut self, a: [u8; 64], b: [u8; 64], c: [u8; 64], d: [u8; 64])
        requires room { length self.old.items + 4 ≤ self.old.room }
        ensures items { self.new.items ≡ self.old.items ++ a ∷ b ∷ c ∷ d ∷ [] }
        ensures piece { (self.new.at ≡ self.old.at) × (self.new.room ≡ self.old.room) }
    {
        let at = self.at;
        let first = self.made;
        let second = first + 1;
        let third = second + 1;
        let fourth = third + 1;
        unsafe {
            at.add(first).write(a);
            at.add(second).write(b);
            at.add(third).write(c);
            at.add(fourth).write(d);
        }
        self.made = fourth + 1;
    }

    /// Makes lines until there are `wanted`, for which there has to be room. They are zero.
    pub(crate) fn grow(&mut self, wanted: usize)
        requires room { wanted ≤ self.old.room }
        ensures items { self.new.items ≡ made_up_to wanted self.old.items }
        ensures piece { (self.new.at ≡ self.old.at) × (self.new.room ≡ self.old.room) }
    {
        'making: while self.as_slice().len() < wanted {
            if wanted - self.as_slice().len() < 4 {
                self.push([0; 64]);
            } else {
                self.push_four([0; 64], [0; 64], [0; 64], [0; 64]);
            }
        }
    }
}
