//! Bytes of a process that are looked at, whatever the permissions.

ghost use Rattle.std.specs.Prelude.{◌≡◌, ◌+◌, ◌<◌, ◌≤◌, None, OnOk, length, true};
ghost use Rattle.sizes.specs.declared.TheConstants.{ADDRESS_END};
ghost use Rattle.ovl_io.specs.Memory.{bytes_at, first_denied};
ghost use Rattle.overlay_pages.specs.State.{memory_of};
ghost use Rattle.overlay_memory.specs.View.{state_of};
ghost use Rattle.space_maps.specs.Spaces.{holds_space};
ghost use Rattle.command_core.specs.Looks.{look_denied};

use overlay_memory::{MemoryError, OverlayMemory};
use report_text::Code;
use sizes::PAGE_BYTES;

/// Fills `into` with the bytes of space `p`, which is there, from an address on; refused at the first whose page isn't there.
pub(crate) fn read_bytes(
    memory: &OverlayMemory,
    p: u16,
    address: u64,
    into: &mut [u8],
) -> Result<(), Code>
    requires there { holds_space (state_of memory.now) p ≡ true }
    ensures looks { result
        ≡ look_denied (first_denied (memory_of (state_of memory.now) p) 0 address (length into.old)) }
    ensures bytes { OnOk result (into.new
        ≡ bytes_at (memory_of (state_of memory.now) p) address (length into.old)) }
    ensures kept { length into.new ≡ length into.old }
{
    match memory.read(p, address, into) {
        Ok(()) => Ok(()),
        Err(MemoryError::Unmapped(at)) => Err(Code::Unmapped(at)),
        Err(MemoryError::Forbidden(at)) => Err(Code::Unmapped(at)),
        Err(MemoryError::Full(_, _)) => unreachable!(),
    }
}

/// Whether `n` bytes of space `p`, which is there, from an address on are there; refused at the first whose page isn't. Costs a read
/// of them.
pub(crate) fn can_read(memory: &OverlayMemory, p: u16, address: u64, n: u32) -> Result<(), Code>
    requires there { holds_space (state_of memory.now) p ≡ true }
    ensures looks { result ≡ look_denied (first_denied (memory_of (state_of memory.now) p) 0 address n) }
    ensures low { OnOk result (0 < n → address + n ≤ ADDRESS_END) }
{
    // asked for what its contract says of every memory: that its pages are below 2^26
    let _ = memory.has_space(p);
    let mut buffer = [0; PAGE_BYTES];
    let mut done = 0u32;
    'looking: while done < n {
        let piece = (n - done).min(PAGE_BYTES as u32);
        match read_bytes(
            memory,
            p,
            address + u64::from(done),
            &mut buffer[..piece as usize],
        ) {
            Ok(()) => done += piece,
            Err(code) => return Err(code),
        }
    }
    Ok(())
}
