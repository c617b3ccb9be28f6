ghost use Rattle.std.specs.Prelude.{◌≡◌, ◌+◌, ◌^◌, ◌<◌, ◌≤◌, IfSome, Some};
ghost use Rattle.sizes.specs.declared.TheConstants.{PAGE_BYTES};
ghost use Rattle.overlay_address.specs.Names.{IsAddressOf, IsName, overlay_page, page_of, space_of, split_address};

use std::marker::Model;

// Bit 63, which the name of an overlay has and no address of a process.
const OVERLAY: u64 = 1 << 63;

// Where the space begins.
const SPACE_SHIFT: u32 = 48;

// Where the page begins.
const PAGE_SHIFT: u32 = 12;

const SPACE_MASK: u64 = (1 << 15) - 1;

const PAGE_MASK: u64 = (1 << 36) - 1;

const OFFSET_MASK: u64 = (1 << PAGE_SHIFT) - 1;

/// The name of the overlay of a page of a space.
#[derive(Clone, Copy, Debug, PartialEq, Eq, PartialOrd, Ord, Hash)]
pub struct OverlayPage {
    name: u64,
}

impl Model for OverlayPage {
    ghost use Rattle.std.specs.Prelude.{ℕ};
    ghost use Rattle.overlay_address.specs.Names.{IsName};

    ghost Value = { ℕ };

    ghost view = { λ p. p.name };

    ghost invariant = { λ p. IsName p.name };

    ghost inverse = { λ name. record { name = name } };
}

impl OverlayPage {
    /// The name of the overlay of a page, below 2^36, of a space, below 2^15. Different pairs have different names.
    pub fn of(space: u16, page: u64) -> OverlayPage
        requires few { space < 2 ^ 15 }
        requires low { page < 2 ^ 36 }
        ensures name { result ≡ overlay_page space page }
        ensures space { space_of result ≡ space }
        ensures page { page_of result ≡ page }
        ensures is { IsName result }
    {
        OverlayPage {
            name: OVERLAY + (u64::from(space) << SPACE_SHIFT) + (page << PAGE_SHIFT),
        }
    }

    /// The space: below 2^15.
    pub fn space(&self) -> u16
        ensures space { result ≡ space_of self.now }
        ensures few { result < 2 ^ 15 }
        ensures is { IsName self.now }
    {
        ((self.name >> SPACE_SHIFT) & SPACE_MASK) as u16
    }

    /// The page: below 2^36.
    pub fn page(&self) -> u64
        ensures page { result ≡ page_of self.now }
        ensures low { result < 2 ^ 36 }
        ensures is { IsName self.now }
    {
        (self.name >> PAGE_SHIFT) & PAGE_MASK
    }

    /// The address of a byte of the overlay, from its offset in the page, below 4096.
    pub fn address(&self, offset: u16) -> u64
        requires { offset < PAGE_BYTES }
        ensures address { result ≡ self.now + offset }
        ensures back { split_address result ≡ Some (self.now, offset) }
        ensures is { IsName self.now }
    {
        self.name + u64::from(offset)
    }

    /// The overlay page and the offset that an address has. None exactly where bit 63 is 0.
    pub fn from_address(address: u64) -> Option<(OverlayPage, u16)>
        ensures split { result ≡ split_address address }
        ensures some { IfSome result (IsAddressOf address) }
    {
        if address & OVERLAY == 0 {
            return None;
        }
        let offset = (address & OFFSET_MASK) as u16;
        let page = OverlayPage {
            name: address & !OFFSET_MASK,
        };
        Some((page, offset))
    }
}
