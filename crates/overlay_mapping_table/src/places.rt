ghost use Rattle.std.specs.Prelude.{◌≡◌, ◌+◌, ◌%◌, ◌≤◌, ◌<◌};
ghost use Rattle.std.specs.Int.{IsPowerOfTwo};
ghost use Rattle.overlay_mapping_table.specs.Homes.{home_number, IsWay};

use overlay_address::OverlayPage;

// The slot of a place that may be counted on beyond the last one.
#[inline(always)]
pub(crate) fn wrap(place: usize, n: usize) -> usize
    requires { IsPowerOfTwo n }
    ensures same { result ≡ place % n }
    ensures below { result < n }
{
    place & (n - 1)
}

// The slot where a name belongs.
#[inline(always)]
pub(crate) fn home(p: OverlayPage, n: usize) -> usize
    requires { IsPowerOfTwo n }
    ensures same { result ≡ home_number p % n }
    ensures below { result < n }
{
    wrap((p.page() + 31 * u64::from(p.space())) as usize, n)
}

// How many steps a place lies behind a name's home.
#[inline(always)]
pub(crate) fn way(p: OverlayPage, place: usize, n: usize) -> usize
    requires power { IsPowerOfTwo n }
    requires behind { n ≤ place }
    ensures { IsWay n (home_number p) result place }
{
    wrap(place - home(p, n), n)
}

// A place between two, so many steps from one of them.
#[inline(always)]
pub(crate) fn middle(low: usize, high: usize, steps: usize, upwards: bool) -> usize
    requires { low + steps < high }
    ensures low { low ≤ result }
    ensures high { result < high }
{
    if upwards {
        low + steps
    } else {
        high - 1 - steps
    }
}
