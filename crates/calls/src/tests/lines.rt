ghost use Rattle.std.specs.Prelude.{◌≡◌, ◌<◌, [], ◌∷◌};

use overlay_bits::{Bits, compose};
use std::process::Abort;
use std::test::Fail;

// A set of these lines.
fn set_of(rt: &impl Abort, lines: &[u8]) -> Bits {
    let mut bits = Bits::empty();
    for &line in lines {
        assert!(rt; line < 64);
        bits = bits.with(line);
    }
    bits
}

#[test]
fn members_come_in_ascending_order(rt: HostRuntime) -> Result<(), Fail> {
    let bits = set_of(&rt, &[63, 0, 17, 31, 0]);
    let members: Vec<u8> = bits.iter().collect(rt.alloc())?;
    assert_eq!(rt; members.as_slice(), [0, 17, 31, 63].as_slice());
    assert_eq!(rt; bits.len(), 4);
    for (line, rank) in [(0, 0), (1, 1), (17, 1), (18, 2), (63, 3)] {
        assert_eq!(rt; bits.rank(line), rank, "line {line}");
    }
    let bits = bits.without(17).without(17);
    assert_eq!(rt; bits, set_of(&rt, &[0, 31, 63]));
    assert!(rt; bits.has(31) && !bits.has(17) && !bits.has(30));
    let mut left = bits.iter();
    left.next();
    assert_eq!(rt; left.count(), 2);
    Ok(())
}

#[test]
fn ranges_are_joined_and_parted(rt: HostRuntime) -> Result<(), Fail> {
    let low = Bits::range(0, 40);
    let high = Bits::range(30, 64);
    assert_eq!(rt; (low.len(), high.len()), (40, 34));
    assert_eq!(rt; low.union(high), Bits::range(0, 64));
    assert_eq!(rt; low.minus(high), Bits::range(0, 30));
    assert_eq!(rt; Bits::range(64, 64), Bits::empty());
    assert_eq!(rt; Bits::range(5, 5).iter().next(), None);
    assert_eq!(rt; Bits::range(0, 64).iter().count(), 64);
    Ok(())
}

#[test]
fn a_page_is_composed_by_the_set(rt: HostRuntime) -> Result<(), Fail> {
    let mut out = [[7; 64]; 64];
    compose(
        &[[1; 64]; 64],
        &[[2; 64]; 64],
        set_of(&rt, &[0, 62]),
        &mut out,
    );
    for (line, byte) in [(0, 2), (1, 1), (61, 1), (62, 2), (63, 1)] {
        let line: usize = line;
        assert!(rt; line < 64);
        assert_eq!(rt; (out[line][0], out[line][63]), (byte, byte), "line {line}");
    }
    Ok(())
}
