//! Words of extension M over values at the edges, with results that another program computed from the manual's text.

use super::*;
use byteorder::{ByteOrder, LittleEndian};
use rv_execute::{Denied, GuestMemory, Outcome, Refused, Regs};
use std::test::Fail;

// A memory of one page, from 0x10000 on, which may be executed and written to but not read. There is no unit for any
// store.
#[derive(Drop)]
struct CodePage {
    bytes: [u8; 4096],
}

impl GuestMemory for CodePage {
    ghost use Rattle.std.specs.Prelude.{◌≡◌};
    ghost use Rattle.std.specs.FinMap.{empty, insert};

    ghost memory = { λ m. insert empty 16 (record { perms = 3; bytes = m.bytes }) };

    ghost ready = { λ m. Unit {0} };

    ghost fetched = { λ old address new. new ≡ old };

    ghost loaded = { λ old address count new. new ≡ old };

    ghost stored = { λ old address bytes answer new. new ≡ old };

    fn fetch(&mut self, address: u64) -> Result<u32, Denied> {
        if address / 4096 == 16 {
            let at = (address % 4096) as usize;
            Ok(LittleEndian::read_u32(&self.bytes[at..at + 4]))
        } else {
            Err(Denied { address })
        }
    }

    fn load(&mut self, address: u64, into: &mut [u8]) -> Result<(), Denied> {
        Err(Denied { address })
    }

    fn store(&mut self, address: u64, bytes: &[u8]) -> Result<(), Refused> {
        if address / 4096 != 16 {
            Err(Refused::At(address))
        } else if bytes.len() as u64 <= 0x1_1000 - address {
            Err(Refused::Full(33, 32))
        } else {
            Err(Refused::At(0x1_1000))
        }
    }
}

// The page with one word at its start.
fn code_page(word: u32) -> CodePage {
    let mut bytes = [0; 4096];
    bytes[..4].copy_from_slice(&word.to_le_bytes());
    CodePage { bytes }
}

// A row a line: the word, the values of its two sources, and the value that its destination gets. 16 of each row of the table.
const ROWS: &str = "02510933 8000000000000000 ffffffffffffffff 8000000000000000
03dd0db3 7 0 0
03d283b3 fffffffffffffff9 0 0
03a90bb3 8000000000000000 0 0
027b0fb3 80000000 ffffffff 7fffffff80000000
024905b3 ffffffff80000000 ffffffffffffffff 80000000
035b8eb3 ffffffffffffffff ffffffffffffffff 1
02e501b3 8000000000000000 8000000000000000 0
03f881b3 123456789abcdef0 7fffffff 3b2a18ff65432110
03580e33 8000000000000001 ffffffff 80000000ffffffff
03628a33 8000000000000001 fffffffffffffffe fffffffffffffffe
03b70d33 fedcba9876543211 7fffffffffffffff 8123456789abcdef
02bf08b3 8000000000000000 80000000 0
02c700b3 7fffffff 7fffffffffffffff 7fffffff80000001
03d109b3 123456789abcdef0 100000000 9abcdef000000000
02cc0cb3 80000000 ffffffffffffffff ffffffff80000000
034c13b3 8000000000000000 ffffffffffffffff 0
03d91db3 7 0 0
036492b3 fffffffffffffff9 0 0
02cf1533 8000000000000000 0 0
02b315b3 80000000 ffffffff 0
033f1233 ffffffff80000000 ffffffffffffffff 0
029d19b3 ffffffffffffffff ffffffffffffffff 0
022095b3 8000000000000000 8000000000000000 4000000000000000
02161cb3 1 ffffffff7fffffff ffffffffffffffff
029c17b3 ffffffff 0 0
022a9833 80000000 8000000000000000 ffffffffc0000000
02a39c33 7 fedcba9876543211 ffffffffffffffff
038194b3 fffffffffffffff9 8000000000000000 3
030f1bb3 123456789abcdef0 ffffffff 12345678
033a10b3 1 7fffffffffffffff 0
025b18b3 2 7fffffffffffffff 0
02372f33 8000000000000000 ffffffffffffffff 8000000000000000
02acabb3 7 0 0
0364adb3 fffffffffffffff9 0 0
023826b3 8000000000000000 0 0
0321a933 80000000 ffffffff 0
03242ab3 ffffffff80000000 ffffffffffffffff ffffffff80000000
0334afb3 ffffffffffffffff ffffffffffffffff ffffffffffffffff
02ad2333 8000000000000000 8000000000000000 c000000000000000
03dc2133 80000000 ffffffff7fffffff 7fffffff
02d9a833 80000000 fffffffffffffffe 7fffffff
02882db3 fffffffffffffff9 7fffffffffffffff fffffffffffffffc
03172933 ffffffffffffffff 7 ffffffffffffffff
0237aab3 fffffffffffffff9 1 ffffffffffffffff
0397afb3 fedcba9876543211 8000000000000001 ff6e5d4c3b2a1908
030423b3 100000000 100000000 1
027da5b3 1 fffffffffffffffe 0
0239b7b3 8000000000000000 ffffffffffffffff 7fffffffffffffff
031238b3 7 0 0
03f3b0b3 fffffffffffffff9 0 0
037eb9b3 8000000000000000 0 0
026cb933 80000000 ffffffff 0
03c7b7b3 ffffffff80000000 ffffffffffffffff ffffffff7fffffff
0322b8b3 ffffffffffffffff ffffffffffffffff fffffffffffffffe
02f83933 8000000000000000 8000000000000000 4000000000000000
029530b3 ffffffff 0 0
03b0b333 123456789abcdef0 7fffffff 91a2b3c
02b7beb3 1 100000000 0
0275bcb3 fffffffffffffffe fedcba9876543211 fedcba987654320f
0244b133 8000000000000000 100000000 80000000
037b38b3 ffffffff fffffffffffffffe fffffffe
0240b0b3 fffffffffffffff9 8000000000000001 7ffffffffffffffd
03dbb833 7fffffff ffffffff 0
03394fb3 8000000000000000 ffffffffffffffff 8000000000000000
02d74db3 7 0 ffffffffffffffff
0310cf33 fffffffffffffff9 0 ffffffffffffffff
0235ccb3 8000000000000000 0 ffffffffffffffff
03bc4cb3 80000000 ffffffff 0
03514d33 ffffffff80000000 ffffffffffffffff 80000000
02ae4c33 ffffffffffffffff ffffffffffffffff 1
0245c5b3 8000000000000000 8000000000000000 1
0322c5b3 8000000000000001 fffffffffffffff9 1249249249249249
03e44db3 ffffffff80000000 fedcba9876543211 0
02adc833 80000000 7 12492492
029247b3 7fffffff 1 7fffffff
0361c433 fedcba9876543211 1 fedcba9876543211
03654733 fffffffffffffff9 fedcba9876543211 0
02c843b3 7fffffffffffffff 7fffffffffffffff 1
0313c2b3 ffffffff ffffffff 1
02ef5fb3 8000000000000000 ffffffffffffffff 0
028a51b3 7 0 ffffffffffffffff
037ed333 fffffffffffffff9 0 ffffffffffffffff
028cd2b3 8000000000000000 0 ffffffffffffffff
02b95733 80000000 ffffffff 0
02fcd933 ffffffff80000000 ffffffffffffffff 0
03a8dcb3 ffffffffffffffff ffffffffffffffff 1
03f552b3 8000000000000000 8000000000000000 1
02985433 ffffffffffffffff 8000000000000001 1
02c3d8b3 2 7fffffff 0
024ad0b3 ffffffff80000000 123456789abcdef0 e
023855b3 80000000 123456789abcdef0 0
03d1d733 ffffffffffffffff fedcba9876543211 1
0286d8b3 ffffffffffffffff fffffffffffffffe 1
03e1d333 fedcba9876543211 100000000 fedcba98
02a1d533 ffffffff7fffffff 8000000000000001 1
03c963b3 8000000000000000 ffffffffffffffff 0
038de633 7 0 7
0296e733 fffffffffffffff9 0 fffffffffffffff9
02a1efb3 8000000000000000 0 8000000000000000
035f66b3 80000000 ffffffff 80000000
02bee3b3 ffffffff80000000 ffffffffffffffff 0
03c160b3 ffffffffffffffff ffffffffffffffff 0
0229e9b3 8000000000000000 8000000000000000 0
035b6633 100000000 ffffffff80000000 0
02e6e833 100000000 ffffffffffffffff 0
0374ea33 ffffffffffffffff 7fffffffffffffff ffffffffffffffff
03d7e533 8000000000000001 80000000 ffffffff80000001
026fecb3 100000000 123456789abcdef0 100000000
02776cb3 ffffffffffffffff 7fffffff ffffffffffffffff
03c3e3b3 7 7fffffffffffffff 7
03dc6633 8000000000000000 fffffffffffffff9 ffffffffffffffff
02db7433 8000000000000000 ffffffffffffffff 8000000000000000
02b876b3 7 0 7
037e7e33 fffffffffffffff9 0 fffffffffffffff9
02b47d33 8000000000000000 0 8000000000000000
03e6ffb3 80000000 ffffffff 80000000
026e73b3 ffffffff80000000 ffffffffffffffff ffffffff80000000
0300f833 ffffffffffffffff ffffffffffffffff 0
03c77233 8000000000000000 8000000000000000 0
02487ab3 fffffffffffffff9 8000000000000000 7ffffffffffffff9
03037fb3 80000000 2 0
0304f0b3 ffffffff80000000 fffffffffffffff9 ffffffff80000000
0263f2b3 ffffffff 123456789abcdef0 ffffffff
0222f4b3 ffffffffffffffff ffffffff7fffffff 80000000
02a27e33 ffffffff80000000 2 0
023177b3 ffffffffffffffff 8000000000000000 7fffffffffffffff
03c57eb3 7fffffff 80000000 7fffffff
03f80ebb 8000000000000000 ffffffffffffffff 0
031c83bb 7 0 0
02c1023b fffffffffffffff9 0 0
02f8063b 8000000000000000 0 0
039d05bb 80000000 ffffffff ffffffff80000000
0286083b ffffffff80000000 ffffffffffffffff ffffffff80000000
03aa00bb ffffffffffffffff ffffffffffffffff 1
02c20d3b 8000000000000000 8000000000000000 0
025d08bb 7fffffffffffffff fedcba9876543211 ffffffff89abcdef
02468e3b 8000000000000001 80000000 ffffffff80000000
03f90a3b 123456789abcdef0 7fffffffffffffff 65432110
037101bb 1 0 0
024f86bb fedcba9876543211 8000000000000001 76543211
02fc0b3b fedcba9876543211 2 ffffffffeca86422
027a82bb 1 7fffffffffffffff ffffffffffffffff
02fd093b 8000000000000001 ffffffff ffffffffffffffff
0350c6bb 8000000000000000 ffffffffffffffff 0
03d247bb 7 0 ffffffffffffffff
039945bb fffffffffffffff9 0 ffffffffffffffff
02fc45bb 8000000000000000 0 ffffffffffffffff
022ccf3b 80000000 ffffffff ffffffff80000000
02384e3b ffffffff80000000 ffffffffffffffff ffffffff80000000
02fac93b ffffffffffffffff ffffffffffffffff 1
03ea453b 8000000000000000 8000000000000000 ffffffffffffffff
03cc423b 1 7fffffffffffffff ffffffffffffffff
036dc9bb 0 7 0
03fcc2bb 7 ffffffffffffffff fffffffffffffff9
02bb41bb ffffffff7fffffff 8000000000000000 ffffffffffffffff
03c14b3b 8000000000000001 8000000000000001 1
03edc2bb 8000000000000001 100000000 ffffffffffffffff
0369cfbb fedcba9876543211 0 ffffffffffffffff
02ae43bb 7fffffff 2 3fffffff
03645dbb 8000000000000000 ffffffffffffffff 0
02b855bb 7 0 ffffffffffffffff
027f5d3b fffffffffffffff9 0 ffffffffffffffff
03b25a3b 8000000000000000 0 ffffffffffffffff
031cd3bb 80000000 ffffffff 0
02f3d7bb ffffffff80000000 ffffffffffffffff 0
03b6573b ffffffffffffffff ffffffffffffffff 1
022a573b 8000000000000000 8000000000000000 ffffffffffffffff
024fd3bb 7fffffff 2 3fffffff
0290d43b 7 80000000 0
029ed13b 1 ffffffff7fffffff 0
02cbde3b 123456789abcdef0 7fffffff 1
02d75dbb 7fffffff 7fffffffffffffff 0
03215bbb 8000000000000000 123456789abcdef0 0
03f8d93b 80000000 ffffffffffffffff 0
0350dcbb 8000000000000000 100000000 ffffffffffffffff
02fbe2bb 8000000000000000 ffffffffffffffff 0
0219ef3b 7 0 7
0260eebb fffffffffffffff9 0 fffffffffffffff9
0366e6bb 8000000000000000 0 0
0246ebbb 80000000 ffffffff 0
0253e4bb ffffffff80000000 ffffffffffffffff 0
0340ebbb ffffffffffffffff ffffffffffffffff 0
02ffefbb 8000000000000000 8000000000000000 0
0302e5bb fedcba9876543211 100000000 76543211
02efe43b 100000000 fffffffffffffffe 0
02966bbb ffffffff 100000000 ffffffffffffffff
03dc6bbb 8000000000000000 7fffffffffffffff 0
023867bb ffffffff80000000 ffffffff80000000 0
0282633b 7 ffffffffffffffff 0
02a4683b 0 ffffffffffffffff 0
0314e23b ffffffff80000000 123456789abcdef0 ffffffffe5432110
022bf23b 8000000000000000 ffffffffffffffff 0
039673bb 7 0 7
027475bb fffffffffffffff9 0 fffffffffffffff9
03c378bb 8000000000000000 0 0
0349ff3b 80000000 ffffffff ffffffff80000000
0300fa3b ffffffff80000000 ffffffffffffffff ffffffff80000000
022e7f3b ffffffffffffffff ffffffffffffffff 0
03bcfbbb 8000000000000000 8000000000000000 0
02e7fabb 7fffffffffffffff 100000000 ffffffffffffffff
0315f73b ffffffff80000000 7fffffffffffffff ffffffff80000000
0337f93b 123456789abcdef0 80000000 1abcdef0
022dfebb 0 ffffffff80000000 0
0341f0bb 7fffffffffffffff fffffffffffffffe 1
0395733b 123456789abcdef0 fffffffffffffff9 ffffffff9abcdef0
02dd79bb fffffffffffffff9 7 4
02517abb 1 ffffffff 1";

#[test]
fn words_are_executed(rt: HostRuntime) -> Result<(), Fail> {
    let mut rows: usize = 0;
    for row in ROWS.split('\n') {
        let (word, values) = row.split_once(' ').expect(&rt, "a row has four parts");
        let (a, values) = values.split_once(' ').expect(&rt, "a row has four parts");
        let (b, want) = values.split_once(' ').expect(&rt, "a row has four parts");
        let word = u32::from_str_radix(word, 16).expect(&rt, "a row begins with a word");
        let a = u64::from_str_radix(a, 16).expect(&rt, "a value is a number");
        let b = u64::from_str_radix(b, 16).expect(&rt, "a value is a number");
        let want = u64::from_str_radix(want, 16).expect(&rt, "a value is a number");
        let i = decode_m(word).expect(&rt, "the word is of extension M");
        assert_eq!(rt; encode_m(&i), word, "{row}");
        let mut regs = Regs::new(0x1_0000, 0);
        regs.set(i.rs1, a);
        regs.set(i.rs2, b);
        let mut page = code_page(word);
        assert_eq!(rt; execute_m(&mut regs, &mut page), Outcome::Stepped, "{row}");
        assert_eq!(rt; regs.get(i.rd), want, "{row}");
        assert_eq!(rt; regs.pc(), 0x1_0004, "{row}");
        rows = rows.saturating_add(1);
    }
    assert_eq!(rt; rows, 208);
    Ok(())
}
