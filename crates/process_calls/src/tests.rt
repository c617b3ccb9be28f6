//! What is read by hand: a request of each number, one number on either side, and a word that is none.

use crate::{ProcessCall, call_at, gone_on, kept};
use rv_execute::Regs;

#[test]
fn requests_are_told_by_word_and_number(rt: HostRuntime) {
    let mut regs = Regs::new(0x10078, 0x3f_ffff_fff0);
    let rows = [
        (1024, None),
        (1025, Some(ProcessCall::Speculate)),
        (1026, Some(ProcessCall::Commit)),
        (1027, Some(ProcessCall::Discard)),
        (1028, None),
        (0x1_0000_0401, None),
    ];
    'rows: for i in 0..rows.len() {
        regs.set(17, rows[i].0);
        assert!(rt; call_at(&regs, 0x73) == rows[i].1);
        // EBREAK is none
        assert!(rt; call_at(&regs, 0x10_0073).is_none());
    }
    assert!(rt; gone_on(&regs, 0).pc() == 0x1007c);
    assert!(rt; gone_on(&regs, 0).get(10) == 0);
    assert!(rt; kept(&regs).get(10) == 1);
}
