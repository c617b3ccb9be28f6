use round_robin::RoundRobin;
use std::test::Fail;

#[test]
fn numbers_take_turns(rt: HostRuntime) -> Result<(), Fail> {
    // who is running before a turn, and whose turn it is: a quantum of 2
    let rows: [(&[u16], Option<u16>); 15] = [
        (&[2, 5, 9], Some(2)),
        (&[2, 5, 9], Some(2)),
        (&[2, 5, 9], Some(5)),
        (&[2, 5, 9], Some(5)),
        (&[2, 5, 9], Some(9)),
        // 9 has ended
        (&[2, 5], Some(2)),
        // 3 is new, and 2 has a turn left
        (&[2, 3, 5], Some(2)),
        (&[2, 3, 5], Some(3)),
        // 3 has ended, and the next has a fresh quantum
        (&[2, 5], Some(5)),
        (&[2, 5], Some(5)),
        (&[2, 5], Some(2)),
        // one alone is chosen again
        (&[5], Some(5)),
        (&[5], Some(5)),
        (&[5], Some(5)),
        (&[], None),
    ];
    let mut turns = RoundRobin::new(2);
    for (running, want) in rows {
        let next = turns.next(running);
        assert!(rt; next == want);
        if let Some(p) = next {
            turns.took(p);
        }
    }
    Ok(())
}
