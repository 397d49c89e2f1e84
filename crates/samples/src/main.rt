// The tables of samples/, made by the router's own calls, one after the other on standard output: a fresh 4 by 4 of depth 2, document 01's
// example, a busy 4 by 4, a 4 by 4 of profile 2 with packets under way, and the example with one payload byte in an empty slot.
#![tactic(auto)]

use std::io;

// A board of 4 by 4 and depth 2.
fn cleared(profile: u32) -> [u8; 1296] {
    let mut t = [0; 1296];
    let _ = router::clear(&mut t, 4, 4, 2, profile);
    t
}

fn example() -> [u8; 112] {
    let mut t = [0; 112];
    let _ = router::clear(&mut t, 2, 1, 1, 0);
    let _ = router::take_in(&mut t, 0, 1, *b"paneglov");
    t
}

fn spoiled() -> [u8; 112] {
    let mut t = example();
    t[56] = 1;
    t
}

// From every node to the one across the board; an address off the board is refused.
fn take_in_all(t: &mut [u8], first: u8) {
    for n in 0..52 {
        let _ = router::take_in(t, n, 51 - n, [first, n, 0, 0, 0, 0, 0, 1]);
    }
}

fn follow_find(t: &mut [u8], moves: u8) {
    for _ in 0..moves {
        if let Ok(found) = survey::find(t) {
            let _ = router::make_move(t, found.slot, found.code);
        }
    }
}

fn busy() -> [u8; 1296] {
    let mut t = cleared(0);
    take_in_all(&mut t, 1);
    follow_find(&mut t, 90);
    take_in_all(&mut t, 2);
    follow_find(&mut t, 66);
    take_in_all(&mut t, 3);
    t
}

fn oblivious() -> [u8; 1296] {
    let mut t = cleared(2);
    take_in_all(&mut t, 4);
    follow_find(&mut t, 40);
    t
}

fn main(rt: HostRuntime) -> io::Result<()> {
    rt.write_all(&cleared(0))?;
    rt.write_all(&example())?;
    rt.write_all(&busy())?;
    rt.write_all(&oblivious())?;
    rt.write_all(&spoiled())
}
