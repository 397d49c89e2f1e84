// Document 01's cases that are run and not proved, one call of every refusal, a slot that the next packet takes at once, order 1's room left,
// order 2's profiles, and order 3's right of way.
#![tactic(auto)]

use std::io;

// What a line is made of.
#[derive(Clone, Copy)]
enum Piece<'a> {
    Word(&'a str),
    Number(u32),
    // each byte as a blank and its decimal number
    Bytes(&'a [u8]),
}

use Piece::{Bytes, Number, Word};

fn say_bytes(rt: &impl Print, bytes: &[u8]) -> io::Result<()> {
    for byte in bytes {
        rt.write_all(b" ")?;
        rt.print(*byte)?;
    }
    Ok(())
}

// Each piece is written by itself, and no line by `println!`: of a line that no longer fits where it is written, as much is there as fits.
fn say(rt: &impl Print, pieces: &[Piece]) -> io::Result<()> {
    for piece in pieces {
        match *piece {
            Word(text) => rt.write_all(text.as_bytes())?,
            Number(n) => rt.print(n)?,
            Bytes(bytes) => say_bytes(rt, bytes)?,
        }
    }
    Ok(())
}

fn say_refused(rt: &impl Print, label: &str, number: u32, place: u32) -> io::Result<()> {
    say(
        rt,
        &[
            Word(label),
            Number(number),
            Word(" at "),
            Number(place),
            Word("\n"),
        ],
    )
}

fn say_moved(
    rt: &impl Print,
    number: u32,
    slot: u32,
    packet: &[u8; 16],
    left: u32,
) -> io::Result<()> {
    say(
        rt,
        &[
            Word("move "),
            Number(number),
            Word(" slot "),
            Number(slot),
            Word(" record"),
            Bytes(packet),
            Word(" left "),
            Number(left),
            Word("\n"),
        ],
    )
}

// N bytes that a case lends, and where each answer is written.
#[derive(Drop)]
struct Trial<'a, P, const N: usize> {
    rt: &'a P,
    bytes: [u8; N],
}

impl<'a, P: Print, const N: usize> Trial<'a, P, N> {
    // Zeros, under a case's title.
    fn begin(rt: &'a P, title: &str) -> io::Result<Self> {
        println!(rt; "{title}")?;
        Ok(Trial { rt, bytes: [0; N] })
    }

    fn clear(&mut self, width: u32, height: u32, depth: u32, profile: u32) -> io::Result<()> {
        let number = match router::clear(&mut self.bytes, width, height, depth, profile) {
            Ok(()) => 0,
            Err(refusal) => refusal.number(),
        };
        say(self.rt, &[Word("clear "), Number(number), Word("\n")])
    }

    fn take_in(&mut self, source: u8, destination: u8) -> io::Result<()> {
        let payload = [1, 2, 3, 4, 5, 6, 7, 8];
        let (number, slot, serial, left) = match router::take_in(
            &mut self.bytes,
            source,
            destination,
            payload,
        ) {
            Ok(t) => (0, t.slot, t.serial, t.left),
            Err(refusal) => (refusal.number(), 0, 0, 0),
        };
        say(
            self.rt,
            &[
                Word("take in "),
                Number(number),
                Word(" slot "),
                Number(slot),
                Word(" serial "),
                Number(serial),
                Word(" left "),
                Number(left),
                Word("\n"),
            ],
        )
    }

    fn make_move(&mut self, slot: u32, code: u32) -> io::Result<()> {
        match router::make_move(&mut self.bytes, slot, code) {
            Ok(m) => say_moved(self.rt, 0, m.slot, &m.packet, m.left),
            Err(refusal) => say_moved(self.rt, refusal.number(), 0, &[0; 16], 0),
        }
    }

    // One move after the other, each a slot and a code.
    fn make_moves(&mut self, moves: &[(u32, u32)]) -> io::Result<()> {
        for &(slot, code) in moves {
            self.make_move(slot, code)?;
        }
        Ok(())
    }

    fn read_payload(&self, slot: u32) -> io::Result<()> {
        let (number, payload) = match router::read_payload(&self.bytes, slot) {
            Ok(payload) => (0, payload),
            Err(refusal) => (refusal.number(), &[][..]),
        };
        say(
            self.rt,
            &[Word("payload "), Number(number), Bytes(payload), Word("\n")],
        )
    }

    fn full_check(&self) -> io::Result<()> {
        match survey::full_check(&self.bytes) {
            Ok(()) => say(self.rt, &[Word("check passes\n")]),
            Err(refusal) => say_refused(self.rt, "check ", refusal.number(), refusal.place()),
        }
    }

    fn find(&self) -> io::Result<()> {
        match survey::find(&self.bytes) {
            Ok(m) => say(
                self.rt,
                &[
                    Word("find 0 slot "),
                    Number(m.slot),
                    Word(" code "),
                    Number(m.code),
                    Word("\n"),
                ],
            ),
            Err(refusal) => say_refused(self.rt, "find ", refusal.number(), refusal.place()),
        }
    }

    fn copy_outward(&self, out: &mut [u8]) -> io::Result<()> {
        match survey::copy_outward(&self.bytes, out) {
            Ok(()) => say(self.rt, &[Word("copy done\n")])?,
            Err(refusal) => say_refused(self.rt, "copy ", refusal.number(), refusal.place())?,
        }
        show(self.rt, out)
    }

    fn judge(&self) -> io::Result<()> {
        self.full_check()?;
        self.find()?;
        self.copy_outward(&mut [9; 64])
    }

    fn show(&self) -> io::Result<()> {
        show(self.rt, &self.bytes)
    }
}

fn show(rt: &impl Print, s: &[u8]) -> io::Result<()> {
    say(rt, &[Word("bytes"), Bytes(s), Word("\n")])
}

// Waiting at (0,0) to (0,0): enter leads to B, then 7; no hops.
fn at_home(rt: &impl Print) -> io::Result<()> {
    let mut t: Trial<_, 64> = Trial::begin(rt, "at its destination from the start")?;
    t.clear(1, 1, 1, 0)?;
    t.take_in(0, 0)?;
    t.make_moves(&[(0, 1), (2, 7)])?;
    t.show()
}

// Depth 1, A at (0,0) to (1,0), A slot at (1,0) held: code 2 answers 6.
fn queue_full(rt: &impl Print) -> io::Result<()> {
    let mut t: Trial<_, 112> = Trial::begin(rt, "the target queue is full")?;
    t.clear(2, 1, 1, 0)?;
    t.take_in(0, 1)?;
    t.make_moves(&[(0, 1), (1, 2)])?;
    t.take_in(0, 1)?;
    t.make_moves(&[(0, 1), (1, 2)])
}

// The slot that a packet has just left is taken by the next one.
fn slot_reused(rt: &impl Print) -> io::Result<()> {
    let mut t: Trial<_, 112> = Trial::begin(rt, "a slot just left")?;
    t.clear(2, 1, 1, 0)?;
    t.take_in(0, 1)?;
    t.make_move(0, 1)?;
    t.take_in(0, 1)?;
    t.make_moves(&[(0, 1), (1, 2), (0, 1), (4, 7)])?;
    t.read_payload(1)?;
    t.show()
}

// Depth 3: the room left in A at (0,0), then in A at (1,0) with a spoiled slot in it, and after a delivery from there.
fn room_left(rt: &impl Print) -> io::Result<()> {
    let mut t: Trial<_, 240> = Trial::begin(rt, "room left")?;
    t.clear(2, 1, 3, 0)?;
    t.take_in(0, 1)?;
    t.make_move(0, 1)?;
    t.take_in(0, 1)?;
    t.make_moves(&[(0, 1), (1, 2)])?;
    t.bytes[159] = 1;
    t.make_moves(&[(2, 2), (8, 7)])
}

// Profile 1 on a 2 by 2 board: A at (1,0) to (0,1) has code 4 and not 3, A at (0,1) to (1,0) has code 2 and not 5; B has both falls.
fn no_dynamic_hops(rt: &impl Print) -> io::Result<()> {
    let mut t: Trial<_, 208> = Trial::begin(rt, "profile 1")?;
    t.clear(2, 2, 1, 1)?;
    show(rt, &t.bytes[192..])?;
    t.take_in(1, 16)?;
    t.make_moves(&[(3, 1), (4, 3), (4, 4), (10, 6), (11, 3), (8, 7)])?;
    t.take_in(16, 1)?;
    t.make_moves(&[(6, 1), (7, 5), (7, 2), (10, 6), (11, 5), (5, 7)])
}

// Profile 2 on a 2 by 2 board: A at (0,0) to (1,1) has code 2 and not 4, and there code 7 and not 6; B at (1,1) to (0,0) has code 3 and not 5.
fn one_hop(rt: &impl Print) -> io::Result<()> {
    let mut t: Trial<_, 208> = Trial::begin(rt, "profile 2")?;
    t.clear(2, 2, 1, 2)?;
    show(rt, &t.bytes[192..])?;
    t.take_in(0, 17)?;
    t.make_moves(&[(0, 1), (1, 4)])?;
    t.find()?;
    t.make_moves(&[(1, 2), (4, 4), (10, 6), (10, 7)])?;
    t.take_in(17, 0)?;
    t.make_moves(&[(9, 1), (11, 5), (11, 3), (8, 5), (2, 7)])?;
    show(rt, &t.bytes[192..])
}

// A 2 by 2 board: A at (1,0) to (0,1) and B at (1,0) to (0,0) both have code 3. The one in A gives way, and find names its code 4; once the one in B
// has gone, it may go.
fn right_of_way(rt: &impl Print) -> io::Result<()> {
    let mut t: Trial<_, 208> = Trial::begin(rt, "right of way")?;
    t.clear(2, 2, 1, 0)?;
    t.take_in(1, 16)?;
    t.make_move(3, 1)?;
    t.find()?;
    t.take_in(1, 0)?;
    t.make_moves(&[(3, 1), (4, 3)])?;
    t.find()?;
    t.make_moves(&[(5, 3), (4, 3)])
}

// The same two with B at (0,0) held, so that the one in B has no room, then A at (0,0) too: 12 comes before 6. With the one in B spoiled the answer
// is 6, and 0 once A at (0,0) is empty.
fn way_without_room(rt: &impl Print) -> io::Result<()> {
    let mut t: Trial<_, 208> = Trial::begin(rt, "right of way without room")?;
    t.clear(2, 2, 1, 0)?;
    t.take_in(1, 16)?;
    t.make_move(3, 1)?;
    t.take_in(1, 0)?;
    t.make_move(3, 1)?;
    t.take_in(0, 0)?;
    t.make_moves(&[(0, 1), (5, 3), (4, 3)])?;
    t.take_in(0, 17)?;
    t.make_moves(&[(0, 1), (4, 3)])?;
    t.bytes[80] = 2;
    t.make_moves(&[(4, 3), (1, 4), (4, 3)])
}

// A 3 by 3 board: B at (1,1) to (1,0) has code 5 alone. A at (1,1) to (0,2) has code 3 and doesn't give way; A at (1,1) to (2,0) has code 5 and does,
// but in profile 1 it has no code 5.
fn way_of_one_code(rt: &impl Print) -> io::Result<()> {
    let mut t: Trial<_, 448> = Trial::begin(rt, "right of way by the same code")?;
    t.clear(3, 3, 1, 0)?;
    t.take_in(17, 1)?;
    t.make_move(12, 1)?;
    t.take_in(17, 32)?;
    t.make_moves(&[(12, 1), (13, 3)])?;
    t.take_in(17, 2)?;
    t.make_moves(&[(12, 1), (13, 5)])?;
    t.bytes[435] = 1;
    t.make_move(13, 5)?;
    t.bytes[435] = 0;
    t.make_moves(&[(14, 5), (13, 5)])
}

// A slice too short for a trailer, and a trailer whose profile is 3.
fn bad_trailer(rt: &impl Print) -> io::Result<()> {
    let mut short: Trial<_, 15> = Trial::begin(rt, "refusal 1")?;
    short.take_in(0, 0)?;
    short.make_move(0, 1)?;
    short.read_payload(0)?;
    let mut t = Trial { rt, bytes: [0; 64] };
    t.clear(1, 1, 1, 0)?;
    t.bytes[51] = 3;
    t.take_in(0, 0)?;
    t.make_move(0, 1)?;
    t.read_payload(0)?;
    t.judge()?;
    t.show()
}

// One byte of a good trailer changed: a payload is asked for, in a table of one node and depth 1.
fn with_byte(rt: &impl Print, at: usize, value: u8) -> io::Result<()> {
    let mut t = Trial { rt, bytes: [0; 64] };
    let _ = router::clear(&mut t.bytes, 1, 1, 1, 0);
    if let Some(byte) = t.bytes.get_mut(at) {
        *byte = value;
    }
    t.read_payload(0)
}

// Each field of the trailer out of range, the distance longer than the slice or another, delivered above taken; and no bytes at all.
fn every_field(rt: &impl Print) -> io::Result<()> {
    println!(rt; "refusal 1, field by field")?;
    let changes = [
        (48, 0),
        (48, 17),
        (49, 0),
        (49, 17),
        (50, 0),
        (50, 8),
        (51, 3),
        (56, 1),
        (60, 65),
        (60, 63),
        (63, 1),
    ];
    for (at, value) in changes {
        with_byte(rt, at, value)?;
    }
    Trial { rt, bytes: [0; 0] }.read_payload(0)
}

fn out_of_range(rt: &impl Print) -> io::Result<()> {
    let mut t: Trial<_, 112> = Trial::begin(rt, "refusal 2")?;
    t.clear(2, 1, 1, 0)?;
    t.take_in(2, 0)?;
    t.take_in(0, 16)?;
    t.take_in(0, 1)?;
    t.make_moves(&[(6, 1), (u32::MAX, 1), (0, 0), (0, 8), (0, u32::MAX)])?;
    t.read_payload(6)
}

fn empty_or_spoiled(rt: &impl Print) -> io::Result<()> {
    let mut t: Trial<_, 112> = Trial::begin(rt, "refusals 3 and 4")?;
    t.clear(2, 1, 1, 0)?;
    t.make_move(0, 1)?;
    t.read_payload(0)?;
    t.bytes[15] = 1;
    t.make_move(0, 1)?;
    t.read_payload(0)?;
    t.take_in(0, 1)?;
    t.show()
}

// A spoiled slot in the target queue is not empty.
fn not_offered_or_no_room(rt: &impl Print) -> io::Result<()> {
    let mut t: Trial<_, 112> = Trial::begin(rt, "refusals 5 and 6")?;
    t.clear(2, 1, 1, 0)?;
    t.take_in(0, 1)?;
    t.take_in(0, 1)?;
    t.make_move(0, 2)?;
    t.bytes[31] = 1;
    t.make_move(0, 1)?;
    t.bytes[31] = 0;
    t.make_move(0, 1)
}

fn all_taken(rt: &impl Print) -> io::Result<()> {
    let mut t: Trial<_, 112> = Trial::begin(rt, "refusal 7")?;
    t.clear(2, 1, 1, 0)?;
    t.bytes[100..104].fill(255);
    t.take_in(0, 1)?;
    t.bytes[100] = 254;
    t.take_in(0, 1)?;
    t.show()
}

fn boards_refused(rt: &impl Print) -> io::Result<()> {
    println!(rt; "refusals 8 and 9")?;
    let mut t = Trial {
        rt,
        bytes: [7; 111],
    };
    let boards = [
        (0, 1, 1, 0),
        (17, 1, 1, 0),
        (1, u32::MAX, 1, 0),
        (1, 1, 8, 0),
        (1, 1, 1, 3),
        (1, 1, 1, u32::MAX),
        (2, 1, 1, 3),
        (2, 1, 1, 0),
        (1, 1, 2, 0),
    ];
    for (width, height, depth, profile) in boards {
        t.clear(width, height, depth, profile)?;
    }
    t.show()
}

// An empty table; a lone waiting packet; the copy of it, and buffers one byte short and long.
fn judged(rt: &impl Print) -> io::Result<()> {
    let mut t: Trial<_, 64> = Trial::begin(rt, "a table that passes")?;
    t.clear(1, 1, 1, 0)?;
    t.judge()?;
    t.take_in(0, 0)?;
    t.judge()?;
    t.copy_outward(&mut [9; 63])?;
    t.copy_outward(&mut [9; 65])
}

// A trailer that is not good; an empty slot with one payload byte 1; a wrong count; two slots with one serial.
fn faulty(rt: &impl Print) -> io::Result<()> {
    let mut t: Trial<_, 64> = Trial::begin(rt, "tables that do not pass")?;
    t.judge()?;
    t.clear(1, 1, 1, 0)?;
    t.bytes[15] = 1;
    t.judge()?;
    t.bytes[15] = 0;
    t.bytes[52] = 1;
    t.judge()?;
    t.clear(1, 1, 1, 0)?;
    t.take_in(0, 0)?;
    t.make_move(0, 1)?;
    t.take_in(0, 0)?;
    t.bytes[4] = 0;
    t.judge()
}

fn main(rt: HostRuntime) -> io::Result<()> {
    at_home(&rt)?;
    queue_full(&rt)?;
    slot_reused(&rt)?;
    room_left(&rt)?;
    no_dynamic_hops(&rt)?;
    one_hop(&rt)?;
    right_of_way(&rt)?;
    way_without_room(&rt)?;
    way_of_one_code(&rt)?;
    bad_trailer(&rt)?;
    every_field(&rt)?;
    out_of_range(&rt)?;
    empty_or_spoiled(&rt)?;
    not_offered_or_no_room(&rt)?;
    all_taken(&rt)?;
    boards_refused(&rt)?;
    judged(&rt)?;
    faulty(&rt)
}
