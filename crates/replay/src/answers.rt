// The commands that make a call: each makes it, and says the answer as a line. A refusal is its number and its place, and zeros.
// The printer stands beside the slice: a struct of the two, as `cases` has, would be made anew for each command of two lent buffers, and be no plainer.
use crate::saying;
use table::Refusal;

pub fn clear(rt: &impl Print, s: &mut [u8], width: u32, height: u32, depth: u32, profile: u32) {
    match router::clear(s, width, height, depth, profile) {
        Ok(()) => saying::line(rt, b"clear", &[0]),
        Err(refusal) => saying::line(rt, b"clear", &[refusal.number()]),
    }
}

pub fn take_in(rt: &impl Print, s: &mut [u8], source: u8, destination: u8, payload: [u8; 8]) {
    match router::take_in(s, source, destination, payload) {
        Ok(t) => saying::line(rt, b"take", &[0, t.slot, t.serial, t.left]),
        Err(refusal) => saying::line(rt, b"take", &[refusal.number(), 0, 0, 0]),
    }
}

fn say_moved(rt: &impl Print, number: u32, slot: u32, packet: &[u8; 16], left: u32) {
    saying::word(rt, b"move");
    saying::values(rt, &[number, slot]);
    saying::bytes(rt, packet);
    saying::values(rt, &[left]);
    saying::end(rt);
}

pub fn make_move(rt: &impl Print, s: &mut [u8], slot: u32, code: u32) {
    match router::make_move(s, slot, code) {
        Ok(m) => say_moved(rt, 0, m.slot, &m.packet, m.left),
        Err(refusal) => say_moved(rt, refusal.number(), 0, &[0; 16], 0),
    }
}

fn say_payload(rt: &impl Print, number: u32, payload: &[u8]) {
    saying::word(rt, b"payload");
    saying::values(rt, &[number]);
    saying::bytes(rt, payload);
    saying::end(rt);
}

pub fn read_payload(rt: &impl Print, s: &[u8], slot: u32) {
    match router::read_payload(s, slot) {
        Ok(payload) => say_payload(rt, 0, payload),
        Err(refusal) => say_payload(rt, refusal.number(), b""),
    }
}

fn say_outcome(rt: &impl Print, label: &[u8], outcome: Result<(), Refusal>) {
    match outcome {
        Ok(()) => saying::line(rt, label, &[0, 0]),
        Err(refusal) => saying::line(rt, label, &[refusal.number(), refusal.place()]),
    }
}

pub fn full_check(rt: &impl Print, s: &[u8]) {
    say_outcome(rt, b"check", survey::full_check(s));
}

pub fn find(rt: &impl Print, s: &[u8]) {
    match survey::find(s) {
        Ok(m) => saying::line(rt, b"find", &[0, m.slot, m.code]),
        Err(refusal) => saying::line(rt, b"find", &[refusal.number(), refusal.place(), 0]),
    }
}

pub fn copy_outward(rt: &impl Print, s: &[u8], out: &mut [u8]) {
    say_outcome(rt, b"copy", survey::copy_outward(s, out));
}

pub fn show(rt: &impl Print, label: &[u8], bytes: &[u8]) {
    saying::word(rt, label);
    saying::bytes(rt, bytes);
    saying::end(rt);
}
