// The boundary for C and Rust: document 01's seven calls and the listing, with structs that C can hold; `paneglove_c` exports them, and
// `include/paneglove.h` declares the exports. None of them requires anything: every slice and every number is answered. A refusal changes no byte of any
// lent slice, and beside its number answers zeros, but for the place that 10 names.
#![tactic(auto)]

ghost use Rattle.std.specs.Prelude.{◌≡◌};
ghost use Rattle.table.specs.Calls.{outcome};
ghost use Rattle.router.specs.Clear.{asked, cleared_slice};
ghost use Rattle.router.specs.TakeIn.{take_answer};
ghost use Rattle.router.specs.Move.{move_answer};
ghost use Rattle.router.specs.ReadPayload.{read_slice};
ghost use Rattle.survey.specs.Check.{check_answer, checked_slice};
ghost use Rattle.survey.specs.Copy.{copy_answer};
ghost use Rattle.survey.specs.Find.{find_answer, found_slice};
ghost use Rattle.listing.specs.Output.{list_answer};
ghost use Rattle.paneglove.specs.Across.{
  take_across,
  taken_across,
  move_across,
  moved_across,
  read_across,
  check_across,
  find_across,
  copy_across,
  copied_across,
  list_across,
  listed_across,
};

use router::{moving, taking};
use survey::finding::Move;
use table::Refusal;

// A payload handed in: eight bytes by value.
#[repr(C)]
#[derive(Clone, Copy)]
pub struct Payload {
    pub bytes: [u8; 8],
}

#[repr(C)]
#[derive(Clone, Copy)]
pub struct Taken {
    pub number: u32,
    pub slot: u32,
    pub serial: u32,
    pub left: u32,
}

impl From<Result<taking::Taken, Refusal>> for Taken {
    ghost from_gives = { λ r a. a ≡ take_across (take_answer r) };

    fn from(r: Result<taking::Taken, Refusal>) -> Taken {
        match r {
            Ok(a) => Taken {
                number: 0,
                slot: a.slot,
                serial: a.serial,
                left: a.left,
            },
            Err(e) => Taken {
                number: e.number(),
                slot: 0,
                serial: 0,
                left: 0,
            },
        }
    }
}

#[repr(C)]
#[derive(Clone, Copy)]
pub struct Moved {
    pub number: u32,
    pub slot: u32,
    pub packet: [u8; 16],
    pub left: u32,
}

impl From<Result<moving::Moved, Refusal>> for Moved {
    ghost from_gives = { λ r a. a ≡ move_across (move_answer r) };

    fn from(r: Result<moving::Moved, Refusal>) -> Moved {
        match r {
            Ok(a) => {
                let packet = a.packet;
                Moved {
                    number: 0,
                    slot: a.slot,
                    packet,
                    left: a.left,
                }
            }
            Err(e) => Moved {
                number: e.number(),
                slot: 0,
                packet: [0u8; 16],
                left: 0,
            },
        }
    }
}

#[repr(C)]
#[derive(Clone, Copy)]
pub struct Read {
    pub number: u32,
    pub payload: [u8; 8],
}

#[repr(C)]
#[derive(Clone, Copy)]
pub struct Checked {
    pub number: u32,
    pub place: u32,
}

impl From<Result<(), Refusal>> for Checked {
    ghost from_gives = { λ r a. a ≡ check_across (check_answer r) };

    fn from(r: Result<(), Refusal>) -> Checked {
        match r {
            Ok(()) => Checked {
                number: 0,
                place: 0,
            },
            Err(e) => Checked {
                number: e.number(),
                place: e.place(),
            },
        }
    }
}

#[repr(C)]
#[derive(Clone, Copy)]
pub struct Found {
    pub number: u32,
    pub slot: u32,
    pub code: u32,
}

impl From<Result<Move, Refusal>> for Found {
    ghost from_gives = { λ r a. a ≡ find_across (find_answer r) };

    fn from(r: Result<Move, Refusal>) -> Found {
        match r {
            Ok(m) => Found {
                number: 0,
                slot: m.slot,
                code: m.code,
            },
            Err(e) => Found {
                number: e.number(),
                slot: e.place(),
                code: 0,
            },
        }
    }
}

// A type of its own beside `Checked`: `paneglove_copied` of the C interface.
#[repr(C)]
#[derive(Clone, Copy)]
pub struct Copied {
    pub number: u32,
    pub place: u32,
}

impl From<Result<(), Refusal>> for Copied {
    ghost from_gives = { λ r a. a ≡ copy_across (copy_answer r) };

    fn from(r: Result<(), Refusal>) -> Copied {
        let Checked { number, place } = Checked::from(r);
        Copied { number, place }
    }
}

#[repr(C)]
#[derive(Clone, Copy)]
pub struct Listed {
    pub number: u32,
    pub length: usize,
}

impl From<Result<usize, Refusal>> for Listed {
    ghost from_gives = { λ r a. a ≡ list_across (list_answer r) };

    fn from(r: Result<usize, Refusal>) -> Listed {
        match r {
            Ok(length) => Listed { number: 0, length },
            Err(e) => Listed {
                number: e.number(),
                length: 0,
            },
        }
    }
}

// Refuses by 8 (width, height, depth or profile not accepted), then 9 (the slice is shorter than the table).
pub fn paneglove_clear(s: &mut [u8], width: u32, height: u32, depth: u32, profile: u32) -> u32
    ensures { outcome result s.new ≡ cleared_slice s.old (asked width height depth profile) }
{
    match router::clear(s, width, height, depth, profile) {
        Ok(()) => 0,
        Err(e) => e.number(),
    }
}

// Refuses by 1 (trailer), 2 (source or destination off the grid), 7 (no serial is left), then 6 (the source's waiting slot is held).
#[tactic(auto, unfolding(crate::specs::Across::taken_across))]
pub fn paneglove_take_in(s: &mut [u8], source: u8, destination: u8, payload: Payload) -> Taken
    ensures { outcome result s.new ≡ taken_across s.old source destination payload.bytes }
{
    Taken::from(router::take_in(s, source, destination, payload.bytes))
}

// Refuses by 1 (trailer), 2 (no such slot, or no such code), 3 (the slot is empty), 4 (it is spoiled), 5 (the rule doesn't offer the move), 12
// (a good packet in the node's B queue goes first on the link), then 6 (the target queue has no empty slot).
#[tactic(auto, unfolding(crate::specs::Across::moved_across))]
pub fn paneglove_make_move(s: &mut [u8], slot: u32, code: u32) -> Moved
    ensures { outcome result s.new ≡ moved_across s.old slot code }
{
    Moved::from(router::make_move(s, slot, code))
}

// Refuses by 1 (trailer), 2 (no such slot), 3 (it is empty), then 4 (it is spoiled). A part of the slice can't cross, so the payload crosses by
// value.
pub fn paneglove_read_payload(s: &[u8], slot: u32) -> Read
    ensures { result ≡ read_across (read_slice s.now slot).answer }
{
    let mut payload = [0u8; 8];
    match router::read_payload(s, slot) {
        Ok(part) => {
            payload.copy_from_slice(part);
            Read { number: 0, payload }
        }
        Err(e) => Read {
            number: e.number(),
            payload,
        },
    }
}

// Refuses by 1 (trailer), then 10 (the check failed; the place is answered).
pub fn paneglove_full_check(s: &[u8]) -> Checked
    ensures { result ≡ check_across (check_answer (checked_slice s.now)) }
{
    Checked::from(survey::full_check(s))
}

// Refuses by 1 (trailer), 10 (the check failed; the place is answered as the slot), then 11 (no slot is held).
pub fn paneglove_find(s: &[u8]) -> Found
    ensures { result ≡ find_across (find_answer (found_slice s.now)) }
{
    Found::from(survey::find(s))
}

// Refuses by 1 (trailer), 10 (the check failed; the place is answered), then 9 unless the second buffer has exactly the table's length. The two
// buffers must not overlap: the types say so, and only a caller in another language can break it.
#[tactic(auto, unfolding(crate::specs::Across::copied_across))]
pub fn paneglove_copy_outward(s: &[u8], out: &mut [u8]) -> Copied
    ensures { outcome result out.new ≡ copied_across s.now out.old }
{
    Copied::from(survey::copy_outward(s, out))
}

// Refuses by 9 where the second buffer is shorter than the room, 226,637 bytes. Else the listing stands at its start, a refused table's in the
// listing's own words, and its length is answered. The two buffers must not overlap.
#[tactic(auto, unfolding(crate::specs::Across::listed_across))]
pub fn paneglove_list(s: &[u8], out: &mut [u8]) -> Listed
    ensures { outcome result out.new ≡ listed_across s.now out.old }
{
    Listed::from(listing::list_table(s, out))
}
