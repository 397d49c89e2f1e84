// Find: the lowest slot, and for it the lowest code, whose move would be accepted.
ghost use Rattle.std.specs.Prelude.{◌≡◌};
ghost use Rattle.survey.specs.Find.{accepts, first_code, found_in, found_slice};

use table::Refusal;
use trailer::Table;

#[derive(Clone, Copy)]
pub struct Move {
    pub slot: u32,
    pub code: u32,
}

// Would that move be accepted?
fn accepts(t: &Table, slot: u32, code: u32) -> bool
    ensures { result ≡ accepts t.now.head t.now.bytes.now slot code }
{
    judging::judge_move(t, slot, code).is_ok()
}

// The lowest code whose move of that slot would be accepted.
fn first_code(t: &Table, slot: u32) -> Option<u32>
    ensures { result ≡ first_code t.now.head t.now.bytes.now slot }
{
    let end = board::last_code(t.head.board) + 1;
    (0..end).find(|&code| accepts(t, slot, code))
}

// The lowest slot of a table that passes, with its lowest code.
pub fn first_move(t: &Table) -> Result<Move, Refusal>
    ensures { result ≡ found_in t.now.head t.now.bytes.now }
{
    let n = board::layout::slots_of(t.head.board) as u32;
    for slot in 0..n {
        if let Some(code) = first_code(t, slot) {
            return Ok(Move { slot, code });
        }
    }
    Err(Refusal::NothingHeld)
}

// The lowest slot, and for it the lowest code, whose move would be accepted.
// Refusals: 1 trailer not good; 10 the full check fails, with the place of the fault; 11 no slot is held.
pub fn find(s: &[u8]) -> Result<Move, Refusal>
    ensures { result ≡ found_slice s.now }
{
    first_move(&crate::checking::passing(s)?)
}
