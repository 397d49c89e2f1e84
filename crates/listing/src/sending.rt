// The call behind the program `outward`: the copy for outsiders, or why there is none.
#![tactic(auto, using(text::proofs::PutLaws::writing))]

ghost use Rattle.std.specs.Prelude.{◌≡◌, ◌≤◌, ◌++◌, List, ℕ, Ok, length, take, drop, IfOk, OnErr};
ghost use Rattle.table.specs.Calls.{outcome};
ghost use Rattle.listing.specs.declared.sending.Sent.TheVariants.{Copy, Words};
ghost use Rattle.listing.specs.Output.{line_room, verdict};
ghost use Rattle.listing.specs.Outward.{copy_room, words_alone, sent_of, laid, send_answer, sent_into};

use crate::answering::{LINE_ROOM, MOST};
use table::Refusal;
use text::Text;

// The longest table.
pub const COPY_ROOM: usize = 61456;

// How much of one of the two buffers is to be sent.
// Lengths and no slices: copy_value and words_value of send_outward speak of them.
#[derive(Clone, Copy)]
pub enum Sent {
    Copy(usize),
    Words(usize),
}

#[tactic(auto, using(text::proofs::PutLaws::writing, crate::proofs::Bounds::verdict_short), unfolding(text::specs::Put::added))]
fn send_words(s: &[u8], line: &mut [u8]) -> Sent
    requires { line_room ≤ length line.old }
    ensures value { result ≡ Words (length (verdict s.now)) }
    ensures line_after { line.new ≡ verdict s.now ++ drop (length (verdict s.now)) line.old }
{
    let mut text = Text::new(line);
    crate::answering::put_verdict(&mut text, s);
    Sent::Words(text.end())
}

// Puts the copy at the start of `out`, and answers its length.
fn copy(s: &[u8], out: &mut [u8]) -> Result<usize, Refusal>
    requires { copy_room ≤ length out.old }
    ensures done { IfOk result (λ n. (line : List ℕ) → outcome (Ok (Copy n)) (out.new, line) ≡ laid (sent_of s.now) out.old line) }
    ensures refused { OnErr result ((sent_of s.now ≡ words_alone (verdict s.now)) × (out.new ≡ out.old)) }
{
    if MOST < s.len() {
        return Err(Refusal::Buffer);
    }
    let size = trailer::trailer(s).ok_or(Refusal::Trailer)?.size;
    survey::copy_outward(s, &mut out[..size])?;
    Ok(size)
}

// Puts the copy for outsiders of the table in `s` at the start of `out`, or leaves `out` and puts the words of its refusal at the start of `line`.
// Refusals: 9 one of the two is shorter than its room.
pub fn send_outward(s: &[u8], out: &mut [u8], line: &mut [u8]) -> Result<Sent, Refusal>
    ensures line_after { outcome result (out.new, line.new) ≡ sent_into s.now out.old line.old }
    ensures copy_in_bounds { (send_answer result).copy ≤ length out.new }
    ensures copy_value { (send_answer result).copy ≡ length (take (send_answer result).copy out.new) }
    ensures words_in_bounds { (send_answer result).words ≤ length line.new }
    ensures words_value { (send_answer result).words ≡ length (take (send_answer result).words line.new) }
{
    if out.len() < COPY_ROOM || line.len() < LINE_ROOM {
        return Err(Refusal::Buffer);
    }
    match copy(s, out) {
        Ok(n) => Ok(Sent::Copy(n)),
        Err(_) => Ok(send_words(s, line)),
    }
}
