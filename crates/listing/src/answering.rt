// The two calls: the whole listing, and the one line of the check.
#![tactic(auto, using(text::proofs::PutLaws::writing))]

ghost use Rattle.std.specs.Prelude.{◌≡◌, ◌≤◌, ◌-◌, length, take, IfOk, IfErr};
ghost use Rattle.board.specs.Layout.{layout_of};
ghost use Rattle.table.specs.Held.{held_below};
ghost use Rattle.table.specs.Calls.{outcome};
ghost use Rattle.text.specs.Put.{Takes, added};
ghost use Rattle.lines.specs.Lines.{table_text};
ghost use Rattle.listing.specs.Output.{refusal_words, verdict_line, listing, verdict, listed_into, verdict_into};

use table::Refusal;
use text::Text;
use trailer::Table;

// The longest input that is read.
pub const MOST: usize = 65536;

// Room for the check's line.
pub const LINE_ROOM: usize = 59;

#[tactic(auto, using(text::proofs::PutLaws::writing), unfolding(crate::specs::Output::refusal_line, crate::specs::Output::fault_line, table::specs::Refusals::number_of))]
fn put_refusal(text: &mut Text, refusal: Refusal)
    requires { Takes text.old (refusal_words refusal) }
    ensures { text.new ≡ added text.old (refusal_words refusal) }
{
    text.word_decimal(b"refused ", refusal.number());
    if let Refusal::Fault(place) = refusal {
        text.word_decimal(b" at ", place);
    }
    text.byte(b'\n');
}

// The table of a slice that is not too long, if it passes.
#[tactic(auto, using(crate::proofs::OutputLaws::listing_long, crate::proofs::OutputLaws::refusal_told, crate::proofs::OutputLaws::table_told, crate::proofs::OutputLaws::counts_agree))]
fn passing(s: &[u8]) -> Result<Table<'_>, Refusal>
    ensures refused { IfErr result (λ refusal. listing s.now ≡ refusal_words refusal) }
    ensures listed { IfOk result (λ t. listing s.now ≡ table_text t.head t.bytes.now) }
    ensures counted { IfOk result (λ t. t.head.taken - t.head.delivered ≡ held_below t.bytes.now (layout_of t.head.board).size) }
{
    if MOST < s.len() {
        return Err(Refusal::Buffer);
    }
    survey::checking::passing(s)
}

fn put_listing(text: &mut Text, s: &[u8])
    requires { Takes text.old (listing s.now) }
    ensures { text.new ≡ added text.old (listing s.now) }
{
    match passing(s) {
        Ok(t) => lines::put_table(text, &t),
        Err(refusal) => put_refusal(text, refusal),
    }
}

// It tests the length itself, as `passing` and `copy` do: a function for one comparison would be no plainer.
#[tactic(auto, using(crate::proofs::OutputLaws::verdict_long, crate::proofs::OutputLaws::verdict_read))]
fn check(s: &[u8]) -> Result<(), Refusal>
    ensures { verdict_line result ≡ verdict s.now }
{
    if MOST < s.len() {
        return Err(Refusal::Buffer);
    }
    survey::full_check(s)
}

pub(crate) fn put_verdict(text: &mut Text, s: &[u8])
    requires { Takes text.old (verdict s.now) }
    ensures { text.new ≡ added text.old (verdict s.now) }
{
    match check(s) {
        Ok(()) => text.bytes(b"passes\n"),
        Err(refusal) => put_refusal(text, refusal),
    }
}

// Puts what the listing program prints of `s` at the start of `out`, and answers its length.
// Refusals: 9 `out` is shorter than the room.
// A length and no slice: `length_value` speaks of it, here and in `check_line`.
#[tactic(auto, using(text::proofs::PutLaws::writing, crate::proofs::OutputLaws::not_printed, crate::proofs::OutputLaws::printed), unfolding(crate::specs::Output::listed_into, text::specs::Put::added))]
pub fn list_table(s: &[u8], out: &mut [u8]) -> Result<usize, Refusal>
    ensures out_after { outcome result out.new ≡ listed_into s.now out.old }
    ensures length_in_bounds { IfOk result (λ n. n ≤ length out.new) }
    ensures length_value { IfOk result (λ n. n ≡ length (take n out.new)) }
{
    if out.len() < lines::ROOM {
        return Err(Refusal::Buffer);
    }
    let mut text = Text::new(out);
    put_listing(&mut text, s);
    Ok(text.end())
}

// Puts one line at the start of `out`, `passes`, or what the listing program prints instead of a table, and answers its length.
// Refusals: 9 `out` is shorter than the room.
// One function for both would take room and text, the text as a closure over a `Text`, and be no plainer.
#[tactic(auto, using(text::proofs::PutLaws::writing, crate::proofs::OutputLaws::not_printed, crate::proofs::OutputLaws::printed, crate::proofs::Bounds::verdict_short), unfolding(crate::specs::Output::verdict_into, text::specs::Put::added))]
pub fn check_line(s: &[u8], out: &mut [u8]) -> Result<usize, Refusal>
    ensures out_after { outcome result out.new ≡ verdict_into s.now out.old }
    ensures length_in_bounds { IfOk result (λ n. n ≤ length out.new) }
    ensures length_value { IfOk result (λ n. n ≡ length (take n out.new)) }
{
    if out.len() < LINE_ROOM {
        return Err(Refusal::Buffer);
    }
    let mut text = Text::new(out);
    put_verdict(&mut text, s);
    Ok(text.end())
}
