// Outward copy: the table for outsiders, with every payload zero.
ghost use Rattle.std.specs.Prelude.{◌≡◌, ◌+◌, ◌*◌, ◌≤◌, length};
ghost use Rattle.slots.specs.Slots.{slot_at};
ghost use Rattle.board.specs.Layout.{layout_of};
ghost use Rattle.table.specs.Calls.{outcome};
ghost use Rattle.survey.specs.Copy.{without_payload, veiled, copied_in, copied_slice};

use table::Refusal;
use trailer::Table;

// The bytes of slot `k` with the payload zero, by value.
fn veiled_slot(t: &[u8], k: usize) -> [u8; 16]
    requires { 16 * k + 16 ≤ length t.now }
    ensures { result ≡ without_payload (slot_at t.now k) }
{
    let mut v = slots::read_slot(t, k);
    v[8..].fill(0);
    v
}

// Copies the table with every payload zero; the trailer behind the slots is as long as a slot.
fn veil(t: &Table, out: &mut [u8])
    requires { length out.old ≡ length t.now.bytes.now }
    ensures { out.new ≡ veiled (layout_of t.now.head.board).size t.now.bytes.now }
{
    let n = board::layout::slots_of(t.head.board);
    for k in 0..n {
        slots::write_slot(out, k, veiled_slot(t.bytes, k));
    }
    slots::write_slot(out, n, slots::read_slot(t.bytes, n));
}

// The copy of a table that passes.
#[tactic(auto, unfolding(crate::specs::Copy::copied_in))]
fn copy_passing(t: &Table, out: &mut [u8]) -> Result<(), Refusal>
    ensures { outcome result out.new ≡ copied_in out.old t.now.head t.now.bytes.now }
{
    if out.len() != t.bytes.len() {
        return Err(Refusal::Buffer);
    }
    veil(t, out);
    Ok(())
}

// Puts the table into the second buffer, every payload zero.
// Refusals: 1 trailer not good; 10 the full check fails; 9 the second buffer hasn't exactly the table's length.
pub fn copy_outward(s: &[u8], out: &mut [u8]) -> Result<(), Refusal>
    ensures { outcome result out.new ≡ copied_slice s.now out.old }
{
    copy_passing(&crate::checking::passing(s)?, out)
}
