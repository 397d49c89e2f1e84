// A packet carried from slot to slot, and what leaving a slot does.
ghost use Rattle.std.specs.Prelude.{◌≡◌, ◌≢◌, ◌+◌, ◌*◌, ◌≤◌, ◌<◌, length, get_or};
ghost use Rattle.slots.specs.Slots.{slot_at, with_slot};
ghost use Rattle.table.specs.Carriage.{hop, vacated, carried};

use board::Board;

// Adds `more` to the hops of the packet in slot `k`. A slot's number is asked with its table, a slice where it is written, as in `slots::slot` and `hand_out`.
fn add_hops(t: &mut [u8], k: usize, more: u8)
    requires k_in_bounds { 16 * k + 16 ≤ length t.old }
    requires more_bound { get_or (slot_at t.old k) 3 0 + more < 256 }
    ensures { t.new ≡ with_slot t.old k (hop (slot_at t.old k) more) }
{
    let at = 16 * k + 3;
    t[at] += more;
}

// Slot `k` after its packet has gone: 16 zeros.
#[tactic(auto, unfolding(crate::specs::Carriage::vacated))]
pub fn leave(t: &mut [u8], b: Board, k: usize)
    requires { 16 * k + 16 ≤ length t.old }
    ensures { t.new ≡ vacated b t.old k }
{
    slots::clear_slot(t, k);
}

// Takes the packet of slot `from` to another slot, `to`, with `more` hops: straight from slot to slot, since the new controller has little stack
// (document 02, order 4).
pub fn carry(t: &mut [u8], b: Board, from: usize, to: usize, more: u8)
    requires from_in_bounds { 16 * from + 16 ≤ length t.old }
    requires to_in_bounds { 16 * to + 16 ≤ length t.old }
    requires apart { from ≢ to }
    requires more_bound { get_or (slot_at t.old from) 3 0 + more < 256 }
    ensures { t.new ≡ carried b t.old from to more }
{
    slots::copy_slot(t, from, to);
    add_hops(t, to, more);
    leave(t, b, from);
}
