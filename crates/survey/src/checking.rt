// The full check: it names its first fault.
ghost use Rattle.std.specs.Prelude.{◌≡◌, ◌+◌, ◌-◌, ◌*◌, ◌≤◌, ◌<◌, length, drop, Some, None, Err, IfOk, IfErr};
ghost use Rattle.board.specs.Layout.{layout_of};
ghost use Rattle.trailer.specs.Trailer.{trailer_of};
ghost use Rattle.table.specs.Held.{held_at, held_below};
ghost use Rattle.survey.specs.Check.{spoiled_at, first_spoiled, has_serial, repeats_at, first_repeat, miscount, fault_in, checked_slice};
ghost use Rattle.survey.specs.Met.{Met};

use table::Refusal;
use trailer::Table;

// That a slot lies in the table is asked call by call, as `slots::slot` asks it: a struct of bytes and number would be made for one use.
fn held(t: &[u8], k: usize) -> bool
    requires { 16 * k + 16 ≤ length t.now }
    ensures { result ≡ held_at t.now k }
{
    !slots::slot_empty(t, k)
}

fn spoiled(t: &Table, k: usize) -> bool
    requires { k < (layout_of t.now.head.board).size }
    ensures { result ≡ spoiled_at t.now.head t.now.bytes.now k }
{
    held(t.bytes, k) && !table::packets::good_at(t, k)
}

// The lowest spoiled slot.
fn first_spoiled(t: &Table) -> Option<usize>
    ensures { result ≡ first_spoiled t.now.head t.now.bytes.now }
{
    let n = board::layout::slots_of(t.head.board);
    (0..n).find(|&k| spoiled(t, k))
}

// Does a held slot below `n` have this serial?
fn has_serial(t: &[u8], serial: u32, n: usize) -> bool
    requires { 16 * n ≤ length t.now }
    ensures { result ≡ has_serial t.now serial n }
{
    (0..n).any(|k| held(t, k) && slots::slot_serial(t, k) == serial)
}

// Does a lower held slot have the serial of slot `k`? Only where the filter has met the serial, modulo 4,096, are lower slots searched.
fn repeats(t: &[u8], flags: &mut [u8; 512], k: usize) -> bool
    requires k_in_bounds { 16 * k + 16 ≤ length t.now }
    requires met { Met t.now flags.old k }
    ensures value { result ≡ repeats_at t.now k }
    ensures met_next { Met t.now flags.new (k + 1) }
{
    if !held(t, k) {
        return false;
    }
    let serial = slots::slot_serial(t, k);
    let b = (serial % 4096) as usize;
    if filter::flag(flags, b) {
        return has_serial(t, serial, k);
    }
    filter::raise(flags, b);
    false
}

// The lowest held slot whose serial a lower held slot has.
fn first_repeat(t: &Table) -> Option<usize>
    ensures { result ≡ first_repeat t.now.head t.now.bytes.now }
{
    let n = board::layout::slots_of(t.head.board);
    let mut flags = [0u8; 512];
    for k in 0..n {
        if repeats(t.bytes, &mut flags, k) {
            return Some(k);
        }
    }
    None
}

// How many of the slots below `n` are held. Each counts as 1 or 0, since `filter` would branch at each, and of slots held at random no branch is foreseen.
fn held_below(t: &[u8], n: usize) -> usize
    requires { 16 * n ≤ length t.now }
    ensures { result ≡ held_below t.now n }
{
    let mut count = 0;
    for k in 0..n {
        count += usize::from(held(t, k));
    }
    count
}

// S, where taken less delivered isn't the number of held slots.
#[tactic(auto, unfolding(crate::specs::Check::miscount))]
fn miscounted(t: &Table) -> Option<usize>
    ensures { result ≡ miscount t.now.head t.now.bytes.now }
{
    let n = board::layout::slots_of(t.head.board);
    let outstanding = t.head.taken.saturating_sub(t.head.delivered) as usize;
    (outstanding != held_below(t.bytes, n)).then_some(n)
}

// The first fault of the table. `or_else` was tried: of a closure that holds a `&Table`, nothing is known of what it returns.
#[tactic(auto, unfolding(crate::specs::Check::fault_in))]
pub fn first_fault(t: &Table) -> Option<usize>
    ensures { result ≡ fault_in t.now.head t.now.bytes.now }
{
    if let Some(k) = first_spoiled(t) {
        return Some(k);
    }
    if let Some(k) = first_repeat(t) {
        return Some(k);
    }
    miscounted(t)
}

// The table of a slice, if it passes. A call of its own would hand its table over in memory: up to 190 bytes of stack more, and a bad trailer refused later.
// Refusals: 1 trailer not good; 10 a fault.
#[inline(always)]
pub fn passing(s: &[u8]) -> Result<Table<'_>, Refusal>
    ensures refused { IfErr result (λ e. checked_slice s.now ≡ Err e) }
    ensures head { IfOk result (λ t. trailer_of s.now ≡ Some t.head) }
    ensures bytes { IfOk result (λ t. t.bytes.now ≡ drop (length s.now - t.head.size) s.now) }
    ensures faultless { IfOk result (λ t. fault_in t.head t.bytes.now ≡ None) }
{
    let t = trailer::table_in(s).ok_or(Refusal::Trailer)?;
    match first_fault(&t) {
        Some(place) => Err(Refusal::Fault(place as u32)),
        None => Ok(t),
    }
}

// Passes, or the first fault with its place: the lowest spoiled slot, else the lowest held slot whose serial a lower one has, else the number of
// slots where the counts disagree.
// Refusals: 1 trailer not good; 10 a fault.
pub fn full_check(s: &[u8]) -> Result<(), Refusal>
    ensures { result ≡ checked_slice s.now }
{
    passing(s)?;
    Ok(())
}
