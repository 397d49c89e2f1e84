// Leaves on bytes: one slot of 16 bytes in a table of slots, lent on as a part of the caller's slice.
#![tactic(auto)]

ghost use Rattle.std.specs.Prelude.{◌≡◌, ◌≢◌, ◌+◌, ◌*◌, ◌≤◌, ◌<◌, length, get_or};
ghost use Rattle.slots.specs.Bytes.{le32};
ghost use Rattle.slots.specs.Slots.{slot_at, with_slot, empty_slot, zeros};

pub mod number;

// Is every byte zero? It looks at all of them, whatever the first ones are, so that the compiler can do so at once.
pub fn all_zero(p: &[u8]) -> bool
    ensures { result ≡ zeros p.now }
{
    p.iter().fold(true, |so_far, b| so_far & (*b == 0))
}

// Slot `k`. That it lies in the table is asked call by call: a struct of table and number would be made at each call for one use, and be no plainer.
pub fn slot(t: &[u8], k: usize) -> &[u8; 16]
    requires { 16 * k + 16 ≤ length t.now }
    ensures { result.now ≡ slot_at t.now k }
{
    &t.as_chunks().0[k]
}

// The bytes of slot `k`, by value.
pub fn read_slot(t: &[u8], k: usize) -> [u8; 16]
    requires { 16 * k + 16 ≤ length t.now }
    ensures { result ≡ slot_at t.now k }
{
    *slot(t, k)
}

// Is slot `k` 16 zeros?
pub fn slot_empty(t: &[u8], k: usize) -> bool
    requires { 16 * k + 16 ≤ length t.now }
    ensures { result ≡ zeros (slot_at t.now k) }
{
    all_zero(slot(t, k))
}

// Byte `i` of slot `k`.
pub fn slot_byte(t: &[u8], k: usize, i: usize) -> u8
    requires k_in_bounds { 16 * k + 16 ≤ length t.now }
    requires i_bound { i < 16 }
    ensures { result ≡ get_or (slot_at t.now k) i 0 }
{
    slot(t, k)[i]
}

// The serial number in slot `k`: its bytes 4 to 7.
pub fn slot_serial(t: &[u8], k: usize) -> u32
    requires { 16 * k + 16 ≤ length t.now }
    ensures { result ≡ le32 (slot_at t.now k) 4 }
{
    number::get32(slot(t, k), 4)
}

// Makes slot `k` the bytes `v`.
#[tactic(auto, unfolding(crate::specs::Slots::with_slot))]
pub fn write_slot(t: &mut [u8], k: usize, v: [u8; 16])
    requires { 16 * k + 16 ≤ length t.old }
    ensures { t.new ≡ with_slot t.old k v }
{
    let a = 16 * k;
    t[a..a + 16].copy_from_slice(&v);
}

// Makes slot `to` the bytes of another slot, `from`, byte by byte: `copy_within` doesn't say which byte is copied when, of which `one_copied` speaks.
pub fn copy_slot(t: &mut [u8], from: usize, to: usize)
    requires from_in_bounds { 16 * from + 16 ≤ length t.old }
    requires to_in_bounds { 16 * to + 16 ≤ length t.old }
    requires apart { from ≢ to }
    ensures { t.new ≡ with_slot t.old to (slot_at t.old from) }
{
    let a = 16 * from;
    let b = 16 * to;
    for i in 0..16 {
        t[b + i] = t[a + i];
    }
}

// Makes slot `k` 16 zeros.
#[tactic(auto, unfolding(crate::specs::Slots::with_slot))]
pub fn clear_slot(t: &mut [u8], k: usize)
    requires { 16 * k + 16 ≤ length t.old }
    ensures { t.new ≡ with_slot t.old k empty_slot }
{
    let a = 16 * k;
    t[a..a + 16].fill(0);
}
