// Little-endian numbers of four bytes.
ghost use Rattle.std.specs.Prelude.{◌≡◌, ◌+◌, ◌*◌, ◌≤◌, length};
ghost use Rattle.slots.specs.Bytes.{le32, bytes32, put};

// The number of the four bytes from `at`.
pub fn get32(s: &[u8], at: usize) -> u32
    requires { at + 4 ≤ length s.now }
    ensures { result ≡ le32 s.now at }
{
    u32::from_le_bytes([s[at], s[at + 1], s[at + 2], s[at + 3]])
}

// Stores `n` in the four bytes from `at`.
#[tactic(auto, unfolding(crate::specs::Bytes::bytes32))]
pub fn put32(s: &mut [u8], at: usize, n: u32)
    requires { at + 4 ≤ length s.old }
    ensures { s.new ≡ put s.old at (bytes32 n) }
{
    s[at..at + 4].copy_from_slice(&n.to_le_bytes());
}
