// 4,096 flags as bits in 512 bytes: which serials, modulo 4,096, have been met. A bit is read by division and raised by a sum, as its definition has it, and no
// mask: one computed fact is behind both.
#![tactic(auto)]

ghost use Rattle.std.specs.Prelude.{◌≡◌, false, ◌+◌, ◌<◌};
ghost use Rattle.filter.specs.Flags.{weight_of, bit_of, flag_at, raised};

// The weight of bit `i` in a byte.
fn weight_of(i: usize) -> u8
    requires { i < 8 }
    ensures { result ≡ weight_of i }
{
    1 << i
}

#[tactic(auto, unfolding(crate::specs::Flags::flag_at))]
pub fn flag(flags: &[u8; 512], b: usize) -> bool
    requires { b < 4096 }
    ensures { result ≡ flag_at flags.now b }
{
    flags[b / 8] / weight_of(b % 8) % 2 == 1
}

// Raises a flag that is not up.
#[tactic(auto, unfolding(crate::specs::Flags::flag_at, crate::specs::Flags::raised))]
pub fn raise(flags: &mut [u8; 512], b: usize)
    requires b_bound { b < 4096 }
    requires b_value { flag_at flags.old b ≡ false }
    ensures { flags.new ≡ raised flags.old b }
{
    flags[b / 8] += weight_of(b % 8);
}
