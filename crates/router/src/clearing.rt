// Clear: the slice's last part becomes a fresh table.
ghost use Rattle.std.specs.Prelude.{◌≡◌};
ghost use Rattle.table.specs.Refusals.{told};
ghost use Rattle.table.specs.Calls.{outcome};
ghost use Rattle.router.specs.Clear.{asked, depth_used, cleared_as, cleared_slice};

use board::Board;
use table::Refusal;

// The depth where it is left out, which a caller does by 0: `asked`, of the contract of `clear`, and `paneglove_clear` have numbers.
const DEPTH_LEFT_OUT: usize = 5;

fn depth_used(depth: u32) -> usize
    ensures { result ≡ depth_used depth }
{
    if depth == 0 {
        DEPTH_LEFT_OUT
    } else {
        depth as usize
    }
}

#[tactic(auto, using(board::proofs::Sizes::board_good, slots::proofs::Parts::rest_back, slots::proofs::Parts::lent_rest), unfolding(crate::specs::Clear::cleared_as, table::specs::Refusals::number_of))]
fn clear_as(s: &mut [u8], b: Board) -> Result<(), Refusal>
    ensures { outcome (told result) s.new ≡ cleared_as s.old b }
{
    if !board::board_ok(b) {
        return Err(Refusal::Sizes);
    }
    let size = board::layout::table_size(b);
    // `checked_sub` with `ok_or` would take a tenth more instructions
    if s.len() < size {
        return Err(Refusal::Buffer);
    }
    let start = s.len() - size;
    trailer::clear_table(&mut s[start..], b);
    Ok(())
}

// Makes the slice's last part a fresh table; depth 0 means 5. Four numbers and no struct: `asked` and C's `paneglove_clear` have them so.
// Refusals: 8 where a size or the profile is not accepted, 9 where the slice is shorter than the table.
#[tactic(auto, unfolding(crate::specs::Clear::cleared_slice))]
pub fn clear(s: &mut [u8], width: u32, height: u32, depth: u32, profile: u32) -> Result<(), Refusal>
    ensures { outcome (told result) s.new ≡ cleared_slice s.old (asked width height depth profile) }
{
    let depth = depth_used(depth);
    clear_as(
        s,
        Board {
            width: width as usize,
            height: height as usize,
            depth,
            profile: profile as usize,
        },
    )
}
