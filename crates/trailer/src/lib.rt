// The trailer: the last 16 bytes of a lent slice, and the counts in it.
#![tactic(auto)]

ghost use Rattle.std.specs.Prelude.{◌≡◌, ◌≤◌, length};
ghost use Rattle.board.specs.Board.{GoodBoard};
ghost use Rattle.board.specs.Layout.{table_size};
ghost use Rattle.trailer.specs.Trailer.{board_of, head_of, head_ok, trailer_of, with_count, trailer_bytes, fresh};

use board::Board;

pub mod headed;

pub use headed::{Table, table_in};

// What a good trailer says. `size` is the table's length in bytes, the trailer's among them.
#[derive(Clone, Copy)]
pub struct Head {
    pub board: Board,
    pub taken: u32,
    pub delivered: u32,
    pub size: usize,
}

// A count in the trailer: of the packets taken in, or of those delivered.
#[derive(Clone, Copy)]
pub enum Count {
    Taken,
    Delivered,
}

fn board_of(z: &[u8; 16]) -> Board
    ensures { result ≡ board_of z.now }
{
    Board {
        width: usize::from(z[0]),
        height: usize::from(z[1]),
        depth: usize::from(z[2]),
        profile: usize::from(z[3]),
    }
}

fn head_of(z: &[u8; 16]) -> Head
    ensures { result ≡ head_of z.now }
{
    Head {
        board: board_of(z),
        taken: slots::number::get32(z, 4),
        delivered: slots::number::get32(z, 8),
        size: slots::number::get32(z, 12) as usize,
    }
}

// Is the trailer good in a slice of `n` bytes?
#[tactic(auto, using(board::proofs::Sizes::board_good), unfolding(crate::specs::Trailer::head_ok))]
fn head_ok(h: Head, n: usize) -> bool
    ensures { result ≡ head_ok h n }
{
    board::board_ok(h.board)
        && h.delivered <= h.taken
        && h.size == board::layout::table_size(h.board)
        && h.size <= n
}

#[tactic(auto, unfolding(crate::specs::Trailer::trailer_of))]
pub fn trailer(s: &[u8]) -> Option<Head>
    ensures { result ≡ trailer_of s.now }
{
    let h = head_of(s.last_chunk()?);
    head_ok(h, s.len()).then_some(h)
}

// Stores a count in the trailer of the table `t`.
#[tactic(auto, unfolding(crate::specs::Trailer::with_taken, crate::specs::Trailer::with_delivered))]
pub fn put_count(t: &mut [u8], count: Count, n: u32)
    requires { 16 ≤ length t.old }
    ensures { t.new ≡ with_count count t.old n }
{
    let from_end = match count {
        Count::Taken => 12,
        Count::Delivered => 8,
    };
    slots::number::put32(t, t.len() - from_end, n);
}

// The trailer of a table into which no packet has been taken. That its board is good is asked here and below, as in the layout: there is no `Table` yet.
#[tactic(auto, using(board::proofs::BoardLaws::slots_most), unfolding(crate::specs::Trailer::trailer_bytes, slots::specs::Bytes::bytes32))]
fn fresh_trailer(b: Board) -> [u8; 16]
    requires { GoodBoard b }
    ensures { result ≡ trailer_bytes b 0 0 }
{
    let [s0, s1, s2, s3] = (board::layout::table_size(b) as u32).to_le_bytes();
    let width = b.width as u8;
    let height = b.height as u8;
    let depth = b.depth as u8;
    let profile = b.profile as u8;
    [
        width, height, depth, profile, 0, 0, 0, 0, 0, 0, 0, 0, s0, s1, s2, s3,
    ]
}

// Makes `t`, of the table's length, a fresh table. The trailer lies where one more slot would.
#[tactic(auto, using(crate::proofs::FreshLaws::fresh_made))]
pub fn clear_table(t: &mut [u8], b: Board)
    requires good_board { GoodBoard b }
    requires t_len { length t.old ≡ table_size b }
    ensures { t.new ≡ fresh b }
{
    t.fill(0);
    slots::write_slot(t, board::layout::slots_of(b), fresh_trailer(b));
}
