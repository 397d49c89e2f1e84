// Room in a queue: its lowest empty slot, and how many of its slots are empty.
ghost use Rattle.std.specs.Prelude.{◌≡◌, true, ◌+◌, ◌*◌, ◌≤◌, ◌<◌, length};
ghost use Rattle.network.specs.Search.{lowest_with, count_with};
ghost use Rattle.board.specs.Board.{net_of};
ghost use Rattle.table.specs.Queues.{empty_at, room_at, empties_at};

use network::Place;
use trailer::Table;

#[derive(Clone, Copy)]
pub struct QueueRoom {
    pub lowest: Option<usize>,
    pub empty: u32,
}

// Of the `count` slots from slot `from`, the lowest empty one, and how many are empty: each is looked at once, from the last down. `find` and `count` would
// look at a full queue twice.
fn search(t: &[u8], from: usize, count: usize) -> QueueRoom
    requires count_in_bounds { 16 * (from + count) ≤ length t.now }
    requires count_bound { count < 4294967296 }
    ensures lowest_value { result.lowest ≡ lowest_with (empty_at t.now) from count }
    ensures empty_value { result.empty ≡ count_with (empty_at t.now) from count }
{
    let mut found = QueueRoom {
        lowest: None,
        empty: 0,
    };
    for k in (from..from + count).rev() {
        if slots::slot_empty(t, k) {
            found = QueueRoom {
                lowest: Some(k),
                empty: found.empty + 1,
            };
        }
    }
    found
}

// Room in a node's queue, before any of it is used. That the node is on the board is asked here and in `way`: a type of a board's nodes would be no plainer.
#[tactic(auto, using(board::proofs::BoardLaws::queue_within, board::proofs::BoardLaws::slots_most), unfolding(crate::specs::Queues::room_at, crate::specs::Queues::empties_at))]
pub fn room_at(t: &Table, p: Place) -> QueueRoom
    requires { (net_of t.now.head.board).valid p.node ≡ true }
    ensures lowest_value { result.lowest ≡ room_at t.now.head.board t.now.bytes.now p }
    ensures empty_value { result.empty ≡ empties_at t.now.head.board t.now.bytes.now p }
{
    let b = t.head.board;
    search(
        t.bytes,
        board::layout::first_slot(b, p),
        board::layout::room_of(b, p.kind),
    )
}
