// Where slots are: a node has one waiting slot, then its A slots, then its B slots. No caller computes a slot number.
ghost use Rattle.std.specs.Prelude.{◌≡◌, ◌≤◌, ◌<◌};
ghost use Rattle.board.specs.Board.{GoodBoard};
ghost use Rattle.board.specs.Layout.{kind_of, offset, node_of, layout_of, table_size};

use crate::Board;
use network::{Kind, Place};

// Each call asks for `GoodBoard` itself: above, `Table` carries it, and a type of good boards would be made at each of these calls and be no plainer.

// How many slots a table has.
#[tactic(auto, unfolding(crate::specs::Layout::layout_of))]
pub fn slots_of(b: Board) -> usize
    requires { GoodBoard b }
    ensures { result ≡ (layout_of b).size }
{
    b.width * b.height * (1 + 2 * b.depth)
}

// How many bytes.
#[tactic(auto, using(crate::proofs::BoardLaws::slots_most))]
pub fn table_size(b: Board) -> usize
    requires { GoodBoard b }
    ensures { result ≡ table_size b }
{
    16 * slots_of(b) + 16
}

// The kind of the slot at place `r` in its node.
fn kind_of(depth: usize, r: usize) -> Kind
    ensures { result ≡ kind_of depth r }
{
    match r {
        0 => Kind::Waiting,
        _ if r <= depth => Kind::A,
        _ => Kind::B,
    }
}

// The address byte of the node with number `m`. It is asked to fit, so that a `try_from` here would have no other case.
fn node_of(width: usize, m: usize) -> u8
    requires le_width { 1 ≤ width }
    requires width_bound { width ≤ 16 }
    requires m_bound { node_of width m < 256 }
    ensures { result ≡ node_of width m }
{
    (m % width + 16 * (m / width)) as u8
}

#[tactic(auto, unfolding(crate::specs::Layout::layout_of))]
pub fn place_of(b: Board, slot: usize) -> Place
    requires good_board { GoodBoard b }
    requires slot_bound { slot < (layout_of b).size }
    ensures { result ≡ (layout_of b).place_of slot }
{
    let per_node = 1 + 2 * b.depth;
    Place {
        node: node_of(b.width, slot / per_node),
        kind: kind_of(b.depth, slot % per_node),
    }
}

// The place in its node of a queue's first slot.
fn offset_of(depth: usize, kind: Kind) -> usize
    requires { depth ≤ 7 }
    ensures { result ≡ offset depth kind }
{
    match kind {
        Kind::Waiting => 0,
        Kind::A => 1,
        Kind::B => 1 + depth,
    }
}

// A queue's first slot.
#[tactic(auto, unfolding(crate::specs::Layout::layout_of))]
pub fn first_slot(b: Board, p: Place) -> usize
    requires { GoodBoard b }
    ensures { result ≡ (layout_of b).first p }
{
    let node = usize::from(p.node);
    (node / 16 * b.width + node % 16) * (1 + 2 * b.depth) + offset_of(b.depth, p.kind)
}

// How many slots a queue has.
#[tactic(auto, unfolding(crate::specs::Layout::layout_of))]
pub fn room_of(b: Board, kind: Kind) -> usize
    ensures { result ≡ (layout_of b).room kind }
{
    match kind {
        Kind::Waiting => 1,
        Kind::A | Kind::B => b.depth,
    }
}
