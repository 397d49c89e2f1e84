// A board: its sizes and its profile, what its network answers, and where its slots are. Everything above asks here, and names no network.
#![tactic(auto)]

ghost use Rattle.std.specs.Prelude.{◌≡◌};
ghost use Rattle.board.specs.Board.{board_ok, net_of, coordinates_of};

use network::{Lead, Place};

pub mod layout;

#[derive(Clone, Copy)]
pub struct Board {
    pub width: usize,
    pub height: usize,
    pub depth: usize,
    // which of the rule's moves it has: 0, 1 or 2; a number, since a board as it is read or asked for may have any, which `board_ok` refuses
    pub profile: usize,
}

// A node as it is written.
#[derive(Clone, Copy)]
pub struct Coordinates {
    pub x: u8,
    pub y: u8,
}

// Are its sizes and its profile accepted?
#[tactic(auto, unfolding(crate::specs::Board::board_ok))]
pub fn board_ok(b: Board) -> bool
    ensures { result ≡ board_ok b }
{
    (1..=16).contains(&b.width)
        && (1..=16).contains(&b.height)
        && (1..=7).contains(&b.depth)
        && b.profile <= 2
}

// Is there such a node?
#[tactic(auto, unfolding(crate::specs::Board::net_of))]
pub fn is_node(b: Board, node: u8) -> bool
    ensures { result ≡ (net_of b).valid node }
{
    mesh::on_grid(b.width, b.height, node)
}

// How far is it from one node to another?
#[tactic(auto, unfolding(crate::specs::Board::net_of))]
pub fn distance(b: Board, from: u8, to: u8) -> u32
    ensures { result ≡ (net_of b).distance from to }
{
    mesh::distance(from, to)
}

// May B hold a packet here for that destination?
#[tactic(auto, unfolding(crate::specs::Board::net_of))]
pub fn settled(b: Board, here: u8, destination: u8) -> bool
    ensures { result ≡ (net_of b).settled here destination }
{
    mesh::settled(here, destination)
}

// The rule of moves: where a code leads a packet from its place, for its destination.
#[tactic(auto, unfolding(crate::specs::Board::net_of))]
pub fn rule(b: Board, here: Place, destination: u8, code: u32) -> Lead
    ensures { result ≡ (net_of b).rule here destination code }
{
    mesh::rule(mesh::profile_of(b.profile), here, destination, code)
}

// Is there such a code?
#[tactic(auto, unfolding(crate::specs::Board::net_of))]
pub fn is_code(b: Board, code: u32) -> bool
    ensures { result ≡ (net_of b).known code }
{
    mesh::is_code(code)
}

// The highest code.
#[tactic(auto, unfolding(crate::specs::Board::net_of))]
pub fn last_code(b: Board) -> u32
    ensures { result ≡ (net_of b).last }
{
    mesh::LAST_CODE
}

#[tactic(auto, unfolding(crate::specs::Board::coordinates_of))]
pub fn coordinates_of(b: Board, node: u8) -> Coordinates
    ensures { result ≡ coordinates_of b node }
{
    Coordinates {
        x: node % 16,
        y: node / 16,
    }
}
