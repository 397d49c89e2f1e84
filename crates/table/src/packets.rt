// What a held slot says, and whether it is good.
ghost use Rattle.std.specs.Prelude.{◌≡◌, ◌+◌, ◌*◌, ◌≤◌, ◌<◌, length};
ghost use Rattle.network.specs.Packet.{fits_kind, good};
ghost use Rattle.slots.specs.Slots.{slot_at};
ghost use Rattle.board.specs.Board.{net_of};
ghost use Rattle.board.specs.Layout.{layout_of};
ghost use Rattle.table.specs.Packets.{fields_of, packet_by, course_ok, item_by, good_at};

use board::Board;
use network::{Kind, Place};
use trailer::{Head, Table};

// A packet's record but its payload.
#[derive(Clone, Copy)]
pub struct Fields {
    pub mark: u8,
    pub source: u8,
    pub destination: u8,
    pub hops: u8,
    pub serial: u32,
}

pub fn read_fields(t: &[u8], k: usize) -> Fields
    requires { 16 * k + 16 ≤ length t.now }
    ensures { result ≡ fields_of (slot_at t.now k) }
{
    let slot = slots::slot(t, k);
    Fields {
        mark: slot[0],
        source: slot[1],
        destination: slot[2],
        hops: slot[3],
        serial: slots::number::get32(slot, 4),
    }
}

// In a waiting slot the source is here; in a B slot neither coordinate of the destination is greater than here's.
fn fits_kind(b: Board, here: Place, f: Fields) -> bool
    ensures { result ≡ fits_kind (net_of b) here.kind here.node (packet_by f) }
{
    match here.kind {
        Kind::Waiting => f.source == here.node,
        Kind::A => true,
        Kind::B => board::settled(b, here.node, f.destination),
    }
}

// The hops made are the distance from the source to here, and this is on a shortest path to the destination.
#[tactic(auto, using(board::proofs::BoardLaws::distance_byte), unfolding(crate::specs::Packets::course_ok))]
fn course_ok(b: Board, here: u8, f: Fields) -> bool
    ensures { result ≡ course_ok b here f }
{
    let hops = u32::from(f.hops);
    hops == board::distance(b, f.source, here)
        && hops + board::distance(b, here, f.destination)
            == board::distance(b, f.source, f.destination)
}

// Is a packet with this record good in that place?
#[tactic(auto, unfolding(network::specs::Packet::good, crate::specs::Packets::course_ok))]
pub fn good_in(h: Head, here: Place, f: Fields) -> bool
    ensures { result ≡ good (net_of h.board) h.taken h.delivered (item_by here f) }
{
    let b = h.board;
    f.mark == 1
        && board::is_node(b, f.source)
        && board::is_node(b, f.destination)
        && f.serial < h.taken
        && h.delivered < h.taken
        && course_ok(b, here.node, f)
        && fits_kind(b, here, f)
}

// Is the packet of slot `k` good? That it is a slot of the table's is asked call by call: a type of such numbers would be made for one use, and be no plainer.
#[tactic(auto, using(crate::proofs::PacketLaws::good_by), unfolding(crate::specs::Packets::good_at))]
pub fn good_at(t: &Table, k: usize) -> bool
    requires { k < (layout_of t.now.head.board).size }
    ensures { result ≡ good_at t.now.head t.now.bytes.now k }
{
    let place = board::layout::place_of(t.head.board, k);
    good_in(t.head, place, read_fields(t.bytes, k))
}
