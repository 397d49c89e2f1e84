// The right of way on a link: static traffic first (document 02, order 3).
#![tactic(auto)]

ghost use Rattle.std.specs.Prelude.{◌≡◌, true, ◌<◌};
ghost use Rattle.network.specs.Search.{is_at};
ghost use Rattle.board.specs.Board.{net_of};
ghost use Rattle.board.specs.Layout.{layout_of};
ghost use Rattle.way.specs.Way.{in_a, is_hop, hops_at, first_hop_in_b, gives_way};

use network::{Kind, Lead, Place};
use trailer::Table;

fn in_a(kind: Kind) -> bool
    ensures { result ≡ in_a kind }
{
    matches!(kind, Kind::A)
}

fn is_hop(lead: Lead) -> bool
    ensures { result ≡ is_hop lead }
{
    matches!(lead, Lead::Hop(_))
}

// Is the packet of slot `k` good, and does the rule offer it a hop by this code?
fn hops_at(t: &Table, k: usize, code: u32) -> bool
    requires { k < (layout_of t.now.head.board).size }
    ensures { result ≡ hops_at t.now.head t.now.bytes.now code k }
{
    if !table::packets::good_at(t, k) {
        return false;
    }
    let b = t.head.board;
    let here = board::layout::place_of(b, k);
    let destination = slots::slot_byte(t.bytes, k, 2);
    is_hop(board::rule(b, here, destination, code))
}

// Does a slot of that node's B queue hold such a packet?
fn hop_in_b(t: &Table, node: u8, code: u32) -> bool
    requires { (net_of t.now.head.board).valid node ≡ true }
    ensures { result ≡ is_at (first_hop_in_b t.now.head t.now.bytes.now code node) }
{
    let b = t.head.board;
    let kind = Kind::B;
    let first = board::layout::first_slot(b, Place { node, kind });
    let end = first + board::layout::room_of(b, kind);
    (first..end).any(|k| hops_at(t, k, code))
}

// Does the packet at `here`, led on by the rule, give way to one in B?
#[tactic(auto, unfolding(crate::specs::Way::gives_way))]
pub fn gives_way(t: &Table, here: Place, code: u32, lead: Lead) -> bool
    requires { (net_of t.now.head.board).valid here.node ≡ true }
    ensures { result ≡ gives_way t.now.head t.now.bytes.now here code lead }
{
    in_a(here.kind) && is_hop(lead) && hop_in_b(t, here.node, code)
}
