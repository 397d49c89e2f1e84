// The verdict on a move: a proposed code for the packet of a slot.
ghost use Rattle.std.specs.Prelude.{◌≡◌};
ghost use Rattle.board.specs.Board.{net_of};
ghost use Rattle.judging.specs.Verdicts.{verdict_of, ahead, move_verdict, Targets};

use crate::verdict::Onward;
use network::{Lead, Place};
use table::Refusal;
use trailer::Table;

// What the rule's answer comes to, in the table as it is.
#[tactic(auto, using(table::proofs::QueueLaws::room_counted), unfolding(crate::specs::Verdicts::ahead, table::specs::Refusals::number_of))]
fn go_ahead(t: &Table, here: Place, lead: Lead) -> Result<Onward, Refusal>
    requires { Targets (net_of t.now.head.board) here lead }
    ensures { verdict_of result ≡ ahead t.now.head.board t.now.bytes.now here lead }
{
    match lead {
        Lead::Hop(node) => {
            let room = table::queues::room_at(t, Place { node, ..here });
            crate::verdict::go_into(room, 1)
        }
        Lead::Turn(kind) => {
            let room = table::queues::room_at(t, Place { kind, ..here });
            crate::verdict::go_into(room, 0)
        }
        Lead::Out => Ok(Onward::Leaves),
        Lead::NotOffered => Err(Refusal::NotOffered),
    }
}

// Would this move be accepted, and where does the packet go?
pub fn judge_move(t: &Table, slot: u32, code: u32) -> Result<Onward, Refusal>
    ensures { verdict_of result ≡ move_verdict t.now.head t.now.bytes.now slot code }
{
    let b = t.head.board;
    if !board::is_code(b, code) {
        return Err(Refusal::OutOfRange);
    }
    let k = slot as usize;
    crate::named::slot_due(t, k)?;
    let here = board::layout::place_of(b, k);
    let destination = slots::slot_byte(t.bytes, k, 2);
    let lead = board::rule(b, here, destination, code);
    if way::gives_way(t, here, code, lead) {
        return Err(Refusal::GivesWay);
    }
    go_ahead(t, here, lead)
}
