// The verdict on a taking in: a packet for the waiting slot of its source.
ghost use Rattle.std.specs.Prelude.{◌≡◌};
ghost use Rattle.judging.specs.Verdicts.{berthed, take_verdict};

use crate::verdict::Berth;
use network::{Kind, Place};
use table::Refusal;
use trailer::Table;

// Would this packet be taken in, and into which slot?
#[tactic(auto, using(table::proofs::QueueLaws::room_counted), unfolding(crate::specs::Verdicts::take_verdict, table::specs::Refusals::number_of))]
pub fn judge_taking(t: &Table, source: u8, destination: u8) -> Result<Berth, Refusal>
    ensures { berthed 0 result ≡ take_verdict t.now.head t.now.bytes.now source destination }
{
    let b = t.head.board;
    if !board::is_node(b, source) || !board::is_node(b, destination) {
        return Err(Refusal::OutOfRange);
    }
    if t.head.taken == u32::MAX {
        return Err(Refusal::AllTaken);
    }
    let waiting = Place {
        node: source,
        kind: Kind::Waiting,
    };
    crate::verdict::berth_in(table::queues::room_at(t, waiting))
}
