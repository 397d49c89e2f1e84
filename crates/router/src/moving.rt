// The move: a proposed code for the packet of a slot. The verdict is read first; then the move does that one step.
ghost use Rattle.std.specs.Prelude.{◌≡◌, ◌<◌, Ok};
ghost use Rattle.board.specs.Layout.{layout_of, Sized};
ghost use Rattle.table.specs.Calls.{outcome};
ghost use Rattle.router.specs.Move.{move_answer, handed_out, moved_in, moved_slice};

use judging::Onward;
use table::Refusal;
use trailer::{Count, Head, Table};

// `packet` is the packet handed out, or 16 zeros where it goes on, to `slot`. No enum: `move_answer` tells the result, for `make_move_determined`, and a packet gone
// into slot 0 and one of 16 zeros handed out would have one answer.
#[derive(Clone, Copy)]
pub struct Moved {
    pub slot: u32,
    pub packet: [u8; 16],
    pub left: u32,
}

// The packet of a slot is handed out, and one more is delivered. The table is a slice where it is written: a `Table` would be made anew to read it, no plainer.
#[tactic(auto, unfolding(crate::specs::Move::handed_out))]
fn hand_out(t: &mut [u8], head: Head, slot: usize) -> Moved
    requires sized { Sized head.board t.old }
    requires slot_bound { slot < (layout_of head.board).size }
    requires delivered_lt_taken { head.delivered < head.taken }
    ensures { outcome (move_answer (Ok result)) t.new ≡ handed_out head t.old slot }
{
    let b = head.board;
    let here = board::layout::place_of(b, slot);
    let room = table::queues::room_at(&Table { bytes: t, head }, here);
    let left = room.empty + 1;
    let packet = slots::read_slot(t, slot);
    table::carriage::leave(t, b, slot);
    trailer::put_count(t, Count::Delivered, head.delivered + 1);
    Moved {
        slot: 0,
        packet,
        left,
    }
}

fn move_in_table(t: &mut [u8], head: Head, slot: u32, code: u32) -> Result<Moved, Refusal>
    requires { Sized head.board t.old }
    ensures { outcome (move_answer result) t.new ≡ moved_in head t.old slot code }
{
    let onward = judging::judge_move(&Table { bytes: t, head }, slot, code)?;
    let k = slot as usize;
    match onward {
        Onward::Leaves => Ok(hand_out(t, head, k)),
        Onward::Into {
            slot: to,
            hops,
            left,
        } => {
            table::carriage::carry(t, head.board, k, to, hops);
            Ok(Moved {
                slot: to as u32,
                packet: [0; 16],
                left,
            })
        }
    }
}

// Makes the proposed move of the packet in a slot; a delivery hands out the packet's 16 bytes. `left` slots are then empty in the queue that the
// packet went into, or, at a delivery, in the one that it left.
// Refusals: 1 trailer not good; 2 no such slot or code; 3 the slot is empty; 4 it is spoiled; 5 the rule doesn't offer the move; 12 a good
// packet in the node's B queue goes first on the link; 6 the target queue has no empty slot.
// Slot and code stand side by side, here and below, as `moved_slice` and C's `paneglove_make_move` have them.
#[tactic(auto, using(table::proofs::CallLaws::on_table_bad, table::proofs::CallLaws::start_in, table::proofs::CallLaws::lent_sized, trailer::proofs::TrailerLaws::trailer_good), unfolding(crate::specs::Move::moved_slice, table::specs::Refusals::number_of))]
pub fn make_move(s: &mut [u8], slot: u32, code: u32) -> Result<Moved, Refusal>
    ensures { outcome (move_answer result) s.new ≡ moved_slice s.old slot code }
{
    // As in `take_in`: a function for both would hand back the part to be written with its head, which no `Table` holds, and be no plainer.
    let head = trailer::trailer(s).ok_or(Refusal::Trailer)?;
    let start = s.len() - head.size;
    move_in_table(&mut s[start..], head, slot, code)
}
