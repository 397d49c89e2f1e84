// Take in: a packet goes into the waiting slot of its source.
ghost use Rattle.std.specs.Prelude.{◌≡◌};
ghost use Rattle.board.specs.Layout.{Sized};
ghost use Rattle.table.specs.Calls.{outcome};
ghost use Rattle.router.specs.TakeIn.{take_answer, new_record, taken_in, taken_slice};

use table::Refusal;
use trailer::{Count, Head, Table};

#[derive(Clone, Copy)]
pub struct Taken {
    pub slot: u32,
    pub serial: u32,
    pub left: u32,
}

// A packet as it is taken in: mark, source, destination, no hops, serial, payload.
#[tactic(auto, unfolding(crate::specs::TakeIn::new_record, slots::specs::Bytes::bytes32))]
fn new_record(source: u8, destination: u8, serial: u32, payload: [u8; 8]) -> [u8; 16]
    ensures { result ≡ new_record source destination serial payload }
{
    let mut packet = [0; 16];
    packet[..4].copy_from_slice(&[1, source, destination, 0]);
    packet[4..8].copy_from_slice(&serial.to_le_bytes());
    packet[8..].copy_from_slice(&payload);
    packet
}

// The table is a slice where it is written, as in `hand_out`.
fn take_in_table(
    t: &mut [u8],
    head: Head,
    source: u8,
    destination: u8,
    payload: [u8; 8],
) -> Result<Taken, Refusal>
    requires { Sized head.board t.old }
    ensures { outcome (take_answer result) t.new ≡ taken_in head t.old source destination payload }
{
    let berth = judging::judge_taking(&Table { bytes: t, head }, source, destination)?;
    let serial = head.taken;
    let next = serial + 1;
    let packet = new_record(source, destination, serial, payload);
    slots::write_slot(t, berth.slot, packet);
    trailer::put_count(t, Count::Taken, next);
    Ok(Taken {
        slot: berth.slot as u32,
        serial,
        left: berth.left,
    })
}

// Takes a packet in at its source; its serial is the count of packets taken in before. `left` slots of the queue are then empty: none.
// Refusals: 1 trailer not good; 2 source or destination off the board; 7 taken is 4,294,967,295; 6 the waiting slot is held.
// Source, destination and payload stand side by side, here and below, as `taken_slice` and C's `paneglove_take_in` have them.
#[tactic(auto, using(table::proofs::CallLaws::on_table_bad, table::proofs::CallLaws::start_in, table::proofs::CallLaws::lent_sized, trailer::proofs::TrailerLaws::trailer_good), unfolding(crate::specs::TakeIn::taken_slice, table::specs::Refusals::number_of))]
pub fn take_in(
    s: &mut [u8],
    source: u8,
    destination: u8,
    payload: [u8; 8],
) -> Result<Taken, Refusal>
    ensures { outcome (take_answer result) s.new ≡ taken_slice s.old source destination payload }
{
    let head = trailer::trailer(s).ok_or(Refusal::Trailer)?;
    let start = s.len() - head.size;
    take_in_table(&mut s[start..], head, source, destination, payload)
}
