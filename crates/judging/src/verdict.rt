// What a call that changes a table would do, judged before anything is written.
ghost use Rattle.std.specs.Prelude.{ℕ, ◌≡◌, ltb};
ghost use Rattle.network.specs.Search.{is_at};
ghost use Rattle.judging.specs.Verdicts.{berthed, verdict_of, into};

use table::Refusal;
use table::queues::QueueRoom;

// The slot that a packet goes into, and how many slots of its queue are left empty.
#[derive(Clone, Copy)]
pub struct Berth {
    pub slot: usize,
    pub left: u32,
}

// Where an accepted move's packet goes: out, or into a slot with so many hops more, where `left` slots of the queue are left empty.
#[derive(Clone, Copy)]
pub enum Onward {
    Leaves,
    Into { slot: usize, hops: u8, left: u32 },
}

// The lowest slot of the room found, or refusal 6.
#[tactic(auto, unfolding(table::specs::Refusals::number_of))]
pub fn berth_in(room: QueueRoom) -> Result<Berth, Refusal>
    requires { is_at room.lowest ≡ ltb 0 room.empty }
    ensures { (hops : ℕ) → berthed hops result ≡ into room.lowest room.empty hops }
{
    let slot = room.lowest.ok_or(Refusal::NoRoom)?;
    Ok(Berth {
        slot,
        left: room.empty - 1,
    })
}

// Into the room found, with so many hops more.
pub fn go_into(room: QueueRoom, hops: u8) -> Result<Onward, Refusal>
    requires { is_at room.lowest ≡ ltb 0 room.empty }
    ensures { verdict_of result ≡ into room.lowest room.empty hops }
{
    let Berth { slot, left } = berth_in(room)?;
    Ok(Onward::Into { slot, hops, left })
}
