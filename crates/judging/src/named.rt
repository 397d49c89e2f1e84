// The slot that a call names.
ghost use Rattle.std.specs.Prelude.{◌≡◌};
ghost use Rattle.table.specs.Refusals.{told};
ghost use Rattle.judging.specs.Named.{slot_due};

use table::Refusal;
use trailer::Table;

// Refusals 2, 3 and 4 of a named slot.
#[tactic(auto, unfolding(crate::specs::Named::slot_due, table::specs::Refusals::number_of))]
pub fn slot_due(t: &Table, slot: usize) -> Result<(), Refusal>
    ensures { told result ≡ slot_due t.now.head t.now.bytes.now slot }
{
    if board::layout::slots_of(t.head.board) <= slot {
        return Err(Refusal::OutOfRange);
    }
    if slots::slot_empty(t.bytes, slot) {
        return Err(Refusal::Empty);
    }
    if !table::packets::good_at(t, slot) {
        return Err(Refusal::Spoiled);
    }
    Ok(())
}
