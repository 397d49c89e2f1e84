// Why a call is refused (document 01, "What each call answers"; document 02).
ghost use Rattle.std.specs.Prelude.{◌≡◌};
ghost use Rattle.table.specs.Refusals.{number_of, place_of};

#[derive(Clone, Copy, Debug, PartialEq, Eq)]
pub enum Refusal {
    Trailer,
    OutOfRange,
    Empty,
    Spoiled,
    NotOffered,
    NoRoom,
    AllTaken,
    Sizes,
    Buffer,
    // with the place of the first fault
    Fault(u32),
    NothingHeld,
    GivesWay,
}

impl Refusal {
    // No `From`: beside the number stands the place, and a caller asks for each by its name.
    #[tactic(auto, unfolding(crate::specs::Refusals::number_of))]
    pub fn number(self) -> u32
        ensures { result ≡ number_of self }
    {
        match self {
            Refusal::Trailer => 1,
            Refusal::OutOfRange => 2,
            Refusal::Empty => 3,
            Refusal::Spoiled => 4,
            Refusal::NotOffered => 5,
            Refusal::NoRoom => 6,
            Refusal::AllTaken => 7,
            Refusal::Sizes => 8,
            Refusal::Buffer => 9,
            Refusal::Fault(_) => 10,
            Refusal::NothingHeld => 11,
            Refusal::GivesWay => 12,
        }
    }

    // The place that is answered beside 10.
    #[tactic(auto, unfolding(crate::specs::Refusals::place_of))]
    pub fn place(self) -> u32
        ensures { result ≡ place_of self }
    {
        match self {
            Refusal::Fault(place) => place,
            _ => 0,
        }
    }
}
