// Whether a call is accepted, by which number it is refused, and where its packet goes: read off a table before anything is written.
#![tactic(auto)]

pub mod moves;
pub mod named;
pub mod takings;
pub mod verdict;

pub use moves::judge_move;
pub use named::slot_due;
pub use takings::judge_taking;
pub use verdict::{Berth, Onward};
