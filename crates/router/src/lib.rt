// Document 01's calls that make, change and read a table.
#![tactic(auto)]

pub mod clearing;
pub mod moving;
pub mod reading;
pub mod taking;

pub use clearing::clear;
pub use moving::make_move;
pub use reading::read_payload;
pub use taking::take_in;
