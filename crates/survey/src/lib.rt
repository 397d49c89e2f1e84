// Document 01's calls that judge a whole table.
#![tactic(auto)]

pub mod checking;
pub mod copying;
pub mod finding;

pub use checking::full_check;
pub use copying::copy_outward;
pub use finding::find;
