// The packet table as bytes: which packets are good, which queues have room, and how a packet is carried.
#![tactic(auto)]

pub mod carriage;
pub mod packets;
pub mod queues;
pub mod refusals;

pub use refusals::Refusal;
