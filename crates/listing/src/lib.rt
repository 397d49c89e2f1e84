// What the listing program prints of a table, put into a lent buffer.
#![tactic(auto)]

ghost use Rattle.std.specs.Prelude.{◌≡◌, ◌+◌, length};
ghost use Rattle.lines.specs.Lines.{room};
ghost use Rattle.listing.specs.Output.{most};

pub mod answering;
pub mod sending;

pub use answering::{check_line, list_table};
pub use sending::send_outward;

// Room for the longest input, and one byte more, which shows that an input is too long. Programs have no heap, so how much of it is read stands beside it.
pub fn input_room() -> [u8; answering::MOST + 1]
    ensures { most + 1 ≡ length result }
{
    [0; answering::MOST + 1]
}

// Room for the longest output.
pub fn output_room() -> [u8; lines::ROOM]
    ensures { room ≡ length result }
{
    [0; lines::ROOM]
}
