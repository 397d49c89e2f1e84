// A buffer that a script lends: the first bytes of a room.
ghost use Rattle.std.specs.Prelude.{◌≤◌};
ghost use Rattle.replay.specs.declared.TheConstants.{MOST};

use crate::MOST;
use crate::commands::Malformed;

// A type of its own, since no part of a struct with a ghost field is handed out as a `&mut` slice.
#[derive(Drop)]
struct Room {
    bytes: [u8; MOST],
}

impl Room {
    fn first_mut(&mut self, size: usize) -> &mut [u8]
        requires { size ≤ MOST }
    {
        &mut self.bytes[..size]
    }
}

#[derive(Drop)]
pub struct Buffer {
    room: Room,
    size: usize,
    ghost in_room: { size ≤ MOST },
}

impl Buffer {
    pub fn empty() -> Self {
        Buffer {
            room: Room { bytes: [0; MOST] },
            size: 0,
        }
    }

    // Lends `length` bytes, each of them `fill`.
    pub fn lend(&mut self, length: u32, fill: u8) -> Result<(), Malformed> {
        let size = length as usize;
        if MOST < size {
            return Err(Malformed);
        }
        self.size = size;
        self.bytes_mut().fill(fill);
        Ok(())
    }

    pub fn set_byte(&mut self, place: u32, byte: u8) -> Result<(), Malformed> {
        let lent = self.bytes_mut().get_mut(place as usize).ok_or(Malformed)?;
        *lent = byte;
        Ok(())
    }

    pub fn bytes(&self) -> &[u8] {
        &self.room.bytes[..self.size]
    }

    pub fn bytes_mut(&mut self) -> &mut [u8] {
        let size = self.size;
        self.room.first_mut(size)
    }
}
