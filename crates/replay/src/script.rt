// A script: its commands one after the other. What can't be written is passed over.
ghost use Rattle.std.specs.Prelude.{◌<◌, length, OnOk};

use crate::buffer::Buffer;
use crate::commands::{Command, Malformed};
use crate::{answers, commands, saying};

#[derive(Drop)]
struct Lent {
    slice: Buffer,
    second: Buffer,
}

impl Lent {
    fn carry_out(&mut self, rt: &impl Print, command: Command) -> Result<(), Malformed> {
        match command {
            Command::Lend { length } => {
                self.slice.lend(length, 0)?;
                saying::word(rt, b"slice ");
                saying::number(rt, length);
                saying::end(rt);
            }
            Command::SetByte { place, byte } => {
                self.slice.set_byte(place, byte)?;
            }
            Command::Clear {
                width,
                height,
                depth,
                profile,
            } => answers::clear(rt, self.slice.bytes_mut(), width, height, depth, profile),
            Command::TakeIn {
                source,
                destination,
                payload,
            } => answers::take_in(rt, self.slice.bytes_mut(), source, destination, payload),
            Command::Move { slot, code } => {
                answers::make_move(rt, self.slice.bytes_mut(), slot, code);
            }
            Command::ReadPayload { slot } => answers::read_payload(rt, self.slice.bytes(), slot),
            Command::FullCheck => answers::full_check(rt, self.slice.bytes()),
            Command::Find => answers::find(rt, self.slice.bytes()),
            Command::CopyOutward { length, fill } => {
                self.second.lend(length, fill)?;
                answers::copy_outward(rt, self.slice.bytes(), self.second.bytes_mut());
            }
            Command::ShowSlice => answers::show(rt, b"bytes", self.slice.bytes()),
            Command::ShowSecond => answers::show(rt, b"second", self.second.bytes()),
        }
        Ok(())
    }
}

fn step(rt: &impl Print, lent: &mut Lent, rest: &mut &[u8]) -> Result<(), Malformed>
    ensures { OnOk result (length rest.new.now < length rest.old.now) }
{
    lent.carry_out(rt, commands::next_command(rest)?)
}

pub fn refuse(rt: &impl Print, offset: usize) {
    saying::word(rt, b"malformed at ");
    let _ = rt.print(offset);
    saying::end(rt);
}

pub fn run(rt: &impl Print, script: &[u8]) {
    let mut lent = Lent {
        slice: Buffer::empty(),
        second: Buffer::empty(),
    };
    let mut rest = script;
    while !rest.is_empty() {
        let offset = script.len() - rest.len();
        if step(rt, &mut lent, &mut rest).is_err() {
            return refuse(rt, offset);
        }
    }
}
