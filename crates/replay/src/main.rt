// Carries out a script of calls from standard input, as docs/REPLAY.md says. The three buffers of 65,536 bytes are its bounds.
#![tactic(auto)]

mod answers;
mod buffer;
mod commands;
mod saying;
mod script;

use std::io;

// The longest script, and the longest buffer that is lent.
const MOST: usize = 65536;

fn main(rt: HostRuntime) -> io::Result<()> {
    // no heap: how much of it is read stands beside it, and one byte more shows that a script is too long
    let mut bytes = [0u8; MOST + 1];
    let size = reading::read_full(&mut rt.stdin(), &mut bytes)?;
    if MOST < size {
        script::refuse(&rt, MOST);
        return Ok(());
    }
    script::run(&rt, &bytes[..size]);
    Ok(())
}
