// Reads a slice from standard input, and writes one line: `passes`, or why its table is refused.
#![tactic(auto)]

use std::io;

// As `list`, but for its call and its room: a function for both would take the call as a closure and the room from it, and be no plainer.
fn main(rt: HostRuntime) -> io::Result<()> {
    let mut input = listing::input_room();
    let n = reading::read_full(&mut rt.stdin(), &mut input)?;
    let mut line = [0; listing::answering::LINE_ROOM];
    match listing::check_line(&input[..n], &mut line) {
        Ok(length) => rt.write_all(&line[..length]),
        // the room is long enough
        Err(_) => Ok(()),
    }
}
