// Reads a slice from standard input, and writes its table's copy for outsiders; a refusal goes to standard error, in the listing's words.
#![tactic(auto)]

use listing::sending::Sent;
use std::io;

fn main(rt: HostRuntime) -> io::Result<()> {
    let mut input = listing::input_room();
    let n = reading::read_full(&mut rt.stdin(), &mut input)?;
    let mut copy = [0; listing::sending::COPY_ROOM];
    let mut line = [0; listing::answering::LINE_ROOM];
    match listing::send_outward(&input[..n], &mut copy, &mut line) {
        Ok(Sent::Copy(length)) => match rt.write_all(&copy[..length]) {
            Ok(()) => Ok(()),
            Err(_) => rt.eprintln("the copy could not be written"),
        },
        Ok(Sent::Words(length)) => rt.stderr().write_all(&line[..length]),
        // both rooms are long enough
        Err(_) => Ok(()),
    }
}
