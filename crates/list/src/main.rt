// Reads a table from standard input, and writes its listing to standard output.
#![tactic(auto)]

use std::io;

fn main(rt: HostRuntime) -> io::Result<()> {
    let mut input = listing::input_room();
    let n = reading::read_full(&mut rt.stdin(), &mut input)?;
    let mut out = listing::output_room();
    match listing::list_table(&input[..n], &mut out) {
        Ok(length) => rt.write_all(&out[..length]),
        // the room is long enough
        Err(_) => Ok(()),
    }
}
