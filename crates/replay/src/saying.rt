// Lines on standard output: words, decimal numbers, and bytes as hexadecimal. Each piece is written by itself: what can't be written is passed over, and
// the next piece is tried. So no line is one `println!`, which leaves out what follows a piece that can't be written.
ghost use Rattle.std.specs.Prelude.{◌≤◌, ◌<◌, length};

// The bytes whose digits are written at once.
const PART: usize = 2048;

pub fn word(rt: &impl Print, text: &[u8]) {
    let _ = rt.write_all(text);
}

pub fn number(rt: &impl Print, n: u32) {
    let _ = rt.print(n);
}

// ` N` for each number
pub fn values(rt: &impl Print, numbers: &[u32]) {
    for n in numbers {
        word(rt, b" ");
        number(rt, *n);
    }
}

pub fn end(rt: &impl Print) {
    word(rt, b"\n");
}

// `LABEL N ..`
pub fn line(rt: &impl Print, label: &[u8], numbers: &[u32]) {
    word(rt, label);
    values(rt, numbers);
    end(rt);
}

fn digit(n: u8) -> u8
    requires { n < 16 }
{
    if n < 10 { b'0' + n } else { b'a' - 10 + n }
}

fn part(rt: &impl Print, s: &[u8])
    requires { length s.now ≤ 2048 }
{
    let mut text = [0; 2 * PART];
    for (i, byte) in s.iter().enumerate() {
        text[2 * i] = digit(byte / 16);
        text[2 * i + 1] = digit(byte % 16);
    }
    word(rt, &text[..2 * s.len()]);
}

// ` BYTES`, and ` -` where there are none
pub fn bytes(rt: &impl Print, s: &[u8]) {
    word(rt, b" ");
    if s.is_empty() {
        word(rt, b"-");
        return;
    }
    for piece in s.chunks(PART) {
        part(rt, piece);
    }
}
