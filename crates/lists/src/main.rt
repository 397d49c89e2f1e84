// For each file that the arguments name: its name with the line of the check, and its listing.
#![tactic(auto)]

use std::env::FillError;
use std::fs::File;
use std::io;
use std::rt::{Env, Files};

// std takes a path as text.
fn open<R: Files>(rt: &R, path: &[u8]) -> io::Result<R::File> {
    match str::from_utf8(path) {
        Ok(text) => File::open(rt, text),
        Err(_) => Err(io::Error::from(io::ErrorKind::InvalidFilename)),
    }
}

// The system's words for an error, without the number that std puts after them.
fn words(error: &str) -> &str {
    match error.split_once(" (os error ") {
        Some((words, _)) => words,
        None => error,
    }
}

// A line: what failed, a colon and why.
fn fail<R: Alloc>(rt: &R, errors: &impl Print, path: &[u8], why: io::Error) -> io::Result<()> {
    let text = format!(in rt.alloc(); "{why}")?;
    errors.write_all(path)?;
    errors.write_all(b": ")?;
    errors.println(words(text.as_str()))
}

// One room of each kind serves for all files: of what is put there, only that is read. Made here, each file would pay for their zeros.
fn list_file<R: Files + Print + Alloc>(
    rt: &R,
    errors: &impl Print,
    path: &[u8],
    input: &mut [u8],
    out: &mut [u8],
) -> io::Result<()> {
    let mut file = match open(rt, path) {
        Ok(file) => file,
        Err(why) => return fail(rt, errors, path, why),
    };
    let n = match reading::read_full(&mut file, input) {
        Ok(n) => n,
        Err(why) => return fail(rt, errors, path, why),
    };
    rt.write_all(path)?;
    rt.write_all(b": ")?;
    if let Ok(length) = listing::check_line(&input[..n], out) {
        rt.write_all(&out[..length])?;
    }
    match listing::list_table(&input[..n], out) {
        Ok(length) => rt.write_all(&out[..length]),
        // the room is long enough
        Err(_) => Ok(()),
    }
}

// The path that argument `i` is, put into `room`. One that is too long names no file.
fn path_of<'a>(rt: &impl Env, i: usize, room: &'a mut [u8]) -> Option<&'a [u8]> {
    match rt.arg(i, room) {
        Ok(n) => Some(&room[..n]),
        Err(FillError::TooLong) => Some(b""),
        Err(FillError::NotPresent) => None,
    }
}

fn main(rt: HostRuntime) -> io::Result<()> {
    let mut room = [0; 4096];
    let mut input = listing::input_room();
    let mut out = listing::output_room();
    for i in 1..usize::MAX {
        let Some(path) = path_of(&rt, i, &mut room) else {
            break;
        };
        list_file(&rt, &rt.stderr(), path, &mut input, &mut out)?;
    }
    Ok(())
}
