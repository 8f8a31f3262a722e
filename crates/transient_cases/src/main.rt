// Runs the library `run_file` on the run files that the arguments name, and writes each name and then the text for its bytes.
#![tactic(auto)]

ghost use Rattle.std.specs.Prelude.{◌≤◌, length};

use std::env::{Env, FillError};
use std::fs::File;
use std::io::{self, Cursor, Read, Write};
use std::rt::Files;

// Reads until `buf` is full, the input ends or a read fails, and answers how many bytes now stand at its start.
fn read_full(input: &mut impl Read, buf: &mut [u8]) -> usize
    ensures { result ≤ length buf.new }
{
    // By hand: a read gives as many bytes as it likes. std's `read_exact` does not tell how many came before an end. Both programs have this, as neither is
    // a library.
    let mut done = 0;
    while done < buf.len() {
        match input.read(&mut buf[done..]) {
            Ok(0) | Err(_) => break,
            Ok(n) => done += n,
        }
    }
    done
}

fn text(rt: &impl Print, bytes: &[u8]) -> io::Result<()> {
    rt.write_all(bytes)
}

// Opens the file of a name for reading. Only text names a file.
fn open<R: Files>(files: &R, name: &[u8]) -> io::Result<R::File> {
    match str::from_utf8(name) {
        Ok(path) => File::open(files, path),
        Err(_) => Err(io::Error::from(io::ErrorKind::InvalidData)),
    }
}

// The words of an error's text: what stands before the system's number or the zeros after the text.
fn words(text: &[u8]) -> &[u8] {
    // By index: what follows a place is looked at with it, and the text may end within it.
    for i in 0..text.len() {
        if text[i] == 0 || text[i..].starts_with(b" (os error ") {
            return &text[..i];
        }
    }
    text
}

// Writes a line to `to`: the name that could not be opened, a colon and why.
fn fail(to: &impl Print, name: &[u8], error: &io::Error) -> io::Result<()> {
    let mut told = Cursor::new([0u8; 512]);
    write!(told, "{error}")?;
    to.write_all(name)?;
    to.write_all(b": ")?;
    to.write_all(words(told.get_ref()))?;
    to.write_all(b"\n")
}

// Writes what is printed for the bytes.
fn answer(rt: &impl Print, bytes: &[u8]) -> io::Result<()> {
    let mut room = [0u8; 512];
    let length = run_file::print(bytes, &mut room);
    text(rt, &room[..length])
}

// Runs the file that an argument names, and answers whether there is such an argument. A file that cannot be opened is told to `errors`.
// An argument longer than the room is read as an empty name, which no file has.
fn run_case(
    rt: &(impl Env + Files + Print),
    errors: &impl Print,
    index: usize,
) -> io::Result<bool> {
    let mut room = [0u8; 4096];
    let length = match rt.arg(index, &mut room) {
        Ok(length) => length,
        Err(FillError::TooLong) => 0,
        Err(FillError::NotPresent) => return Ok(false),
    };
    let name = &room[..length];
    match open(rt, name) {
        Ok(mut file) => {
            text(rt, name)?;
            text(rt, b"\n")?;
            let mut bytes = [0u8; 12457];
            let n = read_full(&mut file, &mut bytes);
            answer(rt, &bytes[..n])?;
        }
        Err(error) => fail(errors, name, &error)?,
    }
    Ok(true)
}

fn main(rt: HostRuntime) -> io::Result<()> {
    for index in 1..usize::MAX {
        if !run_case(&rt, &rt.stderr(), index)? {
            break;
        }
    }
    Ok(())
}
