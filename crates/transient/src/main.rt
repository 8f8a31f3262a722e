// Reads a run file from standard input to its end and writes what document 01 says of it. A read or a write that fails is told on
// standard error.
#![tactic(auto)]

ghost use Rattle.std.specs.Prelude.{◌≤◌, length};

use std::io::{self, Read};

// Reads until `buf` is full, the input ends or a read fails, and answers how many bytes now stand at its start.
fn read_full(input: &mut impl Read, buf: &mut [u8]) -> usize
    ensures { result ≤ length buf.new }
{
    // By hand: a read gives as many bytes as it likes. std's `read_exact` does not tell how many came before an end. Both programs have this, as neither is
    // a library.
    let mut done = 0;
    while done < buf.len() {
        match input.read(&mut buf[done..]) {
            Ok(0) | Err(_) => break,
            Ok(n) => done += n,
        }
    }
    done
}

// Whether the input has ended; a read that fails is no end.
fn at_end(input: &mut impl Read) -> bool {
    let mut byte = [0u8; 1];
    matches!(input.read(&mut byte), Ok(0))
}

// Writes what the library prints for the bytes.
fn answer(rt: &(impl Print + Eprint), bytes: &[u8]) -> io::Result<()> {
    let mut text = [0u8; 512];
    let length = run_file::print(bytes, &mut text);
    if rt.write_all(&text[..length]).is_err() {
        eprintln!(rt; "transient: standard output was not written")?;
    }
    Ok(())
}

fn main(rt: HostRuntime) -> io::Result<()> {
    // The longest well-formed file has 40 + 8·16 + 24·512 = 12,456 bytes. One byte more is read, so that a longer input is
    // refused by its length.
    let mut bytes = [0u8; 12457];
    let mut input = rt.stdin();
    let n = read_full(&mut input, &mut bytes);
    if n < 12457 && !at_end(&mut input) {
        eprintln!(rt; "transient: standard input was not read to its end")?;
        return Ok(());
    }
    answer(&rt, &bytes[..n])
}
