// Words of the input: 16 hexadecimal digits each, and one byte after them, a space or a line feed.
ghost use Rattle.std.specs.Prelude.{◌≤◌, ◌<◌, length};

use complex::bits::from_bits;
use std::io::Read;

// What a word stands for: a whole number, or the number that has its bits.
pub(crate) trait FromWord: Copy {
    fn from_word(bits: u64) -> Self;
}

impl FromWord for u64 {
    fn from_word(bits: u64) -> u64 {
        bits
    }
}

impl FromWord for usize {
    fn from_word(bits: u64) -> usize {
        bits as usize
    }
}

impl FromWord for f64 {
    fn from_word(bits: u64) -> f64 {
        from_bits(bits)
    }
}

// The value of a hexadecimal digit, and 0 for any other byte.
fn digit(b: u8) -> u64
    ensures { result < 16 }
{
    match b {
        b'0'..=b'9' => u64::from(b - b'0'),
        b'a'..=b'f' => u64::from(b - b'a') + 10,
        _ => 0,
    }
}

// The next word's bits, where one is left. A read that fails ends the words, as the input's end does.
pub(crate) fn next(input: &mut impl Read) -> Option<u64> {
    let mut bytes = [0u8; 17];
    input.read_exact(&mut bytes).ok()?;
    Some(bytes[..16].iter().fold(0, |n, b| n << 4 | digit(*b)))
}

// The next word, and that of no bits where none is left.
pub(crate) fn word<T: FromWord>(input: &mut impl Read) -> T {
    T::from_word(next(input).unwrap_or(0))
}

// Reads a slice, its length and then its words, to the start of a room, and answers its length: 0 where there is no room for it.
pub(crate) fn slice<T: FromWord>(input: &mut impl Read, room: &mut [T]) -> usize
    ensures { result ≤ length room.old }
{
    let count = word(input);
    let Some(slice) = room.get_mut(..count) else {
        return 0;
    };
    for x in slice {
        *x = word(input);
    }
    count
}
