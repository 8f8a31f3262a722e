// The square root digit by digit. What has been read of the number is root² + rest, with rest at most 2·root.
ghost use Rattle.std.specs.Prelude.{◌+◌, ◌*◌, ◌^◌, ◌≤◌, ◌<◌};
ghost use Rattle.norm.specs.Words.{total, read, Reads};

use super::squares::Squares;

#[derive(Clone, Copy)]
pub(crate) struct Root {
    pub(crate) root: u128,
    pub(crate) rest: u128,
}

// Reads two more binary digits, d: the root has one more, which is 1 where 4·root + 1 does not exceed what is left.
fn read_digits(s: Root, d: u64) -> Root
    requires { (s.rest ≤ 2 * s.root) × (s.root < 2 ^ 82) × (d < 4) }
    ensures { Reads result (4 * read s + d) }
{
    let rest = 4 * s.rest + d as u128;
    match rest.checked_sub(4 * s.root + 1) {
        Some(rest) => Root {
            root: 2 * s.root + 1,
            rest,
        },
        None => Root {
            root: 2 * s.root,
            rest,
        },
    }
}

// Reads a word, two digits at a time from the top.
fn read_word(s: Root, word: u64) -> Root
    requires { (s.rest ≤ 2 * s.root) × (read s < 2 ^ 98) }
    ensures { Reads result (read s * 2 ^ 64 + word) }
{
    let mut r = s;
    let mut left = word;
    for _ in 0..32u64 {
        r = read_digits(r, left >> 62);
        left = left << 2;
    }
    r
}

// Reads the first word. A word of 0 has no digits of the root: so it is for parts near each other.
fn first_word(word: u64) -> Root
    ensures { Reads result word }
{
    let none = Root { root: 0, rest: 0 };
    if word == 0 {
        return none;
    }
    read_word(none, word)
}

// The root of n and what it leaves.
pub(crate) fn root_of(n: Squares) -> Root
    requires { total n < 2 ^ 162 }
    ensures { Reads result (total n) }
{
    let high = (n.top >> 64) as u64;
    let mid = (n.top % 0x1_0000_0000_0000_0000) as u64;
    read_word(read_word(first_word(high), mid), n.low)
}
