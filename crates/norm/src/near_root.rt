// A whole number near a root, from a table of the inverse root and integer steps. It decides nothing: what it makes is checked.
ghost use Rattle.std.specs.Prelude.{◌^◌, ◌≤◌, ◌<◌};

// 2^15 / √y at y = 1/4, at each further 1/32, and at 1, each a little lower: the lines between are as far below the curve at their ends as
// above it within, at most 8 parts in 10^4.
const INVERSES: [u16; 25] = [
    65488, 61752, 58590, 55868, 53493, 51396, 49529, 47851, 46332, 44950, 43684, 42520, 41444,
    40445, 39516, 38648, 37834, 37070, 36350, 35671, 35028, 34419, 33841, 33291, 32766,
];

fn wide(x: u16) -> u64
    ensures { result < 2 ^ 16 }
{
    x as u64
}

// The product of the low words of 32 digits.
fn product(a: u64, b: u64) -> u64 {
    (a % 0x1_0000_0000) * (b % 0x1_0000_0000)
}

// A number at most 2 below √t·2^21 and not above it, as measured: only its range is proved. With y = t / 2^64: `first` is 2^31 / √y by
// the table's line; `ratio` is y·first² in units of 2^-30, near 1; `inverse` is first·(15 − 10·ratio + 3·ratio²) / 8, a step of the third
// order, a little too small (at most 5 parts in 10^9), so that `root`, the leading 32 digits but for the last few, is not above the root.
// What its square leaves, times half the inverse, is Newton's step and makes the other digits.
pub(crate) fn near_root(t: u64) -> u64
    requires { 2 ^ 62 ≤ t }
    ensures { (2 ^ 52 ≤ result) × (result < 2 ^ 53) }
{
    let y = t >> 32;
    let i = (t >> 59) as usize - 8;
    let inverses = INVERSES;
    let from = wide(inverses[i]);
    let fall = product(
        std::num::wrapping_sub_u64(from, wide(inverses[i + 1])),
        (t >> 43) % 0x1_0000,
    );
    let first = std::num::wrapping_sub_u64(from * 0x1_0000, fall);
    let ratio = product(y, product(first, first) >> 32) >> 32;
    let slope = std::num::wrapping_sub_u64(0xa000_0000, 3 * ratio >> 2);
    let factor = std::num::wrapping_sub_u64(0x3bff_ffff_0000_0000, product(ratio, slope)) >> 30;
    let inverse = product(first, factor) >> 32;
    let root = product(y, inverse) >> 30;
    let rest = std::num::wrapping_sub_u64(t, product(root, root)) >> 8;
    let near = root * 0x20_0000 + (product(rest, inverse) >> 34);
    0x10_0000_0000_0000 + near % 0x10_0000_0000_0000
}
