// Whether the middle of a step is above a root, by the bits of the numbers.
ghost use Rattle.std.specs.Prelude.{◌≡◌, ◌+◌, ◌*◌, ◌^◌, ◌≤◌, ◌<◌};
ghost use Rattle.lists.specs.Prelude.{true};
ghost use Rattle.largest.specs.Digits.{ten_more, over, BelowMiddle};

// The significand of the bits a, and ten digits behind it. A subnormal number is given a leading digit too, which makes it too large.
fn digits(a: u64) -> u64
    ensures { result ≡ ten_more a }
{
    (0x10_0000_0000_0000 + a % 0x10_0000_0000_0000) * 0x400
}

// The square of s in steps of 2^64, cut: that of s + 1 is less than 3 above.
fn high_square(s: u64) -> u64
    requires { s < 2 ^ 63 }
    ensures { (result < 2 ^ 62) × (result * 2 ^ 64 ≤ s * s) × ((s + 1) * (s + 1) < (result + 3) * 2 ^ 64) }
{
    (s as u128 * s as u128 >> 64) as u64
}

// The square of the part a in the same steps, its digits shifted down and cut.
fn part_square(a: u64, down: u64) -> u64
    requires { down ≤ 63 }
    ensures { (result < 2 ^ 62) × (over a down * over a down < (result + 3) * 2 ^ 64) }
{
    high_square(digits(a) >> down)
}

// Whether the middle of the step above l is plainly above the root of the sum of the parts' squares, so that this rounds to at most l. All
// digits stand at the exponent of l, whose step has 1024 parts, and 6 is what the two squares leave out. An l that is subnormal, negative,
// infinite or NaN is not looked at, nor a part whose exponent is above that of l or more than 63 below it.
pub(crate) fn above_root(l: u64, a: u64, b: u64) -> bool
    ensures { result ≡ true → BelowMiddle l a b }
{
    let field = l >> 52;
    let down_a = field.wrapping_sub(a >> 52);
    let down_b = field.wrapping_sub(b >> 52);
    if field == 0 || field > 2046 || down_a > 63 || down_b > 63 {
        return false;
    }
    part_square(a, down_a) + part_square(b, down_b) + 6 <= high_square(digits(l) + 512)
}
