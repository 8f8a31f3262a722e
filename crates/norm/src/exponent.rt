// The exponents: how far a part is shifted, how far apart two are, what the leading zeros of a sum or a root say, and the bits of a
// significand at its step. Each is an `i16` that stands for a natural number, and its range is in its comment; the largest is 2072.
ghost use Rattle.std.specs.Prelude.{◌≡◌, ◌+◌, ◌-◌, ◌*◌, ◌/◌, ◌^◌, ◌≤◌, ◌<◌};
ghost use Rattle.lists.specs.Prelude.{leb, pos};
ghost use Rattle.std.specs.Int.Count.{count_leading_zeros};
ghost use Rattle.std.specs.Int.Signed.{mag};
ghost use Rattle.norm.specs.Parts.{UpTo, shift_of, Rounded, Encodes};
ghost use Rattle.norm.specs.Words.{Long, Dropped};

// A part this many shifts or more below changes nothing.
pub(crate) const FAR: i16 = 27;

// The leading zeros of a word, 0 to 64.
fn zeros(x: u64) -> i16
    ensures { result ≡ pos (count_leading_zeros 64 x) }
{
    u64::leading_zeros(x) as i16
}

// A shift's own operand, 0 to 64.
pub(crate) fn places(k: i16) -> u64
    requires { UpTo 64 k }
    ensures { result ≡ mag k }
{
    k as u64
}

// Whether an exponent is at least another, both 0 to 2100.
pub(crate) fn reaches(k: i16, least: i16) -> bool
    requires { UpTo 2100 k × UpTo 2100 least }
    ensures { result ≡ leb (mag least) (mag k) }
{
    least <= k
}

// How far the part of the bits a is shifted, 0 to 2045: its exponent's field counted from 1, and a field of 0 counts as 1.
pub(crate) fn shift(a: u64) -> i16
    requires { a < 2047 * 2 ^ 52 }
    ensures { result ≡ pos (shift_of a) }
{
    if a < 0x10_0000_0000_0000 {
        0
    } else {
        (a >> 52) as i16 - 1
    }
}

// How many shifts the part a, the larger, is above b, 0 to 2045.
pub(crate) fn gap(a: u64, b: u64) -> i16
    requires { (b ≤ a) × (a < 2047 * 2 ^ 52) }
    ensures { result ≡ pos (shift_of a - shift_of b) }
{
    shift(a) - shift(b)
}

// How far the significand q, which is without its leading digit, is below one that has it, 1 to 52: by its leading zeros.
pub(crate) fn missing(q: u64) -> i16
    requires { (0 < q) × (q < 2 ^ 52) }
    ensures { UpTo 52 result × (1 ≤ mag result) × (q * 2 ^ mag result < 2 ^ 53) }
{
    zeros(q) - 11
}

// How many digits stand below the unit once the parts are raised by `up` and their sum is cut by `more`, 0 to 52.
pub(crate) fn below_unit(up: i16, more: i16) -> i16
    requires { UpTo 52 up × (1 ≤ mag up) × UpTo 1 more }
    ensures { result ≡ pos (mag up - mag more) }
{
    up - more
}

// 2^d, d is 0 to 54.
pub(crate) fn power(d: i16) -> u64
    requires { UpTo 54 d }
    ensures { result ≡ 2 ^ mag d }
{
    1 << places(d)
}

// 1 where the sum of the squares a and b has 65 digits, one more than a word: half of it has no leading zeros. The 1 stands for what the
// halves leave out.
pub(crate) fn longer(a: u64, b: u64) -> i16
    ensures { UpTo 1 result }
{
    if zeros((a >> 1) + (b >> 1) + 1) == 0 {
        1
    } else {
        0
    }
}

// The whole part of x / 4^k.
pub(crate) fn fourths(x: u64, k: i16) -> u64
    requires { UpTo 27 k }
    ensures { result ≡ x / 2 ^ (2 * mag k) }
{
    x >> places(k + k)
}

// How far the square of a part that is gap shifts above is raised, four times, to the units of the other's, 2 to 54.
pub(crate) fn square_shift(gap: i16) -> i16
    requires { UpTo 26 gap }
    ensures { result ≡ pos (2 * mag gap + 2) }
{
    gap + gap + 2
}

// How many binary digits x has, 0 to 128.
fn digits(x: u128) -> i16
    ensures { UpTo 128 result × Long x (mag result) }
{
    128 - x.leading_zeros() as i16
}

// How many digits of a root are dropped, 1 to 28: all but 53, and at least the one below the unit.
pub(crate) fn dropped(root: u128) -> i16
    requires { root < 2 ^ 81 }
    ensures { UpTo 28 result × Dropped root (mag result) }
{
    let z = digits(root);
    if reaches(z, 54) { z - 53 } else { 1 }
}

// How many of the k digits dropped of a root stand from the unit on, 0 to 27: one is below it.
pub(crate) fn from_unit(k: i16) -> i16
    requires { UpTo 28 k × (1 ≤ mag k) }
    ensures { result ≡ pos (mag k - 1) }
{
    k - 1
}

// A field of the bits, 0 to 2047, at its place.
fn field_bits(field: i16) -> u64
    requires { UpTo 2047 field }
    ensures { result ≡ mag field * 2 ^ 52 }
{
    field as u64 * 0x10_0000_0000_0000
}

// The bits of m steps of 2^(more + shift) units: "the count of leading zeros gives the exponent" (document 01). It is 11 where the
// significand m has all 53 digits, 10 where rounding carried it to 2^53, which is 2^52 at the next step, and more where the number is
// subnormal. A significand at a step of 2^2046 units is past the largest number, and a carry below can raise the field up to infinity's.
// `more` is 0 to 27, `shift` 0 to 2045, the step 0 to 2072, what is carried 0 or 1, the field 1 to 2047.
pub(crate) fn encoded(m: u64, more: i16, shift: i16) -> u64
    requires { Rounded m (mag more + mag shift) × UpTo 27 more × UpTo 2045 shift }
    ensures { Encodes result m (mag more + mag shift) }
{
    let step = more + shift;
    if reaches(step, 2046) {
        return 0x7ff0_0000_0000_0000;
    }
    let leading = zeros(m);
    if reaches(leading, 12) {
        return m;
    }
    let carried = 11 - leading;
    field_bits(step + carried + 1) + (m >> places(carried)) % 0x10_0000_0000_0000
}
