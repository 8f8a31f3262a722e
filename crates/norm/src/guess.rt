// A guess at the rounded root, and its check. Where the check fails the digits decide.
ghost use Rattle.std.specs.Prelude.{IfSome, ◌≡◌, ◌+◌, ◌*◌, ◌/◌, ◌^◌, ◌≤◌, ◌<◌};
ghost use Rattle.lists.specs.Prelude.{ℕ};
ghost use Rattle.std.specs.Int.Signed.{mag};
ghost use Rattle.norm.specs.Parts.{UpTo};
ghost use Rattle.norm.specs.Checked.{Between, Covers, Ranked, Settles, whole_squares};

use super::exponent::{below_unit, encoded, fourths, longer, missing, places, power};
use super::near_root::near_root;

fn one_if(b: bool) -> u64
    ensures { result ≤ 1 }
{
    if b { 1 } else { 0 }
}

// The whole part of s² / 2^44.
fn high_square(s: u64) -> u64
    requires { s < 2 ^ 54 }
    ensures { result ≡ s * s / 2 ^ 44 }
{
    (s as u128 * s as u128 >> 44) as u64
}

// The one of m and its neighbours that is nearest, where the check tells. Squares are counted in steps of 2^44, of which the sum has t and less than two
// more. The middles of the steps beside m and its neighbours are base, base + 2 and so on; their squares lie `apart` or a little more.
// No branch picks the step: it could not be foretold.
fn settled(t: u64, m: u64) -> Option<u64>
    requires { (2 ^ 52 ≤ m) × (m < 2 ^ 53) }
    ensures { IfSome result (λ q. (sum more : ℕ) → Covers t sum more → Between sum q (2 ^ more)) }
{
    let base = 2 * m - 3;
    let rest = t.checked_sub(high_square(base))?;
    let apart = base >> 42;
    let i = one_if(apart < rest) + one_if(2 * apart < rest);
    let below = i * apart;
    if rest < below + 4 || rest > below + (apart - 2) {
        return None;
    }
    Some(m - 1 + i)
}

// The same for a root that is rounded at the unit, the last d digits of m being below it: the one of m / 2^d and the next that is nearest,
// and none where that has a digit more. d is 0 to 52.
fn settled_at_unit(t: u64, m: u64, d: i16) -> Option<u64>
    requires { (2 ^ 52 ≤ m) × (m < 2 ^ 53) × UpTo 52 d }
    ensures { IfSome result (λ q. (0 < q) × (q < 2 ^ 53) × ((sum more : ℕ) → Covers t sum more → Between sum q (2 ^ (mag d + more)))) }
{
    let unit = power(d);
    let whole = m >> places(d);
    let q = whole + one_if(high_square((2 * whole + 1) * unit) < t);
    let high = (2 * q + 1) * unit;
    if high >= 0x40_0000_0000_0000 {
        return None;
    }
    let below = high_square(high - 2 * unit);
    let above = high_square(high);
    if t <= below || above <= t || above - t < 2 {
        return None;
    }
    Some(q)
}

// The sum of two squares, in steps of 2^44·4^more; `more` is 0 or 1.
#[derive(Clone, Copy)]
struct Sum {
    t: u64,
    more: i16,
}

// The sum of the squares of 2·qa and 2·qb / 2^gap, in as many steps as fit a word, if they do. The gap is 0 to 26.
fn summed(qa: u64, qb: u64, gap: i16) -> Option<Sum>
    requires { (qa < 2 ^ 53) × (qb < 2 ^ 53) × UpTo 26 gap }
    ensures { IfSome result (λ s. UpTo 1 s.more × Covers s.t (whole_squares qa qb (mag gap)) (mag s.more)) }
{
    let large = high_square(2 * qa);
    let small = high_square(2 * qb);
    let aligned = fourths(small, gap);
    let more = longer(large, aligned);
    let t = fourths(large, more).checked_add(fourths(aligned, more))?;
    Some(Sum { t, more })
}

// The bits of the norm of the significands qa and qb that are gap shifts apart, the larger shifted by `shift`, rounded to 53 digits, where
// the guess settles them. The gap is 0 to 26, the shift 0 to 2045.
fn at_53_digits(qa: u64, qb: u64, gap: i16, shift: i16) -> Option<u64>
    requires { (qa < 2 ^ 53) × (qb < 2 ^ 53) × UpTo 26 gap × UpTo 2045 shift }
    ensures { IfSome result (Settles qa qb (mag gap) (mag shift)) }
{
    let Sum { t, more } = summed(qa, qb, gap)?;
    if t < 0x4000_0000_0000_0000 {
        return None;
    }
    let q = settled(t, near_root(t))?;
    if q <= 0x10_0000_0000_0000 || q >= 0x20_0000_0000_0000 {
        return None;
    }
    Some(encoded(q, more, shift))
}

// The same for parts of a and b units, both without their leading digit, rounded at the unit: so many units are their own bits.
fn at_unit(a: u64, b: u64) -> Option<u64>
    requires { (0 < a) × (a < 2 ^ 52) × (b ≤ a) }
    ensures { IfSome result (Settles a b 0 0) }
{
    let up = missing(a);
    let by = places(up);
    let Sum { t, more } = summed(a << by, b << by, 0)?;
    if t < 0x4000_0000_0000_0000 {
        return None;
    }
    settled_at_unit(t, near_root(t), below_unit(up, more))
}

// The bits of the norm of the significands qa and qb that are gap shifts apart, the larger shifted by `shift`, where the guess settles them.
// The gap is 0 to 26, the shift 0 to 2045.
pub(crate) fn guessed(qa: u64, qb: u64, gap: i16, shift: i16) -> Option<u64>
    requires { (qa < 2 ^ 53) × (qb < 2 ^ 53) × UpTo 26 gap × UpTo 2045 shift × Ranked qa qb (mag shift) }
    ensures { IfSome result (Settles qa qb (mag gap) (mag shift)) }
{
    if qa < 0x10_0000_0000_0000 {
        at_unit(qa, qb)
    } else {
        at_53_digits(qa, qb, gap, shift)
    }
}
