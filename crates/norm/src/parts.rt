// The norm of two finite parts by their bits without the signs.
ghost use Rattle.std.specs.Prelude.{◌⊎◌, ◌≡◌, ◌+◌, ◌*◌, ◌^◌, ◌≤◌, ◌<◌};
ghost use Rattle.lists.specs.Prelude.{binary64, of_bits};
ghost use Rattle.std.specs.Int.Signed.{mag};
ghost use Rattle.norm.specs.Checked.{Settles};
ghost use Rattle.norm.specs.Norm.{rounded_root};
ghost use Rattle.norm.specs.Parts.{UpTo, significand_of, units_of};

use super::exponent::{FAR, gap, power, reaches, shift, square_shift};
use super::guess::guessed;
use super::nearest::rounded;
use super::square_root::root_of;
use super::squares::sum_of_squares;

fn significand(a: u64) -> u64
    ensures { result ≡ significand_of a }
{
    if a < 0x10_0000_0000_0000 {
        a
    } else {
        0x10_0000_0000_0000 + a % 0x10_0000_0000_0000
    }
}

// The bits of the norm of the significands qa and qb that are gap shifts apart, the smaller shifted by `unit`, from the digits of the
// root: twice the parts, aligned, so that the root has a digit below the unit. The gap is 0 to 26, `unit` 0 to 2045.
fn by_digits(qa: u64, qb: u64, gap: i16, unit: i16) -> u64
    requires { (qa < 2 ^ 53) × (qb < 2 ^ 53) × UpTo 26 gap × UpTo 2045 unit × ((mag unit ≡ 0) ⊎ (2 ^ 52 ≤ qa)) }
    ensures { Settles qa qb (mag gap) (mag gap + mag unit) result }
{
    let n = sum_of_squares(qa, power(square_shift(gap)), 2 * qb);
    rounded(root_of(n), unit)
}

// The bits of the norm of the parts a and b, a the larger: by a guess, and where that fails from the digits.
pub(crate) fn norm_bits(a: u64, b: u64) -> u64
    requires { (b ≤ a) × (a < 2047 * 2 ^ 52) }
    ensures { (result ≤ 2047 * 2 ^ 52) × (of_bits binary64 result ≡ rounded_root (units_of a ^ 2 + units_of b ^ 2)) }
{
    if b == 0 {
        return a;
    }
    let apart = gap(a, b);
    if reaches(apart, FAR) {
        return a;
    }
    let qa = significand(a);
    let qb = significand(b);
    if let Some(quick) = guessed(qa, qb, apart, shift(a)) {
        return quick;
    }
    by_digits(qa, qb, apart, shift(b))
}
