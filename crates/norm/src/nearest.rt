// The root rounded to 53 digits or at whole units, ties to the even significand.
ghost use Rattle.std.specs.Prelude.{◌⊎◌, ◌≡◌, ◌+◌, ◌*◌, ◌^◌, ◌≤◌, ◌<◌};
ghost use Rattle.lists.specs.Prelude.{ℕ, binary64, of_bits};
ghost use Rattle.std.specs.Int.Signed.{mag};
ghost use Rattle.norm.specs.Parts.{UpTo};
ghost use Rattle.norm.specs.Norm.{rounded_root};
ghost use Rattle.norm.specs.Words.{read, RoundsBy};

use super::exponent::{dropped, encoded, from_unit, places};
use super::square_root::Root;

// 1 where the root is above the middle of a step, or in it and the significand q is odd. The digits below the step are `tail`, half a step is `half`,
// and the root leaves `rest`.
fn rounding_up(q: u64, tail: u128, half: u128, rest: u128) -> u64
    ensures { RoundsBy q tail half rest result }
{
    if tail < half {
        return 0;
    }
    if tail == half && rest == 0 {
        return q % 2;
    }
    1
}

// The bits of the norm: s has the root in halves of 2^shift units. The shift is 0 to 2045.
pub(crate) fn rounded(s: Root, shift: i16) -> u64
    requires { (s.rest ≤ 2 * s.root) × (s.root < 2 ^ 81) × UpTo 2045 shift × ((mag shift ≡ 0) ⊎ (2 ^ 53 ≤ s.root)) }
    ensures { (result ≤ 2047 * 2 ^ 52) × ((n : ℕ) → read s * 4 ^ mag shift ≡ 4 * n → of_bits binary64 result ≡ rounded_root n) }
{
    let k = dropped(s.root);
    let below = from_unit(k);
    let half = 1u128 << places(below);
    let q = (s.root >> places(k)) as u64;
    let more = rounding_up(q, s.root % (2 * half), half, s.rest);
    encoded(q + more, below, shift)
}
