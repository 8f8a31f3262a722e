// The sum of two squares, one of them raised, in more digits than a `u128` has.
ghost use Rattle.std.specs.Prelude.{◌≡◌, ◌+◌, ◌*◌, ◌^◌, ◌≤◌, ◌<◌};
ghost use Rattle.norm.specs.Words.{total};

// top·2^64 + low
#[derive(Clone, Copy)]
pub(crate) struct Squares {
    pub(crate) top: u128,
    pub(crate) low: u64,
}

const WORD: u128 = 0x1_0000_0000_0000_0000;

// a²·raise + b²
pub(crate) fn sum_of_squares(a: u64, raise: u64, b: u64) -> Squares
    requires { (a < 2 ^ 53) × (raise ≤ 2 ^ 54) × (b < 2 ^ 54) }
    ensures { total result ≡ a * a * raise + b * b }
{
    let square = a as u128 * a as u128;
    let by = raise as u128;
    let low = square % WORD * by + b as u128 * b as u128;
    Squares {
        top: square / WORD * by + low / WORD,
        low: (low % WORD) as u64,
    }
}
