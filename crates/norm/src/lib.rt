// The norm of a complex number, correctly rounded (document 01, "Arithmetic under everything"): the meaning is in specs/.
#![tactic(auto)]

mod exponent;
mod guess;
mod near_root;
mod nearest;
mod parts;
mod square_root;
mod squares;

ghost use Rattle.std.specs.Prelude.{◌≡◌};
ghost use Rattle.lists.specs.Prelude.{max, min};
ghost use Rattle.norm.specs.Norm.{norm};
ghost use Rattle.norm.specs.Parts.{unsigned};

// The bits of positive infinity: those of a finite number without its sign are below, those of a NaN above.
const INFINITY: u64 = 0x7ff0_0000_0000_0000;

// The norm of re + im·i: the binary64 nearest to √(re² + im²), ties to the even significand.
pub fn norm(re: f64, im: f64) -> f64
    ensures { result ≡ norm re im }
{
    let a = magnitude(re);
    let b = magnitude(im);
    if a == INFINITY {
        return f64::from_bits(INFINITY);
    }
    if b == INFINITY {
        return f64::from_bits(INFINITY);
    }
    if a > INFINITY {
        return 0.0 / 0.0;
    }
    if b > INFINITY {
        return 0.0 / 0.0;
    }
    f64::from_bits(parts::norm_bits(larger(a, b), smaller(a, b)))
}

// Two functions and no branch in the caller: which part is the larger could not be foretold.
fn larger(a: u64, b: u64) -> u64
    ensures { result ≡ max a b }
{
    if a < b { b } else { a }
}

fn smaller(a: u64, b: u64) -> u64
    ensures { result ≡ min a b }
{
    if a < b { a } else { b }
}

// The bits of x without its sign. `to_bits` is undefined at a NaN, which keeps the quiet pattern.
fn magnitude(x: f64) -> u64
    ensures { result ≡ unsigned x }
{
    if x != x {
        return 0x7ff8_0000_0000_0000;
    }
    f64::to_bits(x) % 0x8000_0000_0000_0000
}
