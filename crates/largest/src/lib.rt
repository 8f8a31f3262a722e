// The larger of a number and a norm, for a maximum over many numbers: most of them do not raise it, and their norm is not made.
#![tactic(auto)]

mod middle;

ghost use Rattle.std.specs.Prelude.{◌≡◌};
ghost use Rattle.lists.specs.Prelude.{true};
ghost use Rattle.complex.specs.Arithmetic.{larger};
ghost use Rattle.norm.specs.Norm.{norm};
ghost use Rattle.largest.specs.Digits.{half_bits};

use complex::max;
use norm::norm;

// The larger of `largest` and the norm of re + im·i. The norm is made only where a few steps do not show that it is at most `largest`: nearly
// always that is where it is above.
pub fn larger_norm(largest: f64, re: f64, im: f64) -> f64
    ensures { result ≡ larger largest (norm re im) }
{
    if halves_within(largest, re, im) {
        return largest;
    }
    if below_middle(largest, re, im) {
        return largest;
    }
    max(largest, norm(re, im))
}

// The same for a loop over many numbers: the first test, which most of them pass, is short enough for the compiler to put it into the loop. A function
// that has both tests and the norm is too long for that.
pub fn larger_norm_in_loop(largest: f64, re: f64, im: f64) -> f64
    ensures { result ≡ larger largest (norm re im) }
{
    if halves_within(largest, re, im) {
        return largest;
    }
    larger_norm(largest, re, im)
}

// Whether the norm is below the middle above `largest`, so that it rounds to at most that. `to_bits` is undefined at a NaN.
fn below_middle(largest: f64, re: f64, im: f64) -> bool
    ensures { result ≡ true → larger largest (norm re im) ≡ largest }
{
    if (re != re) | (im != im) | (largest != largest) {
        return false;
    }
    let a = f64::to_bits(re) % 0x8000_0000_0000_0000;
    let b = f64::to_bits(im) % 0x8000_0000_0000_0000;
    middle::above_root(f64::to_bits(largest), a, b)
}

// Whether either part with half the other is at most `largest`: the norm is at most the larger part and half the smaller, also rounded.
fn halves_within(largest: f64, re: f64, im: f64) -> bool
    ensures { result ≡ true → larger largest (norm re im) ≡ largest }
{
    if (re != re) | (im != im) {
        return false;
    }
    let a = f64::to_bits(re) % 0x8000_0000_0000_0000;
    let b = f64::to_bits(im) % 0x8000_0000_0000_0000;
    let first = f64::from_bits(a) + f64::from_bits(half_bits(b));
    let second = f64::from_bits(b) + f64::from_bits(half_bits(a));
    (first <= largest) & (second <= largest)
}

// The bits of half a number, and of one below 2^-1021 its own.
#[tactic(auto, unfolding(crate::specs::Digits::half_bits))]
fn half_bits(a: u64) -> u64
    ensures { result ≡ half_bits a }
{
    if a < 0x20_0000_0000_0000 {
        return a;
    }
    a - 0x10_0000_0000_0000
}
