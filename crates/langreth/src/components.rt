// The four components of a Langreth product, each by the sums at all places (document 01, Langreth).
ghost use Rattle.std.specs.Prelude.{is_ok, ◌≡◌, ◌∷◌, ◌++◌};
ghost use Rattle.lists.specs.Prelude.{true, [], length};
ghost use Rattle.two_time.specs.SizeChecks.{SizesPassed};
ghost use Rattle.langreth.specs.Calls.{correlation_numbers, correlation_finite, components_of, listed, product_of, product_finite};
ghost use Rattle.langreth.specs.Operand.{held};
ghost use Rattle.langreth.specs.Added.{plus, numbers_finite};

use complex::is_finite;
use sums::weighted_sums;
use two_time::sums::{SumError, Summed, Sums};

// The four components of an operand, as they are lent.
#[derive(Clone, Copy)]
pub(crate) struct Operand<'a> {
    pub(crate) retarded: &'a [f64],
    pub(crate) advanced: &'a [f64],
    pub(crate) lesser: &'a [f64],
    pub(crate) greater: &'a [f64],
}

// Adds a function to another, and answers whether all of the sum is finite. Real and imaginary parts are added alike, so the
// numbers are taken one by one.
fn add_functions(sum: &mut [f64], other: &[f64]) -> bool
    requires { length sum.old ≡ length other.now }
    ensures { (result ≡ numbers_finite (plus sum.old other.now)) × (sum.new ≡ plus sum.old other.now) }
{
    let mut all = true;
    // By index: behind `iter_mut().zip(other)` a proof knows nothing of the numbers.
    for i in 0..sum.len() {
        let z = sum[i] + other[i];
        all = all & is_finite(z);
        sum[i] = z;
    }
    all
}

// One correlation, lesser or greater: left_retarded with right, plus left with right_advanced, where all that is made for it is
// finite; at the first that is not the work ends. `scratch` is left with the second sum.
fn correlation(
    times: &[f64],
    left_retarded: &[f64],
    right: &[f64],
    left: &[f64],
    right_advanced: &[f64],
    points: usize,
    orbitals: usize,
    out: &mut [f64],
    scratch: &mut [f64],
) -> Summed
    requires { SizesPassed points orbitals true (left_retarded.now ∷ right.now ∷ left.now ∷ right_advanced.now ∷ out.old ∷ scratch.old ∷ []) }
    ensures { (is_ok result ≡ correlation_finite points orbitals times.now left_retarded.now right.now left.now right_advanced.now)
        × (is_ok result ≡ true → out.new ≡ correlation_numbers points orbitals times.now left_retarded.now right.now left.now right_advanced.now) }
{
    weighted_sums(
        Sums::Full,
        times,
        left_retarded,
        right,
        points,
        orbitals,
        out,
    )?;
    weighted_sums(
        Sums::Full,
        times,
        left,
        right_advanced,
        points,
        orbitals,
        scratch,
    )?;
    if add_functions(out, scratch) {
        Ok(())
    } else {
        Err(SumError::Overflow)
    }
}

// The four components, where all that is made for them is finite; at the first that is not the work ends. An output serves as
// scratch before it gets its own values.
pub(crate) fn work(
    times: &[f64],
    left: Operand,
    right: Operand,
    points: usize,
    orbitals: usize,
    retarded: &mut [f64],
    advanced: &mut [f64],
    lesser: &mut [f64],
    greater: &mut [f64],
) -> Summed
    requires { SizesPassed points orbitals true
        (listed (held left)
        ++ listed (held right)
        ++ listed (components_of retarded.old advanced.old lesser.old greater.old)) }
    ensures { let a = held left.entry in
        let b = held right.entry in
        (is_ok result ≡ product_finite points orbitals times.now a b)
        × (is_ok result ≡ true → components_of retarded.new advanced.new lesser.new greater.new ≡ product_of points orbitals times.now a b) }
{
    correlation(
        times,
        left.retarded,
        right.lesser,
        left.lesser,
        right.advanced,
        points,
        orbitals,
        lesser,
        greater,
    )?;
    correlation(
        times,
        left.retarded,
        right.greater,
        left.greater,
        right.advanced,
        points,
        orbitals,
        greater,
        advanced,
    )?;
    weighted_sums(
        Sums::Causal,
        times,
        left.retarded,
        right.retarded,
        points,
        orbitals,
        retarded,
    )?;
    weighted_sums(
        Sums::AntiCausal,
        times,
        left.advanced,
        right.advanced,
        points,
        orbitals,
        advanced,
    )
}
